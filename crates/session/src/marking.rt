//! Texts with marks, as a screen shows them or without one.

ghost use Rattle.std.specs.Prelude.{◌≡◌, IfOk};
ghost use Rattle.std.specs.List.{count_by};
ghost use Rattle.zcore_standard.specs.Windows.{is_new_line};
ghost use Rattle.machine_picture.specs.Marks.{marked};
ghost use Rattle.machine_picture.specs.Represented.{styles_of};
ghost use Rattle.machine_picture.specs.Styles.{without_part};
ghost use Rattle.session.specs.Showing as definitions;

use machine_picture::{Styles, put_marked};
use std::alloc::{AllocError, Global};

/// A text with marks where its style changes, of a turn that drew this. Where a screen draws so many rows that it shows
/// the whole upper window, what a read shows of that is left out.
///
/// # Errors
///
/// Memory was refused.
pub(crate) fn marked_beside(
    alloc: Global,
    rows: Option<u8>,
    drawing: &[u8],
    text: &[u8],
    styles: &Styles,
) -> Result<Vec<u8>, AllocError>
    ensures { IfOk result (λ written. written.items
        ≡ definitions.marked_beside rows drawing.now text.now (styles_of styles.now)) }
{
    if is_drawn_whole(rows, drawing) {
        return marked_without_window(alloc, text, styles);
    }
    marked_text(alloc, text, styles.each())
}

/// Whether a screen that draws at most so many rows of the upper window shows the whole drawing.
fn is_drawn_whole(rows: Option<u8>, drawing: &[u8]) -> bool
    ensures { result ≡ definitions.is_drawn_whole rows drawing.now }
{
    match rows {
        None => false,
        Some(rows) => new_lines(drawing) < rows as usize,
    }
}

/// How many new lines a text has.
fn new_lines(text: &[u8]) -> usize
    ensures { result ≡ count_by is_new_line text.now }
{
    text.iter().filter(|byte| **byte == b'\n').count()
}

/// A text with marks, without what a read has shown of the upper window.
fn marked_without_window(alloc: Global, text: &[u8], styles: &Styles) -> Result<Vec<u8>, AllocError>
    ensures { IfOk result (λ written. written.items ≡ marked (without_part (styles_of styles.now).part text.now)
        (without_part (styles_of styles.now).part (styles_of styles.now).each)) }
{
    let text = styles.without_window(alloc, text)?;
    let each = styles.without_window(alloc, styles.each())?;
    marked_text(alloc, &text, &each)
}

/// A text with marks where its style changes.
fn marked_text(alloc: Global, text: &[u8], each: &[u8]) -> Result<Vec<u8>, AllocError>
    ensures { IfOk result (λ written. written.items ≡ marked text.now each.now) }
{
    let mut written = Vec::new(alloc);
    put_marked(&mut written, text, each)?;
    Ok(written)
}
