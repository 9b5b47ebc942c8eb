//! Texts with marks of styles.

ghost use Rattle.std.specs.Prelude.{◌≡◌, ◌≤◌, ◌++◌, drop, length, take, IfOk, OnOk};
ghost use Rattle.machine_picture.specs.Marks.{marked};
ghost use Rattle.screen.specs.Marked as definitions;

use machine_picture::put_marked;
use std::alloc::{AllocError, Global};

/// What a mark begins with.
const ESCAPE: u8 = 27;

/// What ends it.
const END: u8 = b'm';

/// The style without reverse, bold, italic and fixed pitch.
const PLAIN: u8 = 0;

/// A text, and the style of each of its bytes.
#[derive(Drop)]
pub(crate) struct Styled {
    pub(crate) text: Vec<u8>,
    pub(crate) each: Vec<u8>,
}

/// A text without its marks, with the styles that these say.
///
/// # Errors
///
/// Memory was refused.
pub(crate) fn unmarked(alloc: Global, text: &[u8]) -> Result<Styled, AllocError>
    ensures text { IfOk result (λ x. x.text.items ≡ definitions.unmarked text.now) }
    ensures each { IfOk result (λ x. x.each.items ≡ definitions.styles_in text.now) }
{
    let mut bytes = Vec::new(alloc);
    let mut each = Vec::new(alloc);
    let mut is_in_mark = false;
    let mut style = PLAIN;
    for byte in text {
        if is_in_mark {
            style |= style_of(*byte);
            is_in_mark = *byte != END;
            continue;
        }
        if *byte == ESCAPE {
            style = PLAIN;
            is_in_mark = true;
            continue;
        }
        bytes.push(*byte)?;
        each.push(style)?;
    }
    Ok(Styled { text: bytes, each })
}

/// What a byte in a mark adds to its style.
fn style_of(byte: u8) -> u8
    ensures { result ≡ definitions.style_of byte }
{
    match byte {
        b'7' => 1,
        b'1' => 2,
        b'3' => 4,
        b'5' => 8,
        _ => PLAIN,
    }
}

/// Adds so many bytes of a text with marks of their styles.
///
/// # Errors
///
/// Memory was refused. Parts may have been added.
pub(crate) fn put_first(
    written: &mut Vec<u8>,
    text: &[u8],
    each: &[u8],
    count: usize,
) -> Result<(), AllocError>
    requires { count ≤ length text.now }
    ensures { OnOk result (written.new.items
        ≡ written.old.items ++ marked (take count text.now) (take count each.now)) }
{
    put_marked(written, &text[..count], &each[..count.min(each.len())])
}

/// Adds the others.
///
/// # Errors
///
/// Memory was refused. Parts may have been added.
pub(crate) fn put_rest(
    written: &mut Vec<u8>,
    text: &[u8],
    each: &[u8],
    count: usize,
) -> Result<(), AllocError>
    requires { count ≤ length text.now }
    ensures { OnOk result (written.new.items
        ≡ written.old.items ++ marked (drop count text.now) (drop count each.now)) }
{
    put_marked(written, &text[count..], &each[count.min(each.len())..])
}
