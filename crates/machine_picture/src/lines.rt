//! The upper window in a text: where its cursor is, and what a read shows of it.

ghost use Rattle.std.specs.Prelude.{◌≡◌, ◌≤◌, drop, length, Some};
ghost use Rattle.std.specs.List.{count_by, suffix_len};
ghost use Rattle.zcore_standard.specs.Windows as windows;
ghost use Rattle.machine_picture.specs.Represented.{IsLine, IsShown};

use machine_standard_windows::missing_lines;
use zcore_standard::Upper;

/// The lower window, by its number (Z-Machine Standards Document 1.1, section 8.7.2).
const LOWER: u16 = 0;

/// No part of a text.
pub(crate) const NO_PART: Part = Part { from: 0, to: 0 };

/// Where the cursor of the upper window is in a text.
#[derive(Drop)]
pub struct Line {
    /// The row of the cursor.
    pub(crate) row: usize,

    /// How much of the text comes before the spaces at the end of the window.
    pub(crate) bare: usize,
}

/// What a read shows of a text.
#[derive(Drop)]
pub struct Shown {
    /// So much of the text is not dropped.
    pub(crate) kept: usize,

    /// The upper window, if it is shown.
    pub(crate) window: Option<Drawn>,

    /// The part of what it shows in which the upper window is.
    pub(crate) part: Part,
}

/// A part of a text: from after so many bytes on, up to so many.
#[derive(Clone, Copy, Drop)]
pub struct Part {
    pub(crate) from: usize,
    pub(crate) to: usize,
}

/// What a read shows of the upper window.
#[derive(Clone, Copy, Drop)]
pub struct Drawn {
    /// Where the window begins.
    pub(crate) from: usize,

    /// How many newlines are put before it.
    pub(crate) new_lines: usize,

    /// How much of it comes before the spaces at its end.
    pub(crate) bare: usize,
}

/// Where the cursor of an upper window is in a text.
pub fn line_of(upper: Upper, text: &[u8]) -> Line
    ensures { IsLine upper text.now result }
{
    let from = (upper.from as usize).min(text.len());
    let bare = bare_length(&text[from..]);
    Line {
        row: row_of(upper, text),
        bare: upper.from as usize + bare,
    }
}

/// The row of the cursor of an upper window in a text.
pub(crate) fn row_of(upper: Upper, text: &[u8]) -> usize
    ensures { result ≡ windows.row_of upper text.now }
{
    upper.row as usize + new_lines_after(upper.mark as usize, text)
}

/// How many newlines come after a place of a text.
pub(crate) fn new_lines_after(place: usize, text: &[u8]) -> usize
    ensures same { result ≡ count_by windows.is_new_line (drop place text.now) }
    ensures within { result ≤ length text.now }
{
    new_lines(&text[place.min(text.len())..])
}

/// What a read shows of a text without that of the memory streams, in a window.
pub fn shown_in(upper: Option<Upper>, window: u16, text: &[u8]) -> Shown
    ensures { IsShown upper window text.now result }
{
    match upper {
        None => Shown {
            kept: text.len(),
            window: None,
            part: NO_PART,
        },
        Some(upper) => shown_of(upper, window, text),
    }
}

/// The same, where the upper window is there: a read in the lower one drops it.
fn shown_of(upper: Upper, window: u16, text: &[u8]) -> Shown
    ensures { IsShown (Some upper) window text.now result }
{
    let from = (upper.from as usize).min(text.len());
    if window == LOWER {
        return Shown {
            kept: from,
            window: None,
            part: NO_PART,
        };
    }
    let new_lines = missing_lines(&text[..from]);
    let window = &text[from..];
    let bare = bare_length(window);
    let last = missing_lines(&window[..bare]);
    Shown {
        kept: text.len(),
        window: Some(Drawn {
            from,
            new_lines,
            bare,
        }),
        part: Part {
            from: from + new_lines,
            to: from + new_lines + bare + last,
        },
    }
}

/// How many newlines a text has.
fn new_lines(text: &[u8]) -> usize
    ensures same { result ≡ count_by windows.is_new_line text.now }
    ensures within { result ≤ length text.now }
{
    text.iter().filter(|byte| **byte == b'\n').count()
}

/// How many bytes of a text come before the spaces at its end.
fn bare_length(text: &[u8]) -> usize
    ensures bare { result ≡ length (windows.without_spaces text.now) }
    ensures within { result ≤ length text.now }
{
    text.len() - spaces_at_end(text)
}

/// How many spaces are at the end of a text.
fn spaces_at_end(text: &[u8]) -> usize
    ensures { result ≡ suffix_len windows.is_space text.now }
{
    text.iter().rev().take_while(|byte| **byte == b' ').count()
}
