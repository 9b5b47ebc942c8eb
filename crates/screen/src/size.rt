//! The size of a terminal.

ghost use Rattle.std.specs.Prelude.{◌≡◌, ◌≤◌, Some, length};
ghost use Rattle.std.specs.List.{prefix_len};
ghost use Rattle.screen.specs.Sizes as definitions;

use crate::after::after;
use crate::status::first_word_length;
use crate::upper::line_length;

/// What is between columns and rows.
const BETWEEN: u8 = b'x';

/// The greatest number of columns and of rows.
const MOST: u16 = 255;

/// Any number of columns or rows that is greater is taken for this one.
const GREATEST: u16 = 1_000;

/// How many columns and rows a terminal has.
#[derive(Clone, Copy, PartialEq, Eq)]
pub struct Size {
    pub columns: u8,
    pub rows: u8,
}

impl Size {
    /// The size that a text states, as `132x40` does: from 20 to 255 columns and from 5 to 255 rows.
    pub fn read(text: &[u8]) -> Option<Size>
        ensures { result ≡ definitions.size_in text.now }
    {
        let at = place_between(text);
        let columns = number_in(&text[..at])?;
        let rows = number_in(after(text, at))?;
        Size::of(columns, rows)
    }

    /// The size that `stty size` has written, as `40 132` and a new line: rows and columns, of which more than 255
    /// are 255.
    pub fn told(text: &[u8]) -> Option<Size>
        ensures { result ≡ definitions.told_size text.now }
    {
        let end = line_length(text);
        if end + 1 != text.len() {
            return None;
        }
        let at = first_word_length(text);
        let columns = number_in(after(&text[..end], at))?;
        let rows = number_in(&text[..at])?;
        Size::of(columns.min(MOST), rows.min(MOST))
    }

    /// A size of so many columns and rows, if that is allowed.
    pub fn of(columns: u16, rows: u16) -> Option<Size>
        ensures { result ≡ definitions.sized (Some columns) (Some rows) }
    {
        if 20 <= columns && columns <= 255 && 5 <= rows && rows <= 255 {
            Some(Size {
                columns: columns as u8,
                rows: rows as u8,
            })
        } else {
            None
        }
    }
}

/// How many bytes are before the first `x` of a text.
fn place_between(text: &[u8]) -> usize
    ensures place { result ≡ prefix_len definitions.is_before text.now }
    ensures within { result ≤ length text.now }
{
    text.iter().take_while(|byte| **byte != BETWEEN).count()
}

/// The number that decimal digits state.
fn number_in(digits: &[u8]) -> Option<u16>
    ensures { result ≡ definitions.number_in digits.now }
{
    if digits.is_empty() {
        return None;
    }
    let mut number: u16 = 0;
    for digit in digits {
        if !is_digit(*digit) {
            return None;
        }
        number = (number * 10 + (*digit - b'0') as u16).min(GREATEST);
    }
    Some(number)
}

/// Whether a byte is a decimal digit.
fn is_digit(byte: u8) -> bool
    ensures { result ≡ definitions.is_digit byte }
{
    b'0' <= byte && byte <= b'9'
}
