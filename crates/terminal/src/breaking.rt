//! Where lines are broken.

ghost use Rattle.std.specs.Prelude.{◌≤◌, length};
ghost use Rattle.terminal.specs.Broken.{IsBroken};

use crate::marks::mark_length;
use std::str;
use unicode_width::UnicodeWidthStr;

/// What stands between two words.
const SPACE: u8 = b' ';

/// What ends a line.
const NEW_LINE: u8 = b'\n';

/// Breaks the lines of a text at words: a new line takes the place of each space after which the
/// next word would end after the last of so many columns. The text begins after so many columns of
/// its first line. Says how many columns its last line has. Only a line of a single word is wider
/// than asked for. It takes no memory, and time linear in the text. A mark of styles is never broken.
pub fn break_lines(text: &mut [u8], columns: usize, begun: usize) -> usize
    ensures { IsBroken text.old text.new }
{
    let mut column = begun.saturating_add(word_width(text, 0));
    for at in 0..text.len() {
        let byte = text[at];
        if byte == SPACE {
            let width = word_width(text, at + 1);
            column = column.saturating_add(1).saturating_add(width);
            if columns < column {
                text[at] = NEW_LINE;
                column = width;
            }
        } else if byte == NEW_LINE {
            column = word_width(text, at + 1);
        }
    }
    column
}

/// The columns of the word that begins at a place. Marks of styles have none.
fn word_width(text: &[u8], from: usize) -> usize
    requires { from ≤ length text.now }
{
    let end = word_end(text, from);
    let mut columns = 0usize;
    let mut begun = from;
    for at in from..end {
        let long = mark_length(&text[at..end]);
        if long > 0 && begun <= at {
            columns = columns.saturating_add(width(&text[begun..at]));
            begun = at + long;
        }
    }
    columns.saturating_add(width(&text[begun..end]))
}

/// The columns of bytes without marks. Those that are not UTF-8 have a column each.
fn width(bytes: &[u8]) -> usize {
    match str::from_utf8(bytes) {
        Ok(text) => text.width(),
        Err(_) => bytes.len(),
    }
}

/// Where the word ends that begins at a place.
fn word_end(text: &[u8], from: usize) -> usize
    requires { from ≤ length text.now }
    ensures least { from ≤ result }
    ensures most { result ≤ length text.now }
{
    for at in from..text.len() {
        if is_between(text[at]) {
            return at;
        }
    }
    text.len()
}

/// Whether a byte stands between two words.
fn is_between(byte: u8) -> bool {
    byte == SPACE || byte == NEW_LINE
}
