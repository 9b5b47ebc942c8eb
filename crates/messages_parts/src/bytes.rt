//! Bytes as they are shown, so that no byte of a source can steer a terminal.

use std::fmt::{self, Display, Formatter};

/// How bytes are shown.
#[derive(Clone, Copy)]
pub enum Style {
    /// A text of the compiler's own: quotes in the place of backquotes.
    Text,

    /// A line of a source: a tab as it is, and each other byte that does not print as `\x1b`.
    Line,

    /// A token of a source: each byte that does not print as `\x1b`.
    Token,

    /// Blanks as wide as a line. A tab is a tab, so that the same tab stops apply.
    Blanks,

    /// `~` as often as a line is wide.
    Mark,
}

/// Bytes as they are shown.
#[derive(Clone, Copy)]
pub struct Bytes<'a>(pub Style, pub &'a [u8]);

/// Whether a byte has one sign, and not four.
pub fn is_plain(style: Style, byte: u8) -> bool {
    match style {
        Style::Text => true,
        Style::Token => matches!(byte, b' '..=b'~'),
        _ => matches!(byte, b'\t' | b' '..=b'~'),
    }
}

/// The sign of a number, of the four of a byte that does not print.
fn escaped(byte: u8, number: usize) -> char {
    const DIGITS: &[u8; 16] = b"0123456789abcdef";
    match number {
        0 => '\\',
        1 => 'x',
        2 => char::from(DIGITS[(byte / 16) as usize]),
        _ => char::from(DIGITS[(byte % 16) as usize]),
    }
}

/// The sign of a number with which a byte is shown.
fn sign(style: Style, byte: u8, number: usize) -> char {
    match style {
        Style::Text if byte == b'`' => '\'',
        Style::Blanks if byte == b'\t' => '\t',
        Style::Blanks => ' ',
        Style::Mark => '~',
        _ if is_plain(style, byte) => char::from(byte),
        _ => escaped(byte, number),
    }
}

impl Display for Bytes<'_> {
    fn fmt<W: fmt::Write>(&self, f: &mut Formatter<W>) -> fmt::Result {
        for byte in self.1 {
            let width = if is_plain(self.0, *byte) { 1 } else { 4 };
            for number in 0..width {
                f.write_char(sign(self.0, *byte, number))?;
            }
        }
        Ok(())
    }
}
