//! Words of the command line in messages.

ghost use Rattle.std.specs.Prelude.{◌≡◌, ◌==◌, ◌||◌, not};
ghost use Rattle.terminal.specs.Escaped.{is_escaped};

use std::fmt::{self, Display, Formatter};

/// A word of the command line, as a file's name, as a message shows it: on one line, and in the
/// order of its characters. Those that would break the line, move a terminal's cursor, turn the
/// direction of what is written or hide in it are shown as `\n`, `\t`, `\r`, or else as `\x1b` or
/// `\x202e`.
#[derive(Clone, Copy)]
pub struct OneLine<'a>(pub &'a str);

/// The lines of a text as a terminal shows them: as `OneLine` does, but for the new lines, which stay.
#[derive(Clone, Copy)]
pub struct Lines<'a>(pub &'a str);

impl Lines<'_> {
    /// Whether they are shown as they are.
    pub fn are_plain(self) -> bool {
        self.0.chars().all(stays)
    }
}

impl Display for Lines<'_> {
    fn fmt<W: fmt::Write>(&self, f: &mut Formatter<W>) -> fmt::Result {
        write_signs(f, self.0, true)
    }
}

/// Whether a character of lines is shown as it is.
fn stays(sign: char) -> bool
    ensures { result ≡ (sign == 10 || not (is_escaped sign)) }
{
    sign == '\n' || !is_escaped(sign)
}

impl Display for OneLine<'_> {
    fn fmt<W: fmt::Write>(&self, f: &mut Formatter<W>) -> fmt::Result {
        write_signs(f, self.0, false)
    }
}

/// Writes a text as a message shows it, or but for its new lines, which stay.
fn write_signs<W: fmt::Write>(f: &mut Formatter<W>, text: &str, keeps_lines: bool) -> fmt::Result {
    for sign in text.chars() {
        if keeps_lines && sign == '\n' {
            f.write_char(sign)?;
        } else {
            write_sign(f, sign)?;
        }
    }
    Ok(())
}

/// Writes a character as a message shows it.
fn write_sign<W: fmt::Write>(f: &mut Formatter<W>, sign: char) -> fmt::Result {
    match sign {
        '\n' => f.write_str("\\n"),
        '\t' => f.write_str("\\t"),
        '\r' => f.write_str("\\r"),
        _ if is_escaped(sign) => write!(f, "\\x{:02x}", sign as u32),
        _ => f.write_char(sign),
    }
}

/// Whether a character has no picture of its own: a control character, a separator of lines or
/// paragraphs, one that turns the direction of what is written, or one without width.
fn is_escaped(sign: char) -> bool
    ensures { result ≡ is_escaped sign }
{
    matches!(
        sign,
        '\0'..='\x1F'
            | '\x7F'..='\u{9F}'
            | '\u{61C}'
            | '\u{200B}'..='\u{200F}'
            | '\u{2028}'..='\u{2029}'
            | '\u{202A}'..='\u{202E}'
            | '\u{2060}'..='\u{2064}'
            | '\u{2066}'..='\u{2069}'
            | '\u{FEFF}'
    )
}
