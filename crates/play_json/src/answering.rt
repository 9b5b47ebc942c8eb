//! The reply to a line.

ghost use Rattle.std.specs.Prelude.{◌≤◌, ◌<◌, ℕ, List, length};
ghost use Rattle.session_lines.specs.Standing.{longest_line};
ghost use Rattle.play_json.specs.Heard.{Answers};
ghost use Rattle.play_json.specs.Lines.{Lines as LinesHeld};
ghost use Rattle.play_json.specs.Said.{held};

use crate::kind::Kind;
use crate::lines::Lines;
use crate::said::{Said, say};
use crate::telling::tell_reply;
use session::Session;
use session_lines::{Files, WriteFailed};
use std::alloc::Global;
use std::io::Write;

/// Answers a line of at most 1,000 bytes.
///
/// # Errors
///
/// A write or a flush failed, or memory was refused for the reply; the line is answered. Or it could not be noted that
/// the line is not taken.
pub(crate) fn answer<W: Write, F: Files>(
    alloc: Global,
    line: &[u8],
    writer: &mut W,
    files: &mut F,
    session: &mut Session,
    lines: &mut Lines,
) -> Result<(), WriteFailed>
    requires { length line.now ≤ longest_line }
    ensures { Answers line.now (W.contents writer.old) (held session.old lines.old)
        (W.contents writer.new) (held session.new lines.new) result }
{
    match say(alloc, line, files, session, lines) {
        Ok(said) => tell_reply(alloc, writer, session, said),
        Err(_) => Err(WriteFailed),
    }
}

/// Answers a line of more than 1,000 bytes.
///
/// # Errors
///
/// A write or a flush failed, or memory was refused for the reply.
pub(crate) fn refuse<W: Write>(
    alloc: Global,
    writer: &mut W,
    session: &mut Session,
) -> Result<(), WriteFailed>
    ensures { (line : List ℕ) (lines : LinesHeld) → longest_line < length line
        → Answers line (W.contents writer.old) (held session.old lines)
        (W.contents writer.new) (held session.new lines) result }
{
    tell_reply(alloc, writer, session, Said::of(alloc, Kind::TooLong))
}
