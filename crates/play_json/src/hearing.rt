//! Lines that are cut out of the input and answered.

ghost use Rattle.std.specs.Prelude.{◌≡◌, ℕ, ◌≤◌, ◌∷◌, List, [], OnOk};
ghost use Rattle.session_lines.specs.Input.{whole_from, rest_from};
ghost use Rattle.session_lines.specs.Kept.{IsKept};
ghost use Rattle.session_lines.specs.Standing.{longest_line};
ghost use Rattle.play_json.specs.Heard.{Answers, Hears};
ghost use Rattle.play_json.specs.Said.{held};

use crate::answering::{answer, refuse};
use crate::lines::Lines;
use session::Session;
use session_lines::{Files, Line, WriteFailed};
use std::alloc::Global;
use std::io::Write;

/// Answers the line that ended, and begins an empty one.
pub(crate) fn finish<W: Write, F: Files>(
    alloc: Global,
    line: &mut Line,
    writer: &mut W,
    files: &mut F,
    session: &mut Session,
    lines: &mut Lines,
) -> Result<(), WriteFailed>
    requires { line.old.len ≤ longest_line }
    ensures answers { (full : List ℕ) → IsKept line.old full
        → Answers full (W.contents writer.old) (held session.old lines.old)
        (W.contents writer.new) (held session.new lines.new) result }
    ensures line { OnOk result (IsKept line.new []) }
    ensures within { line.new.len ≤ longest_line }
{
    if line.more {
        refuse(alloc, writer, session)?;
    } else {
        answer(
            alloc,
            &line.bytes[..line.len],
            writer,
            files,
            session,
            lines,
        )?;
    }
    line.clear();
    Ok(())
}

/// Answers the lines that end within a chunk of the input, and keeps what is after the last of them.
pub(crate) fn hear<W: Write, F: Files>(
    alloc: Global,
    chunk: &[u8],
    line: &mut Line,
    writer: &mut W,
    files: &mut F,
    session: &mut Session,
    lines: &mut Lines,
) -> Result<(), WriteFailed>
    requires { line.old.len ≤ longest_line }
    ensures hears { (full : List ℕ) → IsKept line.old full
        → Hears (whole_from full chunk.now) (W.contents writer.old) (held session.old lines.old)
        (W.contents writer.new) (held session.new lines.new) result }
    ensures line { (full : List ℕ) → IsKept line.old full
        → OnOk result (IsKept line.new (rest_from full chunk.now)) }
    ensures within { line.new.len ≤ longest_line }
{
    for byte in chunk {
        if *byte == b'\n' {
            finish(alloc, line, writer, files, session, lines)?;
        } else {
            line.push(*byte);
        }
    }
    Ok(())
}
