//! Lines that are cut out of the input and answered.

ghost use Rattle.std.specs.Prelude.{ℕ, ◌≤◌, ◌∷◌, List, [], OnOk};
ghost use Rattle.session_lines.specs.Input.{whole_from, rest_from};
ghost use Rattle.session_run.specs.Acts.{Leaves};
ghost use Rattle.session.specs.Game.{IsSessionOf, Game};
ghost use Rattle.session_run.specs.Heard.{Hears};
ghost use Rattle.session_lines.specs.Kept.{IsKept};
ghost use Rattle.session_lines.specs.Standing.{Standing, longest_line};

use crate::answering::answer;
use session::Session;
use session_lines::{Files, Line, WriteFailed, tell};
use std::io::Write;

/// Answers the line that ended, and begins an empty one.
fn finish<W: Write, F: Files>(
    line: &mut Line,
    writer: &mut W,
    files: &mut F,
    session: &mut Session,
) -> Result<(), WriteFailed>
    requires { line.old.len ≤ longest_line }
    ensures hears { (game : Game) (s : Standing) (full : List ℕ)
        → IsSessionOf game s session.old → IsKept line.old full
        → Hears game (W.contents writer.old) (W.contents writer.new) s
        (Leaves game s session.new (F.log files.old) (F.log files.new)) (full ∷ []) result }
    ensures line { OnOk result (IsKept line.new []) }
    ensures within { line.new.len ≤ longest_line }
{
    if line.more {
        tell(writer, b"[Line refused.]\n")?;
    } else {
        answer(&line.bytes[..line.len], writer, files, session)?;
    }
    line.clear();
    Ok(())
}

/// Answers the lines that end within a chunk of the input, and keeps what stands after the last of
/// them.
pub(crate) fn hear<W: Write, F: Files>(
    chunk: &[u8],
    line: &mut Line,
    writer: &mut W,
    files: &mut F,
    session: &mut Session,
) -> Result<(), WriteFailed>
    requires { line.old.len ≤ longest_line }
    ensures hears { (game : Game) (s : Standing) (full : List ℕ)
        → IsSessionOf game s session.old → IsKept line.old full
        → Hears game (W.contents writer.old) (W.contents writer.new) s
        (Leaves game s session.new (F.log files.old) (F.log files.new))
        (whole_from full chunk.now) result }
    ensures line { (full : List ℕ) → IsKept line.old full
        → OnOk result (IsKept line.new (rest_from full chunk.now)) }
    ensures within { line.new.len ≤ longest_line }
{
    for byte in chunk {
        if *byte == b'\n' {
            finish(line, writer, files, session)?;
        } else {
            line.push(*byte);
        }
    }
    Ok(())
}
