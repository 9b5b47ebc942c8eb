//! A run over all of the input.

ghost use Rattle.std.specs.Prelude.{[]};
ghost use Rattle.session_run.specs.Acts.{Leaves};
ghost use Rattle.session.specs.Game.{told_of, told_on, IsSessionOf, Game};
ghost use Rattle.session_lines.specs.Wrote.{WroteText};
ghost use Rattle.session_run.specs.Ran.{Ran};
ghost use Rattle.session_lines.specs.Standing.{nothing};

use crate::fault::RunFault;
use crate::hearing::hear;
use session::Session;
use session_lines::{Files, Line, WriteFailed, tell};
use std::cell::Cell;
use std::io::{Read, Write};
use zcore::Place;

/// The first byte of the instruction that reads a key: `read_char`, VAR:246 (Z-Machine Standards
/// Document 1.1, section 14). Versions 1 to 3 have none, and wait for lines alone.
const READ_CHARACTER: u8 = 0xF6;

/// Writes the opening, and then the reply to each line of the input, up to its end. It flushes
/// after each of them. The session is one of which no line stands, as it is opened. It takes no
/// memory but for the session's turns.
///
/// A line ends at byte 10; a last line without it counts if it is not empty. `/undo` and `/redo`,
/// to the byte, take the last turn back and do it again, and by the whole Standard `/status` asks for
/// the status line; any other line goes to the story. Where the story asks for the name of a saved game, a
/// line is that name: the file is written or read, and the story is given what became of it. It answers
/// where the story then stands.
///
/// # Errors
///
/// [`RunFault::Reading`] where a read fails, an interrupted one too, and where the input has no end
/// after 2^64 - 1 reads: each line that was read whole is answered. [`RunFault::Writing`] where a
/// write or a flush fails, or a write takes no byte, or where what a story is given for a name is not kept
/// or was lost: the reply that was being written is the last, and its line stands as if it were written.
pub fn run<R: Read, W: Write, F: Files>(
    reader: &mut R,
    writer: &mut W,
    files: &mut F,
    session: &mut Session,
) -> Result<Place, RunFault>
    ensures { (game : Game) → IsSessionOf game nothing session.old
        → Ran (told_of game) game.keep (record {
          unread_before = R.remaining reader.old;
          unread_after = R.remaining reader.new;
          held_before = W.contents writer.old;
          held_after = W.contents writer.new;
        }) (Leaves game nothing session.new (F.log files.old) (F.log files.new)) result }
{
    run_telling(reader, writer, files, session, &Cell::new(false))
}

/// Does what [`run`] does. Before each read, a cell tells whether the story waits for a key, for a reader
/// that asks a user to type.
///
/// # Errors
///
/// Those of [`run`].
pub fn run_telling<R: Read, W: Write, F: Files>(
    reader: &mut R,
    writer: &mut W,
    files: &mut F,
    session: &mut Session,
    awaits_key: &Cell<bool>,
) -> Result<Place, RunFault>
    ensures { (game : Game) → IsSessionOf game nothing session.old
        → Ran (told_of game) game.keep (record {
          unread_before = R.remaining reader.old;
          unread_after = R.remaining reader.new;
          held_before = W.contents writer.old;
          held_after = W.contents writer.new;
        }) (Leaves game nothing session.new (F.log files.old) (F.log files.new)) result }
{
    tell_opening(writer, session)?;
    let mut line = Line::new();
    let mut buffer = [0u8; 4096];
    for _ in 0..u64::MAX {
        awaits_key.set(is_key_awaited(session));
        match reader.read(&mut buffer) {
            Ok(0) => {
                if line.len > 0 {
                    hear(b"\n", &mut line, writer, files, session)?;
                }
                return Ok(session.place());
            }
            Ok(n) => hear(&buffer[..n], &mut line, writer, files, session)?,
            Err(_) => return Err(RunFault::Reading),
        }
    }
    Err(RunFault::Reading)
}

/// Whether a story waits for a key.
fn is_key_awaited(session: &Session) -> bool {
    if !matches!(session.place(), Place::Waiting) {
        return false;
    }
    match session.memory().get(session.program_counter() as usize) {
        Some(byte) => *byte == READ_CHARACTER,
        None => false,
    }
}

/// Writes the opening, with marks where styles are kept.
fn tell_opening<W: Write>(writer: &mut W, session: &Session) -> Result<(), WriteFailed>
    ensures { (game : Game) → IsSessionOf game nothing session.now
        → WroteText (W.contents writer.old) (W.contents writer.new) (told_on game []) result }
{
    if session.keeps_styles() {
        return tell(writer, session.marked());
    }
    tell(writer, session.opening())
}
