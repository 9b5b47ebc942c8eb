//! A run over all of the input.

ghost use Rattle.std.specs.Prelude.{◌≡◌, Some};
ghost use Rattle.session.specs.Game.{Game, IsSessionOf, telling_of};
ghost use Rattle.session_lines.specs.Standing.{nothing};
ghost use Rattle.play_json.specs.Answers.{opening_of};
ghost use Rattle.play_json.specs.Ran.{RanAsObjects};
ghost use Rattle.play_json.specs.Told.{TellsAs};

use crate::first::First;
use crate::hearing::{finish, hear};
use crate::kind::Kind;
use crate::lines::Lines;
use crate::said::Said;
use crate::telling::tell_as;
use session::{Place, Session};
use session_lines::{Line, WriteFailed};
use session_run::{Files, RunFault};
use std::alloc::Global;
use std::io::{Read, Write};

/// Writes the object of the opening, and then that of the reply to each line of the input, up to its
/// end: each on a line of its own, after which it flushes. That of the opening tells more, as the first.
/// The session is one of which no line stands, as it is opened.
///
/// Lines are cut as [`session_run::run`] cuts them. `/undo` and `/redo` take the last turn back and do it
/// again; `/status`, `/globals`, `/objects`, `/lines` and `/memory ADDRESS LENGTH` show what the story
/// holds, and are no turns, nor is any other line of `/` and something after it, which is unknown; any
/// other line goes to the story. It answers where the story then is.
///
/// # Errors
///
/// Those of [`session_run::run`]; [`RunFault::Writing`] also where memory is refused for an object.
pub fn run<R: Read, W: Write, F: Files>(
    alloc: Global,
    reader: &mut R,
    writer: &mut W,
    files: &mut F,
    session: &mut Session,
    first: First,
) -> Result<Place, RunFault>
    ensures { RanAsObjects first (record {
      unread_before = R.remaining reader.old;
      unread_after = R.remaining reader.new;
      held_before = W.contents writer.old;
      held_after = W.contents writer.new;
    }) session.old session.new result }
{
    tell_opening(alloc, writer, session, first)?;
    let mut lines = Lines::new(alloc);
    let mut line = Line::new();
    let mut buffer = [0u8; 4096];
    for _ in 0..u64::MAX {
        match reader.read(&mut buffer) {
            Ok(0) => {
                if line.len > 0 {
                    finish(alloc, &mut line, writer, files, session, &mut lines)?;
                }
                return Ok(session.place());
            }
            Ok(n) => hear(
                alloc,
                &buffer[..n],
                &mut line,
                writer,
                files,
                session,
                &mut lines,
            )?,
            Err(_) => return Err(RunFault::Reading),
        }
    }
    Err(RunFault::Reading)
}

/// Writes the object of the opening, which is the first.
fn tell_opening<W: Write>(
    alloc: Global,
    writer: &mut W,
    session: &mut Session,
    first: First,
) -> Result<(), WriteFailed>
    ensures told { (game : Game) → IsSessionOf game nothing session.old
        → TellsAs game (opening_of (telling_of game)) (Some first)
        (W.contents writer.old) (W.contents writer.new) result }
    ensures same { session.new ≡ session.old }
{
    let Ok(text) = String::from_utf8_lossy(alloc, session.opening()) else {
        return Err(WriteFailed);
    };
    let said = Said {
        kind: Kind::Opening,
        text,
        shown: None,
    };
    tell_as(alloc, writer, session, said, Some(first))
}
