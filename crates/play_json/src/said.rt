//! What is said to a line.

ghost use Rattle.std.specs.Prelude.{◌≡◌, ◌≤◌, IfOk, None, Some, length, slice_index_or};
ghost use Rattle.zcore.specs.declared.place.Place.TheVariants as places;
ghost use Rattle.session.specs.Game.{Game, InEach, telling_of};
ghost use Rattle.session.specs.Given.{IsAskedFor};
ghost use Rattle.session.specs.Session.{Session as SessionHeld};
ghost use Rattle.session_lines.specs.Standing.{Standing, longest_line};
ghost use Rattle.play_json.specs.Answers.{answer_mark, answer_redo, answer_undo};
ghost use Rattle.play_json.specs.declared.kind.Kind.TheVariants.{NoMemory};
ghost use Rattle.play_json.specs.Said.{IsGiven, IsSaid, IsSaying, IsShown, IsTaken, MayBeSaid, Says, Stands, held};

use crate::hashing::digest_of;
use crate::kind::Kind;
use crate::lines::Lines;
use crate::memory::{bytes_in, globals};
use crate::object_tables::objects;
use crate::request::{Request, Topic};
use crate::returning::{go, step_back};
use crate::vocabulary::dictionary;
use serde_json::Value;
use session::{Reply, Session};
use session_lines::{Files, GivenFault};
use session_run::given_for;
use std::alloc::{AllocError, Global};
use zcore_standard::Purpose;

/// What is said, besides where the story is.
#[derive(Drop)]
pub(crate) struct Said {
    pub(crate) kind: Kind,

    /// What the story printed.
    pub(crate) text: String,

    /// What was asked for.
    pub(crate) shown: Option<Value>,
}

impl Said {
    /// That a reply is of a kind. The story has printed nothing.
    pub(crate) fn of(alloc: Global, kind: Kind) -> Said
        ensures { IsSaying kind result }
    {
        Said {
            kind,
            text: String::new(alloc),
            shown: None,
        }
    }
}

/// Answers a line of at most 1,000 bytes, and says what is said to it.
///
/// # Errors
///
/// Memory was refused for what is said, or it could not be noted that the line is not taken; the line is answered.
pub(crate) fn say<F: Files>(
    alloc: Global,
    line: &[u8],
    files: &mut F,
    session: &mut Session,
    lines: &mut Lines,
) -> Result<Said, AllocError>
    requires { length line.now ≤ longest_line }
    ensures { Says line.now (held session.old lines.old) (held session.new lines.new) result }
{
    match Request::of(line) {
        Request::Undo => Ok(undo(alloc, session, lines)),
        Request::Redo => redo(alloc, session, lines),
        Request::Mark => mark(alloc, lines),
        Request::Go => go(alloc, line, session, lines),
        Request::Turn => take(alloc, line, files, session, lines),
        Request::Show(topic) => show(alloc, topic, line, session, lines),
        Request::Unknown => Ok(Said::of(alloc, Kind::Unknown)),
    }
}

/// Takes the latest turn back.
fn undo(alloc: Global, session: &mut Session, lines: &mut Lines) -> Said
    ensures { (game : Game) (s : Standing) → Stands game s (held session.old lines.old)
        → IsSaid game (answer_undo s lines.old.marks) (held session.new lines.new) result }
{
    if step_back(session, lines) {
        Said::of(alloc, Kind::Undone)
    } else {
        Said::of(alloc, Kind::NothingToUndo)
    }
}

/// Does the first turn again that was undone.
fn redo(alloc: Global, session: &mut Session, lines: &mut Lines) -> Result<Said, AllocError>
    ensures { (game : Game) (s : Standing) → Stands game s (held session.old lines.old)
        → MayBeSaid game (answer_redo (telling_of game) s lines.old.marks) (held session.new lines.new) result }
{
    match session.redo() {
        Some(text) => {
            lines.lengthen();
            let Ok(text) = String::from_utf8_lossy(alloc, text) else {
                return Err(AllocError);
            };
            Ok(Said {
                kind: Kind::Redone,
                text,
                shown: None,
            })
        }
        None => Ok(Said::of(alloc, Kind::NothingToRedo)),
    }
}

/// Marks the lines that stand. The reply shows the number of the mark.
fn mark(alloc: Global, lines: &mut Lines) -> Result<Said, AllocError>
    ensures { (game : Game) (s : Standing) (v : SessionHeld) → Stands game s (held v lines.old)
        → MayBeSaid game (answer_mark s lines.old.marks) (held v lines.new) result }
{
    match lines.mark(alloc) {
        Ok(number) => Ok(Said {
            kind: Kind::Mark,
            text: String::new(alloc),
            shown: Some(Value::from(number)),
        }),
        Err(error) => Err(error),
    }
}

/// Gives the story a line, or what became of the file where it asks for the name of a saved game.
fn take<F: Files>(
    alloc: Global,
    line: &[u8],
    files: &mut F,
    session: &mut Session,
    lines: &mut Lines,
) -> Result<Said, AllocError>
    ensures { (game : Game) (s : Standing) → Stands game s (held session.old lines.old)
        → IsTaken game s lines.old.marks line.now (held session.new lines.new) result }
{
    match session.asked_for(line) {
        Some(purpose) => take_name(alloc, line, files, session, lines, purpose),
        None => take_line(alloc, line, files, session, lines),
    }
}

/// Gives the story what became of the file of a name, for which it asks.
fn take_name<F: Files>(
    alloc: Global,
    line: &[u8],
    files: &mut F,
    session: &mut Session,
    lines: &mut Lines,
    purpose: Purpose,
) -> Result<Said, AllocError>
    requires waits { slice_index_or session.old.places session.old.present places.Quit
        ≡ places.Waiting }
    requires asked { InEach session.old (λ game s. IsAskedFor game s line.now (Some purpose)) }
    ensures { (game : Game) (s : Standing) → Stands game s (held session.old lines.old)
        → IsTaken game s lines.old.marks line.now (held session.new lines.new) result }
{
    match given_for(alloc, session, files, purpose, line) {
        Ok(given) => give(alloc, &given, line, files, session, lines),
        Err(GivenFault::Memory) => pass(alloc, files),
        Err(GivenFault::Unkept) => Err(AllocError),
    }
}

/// Gives the story this for the line that was its name.
fn give<F: Files>(
    alloc: Global,
    given: &[u8],
    line: &[u8],
    files: &mut F,
    session: &mut Session,
    lines: &mut Lines,
) -> Result<Said, AllocError>
    requires { slice_index_or session.old.places session.old.present places.Quit ≡ places.Waiting }
    ensures { (game : Game) (s : Standing) → Stands game s (held session.old lines.old)
        → IsGiven game s lines.old.marks given.now (held session.new lines.new) result }
{
    let mut script = Vec::new(alloc);
    match session.reply_given(given, &mut script) {
        Reply::Taken(text) => {
            let Ok(()) = lines.add_given(alloc, line, given) else {
                return Err(AllocError);
            };
            let Ok(text) = String::from_utf8_lossy(alloc, text) else {
                return Err(AllocError);
            };
            Ok(Said {
                kind: Kind::Taken,
                text,
                shown: None,
            })
        }
        Reply::NoMemory => pass(alloc, files),
        Reply::Refused | Reply::Over => Err(AllocError),
    }
}

/// Gives the story a line that is no name.
fn take_line<F: Files>(
    alloc: Global,
    line: &[u8],
    files: &mut F,
    session: &mut Session,
    lines: &mut Lines,
) -> Result<Said, AllocError>
    requires { InEach session.old (λ game s. IsAskedFor game s line.now None) }
    ensures { (game : Game) (s : Standing) → Stands game s (held session.old lines.old)
        → IsTaken game s lines.old.marks line.now (held session.new lines.new) result }
{
    match session.reply(line) {
        Reply::Taken(text) => {
            let Ok(()) = lines.add(alloc, line) else {
                return Err(AllocError);
            };
            let Ok(text) = String::from_utf8_lossy(alloc, text) else {
                return Err(AllocError);
            };
            Ok(Said {
                kind: Kind::Taken,
                text,
                shown: None,
            })
        }
        Reply::Refused => Ok(Said::of(alloc, Kind::Refused)),
        Reply::Over => Ok(Said::of(alloc, Kind::Over)),
        Reply::NoMemory => pass(alloc, files),
    }
}

/// Says that a line is not taken for want of memory, once that is noted.
fn pass<F: Files>(alloc: Global, files: &mut F) -> Result<Said, AllocError>
    ensures { IfOk result (IsSaying NoMemory) }
{
    match files.pass() {
        Ok(()) => Ok(Said::of(alloc, Kind::NoMemory)),
        Err(_) => Err(AllocError),
    }
}

/// Shows a topic. The session stays as it is.
fn show(
    alloc: Global,
    topic: Topic,
    line: &[u8],
    session: &Session,
    lines: &Lines,
) -> Result<Said, AllocError>
    ensures { IfOk result (IsShown topic) }
{
    let shown = match topic {
        Topic::Status => None,
        Topic::Globals => Some(globals(alloc, session.memory())?),
        Topic::Objects => Some(objects(alloc, session.memory())?),
        Topic::Lines => Some(lines.show(alloc)?),
        Topic::Dictionary => Some(dictionary(alloc, session.memory())?),
        Topic::Hash => Some(digest_of(alloc, session)?),
        Topic::Memory => match bytes_in(alloc, session.memory(), line)? {
            Some(bytes) => Some(bytes),
            None => return Ok(Said::of(alloc, Kind::NoBytes)),
        },
    };
    Ok(Said {
        kind: topic.kind(),
        text: String::new(alloc),
        shown,
    })
}
