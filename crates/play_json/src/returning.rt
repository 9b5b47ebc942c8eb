//! `/go`: the lines of a mark stand again.

ghost use Rattle.std.specs.Prelude.{◌≡◌, ◌≤◌, ◌-◌, ◌<◌, ◌↔◌, ℕ, List, IsTrue, length, map, option_and_then};
ghost use Rattle.std.specs.Prelude.{slice_get, slice_index_or};
ghost use Rattle.zcore.specs.declared.place.Place.TheVariants as places;
ghost use Rattle.session.specs.Game.{Game};
ghost use Rattle.session_lines.specs.Standing.{Standing, undo_of, redo_of};
ghost use Rattle.play_json.specs.Answers.{Answer, MayGo, MayGoTo};
ghost use Rattle.play_json.specs.Going.{Comes, IsWayTo, PlaysLine, PlaysAll, SteppedBack, SteppedForward};
ghost use Rattle.play_json.specs.Requests.{mark_in};
ghost use Rattle.play_json.specs.Said.{MayBeSaid, Stands, held};

use crate::kind::Kind;
use crate::lines::{KeptLine, Lines, Way, given_of};
use crate::request::mark_in;
use crate::said::Said;
use session::{Place, Reply, Session};
use std::alloc::{AllocError, Global};
use std::rc::Rc;

/// For what of a line memory was refused.
#[derive(Clone, Copy)]
pub(crate) enum Unplayed {
    /// For its turn, which is not played.
    Turn,

    /// For the line, whose turn is played.
    Line,
}

/// Answers a line that asks to go to a mark: takes turns back down to the lines that both begin with, does
/// those again that are undone, and plays the rest.
///
/// # Errors
///
/// Memory was refused for the lines; those that were played stand in the session.
pub(crate) fn go(
    alloc: Global,
    line: &[u8],
    session: &mut Session,
    lines: &mut Lines,
) -> Result<Said, AllocError>
    ensures { (game : Game) (s : Standing) → Stands game s (held session.old lines.old)
        → (a : Answer)
        × MayGoTo s lines.old.marks (option_and_then (slice_get lines.old.marks) (mark_in line.now)) a
        × MayBeSaid game a (held session.new lines.new) result }
{
    match mark_in(line) {
        Some(number) => go_to(alloc, number, session, lines),
        None => Ok(Said::of(alloc, Kind::NoMark)),
    }
}

/// Goes to the mark of a number, if there is this one.
///
/// # Errors
///
/// Memory was refused for the lines; those that were played stand in the session.
fn go_to(
    alloc: Global,
    number: usize,
    session: &mut Session,
    lines: &mut Lines,
) -> Result<Said, AllocError>
    ensures { (game : Game) (s : Standing) → Stands game s (held session.old lines.old)
        → (a : Answer) × MayGoTo s lines.old.marks (slice_get lines.old.marks number) a
        × MayBeSaid game a (held session.new lines.new) result }
{
    match lines.way_to(alloc, number) {
        Ok(way) => match way {
            Some(way) => go_by(alloc, &way, session, lines),
            None => Ok(Said::of(alloc, Kind::NoMark)),
        },
        Err(error) => Err(error),
    }
}

/// Goes by a way, if none of the turns back is given up.
///
/// # Errors
///
/// Memory was refused for the lines; those that were played stand in the session.
fn go_by(
    alloc: Global,
    way: &Way,
    session: &mut Session,
    lines: &mut Lines,
) -> Result<Said, AllocError>
    ensures { (game : Game) (s : Standing) (whole : List (List ℕ))
        → Stands game s (held session.old lines.old) → IsWayTo lines.old whole way.now
        → (a : Answer) × MayGo s lines.old.marks whole a
        × MayBeSaid game a (held session.new lines.new) result }
{
    let (kept, _) = session.counts();
    let back = lines.count().saturating_sub(way.common);
    if back > kept {
        return Ok(Said::of(alloc, Kind::GivenUp));
    }
    match follow(alloc, way, session, lines) {
        Ok(kind) => Ok(Said::of(alloc, kind)),
        Err(error) => Err(error),
    }
}

/// Follows a way, none of whose turns back is given up. It answers what the reply is then.
///
/// # Errors
///
/// Memory was refused for the lines.
fn follow(
    alloc: Global,
    way: &Way,
    session: &mut Session,
    lines: &mut Lines,
) -> Result<Kind, AllocError>
    ensures { (game : Game) (s : Standing) (whole : List (List ℕ))
        → Stands game s (held session.old lines.old) → IsWayTo lines.old whole way.now
        → length s.done - way.now.common ≤ s.kept
        → Comes game s lines.old.marks whole (held session.new lines.new) result }
{
    step_back_to(session, lines, way.common);
    step_forward_to(session, lines, way.common);
    match play_lines(alloc, way.rest.as_slice(), session, lines) {
        Ok(()) => Ok(Kind::Gone),
        Err(Unplayed::Turn) => Ok(Kind::NoMemory),
        Err(Unplayed::Line) => Err(AllocError),
    }
}

/// Takes turns back until no more than so many lines stand, if so many turns are kept.
fn step_back_to(session: &mut Session, lines: &mut Lines, common: usize)
    ensures { SteppedBack common (held session.old lines.old) (held session.new lines.new) }
{
    let count = lines.count().saturating_sub(common);
    for _ in 0..count {
        step_back(session, lines);
    }
}

/// Does turns again until no fewer than so many lines stand, if so many are undone.
fn step_forward_to(session: &mut Session, lines: &mut Lines, common: usize)
    ensures { SteppedForward common (held session.old lines.old) (held session.new lines.new) }
{
    let count = common.saturating_sub(lines.count());
    for _ in 0..count {
        step_forward(session, lines);
    }
}

/// Takes the latest turn back. It answers false where none is kept.
pub(crate) fn step_back(session: &mut Session, lines: &mut Lines) -> bool
    ensures found { (game : Game) (s : Standing) → Stands game s (held session.old lines.old)
        → IsTrue result ↔ (0 < s.kept) }
    ensures stands { (game : Game) (s : Standing) → Stands game s (held session.old lines.old)
        → Stands game (undo_of s) (held session.new lines.new) }
    ensures marks { lines.new.marks ≡ lines.old.marks }
{
    if session.undo() {
        lines.shorten();
        true
    } else {
        false
    }
}

/// Does the first turn again that is undone. It answers false where none is.
fn step_forward(session: &mut Session, lines: &mut Lines) -> bool
    ensures stands { (game : Game) (s : Standing) → Stands game s (held session.old lines.old)
        → Stands game (redo_of s) (held session.new lines.new) }
    ensures marks { lines.new.marks ≡ lines.old.marks }
{
    match session.redo() {
        Some(_) => {
            lines.lengthen();
            true
        }
        None => false,
    }
}

/// Plays lines, which were given to the story before.
///
/// # Errors
///
/// Those of `play_line`; the lines before are played.
fn play_lines(
    alloc: Global,
    rest: &[Rc<KeptLine>],
    session: &mut Session,
    lines: &mut Lines,
) -> Result<(), Unplayed>
    ensures { (game : Game) (s : Standing) → Stands game s (held session.old lines.old)
        → PlaysAll game s lines.old.marks (map (λ rc. rc.value.given.items) rest.now) (held session.new lines.new) result }
{
    for line in rest {
        match play_line(alloc, line, session, lines) {
            Ok(()) => {}
            Err(error) => return Err(error),
        }
    }
    Ok(())
}

/// Plays a line, which was given to the story before, so that the story waits for it.
///
/// # Errors
///
/// `Turn`: memory was refused for the turn. `Line`: its turn is played, and memory was refused for the line.
fn play_line(
    alloc: Global,
    line: &Rc<KeptLine>,
    session: &mut Session,
    lines: &mut Lines,
) -> Result<(), Unplayed>
    ensures { (game : Game) (s : Standing) → Stands game s (held session.old lines.old)
        → PlaysLine game s lines.old.marks line.now.value.given.items (held session.new lines.new) result }
{
    match session.place() {
        Place::Waiting => play_waited(alloc, line, session, lines),
        _ => Err(Unplayed::Turn),
    }
}

/// The same, where the story waits.
///
/// # Errors
///
/// Those of `play_line`.
fn play_waited(
    alloc: Global,
    line: &Rc<KeptLine>,
    session: &mut Session,
    lines: &mut Lines,
) -> Result<(), Unplayed>
    requires { slice_index_or session.old.places session.old.present places.Quit ≡ places.Waiting }
    ensures { (game : Game) (s : Standing) → Stands game s (held session.old lines.old)
        → PlaysLine game s lines.old.marks line.now.value.given.items (held session.new lines.new) result }
{
    let mut script = Vec::new(alloc);
    match session.reply_given(given_of(line), &mut script) {
        Reply::Taken(_) => match lines.add_shared(line) {
            Ok(()) => Ok(()),
            Err(_) => Err(Unplayed::Line),
        },
        Reply::Refused => Err(Unplayed::Turn),
        Reply::Over => Err(Unplayed::Turn),
        Reply::NoMemory => Err(Unplayed::Turn),
    }
}
