//! Turns that a session keeps.

ghost use Rattle.std.specs.Prelude.{◌≡◌, ◌<◌, ◌≤◌, ◌++◌, ◌∷◌, [], length, slice_index_or, take};
ghost use Rattle.std.specs.Prelude.{IfOk, IsTrue, OnOk};
ghost use Rattle.std.specs.VecDeque.{deque_len, deque_capacity};
ghost use Rattle.journal.specs.Recording.{IsNothingKept};
ghost use Rattle.journal.specs.Swap.{back, forward, Fits};
ghost use Rattle.machine_frames.specs.Contents.{bound_of};
ghost use Rattle.machine_frames.specs.Went.{GivenUp};
ghost use Rattle.machine_picture.specs.Picture.{joined};
ghost use Rattle.machine_picture.specs.Represented.{styles_of};
ghost use Rattle.machine_picture.specs.Styles.{begun};
ghost use Rattle.session.specs.Inside.{kept_of, shown_at, Swaps};
ghost use Rattle.session.specs.Showing.{begun_with, shown_of};

use crate::reached::Reached;
use journal::{NoMemory, Record, Recorded, swap_back, swap_forward};
use machine::Store;
use machine_picture::Styles;
use session_lines::Written;
use std::alloc::{AllocError, Global};
use std::collections::VecDeque;
use zcore::Place;
use zcore_standard::KeptStates;

/// For how many turns room is made at once.
const MORE_TURNS: usize = 256;

/// A turn that a line led to.
#[derive(Drop)]
pub(crate) struct Turn {
    /// The line, and what the turn printed.
    pub(crate) written: Written,

    /// Where it left the machine, and what the story had kept then.
    pub(crate) reached: Reached,

    /// What it overwrote, or, once it is taken back, what it had written.
    pub(crate) overwritten: Record,
}

impl Turn {
    /// Its line and what it printed, and what it led to.
    pub(crate) fn into_parts(self) -> (Written, Reached)
        ensures { result ≡ (self.written, self.reached) }
    {
        let Turn {
            written,
            reached,
            ..
        } = self;
        (written, reached)
    }
}

/// Takes a turn back: the store is as the turn found it. It takes no memory.
pub(crate) fn take_back(store: &mut Recorded<Store>, turn: &mut Turn)
    requires idle { IsNothingKept store.old }
    requires fits { Fits (length store.old.store.cells) bound_of turn.old.overwritten }
    ensures { Swaps back forward store.old store.new turn.old turn.new }
{
    swap_back(store.store_mut(), &mut turn.overwritten);
}

/// Does a turn again that was taken back: the store is as the turn left it. It takes no memory.
pub(crate) fn do_again(store: &mut Recorded<Store>, turn: &mut Turn)
    requires idle { IsNothingKept store.old }
    requires fits { Fits (length store.old.store.cells) bound_of turn.old.overwritten }
    ensures { Swaps forward back store.old store.new turn.old turn.new }
{
    swap_forward(store.store_mut(), &mut turn.overwritten);
}

/// Begins a text with a line, and makes room for one more turn. At `Err` memory was refused.
#[inline(always)]
pub(crate) fn begin_text(
    turns: &mut VecDeque<Turn>,
    text: &mut Vec<u8>,
    line: &[u8],
) -> Result<(), NoMemory>
    ensures line { OnOk result (text.new.items ≡ line.now) }
    ensures room { OnOk result (deque_len turns.new < deque_capacity turns.new) }
    ensures items { turns.new.items ≡ turns.old.items }
{
    text.clear();
    if text.extend_from_slice(line).is_err() {
        return Err(NoMemory);
    }
    if turns.len() < turns.capacity() {
        return Ok(());
    }
    make_room(turns)
}

/// Makes room for many turns more, so that those that are kept are seldom moved. At `Err` memory was refused.
#[cold]
#[inline(never)]
fn make_room(turns: &mut VecDeque<Turn>) -> Result<(), NoMemory>
    ensures room { OnOk result (deque_len turns.new < deque_capacity turns.new) }
    ensures items { turns.new.items ≡ turns.old.items }
{
    match turns.reserve(MORE_TURNS) {
        Ok(()) => Ok(()),
        Err(_) => Err(NoMemory),
    }
}

/// Begins with the states that the story has kept on the way to the state after so many of the turns. At `Err`
/// memory was refused.
#[inline(always)]
pub(crate) fn begin_kept(
    kept: &mut KeptStates,
    first: &Reached,
    turns: &VecDeque<Turn>,
    done: usize,
) -> Result<(), AllocError>
    requires { done ≤ length turns.now.items }
    ensures { OnOk result
        (kept.new ≡ slice_index_or (kept_of first.now turns.now.items) done []) }
{
    if done == 0 {
        first.share_kept(kept)
    } else {
        turns[done - 1].reached.share_kept(kept)
    }
}

/// Begins a picture: with what was drawn on the way to the state after so many of the turns, if pictures are
/// kept. Otherwise it is blank. At `Err` memory was refused.
#[inline(always)]
pub(crate) fn begin_drawing(
    drawn: &mut Vec<u8>,
    keeps_picture: bool,
    first: &Reached,
    turns: &VecDeque<Turn>,
    done: usize,
) -> Result<(), NoMemory>
    requires { done ≤ length turns.now.items }
    ensures { OnOk result (drawn.new.items
        ≡ begun_with keeps_picture (shown_at first.now turns.now.items done).drawing) }
{
    drawn.clear();
    if !keeps_picture {
        return Ok(());
    }
    add(drawn, reached_at(first, turns, done).drawing())
}

/// Begins the styles of a text, if they are kept, with the one in which the story prints after so many turns.
#[inline(always)]
pub(crate) fn begin_styles(
    styles: &mut Styles,
    keeps_styles: bool,
    alloc: Global,
    first: &Reached,
    turns: &VecDeque<Turn>,
    done: usize,
)
    requires { done ≤ length turns.now.items }
    ensures { IsTrue keeps_styles
        → styles_of styles.new ≡ begun (shown_at first.now turns.now.items done).style 0 }
{
    if !keeps_styles {
        return;
    }
    *styles = Styles::new(alloc, reached_at(first, turns, done).style());
}

/// What a turn led to that left the machine at this place, and drew and printed this; the opening too.
///
/// # Errors
///
/// Memory was refused.
#[inline(always)]
pub(crate) fn reach(
    alloc: Global,
    place: Place,
    kept: &mut KeptStates,
    drawn: &[u8],
    text: &[u8],
    rows: Option<u8>,
    keeps_styles: bool,
    styles: &Styles,
) -> Result<Reached, AllocError>
    ensures { IfOk result (λ r. r ≡ record {
      place = place;
      kept = kept.old;
      shown = shown_of rows keeps_styles drawn.now text.now (styles_of styles.now);
    }) }
{
    if !keeps_styles {
        return Reached::of(alloc, place, kept, drawn);
    }
    Reached::marked_of(alloc, place, kept, drawn, text, rows, styles)
}

/// Gives a turn up for which memory was refused. It is a function of its own, as [`refused`] is, so that the
/// compiler knows that this is rare.
#[cold]
#[inline(never)]
pub(crate) fn give_turn_up(store: &mut Recorded<Store>) -> NoMemory
    ensures { GivenUp store.old store.new }
{
    store.abandon();
    NoMemory
}

/// What is said where memory was refused.
#[cold]
#[inline(never)]
pub(crate) fn refused() -> NoMemory {
    NoMemory
}

/// What led to the state after so many of the turns.
pub(crate) fn reached_at<'a>(
    first: &'a Reached,
    turns: &'a VecDeque<Turn>,
    done: usize,
) -> &'a Reached
    requires { done ≤ length turns.now.items }
    ensures { result.now.shown ≡ shown_at first.now turns.now.items done }
{
    if done == 0 {
        first
    } else {
        &turns[done - 1].reached
    }
}

/// Adds what a turn drew to its status line, in lines of its own.
///
/// # Errors
///
/// Memory was refused.
pub(crate) fn add_drawing(text: &mut Vec<u8>, drawing: &[u8]) -> Result<(), NoMemory>
    ensures { OnOk result (text.new.items ≡ joined text.old.items drawing.now) }
{
    if drawing.len() == 0 {
        return Ok(());
    }
    if text.len() == 0 {
        return add(text, drawing);
    }
    match text.push(b'\n') {
        Ok(()) => add(text, drawing),
        Err(_) => Err(NoMemory),
    }
}

/// Adds bytes to a text.
fn add(text: &mut Vec<u8>, bytes: &[u8]) -> Result<(), NoMemory>
    ensures { OnOk result (text.new.items ≡ text.old.items ++ bytes.now) }
{
    match text.extend_from_slice(bytes) {
        Ok(()) => Ok(()),
        Err(_) => Err(NoMemory),
    }
}

/// Puts a turn behind the first `done` turns, and gives up those after them. It takes no memory.
#[inline(always)]
pub(crate) fn put_turn(turns: &mut VecDeque<Turn>, done: usize, turn: Turn)
    requires within { done ≤ length turns.old.items }
    requires room { deque_len turns.old < deque_capacity turns.old }
    ensures { turns.new.items ≡ take done turns.old.items ++ turn ∷ [] }
{
    if done < turns.len() {
        turns[done] = turn;
        cut(turns, done + 1);
    } else {
        turns.push_back_reserved(turn);
    }
}

/// Gives up the turns behind the first `count`, if there are any.
#[inline(always)]
fn cut(turns: &mut VecDeque<Turn>, count: usize)
    ensures { turns.new.items ≡ take count turns.old.items }
{
    if count < turns.len() {
        give_up_undone(turns, count);
    }
}

/// The same, where there are some. It is a function of its own, since seldom more than one turn is undone.
#[inline(never)]
fn give_up_undone(turns: &mut VecDeque<Turn>, count: usize)
    ensures { turns.new.items ≡ take count turns.old.items }
{
    turns.truncate(count);
}
