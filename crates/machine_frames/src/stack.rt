//! The stack of the running frame.

ghost use Rattle.std.specs.Prelude.{◌≡◌, ◌≤◌, IfSome, IfNone};
ghost use Rattle.machine_frames.specs.Running.{running_bottom, running_record, stack_height, IsTopCell};
ghost use Rattle.machine_frames.specs.States.{IsSound};
ghost use Rattle.machine_frames.specs.Went.{Went};
ghost use Rattle.zcore.specs.Parts.{push, pop, read_in_place, write_in_place};

use crate::cells::{cell, long, put_long};
use crate::end::End;
use crate::layout::{FRAME_COUNT, HEIGHT, LOCAL_COUNT, RECORD, RECORDS, STACK, STACK_SIZE};
use crate::store::Store;
use journal::Recorded;
use zcore::{Fault, Place};

/// The first cell of the running frame's record.
#[inline]
pub(crate) fn running(store: &Recorded<Store>) -> usize
    requires { IsSound store.now.store }
    ensures { result ≡ running_record store.now.store }
{
    RECORDS + RECORD * (cell(store, FRAME_COUNT) as usize - 1)
}

/// How many words of the stack are in use.
#[inline]
pub(crate) fn height(store: &Recorded<Store>) -> usize
    requires { IsSound store.now.store }
    ensures same { result ≡ stack_height store.now.store }
    ensures within { result ≤ 65536 }
{
    long(store, HEIGHT) as usize
}

/// Pushes a word on the running frame's stack.
///
/// # Errors
///
/// M6 where all stacks hold 65,536 words. `End::Memory` where memory was refused: the turn is given up.
#[inline]
pub fn push(store: &mut Recorded<Store>, word: u16) -> Result<(), End>
    requires { IsSound store.old.store }
    ensures { Went result store.old store.new (push word) }
{
    let top = height(store);
    if top == STACK_SIZE {
        return Err(End::Stop(Place::Fault(Fault::StackFull)));
    }
    store.put(STACK + top, word)?;
    put_long(store, HEIGHT, top as u32 + 1)?;
    Ok(())
}

/// Where the running frame's own words begin on the stack.
#[inline]
pub(crate) fn bottom(store: &Recorded<Store>) -> usize
    requires { IsSound store.now.store }
    ensures same { result ≡ running_bottom store.now.store }
    ensures within { result ≤ stack_height store.now.store }
{
    let record = running(store);
    long(store, record) as usize + cell(store, record + LOCAL_COUNT) as usize
}

/// The cell of the word on the top of the running frame's stack, if there is one.
#[inline]
fn top_cell(store: &Recorded<Store>) -> Option<usize>
    requires { IsSound store.now.store }
    ensures some { IfSome result (IsTopCell store.now.store) }
    ensures none { IfNone result (stack_height store.now.store ≡ running_bottom store.now.store) }
{
    let top = height(store);
    if bottom(store) == top {
        None
    } else {
        Some(STACK + top - 1)
    }
}

/// Pops the running frame's stack.
///
/// # Errors
///
/// M5 where it is empty. `End::Memory` where memory was refused: the turn is given up.
#[inline]
pub fn pop(store: &mut Recorded<Store>) -> Result<u16, End>
    requires { IsSound store.old.store }
    ensures { Went result store.old store.new pop }
{
    let Some(i) = top_cell(store) else {
        return Err(End::Stop(Place::Fault(Fault::StackEmpty)));
    };
    let word = cell(store, i);
    put_long(store, HEIGHT, (i - STACK) as u32)?;
    Ok(word)
}

/// Reads the word on the top of the running frame's stack, where it stays: variable 0 in place
/// (Z-Machine Standards Document 1.1, section 6.3.4).
///
/// # Errors
///
/// M5 where the stack is empty.
#[inline]
pub fn top(store: &Recorded<Store>) -> Result<u16, End>
    requires { IsSound store.now.store }
    ensures { Went result store.now store.now (read_in_place 0) }
{
    let Some(i) = top_cell(store) else {
        return Err(End::Stop(Place::Fault(Fault::StackEmpty)));
    };
    Ok(cell(store, i))
}

/// Replaces the word on the top of the running frame's stack: variable 0 in place (section 6.3.4).
/// M5 where the stack is empty.
#[inline]
pub(crate) fn set_top(store: &mut Recorded<Store>, word: u16) -> Result<(), End>
    requires { IsSound store.old.store }
    ensures { Went result store.old store.new (write_in_place 0 word) }
{
    let Some(i) = top_cell(store) else {
        return Err(End::Stop(Place::Fault(Fault::StackEmpty)));
    };
    store.put(i, word)?;
    Ok(())
}
