//! Calls of routines and returns from them.

ghost use Rattle.std.specs.Prelude.{◌≡◌, ◌<◌, ◌≤◌, ◌+◌, ◌-◌, ◌*◌, [], length, slice_index, OnOk};
ghost use Rattle.machine_frames.specs.Layout.{record_count};
ghost use Rattle.machine_frames.specs.States.{frame_count, state_of, variable_of, IsSound};
ghost use Rattle.machine_frames.specs.Went.{Went, CanEnter};
ghost use Rattle.zcore.specs.Parts.{is_code, test_routine, test_calls, enter, has_argument, test_return, leave};

use crate::cells::{cell, long, put_all, put_long};
use crate::end::End;
use crate::layout::{
    ARGUMENT_COUNT, FRAME_COUNT, HEIGHT, NO_VARIABLE, RECORD, RECORD_COUNT, RECORDS, RESULT,
    RETURN, STACK, STACK_SIZE,
};
use crate::stack::{height, running};
use crate::store::Store;
use crate::variables::test_caller;
use journal::Recorded;
use zcore::layout::HEADER_LENGTH;
use zcore::{Fault, Limit, Place};

/// Where code may stand: behind the header, below the story's length.
#[inline]
pub fn is_code(memory: &[u8], address: usize) -> bool
    ensures { result ≡ is_code memory.now address }
{
    HEADER_LENGTH <= address && address < memory.len()
}

/// Tests whether a routine can be entered, and changes nothing.
///
/// # Errors
///
/// M2 where it does not lie in the story or has more than 15 locals, M6 where its locals find no
/// room.
#[inline]
pub fn test_routine(store: &Recorded<Store>, routine: usize) -> Result<(), End>
    requires { IsSound store.now.store }
    ensures went { Went result store.now store.now (test_routine routine) }
    ensures ready { OnOk result (CanEnter store.now.store routine) }
{
    let memory = store.store().memory();
    if !is_code(memory, routine) {
        return Err(End::Stop(Place::Fault(Fault::Code)));
    }
    let locals = memory[routine];
    if locals > 15 {
        return Err(End::Stop(Place::Fault(Fault::Code)));
    }
    if height(store) + locals as usize > STACK_SIZE {
        return Err(End::Stop(Place::Fault(Fault::StackFull)));
    }
    Ok(())
}

/// Tests whether one more call may be open, and changes nothing.
///
/// # Errors
///
/// The limit of calls, where 1,000 calls are open.
#[inline]
pub fn test_calls(store: &Recorded<Store>) -> Result<(), End>
    requires { IsSound store.now.store }
    ensures went { Went result store.now store.now test_calls }
    ensures room { OnOk result (frame_count (slice_index store.now.store.cells) < record_count) }
{
    if cell(store, FRAME_COUNT) as usize >= RECORD_COUNT {
        return Err(End::Stop(Place::Limit(Limit::Calls)));
    }
    Ok(())
}

/// Makes the frame of a routine that was tested. The first locals are the arguments, the others are
/// 0; surplus arguments are dropped.
///
/// # Errors
///
/// `End::Memory` where memory was refused: the turn is given up.
#[inline]
pub fn enter(
    store: &mut Recorded<Store>,
    routine: usize,
    arguments: &[u16],
    result_variable: Option<u8>,
    return_address: u32,
) -> Result<(), End>
    requires sound { IsSound store.old.store }
    requires ready { CanEnter store.old.store routine }
    requires room { frame_count (slice_index store.old.store.cells) < record_count }
    requires few { length arguments.now ≤ 15 }
    ensures { Went result store.old store.new
        (enter routine arguments.now result_variable return_address) }
{
    let count = store.store().memory()[routine] as usize;
    let base = height(store);
    let frames = cell(store, FRAME_COUNT);
    let mut locals = [0u16; 15];
    locals[..arguments.len()].copy_from_slice(arguments);
    let record = [
        (base / 65_536) as u16,
        (base % 65_536) as u16,
        (return_address / 65_536) as u16,
        (return_address % 65_536) as u16,
        count as u16,
        arguments.len() as u16,
        variable_cell(result_variable),
    ];
    put_all(store, RECORDS + RECORD * frames as usize, &record)?;
    put_all(store, STACK + base, &locals[..count])?;
    store.put(FRAME_COUNT, frames + 1)?;
    put_long(store, HEIGHT, (base + count) as u32)?;
    Ok(())
}

/// Whether the call of the running routine gave an argument of this number, counted from 1. Surplus
/// arguments count.
#[inline]
pub fn has_argument(store: &Recorded<Store>, number: u16) -> bool
    requires { IsSound store.now.store }
    ensures { result ≡ has_argument number (state_of store.now.store []).frames }
{
    1 <= number && number <= cell(store, running(store) + ARGUMENT_COUNT)
}

/// What a frame record has in the cell for the variable of the frame's result.
#[inline]
pub fn variable_cell(result_variable: Option<u8>) -> u16
    ensures { variable_of result ≡ result_variable }
{
    match result_variable {
        Some(variable) => variable as u16,
        None => NO_VARIABLE,
    }
}

/// The variable of a result, by its cell.
#[inline]
pub fn variable_in(cell: u16) -> Option<u8>
    ensures { result ≡ variable_of cell }
{
    if cell < NO_VARIABLE {
        Some(cell as u8)
    } else {
        None
    }
}

/// Tests whether the running frame can return, and changes nothing: where it returns to, and the
/// variable for its result.
///
/// # Errors
///
/// M11 in the first environment, M6 and M4 where the caller cannot store the result, M2 where the
/// address is no code.
#[inline]
pub fn test_return(store: &Recorded<Store>) -> Result<(u32, Option<u8>), End>
    requires { IsSound store.now.store }
    ensures went { Went result store.now store.now test_return }
    ensures called { OnOk result (1 < frame_count (slice_index store.now.store.cells)) }
{
    let frames = cell(store, FRAME_COUNT);
    if frames == 1 {
        return Err(End::Stop(Place::Fault(Fault::Return)));
    }
    let record = running(store);
    let return_address = long(store, record + RETURN);
    let result_variable = variable_in(cell(store, record + RESULT));
    test_caller(store, record, result_variable)?;
    if !is_code(store.store().memory(), return_address as usize) {
        return Err(End::Stop(Place::Fault(Fault::Code)));
    }
    Ok((return_address, result_variable))
}

/// Ends the running frame, which has a caller: its record and its words are no longer in use.
///
/// # Errors
///
/// `End::Memory` where memory was refused: the turn is given up.
#[inline]
pub fn leave(store: &mut Recorded<Store>) -> Result<(), End>
    requires sound { IsSound store.old.store }
    requires called { 1 < frame_count (slice_index store.old.store.cells) }
    ensures { Went result store.old store.new leave }
{
    let frames = cell(store, FRAME_COUNT);
    let record = running(store);
    let base = long(store, record);
    store.put(FRAME_COUNT, frames - 1)?;
    put_long(store, HEIGHT, base)?;
    Ok(())
}
