//! Returns from routines further out (Z-Machine Standards Document 1.1, sections 6.4 and 15,
//! `catch` and `throw`).

ghost use Rattle.std.specs.Prelude.{◌≤◌, ◌<◌, slice_index, OnOk};
ghost use Rattle.zcore_standard.specs.Flow as definitions;
ghost use Rattle.machine_frames.specs.States.{frame_count, IsSound, IsStoreOf};
ghost use Rattle.machine_frames.specs.Went.{Went};
ghost use Rattle.machine_standard_opcodes.specs.Left.{has_frame, returns_from, caller_stores};

use journal::Recorded;
use machine_frames::layout::{
    FRAME_COUNT, LOCAL_COUNT, RECORD, RECORDS, RESULT, RETURN, STACK_SIZE,
};
use machine_frames::{End, Store, cell, is_code, long, put_all, store_result, variable_in};
use machine_opcodes::give_result;
use zcore::{Fault, Header, Next, Place};

/// The number of calls that are open: `catch`.
///
/// # Errors
///
/// M6 and M4 of the result. `End::Memory` where memory was refused: the turn is given up.
pub fn catch(
    header: &Header,
    store: &mut Recorded<Store>,
    here: Next,
    after: u32,
    result_variable: Option<u8>,
) -> Result<Next, End>
    requires { IsStoreOf header.now store.old.store }
    ensures { Went result store.old store.new (definitions.catch here after result_variable) }
{
    let open = cell(store, FRAME_COUNT) - 1;
    give_result(header, store, here, after, result_variable, open)
}

/// Returns a word from the routine of a frame, which has as its number how many calls were open when
/// it ran: `throw`.
///
/// # Errors
///
/// M11 where there is no such frame, then M6 and M4 where its caller cannot store the result, M2
/// where the address to go on at is no code; nothing has changed then. `End::Memory` where memory
/// was refused: the turn is given up.
pub fn throw(
    header: &Header,
    store: &mut Recorded<Store>,
    here: Next,
    word: u16,
    number: u16,
) -> Result<Next, End>
    requires { IsStoreOf header.now store.old.store }
    ensures { Went result store.old store.new (definitions.throw here word number) }
{
    test_frame(store, number)?;
    let (program_counter, result_variable) = test_return_of(store, number)?;
    leave_frame(store, number)?;
    store_result(header, store, result_variable, word)?;
    Ok(Next {
        program_counter,
        fuel: here.fuel,
    })
}

/// Tests whether there is a frame of a number, and changes nothing. M11.
fn test_frame(store: &Recorded<Store>, number: u16) -> Result<(), End>
    requires { IsSound store.now.store }
    ensures went { Went result store.now store.now (has_frame number) }
    ensures some { OnOk result (1 ≤ number) }
    ensures called { OnOk result (number < frame_count (slice_index store.now.store.cells)) }
{
    if number == 0 {
        return Err(End::Stop(Place::Fault(Fault::Return)));
    }
    if cell(store, FRAME_COUNT) <= number {
        return Err(End::Stop(Place::Fault(Fault::Return)));
    }
    Ok(())
}

/// Tests whether the frame of a number can return, and changes nothing: where it returns to, and the
/// variable for its result. M6 and M4 of the result, M2.
fn test_return_of(store: &Recorded<Store>, number: u16) -> Result<(u32, Option<u8>), End>
    requires sound { IsSound store.now.store }
    requires some { 1 ≤ number }
    requires called { number < frame_count (slice_index store.now.store.cells) }
    ensures { Went result store.now store.now (returns_from number) }
{
    let record = RECORDS + RECORD * number as usize;
    let return_address = long(store, record + RETURN);
    let result_variable = variable_in(cell(store, record + RESULT));
    test_caller_of(store, number, result_variable)?;
    if !is_code(store.store().memory(), return_address as usize) {
        return Err(End::Stop(Place::Fault(Fault::Code)));
    }
    Ok((return_address, result_variable))
}

/// Tests whether the caller of the frame of a number can store its result, and changes nothing. M6
/// and M4.
fn test_caller_of(
    store: &Recorded<Store>,
    number: u16,
    result_variable: Option<u8>,
) -> Result<(), End>
    requires sound { IsSound store.now.store }
    requires some { 1 ≤ number }
    requires called { number < frame_count (slice_index store.now.store.cells) }
    ensures { Went result store.now store.now (caller_stores number result_variable) }
{
    let record = RECORDS + RECORD * number as usize;
    match result_variable {
        None => Ok(()),
        Some(variable) => match variable {
            0 => {
                if long(store, record) as usize == STACK_SIZE {
                    return Err(End::Stop(Place::Fault(Fault::StackFull)));
                }
                Ok(())
            }
            1..16 => {
                if variable as u16 > cell(store, record - RECORD + LOCAL_COUNT) {
                    return Err(End::Stop(Place::Fault(Fault::Write)));
                }
                Ok(())
            }
            _ => Ok(()),
        },
    }
}

/// Ends the frame of a number and all that were called from it. It has a caller.
///
/// # Errors
///
/// `End::Memory` where memory was refused: the turn is given up.
fn leave_frame(store: &mut Recorded<Store>, number: u16) -> Result<(), End>
    requires sound { IsSound store.old.store }
    requires some { 1 ≤ number }
    requires called { number < frame_count (slice_index store.old.store.cells) }
    ensures { Went result store.old store.new (definitions.leave_frame number) }
{
    let base = long(store, RECORDS + RECORD * number as usize);
    let registers = [number, (base / 65_536) as u16, (base % 65_536) as u16];
    put_all(store, FRAME_COUNT, &registers)?;
    Ok(())
}
