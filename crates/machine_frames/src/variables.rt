//! Variables: the stack, locals and globals. Operands, which may name one, and results, which go to one.

ghost use Rattle.std.specs.Prelude.{◌≡◌, ◌<◌, ◌≤◌, ◌+◌, ◌-◌, ◌*◌, ◌^◌, IfSome, IfNone, drop, slice_index};
ghost use Rattle.machine_frames.specs.Running.{running_locals, running_record, IsLocalCell};
ghost use Rattle.machine_frames.specs.States.{frame_count, IsSound, IsStoreOf};
ghost use Rattle.machine_frames.specs.Went.{Went};
ghost use Rattle.zcore.specs.Parts.{read_local, write_local, read_global, write_global, read_variable, write_variable, read_in_place, write_in_place, test_pull};
ghost use Rattle.zcore.specs.Parts.{can_store, operand_value, test_result, store_result};

use crate::cells::{cell, long};
use crate::end::End;
use crate::layout::{LOCAL_COUNT, MEMORY, RECORD, STACK, STACK_SIZE};
use crate::stack::{bottom, height, pop, push, running, set_top, top};
use crate::store::Store;
use journal::Recorded;
use zcore::{Fault, Header, Operand, Place};

/// The cell of a local of the running frame, from 0, if it has so many.
#[inline(always)]
fn local_cell(store: &Recorded<Store>, number: usize) -> Option<usize>
    requires { IsSound store.now.store }
    ensures some { IfSome result (IsLocalCell store.now.store number) }
    ensures none { IfNone result (running_locals store.now.store ≤ number) }
{
    let record = running(store);
    if number < cell(store, record + LOCAL_COUNT) as usize {
        Some(STACK + long(store, record) as usize + number)
    } else {
        None
    }
}

/// Reads a local of the running frame, from 0. M3 where it has not so many.
#[inline(always)]
fn read_local(store: &Recorded<Store>, number: usize) -> Result<u16, End>
    requires { IsSound store.now.store }
    ensures { Went result store.now store.now (read_local number) }
{
    match local_cell(store, number) {
        Some(i) => Ok(cell(store, i)),
        None => Err(End::Stop(Place::Fault(Fault::Read))),
    }
}

/// Writes a local of the running frame, from 0. M4 where it has not so many.
#[inline(always)]
fn write_local(store: &mut Recorded<Store>, number: usize, word: u16) -> Result<(), End>
    requires { IsSound store.old.store }
    ensures { Went result store.old store.new (write_local number word) }
{
    match local_cell(store, number) {
        Some(i) => Ok(store.put(i, word)?),
        None => Err(End::Stop(Place::Fault(Fault::Write))),
    }
}

/// Where a global stands in memory, by its variable, from 16 on (Z-Machine Standards Document 1.1,
/// section 6.2).
#[inline(always)]
pub fn global_address(header: &Header, variable: u8) -> usize
    requires { 16 ≤ variable }
    ensures same { result ≡ header.now.globals + 2 * (variable - 16) }
    ensures within { result < 2 ^ 17 }
{
    header.globals as usize + 2 * (variable as usize - 16)
}

/// Reads a global, from variable 16 on.
#[inline(always)]
fn read_global(header: &Header, store: &Recorded<Store>, variable: u8) -> Result<u16, End>
    requires store { IsStoreOf header.now store.now.store }
    requires variable { 16 ≤ variable }
    ensures { Went result store.now store.now (read_global variable) }
{
    let at = global_address(header, variable);
    let memory = store.store().memory();
    Ok(memory[at] as u16 * 256 + memory[at + 1] as u16)
}

/// Writes a global, from variable 16 on.
#[inline(always)]
fn write_global(
    header: &Header,
    store: &mut Recorded<Store>,
    variable: u8,
    word: u16,
) -> Result<(), End>
    requires store { IsStoreOf header.now store.old.store }
    requires variable { 16 ≤ variable }
    ensures { Went result store.old store.new (write_global variable word) }
{
    let at = global_address(header, variable);
    store.put(MEMORY + at, word / 256)?;
    store.put(MEMORY + at + 1, word % 256)?;
    Ok(())
}

/// Reads a variable in place: 0 is the top of the stack, which stays (section 6.3.4).
///
/// # Errors
///
/// M5 where the stack is empty, M3 where the frame has not such a local.
#[inline(always)]
pub fn read_in_place(header: &Header, store: &Recorded<Store>, variable: u8) -> Result<u16, End>
    requires { IsStoreOf header.now store.now.store }
    ensures { Went result store.now store.now (read_in_place variable) }
{
    match variable {
        0 => top(store),
        1..16 => read_local(store, variable as usize - 1),
        _ => read_global(header, store, variable),
    }
}

/// Reads a variable: 0 pops the stack, 1 to 15 are locals, 16 and above are globals.
///
/// # Errors
///
/// M5 where the stack is empty, M3 where the frame has not such a local. `End::Memory` where memory
/// was refused: the turn is given up.
#[inline(always)]
pub fn read_variable(header: &Header, store: &mut Recorded<Store>, variable: u8) -> Result<u16, End>
    requires { IsStoreOf header.now store.old.store }
    ensures { Went result store.old store.new (read_variable variable) }
{
    match variable {
        0 => pop(store),
        _ => read_in_place(header, store, variable),
    }
}

/// Writes a variable: 0 pushes on the stack, 1 to 15 are locals, 16 and above are globals.
///
/// # Errors
///
/// M6 where the stack is full, M4 where the frame has not such a local. `End::Memory` where memory
/// was refused: the turn is given up.
#[inline(always)]
pub fn write_variable(
    header: &Header,
    store: &mut Recorded<Store>,
    variable: u8,
    word: u16,
) -> Result<(), End>
    requires { IsStoreOf header.now store.old.store }
    ensures { Went result store.old store.new (write_variable variable word) }
{
    match variable {
        0 => push(store, word),
        1..16 => write_local(store, variable as usize - 1, word),
        _ => write_global(header, store, variable, word),
    }
}

/// Writes a variable in place: 0 is the top of the stack, whose word is replaced (section 6.3.4).
///
/// # Errors
///
/// M5 where the stack is empty, M4 where the frame has not such a local. `End::Memory` where memory
/// was refused: the turn is given up.
#[inline]
pub fn write_in_place(
    header: &Header,
    store: &mut Recorded<Store>,
    variable: u8,
    word: u16,
) -> Result<(), End>
    requires { IsStoreOf header.now store.old.store }
    ensures { Went result store.old store.new (write_in_place variable word) }
{
    match variable {
        0 => set_top(store, word),
        _ => write_variable(header, store, variable, word),
    }
}

/// The value of an operand.
///
/// # Errors
///
/// M5 where the stack is empty, M3 where the frame has not such a local. `End::Memory` where memory
/// was refused: the turn is given up.
#[inline(always)]
pub fn operand_value(
    header: &Header,
    store: &mut Recorded<Store>,
    operand: Operand,
) -> Result<u16, End>
    requires { IsStoreOf header.now store.old.store }
    ensures { Went result store.old store.new (operand_value operand) }
{
    match operand {
        Operand::Large(word) => Ok(word),
        Operand::Small(byte) => Ok(byte as u16),
        Operand::Variable(variable) => read_variable(header, store, variable),
    }
}

/// Tests whether a word that is taken from the stack can then be stored in a variable in place, and
/// changes nothing.
///
/// # Errors
///
/// M5 where variable 0 leaves no word below it, M4 where the frame has not such a local.
#[inline]
pub fn test_pull(store: &Recorded<Store>, variable: u8) -> Result<(), End>
    requires { IsSound store.now.store }
    ensures { Went result store.now store.now (test_pull variable) }
{
    if variable != 0 {
        return test_result(store, Some(variable));
    }
    if height(store) <= bottom(store) + 1 {
        return Err(End::Stop(Place::Fault(Fault::StackEmpty)));
    }
    Ok(())
}

/// Tests whether a result can be stored, and changes nothing.
///
/// # Errors
///
/// M6 where the stack is full, M4 where the frame has not such a local.
#[inline(always)]
pub fn test_result(store: &Recorded<Store>, result_variable: Option<u8>) -> Result<(), End>
    requires { IsSound store.now.store }
    ensures { Went result store.now store.now (test_result result_variable) }
{
    match result_variable {
        None => Ok(()),
        Some(variable) => match variable {
            0 => {
                if height(store) == STACK_SIZE {
                    return Err(End::Stop(Place::Fault(Fault::StackFull)));
                }
                Ok(())
            }
            1..16 => {
                if variable as u16 > cell(store, running(store) + LOCAL_COUNT) {
                    return Err(End::Stop(Place::Fault(Fault::Write)));
                }
                Ok(())
            }
            _ => Ok(()),
        },
    }
}

/// Stores a result, which was tested before.
///
/// # Errors
///
/// M6 and M4, where it was not tested. `End::Memory` where memory was refused: the turn is given up.
#[inline(always)]
pub fn store_result(
    header: &Header,
    store: &mut Recorded<Store>,
    result_variable: Option<u8>,
    word: u16,
) -> Result<(), End>
    requires { IsStoreOf header.now store.old.store }
    ensures { Went result store.old store.new (store_result result_variable word) }
{
    match result_variable {
        None => Ok(()),
        Some(variable) => write_variable(header, store, variable, word),
    }
}

/// Tests whether a result can be stored in the frame below the running one, whose record begins at
/// a cell.
#[inline]
pub(crate) fn test_caller(
    store: &Recorded<Store>,
    at: usize,
    result_variable: Option<u8>,
) -> Result<(), End>
    requires sound { IsSound store.now.store }
    requires called { 1 < frame_count (slice_index store.now.store.cells) }
    requires running { at ≡ running_record store.now.store }
    ensures { Went result store.now store.now (λ s. can_store result_variable (drop 1 s.frames) s) }
{
    match result_variable {
        None => Ok(()),
        Some(variable) => match variable {
            0 => {
                if long(store, at) as usize == STACK_SIZE {
                    return Err(End::Stop(Place::Fault(Fault::StackFull)));
                }
                Ok(())
            }
            1..16 => {
                if variable as u16 > cell(store, at - RECORD + LOCAL_COUNT) {
                    return Err(End::Stop(Place::Fault(Fault::Write)));
                }
                Ok(())
            }
            _ => Ok(()),
        },
    }
}
