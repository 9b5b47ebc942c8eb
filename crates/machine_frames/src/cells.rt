//! Cells of a recorded store, by what they hold.

ghost use Rattle.std.specs.Prelude.{◌≡◌, ◌<◌, ◌≤◌, ◌+◌, length, slice_index, OnOk, OnErr};
ghost use Rattle.machine_frames.specs.Layout.{words_before_memory};
ghost use Rattle.machine_frames.specs.States.{long_at, two_cells, program_counter_of, standard_state_of, IsSound};
ghost use Rattle.machine_frames.specs.Went.{Abandons, GivenUp, KeepsStandardState, KeepsCounter, Puts};

use crate::layout::{COUNTER, INTERVAL, PROGRAM_COUNTER, RANDOM, WINDOW};
use crate::store::Store;
use journal::{Cells, NoMemory, Recorded};
use zcore::StandardState;

/// The value of a cell before dynamic memory.
#[inline(always)]
pub fn cell(store: &Recorded<Store>, i: usize) -> u16
    requires { i < words_before_memory }
    ensures { result ≡ slice_index store.now.store.cells i }
{
    store.store().word(i)
}

/// The number in two cells before dynamic memory, the high half first.
#[inline]
pub fn long(store: &Recorded<Store>, i: usize) -> u32
    requires cells { i + 1 < length store.now.store.cells }
    requires words { i + 1 < words_before_memory }
    ensures { result ≡ long_at (slice_index store.now.store.cells) i }
{
    cell(store, i) as u32 * 65_536 + cell(store, i + 1) as u32
}

/// Writes values to cells that follow each other, all before memory.
#[inline]
pub fn put_all(store: &mut Recorded<Store>, at: usize, values: &[u16]) -> Result<(), NoMemory>
    requires size { at + length values.now ≤ length store.old.store.cells }
    requires words { at + length values.now ≤ words_before_memory }
    ensures cells { OnOk result (Puts store.old store.new at values.now) }
    ensures beginning { OnOk result (store.new.beginning ≡ store.old.beginning) }
    ensures abandoned { OnErr result (Abandons store.old store.new) }
    ensures fixed { store.new.store.fixed ≡ store.old.store.fixed }
{
    for (i, value) in values.iter().enumerate() {
        store.put(at + i, *value)?;
    }
    Ok(())
}

/// Writes a number to two cells before memory, the high half only where it changes.
#[inline]
pub(crate) fn put_long(store: &mut Recorded<Store>, at: usize, number: u32) -> Result<(), NoMemory>
    requires size { at + 2 ≤ length store.old.store.cells }
    requires words { at + 2 ≤ words_before_memory }
    ensures cells { OnOk result (Puts store.old store.new at (two_cells number)) }
    ensures beginning { OnOk result (store.new.beginning ≡ store.old.beginning) }
    ensures abandoned { OnErr result (Abandons store.old store.new) }
    ensures fixed { store.new.store.fixed ≡ store.old.store.fixed }
{
    let high = (number / 65_536) as u16;
    if high != cell(store, at) {
        store.put(at, high)?;
    }
    store.put(at + 1, (number % 65_536) as u16)
}

/// The program counter that is kept in its registers.
pub fn program_counter(store: &Recorded<Store>) -> u32
    requires { IsSound store.now.store }
    ensures { result ≡ program_counter_of (slice_index store.now.store.cells) }
{
    long(store, PROGRAM_COUNTER)
}

/// Keeps the program counter in its registers, at the end of a turn.
///
/// # Errors
///
/// Memory was refused.
pub fn set_program_counter(
    store: &mut Recorded<Store>,
    program_counter: u32,
) -> Result<(), NoMemory>
    requires { IsSound store.old.store }
    ensures kept { OnOk result (KeepsCounter store.old store.new program_counter) }
    ensures given_up { OnErr result (GivenUp store.old store.new) }
{
    put_long(store, PROGRAM_COUNTER, program_counter)?;
    Ok(())
}

/// The window and the random number generator, as the registers hold them between turns.
#[inline]
pub fn standard_state(store: &Recorded<Store>) -> StandardState
    requires { IsSound store.now.store }
    ensures { result ≡ standard_state_of (slice_index store.now.store.cells) }
{
    StandardState {
        window: cell(store, WINDOW),
        random: long(store, RANDOM),
        interval: cell(store, INTERVAL),
        counter: cell(store, COUNTER),
    }
}

/// Writes the window and the random number generator to their registers, at the end of a turn.
/// Registers that hold them already are not written, so that a turn of the profile records none.
///
/// # Errors
///
/// Memory was refused.
#[inline(always)]
pub fn set_standard_state(store: &mut Recorded<Store>, kept: StandardState) -> Result<(), NoMemory>
    requires { IsSound store.old.store }
    ensures kept { OnOk result (KeepsStandardState store.old store.new kept) }
    ensures given_up { OnErr result (GivenUp store.old store.new) }
{
    if standard_state(store) == kept {
        return Ok(());
    }
    write_standard_state(store, kept)
}

/// Writes the window and the random number generator to their registers.
///
/// # Errors
///
/// Memory was refused.
fn write_standard_state(store: &mut Recorded<Store>, kept: StandardState) -> Result<(), NoMemory>
    requires { IsSound store.old.store }
    ensures kept { OnOk result (KeepsStandardState store.old store.new kept) }
    ensures given_up { OnErr result (GivenUp store.old store.new) }
{
    let high = (kept.random / 65_536) as u16;
    let low = (kept.random % 65_536) as u16;
    put_all(
        store,
        WINDOW,
        &[kept.window, high, low, kept.interval, kept.counter],
    )?;
    Ok(())
}
