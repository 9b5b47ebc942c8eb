//! Copies of tables (Z-Machine Standards Document 1.1, section 15).

ghost use Rattle.std.specs.Prelude.{◌≡◌, ◌<◌, slice_set, true, OnOk, OnErr};
ghost use Rattle.zcore.specs.Arithmetic.{magnitude};
ghost use Rattle.zcore.specs.Parts.{is_writable};
ghost use Rattle.zcore_standard.specs.Tables.{are_readable, are_writable, cleared, copied_at_once, copied_forwards, copy_table};
ghost use Rattle.machine_lines.specs.Lines.{Filled};
ghost use Rattle.machine_frames.specs.Contents.{memory_of};
ghost use Rattle.machine_frames.specs.States.{IsSound, IsStoreOf};
ghost use Rattle.machine_frames.specs.Went.{GivenUp, Went};

use crate::testing::{test_readable, test_writable};
use journal::{NoMemory, Recorded};
use machine_frames::layout::MEMORY;
use machine_frames::{End, Store};
use machine_opcodes::{NEGATIVE, magnitude};
use machine_standard_texts::spend_for;
use zcore::{Header, Next};

/// Copies a table to another: `copy_table`. The size is a signed number of bytes. A negative size
/// copies forwards, even where this overwrites bytes that are still to be copied; another copies as
/// if at once. Where the second table is 0, the first is cleared. It takes fuel for its bytes.
///
/// # Errors
///
/// M3 where a byte to copy cannot be read, then M4 where one cannot be written, then the limit of
/// fuel; nothing is written then. `End::Memory` where memory was refused: the turn is given up.
pub fn copy_table(
    header: &Header,
    store: &mut Recorded<Store>,
    here: Next,
    after: u32,
    first: u16,
    second: u16,
    size: u16,
) -> Result<Next, End>
    requires { IsStoreOf header.now store.old.store }
    ensures { Went result store.old store.new (copy_table here after first second size) }
{
    let count = magnitude(size) as usize;
    if second == 0 {
        test_writable(header, store, first as usize, count)?;
        let fuel = spend_for(count, here.fuel)?;
        clear(store, first as usize, count)?;
        return Ok(Next {
            program_counter: after,
            fuel,
        });
    }
    test_readable(store, first as usize, count)?;
    test_writable(header, store, second as usize, count)?;
    let fuel = spend_for(count, here.fuel)?;
    let next = Next {
        program_counter: after,
        fuel,
    };
    if size < NEGATIVE {
        copy_at_once(store, first as usize, second as usize, count)?;
        return Ok(next);
    }
    copy_forwards(store, first as usize, second as usize, count)?;
    Ok(next)
}

/// Writes 0 to `count` bytes.
fn clear(store: &mut Recorded<Store>, at: usize, count: usize) -> Result<(), NoMemory>
    requires sound { IsSound store.old.store }
    requires writable { are_writable (memory_of store.old.store) at count ≡ true }
    ensures filled { OnOk result (Filled store.old store.new
        (cleared (memory_of store.old.store) at count)) }
    ensures given_up { OnErr result (GivenUp store.old store.new) }
{
    for i in 0..count {
        write(store, at + i, 0)?;
    }
    Ok(())
}

/// Copies `count` bytes as if at once, in the direction in which no byte is overwritten before it is
/// copied.
fn copy_at_once(
    store: &mut Recorded<Store>,
    first: usize,
    second: usize,
    count: usize,
) -> Result<(), NoMemory>
    requires sound { IsSound store.old.store }
    requires readable { are_readable (memory_of store.old.store) first count ≡ true }
    requires writable { are_writable (memory_of store.old.store) second count ≡ true }
    ensures filled { OnOk result (Filled store.old store.new
        (copied_at_once (memory_of store.old.store) first second count)) }
    ensures given_up { OnErr result (GivenUp store.old store.new) }
{
    if first < second {
        copy_backwards(store, first, second, count)
    } else {
        copy_forwards(store, first, second, count)
    }
}

/// Copies `count` bytes one by one, from the first to the last.
fn copy_forwards(
    store: &mut Recorded<Store>,
    first: usize,
    second: usize,
    count: usize,
) -> Result<(), NoMemory>
    requires sound { IsSound store.old.store }
    requires readable { are_readable (memory_of store.old.store) first count ≡ true }
    requires writable { are_writable (memory_of store.old.store) second count ≡ true }
    ensures filled { OnOk result (Filled store.old store.new
        (copied_forwards (memory_of store.old.store) first second count)) }
    ensures given_up { OnErr result (GivenUp store.old store.new) }
{
    for i in 0..count {
        let byte = store.store().byte(first + i);
        write(store, second + i, byte)?;
    }
    Ok(())
}

/// Copies `count` bytes one by one to a higher address, from the last to the first.
fn copy_backwards(
    store: &mut Recorded<Store>,
    first: usize,
    second: usize,
    count: usize,
) -> Result<(), NoMemory>
    requires sound { IsSound store.old.store }
    requires readable { are_readable (memory_of store.old.store) first count ≡ true }
    requires writable { are_writable (memory_of store.old.store) second count ≡ true }
    requires higher { first < second }
    ensures filled { OnOk result (Filled store.old store.new
        (copied_at_once (memory_of store.old.store) first second count)) }
    ensures given_up { OnErr result (GivenUp store.old store.new) }
{
    for i in (0..count).rev() {
        let byte = store.store().byte(first + i);
        write(store, second + i, byte)?;
    }
    Ok(())
}

/// Writes a byte that can be written.
#[inline]
fn write(store: &mut Recorded<Store>, at: usize, byte: u8) -> Result<(), NoMemory>
    requires sound { IsSound store.old.store }
    requires writable { is_writable (memory_of store.old.store) at ≡ true }
    ensures filled { OnOk result (Filled store.old store.new
        (slice_set (memory_of store.old.store) at byte)) }
    ensures given_up { OnErr result (GivenUp store.old store.new) }
{
    store.put(MEMORY + at, byte as u16)?;
    Ok(())
}
