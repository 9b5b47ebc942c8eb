//! Bytes that are written to dynamic memory one after another.

ghost use Rattle.std.specs.Prelude.{◌+◌, ◌≤◌, ◌∷◌, length, OnOk, OnErr};
ghost use Rattle.zcore.specs.Header.{static_base_of};
ghost use Rattle.zcore.specs.Layout.{header_size};
ghost use Rattle.machine_frames.specs.Contents.{memory_of};
ghost use Rattle.machine_lines.specs.Lines.{Fills};
ghost use Rattle.machine_frames.specs.States.{IsSound};
ghost use Rattle.machine_frames.specs.Went.{GivenUp};

use journal::{NoMemory, Recorded};
use machine_frames::Store;
use machine_frames::layout::MEMORY;

/// Writes a byte with a count, and the bytes after it, to dynamic memory after the header.
///
/// # Errors
///
/// `NoMemory` where memory was refused: the turn is given up.
pub fn fill_counted(
    store: &mut Recorded<Store>,
    at: usize,
    count: u8,
    bytes: &[u8],
) -> Result<(), NoMemory>
    requires sound { IsSound store.old.store }
    requires after_header { header_size ≤ at }
    requires room { at + 1 + length bytes.now ≤ static_base_of (memory_of store.old.store) }
    ensures filled { OnOk result (Fills store.old store.new at (count ∷ bytes.now)) }
    ensures given_up { OnErr result (GivenUp store.old store.new) }
{
    fill(store, at, &[count])?;
    fill(store, at + 1, bytes)
}

/// Writes bytes one after another to dynamic memory after the header.
///
/// # Errors
///
/// `NoMemory` where memory was refused: the turn is given up.
pub fn fill(store: &mut Recorded<Store>, at: usize, bytes: &[u8]) -> Result<(), NoMemory>
    requires sound { IsSound store.old.store }
    requires after_header { header_size ≤ at }
    requires room { at + length bytes.now ≤ static_base_of (memory_of store.old.store) }
    ensures filled { OnOk result (Fills store.old store.new at bytes.now) }
    ensures given_up { OnErr result (GivenUp store.old store.new) }
{
    for (i, byte) in bytes.iter().enumerate() {
        store.put(MEMORY + (at + i), *byte as u16)?;
    }
    Ok(())
}
