//! Tests of all the bytes of a table.

ghost use Rattle.std.specs.Prelude.{◌≡◌, ◌+◌, ◌<◌, ◌^◌};
ghost use Rattle.zcore.specs.Header.{static_base_of};
ghost use Rattle.zcore_standard.specs.Tables.{are_readable, are_writable, test_readable, test_writable};
ghost use Rattle.machine_frames.specs.States.{IsSound, IsStoreOf};
ghost use Rattle.machine_frames.specs.Went.{Went};

use journal::Recorded;
use machine_frames::{End, Store, is_readable};
use zcore::layout::HEADER_LENGTH;
use zcore::{Fault, Header, Place};

/// Tests whether the `count` bytes from an address on can be read, and changes nothing. No bytes
/// always can.
///
/// # Errors
///
/// M3 where one of them is at or past the lesser of the story's length and 65,536.
pub(crate) fn test_readable(store: &Recorded<Store>, at: usize, count: usize) -> Result<(), End>
    requires sound { IsSound store.now.store }
    requires short { at + count < 2 ^ 64 }
    ensures { Went result store.now store.now (test_readable at count) }
{
    if are_readable(store.store().memory(), at, count) {
        Ok(())
    } else {
        Err(End::Stop(Place::Fault(Fault::Read)))
    }
}

/// Whether the `count` bytes from an address on can be read.
fn are_readable(memory: &[u8], at: usize, count: usize) -> bool
    requires { at + count < 2 ^ 64 }
    ensures { result ≡ are_readable memory.now at count }
{
    count == 0 || is_readable(memory, at + count - 1)
}

/// Tests whether the `count` bytes from an address on can be written, and changes nothing. No bytes
/// always can.
///
/// # Errors
///
/// M4 where one of them is below 64, or at or past static base.
pub(crate) fn test_writable(
    header: &Header,
    store: &Recorded<Store>,
    at: usize,
    count: usize,
) -> Result<(), End>
    requires store { IsStoreOf header.now store.now.store }
    requires short { at + count < 2 ^ 64 }
    ensures { Went result store.now store.now (test_writable at count) }
{
    if are_writable(store.store().memory(), header.static_base, at, count) {
        Ok(())
    } else {
        Err(End::Stop(Place::Fault(Fault::Write)))
    }
}

/// Whether the `count` bytes from an address on can be written, in a story with this static base.
fn are_writable(memory: &[u8], static_base: u16, at: usize, count: usize) -> bool
    requires base { static_base ≡ static_base_of memory.now }
    requires short { at + count < 2 ^ 64 }
    ensures { result ≡ are_writable memory.now at count }
{
    count == 0 || (HEADER_LENGTH <= at && at + count <= static_base as usize)
}
