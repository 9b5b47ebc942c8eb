//! Bytes and words of memory.

ghost use Rattle.std.specs.Prelude.{◌≡◌, ◌<◌, ◌≤◌, ◌+◌, ◌&&◌, nat_le, nat_lt, length};
ghost use Rattle.machine_frames.specs.States.{IsSound, IsStoreOf};
ghost use Rattle.machine_frames.specs.Went.{Went};
ghost use Rattle.zcore.specs.Parts.{is_readable, is_writable, read_byte, read_word, write_byte, write_word};
ghost use Rattle.zcore.specs.Layout.{header_size};

use crate::end::End;
use crate::layout::MEMORY;
use crate::store::Store;
use journal::Recorded;
use zcore::layout::{HEADER_LENGTH, READABLE};
use zcore::{Fault, Header, Place};

/// Whether a byte can be read: it lies in the story, below 65,536.
#[inline]
pub fn is_readable(memory: &[u8], at: usize) -> bool
    ensures { result ≡ is_readable memory.now at }
{
    at < memory.len() && at < READABLE
}

/// Whether both bytes of a word can be read.
#[inline]
pub fn is_readable_word(memory: &[u8], at: usize) -> bool
    requires { at ≤ 65535 }
    ensures { result ≡ is_readable memory.now at && is_readable memory.now (at + 1) }
{
    at + 1 < memory.len() && at + 1 < READABLE
}

/// Whether a byte can be written: it lies behind the header, below static base.
#[inline]
pub fn is_writable(header: &Header, at: usize) -> bool
    ensures { result ≡ nat_le header_size at && nat_lt at header.now.static_base }
{
    HEADER_LENGTH <= at && at < header.static_base as usize
}

/// Whether both bytes of a word can be written.
#[inline]
pub fn is_writable_word(header: &Header, at: usize) -> bool
    requires { at ≤ 65535 }
    ensures { result ≡ nat_le header_size at && nat_lt (at + 1) header.now.static_base }
{
    HEADER_LENGTH <= at && at + 1 < header.static_base as usize
}

/// Reads a byte.
///
/// # Errors
///
/// M3 at or past the lesser of the story's length and 65,536.
#[inline]
pub fn read_byte(store: &Recorded<Store>, at: usize) -> Result<u8, End>
    requires { IsSound store.now.store }
    ensures { Went result store.now store.now (read_byte at) }
{
    let memory = store.store().memory();
    if !is_readable(memory, at) {
        return Err(End::Stop(Place::Fault(Fault::Read)));
    }
    Ok(memory[at])
}

/// Reads a word.
///
/// # Errors
///
/// M3 where one of its bytes stands at or past the lesser of the story's length and 65,536.
#[inline]
pub fn read_word(store: &Recorded<Store>, at: usize) -> Result<u16, End>
    requires sound { IsSound store.now.store }
    requires address { at ≤ 65535 }
    ensures { Went result store.now store.now (read_word at) }
{
    let memory = store.store().memory();
    if !is_readable_word(memory, at) {
        return Err(End::Stop(Place::Fault(Fault::Read)));
    }
    Ok(memory[at] as u16 * 256 + memory[at + 1] as u16)
}

/// Writes a byte.
///
/// # Errors
///
/// M4 below 64 and from static base on. `End::Memory` where memory was refused: the turn is given up.
#[inline]
pub fn write_byte(
    header: &Header,
    store: &mut Recorded<Store>,
    at: usize,
    byte: u8,
) -> Result<(), End>
    requires { IsStoreOf header.now store.old.store }
    ensures { Went result store.old store.new (write_byte at byte) }
{
    if !is_writable(header, at) {
        return Err(End::Stop(Place::Fault(Fault::Write)));
    }
    store.put(MEMORY + at, byte as u16)?;
    Ok(())
}

/// Writes a word.
///
/// # Errors
///
/// M4 where one of its bytes stands below 64 or from static base on. `End::Memory` where memory was
/// refused: the turn is given up.
#[inline]
pub fn write_word(
    header: &Header,
    store: &mut Recorded<Store>,
    at: usize,
    word: u16,
) -> Result<(), End>
    requires store { IsStoreOf header.now store.old.store }
    requires address { at ≤ 65535 }
    ensures { Went result store.old store.new (write_word at word) }
{
    if !is_writable_word(header, at) {
        return Err(End::Stop(Place::Fault(Fault::Write)));
    }
    store.put(MEMORY + at, word / 256)?;
    store.put(MEMORY + at + 1, word % 256)?;
    Ok(())
}
