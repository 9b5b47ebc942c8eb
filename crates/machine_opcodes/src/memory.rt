//! Reads and writes of arrays (Z-Machine Standards Document 1.1, section 15). An address is a sum
//! of words.

ghost use Rattle.std.specs.Prelude.{◌≡◌, ◌≤◌, ◌+◌, ◌*◌, ◌%◌};
ghost use Rattle.zcore.specs.Execution.{load_word, load_byte, store_word, store_byte};
ghost use Rattle.machine_frames.specs.States.{IsStoreOf};
ghost use Rattle.machine_frames.specs.Went.{Went};

use crate::arithmetic::give_result;
use journal::Recorded;
use machine_frames::{End, Store, read_byte, read_word, write_byte, write_word};
use zcore::{Header, Next};

/// Where a word of an array stands.
#[inline]
pub fn word_address(array: u16, index: u16) -> usize
    ensures same { result ≡ (array + 2 * index) % 65536 }
    ensures within { result ≤ 65535 }
{
    (array as usize + 2 * index as usize) % 65_536
}

/// A word of an array: `loadw`.
///
/// # Errors
///
/// M3 where the array cannot be read there, then M6 and M4 of the result. `End::Memory` where
/// memory was refused: the turn is given up.
#[inline]
pub fn load_word(
    header: &Header,
    store: &mut Recorded<Store>,
    here: Next,
    after: u32,
    result_variable: Option<u8>,
    array: u16,
    index: u16,
) -> Result<Next, End>
    requires { IsStoreOf header.now store.old.store }
    ensures { Went result store.old store.new (load_word here after result_variable array index) }
{
    let word = read_word(store, word_address(array, index))?;
    give_result(header, store, here, after, result_variable, word)
}

/// A byte of an array: `loadb`.
///
/// # Errors
///
/// M3 where the array cannot be read there, then M6 and M4 of the result. `End::Memory` where
/// memory was refused: the turn is given up.
#[inline]
pub fn load_byte(
    header: &Header,
    store: &mut Recorded<Store>,
    here: Next,
    after: u32,
    result_variable: Option<u8>,
    array: u16,
    index: u16,
) -> Result<Next, End>
    requires { IsStoreOf header.now store.old.store }
    ensures { Went result store.old store.new (load_byte here after result_variable array index) }
{
    let byte = read_byte(store, array.wrapping_add(index) as usize)?;
    give_result(header, store, here, after, result_variable, byte as u16)
}

/// Writes a word into an array: `storew`.
///
/// # Errors
///
/// M4 where one of its bytes cannot be written, and then neither is. `End::Memory` where memory was
/// refused: the turn is given up.
#[inline]
pub fn store_word(
    header: &Header,
    store: &mut Recorded<Store>,
    here: Next,
    after: u32,
    array: u16,
    index: u16,
    word: u16,
) -> Result<Next, End>
    requires { IsStoreOf header.now store.old.store }
    ensures { Went result store.old store.new (store_word here after array index word) }
{
    write_word(header, store, word_address(array, index), word)?;
    Ok(Next {
        program_counter: after,
        fuel: here.fuel,
    })
}

/// Writes the low byte of a word into an array: `storeb`.
///
/// # Errors
///
/// M4 where it cannot be written. `End::Memory` where memory was refused: the turn is given up.
#[inline]
pub fn store_byte(
    header: &Header,
    store: &mut Recorded<Store>,
    here: Next,
    after: u32,
    array: u16,
    index: u16,
    word: u16,
) -> Result<Next, End>
    requires { IsStoreOf header.now store.old.store }
    ensures { Went result store.old store.new (store_byte here after array index word) }
{
    let at = array.wrapping_add(index) as usize;
    write_byte(header, store, at, (word % 256) as u8)?;
    Ok(Next {
        program_counter: after,
        fuel: here.fuel,
    })
}
