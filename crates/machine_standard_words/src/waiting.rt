//! Waiting for a line or a key (Z-Machine Standards Document 1.1, section 15, `aread` and
//! `read_char`).

ghost use Rattle.std.specs.Prelude.{◌≡◌, ◌≤◌, length};
ghost use Rattle.zcore.specs.Header.{static_base_of};
ghost use Rattle.zcore_standard.specs.Reading as definitions;
ghost use Rattle.machine_frames.specs.States.{IsSound, IsStoreOf};
ghost use Rattle.machine_frames.specs.Went.{Went};

use crate::parsing::has_slots;
use crate::writable::are_writable;
use journal::Recorded;
use machine_frames::{End, Store, test_result};
use machine_lines::wait;
use zcore::{Fault, Header, Next, Place};

/// Waits for a line: `aread`, where no stream is open. Parse buffer 0 is none. It never answers
/// `Ok`.
///
/// # Errors
///
/// M12 where a buffer is not in dynamic memory after the header, or the text buffer has no room for
/// a letter, or less room than the letters that are left over in it; then M6 and M4 of the result;
/// else `Place::Waiting`. `End::Memory` where memory was refused: the turn is given up.
pub fn wait_for_line(
    header: &Header,
    store: &mut Recorded<Store>,
    after: u32,
    result_variable: Option<u8>,
    text: u16,
    parse: u16,
) -> Result<Next, End>
    requires { IsStoreOf header.now store.old.store }
    ensures { Went result store.old store.new
        (definitions.wait_for_line after result_variable text parse) }
{
    test_room(header, store, text)?;
    test_slots_or_none(header, store, parse)?;
    test_result(store, result_variable)?;
    wait(store, text, parse, result_variable, after)
}

/// Waits for a key: `read_char`, where no stream is open. It never answers `Ok`.
///
/// # Errors
///
/// M6 and M4 of the result, else `Place::Waiting`. `End::Memory` where memory was refused: the turn
/// is given up.
pub fn wait_for_key(
    store: &mut Recorded<Store>,
    after: u32,
    result_variable: Option<u8>,
) -> Result<Next, End>
    requires { IsSound store.old.store }
    ensures { Went result store.old store.new (definitions.wait_for_key after result_variable) }
{
    test_result(store, result_variable)?;
    wait(store, 0, 0, result_variable, after)
}

/// Tests whether a text buffer can take a line, and changes nothing.
fn test_room(header: &Header, store: &Recorded<Store>, text: u16) -> Result<(), End>
    requires { IsStoreOf header.now store.now.store }
    ensures { Went result store.now store.now (definitions.test_room text) }
{
    if has_room(store.store().memory(), header.static_base, text) {
        Ok(())
    } else {
        Err(End::Stop(Place::Fault(Fault::Buffer)))
    }
}

/// Whether a text buffer can take a line, in a story with this static base.
fn has_room(memory: &[u8], static_base: u16, text: u16) -> bool
    requires base { static_base ≡ static_base_of memory.now }
    requires within { static_base ≤ length memory.now }
    ensures { result ≡ definitions.has_room memory.now text }
{
    let at = text as usize;
    if at + 1 >= static_base as usize {
        return false;
    }
    let room = memory[at];
    are_writable(static_base, at, 2 + room as usize) && 1 <= room && memory[at + 1] <= room
}

/// Tests whether words can be written to a parse buffer, or whether there is none, and changes
/// nothing.
fn test_slots_or_none(header: &Header, store: &Recorded<Store>, parse: u16) -> Result<(), End>
    requires { IsStoreOf header.now store.now.store }
    ensures { Went result store.now store.now (definitions.test_slots_or_none parse) }
{
    if has_slots_or_none(store.store().memory(), header.static_base, parse) {
        Ok(())
    } else {
        Err(End::Stop(Place::Fault(Fault::Buffer)))
    }
}

/// Whether words can be written to a parse buffer, or there is none, in a story with this static
/// base.
fn has_slots_or_none(memory: &[u8], static_base: u16, parse: u16) -> bool
    requires base { static_base ≡ static_base_of memory.now }
    requires within { static_base ≤ length memory.now }
    ensures { result ≡ definitions.has_slots_or_none memory.now parse }
{
    parse == 0 || has_slots(memory, static_base, parse)
}
