//! Waiting for a line in versions 1 to 4 (Z-Machine Standards Document 1.1, section 15, `sread`).

ghost use Rattle.std.specs.Prelude.{◌≡◌, ◌≤◌, length};
ghost use Rattle.zcore.specs.Header.{static_base_of};
ghost use Rattle.zcore_standard.specs.Words.{test_slots};
ghost use Rattle.zcore_versions.specs.Reading as definitions;
ghost use Rattle.machine_frames.specs.States.{IsStoreOf};
ghost use Rattle.machine_frames.specs.Went.{Went};

use journal::Recorded;
use machine_frames::{End, Store};
use machine_lines::wait;
use machine_standard_words::{are_writable, has_slots};
use zcore::{Fault, Header, Next, Place};

/// Waits for a line: `sread`, where no stream is open. It never answers `Ok`.
///
/// # Errors
///
/// M12 where a buffer is not in dynamic memory after the header, or the text buffer has no room for a
/// letter; else `Place::Waiting`. `End::Memory` where memory was refused: the turn is given up.
pub fn wait_for_line(
    header: &Header,
    store: &mut Recorded<Store>,
    after: u32,
    text: u16,
    parse: u16,
) -> Result<Next, End>
    requires { IsStoreOf header.now store.old.store }
    ensures { Went result store.old store.new (definitions.wait_for_line after text parse) }
{
    test_room(header, store, text)?;
    test_slots(header, store, parse)?;
    wait(store, text, parse, None, after)
}

/// Tests whether a text buffer can take a line, and changes nothing. M12.
fn test_room(header: &Header, store: &Recorded<Store>, text: u16) -> Result<(), End>
    requires { IsStoreOf header.now store.now.store }
    ensures { Went result store.now store.now (definitions.test_room text) }
{
    if has_room(store.store().memory(), header.static_base, text) {
        Ok(())
    } else {
        Err(End::Stop(Place::Fault(Fault::Buffer)))
    }
}

/// Whether a text buffer can take a line, in a story with this static base.
fn has_room(memory: &[u8], static_base: u16, text: u16) -> bool
    requires base { static_base ≡ static_base_of memory.now }
    requires within { static_base ≤ length memory.now }
    ensures { result ≡ definitions.has_room memory.now text }
{
    let at = text as usize;
    if at >= static_base as usize {
        return false;
    }
    let room = memory[at];
    are_writable(static_base, at, 1 + room as usize) && 2 <= room
}

/// Tests whether words can be written to a parse buffer, and changes nothing. M12.
fn test_slots(header: &Header, store: &Recorded<Store>, parse: u16) -> Result<(), End>
    requires { IsStoreOf header.now store.now.store }
    ensures { Went result store.now store.now (test_slots parse) }
{
    if has_slots(store.store().memory(), header.static_base, parse) {
        Ok(())
    } else {
        Err(End::Stop(Place::Fault(Fault::Buffer)))
    }
}
