//! The form of a word, written to memory (Z-Machine Standards Document 1.1, section 15,
//! `encode_text`).

ghost use Rattle.std.specs.Prelude.{◌≡◌, ◌+◌, true, slice_range};
ghost use Rattle.zcore_standard.specs.Words as definitions;
ghost use Rattle.zcore_standard.specs.Texts.{alphabets_of};
ghost use Rattle.machine_frames.specs.States.{IsSound, IsStoreOf};
ghost use Rattle.machine_frames.specs.Went.{Went};

use crate::form::form_of;
use crate::writable::are_writable;
use journal::Recorded;
use machine_frames::{End, Store};
use machine_lines::fill;
use zcore::layout::{KEY_LENGTH, READABLE};
use zcore::{Fault, Header, Next, Place};
use zcore_standard::Loaded;

/// Writes the form that a word has in a dictionary: `encode_text`. The word begins at the sum of
/// two words modulo 65,536, and has `count` characters; capitals stay capitals.
///
/// # Errors
///
/// M3 where the word does not end in readable memory; then M4 where the six bytes of its form are
/// not in dynamic memory after the header. `End::Memory` where memory was refused: the turn is given
/// up.
pub fn encode_text(
    header: &Header,
    loaded: &Loaded,
    store: &mut Recorded<Store>,
    here: Next,
    after: u32,
    text: u16,
    count: u16,
    from: u16,
    coded: u16,
) -> Result<Next, End>
    requires { IsStoreOf header.now store.old.store }
    ensures { Went result store.old store.new
        (definitions.encode_text (alphabets_of loaded.now) here after text count from coded) }
{
    let form = form_at(loaded, store, text.wrapping_add(from), count)?;
    write_form(header, store, coded, &form)?;
    Ok(Next {
        program_counter: after,
        fuel: here.fuel,
    })
}

/// The form of a word in memory.
fn form_at(loaded: &Loaded, store: &Recorded<Store>, at: u16, count: u16) -> Result<[u8; 6], End>
    requires { IsSound store.now.store }
    ensures { Went result store.now store.now
        (definitions.form_at (alphabets_of loaded.now) at count) }
{
    let memory = store.store().memory();
    if !are_readable(memory, at, count) {
        return Err(End::Stop(Place::Fault(Fault::Read)));
    }
    Ok(form_of(loaded.alphabets(), bytes_at(memory, at, count)))
}

/// Whether so many bytes from an address on can be read.
fn are_readable(memory: &[u8], at: u16, count: u16) -> bool
    ensures { result ≡ definitions.are_readable memory.now at count }
{
    count == 0 || at as usize + count as usize <= memory.len().min(READABLE)
}

/// So many bytes from an address on.
fn bytes_at(memory: &[u8], at: u16, count: u16) -> &[u8]
    requires { definitions.are_readable memory.now at count ≡ true }
    ensures { result.now ≡ slice_range memory.now at (at + count) }
{
    let start = at as usize;
    if count == 0 {
        return &[];
    }
    &memory[start..start + count as usize]
}

/// Writes the form of a word to dynamic memory.
fn write_form(
    header: &Header,
    store: &mut Recorded<Store>,
    coded: u16,
    form: &[u8; 6],
) -> Result<(), End>
    requires { IsStoreOf header.now store.old.store }
    ensures { Went result store.old store.new (definitions.write_bytes coded form.now) }
{
    let at = coded as usize;
    if !are_writable(header.static_base, at, KEY_LENGTH) {
        return Err(End::Stop(Place::Fault(Fault::Write)));
    }
    fill(store, at, form)?;
    Ok(())
}
