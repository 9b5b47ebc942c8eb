//! The search of a table (Z-Machine Standards Document 1.1, section 15).

ghost use Rattle.std.specs.Prelude.{◌≡◌, ◌<◌, ◌≤◌, OnOk};
ghost use Rattle.zcore.specs.Layout.{longest_story};
ghost use Rattle.zcore_standard.specs.Tables.{field_length, find_field, give_found, has_words, read_field, scan_table};
ghost use Rattle.machine_frames.specs.States.{IsSound, IsStoreOf};
ghost use Rattle.machine_frames.specs.Went.{Went};

use journal::Recorded;
use machine_frames::{End, Store, read_byte, read_word, store_result, test_result};
use machine_opcodes::{branch_on, test_branch};
use machine_standard_texts::spend_for;
use zcore::layout::READABLE;
use zcore::{Branch, Fault, Header, Next, Place};

/// How many values the seven low bits of a form have, which say how long a field is.
const FIELD_LENGTHS: u16 = 128;

/// Stores the address of the first field of a table that begins with a word, and branches:
/// `scan_table`. Where no field does, it stores 0 and does not branch. Bit 7 of `form` says whether
/// the first word of a field is compared, or its first byte; the seven low bits say how many bytes
/// a field has. It takes fuel for the bytes of all fields.
///
/// # Errors
///
/// The limit of fuel, before the search. M3 where a field that is read is not in readable memory. Then M6 and M4 of the result, and the
/// faults of the branch. `End::Memory` where memory was refused: the turn is given up.
pub fn scan_table(
    header: &Header,
    store: &mut Recorded<Store>,
    here: Next,
    after: u32,
    result_variable: Option<u8>,
    branch: Option<Branch>,
    word: u16,
    table: u16,
    count: u16,
    form: u16,
) -> Result<Next, End>
    requires store { IsStoreOf header.now store.old.store }
    requires after { after ≤ longest_story }
    ensures { Went result store.old store.new
        (scan_table here after result_variable branch word table count form) }
{
    let fuel = spend_for(count as usize * field_length(form), here.fuel)?;
    let found = find_field(store, form, word, table, count)?;
    let program_counter = here.program_counter;
    let here = Next {
        program_counter,
        fuel,
    };
    give_found(header, store, here, after, result_variable, branch, found)
}

/// How many bytes a field has.
#[inline]
fn field_length(form: u16) -> usize
    ensures same { result ≡ field_length form }
    ensures short { result < 128 }
{
    (form % FIELD_LENGTHS) as usize
}

/// The address of the first of `count` fields that begins with a word. M3.
fn find_field(
    store: &Recorded<Store>,
    form: u16,
    word: u16,
    table: u16,
    count: u16,
) -> Result<Option<u16>, End>
    requires { IsSound store.now.store }
    ensures { Went result store.now store.now (find_field form word table count) }
{
    let length = field_length(form);
    let mut at = table as usize;
    for step in 0..count {
        let value = read_field(store, form, at)?;
        if value == word {
            return Ok(Some(at as u16));
        }
        // Fields of no bytes take no fuel; each is the first one.
        if length == 0 {
            return Ok(None);
        }
        at += length;
    }
    Ok(None)
}

/// The first word or byte of a field, as the form says. M3.
#[inline]
fn read_field(store: &Recorded<Store>, form: u16, at: usize) -> Result<u16, End>
    requires { IsSound store.now.store }
    ensures went { Went result store.now store.now (read_field form at) }
    ensures within { OnOk result (at < 65536) }
{
    if READABLE <= at {
        return Err(End::Stop(Place::Fault(Fault::Read)));
    }
    if has_words(form) {
        return read_word(store, at);
    }
    let byte = read_byte(store, at)?;
    Ok(byte as u16)
}

/// Whether the first word of a field is compared.
#[inline]
fn has_words(form: u16) -> bool
    ensures { result ≡ has_words form }
{
    form / FIELD_LENGTHS % 2 == 1
}

/// Stores the address of a field, and branches; where no field was found it stores 0. Both are
/// tested first: M6 and M4 of the result, M2 of the target, or M11, M6, M4, M2 of a return.
fn give_found(
    header: &Header,
    store: &mut Recorded<Store>,
    here: Next,
    after: u32,
    result_variable: Option<u8>,
    branch: Option<Branch>,
    found: Option<u16>,
) -> Result<Next, End>
    requires store { IsStoreOf header.now store.old.store }
    requires after { after ≤ longest_story }
    ensures { Went result store.old store.new
        (give_found here after result_variable branch found) }
{
    let is_found = found.is_some();
    test_result(store, result_variable)?;
    test_branch(store, after, branch, is_found)?;
    store_result(header, store, result_variable, found.unwrap_or(0))?;
    branch_on(header, store, here, after, branch, is_found)
}
