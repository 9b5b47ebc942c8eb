//! The routines of entries.

ghost use Rattle.std.specs.Prelude.{◌≡◌, ◌≤◌, ◌<◌, ◌+◌, ◌++◌, map, length, IfOk, OnOk};
ghost use Rattle.derive_tokens.specs.Held.{names_of};
ghost use Rattle.derive_routines.specs.Held.{arm_of, names_now, search_of};
ghost use Rattle.derive_entries.specs.Arrays.{first_place};
ghost use Rattle.derive_addresses.specs.Made as spec;
ghost use Rattle.derive_addresses.specs.Views.{access_of};

use derive_routines::{Arm, RoutineName, Search, put, put_search};
use derive_tokens::{Names, put_number};
use std::alloc::{AllocError, Global};

/// The number of the first array that is a value.
const FIRST_PLACE: usize = 40_960;

/// A way to use an entry.
#[derive(Clone, Copy)]
pub struct Access {
    /// The routine that finds the array, and its locals.
    pub routine: &'static [u8],
    pub locals: &'static [&'static [u8]],

    /// The routines for each array: how their names begin, what is before the name of the array, and
    /// what is behind it.
    pub prefix: &'static [u8],
    pub start: &'static [u8],
    pub rest: &'static [u8],
}

fn read_locals() -> &'static [&'static [u8]]
    ensures { names_now result.now ≡ spec.read_locals }
{
    &[b"x__v", b"x__i"]
}

fn set_locals() -> &'static [&'static [u8]]
    ensures { names_now result.now ≡ spec.set_locals }
{
    &[b"x__v", b"x__i", b"x__e"]
}

fn word_read() -> Access
    ensures { access_of result ≡ spec.word_read }
{
    Access {
        routine: b"x__word",
        locals: read_locals(),
        prefix: b"x__w",
        start: b" x__i;return ",
        rest: b"-->x__i;];",
    }
}

fn byte_read() -> Access
    ensures { access_of result ≡ spec.byte_read }
{
    Access {
        routine: b"x__byte",
        locals: read_locals(),
        prefix: b"x__b",
        start: b" x__i;return ",
        rest: b"->x__i;];",
    }
}

fn word_set() -> Access
    ensures { access_of result ≡ spec.word_set }
{
    Access {
        routine: b"x__set_word",
        locals: set_locals(),
        prefix: b"x__sw",
        start: b" x__i x__e;return ",
        rest: b"-->x__i=x__e;];",
    }
}

fn byte_set() -> Access
    ensures { access_of result ≡ spec.byte_set }
{
    Access {
        routine: b"x__set_byte",
        locals: set_locals(),
        prefix: b"x__sb",
        start: b" x__i x__e;return ",
        rest: b"->x__i=x__e;];",
    }
}

// The routine of an array.
fn put_entry(
    text: &mut Vec<u8>,
    access: Access,
    value: usize,
    array: &[u8],
) -> Result<(), AllocError>
    ensures { OnOk result (text.new.items
        ≡ text.old.items ++ spec.entry_routine (access_of access) value array.now) }
{
    put(text, b"[ ")?;
    put(text, access.prefix)?;
    put_number(text, value)?;
    put(text, access.start)?;
    put(text, array)?;
    put(text, access.rest)
}

// The routines of all arrays.
#[tactic(auto, using(crate::proofs::EntryRounds::entry_on, crate::proofs::EntryRounds::entry_end))]
fn put_entries(text: &mut Vec<u8>, access: Access, places: &Names) -> Result<(), AllocError>
    requires { length (names_of places.now) ≤ 8192 }
    ensures { OnOk result (text.new.items ≡ text.old.items
        ++ spec.entry_routines (access_of access) first_place (names_of places.now)) }
{
    for k in 0..places.count() {
        put_entry(text, access, FIRST_PLACE + k, places.at(k))?;
    }
    Ok(())
}

fn entry_arm<'a>(access: Access, value: usize) -> Arm<'a>
    ensures { arm_of result ≡ spec.entry_arm (access_of access) value }
{
    Arm {
        value,
        routine: RoutineName::Numbered(access.prefix, value),
        skipped: 1,
        count: access.locals.len(),
    }
}

// The arms of so many arrays.
#[tactic(auto, using(crate::proofs::EntryRounds::arm_end))]
fn entry_arms<'a>(alloc: Global, access: Access, places: &Names) -> Result<Vec<Arm<'a>>, AllocError>
    requires { length (names_of places.now) ≤ 8192 }
    ensures value { IfOk result (λ arms. map arm_of arms.items
        ≡ spec.entry_arms (access_of access) first_place (names_of places.now)) }
    ensures few { IfOk result (λ arms. length arms.items ≤ 8192) }
{
    let mut arms = Vec::new(alloc);
    for k in 0..places.count() {
        arms.push(entry_arm(access, FIRST_PLACE + k))?;
    }
    Ok(arms)
}

fn entry_search(access: Access) -> Search
    ensures { search_of result ≡ spec.entry_search (access_of access) }
{
    Search {
        routine: access.routine,
        locals: access.locals,
        first: b"",
        notice: b"^[Fault: not an array]^",
    }
}

// The routines of a way to use entries.
fn put_access(text: &mut Vec<u8>, access: Access, places: &Names) -> Result<(), AllocError>
    requires { length (names_of places.now) ≤ 8192 }
    ensures { OnOk result (text.new.items
        ≡ text.old.items ++ spec.access_text (access_of access) (names_of places.now)) }
{
    let alloc = *text.allocator();
    let arms = entry_arms(alloc, access, places)?;
    put_entries(text, access, places)?;
    put_search(text, entry_search(access), FIRST_PLACE, arms)
}

// They are put where the file uses it.
fn put_given_access(
    text: &mut Vec<u8>,
    names: &Names,
    places: &Names,
    access: Access,
) -> Result<(), AllocError>
    requires { length (names_of places.now) ≤ 8192 }
    ensures { OnOk result (text.new.items ≡ text.old.items
        ++ spec.access_given (names_of names.now) (names_of places.now) (access_of access)) }
{
    if names.has(access.routine) {
        put_access(text, access, places)
    } else {
        Ok(())
    }
}

/// Puts the routines of entries, in a file with these names, arrays as values, and places with words.
///
/// # Errors
///
/// `AllocError` where memory is refused.
pub fn put_entries_made(
    text: &mut Vec<u8>,
    names: &Names,
    arrays: &Names,
    places: &Names,
) -> Result<(), AllocError>
    requires arrays { length (names_of arrays.now) ≤ 8192 }
    requires places { length (names_of places.now) ≤ 8192 }
    ensures { OnOk result (text.new.items ≡ text.old.items
        ++ spec.entries_made (names_of names.now) (names_of arrays.now) (names_of places.now)) }
{
    put_given_access(text, names, places, word_read())?;
    put_given_access(text, names, arrays, byte_read())?;
    put_given_access(text, names, places, word_set())?;
    put_given_access(text, names, arrays, byte_set())?;
    Ok(())
}
