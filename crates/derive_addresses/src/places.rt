//! What operands stand for.

ghost use Rattle.std.specs.Prelude.{◌≡◌, ◌≤◌, ◌++◌, length, false, IfOk, OnOk};
ghost use Rattle.derive_tokens.specs.Pieces.{derived_all};
ghost use Rattle.derive_tokens.specs.Held.{names_of};
ghost use Rattle.derive_addresses.specs.Addresses as spec;
ghost use Rattle.derive_addresses.specs.Views.{placed_of};

use crate::addresses::{addressed, put_addresses_made};
use crate::made::put_entries_made;
use crate::objects::with_addresses;
use crate::properties::{properties_of, takes_any};
use derive_entries::{arrays_of, entered, places_of};
use derive_tokens::{Names, Piece};
use std::alloc::{AllocError, Global};

/// Arrays, those that are values, properties whose addresses are, and all places: the arrays and then
/// the words of these properties.
#[derive(Drop)]
pub struct Placed {
    pub arrays: Names,
    pub values: Names,
    pub properties: Names,
    pub places: Names,
}

/// The places of a file.
///
/// # Errors
///
/// `AllocError` where memory is refused.
pub fn placed_in(alloc: Global, pieces: &[Piece<'_>]) -> Result<Placed, AllocError>
    ensures value { IfOk result (λ placed. placed_of placed
        ≡ spec.placed_in (derived_all pieces.now)) }
    ensures values { IfOk result (λ placed. length (names_of placed.values) ≤ 8192) }
    ensures places { IfOk result (λ placed. length (names_of placed.places) ≤ 8192) }
{
    let arrays = arrays_of(alloc, pieces)?;
    let values = places_of(alloc, &arrays, pieces)?;
    let properties = properties_of(alloc, pieces)?;
    let places = with_addresses(alloc, &values, &properties, pieces)?;
    Ok(Placed {
        arrays,
        values,
        properties,
        places,
    })
}

// Its tokens, where an address is a value.
fn addresses_settled<'a>(
    alloc: Global,
    placed: &Placed,
    pieces: &[Piece<'a>],
) -> Result<Vec<Piece<'a>>, AllocError>
    requires { placed_of placed.now ≡ spec.placed_in (derived_all pieces.now) }
    ensures { IfOk result (λ out. derived_all out.items ≡ spec.settled (derived_all pieces.now)) }
{
    let row = addressed(alloc, &placed.properties, &placed.places, pieces)?;
    let out = entered(alloc, &placed.arrays, &placed.values, &row)?;
    Ok(out)
}

// The same, where none is.
fn entries_settled<'a>(
    alloc: Global,
    placed: &Placed,
    pieces: &[Piece<'a>],
) -> Result<Vec<Piece<'a>>, AllocError>
    requires placed { placed_of placed.now ≡ spec.placed_in (derived_all pieces.now) }
    requires none { spec.takes_any (derived_all pieces.now) ≡ false }
    ensures { IfOk result (λ out. derived_all out.items ≡ spec.settled (derived_all pieces.now)) }
{
    let out = entered(alloc, &placed.arrays, &placed.values, pieces)?;
    Ok(out)
}

/// The tokens of a file that has these places, with numbers for arrays and for words of properties
/// that are values, and calls for entries.
///
/// # Errors
///
/// `AllocError` where memory is refused.
pub fn settled<'a>(
    alloc: Global,
    placed: &Placed,
    pieces: &[Piece<'a>],
) -> Result<Vec<Piece<'a>>, AllocError>
    requires { placed_of placed.now ≡ spec.placed_in (derived_all pieces.now) }
    ensures { IfOk result (λ out. derived_all out.items ≡ spec.settled (derived_all pieces.now)) }
{
    if takes_any(pieces) {
        addresses_settled(alloc, placed, pieces)
    } else {
        entries_settled(alloc, placed, pieces)
    }
}

/// Puts what is made for places, in a file with these names.
///
/// # Errors
///
/// `AllocError` where memory is refused.
pub fn put_places_made(text: &mut Vec<u8>, names: &Names, placed: &Placed) -> Result<(), AllocError>
    requires values { length (names_of placed.now.values) ≤ 8192 }
    requires places { length (names_of placed.now.places) ≤ 8192 }
    ensures { OnOk result (text.new.items ≡ text.old.items
        ++ spec.places_made (names_of names.now) (placed_of placed.now)) }
{
    put_entries_made(text, names, &placed.values, &placed.places)?;
    put_addresses_made(text, &placed.properties)
}
