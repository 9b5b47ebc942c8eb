//! The words of properties in objects.

ghost use Rattle.std.specs.Prelude.{◌≡◌, ◌≤◌, [], length, max, IfOk, OnOk};
ghost use Rattle.std.specs.List.{fold};
ghost use Rattle.derive_tokens.specs.Pieces.{derived, derived_all};
ghost use Rattle.derive_tokens.specs.Held.{names_of};
ghost use Rattle.derive_values.specs.Values.{with_room};
ghost use Rattle.derive_entries.specs.Arrays.{most_places};
ghost use Rattle.derive_addresses.specs.Addresses as spec;

use derive_entries::add_in_room;
use derive_tokens::{Names, Piece, is_name, name_of, small_name};
use derive_values::{Scope, scope_after};
use std::alloc::{AllocError, Global};

// The name of an object, which is the first in its directive.
fn name_met(alloc: Global, object: Vec<u8>, piece: Piece<'_>) -> Result<Vec<u8>, AllocError>
    ensures { IfOk result (λ next. next.items ≡ spec.name_met object.items (derived piece.entry)) }
{
    if object.as_slice().is_empty() {
        name_of(alloc, piece)
    } else {
        Ok(object)
    }
}

/// The name of the object that is read, after a token.
///
/// # Errors
///
/// `AllocError` where memory is refused.
pub fn object_after(
    alloc: Global,
    scope: Scope,
    object: Vec<u8>,
    piece: Piece<'_>,
) -> Result<Vec<u8>, AllocError>
    ensures { IfOk result (λ next. next.items
        ≡ spec.object_after scope object.items (derived piece.entry)) }
{
    match scope {
        Scope::Between => Ok(Vec::new(alloc)),
        Scope::Head => name_met(alloc, object, piece),
        _ => Ok(object),
    }
}

fn begins_property(scope: Scope) -> bool
    ensures { result ≡ spec.begins_property scope }
{
    match scope {
        Scope::Property => true,
        _ => false,
    }
}

/// Whether a token is the name of such a property, before its words in an object.
///
/// # Errors
///
/// `AllocError` where memory is refused.
pub fn has_address(
    alloc: Global,
    properties: &Names,
    scope: Scope,
    piece: Piece<'_>,
) -> Result<bool, AllocError>
    ensures { IfOk result (λ found. found
        ≡ spec.has_address (names_of properties.now) scope (derived piece.entry)) }
{
    if begins_property(scope) && is_name(piece) {
        let property = small_name(alloc, piece)?;
        Ok(properties.has(&property))
    } else {
        Ok(false)
    }
}

/// The words of a property of an object, but for their sign and index.
///
/// # Errors
///
/// `AllocError` where memory is refused.
pub fn words_text(alloc: Global, object: &[u8], piece: Piece<'_>) -> Result<Vec<u8>, AllocError>
    ensures { IfOk result (λ text. text.items ≡ spec.words_text object.now (derived piece.entry)) }
{
    let property = name_of(alloc, piece)?;
    let mut text = Vec::from_slice(alloc, object)?;
    text.extend_from_slice(b".&")?;
    text.extend_from_slice(&property)?;
    Ok(text)
}

// The words of a property of an object, if their name is read.
fn note_place(
    places: &mut Names,
    alloc: Global,
    properties: &Names,
    scope: Scope,
    object: &[u8],
    piece: Piece<'_>,
) -> Result<(), AllocError>
    ensures value { OnOk result (names_of places.new ≡ spec.places_after (names_of properties.now)
        scope object.now (derived piece.entry) (names_of places.old)) }
    ensures few { OnOk result (length (names_of places.new)
        ≤ max 8192 (length (names_of places.old))) }
{
    if has_address(alloc, properties, scope, piece)? {
        let text = words_text(alloc, object, piece)?;
        add_in_room(places, text)
    } else {
        Ok(())
    }
}

// Arrays that are values, as far as there is room.
#[tactic(auto, using(crate::proofs::Rounds::again_on, crate::proofs::Rounds::again_end))]
fn arrays_first(alloc: Global, arrays: &Names) -> Result<Names, AllocError>
    ensures value { IfOk result (λ places. names_of places
        ≡ fold (with_room most_places) [] (names_of arrays.now)) }
    ensures few { IfOk result (λ places. length (names_of places) ≤ 8192) }
{
    let mut places = Names::new(alloc);
    for k in 0..arrays.count() {
        let array = Vec::from_slice(alloc, arrays.at(k))?;
        add_in_room(&mut places, array)?;
    }
    Ok(places)
}

// The arrays that are values, and then the words of the properties of a file in its objects.
fn with_words(
    alloc: Global,
    arrays: &Names,
    properties: &Names,
    pieces: &[Piece<'_>],
) -> Result<Names, AllocError>
    requires { names_of properties.now ≡ spec.properties_of (derived_all pieces.now) }
    ensures value { IfOk result (λ places. names_of places
        ≡ spec.with_addresses (names_of arrays.now) (derived_all pieces.now)) }
    ensures few { IfOk result (λ places. length (names_of places) ≤ 8192) }
{
    let mut places = arrays_first(alloc, arrays)?;
    let mut scope = Scope::Between;
    let mut object = Vec::new(alloc);
    for piece in pieces {
        note_place(&mut places, alloc, properties, scope, &object, *piece)?;
        object = object_after(alloc, scope, object, *piece)?;
        scope = scope_after(scope, *piece);
    }
    Ok(places)
}

/// The arrays that are values, and then the words of these properties in the objects of a file.
///
/// # Errors
///
/// `AllocError` where memory is refused.
#[tactic(auto, using(crate::proofs::Without::only_arrays))]
pub fn with_addresses(
    alloc: Global,
    arrays: &Names,
    properties: &Names,
    pieces: &[Piece<'_>],
) -> Result<Names, AllocError>
    requires { names_of properties.now ≡ spec.properties_of (derived_all pieces.now) }
    ensures value { IfOk result (λ places. names_of places
        ≡ spec.with_addresses (names_of arrays.now) (derived_all pieces.now)) }
    ensures few { IfOk result (λ places. length (names_of places) ≤ 8192) }
{
    if properties.count() == 0 {
        arrays_first(alloc, arrays)
    } else {
        with_words(alloc, arrays, properties, pieces)
    }
}
