//! The properties whose addresses are values.

ghost use Rattle.std.specs.Prelude.{◌≡◌, ◌∷◌, [], codes, IfOk, OnOk};
ghost use Rattle.syntax_lexer.specs.Token.{head, tail};
ghost use Rattle.derive_tokens.specs.Pieces.{derived, derived_all};
ghost use Rattle.derive_tokens.specs.Held.{names_of};
ghost use Rattle.derive_tokens.specs.Names as names_spec;
ghost use Rattle.derive_entries.specs.Arrays.{is_arrow};
ghost use Rattle.derive_addresses.specs.Addresses as spec;

use derive_entries::is_arrow;
use derive_tokens::{Names, Piece, after, is_name, is_sign, is_word, note_name, small_name};
use std::alloc::{AllocError, Global};
use syntax_lexer::{Sign, Word};

// Whether the first token is a name.
fn is_name_next(pieces: &[Piece<'_>]) -> bool
    ensures { result ≡ names_spec.is_name (head (derived_all pieces.now)) }
{
    match pieces {
        [] => false,
        [first, ..] => is_name(*first),
    }
}

// Whether the second token is the sign of an entry.
fn is_arrow_second(pieces: &[Piece<'_>]) -> bool
    ensures { result ≡ is_arrow (head (tail (derived_all pieces.now))) }
{
    match pieces {
        [] => false,
        [_] => false,
        [_, second, ..] => is_arrow(*second),
    }
}

/// Whether a token is the sign of an address that is a value, before the rest of the file.
#[inline(always)]
pub fn takes_address(piece: Piece<'_>, rest: &[Piece<'_>]) -> bool
    ensures { result ≡ spec.takes_address (derived piece.entry) (derived_all rest.now) }
{
    is_sign(piece, Sign::DotAmpersand) && (is_name_next(rest) && !is_arrow_second(rest))
}

// The first token is put, if it is a name.
fn note_first(properties: &mut Names, alloc: Global, pieces: &[Piece<'_>]) -> Result<(), AllocError>
    ensures { OnOk result (names_of properties.new
        ≡ names_spec.with_name_of (names_of properties.old) (head (derived_all pieces.now))) }
{
    match pieces {
        [] => Ok(()),
        [first, ..] => note_name(properties, alloc, *first),
    }
}

// The property that is defined, if the token is the word of its directive.
fn note_defined(
    names: &mut Names,
    alloc: Global,
    piece: Piece<'_>,
    rest: &[Piece<'_>],
) -> Result<(), AllocError>
    ensures { OnOk result (names_of names.new ≡ spec.defined_after (names_of names.old)
        (derived piece.entry) (derived_all rest.now)) }
{
    if is_word(piece, Word::Property) {
        note_first(names, alloc, rest)
    } else {
        Ok(())
    }
}

// Only the property that always exists.
fn first_defined(alloc: Global) -> Result<Names, AllocError>
    ensures { IfOk result (λ names. names_of names ≡ codes "name" ∷ []) }
{
    let mut names = Names::new(alloc);
    names.add(Vec::from_slice(alloc, b"name")?)?;
    Ok(names)
}

// All properties of a file.
fn defined_of(alloc: Global, pieces: &[Piece<'_>]) -> Result<Names, AllocError>
    ensures { IfOk result (λ names. names_of names ≡ spec.defined_of (derived_all pieces.now)) }
{
    let mut names = first_defined(alloc)?;
    for (at, piece) in pieces.iter().enumerate() {
        note_defined(&mut names, alloc, *piece, after(pieces, at + 1))?;
    }
    Ok(names)
}

// A property more, if it is defined.
fn note_used(
    properties: &mut Names,
    alloc: Global,
    defined: &Names,
    piece: Piece<'_>,
) -> Result<(), AllocError>
    ensures { OnOk result (names_of properties.new ≡ spec.with_property (names_of defined.now)
        (names_of properties.old) (derived piece.entry)) }
{
    if is_name(piece) {
        let name = small_name(alloc, piece)?;
        if defined.has(&name) {
            properties.add(name)?;
            Ok(())
        } else {
            Ok(())
        }
    } else {
        Ok(())
    }
}

// The same of the first token.
fn note_first_used(
    properties: &mut Names,
    alloc: Global,
    defined: &Names,
    pieces: &[Piece<'_>],
) -> Result<(), AllocError>
    ensures { OnOk result (names_of properties.new ≡ spec.with_property (names_of defined.now)
        (names_of properties.old) (head (derived_all pieces.now))) }
{
    match pieces {
        [] => Ok(()),
        [first, ..] => note_used(properties, alloc, defined, *first),
    }
}

// The property of an address that is a value, if the token is its sign.
fn note_property(
    properties: &mut Names,
    alloc: Global,
    defined: &Names,
    piece: Piece<'_>,
    rest: &[Piece<'_>],
) -> Result<(), AllocError>
    ensures { OnOk result (names_of properties.new ≡ spec.properties_after (names_of defined.now)
        (names_of properties.old) (derived piece.entry) (derived_all rest.now)) }
{
    if takes_address(piece, rest) {
        note_first_used(properties, alloc, defined, rest)
    } else {
        Ok(())
    }
}

/// Whether an address is a value in a file.
pub fn takes_any(pieces: &[Piece<'_>]) -> bool
    ensures { result ≡ spec.takes_any (derived_all pieces.now) }
{
    for (at, piece) in pieces.iter().enumerate() {
        if takes_address(*piece, after(pieces, at + 1)) {
            return true;
        }
    }
    false
}

// The properties of a file in which an address is a value.
fn properties_met(alloc: Global, pieces: &[Piece<'_>]) -> Result<Names, AllocError>
    ensures { IfOk result (λ properties. names_of properties
        ≡ spec.properties_of (derived_all pieces.now)) }
{
    let defined = defined_of(alloc, pieces)?;
    let mut properties = Names::new(alloc);
    for (at, piece) in pieces.iter().enumerate() {
        note_property(
            &mut properties,
            alloc,
            &defined,
            *piece,
            after(pieces, at + 1),
        )?;
    }
    Ok(properties)
}

/// The properties of a file whose addresses are values.
///
/// # Errors
///
/// `AllocError` where memory is refused.
#[tactic(auto, using(crate::proofs::Without::none_used))]
pub fn properties_of(alloc: Global, pieces: &[Piece<'_>]) -> Result<Names, AllocError>
    ensures { IfOk result (λ properties. names_of properties
        ≡ spec.properties_of (derived_all pieces.now)) }
{
    if takes_any(pieces) {
        properties_met(alloc, pieces)
    } else {
        Ok(Names::new(alloc))
    }
}
