//! The pass: faults, declarations, classes and tests.

ghost use Rattle.std.specs.Prelude.{◌≡◌, ◌<◌, ◌+◌, ◌∷◌, ◌++◌, length, take, drop, IfOk, OnOk};
ghost use Rattle.syntax_lexer.specs.Token.{head, tail};
ghost use Rattle.derive_tokens.specs.Pieces.{derived, derived_all, Gives};
ghost use Rattle.derive_tokens.specs.Held.{names_of};
ghost use Rattle.derive_constants.specs.Cutting.{directives};
ghost use Rattle.derive_classes.specs.Classed as spec;
ghost use Rattle.derive_classes.specs.Directives.{mentions};

use crate::classes::with_classes;
use crate::cutting::{behind, first, first_directive, has_name_of};
use crate::directives::{is_class, put_mentions};
use crate::properties::declared;
use derive_tokens::{Names, Piece, PieceKind, after, is_called, is_name, note_name, refused};
use std::alloc::{AllocError, Global};
use syntax_lexer::{Kind, PlacedFault, TOO_MANY, UNKNOWN_NAME, Word};

/// The greatest number of classes: each takes one of as many attributes.
const MOST_CLASSES: usize = 48;

// The fault (E20) of the first class of these that is not known.
#[tactic(auto, using(derive_tokens::proofs::Positions::position_derived))]
fn unknown_in(
    alloc: Global,
    names: &Names,
    pieces: &[Piece<'_>],
) -> Result<Option<PlacedFault>, AllocError>
    ensures { IfOk result (λ fault. fault
        ≡ spec.unknown_in (names_of names.now) (derived_all pieces.now)) }
{
    for piece in pieces {
        if !has_name_of(alloc, names, *piece)? {
            return Ok(Some(refused(UNKNOWN_NAME, piece.position)));
        }
    }
    Ok(None)
}

// The fault of the classes that a directive names.
fn unknown_at(
    alloc: Global,
    names: &Names,
    directive: &[Piece<'_>],
) -> Result<Option<PlacedFault>, AllocError>
    ensures { IfOk result (λ fault. fault
        ≡ spec.unknown_in (names_of names.now) (mentions (derived_all directive.now))) }
{
    let mut named = Vec::new(alloc);
    put_mentions(&mut named, directive)?;
    unknown_in(alloc, names, &named)
}

// The class of a directive is known after it.
fn note_class(names: &mut Names, alloc: Global, directive: &[Piece<'_>]) -> Result<(), AllocError>
    ensures { OnOk result (names_of names.new
        ≡ spec.names_after (names_of names.old) (derived_all directive.now)) }
{
    if is_class(directive) {
        note_name(names, alloc, first(behind(directive)))?;
    }
    Ok(())
}

// The fault (E24) of a class after which these are known, if they are too many.
#[tactic(auto, using(derive_tokens::proofs::Positions::position_derived))]
fn surplus(names: &Names, directive: &[Piece<'_>]) -> Option<PlacedFault>
    ensures { result ≡ spec.surplus (names_of names.now) (derived_all directive.now) }
{
    if names.count() > MOST_CLASSES {
        Some(refused(TOO_MANY, first(behind(directive)).position))
    } else {
        None
    }
}

// The fault of a directive, and the names of the classes that are known after it.
fn fault_at(
    names: &mut Names,
    alloc: Global,
    directive: &[Piece<'_>],
) -> Result<Option<PlacedFault>, AllocError>
    ensures finds { IfOk result (λ fault. fault
        ≡ spec.fault_at (names_of names.old) (derived_all directive.now)) }
    ensures notes { OnOk result (names_of names.new
        ≡ spec.names_after (names_of names.old) (derived_all directive.now)) }
{
    let unknown = unknown_at(alloc, names, directive)?;
    note_class(names, alloc, directive)?;
    match unknown {
        Some(fault) => Ok(Some(fault)),
        None => Ok(surplus(names, directive)),
    }
}

// The first fault: of a class that is not known, or of one that is one too many.
fn class_fault(alloc: Global, pieces: &[Piece<'_>]) -> Result<Option<PlacedFault>, AllocError>
    ensures { IfOk result (λ fault. fault ≡ spec.class_fault (derived_all pieces.now)) }
{
    let mut names = Names::new(alloc);
    let mut rest = pieces;
    while !rest.is_empty() {
        let directive = first_directive(rest);
        if let Some(fault) = fault_at(&mut names, alloc, directive)? {
            return Ok(Some(fault));
        }
        rest = after(rest, directive.len());
    }
    Ok(None)
}

// What a token is before others: `has` for `ofclass` and a name.
#[tactic(auto, using(derive_tokens::proofs::Positions::position_derived))]
fn test_of<'a>(piece: Piece<'a>, rest: &[Piece<'a>]) -> Piece<'a>
    ensures { derived result ≡ spec.test_of (derived piece.entry) (derived_all rest.now) }
{
    if is_called(piece, b"ofclass") && is_name(first(rest)) {
        Piece {
            kind: PieceKind::Read(Kind::Reserved(Word::Has)),
            position: piece.position,
        }
    } else {
        piece
    }
}

// A test for a class at a place becomes a test by `has`.
#[inline(always)]
#[tactic(auto, using(crate::proofs::Tests::test_step, crate::proofs::Tests::test_kept))]
fn put_test(pieces: &mut [Piece<'_>], at: usize)
    requires { at < length pieces.old }
    ensures same { length pieces.new ≡ length pieces.old }
    ensures test { derived_all (take (at + 1) pieces.new)
        ++ spec.tested (derived_all (drop (at + 1) pieces.new))
        ≡ derived_all (take at pieces.old) ++ spec.tested (derived_all (drop at pieces.old)) }
{
    if is_called(pieces[at], b"ofclass") {
        let test = test_of(pieces[at], after(pieces, at + 1));
        pieces[at] = test;
    }
}

// Tests for classes become tests by `has`.
fn put_tests(pieces: &mut [Piece<'_>])
    ensures { derived_all pieces.new ≡ spec.tested (derived_all pieces.old) }
{
    for at in 0..pieces.len() {
        put_test(pieces, at);
    }
}

// The tokens of a file whose classes are all known.
fn known_classes<'a>(alloc: Global, pieces: &[Piece<'a>]) -> Result<Vec<Piece<'a>>, AllocError>
    ensures { IfOk result (λ out. derived_all out.items
        ≡ spec.known_classes (derived_all pieces.now)) }
{
    let whole = declared(alloc, pieces)?;
    let mut merged = with_classes(alloc, &whole)?;
    drop(whole);
    put_tests(&mut merged);
    Ok(merged)
}

/// The tokens of a file without classes: each is an attribute of its name, and each object has what
/// its classes give.
///
/// # Errors
///
/// E20 at a class that no directive before defines, E24 at the 49th, and E99.
pub fn classed<'a>(alloc: Global, pieces: &[Piece<'a>]) -> Result<Vec<Piece<'a>>, PlacedFault>
    ensures { Gives result (spec.classed (derived_all pieces.now)) }
{
    match class_fault(alloc, pieces)? {
        Some(fault) => Err(fault),
        None => Ok(known_classes(alloc, pieces)?),
    }
}
