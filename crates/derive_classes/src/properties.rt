//! Properties that no directive defines.

ghost use Rattle.std.specs.Prelude.{◌≡◌, ◌∷◌, ◌++◌, IfOk, OnOk};
ghost use Rattle.std.specs.List.{fold};
ghost use Rattle.derive_tokens.specs.Pieces.{derived, derived_all};
ghost use Rattle.derive_tokens.specs.Held.{names_of};
ghost use Rattle.derive_tokens.specs.Names.{with_name_of};
ghost use Rattle.derive_constants.specs.Cutting.{directives};
ghost use Rattle.derive_classes.specs.Properties as spec;

use crate::cutting::{behind, first, first_directive, has_name_of};
use crate::directives::{is_additive, put_provided};
use derive_tokens::{Names, Piece, after, note_name, put_kind, put_piece, put_pieces};
use std::alloc::{AllocError, Global};
use syntax_lexer::{Kind, Sign, Word};

// The name that a directive defines, behind its first word.
fn defined_in<'a>(directive: &[Piece<'a>]) -> Piece<'a>
    ensures { derived result ≡ spec.defined_in (derived_all directive.now) }
{
    if is_additive(directive) {
        first(behind(behind(directive)))
    } else {
        first(behind(directive))
    }
}

// The names that are defined.
fn defined(alloc: Global, pieces: &[Piece<'_>]) -> Result<Names, AllocError>
    ensures { IfOk result (λ names. names_of names
        ≡ spec.defined (directives (derived_all pieces.now))) }
{
    let mut names = Names::new(alloc);
    names.add(Vec::from_slice(alloc, b"name")?)?;
    let mut rest = pieces;
    while !rest.is_empty() {
        let directive = first_directive(rest);
        note_name(&mut names, alloc, defined_in(directive))?;
        rest = after(rest, directive.len());
    }
    Ok(names)
}

// Declares a property, if it is not defined.
#[tactic(auto, using(derive_tokens::proofs::Positions::position_derived))]
fn put_missing<'a>(
    out: &mut Vec<Piece<'a>>,
    names: &Names,
    piece: Piece<'a>,
) -> Result<(), AllocError>
    ensures { OnOk result (derived_all out.new.items ≡ derived_all out.old.items
        ++ spec.missing (names_of names.now) (derived piece.entry)) }
{
    let alloc = *out.allocator();
    if has_name_of(alloc, names, piece)? {
        return Ok(());
    }
    put_kind(out, Kind::Reserved(Word::Property), piece.position)?;
    put_piece(out, piece)?;
    put_kind(out, Kind::Sign(Sign::Semicolon), piece.position)
}

// Declares those of these properties that are not defined, which then are.
fn put_declarations<'a>(
    out: &mut Vec<Piece<'a>>,
    names: &mut Names,
    pieces: &[Piece<'a>],
) -> Result<(), AllocError>
    ensures writes { OnOk result (derived_all out.new.items ≡ derived_all out.old.items
        ++ spec.declarations (names_of names.old) (derived_all pieces.now)) }
    ensures notes { OnOk result (names_of names.new
        ≡ fold with_name_of (names_of names.old) (derived_all pieces.now)) }
{
    let alloc = *out.allocator();
    for piece in pieces {
        put_missing(out, names, *piece)?;
        note_name(names, alloc, *piece)?;
    }
    Ok(())
}

// A directive, and what declares its properties.
fn put_declared<'a>(
    out: &mut Vec<Piece<'a>>,
    names: &mut Names,
    directive: &[Piece<'a>],
) -> Result<(), AllocError>
    ensures writes { OnOk result (derived_all out.new.items ≡ derived_all out.old.items
        ++ spec.with_declarations (names_of names.old) (derived_all directive.now)) }
    ensures notes { OnOk result (names_of names.new
        ≡ spec.names_after (names_of names.old) (derived_all directive.now)) }
{
    let mut provided = Vec::new(*out.allocator());
    put_provided(&mut provided, directive)?;
    put_pieces(out, directive)?;
    put_declarations(out, names, &provided)
}

/// The tokens of a file that declares each of its properties.
///
/// # Errors
///
/// `AllocError` where memory is refused.
pub fn declared<'a>(alloc: Global, pieces: &[Piece<'a>]) -> Result<Vec<Piece<'a>>, AllocError>
    ensures { IfOk result (λ out. derived_all out.items
        ≡ spec.declared (derived_all pieces.now)) }
{
    let mut names = defined(alloc, pieces)?;
    let mut out = Vec::new(alloc);
    out.reserve(pieces.len().saturating_add(pieces.len() / 8 + 16))?;
    let mut rest = pieces;
    while !rest.is_empty() {
        let directive = first_directive(rest);
        put_declared(&mut out, &mut names, directive)?;
        rest = after(rest, directive.len());
    }
    Ok(out)
}
