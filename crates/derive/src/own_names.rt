//! The names of a file that only passes make.

ghost use Rattle.std.specs.Prelude.{◌≡◌, take, IfOk, OnOk};
ghost use Rattle.derive_tokens.specs.Pieces.{derived, derived_all};
ghost use Rattle.derive_tokens.specs.Tokens.{is_same_name, numbered, own_prefix};
ghost use Rattle.derive_tokens.specs.Names.{small, with_name};
ghost use Rattle.derive_tokens.specs.Held.{names_of};
ghost use Rattle.derive.specs.Passes as spec;

use derive_tokens::{Names, Piece, PieceKind, name_of, note_name, put_number};
use std::alloc::{AllocError, Global};
use syntax_lexer::{Kind, front};

/// How names begin that only passes make.
const OWN_PREFIX: &[u8] = b"x__";

#[inline(always)]
fn begins_own(name: &[u8]) -> bool
    ensures { result ≡ is_same_name (take 3 name.now) own_prefix }
{
    front(name, OWN_PREFIX.len()).eq_ignore_ascii_case(OWN_PREFIX)
}

// Puts the name that a token is, if it begins as names that passes make.
#[inline(never)]
fn note_unknown(names: &mut Names, alloc: Global, piece: Piece<'_>) -> Result<(), AllocError>
    ensures { OnOk result (names_of names.new
        ≡ spec.with_own (names_of names.old) (derived piece.entry)) }
{
    let name = name_of(alloc, piece)?;
    if begins_own(&name) {
        note_name(names, alloc, piece)
    } else {
        Ok(())
    }
}

// Puts the name of a prefix and a number.
#[inline(never)]
#[tactic(auto, using(crate::proofs::Decimals::small_numbered))]
fn note_numbered(
    names: &mut Names,
    alloc: Global,
    prefix: &[u8],
    number: usize,
) -> Result<(), AllocError>
    ensures { OnOk result (names_of names.new
        ≡ with_name (names_of names.old) (small (numbered prefix.now number))) }
{
    let mut name = prefix.to_ascii_lowercase(alloc)?;
    put_number(&mut name, number)?;
    names.add(name)
}

// Puts the name that a token is, if it is a name that only passes make.
#[inline(always)]
fn note_own(names: &mut Names, alloc: Global, piece: Piece<'_>) -> Result<(), AllocError>
    ensures { OnOk result (names_of names.new
        ≡ spec.with_own (names_of names.old) (derived piece.entry)) }
{
    match piece.kind {
        PieceKind::Read(Kind::Name(name)) if begins_own(name) => note_name(names, alloc, piece),
        PieceKind::Read(_) | PieceKind::Quoted(_) => Ok(()),
        PieceKind::Numbered(prefix, _) if prefix.len() < OWN_PREFIX.len() => {
            note_unknown(names, alloc, piece)
        }
        PieceKind::Numbered(prefix, number) if begins_own(prefix) => {
            note_numbered(names, alloc, prefix, number)
        }
        PieceKind::Numbered(..) => Ok(()),
    }
}

/// The names of a file that only passes make, in small letters.
///
/// # Errors
///
/// `AllocError` where memory is refused.
pub fn own_names(alloc: Global, pieces: &[Piece<'_>]) -> Result<Names, AllocError>
    ensures { IfOk result (λ names. names_of names ≡ spec.own_names (derived_all pieces.now)) }
{
    let mut names = Names::new(alloc);
    for piece in pieces {
        note_own(&mut names, alloc, *piece)?;
    }
    Ok(names)
}
