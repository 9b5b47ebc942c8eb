//! `Main` with locals.

ghost use Rattle.std.specs.Prelude.{◌≡◌, IfOk};
ghost use Rattle.derive_tokens.specs.Pieces.{derived, derived_all};
ghost use Rattle.derive_values.specs.declared.places.Scope.TheVariants as Scope;
ghost use Rattle.derive_statements.specs.Main as spec;

use crate::lists::made;
use derive_tokens::{Piece, is_called, is_name, put_piece, put_pieces};
use derive_values::{Scope, scope_after};
use std::alloc::{AllocError, Global};
use syntax_lexer::Kind;

// The name in the header of `Main`.
#[inline(always)]
fn is_main(scope: Scope, piece: Piece<'_>) -> bool
    ensures { result ≡ spec.is_main scope (derived piece.entry) }
{
    match scope {
        Scope::Named => is_called(piece, b"main"),
        _ => false,
    }
}

// Whether a token is a local of `Main`.
#[inline(always)]
fn is_own_local(scope: Scope, in_main: bool, piece: Piece<'_>) -> bool
    ensures { result ≡ spec.is_own_local scope in_main (derived piece.entry) }
{
    in_main && (matches!(scope, Scope::Locals) && is_name(piece))
}

/// Whether `Main` has locals.
pub fn has_locals(pieces: &[Piece<'_>]) -> bool
    ensures { result ≡ spec.has_locals (derived_all pieces.now) }
{
    let mut scope = Scope::Between;
    let mut in_main = false;
    for piece in pieces {
        if is_own_local(scope, in_main, *piece) {
            return true;
        }
        in_main = match scope {
            Scope::Named => is_called(*piece, b"main"),
            _ => in_main,
        };
        scope = scope_after(scope, *piece);
    }
    false
}

#[inline(always)]
#[tactic(auto, using(derive_tokens::proofs::Positions::position_derived))]
fn renamed<'a>(scope: Scope, piece: Piece<'a>) -> Piece<'a>
    ensures { derived result ≡ spec.renamed scope (derived piece.entry) }
{
    if is_main(scope, piece) {
        made(Kind::Name(b"x__Main"), piece.position)
    } else {
        piece
    }
}

// A file whose `Main` has another name.
fn all_renamed<'a>(alloc: Global, pieces: &[Piece<'a>]) -> Result<Vec<Piece<'a>>, AllocError>
    ensures { IfOk result (λ out. derived_all out.items
        ≡ spec.renamed_from Scope.Between (derived_all pieces.now)) }
{
    let mut out = Vec::new(alloc);
    out.reserve(pieces.len())?;
    let mut scope = Scope::Between;
    for piece in pieces {
        put_piece(&mut out, renamed(scope, *piece))?;
        scope = scope_after(scope, *piece);
    }
    Ok(out)
}

/// The tokens of a file whose `Main`, if it has locals, is a routine of its own.
///
/// # Errors
///
/// `AllocError` where memory is refused.
pub fn main_apart<'a>(alloc: Global, pieces: &[Piece<'a>]) -> Result<Vec<Piece<'a>>, AllocError>
    ensures { IfOk result (λ out. derived_all out.items ≡ spec.main_apart (derived_all pieces.now)) }
{
    if has_locals(pieces) {
        return all_renamed(alloc, pieces);
    }
    let mut out = Vec::new(alloc);
    out.reserve(pieces.len())?;
    put_pieces(&mut out, pieces)?;
    Ok(out)
}
