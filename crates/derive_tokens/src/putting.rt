//! How tokens are put after those that are derived already.

ghost use Rattle.std.specs.Prelude.{◌≡◌, ◌-◌, ◌∷◌, ◌++◌, [], length, take, drop, OnOk};
ghost use Rattle.syntax_lexer.specs.Token.{lexeme_of, name};
ghost use Rattle.derive_tokens.specs.Pieces.{derived, derived_all};
ghost use Rattle.derive_tokens.specs.Tokens.{numbered};

use crate::piece::{Piece, PieceKind};
use std::alloc::AllocError;
use syntax_lexer::{Kind, Position};

/// How many tokens are copied at once: a longer copy costs more for each.
const MOST_AT_ONCE: usize = 32;

/// The first tokens, so many of them.
#[inline(always)]
pub fn front<'t, 'a>(pieces: &'t [Piece<'a>], count: usize) -> &'t [Piece<'a>]
    ensures { result.now ≡ take count pieces.now }
{
    pieces.split_at(count.min(pieces.len())).0
}

/// The tokens from a place on, none if there are no more.
#[inline(always)]
pub fn after<'t, 'a>(pieces: &'t [Piece<'a>], at: usize) -> &'t [Piece<'a>]
    ensures value { result.now ≡ drop at pieces.now }
    ensures shorter { length result.now ≡ length pieces.now - at }
{
    pieces.split_at(at.min(pieces.len())).1
}

/// Puts a token.
///
/// # Errors
///
/// `AllocError` where memory is refused, as for the functions after it.
#[inline]
pub fn put_piece<'a>(out: &mut Vec<Piece<'a>>, piece: Piece<'a>) -> Result<(), AllocError>
    ensures { OnOk result (derived_all out.new.items
        ≡ derived_all out.old.items ++ derived piece.entry ∷ []) }
{
    out.push(piece)?;
    Ok(())
}

/// Puts tokens as they are.
pub fn put_all<'a>(out: &mut Vec<Piece<'a>>, pieces: &[Piece<'a>]) -> Result<(), AllocError>
    ensures { OnOk result (out.new.items ≡ out.old.items ++ pieces.now) }
{
    let mut rest = pieces;
    while rest.len() > MOST_AT_ONCE {
        out.extend_from_slice(rest.split_at(MOST_AT_ONCE).0)?;
        rest = after(rest, MOST_AT_ONCE);
    }
    out.extend_from_slice(rest)?;
    Ok(())
}

/// Puts tokens.
#[inline]
pub fn put_pieces<'a>(out: &mut Vec<Piece<'a>>, pieces: &[Piece<'a>]) -> Result<(), AllocError>
    ensures { OnOk result (derived_all out.new.items
        ≡ derived_all out.old.items ++ derived_all pieces.now) }
{
    put_all(out, pieces)
}

/// Puts the first tokens, so many of them.
#[inline(always)]
#[tactic(auto, using(crate::proofs::Rows::derived_take))]
pub fn put_first<'a>(
    out: &mut Vec<Piece<'a>>,
    pieces: &[Piece<'a>],
    count: usize,
) -> Result<(), AllocError>
    ensures { OnOk result (derived_all out.new.items
        ≡ derived_all out.old.items ++ take count (derived_all pieces.now)) }
{
    put_pieces(out, front(pieces, count))
}

/// Puts a token that is made, at a position.
#[inline]
pub fn put_kind<'a>(
    out: &mut Vec<Piece<'a>>,
    kind: Kind<'a>,
    position: Position,
) -> Result<(), AllocError>
    ensures { OnOk result (derived_all out.new.items
        ≡ derived_all out.old.items ++ lexeme_of kind.entry position ∷ []) }
{
    put_piece(
        out,
        Piece {
            kind: PieceKind::Read(kind),
            position,
        },
    )
}

/// Puts a name that is made: a prefix and a number.
pub fn put_numbered<'a>(
    out: &mut Vec<Piece<'a>>,
    prefix: &'a [u8],
    number: usize,
    position: Position,
) -> Result<(), AllocError>
    ensures { OnOk result (derived_all out.new.items
        ≡ derived_all out.old.items ++ name (numbered prefix.now number) position ∷ []) }
{
    put_piece(
        out,
        Piece {
            kind: PieceKind::Numbered(prefix, number),
            position,
        },
    )
}
