//! The head of an object.

ghost use Rattle.std.specs.Prelude.{◌≡◌, ◌++◌, OnOk};
ghost use Rattle.syntax_lexer.specs.declared.token.Position.{Position};
ghost use Rattle.derive_tokens.specs.Pieces.{derived, derived_all};
ghost use Rattle.derive_classes.specs.Heads as spec;

use crate::parts::is_between;
use derive_tokens::{Piece, after, is_name, is_sign, put_numbered, put_piece, put_pieces};
use std::alloc::AllocError;
use syntax_lexer::{Position, Sign};

/// How the name of an object that has none begins.
const PREFIX: &[u8] = b"x__o";

fn is_own_name(piece: Piece<'_>) -> bool
    ensures { result ≡ spec.is_own_name (derived piece.entry) }
{
    is_name(piece) && !is_between(piece)
}

/// Whether an object, whose tokens behind the first these are, has a name.
pub fn has_own_name(pieces: &[Piece<'_>]) -> bool
    ensures { result ≡ spec.has_own_name (derived_all pieces.now) }
{
    for piece in pieces {
        if !is_sign(*piece, Sign::Arrow) {
            return is_own_name(*piece);
        }
    }
    false
}

// Puts tokens with a made name before them, if they begin with none.
fn put_behind_name<'a>(
    out: &mut Vec<Piece<'a>>,
    position: Position,
    piece: Piece<'a>,
    rest: &[Piece<'a>],
) -> Result<(), AllocError>
    ensures { OnOk result (derived_all out.new.items ≡ derived_all out.old.items
        ++ spec.named_here position (derived piece.entry) (derived_all rest.now)) }
{
    if !is_own_name(piece) {
        put_numbered(out, PREFIX, position.offset, position)?;
    }
    put_piece(out, piece)?;
    put_pieces(out, rest)
}

/// Puts the tokens behind the first of an object that begins at a place, with a name.
///
/// # Errors
///
/// `AllocError` where memory is refused, as for the functions after it.
pub fn put_with_own_name<'a>(
    out: &mut Vec<Piece<'a>>,
    position: Position,
    pieces: &[Piece<'a>],
) -> Result<(), AllocError>
    ensures { OnOk result (derived_all out.new.items ≡ derived_all out.old.items
        ++ spec.with_own_name position (derived_all pieces.now)) }
{
    for (at, piece) in pieces.iter().enumerate() {
        if !is_sign(*piece, Sign::Arrow) {
            return put_behind_name(out, position, *piece, after(pieces, at + 1));
        }
        put_piece(out, *piece)?;
    }
    put_numbered(out, PREFIX, position.offset, position)
}

/// Puts the head of an object.
pub fn put_head<'a>(out: &mut Vec<Piece<'a>>, pieces: &[Piece<'a>]) -> Result<(), AllocError>
    ensures { OnOk result (derived_all out.new.items
        ≡ derived_all out.old.items ++ spec.head_of (derived_all pieces.now)) }
{
    for piece in pieces {
        if is_between(*piece) {
            return Ok(());
        }
        put_piece(out, *piece)?;
    }
    Ok(())
}

/// What is behind the head of an object.
pub fn body_of<'t, 'a>(pieces: &'t [Piece<'a>]) -> &'t [Piece<'a>]
    ensures { derived_all result.now ≡ spec.body_of (derived_all pieces.now) }
{
    for (at, piece) in pieces.iter().enumerate() {
        if is_between(*piece) {
            return after(pieces, at);
        }
    }
    after(pieces, pieces.len())
}
