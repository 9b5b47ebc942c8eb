//! How tokens are put after those that are derived already.

ghost use Rattle.std.specs.Prelude.{◌≡◌, ◌∷◌, ◌++◌, [], OnOk};
ghost use Rattle.syntax_lexer.specs.Token.{lexeme, lexemes};
ghost use Rattle.derive_tokens.specs.Pieces.{derived_all};
ghost use Rattle.derive_constants.specs.Entries as spec;
ghost use Rattle.derive_constants.specs.Held.{known_of};

use crate::constant::Known;
use crate::reading::value_in;
use derive_tokens::{Piece, PieceKind, put_kind, put_piece};
use std::alloc::AllocError;
use syntax_lexer::{Kind, Token};

/// Puts a token as it is.
pub fn put_token<'a>(out: &mut Vec<Piece<'a>>, token: Token<'a>) -> Result<(), AllocError>
    ensures { OnOk result (derived_all out.new.items
        ≡ derived_all out.old.items ++ lexeme token.entry ∷ []) }
{
    put_piece(
        out,
        Piece {
            kind: PieceKind::Read(token.kind),
            position: token.position,
        },
    )
}

/// Puts tokens as they are.
pub fn put_tokens<'a>(out: &mut Vec<Piece<'a>>, tokens: &[Token<'a>]) -> Result<(), AllocError>
    ensures { OnOk result (derived_all out.new.items
        ≡ derived_all out.old.items ++ lexemes tokens.now) }
{
    for token in tokens {
        put_token(out, *token)?;
    }
    Ok(())
}

/// Puts the number that tokens are, where the first of them stands; or the tokens, where they are
/// none.
pub fn put_folded<'a>(
    out: &mut Vec<Piece<'a>>,
    known: &Known,
    tokens: &[Token<'a>],
) -> Result<(), AllocError>
    ensures { OnOk result (derived_all out.new.items
        ≡ derived_all out.old.items ++ spec.folded (known_of known.now) (lexemes tokens.now)) }
{
    let alloc = *out.allocator();
    match (value_in(alloc, known, tokens)?, tokens.first()) {
        (Some(number), Some(token)) => put_kind(out, Kind::Number(number), token.position),
        _ => put_tokens(out, tokens),
    }
}
