//! What passes ask of a token.

ghost use Rattle.std.specs.Prelude.{◌≡◌};
ghost use Rattle.syntax_lexer.specs.declared.token.Position.{Position};
ghost use Rattle.syntax_lexer.specs.Token.{lexeme_of};
ghost use Rattle.derive_tokens.specs.Tokens as spec;
ghost use Rattle.derive_tokens.specs.Pieces.{derived};

use crate::piece::{Piece, PieceKind};
use syntax_lexer::{Kind, Sign, Word};

/// Whether a token is this sign.
#[inline(always)]
pub fn is_sign(piece: Piece<'_>, sign: Sign) -> bool
    ensures { result ≡ spec.is_sign sign (derived piece.entry) }
{
    match piece.kind {
        PieceKind::Read(Kind::Sign(found)) => found == sign,
        _ => false,
    }
}

/// Whether a token is this reserved word.
#[inline(always)]
pub fn is_word(piece: Piece<'_>, word: Word) -> bool
    ensures { result ≡ spec.is_word word (derived piece.entry) }
{
    match piece.kind {
        PieceKind::Read(Kind::Reserved(found)) => found == word,
        _ => false,
    }
}

/// Whether two names are the same, in small letters or in capitals.
pub fn is_same_name(a: &[u8], b: &[u8]) -> bool
    ensures { result ≡ spec.is_same_name a.now b.now }
{
    a.eq_ignore_ascii_case(b)
}

/// Whether a token of the source is this name, in small letters or in capitals. A name with a
/// number is none that is asked for.
#[inline]
pub fn is_named(kind: Kind<'_>, name: &[u8]) -> bool
    ensures { (p : Position) → result ≡ spec.is_named name.now (lexeme_of kind.entry p) }
{
    match kind {
        Kind::Name(found) => found.eq_ignore_ascii_case(name),
        _ => false,
    }
}
