//! What is asked of a token of the source.

ghost use Rattle.std.specs.Prelude.{◌≡◌, option_copied};
ghost use Rattle.syntax_lexer.specs.Token.{lexeme, lexemes};
ghost use Rattle.derive_tokens.specs.Tokens as spec;
ghost use Rattle.derive_constants.specs.Constants.{before_last};

use derive_tokens::{Piece, PieceKind};
use syntax_lexer::{Kind, Sign, Token, Word};

// A token of the source, as a piece.
#[inline(always)]
fn piece<'a>(token: Token<'a>) -> Piece<'a>
    ensures kind { result.kind ≡ PieceKind.Read token.entry.kind }
    ensures position { result.position ≡ token.entry.position }
{
    Piece {
        kind: PieceKind::Read(token.kind),
        position: token.position,
    }
}

/// Whether a token is this sign.
#[inline(always)]
pub fn is_sign(token: Token<'_>, sign: Sign) -> bool
    ensures { result ≡ spec.is_sign sign (lexeme token.entry) }
{
    derive_tokens::is_sign(piece(token), sign)
}

/// Whether a token is this reserved word.
#[inline(always)]
pub fn is_word(token: Token<'_>, word: Word) -> bool
    ensures { result ≡ spec.is_word word (lexeme token.entry) }
{
    derive_tokens::is_word(piece(token), word)
}

/// Whether a token is this name, in small letters or in capitals.
#[inline(always)]
pub fn is_named(token: Token<'_>, name: &[u8]) -> bool
    ensures { result ≡ spec.is_named name.now (lexeme token.entry) }
{
    derive_tokens::is_named(token.kind, name)
}

/// The name that a token is, if it is one.
#[inline(always)]
pub fn name_in<'a>(token: Token<'a>) -> Option<&'a [u8]>
    ensures { option_copied result ≡ spec.name_in (lexeme token.entry) }
{
    match token.kind {
        Kind::Name(name) => Some(name),
        _ => None,
    }
}

/// Tokens without their last.
#[tactic(auto, using(derive_constants::proofs::Cuts::front_lexemes))]
pub fn before_last<'t, 'a>(tokens: &'t [Token<'a>]) -> &'t [Token<'a>]
    ensures { lexemes result.now ≡ before_last (lexemes tokens.now) }
{
    tokens.split_at(tokens.len().saturating_sub(1)).0
}
