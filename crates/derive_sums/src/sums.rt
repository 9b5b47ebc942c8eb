//! The signs and words between sums.

ghost use Rattle.std.specs.Prelude.{◌≡◌};
ghost use Rattle.derive_tokens.specs.Pieces.{derived};
ghost use Rattle.derive_sums.specs.Sums as spec;

use derive_tokens::{Piece, PieceKind, is_sign, is_word};
use derive_values::is_operand_word;
use syntax_lexer::{Kind, Sign, Word};

/// Whether the names of attributes or properties come after a token.
#[inline(always)]
pub fn takes_names(piece: Piece<'_>) -> bool
    ensures { result ≡ spec.takes_names (derived piece.entry) }
{
    is_word(piece, Word::Has) || (is_word(piece, Word::Hasnt) || is_word(piece, Word::Provides))
}

/// Whether a sum comes after a token, and `or` may after that.
#[inline(always)]
pub fn takes_sums(piece: Piece<'_>) -> bool
    ensures { result ≡ spec.takes_sums (derived piece.entry) }
{
    is_word(piece, Word::In)
        || (is_word(piece, Word::Notin)
            || (is_sign(piece, Sign::Less) || is_sign(piece, Sign::Greater)))
}

/// Whether a token is `or`.
#[inline(always)]
pub fn is_or(piece: Piece<'_>) -> bool
    ensures { result ≡ spec.is_or (derived piece.entry) }
{
    is_word(piece, Word::Or)
}

// Whether no sum contains a sign.
#[inline(always)]
fn is_sum_end(sign: Sign) -> bool
    ensures { result ≡ spec.is_sum_end sign }
{
    matches!(
        sign,
        Sign::Less
            | Sign::Greater
            | Sign::Assign
            | Sign::AndAlso
            | Sign::OrElse
            | Sign::Not
            | Sign::Equal
            | Sign::NotEqual
            | Sign::LessOrEqual
            | Sign::GreaterOrEqual
            | Sign::Semicolon
            | Sign::Comma
            | Sign::CloseParenthesis
            | Sign::Colon
            | Sign::OpenBrace
            | Sign::CloseBrace
            | Sign::CloseBracket
    )
}

/// Whether no sum contains a token, and it is no `or`.
#[inline(always)]
pub fn ends_sum(piece: Piece<'_>) -> bool
    ensures { result ≡ spec.ends_sum (derived piece.entry) }
{
    match piece.kind {
        PieceKind::Read(Kind::End) => true,
        PieceKind::Read(Kind::Reserved(_)) => !(is_operand_word(piece) || is_or(piece)),
        PieceKind::Read(Kind::Sign(sign)) => is_sum_end(sign),
        _ => false,
    }
}

/// Whether a sum may begin after a token.
#[inline(always)]
pub fn precedes_sum(piece: Piece<'_>) -> bool
    ensures { result ≡ spec.precedes_sum (derived piece.entry) }
{
    is_or(piece)
        || (is_sign(piece, Sign::OpenParenthesis)
            || (ends_sum(piece) && !is_sign(piece, Sign::CloseParenthesis)))
}

/// Whether alternatives may come after a token.
#[inline(always)]
pub fn is_operator(piece: Piece<'_>) -> bool
    ensures { result ≡ spec.is_operator (derived piece.entry) }
{
    takes_names(piece) || takes_sums(piece)
}
