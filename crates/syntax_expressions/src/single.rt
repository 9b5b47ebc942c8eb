//! Parts of expressions that are one token. Most operands are, and the token after them tells that no
//! level of the grammar has more to read.

ghost use Rattle.std.specs.Prelude.{◌≡◌};
ghost use Rattle.syntax_lexer.specs.Token.{lexeme, lexemes};
ghost use Rattle.syntax_expressions.specs.Single as spec;

use crate::operators::Operators;
use syntax_lexer::{Kind, Sign, Token};
use syntax_trees::{peek, skip};

/// The width of an operand of the narrowest chain.
pub const OPERAND: u8 = 1;

/// The width of a chain of that level: a product, a sum or a condition.
pub fn width(operators: Operators) -> u8
    ensures { result ≡ spec.width operators }
{
    match operators {
        Operators::Scaling => 2,
        Operators::Adding => 3,
        Operators::Logical => 4,
    }
}

// The width of the widest part of an expression that ends before the sign; 0 if none does.
fn ended_by(sign: Sign) -> u8
    ensures { result ≡ spec.ended_by sign }
{
    match sign {
        Sign::Semicolon | Sign::CloseParenthesis | Sign::Comma | Sign::Colon | Sign::Assign => 4,
        Sign::Less | Sign::Greater | Sign::LessOrEqual | Sign::GreaterOrEqual => 3,
        Sign::Equal | Sign::NotEqual | Sign::AndAlso | Sign::OrElse => 3,
        Sign::Plus | Sign::Minus => 2,
        Sign::Star | Sign::Slash | Sign::Percent | Sign::Ampersand | Sign::Bar => OPERAND,
        _ => 0,
    }
}

// Whether a part of that width ends before the token.
fn ends(width: u8, token: Token<'_>) -> bool
    ensures { result ≡ spec.ends width (lexeme token.entry) }
{
    match token.kind {
        Kind::Sign(sign) => width <= ended_by(sign),
        _ => false,
    }
}

// Whether the token is a name or a number.
fn is_plain(token: Token<'_>) -> bool
    ensures { result ≡ spec.is_plain (lexeme token.entry) }
{
    matches!(token.kind, Kind::Name(_) | Kind::Number(_))
}

/// Whether a part of that width is a name or a number alone.
pub fn is_single(width: u8, tokens: &[Token<'_>]) -> bool
    ensures { result ≡ spec.is_single width (lexemes tokens.now) }
{
    is_plain(peek(tokens)) && ends(width, peek(skip(tokens)))
}
