//! What is asked of a computed condition.

ghost use Rattle.std.specs.Prelude.{◌≡◌, ◌<◌, ◌+◌, length, take, drop, IfOk};
ghost use Rattle.syntax_lexer.specs.Token.{lexeme, lexemes};
ghost use Rattle.derive_constants.specs.Held.{known_of};
ghost use Rattle.derive_constants.specs.Values.{value_in};
ghost use Rattle.derive_branches.specs.Conditions as spec;

use derive_constants::{Known, value_in};
use std::alloc::{AllocError, Global};
use syntax_lexer::{Kind, Sign, Token};

// Whether two numbers compare so; none where the sign compares none.
fn comparison(sign: Sign, a: u16, b: u16) -> Option<bool>
    ensures { result ≡ spec.comparison sign a b }
{
    match sign {
        Sign::Equal => Some(a == b),
        Sign::NotEqual => Some(a != b),
        Sign::Less => Some(a < b),
        Sign::LessOrEqual => Some(a <= b),
        Sign::Greater => Some(a > b),
        Sign::GreaterOrEqual => Some(a >= b),
        _ => None,
    }
}

// Whether a token is a sign that compares.
fn compares(token: Token<'_>) -> bool
    ensures { result ≡ spec.compares (lexeme token.entry) }
{
    match token.kind {
        Kind::Sign(
            Sign::Equal
            | Sign::NotEqual
            | Sign::Less
            | Sign::LessOrEqual
            | Sign::Greater
            | Sign::GreaterOrEqual,
        ) => true,
        _ => false,
    }
}

// The tokens before a place, all if there are fewer.
fn before<'t, 'a>(tokens: &'t [Token<'a>], at: usize) -> &'t [Token<'a>]
    ensures { result.now ≡ take at tokens.now }
{
    tokens.split_at(at.min(tokens.len())).0
}

// The tokens from a place on, none if there are no more.
fn after<'t, 'a>(tokens: &'t [Token<'a>], at: usize) -> &'t [Token<'a>]
    ensures { result.now ≡ drop at tokens.now }
{
    tokens.split_at(at.min(tokens.len())).1
}

// A constant holds unless it is 0.
fn is_not_zero(value: Option<u16>) -> Option<bool>
    ensures { result ≡ spec.is_not_zero value }
{
    match value {
        None => None,
        Some(value) => Some(value != 0),
    }
}

// Two numbers, with this token between.
fn compared(token: Token<'_>, a: Option<u16>, b: Option<u16>) -> Option<bool>
    ensures { result ≡ spec.compared (lexeme token.entry) a b }
{
    match (token.kind, a, b) {
        (Kind::Sign(sign), Some(a), Some(b)) => comparison(sign, a, b),
        _ => None,
    }
}

// The numbers before and after a place compare so, with this token between.
fn compared_at(
    alloc: Global,
    known: &Known,
    tokens: &[Token<'_>],
    at: usize,
    token: Token<'_>,
) -> Result<Option<bool>, AllocError>
    requires { at < length tokens.now }
    ensures { IfOk result (λ holds. holds ≡ spec.compared (lexeme token.entry)
        (value_in (known_of known.now) (lexemes (take at tokens.now)))
        (value_in (known_of known.now) (lexemes (drop (at + 1) tokens.now)))) }
{
    let a = value_in(alloc, known, before(tokens, at))?;
    let b = value_in(alloc, known, after(tokens, at + 1))?;
    Ok(compared(token, a, b))
}

// Whether these tokens are a number that is not 0.
fn is_number(alloc: Global, known: &Known, tokens: &[Token<'_>]) -> Result<Option<bool>, AllocError>
    ensures { IfOk result (λ holds. holds
        ≡ spec.is_not_zero (value_in (known_of known.now) (lexemes tokens.now))) }
{
    let value = value_in(alloc, known, tokens)?;
    Ok(is_not_zero(value))
}

/// Whether the condition holds that these tokens are; none where they are none.
///
/// # Errors
///
/// `AllocError` where memory is refused.
pub fn condition(
    alloc: Global,
    known: &Known,
    tokens: &[Token<'_>],
) -> Result<Option<bool>, AllocError>
    ensures { IfOk result (λ holds. holds
        ≡ spec.condition (known_of known.now) (lexemes tokens.now)) }
{
    for (at, token) in tokens.iter().enumerate() {
        if compares(*token) {
            return compared_at(alloc, known, tokens, at, *token);
        }
    }
    is_number(alloc, known, tokens)
}
