//! Which token comes next, and what it is.

ghost use Rattle.std.specs.Prelude.{◌≡◌, ◌+◌, IfOk, IfErr, length};
ghost use Rattle.syntax_lexer.specs.Token.{lexeme, lexemes, position_of};
ghost use Rattle.syntax_trees.specs.Errors as errors;
ghost use Rattle.syntax_trees.specs.Parse as spec;

use crate::error::{Fault, ParseError, Parsed};
use syntax_lexer::{Kind, Position, Sign, Token, Word};

/// The token that comes next. Without one it is an end of the source, at line 0.
pub fn peek<'a>(tokens: &[Token<'a>]) -> Token<'a>
    ensures { lexeme result ≡ spec.head (lexemes tokens.now) }
{
    match tokens {
        [] => Token {
            kind: Kind::End,
            text: b"",
            position: Position { offset: 0, line: 0 },
        },
        [first, ..] => *first,
    }
}

/// The tokens after the next one.
pub fn skip<'t, 'a>(tokens: &'t [Token<'a>]) -> &'t [Token<'a>]
    ensures { lexemes result.now ≡ spec.tail (lexemes tokens.now) }
{
    match tokens {
        [] => tokens,
        [_, rest @ ..] => rest,
    }
}

/// Where the next token stands.
pub fn position(tokens: &[Token<'_>]) -> Position
    ensures { result ≡ position_of (spec.head (lexemes tokens.now)) }
{
    peek(tokens).position
}

/// Where the token stands from which on so many are left.
pub fn place_of(tokens: &[Token<'_>], left: usize) -> Position
    ensures { result ≡ errors.place_of (lexemes tokens.now) left }
{
    position(tokens.split_at(tokens.len().saturating_sub(left)).1)
}

/// Whether the token is that sign.
pub fn is_sign(token: Token<'_>, sign: Sign) -> bool
    ensures { result ≡ spec.is_sign sign (lexeme token.entry) }
{
    match token.kind {
        Kind::Sign(found) => found as u8 == sign as u8,
        _ => false,
    }
}

/// Whether the token is that reserved word.
pub fn is_word(token: Token<'_>, word: Word) -> bool
    ensures { result ≡ spec.is_word word (lexeme token.entry) }
{
    match token.kind {
        Kind::Reserved(found) => found as u8 == word as u8,
        _ => false,
    }
}

/// A fault at the next token. It holds how many tokens are left, and no place: the tokens of a
/// source tell that of each.
pub fn fault_at(fault: Fault, tokens: &[Token<'_>]) -> ParseError
    ensures { result ≡ ParseError.Fault fault (length (lexemes tokens.now)) }
{
    ParseError::Fault(fault, tokens.len())
}

/// How many nestings more may be opened inside the next token, which opens one of `depth`.
///
/// # Errors
///
/// `Fault::Deep` at that token: no nesting is left.
pub fn open<'a>(depth: usize, tokens: &[Token<'a>]) -> Parsed<usize>
    ensures opened { IfOk result (λ inside. depth ≡ inside + 1) }
    ensures refused { IfErr result (λ e. (depth ≡ 0)
        × (e ≡ ParseError.Fault Fault.Deep (length (lexemes tokens.now)))) }
{
    if depth == 0 {
        return Err(fault_at(Fault::Deep, tokens));
    }
    Ok(depth - 1)
}
