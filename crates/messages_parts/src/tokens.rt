//! The tokens around a place, each by its number.

use crate::kinds;
use crate::kinds::{Kinds, is_of};
use syntax_lexer::{Kind, Sign, Token, Word};

/// What the token of a number is; the end of the source where there is none.
pub fn kind_at<'a>(tokens: &[Token<'a>], at: usize) -> Kind<'a> {
    match tokens.get(at) {
        Some(token) => token.kind,
        None => Kind::End,
    }
}

/// Whether the token of a number is a sign.
pub fn is_sign(tokens: &[Token<'_>], at: usize, sign: Sign) -> bool {
    match kind_at(tokens, at) {
        Kind::Sign(found) => found as u8 == sign as u8,
        _ => false,
    }
}

/// Whether the token of a number is a reserved word.
pub fn is_word(tokens: &[Token<'_>], at: usize, word: Word) -> bool {
    match kind_at(tokens, at) {
        Kind::Reserved(found) => found as u8 == word as u8,
        _ => false,
    }
}

/// Whether the token of a number is a name.
pub fn is_name(tokens: &[Token<'_>], at: usize) -> bool {
    match kind_at(tokens, at) {
        Kind::Name(_) => true,
        _ => false,
    }
}

/// Whether the token of a number is a text.
pub fn is_text(tokens: &[Token<'_>], at: usize) -> bool {
    match kind_at(tokens, at) {
        Kind::Text(_) => true,
        _ => false,
    }
}

/// Whether the token of a number is this name: capital and small letters are the same.
pub fn is_named(tokens: &[Token<'_>], at: usize, text: &[u8]) -> bool {
    match tokens.get(at) {
        Some(token) => token.text.eq_ignore_ascii_case(text),
        None => false,
    }
}

/// The number of the token that stands so many before one; a number of none where none does.
pub fn before(at: usize, count: usize) -> usize {
    at.checked_sub(count).unwrap_or(usize::MAX)
}

/// The number of the token that stands so many after one.
pub fn after(at: usize, count: usize) -> usize {
    at.saturating_add(count)
}

/// The line of the token of a number; 0 where there is none.
pub fn line_of(tokens: &[Token<'_>], at: usize) -> usize {
    match tokens.get(at) {
        Some(token) => token.position.line,
        None => 0,
    }
}

/// Whether a statement ends or begins with the token of a number.
pub fn divides_at(tokens: &[Token<'_>], at: usize) -> bool {
    is_of(tokens, at, kinds!(Is Divider))
}

/// Whether the token of a number may begin a statement or a directive: it is the first of the
/// source, or after the end of a statement, of a list of cases, of a condition, or of the first half
/// of an `if` or a `do`.
pub fn begins_statement(tokens: &[Token<'_>], at: usize) -> bool {
    const ENDS: Kinds = kinds!(
        Sign Semicolon OpenBrace CloseBrace Colon CloseParenthesis, Word Else Do
    );
    at == 0 || is_of(tokens, before(at, 1), ENDS)
}

/// The bytes of the token of a number. None if there is no such token.
pub fn text_at<'a>(tokens: &[Token<'a>], number: usize) -> &'a [u8] {
    match tokens.get(number) {
        Some(token) => token.text,
        None => b"",
    }
}

/// Whether a `;` is among the tokens from one number to another.
pub fn ends_within(tokens: &[Token<'_>], from: usize, to: usize) -> bool {
    for number in from..to {
        if is_sign(tokens, number, Sign::Semicolon) {
            return true;
        }
    }
    false
}
