//! The names within an object. The tokens are those of a program.

use crate::tokens::{before, is_name, is_named, is_sign, is_word};
use syntax_lexer::{Sign, Token, Word};

/// Whether the token of a number is the name of a property that an object gives.
pub fn is_property(tokens: &[Token<'_>], at: usize) -> bool {
    let last = before(at, 1);
    is_name(tokens, at) && (is_word(tokens, last, Word::With) || is_sign(tokens, last, Sign::Comma))
}

/// The number of the token where the object whose name has a number gives a property first.
pub fn first_given(tokens: &[Token<'_>], object: usize, text: &[u8]) -> Option<usize> {
    for number in object.saturating_add(1)..tokens.len() {
        if is_named(tokens, number, text) && is_property(tokens, number) {
            return Some(number);
        }
    }
    None
}
