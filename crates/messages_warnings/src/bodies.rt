//! Conditions that nothing but a `;` follows.

use crate::marks::{Concern, Marks};
use messages_parts::{after, before, closes_after, is_sign, is_word};
use syntax_lexer::{Sign, Token, Word};

/// What is said of the `;` that is the token of a number: it is all of an `if` that has no `else`, or
/// of a `while`. The parentheses that end right before a `;` are in no others, so all these tests
/// together take time linear in the source.
fn concern_of(tokens: &[Token<'_>], at: usize) -> Option<Concern> {
    let last = before(at, 1);
    let has_else = is_word(tokens, after(at, 1), Word::Else);
    if closes_after(tokens, last, Word::If) && !has_else {
        Some(Concern::EmptyIf)
    } else if closes_after(tokens, last, Word::While) {
        Some(Concern::EmptyLoop)
    } else {
        None
    }
}

/// Marks each `;` right after the condition of an `if` or a `while`. A `{ }` is taken as meant.
pub fn mark_empty_bodies(tokens: &[Token<'_>], marks: &mut Marks) {
    for at in 0..tokens.len() {
        if is_sign(tokens, at, Sign::Semicolon) {
            if let Some(concern) = concern_of(tokens, at) {
                marks.mark(at, concern);
            }
        }
    }
}
