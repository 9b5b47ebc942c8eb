//! Conditions that are assignments.

use crate::marks::{Concern, Marks};
use messages_parts::{after, is_of, is_sign, is_word, kinds, open_after};
use syntax_lexer::{Sign, Token, Word};

/// Whether a condition in parentheses follows the token of a number.
fn has_condition(tokens: &[Token<'_>], at: usize) -> bool {
    is_of(tokens, at, kinds!(Word If While Until))
}

/// Marks the first `=` that is in the parenthesis of a number, in no other, and after so many `:`.
fn mark_in(tokens: &[Token<'_>], opening: usize, colons: usize, marks: &mut Marks) {
    let mut open: usize = 0;
    let mut passed: usize = 0;
    for at in opening..tokens.len() {
        open = open_after(tokens, at, open);
        if open == 0 {
            return;
        }
        if open == 1 && is_sign(tokens, at, Sign::Colon) {
            passed = passed.saturating_add(1);
        }
        if open == 1 && passed == colons && is_sign(tokens, at, Sign::Assign) {
            marks.mark(at, Concern::Assigns);
            return;
        }
    }
}

/// Marks each `=` that makes the whole condition of an `if`, a loop or an `until` an assignment. One
/// in parentheses of its own is taken for one that is meant.
pub fn mark_conditions(tokens: &[Token<'_>], marks: &mut Marks) {
    for at in 0..tokens.len() {
        if has_condition(tokens, at) {
            mark_in(tokens, after(at, 1), 0, marks);
        } else if is_word(tokens, at, Word::For) {
            mark_in(tokens, after(at, 1), 1, marks);
        }
    }
}
