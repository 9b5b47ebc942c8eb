//! Statements that are never run, since the one before them goes elsewhere.

use crate::marks::{Concern, Marks};
use crate::routines::Routine;
use crate::statements::{begins_in_list, is_case};
use messages_parts::{Kinds, is_of, is_sign, kinds};
use syntax_lexer::{Sign, Token};

/// What begins a statement that goes elsewhere. A text does: it is printed, and the routine returns.
const LEAVES: Kinds = kinds!(
    Is Text, Word Break Continue PrintRet Quit Return Rfalse Rtrue
);

/// The first token after the `;` that ends a statement, and after each `;` that follows it.
fn next_of(tokens: &[Token<'_>], first: usize) -> usize {
    let mut is_ended = false;
    for at in first..tokens.len() {
        if is_sign(tokens, at, Sign::Semicolon) {
            is_ended = true;
        } else if is_ended {
            return at;
        }
    }
    tokens.len()
}

/// Whether the token of a number ends the statements of a list.
fn ends_list(tokens: &[Token<'_>], at: usize) -> bool {
    is_of(tokens, at, kinds!(Sign CloseBrace CloseBracket)) || is_case(tokens, at)
}

/// Marks each statement of a routine that follows one which goes elsewhere.
pub fn mark_unreached(tokens: &[Token<'_>], routine: Routine, marks: &mut Marks) {
    for at in routine.body..routine.end {
        if begins_in_list(tokens, at) && is_of(tokens, at, LEAVES) {
            let next = next_of(tokens, at);
            if next < routine.end && !ends_list(tokens, next) {
                marks.mark(next, Concern::Unreached(at));
            }
        }
    }
}
