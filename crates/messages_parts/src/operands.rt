//! What begins and what ends an operand.

use crate::kinds;
use crate::kinds::{Kinds, is_of};
use crate::tokens::{after, before, is_sign, is_word};
use syntax_lexer::{Sign, Token, Word};

/// Whether the token of a number is `++` or `--`.
pub fn is_step(tokens: &[Token<'_>], at: usize) -> bool {
    is_of(tokens, at, kinds!(Sign Increment Decrement))
}

/// Whether a name, the token of a number, is the variable of an `objectloop`.
pub fn is_loop_variable(tokens: &[Token<'_>], at: usize) -> bool {
    is_sign(tokens, before(at, 1), Sign::OpenParenthesis)
        && is_word(tokens, before(at, 2), Word::Objectloop)
}

/// How many parentheses are open after the token of a number, where so many were before it.
pub fn open_after(tokens: &[Token<'_>], at: usize, open: usize) -> usize {
    if is_sign(tokens, at, Sign::OpenParenthesis) {
        open.saturating_add(1)
    } else if is_sign(tokens, at, Sign::CloseParenthesis) {
        open.saturating_sub(1)
    } else {
        open
    }
}

/// Whether an operand ends with the token of a number.
pub fn ends_operand(tokens: &[Token<'_>], at: usize) -> bool {
    const ENDS: Kinds = kinds!(
        Is Name Number Character DictionaryWord, Sign CloseParenthesis, Word True False Nothing
    );
    let last = if is_step(tokens, at) {
        before(at, 1)
    } else {
        at
    };
    is_of(tokens, last, ENDS)
}

/// Whether what is after the token of a number begins a whole expression or a statement.
pub fn begins_expression(tokens: &[Token<'_>], at: usize) -> bool {
    const STARTS: Kinds = kinds!(
        Is Reserved, Sign Semicolon OpenBrace CloseBrace OpenParenthesis CloseParenthesis Assign Comma Colon
    );
    is_of(tokens, at, STARTS) && !is_of(tokens, at, kinds!(Word In Notin Has Hasnt Provides Or))
}

/// Whether parentheses after the token of a number are its own, and no expression begins with them.
pub fn owns_parentheses(tokens: &[Token<'_>], at: usize) -> bool {
    const OWNERS: Kinds = kinds!(
        Is Name, Word Parent Child Sibling If While Until Switch Objectloop
    );
    is_of(tokens, at, OWNERS)
}

/// Whether parentheses that hold an expression are so far around a name.
fn is_enclosed(tokens: &[Token<'_>], at: usize, far: usize) -> bool {
    is_sign(tokens, before(at, far), Sign::OpenParenthesis)
        && is_sign(tokens, after(at, far), Sign::CloseParenthesis)
        && !owns_parentheses(tokens, before(at, far.saturating_add(1)))
}

/// Whether a value is assigned to a name, which may be in parentheses, or it is stepped.
pub fn is_changed(tokens: &[Token<'_>], at: usize) -> bool {
    for pairs in 0..at {
        let far = pairs.saturating_add(1);
        if is_step(tokens, before(at, far)) || is_step(tokens, after(at, far)) {
            return true;
        }
        if is_sign(tokens, after(at, far), Sign::Assign) {
            return begins_expression(tokens, before(at, far));
        }
        if !is_enclosed(tokens, at, far) {
            return false;
        }
    }
    false
}
