//! The statement or the definition around a place, and what is open there. The tokens before the
//! place begin a program.

use crate::kinds;
use crate::tokens::{after, before, divides_at, is_sign, is_word, line_of};
use crate::walks::is_after;
use syntax_lexer::{Sign, Token, Word};

/// The number of the first token of the statement or definition in which the token of a number is:
/// the one after the nearest `;`, `{` or `}` before it.
pub fn start_of(tokens: &[Token<'_>], at: usize) -> usize {
    for count in 0..at {
        let number = before(at, count.saturating_add(1));
        if divides_at(tokens, number) {
            return after(number, 1);
        }
    }
    0
}

/// Whether the token of a number is on a later line than the one before it.
pub fn begins_line(tokens: &[Token<'_>], at: usize) -> bool {
    line_of(tokens, before(at, 1)) < line_of(tokens, at)
}

/// Whether the token of a number is in a routine: a `[` is before it that no `]` closes.
pub fn is_in_routine(tokens: &[Token<'_>], at: usize) -> bool {
    is_after(
        tokens,
        at,
        kinds!(Sign OpenBracket),
        kinds!(Sign CloseBracket),
        false,
    )
}

/// The number of the last token before one that is an opening sign and is not closed before it.
pub fn last_open(tokens: &[Token<'_>], at: usize, open: Sign, close: Sign) -> Option<usize> {
    let mut closed: usize = 0;
    for count in 0..at {
        let number = before(at, count.saturating_add(1));
        if is_sign(tokens, number, close) {
            closed = closed.saturating_add(1);
        } else if is_sign(tokens, number, open) {
            if closed == 0 {
                return Some(number);
            }
            closed = closed.saturating_sub(1);
        }
    }
    None
}

/// The number of the `(` that is open at the token of a number, in its statement.
pub fn open_parenthesis(tokens: &[Token<'_>], at: usize) -> Option<usize> {
    let open = last_open(tokens, at, Sign::OpenParenthesis, Sign::CloseParenthesis)?;
    if open < start_of(tokens, at) {
        None
    } else {
        Some(open)
    }
}

/// The number of the `(` of the parentheses that end with the token of a number.
pub fn group_at(tokens: &[Token<'_>], close: usize) -> usize {
    if is_sign(tokens, close, Sign::CloseParenthesis) {
        last_open(tokens, close, Sign::OpenParenthesis, Sign::CloseParenthesis).unwrap_or(
            usize::MAX,
        )
    } else {
        usize::MAX
    }
}

/// Whether the token of a number is a `)` whose `(` is after a reserved word.
pub fn closes_after(tokens: &[Token<'_>], at: usize, word: Word) -> bool {
    is_word(tokens, before(group_at(tokens, at), 1), word)
}

/// The number of the `{` of the `switch` whose cases are around the token of a number, with no other
/// block between.
pub fn switch_around(tokens: &[Token<'_>], at: usize) -> Option<usize> {
    let open = last_open(tokens, at, Sign::OpenBrace, Sign::CloseBrace)?;
    if closes_after(tokens, before(open, 1), Word::Switch) {
        Some(open)
    } else {
        None
    }
}

/// Whether the token of a number directly follows the one before it.
pub fn is_joined(tokens: &[Token<'_>], at: usize) -> bool {
    match (tokens.get(before(at, 1)), tokens.get(at)) {
        (Some(last), Some(token)) => last.end() == token.position.offset,
        _ => false,
    }
}
