//! What rules ask that takes a walk over the tokens, or over the bytes after one.

use crate::definitions::{Definition, Known, around, known_as};
use crate::kinds::{Kinds, has, is_of};
use crate::objects::is_property;
use crate::statements::{last_open, start_of};
use crate::tokens::{after, before, is_named, is_sign, is_word, kind_at};
use syntax_lexer::{Kind, Sign, Token, Word};

/// What may be in a list of values.
const IN_CASES: Kinds = crate::kinds!(
    Is Name Number Character DictionaryWord, Sign Comma Minus Dot, Word To True False Nothing
);

/// Whether the token of a number is a name that a definition gives, of what is in a set.
pub fn is_known(tokens: &[Token<'_>], number: usize, set: u64) -> bool {
    match known_as(tokens, number) {
        Some(Known::File(what)) => has(set, what as u8),
        _ => false,
    }
}

/// How many brackets are closed before the token of a number, of so many after it.
fn closed_before(tokens: &[Token<'_>], number: usize, closed: usize) -> usize {
    match kind_at(tokens, number) {
        Kind::Sign(Sign::CloseParenthesis | Sign::CloseBrace) => closed.saturating_add(1),
        Kind::Sign(Sign::OpenParenthesis | Sign::OpenBrace) => closed.saturating_sub(1),
        _ => closed,
    }
}

/// Whether the nearest token before that of a number that is of a kind in one of two sets is in the
/// first. What is in parentheses or blocks of their own may be left out.
pub fn is_after(
    tokens: &[Token<'_>],
    at: usize,
    kinds: Kinds,
    ends: Kinds,
    is_outside: bool,
) -> bool {
    let mut closed: usize = 0;
    for count in 0..at {
        let number = before(at, count.saturating_add(1));
        if closed == 0 && is_of(tokens, number, kinds) {
            return true;
        }
        if closed == 0 && is_of(tokens, number, ends) {
            return false;
        }
        if is_outside {
            closed = closed_before(tokens, number, closed);
        }
    }
    false
}

/// The number of the last `do` before the token of a number, or of the `[` of its routine.
pub fn last_do(tokens: &[Token<'_>], at: usize) -> usize {
    const ENDS: Kinds = crate::kinds!(Sign OpenBracket, Word Do);
    for count in 0..at {
        let number = before(at, count.saturating_add(1));
        if is_of(tokens, number, ENDS) {
            return number;
        }
    }
    usize::MAX
}

/// How many tokens from one number to another are of a kind in a set.
pub fn count_of(tokens: &[Token<'_>], from: usize, to: usize, kinds: Kinds) -> usize {
    let mut count: usize = 0;
    for number in from..to {
        if is_of(tokens, number, kinds) {
            count = count.saturating_add(1);
        }
    }
    count
}

/// Whether two commas are left in the parentheses around the token of a number, with it, and no `:`.
pub fn begins_two_commas(tokens: &[Token<'_>], at: usize) -> bool {
    let mut count: usize = 0;
    for number in at..tokens.len() {
        match kind_at(tokens, number) {
            Kind::Sign(Sign::CloseParenthesis | Sign::Semicolon) => break,
            Kind::Sign(Sign::Colon) => return false,
            Kind::Sign(Sign::Comma) => count = count.saturating_add(1),
            _ => {}
        }
    }
    count == 2
}

/// Whether a `]` is before the first `;` from the token of a number on.
pub fn is_in_brackets(tokens: &[Token<'_>], start: usize) -> bool {
    for number in start..tokens.len() {
        if is_sign(tokens, number, Sign::Semicolon) {
            return false;
        }
        if is_sign(tokens, number, Sign::CloseBracket) {
            return true;
        }
    }
    false
}

/// Whether the token of a number is among the values of the property `name`.
pub fn is_in_names(tokens: &[Token<'_>], at: usize) -> bool {
    for count in 0..at {
        let number = before(at, count.saturating_add(1));
        if is_property(tokens, number) {
            return is_named(tokens, number, b"name");
        }
        if is_sign(tokens, number, Sign::Semicolon) {
            return false;
        }
    }
    false
}

/// Whether what is from one number to another is a value or a list of them, and no routine: a case of
/// which the `:` is missing.
pub fn is_case(tokens: &[Token<'_>], start: usize, at: usize) -> bool {
    start < at
        && !is_known(tokens, start, 1 << Definition::Routine as u64)
        && count_of(tokens, start, at, IN_CASES) == at.saturating_sub(start)
}

/// Whether an `else` begins the statement or the block that ends with the token of a number.
pub fn ends_else(tokens: &[Token<'_>], last: usize) -> bool {
    match last_open(tokens, last, Sign::OpenBrace, Sign::CloseBrace) {
        Some(open) if is_sign(tokens, last, Sign::CloseBrace) => {
            is_word(tokens, before(open, 1), Word::Else)
        }
        _ => {
            let start = start_of(tokens, last);
            is_word(tokens, start, Word::Else) && !is_word(tokens, after(start, 1), Word::If)
        }
    }
}

/// Whether the token of a number is in the value of a Constant or a Global, and not the first there.
pub fn is_in_constant(tokens: &[Token<'_>], number: usize) -> bool {
    match around(tokens, number) {
        Some(found) => {
            matches!(found.what, Definition::Constant | Definition::Global)
                && is_sign(tokens, after(found.name, 1), Sign::Assign)
                && number > after(found.name, 2)
        }
        None => false,
    }
}

/// The bytes from the end of the token of a number on, without the blanks before them in its line.
pub fn bytes_after<'s>(source: &'s [u8], tokens: &[Token<'_>], number: usize) -> &'s [u8] {
    let end = match tokens.get(number) {
        Some(token) => token.end(),
        None => source.len(),
    };
    let rest = source.split_at(end.min(source.len())).1;
    rest.split_at(blank_count(rest).min(rest.len())).1
}

/// How many blanks of one line are at the front of some bytes.
fn blank_count(bytes: &[u8]) -> usize {
    let mut count: usize = 0;
    for byte in bytes {
        if !matches!(*byte, b' ' | b'\t' | b'\r') {
            break;
        }
        count = count.saturating_add(1);
    }
    count
}

/// Whether bytes begin with `!` and what may be negated.
pub fn is_negation(bytes: &[u8]) -> bool {
    match bytes {
        [b'!', next, ..] => next.is_ascii_alphabetic() || matches!(*next, b'_' | b'('),
        _ => false,
    }
}

/// Whether bytes begin with `!=`, or with a blank between.
pub fn is_inequality(bytes: &[u8]) -> bool {
    bytes.starts_with(b"!=") || bytes.starts_with(b"! =")
}

/// Whether the token of a number is the same as the one before it.
pub fn repeats(tokens: &[Token<'_>], number: usize) -> bool {
    match (tokens.get(before(number, 1)), tokens.get(number)) {
        (Some(last), Some(token)) => last.text == token.text,
        _ => false,
    }
}

/// The number of the token after the end of the definition that begins with the token of a number.
pub fn end_of_definition(tokens: &[Token<'_>], number: usize) -> usize {
    let is_routine = is_sign(tokens, number, Sign::OpenBracket);
    for at in number..tokens.len() {
        let is_end = !is_routine || is_sign(tokens, before(at, 1), Sign::CloseBracket);
        if is_end && is_sign(tokens, at, Sign::Semicolon) {
            return after(at, 1);
        }
    }
    tokens.len()
}

/// Whether a `:` is after the values that the token of a number begins.
pub fn is_before_colon(tokens: &[Token<'_>], at: usize) -> bool {
    const VALUES: Kinds = crate::kinds!(
        Is Name Number Character DictionaryWord, Sign Comma Minus, Word To True False Nothing
    );
    for number in at..tokens.len() {
        if !is_of(tokens, number, VALUES) {
            return is_sign(tokens, number, Sign::Colon);
        }
    }
    false
}

/// Whether the token of a number is in the routine Main.
pub fn is_in_main(tokens: &[Token<'_>], at: usize) -> bool {
    match around(tokens, at) {
        Some(found) => {
            matches!(found.what, Definition::Routine) && is_named(tokens, found.name, b"main")
        }
        None => false,
    }
}
