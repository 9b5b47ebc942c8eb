//! What of a source is left out after a token that does not fit, so that it can be read on from there.

use messages_parts::{
    Kinds, after, before, begins_line, is_name, is_of, is_sign, kind_at, kinds, last_open, start_of,
};
use syntax::{Kind, Sign, Token, Word};

/// A part of a source, from one offset to another, and the tokens that are put at its end in its
/// place: none for a whole definition.
#[derive(Clone, Copy)]
pub struct Cut {
    pub from: usize,
    pub to: usize,
    pub put: &'static [u8],
}

/// What a definition begins with.
const BEGINNINGS: Kinds = kinds!(
    Sign OpenBracket, Word Abbreviate Array Attribute Constant Global Object Property
);

impl Cut {
    /// The part from the beginning of one token to the end of the one before another, if there is room
    /// for what is put in its place.
    fn between(tokens: &[Token<'_>], first: usize, next: usize, put: &'static [u8]) -> Option<Cut> {
        let from = tokens.get(first)?.position.offset;
        let to = tokens.get(before(next, 1))?.end();
        if to.saturating_sub(from) < put.len() {
            None
        } else {
            Some(Cut { from, to, put })
        }
    }

    /// Whether a token that does not fit is counted where the one two before it begins at an offset:
    /// not among the first two after a part of a definition, since these may belong to that part.
    pub fn counts(self, lead: usize) -> bool {
        self.put.is_empty() || lead >= self.to
    }

    /// What is at an offset of a source instead of a byte. Ends of lines are left as they are.
    pub fn byte_at(self, at: usize, byte: u8) -> u8 {
        if at < self.from || at >= self.to || matches!(byte, b'\n' | b'\r') {
            return byte;
        }
        let rest = self.to.saturating_sub(at);
        match self.put.len().checked_sub(rest) {
            Some(number) => self.put.get(number).copied().unwrap_or(b' '),
            None => b' ',
        }
    }
}

/// Whether a definition begins with the token of a number, after one that begins with a first token: it
/// is after a `;` or the first of its line. A routine has a name, and its `[` is the first byte of its line
/// if no `;` is before it. A word in a routine that has not ended begins one only if another follows.
fn begins_definition(text: &[u8], tokens: &[Token<'_>], first: usize, at: usize) -> bool {
    let is_ended = is_sign(tokens, before(at, 1), Sign::Semicolon);
    if is_sign(tokens, at, Sign::OpenBracket) {
        return is_name(tokens, after(at, 1)) && (is_ended || is_at_margin(text, tokens, at));
    }
    is_of(tokens, at, BEGINNINGS)
        && (is_ended || begins_line(tokens, at))
        && (!is_sign(tokens, first, Sign::OpenBracket)
            || has_ended(tokens, first, at)
            || is_followed(tokens, after(at, 1)))
}

/// Whether a definition follows one with a word, of which the token of a number is the second.
fn is_followed(tokens: &[Token<'_>], second: usize) -> bool {
    for number in second..tokens.len() {
        if is_sign(tokens, number, Sign::Semicolon) {
            let next = after(number, 1);
            return is_of(tokens, next, BEGINNINGS) || is_of(tokens, next, kinds!(Is End));
        }
        if is_of(tokens, number, BEGINNINGS) {
            return true;
        }
    }
    false
}

/// Whether the token of a number begins with the first byte of a line.
fn is_at_margin(text: &[u8], tokens: &[Token<'_>], at: usize) -> bool {
    match tokens.get(at) {
        Some(token) => match text.get(before(token.position.offset, 1)) {
            Some(byte) => *byte == b'\n',
            None => true,
        },
        None => false,
    }
}

/// The number of the first token from that of a number on with which a definition begins, after one that
/// begins with a first token; that of no token if there is none.
fn next_definition(text: &[u8], tokens: &[Token<'_>], first: usize, at: usize) -> usize {
    for number in at..tokens.len() {
        if begins_definition(text, tokens, first, number) {
            return number;
        }
    }
    tokens.len()
}

/// Whether the definition that begins with one token ends before another.
fn has_ended(tokens: &[Token<'_>], first: usize, at: usize) -> bool {
    is_sign(tokens, before(at, 1), Sign::Semicolon)
        && (!is_sign(tokens, first, Sign::OpenBracket)
            || is_sign(tokens, before(at, 2), Sign::CloseBracket))
}

/// The number of the token with which the definition of a token begins that does not fit: its own if
/// it should begin one.
fn start_of_definition(tokens: &[Token<'_>], at: usize) -> usize {
    for count in 0..at {
        let number = before(at, count.saturating_add(1));
        if is_of(tokens, number, BEGINNINGS)
            && !is_sign(tokens, before(number, 1), Sign::OpenParenthesis)
        {
            return if has_ended(tokens, number, at) {
                at
            } else {
                number
            };
        }
    }
    at
}

/// Whether the routine that begins with one token is closed before another, and so are its blocks.
fn is_closed(tokens: &[Token<'_>], first: usize, next: usize) -> bool {
    let mut open: usize = 0;
    for number in after(first, 1)..next {
        match kind_at(tokens, number) {
            Kind::Sign(Sign::OpenBrace) => open = open.saturating_add(1),
            Kind::Sign(Sign::CloseBrace) if open == 0 => return false,
            Kind::Sign(Sign::CloseBrace) => open = open.saturating_sub(1),
            Kind::Sign(Sign::OpenBracket) => return false,
            Kind::Sign(Sign::CloseBracket) => {
                return open == 0 && is_sign(tokens, after(number, 1), Sign::Semicolon);
            }
            _ => {}
        }
    }
    false
}

/// The number of the first token of a kind in a set, from one number to before another, that is in
/// no parentheses which open there. `None` where a token of a kind in a second set is before it.
fn first_outside(
    tokens: &[Token<'_>],
    from: usize,
    to: usize,
    ends: Kinds,
    stops: Kinds,
) -> Option<usize> {
    let mut open: usize = 0;
    for number in from..to {
        if open == 0 && is_of(tokens, number, ends) {
            return Some(number);
        }
        if is_of(tokens, number, stops) {
            return None;
        }
        match kind_at(tokens, number) {
            Kind::Sign(Sign::OpenParenthesis) => open = open.saturating_add(1),
            Kind::Sign(Sign::CloseParenthesis) => open = open.saturating_sub(1),
            _ => {}
        }
    }
    None
}

/// What can be in the parentheses after a word, and the second of them.
fn filling(kind: Kind<'_>) -> Option<&'static [u8]> {
    match kind {
        Kind::Reserved(Word::If | Word::While | Word::Until | Word::Switch | Word::Objectloop) => {
            Some(b"x)")
        }
        Kind::Reserved(Word::For) => Some(b"::)"),
        _ => None,
    }
}

/// What is in the parentheses after `if`, `for` or another such word, and the second of them, if the
/// token of a number is there. A `for` may have a `;` in them.
fn head_at(tokens: &[Token<'_>], at: usize, to: usize) -> Option<Cut> {
    const BLOCKS: Kinds = kinds!(Sign OpenBrace CloseBrace OpenBracket CloseBracket);
    const STOPS: Kinds = kinds!(Sign Semicolon OpenBrace CloseBrace OpenBracket CloseBracket);
    let mut open = at;
    for _ in 0..at {
        open = last_open(tokens, open, Sign::OpenParenthesis, Sign::CloseParenthesis)?;
        let word = kind_at(tokens, before(open, 1));
        if let Some(put) = filling(word) {
            let stops = if put.len() > 2 { BLOCKS } else { STOPS };
            let first = after(open, 1);
            let close = first_outside(tokens, first, to, kinds!(Sign CloseParenthesis), stops)?;
            return Cut::between(tokens, first, after(close, 1), put);
        }
    }
    None
}

/// The statement that the token of a number is in, if no block is in it and no `else` or `until` after it.
fn statement_at(tokens: &[Token<'_>], at: usize, to: usize) -> Option<Cut> {
    const ENDS: Kinds = kinds!(Sign Semicolon CloseBrace CloseBracket);
    const STOPS: Kinds = kinds!(Sign Semicolon OpenBrace CloseBrace OpenBracket CloseBracket);
    let start = start_of(tokens, at);
    let end = first_outside(tokens, start, to, ENDS, STOPS)?;
    if !is_sign(tokens, end, Sign::Semicolon) {
        return Cut::between(tokens, start, end, b"x++;");
    }
    let next = after(end, 1);
    if is_of(tokens, next, kinds!(Word Else Until)) {
        return None;
    }
    Cut::between(tokens, start, next, b"x++;")
}

/// The definition that begins with one token, up to the next one.
fn definition_at(tokens: &[Token<'_>], first: usize, next: usize) -> Option<Cut> {
    match (tokens.get(first), tokens.get(next)) {
        (Some(from), Some(to)) => Some(Cut {
            from: from.position.offset,
            to: to.position.offset,
            put: b"",
        }),
        _ => None,
    }
}

/// What can be left out of a source because of a token that does not fit, the least first: what is in
/// parentheses, the statement, and the definition.
#[derive(Clone, Copy)]
pub struct Cuts(pub [Option<Cut>; 3]);

/// What can be left out because of the token of a number: only the definition if its brackets do not
/// match.
pub fn cuts_at(text: &[u8], tokens: &[Token<'_>], at: usize) -> Cuts {
    let first = start_of_definition(tokens, at);
    let next = next_definition(text, tokens, first, at);
    let definition = definition_at(tokens, first, next);
    if is_sign(tokens, first, Sign::OpenBracket) && is_closed(tokens, first, next) {
        Cuts([
            head_at(tokens, at, next),
            statement_at(tokens, at, next),
            definition,
        ])
    } else {
        Cuts([None, None, definition])
    }
}
