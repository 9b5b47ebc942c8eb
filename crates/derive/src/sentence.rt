//! Sentences about a derived source, in the words of those who wrote the extended one.

use crate::origins::Origins;
use crate::plain::{is_made, name_length, plain_name};
use derive_tokens::put_number;
use std::alloc::{AllocError, Global};
use syntax_lexer::{from, front};

/// Sentences about what the larger language has, by their beginnings, in small letters or in capitals,
/// and what is said instead.
const OF_FORMS: [(&str, &str); 5] = [
    (
        "this form of print is not in this language",
        "no routine and no form of print has the name before this: define a routine",
    ),
    (
        "an expression as the value of a Constant is not in this language",
        "the value of a Constant is computed from numbers and Constants that are defined before it",
    ),
    (
        "an expression as the value of a Global is not in this language",
        "a value of a Global that is computed stands in parentheses, as in 'Global size = (4 * 5);'",
    ),
    (
        "an expression in an array is not in this language",
        "an entry of an array that is computed stands in parentheses, as in 'Array a -> (4 * 5);'",
    ),
    (
        "'Include' is not in this language",
        "a directive 'Include' has a text and ';', as in 'Include \"rooms\";', and stands in no other",
    ),
];

/// How a sentence names another line, and what is said where that line is not known.
const OF_LINES: [(&[u8], &str); 2] = [(b" in line ", " before"), (b" after line ", " here")];

/// How a sentence names a number of the derived source.
const NUMBER: &[u8] = b"the number ";

/// How a sentence names a routine, and how one that is made for a form.
const ROUTINE: &[u8] = b"the routine '";

const MADE_ROUTINE: &[u8] = b"the routine made for ";

/// A token that is at fault: its bytes in the derived source, and where it comes from.
#[derive(Clone, Copy)]
struct Both<'a> {
    derived: &'a [u8],
    written: &'a [u8],
}

/// Puts bytes as characters.
fn put_bytes(out: &mut String, bytes: &[u8]) -> Result<(), AllocError> {
    for byte in bytes {
        out.push(char::from(*byte))?;
    }
    Ok(())
}

/// What is said instead of a sentence about what the larger language has.
fn of_form(sentence: &str) -> Option<&'static str> {
    for row in &OF_FORMS {
        if front(sentence.as_bytes(), row.0.len()).eq_ignore_ascii_case(row.0.as_bytes()) {
            return Some(row.1);
        }
    }
    None
}

/// How many bytes of a sentence name the token in quotes.
fn quoted_length(token: Both<'_>, rest: &[u8]) -> Option<usize> {
    let length = token.derived.len();
    let after = rest.strip_prefix(b"'")?;
    if front(after, length) == token.derived && from(after, length).starts_with(b"'") {
        Some(length.saturating_add(2))
    } else {
        None
    }
}

/// How many bytes of a sentence name the token as a number.
fn number_length(token: Both<'_>, rest: &[u8]) -> Option<usize> {
    let after = rest.strip_prefix(NUMBER)?;
    let length = name_length(after);
    if front(after, length) == token.derived {
        Some(length.saturating_add(NUMBER.len()))
    } else {
        None
    }
}

/// Puts the token as it was written, if the sentence names it here; how many bytes that are.
fn put_token(out: &mut String, token: Both<'_>, rest: &[u8]) -> Result<usize, AllocError> {
    if let Some(length) = quoted_length(token, rest) {
        put_bytes(out, b"'")?;
        put_bytes(out, token.written)?;
        put_bytes(out, b"'")?;
        return Ok(length);
    }
    match number_length(token, rest) {
        Some(length) => {
            put_bytes(out, token.written)?;
            Ok(length)
        }
        None => Ok(0),
    }
}

/// The number that digits are, and how many there are.
fn number_in(bytes: &[u8]) -> (usize, usize) {
    let mut number = 0_usize;
    let mut length = 0;
    for byte in bytes {
        if !byte.is_ascii_digit() {
            return (number, length);
        }
        number = number
            .saturating_mul(10)
            .saturating_add(usize::from(byte.saturating_sub(b'0')));
        length = length.saturating_add(1);
    }
    (number, length)
}

/// Puts the number of a line, and what is before it.
fn put_known_line(out: &mut String, before: &[u8], line: usize) -> Result<(), AllocError> {
    let mut shown = Vec::new(*out.allocator());
    shown.extend_from_slice(before)?;
    put_number(&mut shown, line)?;
    put_bytes(out, &shown)
}

/// Puts the line of the source that was written, if the sentence names a line here; how many bytes
/// that are.
fn put_line(out: &mut String, origins: &Origins<'_>, rest: &[u8]) -> Result<usize, AllocError> {
    for row in &OF_LINES {
        if rest.starts_with(row.0) {
            let (number, digits) = number_in(from(rest, row.0.len()));
            match origins.line_in(number) {
                Some(line) => put_known_line(out, row.0, line)?,
                None => put_bytes(out, row.1.as_bytes())?,
            }
            return Ok(row.0.len().saturating_add(digits));
        }
    }
    Ok(0)
}

/// Whether a token is a name that is written without its prefix, as that of `Main`.
fn is_same(token: Option<Both<'_>>) -> bool {
    match token {
        Some(token) => plain_name(token.derived).eq_ignore_ascii_case(token.written),
        None => false,
    }
}

/// Puts what stands before the name of a routine that is made, if the sentence names one here; how many
/// bytes that are.
fn put_made(out: &mut String, token: Option<Both<'_>>, rest: &[u8]) -> Result<usize, AllocError> {
    match rest.strip_prefix(ROUTINE) {
        Some(name) if is_made(name) && !is_same(token) => {
            put_bytes(out, MADE_ROUTINE)?;
            Ok(ROUTINE.len().saturating_sub(1))
        }
        _ => Ok(0),
    }
}

/// Puts the front of a sentence, and says how many bytes it had.
fn put_part(
    out: &mut String,
    origins: &Origins<'_>,
    token: Option<Both<'_>>,
    rest: &[u8],
) -> Result<usize, AllocError> {
    let of_token = match token {
        Some(token) => put_token(out, token, rest)?,
        None => 0,
    };
    if of_token > 0 {
        return Ok(of_token);
    }
    let of_line = put_line(out, origins, rest)?;
    if of_line > 0 {
        return Ok(of_line);
    }
    let of_made = put_made(out, token, rest)?;
    if of_made > 0 {
        return Ok(of_made);
    }
    let length = name_length(rest).max(1);
    put_bytes(out, plain_name(front(rest, length)))?;
    Ok(length)
}

/// A sentence with the names of forms in the place of names that are made.
///
/// # Errors
///
/// `AllocError` where memory is refused.
pub fn with_plain_names(alloc: Global, sentence: &str) -> Result<String, AllocError> {
    let bytes = sentence.as_bytes();
    let mut out = String::new(alloc);
    let mut next = 0;
    for at in 0..bytes.len() {
        if at >= next {
            let rest = from(bytes, at);
            let length = name_length(rest).max(1);
            put_bytes(&mut out, plain_name(front(rest, length)))?;
            next = at.saturating_add(length);
        }
    }
    Ok(out)
}

/// A sentence about the token at a byte of the derived source, in the words of those who wrote the
/// extended one: it names nothing that is made, the token as it was written, and lines of that source.
///
/// # Errors
///
/// `AllocError` where memory is refused.
pub fn plain_sentence(
    alloc: Global,
    origins: &Origins<'_>,
    offset: usize,
    sentence: &str,
) -> Result<String, AllocError> {
    if let Some(other) = of_form(sentence) {
        return String::from_str(alloc, other);
    }
    let token = match origins.both(offset) {
        Some((derived, written)) => Some(Both { derived, written }),
        None => None,
    };
    let bytes = sentence.as_bytes();
    let mut out = String::new(alloc);
    let mut next = 0;
    for at in 0..bytes.len() {
        if at >= next {
            let length = put_part(&mut out, origins, token, from(bytes, at))?;
            next = at.saturating_add(length);
        }
    }
    Ok(out)
}
