//! Lines, bytes and numbers as rows write them.

use crate::error::RowError;
use std::alloc::Global;

/// A line that calls a session, or that writes words or takes a step with them.
#[derive(Drop)]
pub struct Call {
    /// Its number in the input, from 1.
    pub number: u64,
    pub line: String,
}

/// The first word of a line, and the text after it.
pub fn parted(line: &str) -> (&str, &str) {
    line.split_once(' ').unwrap_or((line, ""))
}

/// The number that a text is, in decimal, of 64 bits.
pub fn number_in(text: &str) -> Result<usize, RowError> {
    number_to(10, text).ok_or(RowError::Number)
}

/// The number that a text is, to a base of at most 16, of 64 bits. It may begin with `+`.
pub fn number_to(base: u8, text: &str) -> Option<usize> {
    let digits = text.strip_prefix('+').unwrap_or(text);
    if digits.is_empty() {
        return None;
    }
    let mut number = 0usize;
    for digit in digits.as_bytes() {
        let value = hexadecimal(*digit)?;
        if value >= base {
            return None;
        }
        let higher = number.checked_mul(usize::from(base))?;
        number = higher.checked_add(usize::from(value))?;
    }
    Some(number)
}

/// The bytes of a written text.
pub fn written_bytes(alloc: Global, text: &str) -> Result<Vec<u8>, RowError> {
    let mut bytes = Vec::new(alloc);
    put_written(&mut bytes, alloc, text)?;
    Ok(bytes)
}

/// Adds the bytes of a written text. A `\` begins what stands for other bytes: `\n` for byte 10,
/// `\\` for itself, `\xC3` for the byte of that number, and `\40{text}` for a text forty times, in
/// which `\#` is the number of the repetition, from 0.
pub fn put_written(bytes: &mut Vec<u8>, alloc: Global, text: &str) -> Result<(), RowError> {
    let mut rest = text;
    for _ in 0..text.len() {
        let Some((plain, escape)) = rest.split_once('\\') else {
            break;
        };
        bytes.extend_from_slice(plain.as_bytes())?;
        rest = match escape.as_bytes() {
            [b'0'..=b'9', ..] => put_repeated(bytes, alloc, escape)?,
            _ => put_escape(bytes, alloc, escape, 0)?,
        };
    }
    bytes.extend_from_slice(rest.as_bytes())?;
    Ok(())
}

/// Adds a text as often as the number before its braces says, and lends what stands behind them.
fn put_repeated<'a>(
    bytes: &mut Vec<u8>,
    alloc: Global,
    escape: &'a str,
) -> Result<&'a str, RowError> {
    let (count, rest) = escape.split_once('{').ok_or(RowError::Escape)?;
    let (part, rest) = rest.split_once('}').ok_or(RowError::Escape)?;
    for number in 0..number_in(count)? {
        put_part(bytes, alloc, part, number)?;
    }
    Ok(rest)
}

/// Adds one repetition of a text.
fn put_part(bytes: &mut Vec<u8>, alloc: Global, part: &str, number: usize) -> Result<(), RowError> {
    let mut rest = part;
    for _ in 0..part.len() {
        let Some((plain, escape)) = rest.split_once('\\') else {
            break;
        };
        bytes.extend_from_slice(plain.as_bytes())?;
        rest = put_escape(bytes, alloc, escape, number)?;
    }
    bytes.extend_from_slice(rest.as_bytes())?;
    Ok(())
}

/// Adds one byte or the number of a repetition, and lends what is after the escape.
fn put_escape<'a>(
    bytes: &mut Vec<u8>,
    alloc: Global,
    escape: &'a str,
    number: usize,
) -> Result<&'a str, RowError> {
    let mut length = 1usize;
    match escape.as_bytes() {
        [b'n', ..] => bytes.push(b'\n')?,
        [b'\\', ..] => bytes.push(b'\\')?,
        [b'#', ..] => bytes.extend_from_slice(number.to_string(alloc)?.as_bytes())?,
        [b'x', high, low, ..] => {
            let high = hexadecimal(*high).ok_or(RowError::Escape)?;
            let low = hexadecimal(*low).ok_or(RowError::Escape)?;
            bytes.push(high.wrapping_mul(16) | low)?;
            length = 3;
        }
        _ => return Err(RowError::Escape),
    }
    let (_, rest) = escape.split_at_checked(length).ok_or(RowError::Escape)?;
    Ok(rest)
}

/// The value of a hexadecimal digit.
fn hexadecimal(digit: u8) -> Option<u8> {
    match digit {
        b'0'..=b'9' => Some(digit.wrapping_sub(b'0')),
        b'A'..=b'F' => Some(digit.wrapping_sub(b'A').wrapping_add(10)),
        b'a'..=b'f' => Some(digit.wrapping_sub(b'a').wrapping_add(10)),
        _ => None,
    }
}
