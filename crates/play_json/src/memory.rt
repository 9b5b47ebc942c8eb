//! Bytes and words of a story's memory. What is after its end is read as 0.

ghost use Rattle.std.specs.Prelude.{◌≡◌, ◌+◌, ◌*◌, slice_index_or};

use crate::request::MEMORY;
use serde_json::{Value, push};
use std::alloc::{AllocError, Global};

/// Where the header has the address of the global variables (Z-Machine Standards Document 1.1,
/// section 11.1).
const GLOBALS: usize = 0x0C;

/// How many global variables there are (section 6.2).
const GLOBAL_COUNT: usize = 240;

/// The byte at an address.
pub(crate) fn byte_at(memory: &[u8], at: usize) -> u8
    ensures { result ≡ slice_index_or memory.now at 0 }
{
    match memory.get(at) {
        Some(byte) => *byte,
        None => 0,
    }
}

/// The word at an address, its high byte first.
pub(crate) fn word_at(memory: &[u8], at: usize) -> u16 {
    u16::from_be_bytes([byte_at(memory, at), byte_at(memory, at.saturating_add(1))])
}

/// The 240 global variables, as unsigned numbers.
///
/// # Errors
///
/// Memory was refused.
pub fn globals(alloc: Global, memory: &[u8]) -> Result<Value, AllocError> {
    let table = usize::from(word_at(memory, GLOBALS));
    let mut words = Vec::new(alloc);
    for number in 0..GLOBAL_COUNT {
        let word = word_at(memory, table + 2 * number);
        push(&mut words, Value::from(word))?;
    }
    Ok(Value::Array(words))
}

/// The bytes that a line asks for, two hexadecimal digits each; `None` where it does not name bytes of
/// this memory by an address and a length.
///
/// # Errors
///
/// Memory was refused.
pub fn bytes_in(alloc: Global, memory: &[u8], line: &[u8]) -> Result<Option<Value>, AllocError> {
    let Some((address, length)) = range_in(line) else {
        return Ok(None);
    };
    if memory.len() < length || memory.len() - length < address {
        return Ok(None);
    }
    let digits = hex::encode(alloc, &memory[address..address + length])?;
    Ok(Some(Value::String(digits)))
}

/// The address and the length that a line names after its first word.
fn range_in(line: &[u8]) -> Option<(usize, usize)> {
    let words = line.strip_prefix(MEMORY)?;
    let space = words.iter().position(|byte| *byte == b' ')?;
    let address = number_in(&words[..space])?;
    let length = number_in(&words[space + 1..])?;
    Some((address, length))
}

/// A number in decimal digits, or the greatest one where it is too large.
fn number_in(digits: &[u8]) -> Option<usize> {
    if digits.is_empty() {
        return None;
    }
    let mut number: usize = 0;
    for digit in digits {
        if *digit < b'0' || *digit > b'9' {
            return None;
        }
        number = number
            .saturating_mul(10)
            .saturating_add(usize::from(*digit - b'0'));
    }
    Some(number)
}
