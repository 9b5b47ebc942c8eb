//! The dictionary of a story (Z-Machine Standards Document 1.1, section 13). Any bytes may be one: what is
//! after the end of memory is read as 0.

use crate::memory::{byte_at, word_at};
use crate::object_tables::{is_read_here, text_at};
use serde_json::{Map, Value, push, put};
use std::alloc::{AllocError, Global};

/// Where the header has the address of the dictionary (section 11.1).
const DICTIONARY: usize = 0x08;

/// The words of a dictionary in the order of their entries: of each the word and its data, two hexadecimal
/// digits a byte. The list ends where an entry is not whole in memory.
///
/// # Errors
///
/// Memory was refused.
pub fn dictionary(alloc: Global, memory: &[u8]) -> Result<Value, AllocError> {
    let table = usize::from(word_at(memory, DICTIONARY));
    let head = table.saturating_add(1 + usize::from(byte_at(memory, table)));
    let length = usize::from(byte_at(memory, head));
    let count = count_in(word_at(memory, head.saturating_add(1)));
    let mut found = Vec::new(alloc);
    let mut at = head.saturating_add(3);
    for _ in 0..count {
        let end = at.saturating_add(length);
        if length < 2 * usize::from(words_of(memory)) || end > memory.len() {
            return Ok(Value::Array(found));
        }
        push(&mut found, entry_at(alloc, memory, at, end)?)?;
        at = end;
    }
    Ok(Value::Array(found))
}

/// How many entries there are: a negative number is that of entries that are not sorted (section 13.2).
fn count_in(word: u16) -> u16 {
    if word < 0x8000 {
        word
    } else {
        65_535 - word + 1
    }
}

/// How many words the text of an entry has (sections 13.3 and 13.4).
fn words_of(memory: &[u8]) -> u8 {
    if byte_at(memory, 0) <= 3 { 2 } else { 3 }
}

/// The entry between two addresses.
fn entry_at(alloc: Global, memory: &[u8], at: usize, end: usize) -> Result<Value, AllocError> {
    let mut members = Map::new(alloc);
    match put_entry(&mut members, alloc, memory, at, end) {
        Ok(()) => Ok(Value::Object(members)),
        Err(error) => Err(error),
    }
}

/// Adds the members of an entry.
fn put_entry(
    members: &mut Map<String, Value>,
    alloc: Global,
    memory: &[u8],
    at: usize,
    end: usize,
) -> Result<(), AllocError> {
    let words = words_of(memory);
    let word = if is_read_here(memory) {
        text_at(alloc, memory, at, words)?
    } else {
        Value::Null
    };
    put(members, alloc, "word", word)?;
    let data = at.saturating_add(2 * usize::from(words));
    let digits = if data <= end && end <= memory.len() {
        hex::encode(alloc, &memory[data..end])?
    } else {
        String::new(alloc)
    };
    put(members, alloc, "data", Value::String(digits))
}
