//! Stories that are made byte by byte.

use crate::names::{RowError, number_in, number_to, parted};
use std::alloc::Global;
use zcore::layout::{HEADER_LENGTH, LENGTH_WORD, SUM_WORD};

/// A story under a name. Rows name it with bytes, which are put at its place in a copy.
#[derive(Drop)]
pub struct Definition {
    pub name: String,
    pub place: usize,
    pub story: Vec<u8>,
}

/// Puts bytes at a place. The story grows by zeros where it ends before them.
pub fn put_at(story: &mut Vec<u8>, place: usize, bytes: &[u8]) -> Result<(), RowError> {
    let end = place.checked_add(bytes.len()).ok_or(RowError::Number)?;
    if story.len() < end {
        story.resize(end, 0)?;
    }
    for (cell, byte) in story.iter_mut().skip(place).zip(bytes.iter()) {
        *cell = *byte;
    }
    Ok(())
}

/// The bytes that a text names in hexadecimal, with spaces between them.
pub fn bytes_in(alloc: Global, text: &str) -> Result<Vec<u8>, RowError> {
    let mut bytes = Vec::new(alloc);
    let mut rest = text;
    for _ in 0..text.len() {
        let (digits, after) = parted(rest);
        if !digits.is_empty() {
            let number = number_to(16, digits).ok_or(RowError::Number)?;
            let byte = u8::try_from(number).ok().ok_or(RowError::Number)?;
            bytes.push(byte)?;
        }
        rest = after;
    }
    Ok(bytes)
}

/// Puts the bytes that a text names at the place that it names first.
pub fn put_text_at(story: &mut Vec<u8>, alloc: Global, text: &str) -> Result<(), RowError> {
    let (place, digits) = text.split_once(' ').ok_or(RowError::Number)?;
    let place = number_in(place)?;
    put_at(story, place, &bytes_in(alloc, digits)?)
}

/// Fills a story up to a multiple of the scale of its version, and writes its length and its sum.
pub fn mend(story: &mut Vec<u8>) -> Result<(), RowError> {
    let scale = match story.as_slice() {
        [1 | 2 | 3, ..] => 2,
        [7 | 8, ..] => 8,
        _ => 4,
    };
    for _ in 1..scale {
        if story.len().checked_rem(scale) != Some(0) {
            story.push(0)?;
        }
    }
    let length = u16::try_from(story.len() / scale).unwrap_or(0);
    put_at(story, LENGTH_WORD, &length.to_be_bytes())?;
    mend_sum(story)
}

/// Writes the sum of a story's bytes behind its header.
pub fn mend_sum(story: &mut Vec<u8>) -> Result<(), RowError> {
    let mut sum = 0u16;
    for byte in story.iter().skip(HEADER_LENGTH) {
        sum = sum.wrapping_add(u16::from(*byte));
    }
    put_at(story, SUM_WORD, &sum.to_be_bytes())
}
