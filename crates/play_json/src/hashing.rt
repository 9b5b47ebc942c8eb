//! The digest of the state.

use crate::places::place_words;
use machine_frames::layout::{
    FRAME_COUNT, HEIGHT, RECORD, RECORDS, STACK, TEXT_BUFFER, WAITING, WINDOW,
};
use serde_json::Value;
use session::Session;
use sha2::{Digest, Sha256};
use std::alloc::{AllocError, Global};

/// The SHA-256 of the state between two turns, two hexadecimal digits a byte: of the registers of the
/// machine, the records of its frames and their words on the stack, two bytes each, the high one first,
/// then of its memory, and of the words for where it is. The registers have the program counter, what a
/// line is waited for with, the window and the random numbers. So equal states have equal digests.
///
/// # Errors
///
/// Memory was refused.
pub(crate) fn digest_of(alloc: Global, session: &Session) -> Result<Value, AllocError> {
    let mut hasher = Sha256::new();
    add_state(&mut hasher, session.words());
    hasher.update(session.memory());
    hasher.update(place_words(session.place()).as_bytes());
    let digest = hasher.finalize();
    let digits = hex::encode(alloc, digest.as_slice())?;
    Ok(Value::String(digits))
}

/// Adds the cells that are in use: those of the registers, but for what a line is waited for with where
/// none is, then those of frames and of the stack.
fn add_state(hasher: &mut Sha256, words: &[u16]) {
    let waiting = if word_at(words, WAITING) == 0 {
        0
    } else {
        WINDOW - TEXT_BUFFER
    };
    let frames = usize::from(word_at(words, FRAME_COUNT));
    let height = usize::from(word_at(words, HEIGHT))
        .saturating_mul(65_536)
        .saturating_add(usize::from(word_at(words, HEIGHT + 1)));
    add_words(hasher, cells(words, 0, TEXT_BUFFER));
    add_words(hasher, cells(words, TEXT_BUFFER, waiting));
    add_words(hasher, cells(words, WINDOW, RECORDS - WINDOW));
    add_words(hasher, cells(words, RECORDS, frames.saturating_mul(RECORD)));
    add_words(hasher, cells(words, STACK, height));
}

/// Adds words, two bytes each, the high one first.
fn add_words(hasher: &mut Sha256, words: &[u16]) {
    for word in words {
        hasher.update(word.to_be_bytes().as_slice());
    }
}

/// A cell, or 0 where there is none.
fn word_at(words: &[u16], at: usize) -> u16 {
    match words.get(at) {
        Some(word) => *word,
        None => 0,
    }
}

/// So many cells from one on, or those of them that there are.
fn cells(words: &[u16], first: usize, count: usize) -> &[u16] {
    let first = first.min(words.len());
    let count = count.min(words.len() - first);
    &words[first..first + count]
}
