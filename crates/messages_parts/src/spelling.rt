//! Names that differ in few letters.

use std::alloc::{AllocError, Global};

/// The most edits between a name and the one that may be meant. An edit changes, adds or leaves out
/// a letter.
pub const MOST_EDITS: usize = 2;

/// The letters of a name that is not short.
const SHORT: usize = 5;

/// A name in small letters.
///
/// # Errors
///
/// `AllocError` if memory is refused.
pub fn in_small_letters(alloc: Global, name: &[u8]) -> Result<Vec<u8>, AllocError> {
    let mut small = Vec::new(alloc);
    for byte in name {
        small.push(byte.to_ascii_lowercase())?;
    }
    Ok(small)
}

/// How often a byte is in a name, in capital or small letters.
fn count_of(byte: u8, name: &[u8]) -> usize {
    let mut count: usize = 0;
    for other in name {
        if other.eq_ignore_ascii_case(&byte) {
            count = count.saturating_add(1);
        }
    }
    count
}

/// Whether two names have the same letters, in any order.
fn have_same_letters(name: &[u8], other: &[u8]) -> bool {
    for byte in name {
        if count_of(*byte, name) != count_of(*byte, other) {
            return false;
        }
    }
    name.len() == other.len()
}

/// Whether the name to which so many edits lead from another may be meant by that: they are few, and
/// of a short name they are one, or exchange two letters. A name of one letter may be any other.
pub fn is_near(name: &[u8], edits: usize, other: &[u8]) -> bool {
    if name.len() < SHORT || other.len() < SHORT {
        edits == 1 && name.len() > 1 || edits == MOST_EDITS && have_same_letters(name, other)
    } else {
        edits <= MOST_EDITS
    }
}
