//! Lists with a number for each token, which is that of another token or [`NONE`].

use std::alloc::{AllocError, Global};

/// The number of no token.
pub const NONE: usize = usize::MAX;

/// A list of this length in which each number is [`NONE`].
pub fn no_numbers(alloc: Global, length: usize) -> Result<Vec<usize>, AllocError> {
    Ok(vec![in alloc; NONE; length]?)
}

/// The number at a place; [`NONE`] where the list has no such place.
pub fn number_at(list: &[usize], at: usize) -> usize {
    list.get(at).copied().unwrap_or(NONE)
}

/// Puts a number at a place, if the list has it.
pub fn put_number(list: &mut [usize], at: usize, number: usize) {
    if at < list.len() {
        list[at] = number;
    }
}

/// Whether a flag is set at a place.
pub fn has_flag(list: &[bool], at: usize) -> bool {
    list.get(at).copied().unwrap_or(false)
}

/// Sets a flag at a place, if the list has it.
pub fn set_flag(list: &mut [bool], at: usize) {
    if at < list.len() {
        list[at] = true;
    }
}
