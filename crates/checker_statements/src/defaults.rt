//! The defaults of properties.

ghost use Rattle.std.specs.Prelude.{◌≡◌, IfOk, slice_index_or};
ghost use Rattle.checker_statements.specs.Objects as spec;

use meaning::limits::MOST_PROPERTIES;
use std::alloc::{AllocError, Global};

fn word_at(given: &[u16], index: usize) -> u16
    ensures { result ≡ slice_index_or given.now index 0 }
{
    match given.get(index) {
        Some(word) => *word,
        None => 0,
    }
}

/// The defaults of the 63 properties, where these are the ones that a file gives. That of `name` is
/// 0, and so is each that is not given.
///
/// # Errors
///
/// `AllocError` where memory is refused.
pub fn all_defaults(alloc: Global, given: &[u16]) -> Result<Vec<u16>, AllocError>
    ensures { IfOk result (λ v. v.items ≡ spec.all_defaults given.now) }
{
    let mut found = Vec::new(alloc);
    found.push(0)?;
    for i in 0..MOST_PROPERTIES {
        found.push(word_at(given, i))?;
    }
    Ok(found)
}
