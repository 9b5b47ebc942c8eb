//! Names of files that are asked for.

use std::alloc::{AllocError, Global};

/// A name with an extension: its own, or else this one.
///
/// # Errors
///
/// `AllocError` where memory is refused.
pub(crate) fn with_extension(
    alloc: Global,
    name: &str,
    extension: &str,
) -> Result<String, AllocError> {
    let last = match name.rsplit_once('/') {
        Some((_, last)) => last,
        None => name,
    };
    if last.contains('.') {
        String::from_str(alloc, name)
    } else {
        format!(in alloc; "{name}{extension}")
    }
}

/// The name of a file beside another.
///
/// # Errors
///
/// `AllocError` where memory is refused.
pub(crate) fn beside(alloc: Global, other: &str, name: &str) -> Result<String, AllocError> {
    match other.rsplit_once('/') {
        Some((folder, _)) => format!(in alloc; "{folder}/{name}"),
        None => String::from_str(alloc, name),
    }
}
