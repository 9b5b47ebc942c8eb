//! Which file a directive `Include` asks for.

use crate::paths::{beside, with_extension};
use std::alloc::AllocError;
use std::fs;
use terminal::inform::{Words, folders_of};

/// What stands before the name of a file that is beside the main one.
const BESIDE: char = '>';

/// What is added to a name without an extension, and to one of a file beside the main one.
const EXTENSION: &str = ".h";

const EXTENSION_BESIDE: &str = ".inf";

/// The file of a name in the first folder that has one; `None` where none has.
fn in_folders(
    rt: &HostRuntime,
    words: Words<'_>,
    name: &str,
) -> Result<Option<String>, AllocError> {
    let alloc = rt.alloc();
    let folders = folders_of(alloc, words.given)?;
    for folder in &folders {
        let folder = *folder;
        let path = format!(in alloc; "{folder}/{name}")?;
        if fs::metadata(rt, path.as_str()).is_ok() {
            return Ok(Some(path));
        }
    }
    Ok(None)
}

/// The file for which a directive `Include` with this name asks: beside the main file, or in the first
/// folder that has it. Where none has it, that beside the main file.
///
/// # Errors
///
/// `AllocError` where memory is refused.
pub fn path_of(rt: &HostRuntime, words: Words<'_>, name: &str) -> Result<String, AllocError> {
    let alloc = rt.alloc();
    if let Some(rest) = name.strip_prefix(BESIDE) {
        let full = with_extension(alloc, rest, EXTENSION_BESIDE)?;
        return beside(alloc, words.source, full.as_str());
    }
    let full = with_extension(alloc, name, EXTENSION)?;
    if full.as_str().starts_with('/') {
        return Ok(full);
    }
    let path = beside(alloc, words.source, full.as_str())?;
    if fs::metadata(rt, path.as_str()).is_ok() {
        return Ok(path);
    }
    match in_folders(rt, words, full.as_str())? {
        Some(found) => Ok(found),
        None => Ok(path),
    }
}
