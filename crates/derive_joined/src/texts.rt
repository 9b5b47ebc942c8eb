//! The text of a source of several files.

ghost use Rattle.std.specs.Prelude.{◌≡◌, ◌<◌, ◌+◌, ◌^◌, length, IfOk};
ghost use Rattle.derive_joined.specs.Held.{texts_of};
ghost use Rattle.derive_joined.specs.Texts as spec;

use crate::part::{Part, Run};
use std::alloc::{AllocError, Global};
use syntax_lexer::{from, front};

/// A byte of a file, by the file's number and its offset there.
#[derive(Clone, Copy)]
pub struct Spot {
    /// The number of the file, from 0.
    pub file: usize,

    /// The offset in the file.
    pub offset: usize,
}

/// The bytes of a run.
pub fn bytes_of(files: &[Vec<u8>], run: Run) -> &[u8]
    ensures value { result.now ≡ spec.bytes_of (texts_of files.now) run }
    ensures fits { run.begin + length result.now < 2 ^ 64 }
{
    match files.get(run.file) {
        Some(text) => front(from(text, run.begin), run.length),
        None => &[],
    }
}

/// The text of parts: their bytes, with a line end after each.
///
/// # Errors
///
/// `AllocError` where memory is refused.
pub fn text_of(alloc: Global, files: &[Vec<u8>], parts: &[Part]) -> Result<Vec<u8>, AllocError>
    ensures { IfOk result (λ text. text.items ≡ spec.text_of (texts_of files.now) parts.now) }
{
    let mut text = Vec::new(alloc);
    for part in parts {
        if let Part::Bytes(run) = part {
            text.extend_from_slice(bytes_of(files, *run))?;
            text.push(b'\n')?;
        }
    }
    Ok(text)
}

/// Where the byte of an offset of the text of parts stands; past the end, nowhere.
pub fn spot_of(files: &[Vec<u8>], parts: &[Part], offset: usize) -> Option<Spot>
    ensures { result ≡ spec.spot_of (texts_of files.now) parts.now offset }
{
    let mut left = offset;
    for part in parts {
        if let Part::Bytes(run) = part {
            let length = bytes_of(files, *run).len();
            if left <= length {
                return Some(Spot {
                    file: run.file,
                    offset: run.begin + left,
                });
            }
            left -= length + 1;
        }
    }
    None
}
