//! Reading a source file.

ghost use Rattle.std.specs.Prelude.{◌≡◌, ◌<◌, ◌≤◌, IfOk, IfSome, MatchOption, length};

use std::alloc::Global;
use std::fs;
use std::io::{self, ErrorKind, Read};

/// The most bytes of a source: 64 MB.
pub const MOST_BYTES: usize = 67_108_864;

/// Reads a source; `None` where it is larger than 67,108,864 bytes. One byte more than these is
/// read at most.
///
/// # Errors
///
/// The error by which the reader fails, or want of memory.
pub fn read_source<R: Read + Drop>(alloc: Global, file: R) -> io::Result<Option<Vec<u8>>>
    ensures { IfOk result (λ read. IfSome (R.remaining file) (λ bytes.
        MatchOption read (67108864 < length bytes) (λ source. source.items ≡ bytes))) }
{
    let mut source = Vec::new(alloc);
    file.take(MOST_BYTES as u64 + 1).read_to_end(&mut source)?;
    if source.len() > MOST_BYTES {
        return Ok(None);
    }
    Ok(Some(source))
}

/// Why the file of this name is not read, by the error. `None` where no more is known.
pub fn cause_of(rt: &HostRuntime, name: &str, error: &io::Error) -> Option<&'static str> {
    match (fs::metadata(rt, name), error.kind()) {
        (Ok(found), _) if found.is_dir() => Some("it is a directory"),
        (_, ErrorKind::NotFound | ErrorKind::NotADirectory) => Some("there is no such file"),
        (_, ErrorKind::PermissionDenied) => Some("permission denied"),
        _ => None,
    }
}
