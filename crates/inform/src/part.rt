//! The new file in which a story is written, beside the path whose place it takes then.
//!
//! The run that writes it holds it locked, and the system gives the lock back when the run ends,
//! however it ends. So an unlocked one was left by a run that was killed, and the next run for the
//! same path removes it.

use crate::output::is_same;
use map_text::hash_of;
use std::fs::{self, File, OpenOptions, TryLockError};
use std::io::{self, ErrorKind};
use std::path::PathBuf;

/// As many names as are tried for a file while it is written.
const MAX_PARTS: u32 = 10_000;

/// Among so many of them those that killed runs left are looked for.
const MAX_LEFT: u32 = 16;

/// A new file beside a path, which is locked as long as it is open, with the first number of which
/// there is none.
///
/// # Errors
///
/// The error by which the system refuses it, or want of memory.
pub fn new_part(rt: &HostRuntime, path: &PathBuf) -> io::Result<(PathBuf, File)> {
    for number in 0..MAX_LEFT {
        let part = part_of(rt, path, number)?;
        let _ = remove_left(rt, &part);
    }
    for number in 0..MAX_PARTS {
        let part = part_of(rt, path, number)?;
        match File::create_new(rt, part.as_str()) {
            Ok(file) if is_kept(rt, &part, &file) => return Ok((part, file)),
            Ok(_) => {}
            Err(error) if error.kind() == ErrorKind::AlreadyExists => {}
            Err(error) => return Err(error),
        }
    }
    Err(io::Error::from(ErrorKind::AlreadyExists))
}

/// The name of a new file beside a path. The hash of the path's name is in it, so that no file of
/// another making has the name by accident; a name of any length has a hash of 16 digits.
fn part_of(rt: &HostRuntime, path: &PathBuf, number: u32) -> io::Result<PathBuf> {
    let hash = hash_of(path.file_name().unwrap_or("").as_bytes());
    let name = format!(in rt.alloc(); "inform-{hash:016x}-{number}.part")?;
    Ok(path.with_file_name(rt.alloc(), name.as_str())?)
}

/// Removes a file that a killed run left: a regular one, which may be written, and which no run
/// holds locked. It is removed while it is locked here, so that its run, if it has made it just now
/// and not locked it yet, finds that out.
fn remove_left(rt: &HostRuntime, part: &PathBuf) -> io::Result<()> {
    if fs::symlink_metadata(rt, part.as_str())?.is_file() {
        let file = OpenOptions::new().write(true).open(rt, part.as_str())?;
        file.try_lock()?;
        if leads_to(rt, part, &file) {
            fs::remove_file(rt, part.as_str())?;
        }
    }
    Ok(())
}

/// Locks a new file, and says whether no other run has taken it for one that was left. Where the
/// system has no locks, no run removes any.
fn is_kept(rt: &HostRuntime, part: &PathBuf, file: &File) -> bool {
    match file.try_lock() {
        Err(TryLockError::WouldBlock) => false,
        Ok(()) | Err(TryLockError::Error(_)) => leads_to(rt, part, file),
    }
}

/// Whether a path is still that of a file which is open.
fn leads_to(rt: &HostRuntime, path: &PathBuf, file: &File) -> bool {
    match (fs::symlink_metadata(rt, path.as_str()), file.metadata()) {
        (Ok(found), Ok(open)) => is_same(&found, &open),
        _ => false,
    }
}
