//! Writing a file whole or not at all.

use crate::part::new_part;
use std::fs::{self, File, Metadata, OpenOptions, Permissions};
use std::io::{self, ErrorKind, Write};
use std::os::unix::fs::MetadataExt;
use std::path::PathBuf;

/// The name of what standard output is open on.
const STANDARD_OUTPUT: &str = "/dev/stdout";

/// As many links as Linux follows from one name.
const MAX_LINKS: u32 = 40;

/// Whether two names lead to one regular file.
pub fn is_one_file(rt: &HostRuntime, name: &str, other: &str) -> bool {
    match (fs::metadata(rt, name), fs::metadata(rt, other)) {
        (Ok(found), Ok(other)) => found.is_file() && is_same(&found, &other),
        _ => false,
    }
}

/// Writes the regular file that a name leads to whole, or leaves what stands there as it is, as far
/// as the system allows: the bytes go to a new file beside it, which takes its permissions and then
/// its place. What is no regular file is opened and written as it stands, and what standard output
/// is open on, through standard output.
///
/// # Errors
///
/// The error of the first step that the system refuses; the new file is removed then. A file that
/// may not be written is refused, also where its folder may be.
pub fn write_whole(rt: &HostRuntime, name: &str, bytes: &[u8]) -> io::Result<()> {
    match fs::metadata(rt, name) {
        Ok(found) if is_standard_output(rt, &found) => write_to(rt.stdout(), bytes),
        Ok(found) => {
            let standing = OpenOptions::new().write(true).open(rt, name)?;
            if found.is_file() {
                replace(
                    rt,
                    &end_of_links(rt, name)?,
                    Some(found.permissions()),
                    bytes,
                )
            } else {
                write_to(standing, bytes)
            }
        }
        Err(error) if error.kind() == ErrorKind::NotFound => {
            replace(rt, &end_of_links(rt, name)?, None, bytes)
        }
        Err(error) => Err(error),
    }
}

/// Whether standard output is open on this file or device.
fn is_standard_output(rt: &HostRuntime, found: &Metadata) -> bool {
    match fs::metadata(rt, STANDARD_OUTPUT) {
        Ok(output) => is_same(found, &output),
        Err(_) => false,
    }
}

/// Whether these are of one file.
pub fn is_same(found: &Metadata, other: &Metadata) -> bool {
    (found.dev(), found.ino()) == (other.dev(), other.ino())
}

/// Writes all bytes.
///
/// # Errors
///
/// The error by which the writer fails.
pub fn write_to<W: Write + Drop>(mut out: W, bytes: &[u8]) -> io::Result<()> {
    out.write_all(bytes)?;
    out.flush()
}

/// The path that a name leads to by its links. The last link may dangle.
fn end_of_links(rt: &HostRuntime, name: &str) -> io::Result<PathBuf> {
    let mut path = PathBuf::from_str(rt.alloc(), name)?;
    for _ in 0..MAX_LINKS {
        match fs::symlink_metadata(rt, path.as_str()) {
            Ok(found) if found.is_symlink() => {
                let target = fs::read_link(rt, path.as_str())?;
                path.pop();
                path.push(target)?;
            }
            _ => return Ok(path),
        }
    }
    Err(io::Error::from(ErrorKind::FilesystemLoop))
}

/// Puts a new file of these bytes in the place of a path, with these permissions, or else those of
/// every new file. It stays open, and so locked, until it has the place.
fn replace(
    rt: &HostRuntime,
    path: &PathBuf,
    permissions: Option<Permissions>,
    bytes: &[u8],
) -> io::Result<()> {
    let (part, mut file) = new_part(rt, path)?;
    let placed = match fill(&mut file, permissions, bytes) {
        Ok(()) => fs::rename(rt, part.as_str(), path.as_str()),
        Err(error) => Err(error),
    };
    if placed.is_err() {
        let _ = fs::remove_file(rt, part.as_str());
    }
    placed
}

/// Writes all bytes to a new file, and waits until the system holds them.
fn fill(file: &mut File, permissions: Option<Permissions>, bytes: &[u8]) -> io::Result<()> {
    if let Some(permissions) = permissions {
        file.set_permissions(permissions)?;
    }
    file.write_all(bytes)?;
    file.sync_all()
}
