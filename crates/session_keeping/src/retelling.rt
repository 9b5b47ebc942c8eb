//! The options in the file of a session whose story is told of another screen.

use crate::heading::{heading_in, heading_of};
use crate::options::options_of;
use crate::unread::read_whole;
use std::fs::{self, File, Permissions};
use std::io::{self, ErrorKind, Write};
use std::str;
use terminal::play::Words;

/// Puts the options of these words into the heading of a session's file, in the place of those that it has. The lines
/// stay. A new file takes the place of the old one, and that of no link.
///
/// # Errors
///
/// The file is not read, is no session's, or cannot be replaced; or memory is refused. It stays as it is then.
pub fn retell(rt: &HostRuntime, name: &str, words: &Words<'_>) -> io::Result<()> {
    let found = fs::symlink_metadata(rt, name)?;
    if !found.is_file() {
        return Err(io::Error::from(ErrorKind::InvalidInput));
    }
    let bytes = retold(rt, name, words)?;
    let part = format!(in rt.alloc(); "{name}.part")?;
    let mut file = File::create_new(rt, part.as_str())?;
    let placed = match fill(&mut file, found.permissions(), &bytes) {
        Ok(()) => fs::rename(rt, part.as_str(), name),
        Err(error) => Err(error),
    };
    if placed.is_err() {
        let _ = fs::remove_file(rt, part.as_str());
    }
    placed
}

/// What is in a session's file, with the options of these words.
fn retold(rt: &HostRuntime, name: &str, words: &Words<'_>) -> io::Result<Vec<u8>> {
    let Some(text) = read_whole(rt, name)? else {
        return Err(io::Error::from(ErrorKind::InvalidData));
    };
    let Ok(heading) = heading_in(&text) else {
        return Err(io::Error::from(ErrorKind::InvalidData));
    };
    let Ok(story) = str::from_utf8(heading.story) else {
        return Err(io::Error::from(ErrorKind::InvalidData));
    };
    let options = options_of(rt.alloc(), words)?;
    let mut bytes = heading_of(rt.alloc(), story, options.as_str())?;
    bytes.extend_from_slice(heading.lines)?;
    Ok(bytes)
}

/// Writes all bytes to a new file, and waits until the system holds them.
fn fill(file: &mut File, permissions: Permissions, bytes: &[u8]) -> io::Result<()> {
    file.set_permissions(permissions)?;
    file.write_all(bytes)?;
    file.sync_all()
}
