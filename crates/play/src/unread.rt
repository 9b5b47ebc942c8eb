//! Why a file is not read.

use crate::names::path_of;
use crate::reading::story_in;
use iff_files::BlorbFault;
use session_keeping::Unread;
use std::io::{self, ErrorKind};
use std::{fmt, fs};
use survey::Mode;

/// Why a file that is to be checked is not read. `Display` writes it after a colon, if it is known.
#[derive(Clone, Copy)]
pub enum Obstacle {
    /// Symbolic links on the way to it lead to one another, without end.
    Loop,

    /// Another cause.
    Other(Unread),
}

impl Obstacle {
    /// The cause in words; nothing where no more is known.
    pub fn words(self) -> &'static str {
        match self {
            Obstacle::Loop => "its symbolic links lead to one another",
            Obstacle::Other(cause) => cause.words(),
        }
    }

    /// The cause of an error.
    fn of(error: &io::Error) -> Obstacle {
        match error.kind() {
            ErrorKind::FilesystemLoop => Obstacle::Loop,
            _ => Obstacle::Other(Unread::of(error)),
        }
    }
}

impl fmt::Display for Obstacle {
    fn fmt<W: fmt::Write>(&self, f: &mut fmt::Formatter<W>) -> fmt::Result {
        match self {
            Obstacle::Loop => {
                let words = self.words();
                write!(f, ": {words}")
            }
            Obstacle::Other(cause) => write!(f, "{cause}"),
        }
    }
}

/// The story in a regular file of this name, or of an open descriptor, for a machine, or why a Blorb file has none, or why the
/// file is not read. No other file is opened: to open a pipe that nobody writes to would take for
/// ever.
pub fn regular_story(
    rt: &HostRuntime,
    name: &str,
    mode: Mode,
) -> Result<Result<Vec<u8>, BlorbFault>, Obstacle> {
    let Some(path) = path_of(name) else {
        return Err(Obstacle::Other(Unread::Unnamed));
    };
    let metadata = match fs::metadata(rt, path) {
        Ok(metadata) => metadata,
        Err(error) => return Err(Obstacle::of(&error)),
    };
    if metadata.is_dir() {
        return Err(Obstacle::Other(Unread::Directory));
    }
    if !metadata.is_file() {
        return Err(Obstacle::Other(Unread::Irregular));
    }
    match story_in(rt, path, mode) {
        Ok(story) => Ok(story),
        Err(error) => Err(Obstacle::of(&error)),
    }
}

/// Why a file of this name is not read, by the error.
pub fn cause_of(rt: &HostRuntime, name: &str, error: &io::Error) -> Unread {
    match fs::metadata(rt, name) {
        Ok(found) if found.is_dir() => Unread::Directory,
        _ => Unread::of(error),
    }
}
