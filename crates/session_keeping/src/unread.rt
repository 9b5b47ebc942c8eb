//! Files that are read whole, and why a file is not read.

use std::fmt::{self, Display};
use std::fs::File;
use std::io::{self, ErrorKind, Read};

/// Why a file is not read. `Display` writes it after what cannot be read: a colon, and any words.
#[derive(Clone, Copy)]
pub enum Unread {
    /// There is none of this name.
    Missing,

    /// It is a directory.
    Directory,

    /// It is a pipe, a device or a socket, which may have no end.
    Irregular,

    /// The system does not let it be read.
    Denied,

    /// Its name is not UTF-8, and files are opened by no other names.
    Unnamed,

    /// Another error of reading, or want of memory.
    Failed,
}

impl Unread {
    /// The cause in words; nothing where no more is known.
    pub fn words(self) -> &'static str {
        match self {
            Unread::Missing => "there is no such file",
            Unread::Directory => "it is a directory",
            Unread::Irregular => "it is no regular file",
            Unread::Denied => "permission denied",
            Unread::Unnamed => "its name is not UTF-8",
            Unread::Failed => "",
        }
    }

    /// The cause of an error.
    pub fn of(error: &io::Error) -> Unread {
        match error.kind() {
            ErrorKind::NotFound | ErrorKind::NotADirectory => Unread::Missing,
            ErrorKind::PermissionDenied => Unread::Denied,
            _ => Unread::Failed,
        }
    }
}

impl Display for Unread {
    fn fmt<W: fmt::Write>(&self, f: &mut fmt::Formatter<W>) -> fmt::Result {
        let words = self.words();
        if words.is_empty() {
            Ok(())
        } else {
            write!(f, ": {words}")
        }
    }
}

/// The most bytes of a file that is read whole: a session's or a map of addresses, 64 MB.
const MOST_BYTES: usize = 67_108_864;

/// The bytes of such a file; `None` if there are too many. One byte more than may be is read at most.
pub fn read_whole(rt: &HostRuntime, name: &str) -> io::Result<Option<Vec<u8>>> {
    let file = File::open(rt, name)?;
    let mut text = Vec::new(rt.alloc());
    file.take(MOST_BYTES as u64 + 1).read_to_end(&mut text)?;
    if text.len() > MOST_BYTES {
        return Ok(None);
    }
    Ok(Some(text))
}
