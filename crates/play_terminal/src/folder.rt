//! The folder of saved games.

ghost use Rattle.std.specs.Prelude.{◌≡◌, ◌++◌, ◌∷◌, [], IfOk, OnOk, OnErr};
ghost use Rattle.session_lines.specs.Files as acts;
ghost use Rattle.session_lines.specs.Files.{seen_by};

use crate::named::Named;
use session_keeping::{Unread, refuse, unused};
use session_lines::{FilesFault, Log, Note};
use std::fs::{self, File, OpenOptions};
use std::io::{self, ErrorKind, Read, Write};
use std::process::ExitCode;
use std::str;
use terminal::OneLine;

/// Refuses a folder of saved games that is none.
/// At `Err` it is no directory, or cannot be looked at: the status with which the program ends, which has said why.
pub(crate) fn check_folder(rt: &HostRuntime, name: &str) -> Result<(), ExitCode> {
    match fs::metadata(rt, name) {
        Ok(found) if found.is_dir() => Ok(()),
        Ok(_) => Err(unused(rt, name, "it is no directory")),
        Err(error) => {
            let why = Unread::of(&error);
            Err(refuse(rt, format_args!("cannot use {}{why}", OneLine(name))))
        }
    }
}

/// How the file of a saved game ends.
const ENDING: &[u8] = b".qzl";

/// How many letters of a name stand before the number by which an older game is told from it: with the hyphen they are
/// no more than a name has.
const LETTERS_BEFORE_NUMBER: usize = 55;

/// The greatest of these numbers.
const MOST_ASIDE: u32 = 9_999;

/// A folder for the saved games of a story.
#[derive(Clone, Copy)]
pub(crate) struct Folder<'a> {
    rt: &'a HostRuntime,

    /// Its name.
    name: &'a str,

    /// What is told of names, if a user types them at a terminal. Then an older game of a name is set aside for a new
    /// one, and no file is removed or changed.
    named: Option<&'a Named<'a>>,
}

impl<'a> Folder<'a> {
    /// The folder of a name.
    pub(crate) fn new(
        rt: &'a HostRuntime,
        name: &'a str,
        named: Option<&'a Named<'a>>,
    ) -> Folder<'a> {
        Folder { rt, name, named }
    }

    /// Whether anything has a name, which is logged. The first bytes of a plain file that can be read are added to
    /// others, at most so many.
    /// At `Err` it cannot be looked at, or memory was refused.
    pub(crate) fn look(
        self,
        name: &[u8],
        most: usize,
        head: &mut Vec<u8>,
        log: &mut Log,
    ) -> Result<bool, FilesFault>
        ensures ok { IfOk result (λ is_there.
            log.new.acts ≡ log.old.acts ++ acts.looked name.now (seen_by is_there head.new.items) ∷ []) }
        ensures err { OnErr result (log.new.acts ≡ log.old.acts) }
    {
        let is_there = self.find(name, most, head)?;
        *log = log.then(&Note::Looked(name, is_there, head.as_slice()));
        Ok(is_there)
    }

    /// Whether anything has a name; the first bytes of a plain file are added to others. A link is no plain file, so
    /// that nothing that it leads to is written over.
    fn find(self, name: &[u8], most: usize, head: &mut Vec<u8>) -> Result<bool, FilesFault> {
        let path = self.path_of("", name)?;
        let found = match fs::symlink_metadata(self.rt, path.as_str()) {
            Ok(found) => found,
            Err(error) if error.kind() == ErrorKind::NotFound => return Ok(false),
            Err(error) => return Err(fault_of(&error)),
        };
        if !found.is_file() {
            return Ok(true);
        }
        match beginning(self.rt, path.as_str(), most, head) {
            Err(error) if error.kind() == ErrorKind::OutOfMemory => Err(FilesFault::Memory),
            _ => Ok(true),
        }
    }

    /// Adds the bytes of a plain file to others, at most so many, which is logged.
    /// At `Err` there is no plain file of this name, or it cannot be read, or memory was refused.
    pub(crate) fn read(
        self,
        name: &[u8],
        most: usize,
        bytes: &mut Vec<u8>,
        log: &mut Log,
    ) -> Result<(), FilesFault>
        ensures ok { OnOk result
            (log.new.acts ≡ log.old.acts ++ acts.read name.now bytes.new.items ∷ []) }
        ensures err { OnErr result (log.new.acts ≡ log.old.acts) }
    {
        self.fetch(name, most, bytes)?;
        *log = log.then(&Note::Read(name, bytes.as_slice()));
        self.offer(name);
        Ok(())
    }

    /// Adds the bytes of a plain file to others, at most so many.
    fn fetch(self, name: &[u8], most: usize, bytes: &mut Vec<u8>) -> Result<(), FilesFault> {
        let path = self.path_of("", name)?;
        match fs::metadata(self.rt, path.as_str()) {
            Ok(found) if found.is_file() => {}
            Ok(_) => return Err(FilesFault::File),
            Err(error) => return Err(fault_of(&error)),
        }
        match beginning(self.rt, path.as_str(), most, bytes) {
            Ok(()) => Ok(()),
            Err(error) => Err(fault_of(&error)),
        }
    }

    /// Writes a file under a name of its own, a dot before that of the file, and then gives it its name, so
    /// that an older file is whole or replaced, or set aside where a user types names. That is logged.
    /// At `Err` it cannot be written, and an older file is as it was; or memory was refused.
    pub(crate) fn write(self, name: &[u8], bytes: &[u8], log: &mut Log) -> Result<(), FilesFault>
        ensures ok { OnOk result
            (log.new.acts ≡ log.old.acts ++ acts.wrote name.now bytes.now ∷ []) }
        ensures err { OnErr result (log.new.acts ≡ log.old.acts) }
    {
        let path = self.path_of("", name)?;
        let beside = self.path_of(".", name)?;
        match self.replace(beside.as_str(), path.as_str(), name, bytes, log) {
            Ok(()) => Ok(()),
            Err(error) => {
                let _ = fs::remove_file(self.rt, beside.as_str());
                Err(fault_of(&error))
            }
        }
    }

    /// The path of a file in the folder, with something before its name.
    fn path_of(self, before: &str, name: &[u8]) -> Result<String, FilesFault> {
        let Ok(name) = str::from_utf8(name) else {
            return Err(FilesFault::File);
        };
        let folder = self.name;
        match format!(in self.rt.alloc(); "{folder}/{before}{name}") {
            Ok(path) => Ok(path),
            Err(_) => Err(FilesFault::Memory),
        }
    }
}

impl Folder<'_> {
    /// Writes a file beside another, and puts it in its place, which is logged.
    fn replace(
        self,
        beside: &str,
        path: &str,
        name: &[u8],
        bytes: &[u8],
        log: &mut Log,
    ) -> io::Result<()>
        ensures ok { OnOk result
            (log.new.acts ≡ log.old.acts ++ acts.wrote name.now bytes.now ∷ []) }
        ensures err { OnErr result (log.new.acts ≡ log.old.acts) }
    {
        let beside = Beside::write(self.rt, beside, bytes)?;
        let aside = self.set_aside(path, name)?;
        match beside.put(self.rt, path, name, log) {
            Ok(()) => {
                self.tell(path, name, aside);
                Ok(())
            }
            Err(error) => {
                self.put_back(path, aside);
                Err(error)
            }
        }
    }

    /// Gives an older file of this path the first name with a number that nothing has, where a user types names. It
    /// answers the path that it has now; `None` where there was none.
    fn set_aside(self, path: &str, name: &[u8]) -> io::Result<Option<String>> {
        if self.named.is_none() || !is_there(self.rt, path)? {
            return Ok(None);
        }
        for number in 2..MOST_ASIDE {
            let aside = self.path_aside(name, number)?;
            if !is_there(self.rt, aside.as_str())? {
                fs::rename(self.rt, path, aside.as_str())?;
                return Ok(Some(aside));
            }
        }
        Err(io::Error::from(ErrorKind::AlreadyExists))
    }

    /// The path of a file that is set aside, by its name and a number.
    fn path_aside(self, name: &[u8], number: u32) -> io::Result<String> {
        let stem = name.strip_suffix(ENDING).unwrap_or(name);
        let most = stem.len().min(LETTERS_BEFORE_NUMBER);
        let Ok(stem) = str::from_utf8(&stem[..most]) else {
            return Err(io::Error::from(ErrorKind::InvalidInput));
        };
        let folder = self.name;
        let path = format!(in self.rt.alloc(); "{folder}/{stem}-{number}.qzl")?;
        Ok(path)
    }

    /// Gives a file that was set aside its path again, if one was.
    fn put_back(self, path: &str, aside: Option<String>) {
        if let Some(aside) = aside {
            let _ = fs::rename(self.rt, aside.as_str(), path);
        }
    }

    /// Tells of the file of a game that was saved, and of the one that was set aside for it, if there was one.
    fn tell(self, path: &str, name: &[u8], aside: Option<String>) {
        let Some(named) = self.named else {
            return;
        };
        named.offer_file(name);
        let older = match aside {
            Some(aside) => String::from_str(self.rt.alloc(), name_in(aside.as_str())).ok(),
            None => None,
        };
        if let Ok(path) = String::from_str(self.rt.alloc(), path) {
            named.save(path, older);
        }
    }

    /// Offers the name of a file from now on, where a user types names.
    fn offer(self, name: &[u8]) {
        if let Some(named) = self.named {
            named.offer_file(name);
        }
    }
}

/// The name of a saved game by the path of its file.
fn name_in(path: &str) -> &str {
    let file = match path.rsplit_once('/') {
        Some((_, file)) => file,
        None => path,
    };
    file.strip_suffix(".qzl").unwrap_or(file)
}

/// Whether anything has a path.
fn is_there(rt: &HostRuntime, path: &str) -> io::Result<bool> {
    match fs::symlink_metadata(rt, path) {
        Ok(_) => Ok(true),
        Err(error) if error.kind() == ErrorKind::NotFound => Ok(false),
        Err(error) => Err(error),
    }
}

/// Adds the first bytes of a file to others, at most so many.
fn beginning(rt: &HostRuntime, path: &str, most: usize, bytes: &mut Vec<u8>) -> io::Result<()> {
    File::open(rt, path)?.take(most as u64).read_to_end(bytes)?;
    Ok(())
}

/// A file that was written beside another, and has its bytes on the disk.
#[derive(Drop)]
struct Beside<'a> {
    path: &'a str,
    bytes: &'a [u8],
}

impl<'a> Beside<'a> {
    /// Writes it, over what a program that was ended left there. No other function makes one.
    fn write(rt: &HostRuntime, path: &'a str, bytes: &'a [u8]) -> io::Result<Beside<'a>>
        ensures { IfOk result (λ beside. beside.bytes.now ≡ bytes.now) }
    {
        let _ = fs::remove_file(rt, path);
        let mut file = OpenOptions::new()
            .write(true)
            .create_new(true)
            .open(rt, path)?;
        file.write_all(bytes)?;
        file.sync_all()?;
        Ok(Beside { path, bytes })
    }

    /// Puts it in the place of the other, which is logged. No other function logs that a file was written.
    fn put(self, rt: &HostRuntime, path: &str, name: &[u8], log: &mut Log) -> io::Result<()>
        ensures ok { OnOk result
            (log.new.acts ≡ log.old.acts ++ acts.wrote name.now self.entry.bytes.now ∷ []) }
        ensures err { OnErr result (log.new.acts ≡ log.old.acts) }
    {
        fs::rename(rt, self.path, path)?;
        *log = log.then(&Note::Wrote(name, self.bytes));
        Ok(())
    }
}

/// What an error of the system is for the story.
fn fault_of(error: &io::Error) -> FilesFault {
    match error.kind() {
        ErrorKind::OutOfMemory => FilesFault::Memory,
        _ => FilesFault::File,
    }
}
