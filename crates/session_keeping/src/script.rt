//! The file of a story's transcript.

use crate::appender::Appender;
use crate::keeping::Kept;
use crate::refusal::refuse;
use crate::unread::Unread;
use std::fs::{self, File, OpenOptions};
use std::io::{self, ErrorKind};
use std::os::unix::fs::MetadataExt;
use std::process::ExitCode;
use terminal::OneLine;
use terminal::play::Words;

/// Refuses a file to which no transcript can be added, and one that the command line names for something
/// else. One that is not there is made.
/// At `Err` it is the status with which the program ends, which has said why.
pub fn check_script(rt: &HostRuntime, name: &str, words: &Words<'_>) -> Result<(), ExitCode> {
    if is_in_use(rt, name, words) {
        return Err(refuse_used(rt, name));
    }
    match opened_plain(rt, name) {
        Ok(_) if is_in_use(rt, name, words) => Err(refuse_used(rt, name)),
        Ok(_) => Ok(()),
        Err(why) => Err(refuse(rt, format_args!("cannot write {}{why}", OneLine(name)))),
    }
}

/// Whether a name leads to the story, to its map or to the file of the session.
fn is_in_use(rt: &HostRuntime, name: &str, words: &Words<'_>) -> bool {
    is_used(rt, name, Some(words.story))
        || is_used(rt, name, words.map)
        || is_used(rt, name, words.session)
}

/// Whether a name leads to the file that another names.
fn is_used(rt: &HostRuntime, name: &str, used: Option<&str>) -> bool {
    match used {
        Some(used) => used == name || is_same(rt, used, name),
        None => false,
    }
}

/// Whether two names lead to one file.
fn is_same(rt: &HostRuntime, name: &str, other: &str) -> bool {
    match (fs::metadata(rt, name), fs::metadata(rt, other)) {
        (Ok(found), Ok(other)) => (found.dev(), found.ino()) == (other.dev(), other.ino()),
        _ => false,
    }
}

/// Says that a file has another use.
fn refuse_used(rt: &HostRuntime, name: &str) -> ExitCode {
    refuse(
        rt,
        format_args!("cannot write {}: it is in use", OneLine(name)),
    )
}

/// Opens a file as `opened` does, if it is a plain one or none.
fn opened_plain(rt: &HostRuntime, name: &str) -> Result<File, Unread> {
    match fs::metadata(rt, name) {
        Ok(found) if found.is_dir() => return Err(Unread::Directory),
        Ok(found) if !found.is_file() => return Err(Unread::Irregular),
        Err(error) if error.kind() != ErrorKind::NotFound => return Err(Unread::of(&error)),
        _ => {}
    }
    match opened(rt, name) {
        Ok(file) => Ok(file),
        Err(error) => Err(Unread::of(&error)),
    }
}

/// Opens a file to which bytes are added at its end, and makes it where there is none.
fn opened(rt: &HostRuntime, name: &str) -> io::Result<File> {
    OpenOptions::new().append(true).create(true).open(rt, name)
}

/// A file to which the transcript of a story is added. Nothing in it is ever cut.
#[derive(Drop)]
pub struct Script<'a> {
    rt: &'a HostRuntime,

    /// Its name.
    name: &'a str,

    /// The file, if it could be opened.
    end: Appender<File>,
}

impl<'a> Script<'a> {
    /// The file that the command line names for the transcript, if it names one. A session that does not go
    /// on begins it with what the opening of the story adds.
    pub fn of(
        rt: &'a HostRuntime,
        words: Words<'a>,
        opening: &[u8],
        kept: &Option<Kept>,
    ) -> Option<Script<'a>> {
        let mut script = Script::new(rt, words.transcript?);
        let is_new = match kept {
            Some(kept) => kept.is_new,
            None => true,
        };
        if is_new {
            script.add(opening);
        }
        Some(script)
    }

    /// The file of a name.
    fn new(rt: &'a HostRuntime, name: &'a str) -> Script<'a> {
        let file = opened(rt, name).ok();
        let is_missing = file.is_none();
        let script = Script {
            rt,
            name,
            end: Appender::new(file),
        };
        if is_missing {
            script.tell_end();
        }
        script
    }

    /// Adds bytes at the end for good. Where that fails it is said once, and nothing more is written.
    pub fn add(&mut self, bytes: &[u8]) {
        if self.end.add(bytes) {
            self.tell_end();
        }
    }

    /// Says that no more is written.
    fn tell_end(&self) {
        let shown = OneLine(self.name);
        let _ = eprintln!(self.rt; "play: cannot write {shown}: the transcript ends here");
    }
}
