//! The file in which a session is kept.

ghost use Rattle.std.specs.Prelude.{IfOk};
ghost use Rattle.session_keeping.specs.Played.{ArePlayed};
ghost use Rattle.terminal.specs.Range.{IsInRange};

use crate::answers::{Answer, answers_in};
use crate::heading::{Heading, heading_in, heading_of};
use crate::lines::{LinesFault, lines_in, taken_in, whole_length};
use crate::options::{Begun, options_in, options_of};
use crate::refusal::refuse;
use crate::seed::seeded;
use crate::story::story_line;
use crate::unread::{Unread, read_whole};
use std::alloc::{AllocError, Global};
use std::collections::VecDeque;
use std::fmt::Display;
use std::fs::{self, File, OpenOptions, TryLockError};
use std::io::{self, ErrorKind, Write};
use std::process::ExitCode;
use terminal::OneLine;
use terminal::play::Words;

/// How many lines the heading of a session's file has.
const HEADING_LINES: usize = 3;

/// What is said where memory is refused.
const NO_MEMORY: &str = "memory was refused";

/// The file in which a session is to be kept.
#[derive(Drop)]
pub struct Keeping<'a> {
    name: &'a str,

    /// The file, if there is one already.
    file: Option<File>,

    /// What is in it; nothing where the session is new.
    text: Vec<u8>,

    /// The line of the story that is played.
    story: String,
}

/// A session's file, to which lines are added, and what was typed before.
#[derive(Drop)]
pub struct Kept {
    pub file: File,
    pub typed: Vec<u8>,

    /// What the story was given for names of saved games.
    pub answers: VecDeque<Answer>,

    /// Whether the session does not go on: it begins here.
    pub is_new: bool,
}

impl<'a> Keeping<'a> {
    /// Opens a session's file and reads it, where there is one, or else says why not.
    pub fn open(rt: &HostRuntime, name: &'a str) -> Result<Keeping<'a>, ExitCode> {
        let (file, text) = match existing(rt, name) {
            Ok(Some(file)) => (Some(only_here(rt, name, file)?), text_in(rt, name)),
            Ok(None) => (None, Ok(Vec::new(rt.alloc()))),
            Err(why) => {
                let shown = OneLine(name);
                return Err(refuse(rt, format_args!("cannot use {shown}{why}")));
            }
        };
        match text {
            Ok(text) => Ok(Keeping {
                name,
                file,
                text,
                story: String::new(rt.alloc()),
            }),
            Err(status) => Err(status),
        }
    }

    /// What is played: by the command line, or by the options of a session that goes on.
    pub fn settle(&self, rt: &HostRuntime, words: Words<'a>) -> Result<Words<'a>, ExitCode>
        requires { IsInRange words }
        ensures { IfOk result IsInRange }
    {
        if self.text.is_empty() {
            return Ok(seeded(rt, words));
        }
        let heading = self.heading(rt)?;
        let Some(settled) = options_in(rt.alloc(), &words, heading.options) else {
            return Err(self.malformed(rt, HEADING_LINES));
        };
        match Begun::against(&words, &settled) {
            Some(begun) => Err(unused(rt, self.name, begun)),
            None => Ok(settled),
        }
    }

    /// The same for a story, which must be that of a session that goes on.
    pub fn with_story(self, rt: &HostRuntime, story: &[u8]) -> Result<Keeping<'a>, ExitCode> {
        let Ok(line) = story_line(rt.alloc(), story) else {
            return Err(unused(rt, self.name, NO_MEMORY));
        };
        if !self.text.is_empty() && self.heading(rt)?.story != line.as_bytes() {
            return Err(unused(rt, self.name, "it is the session of another story"));
        }
        Ok(Keeping {
            story: line,
            ..self
        })
    }

    /// The session played as these words say: what was typed in it, and its file. A new one gets its heading.
    pub fn begin(mut self, rt: &HostRuntime, words: Words<'_>) -> Result<Kept, ExitCode> {
        let file = match self.file.take() {
            Some(file) => file,
            None => made(rt, self.name)?,
        };
        let is_new = self.text.is_empty();
        let played = if is_new {
            self.begin_new(rt, &file, &words)
        } else {
            self.go_on(rt, &file)
        };
        match played {
            Ok((typed, answers)) => Ok(Kept {
                file,
                typed,
                answers,
                is_new,
            }),
            Err(status) => Err(status),
        }
    }

    /// Writes the heading of a new session into its file.
    fn begin_new(
        &self,
        rt: &HostRuntime,
        mut file: &File,
        words: &Words<'_>,
    ) -> Result<Played, ExitCode> {
        match self.heading_bytes(rt, words) {
            Ok(heading) if file.write_all(&heading).is_ok() => {
                Ok((Vec::new(rt.alloc()), VecDeque::new(rt.alloc())))
            }
            _ => Err(unwritten(rt, self.name)),
        }
    }

    /// The heading of a new session.
    fn heading_bytes(&self, rt: &HostRuntime, words: &Words<'_>) -> Result<Vec<u8>, AllocError> {
        let options = options_of(rt.alloc(), words)?;
        heading_of(rt.alloc(), self.story.as_str(), options.as_str())
    }

    /// Reads what was typed in a session. A line that was not whole is dropped from the file.
    fn go_on(&self, rt: &HostRuntime, file: &File) -> Result<Played, ExitCode> {
        let lines = self.heading(rt)?.lines;
        let whole = whole_length(lines);
        let played = match played_in(rt.alloc(), &lines[..whole]) {
            Ok(played) => played,
            Err(LinesFault::Unmarked(number)) => {
                return Err(self.malformed(rt, number.saturating_add(HEADING_LINES)));
            }
            Err(LinesFault::Memory) => return Err(unused(rt, self.name, NO_MEMORY)),
        };
        match self.drop_end(rt, file, lines.len() - whole) {
            Ok(()) => Ok(played),
            Err(status) => Err(status),
        }
    }

    /// Drops so many bytes at the end of the file, a line that was not whole, if there are any.
    fn drop_end(&self, rt: &HostRuntime, file: &File, lost: usize) -> Result<(), ExitCode> {
        if lost == 0 {
            return Ok(());
        }
        let length = self.text.len().saturating_sub(lost);
        if file.set_len(length as u64).is_err() {
            return Err(unwritten(rt, self.name));
        }
        let shown = OneLine(self.name);
        let _ = eprintln!(rt; "play: the last line of {shown} was not whole and is dropped");
        Ok(())
    }

    /// The heading of the file, or else it is not used.
    fn heading(&self, rt: &HostRuntime) -> Result<Heading<'_>, ExitCode> {
        match heading_in(&self.text) {
            Ok(heading) => Ok(heading),
            Err(fault) => Err(unused(rt, self.name, fault.words())),
        }
    }

    /// Says that a line of the file is none of a session.
    fn malformed(&self, rt: &HostRuntime, number: usize) -> ExitCode {
        unused(
            rt,
            self.name,
            format_args!("its line {number} is malformed"),
        )
    }
}

/// What was typed in lines of play, and what the story was given for names.
type Played = (Vec<u8>, VecDeque<Answer>);

/// What was played in these lines, without those that were not taken for want of memory.
fn played_in(alloc: Global, lines: &[u8]) -> Result<Played, LinesFault>
    ensures { IfOk result (λ played. ArePlayed lines.now played.0.items played.1.items) }
{
    let taken = taken_in(alloc, lines)?;
    let typed = lines_in(alloc, &taken)?;
    let answers = answers_in(alloc, &taken)?;
    Ok((typed, answers))
}

/// Drops the last line of a session's file, a name that was kept and not answered, and says so.
pub fn drop_last(rt: &HostRuntime, name: &str) -> Result<(), ExitCode> {
    let shown = OneLine(name);
    match without_last(rt, name) {
        Ok(()) => {
            let _ = eprintln!(rt;
                "play: the last line of {shown}, a name, was not answered and is dropped"
            );
            Ok(())
        }
        Err(_) => Err(unwritten(rt, name)),
    }
}

/// Cuts the last line from a file.
fn without_last(rt: &HostRuntime, name: &str) -> io::Result<()> {
    let Some(text) = read_whole(rt, name)? else {
        return Ok(());
    };
    let last = text.len().saturating_sub(1);
    let length = whole_length(&text[..last]);
    let file = OpenOptions::new().write(true).open(rt, name)?;
    file.set_len(length as u64)
}

/// Says why a session's file is not used.
pub fn unused<W: Display + Drop>(rt: &HostRuntime, name: &str, why: W) -> ExitCode {
    refuse(rt, format_args!("cannot use {}: {why}", OneLine(name)))
}

/// Says that a session's file cannot be written.
fn unwritten(rt: &HostRuntime, name: &str) -> ExitCode {
    refuse(rt, format_args!("cannot write {}", OneLine(name)))
}

/// The file of a name, to be read and added to; `None` where there is none.
fn existing(rt: &HostRuntime, name: &str) -> Result<Option<File>, Unread> {
    match fs::metadata(rt, name) {
        Ok(found) if found.is_dir() => return Err(Unread::Directory),
        Ok(found) if !found.is_file() => return Err(Unread::Irregular),
        Ok(_) => {}
        Err(error) if error.kind() == ErrorKind::NotFound => return Ok(None),
        Err(error) => return Err(Unread::of(&error)),
    }
    match OpenOptions::new().read(true).append(true).open(rt, name) {
        Ok(file) => Ok(Some(file)),
        Err(error) => Err(Unread::of(&error)),
    }
}

/// What is in a session's file.
fn text_in(rt: &HostRuntime, name: &str) -> Result<Vec<u8>, ExitCode> {
    match read_whole(rt, name) {
        Ok(Some(text)) => Ok(text),
        Ok(None) => Err(unused(rt, name, "it is larger than 67,108,864 bytes")),
        Err(_) => Err(refuse(rt, format_args!("cannot use {}", OneLine(name)))),
    }
}

/// The file of a new session.
fn made(rt: &HostRuntime, name: &str) -> Result<File, ExitCode> {
    match OpenOptions::new()
        .append(true)
        .create_new(true)
        .open(rt, name)
    {
        Ok(file) => only_here(rt, name, file),
        Err(error) => {
            let why = Unread::of(&error);
            Err(refuse(rt, format_args!("cannot write {}{why}", OneLine(name))))
        }
    }
}

/// A file that no other process plays on: of two that take over one lock, only one gets it. Where the
/// system has no such locks, the lock beside the file must do.
fn only_here(rt: &HostRuntime, name: &str, file: File) -> Result<File, ExitCode> {
    match file.try_lock() {
        Err(TryLockError::WouldBlock) => Err(unused(rt, name, "another process plays on it")),
        Ok(()) | Err(TryLockError::Error(_)) => Ok(file),
    }
}
