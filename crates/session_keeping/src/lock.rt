//! The lock of a session's file, so that no two processes play on one session.

use crate::refusal::refuse;
use crate::unread::Unread;
use std::fs::{self, File};
use std::io::{self, ErrorKind, Read, Write};
use std::process::ExitCode;
use std::str;
use terminal::OneLine;

/// The most bytes that are read of a lock, or of what the system says of a process.
const MOST_BYTES: u64 = 4_096;

/// How many words follow the name of a process before the time at which it began, in what the system
/// says of it (`proc(5)`, `/proc/PID/stat`).
const WORDS_BEFORE_START: usize = 19;

/// The state of a process that has ended, and that its parent has not asked about yet.
const ZOMBIE: &str = "Z";

/// A file beside another, in which the number of the process is that holds it, and when that process
/// began. One whose process is gone locks nothing.
#[derive(Drop)]
pub struct Lock {
    /// The name of the lock.
    name: String,
}

/// Who holds a lock that is there.
enum Holder {
    /// The process of this number, which runs.
    Running(String),

    /// Nobody: its process is gone.
    Gone,

    /// The file of its name is no lock.
    Foreign,
}

impl Lock {
    /// Locks a file, or says why it is not used.
    pub fn take(rt: &HostRuntime, file: &str) -> Result<Lock, ExitCode> {
        let shown = OneLine(file);
        let Ok(name) = format!(in rt.alloc(); "{file}.lock") else {
            return Err(refuse(rt, format_args!("cannot write {shown}.lock")));
        };
        match take_over(rt, name.as_str()) {
            Ok(Holder::Gone) => Ok(Lock { name }),
            Ok(Holder::Running(process)) => Err(refuse(
                rt,
                format_args!("cannot use {shown}: process {process} plays on it"),
            )),
            Ok(Holder::Foreign) => Err(refuse(
                rt,
                format_args!("cannot write {shown}.lock: it is no lock"),
            )),
            Err(error) => {
                let why = Unread::of(&error);
                Err(refuse(rt, format_args!("cannot write {shown}.lock{why}")))
            }
        }
    }

    /// Gives the file free.
    pub fn release(self, rt: &HostRuntime) {
        let _ = fs::remove_file(rt, self.name.as_str());
    }
}

/// Makes a lock, or takes over the one that is there, if its process is gone. Otherwise says who holds it.
fn take_over(rt: &HostRuntime, name: &str) -> io::Result<Holder> {
    let mut lock = match File::create_new(rt, name) {
        Ok(lock) => lock,
        Err(error) if error.kind() == ErrorKind::AlreadyExists => {
            match holder_of(rt, name)? {
                Holder::Gone => fs::remove_file(rt, name)?,
                holder => return Ok(holder),
            }
            File::create_new(rt, name)?
        }
        Err(error) => return Err(error),
    };
    sign(rt, &mut lock)?;
    Ok(Holder::Gone)
}

/// Writes into a lock that this process holds it.
fn sign(rt: &HostRuntime, lock: &mut File) -> io::Result<()> {
    let Some(said) = said_of(rt, "self") else {
        return Ok(());
    };
    let Some(process) = running_in(said.as_str()) else {
        return Ok(());
    };
    let Running { number, start } = process;
    let text = format!(in rt.alloc(); "{number} {start}\n")?;
    lock.write_all(text.as_bytes())
}

/// The process that holds the lock in a file. An empty one is of a process that was killed on the way.
fn holder_of(rt: &HostRuntime, name: &str) -> io::Result<Holder> {
    if !fs::symlink_metadata(rt, name)?.is_file() {
        return Ok(Holder::Foreign);
    }
    let text = read_text(rt, name)?;
    if !is_lock(text.as_str()) {
        return Ok(Holder::Foreign);
    }
    let mut words = text.as_str().split_ascii_whitespace();
    match words.next() {
        Some(number) => Ok(held_by(rt, number, words.next())),
        None => Ok(Holder::Gone),
    }
}

/// Whether a text has at most two words, each a number.
fn is_lock(text: &str) -> bool {
    let mut words = text.split_ascii_whitespace();
    let number = words.next().unwrap_or("0");
    let start = words.next().unwrap_or("0");
    is_number(number) && is_number(start) && words.next().is_none()
}

/// Who holds a lock that says the number of a process, and when it began if it says that.
fn held_by(rt: &HostRuntime, number: &str, start: Option<&str>) -> Holder {
    let Some(said) = said_of(rt, number) else {
        return Holder::Gone;
    };
    match running_in(said.as_str()) {
        Some(process) if start.unwrap_or(process.start) == process.start => {
            match String::from_str(rt.alloc(), process.number) {
                Ok(number) => Holder::Running(number),
                Err(_) => Holder::Gone,
            }
        }
        _ => Holder::Gone,
    }
}

/// Whether a word has digits alone.
fn is_number(word: &str) -> bool {
    word.bytes().all(|byte| byte.is_ascii_digit())
}

/// What the system says of a process, by its number; `None` where there is none.
fn said_of(rt: &HostRuntime, number: &str) -> Option<String> {
    let Ok(name) = format!(in rt.alloc(); "/proc/{number}/stat") else {
        return None;
    };
    read_text(rt, name.as_str()).ok()
}

/// A process that runs.
#[derive(Clone, Copy)]
struct Running<'a> {
    /// Its number.
    number: &'a str,

    /// When it began: two processes of one number began at different times.
    start: &'a str,
}

/// The process of which the system says this; `None` where it has ended.
fn running_in(said: &str) -> Option<Running<'_>> {
    let (number, _) = said.split_once(' ')?;
    let (_, after) = said.rsplit_once(") ")?;
    let (state, _) = after.split_once(' ')?;
    if state == ZOMBIE {
        return None;
    }
    let start = after.split(' ').nth(WORDS_BEFORE_START)?;
    Some(Running { number, start })
}

/// The beginning of a file that is text.
fn read_text(rt: &HostRuntime, name: &str) -> io::Result<String> {
    let mut text = String::new(rt.alloc());
    File::open(rt, name)?
        .take(MOST_BYTES)
        .read_to_string(&mut text)?;
    Ok(text)
}
