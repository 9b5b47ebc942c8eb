//! Names of saved games that a user at a terminal types.

ghost use Rattle.std.specs.Prelude.{◌≡◌, ◌≤◌, ◌+◌, length};

use crate::safe_names::safe_name;
use session_keeping::Answer;
use std::cell::Cell;
use std::collections::VecDeque;
use std::io::{self, IsTerminal, Read};
use std::str;
use terminal::play::Words;

/// The line that cancels.
const CANCEL: &[u8] = b".";

/// How a command of the player begins.
const COMMAND: &[u8] = b"/";

/// How the file of a saved game ends.
const ENDING: &[u8] = b".qzl";

/// How the path of an open descriptor begins, which is the name of no story.
const DESCRIPTOR: &str = "/dev/fd/";

/// What a story is called whose file has no name.
const USUAL_NAME: &[u8] = b"game";

/// What a story is given where its file was written or read.
const DONE: u8 = 0;

/// What the reader of a terminal, the folder of saved games and what tells the user more tell each other of names.
#[derive(Drop)]
pub(crate) struct Named<'a> {
    rt: &'a HostRuntime,

    /// Whether the story asks for the name of a saved game.
    is_asked: Cell<bool>,

    /// The name that an empty line takes.
    offered: Cell<Option<Vec<u8>>>,

    /// Whether the user has not been told yet where a game is that has this name.
    is_new: Cell<bool>,

    /// The path of the game that was saved last, until the user is told.
    saved: Cell<Option<String>>,

    /// The name that the older game has which was set aside for it, until the user is told.
    older: Cell<Option<String>>,
}

impl<'a> Named<'a> {
    /// What is told of names in a story that is played as these words say, if its user types names at a terminal.
    pub(crate) fn of(rt: &'a HostRuntime, words: &Words<'_>) -> Option<Named<'a>> {
        if words.saves.is_none() || !rt.stdin().is_terminal() || !rt.stdout().is_terminal() {
            return None;
        }
        let named = Named {
            rt,
            is_asked: Cell::new(false),
            offered: Cell::new(None),
            is_new: Cell::new(true),
            saved: Cell::new(None),
            older: Cell::new(None),
        };
        named.offer(story_name(words.story));
        Some(named)
    }

    /// Notes whether the story asks for a name.
    pub(crate) fn note(&self, is_asked: bool) {
        self.is_asked.set(is_asked);
    }

    /// Offers the name that is made of these letters, from now on.
    fn offer(&self, letters: &[u8]) {
        let made = match safe_name(self.rt.alloc(), letters) {
            Ok(Some(name)) => Ok(Some(name)),
            _ => safe_name(self.rt.alloc(), USUAL_NAME),
        };
        if let Ok(Some(name)) = made {
            self.offered.set(Some(name));
        }
    }

    /// Offers the name of a file, from now on.
    pub(crate) fn offer_file(&self, file: &[u8]) {
        self.offer(file.strip_suffix(ENDING).unwrap_or(file));
    }

    /// Offers the last name by which a game was saved or restored, of lines that were typed and their answers.
    pub(crate) fn offer_last(&self, typed: &[u8], answers: &VecDeque<Answer>) {
        let mut last = None;
        for answer in answers {
            if is_done(&answer.given) {
                last = Some(answer.line);
            }
        }
        if let Some(number) = last {
            self.offer_file(line_at(typed, number));
        }
    }

    /// The name that is offered.
    fn offered_name(&self) -> Option<Vec<u8>> {
        let offered = self.offered.replace(None)?;
        let copy = safe_name(self.rt.alloc(), &offered);
        self.offered.set(Some(offered));
        copy.ok()?
    }

    /// Notes that a game was saved in the file of a path, for which an older one was set aside that has this name, or
    /// none.
    pub(crate) fn save(&self, path: String, older: Option<String>) {
        self.saved.set(Some(path));
        self.older.set(older);
    }

    /// Adds what is offered to a prompt, if the story asks for a name.
    pub(crate) fn add_offer(&self, prompt: &mut Vec<u8>) {
        if !self.is_asked.get() {
            return;
        }
        let Some(name) = self.offered_name() else {
            return;
        };
        let Ok(name) = str::from_utf8(&name) else {
            return;
        };
        if let Ok(offer) = format!(in self.rt.alloc(); "[{name}] ") {
            let _ = prompt.extend_from_slice(offer.as_bytes());
        }
    }

    /// What the user is to be told of the game that was saved last, once: the path of its file, if that is new to the
    /// user, and the name of the older one that was set aside for it.
    pub(crate) fn news(&self) -> (Option<String>, Option<String>) {
        let saved = self.saved.replace(None);
        let older = self.older.replace(None);
        if saved.is_some() && self.is_new.replace(false) {
            (saved, older)
        } else {
            (None, older)
        }
    }

    /// The line that the story is given for a typed one; `None` where that is the typed one.
    fn line_for(&self, typed: &[u8]) -> Option<Vec<u8>> {
        if typed.starts_with(COMMAND) {
            return None;
        }
        if typed == CANCEL {
            return Some(Vec::new(self.rt.alloc()));
        }
        if is_blank(typed) {
            return self.offered_name();
        }
        let name = safe_name(self.rt.alloc(), typed).ok()??;
        if name.as_slice() != typed {
            self.is_new.set(true);
        }
        Some(name)
    }

    /// Puts the name that is given for a typed line in its place, which ends the first bytes, as many as this number. It
    /// answers how many bytes there are now. What is no line alone stays.
    fn read_name(&self, room: &mut [u8], count: usize) -> usize
        requires { count ≤ length room.old }
        ensures same { length room.new ≡ length room.old }
        ensures within { result ≤ length room.new }
    {
        let Some(typed) = line_in(&room[..count]) else {
            return count;
        };
        let Some(line) = self.line_for(typed) else {
            return count;
        };
        if line.len() < room.len() {
            put_line(&line, room)
        } else {
            count
        }
    }
}

/// Whether what a story was given for a name says that its file was written or read.
fn is_done(given: &[u8]) -> bool {
    match given {
        [] => false,
        [number, ..] => *number == DONE,
    }
}

/// Puts a line and its end at the beginning of bytes, and says how many bytes that are.
fn put_line(line: &[u8], room: &mut [u8]) -> usize
    requires { length line.now + 1 ≤ length room.old }
    ensures same { length room.new ≡ length room.old }
    ensures within { result ≤ length room.new }
{
    let count = line.len();
    room[..count].copy_from_slice(line);
    room[count] = b'\n';
    count + 1
}

/// The line that bytes are, without its end; `None` where they are no whole line, or more than one.
fn line_in(bytes: &[u8]) -> Option<&[u8]> {
    let line = bytes.strip_suffix(b"\n")?;
    for byte in line {
        if *byte == b'\n' {
            return None;
        }
    }
    Some(line)
}

/// Whether a line has nothing but spaces.
fn is_blank(line: &[u8]) -> bool {
    for byte in line {
        if *byte != b' ' {
            return false;
        }
    }
    true
}

/// The line of a number, counted from 1, of whole lines; none where there are fewer.
fn line_at(lines: &[u8], number: usize) -> &[u8] {
    let mut begin = 0usize;
    let mut count = 1usize;
    for at in 0..lines.len() {
        if lines[at] == b'\n' {
            if count == number && begin <= at {
                return &lines[begin..at];
            }
            begin = at + 1;
            count = count.saturating_add(1);
        }
    }
    &[]
}

/// The letters of the name of a story whose file has this path, without the end of the name.
fn story_name(path: &str) -> &[u8] {
    if path.starts_with(DESCRIPTOR) {
        return USUAL_NAME;
    }
    let file = match path.rsplit_once('/') {
        Some((_, file)) => file,
        None => path,
    };
    match file.rsplit_once('.') {
        Some((name, _)) => name.as_bytes(),
        None => file.as_bytes(),
    }
}

/// A reader of lines that are typed at a terminal, each of them in a read of its own. Where the story asks for the name
/// of a saved game, it gives on the name for a file that is made of the line: of an empty one the name that is offered,
/// and of a dot alone the empty line, which cancels.
#[derive(Drop)]
pub(crate) struct Naming<'a, R> {
    reader: R,

    /// What is told of names, if some are typed at a terminal.
    named: Option<&'a Named<'a>>,
}

impl<'a, R: Read> Naming<'a, R> {
    /// The lines of a reader.
    pub(crate) fn new(reader: R, named: Option<&'a Named<'a>>) -> Naming<'a, R> {
        Naming { reader, named }
    }
}

impl<R: Read> Read for Naming<'_, R> {
    fn read(&mut self, buf: &mut [u8]) -> io::Result<usize> {
        let count = self.reader.read(buf)?;
        match self.named {
            Some(named) if named.is_asked.get() => Ok(named.read_name(buf, count)),
            _ => Ok(count),
        }
    }
}
