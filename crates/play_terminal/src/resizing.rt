//! A session that is opened anew on a screen that has got another size.

ghost use Rattle.std.specs.Prelude.{◌≡◌, ◌≤◌, length, IfSome};

use crate::screening::told_of;
use screen::{Shared, Size};
use std::alloc::Global;
use std::cell::Cell;
use std::io::{self, Read};

/// Whether the screen of a session that is kept has got another size, so that the session is to be opened anew.
#[derive(Drop)]
pub struct Resizing {
    /// Whether it is to be opened anew.
    is_asked: Cell<bool>,

    /// The size that the screen has got last; `None` where it has the one with which it began.
    size: Cell<Option<Size>>,

    /// What was typed since, and is neither kept nor answered yet.
    line: Cell<Option<Vec<u8>>>,
}

impl Resizing {
    /// The screen has the size with which it began.
    pub fn new() -> Resizing {
        Resizing {
            is_asked: Cell::new(false),
            size: Cell::new(None),
            line: Cell::new(None),
        }
    }

    /// Whether the session is to be opened anew.
    pub fn is_asked(&self) -> bool {
        self.is_asked.get()
    }

    /// Notes that it is opened anew.
    pub fn begin(&self) {
        self.is_asked.set(false);
    }

    /// How many columns and rows the story is to be told that its screen has, if that has got another size.
    pub fn told(&self) -> Option<(u8, u8)> {
        Some(told_of(self.size.get()?))
    }

    /// The size of the screen, which began with this one.
    pub(crate) fn size(&self, first: Size) -> Size {
        self.size.get().unwrap_or(first)
    }

    /// Asks to open the session anew, of which this was typed on a screen of another size.
    fn ask(&self, size: Size, line: Vec<u8>) {
        self.size.set(Some(size));
        self.line.set(Some(line));
        self.is_asked.set(true);
    }

    /// Whether something was typed that is not answered yet.
    pub(crate) fn has_line(&self) -> bool {
        let line = self.line.replace(None);
        let is_there = line.is_some();
        self.line.set(line);
        is_there
    }

    /// Puts what was typed and is not answered yet at the beginning of bytes, and says how many bytes that are.
    fn give(&self, room: &mut [u8]) -> Option<usize>
        ensures same { length room.new ≡ length room.old }
        ensures within { IfSome result (λ count. count ≤ length room.new) }
    {
        match self.line.replace(None) {
            Some(line) => Some(put_line(&line, room)),
            None => None,
        }
    }
}

/// What is typed on a screen. Once that has got another size, what is typed next is set aside, and the input ends.
#[derive(Drop)]
pub(crate) struct UntilResized<'a, R> {
    alloc: Global,
    reader: R,
    shared: &'a Shared<'a>,

    /// The size of the screen when the session was opened.
    size: Size,

    /// Where the end is asked for; nothing where the story is not told of sizes.
    resizing: Option<&'a Resizing>,
}

impl<'a, R: Read> UntilResized<'a, R> {
    /// What a reader gives.
    pub(crate) fn new(
        alloc: Global,
        reader: R,
        shared: &'a Shared<'a>,
        resizing: Option<&'a Resizing>,
    ) -> UntilResized<'a, R> {
        UntilResized {
            alloc,
            reader,
            shared,
            size: shared.size.get(),
            resizing,
        }
    }

    /// Whether the screen of a story that goes on has got another size.
    fn is_resized(&self) -> bool {
        self.shared.size.get() != self.size && !self.shared.is_over.get()
    }
}

impl<R: Read> Read for UntilResized<'_, R> {
    fn read(&mut self, buf: &mut [u8]) -> io::Result<usize> {
        let Some(resizing) = self.resizing else {
            return self.reader.read(buf);
        };
        if resizing.is_asked() {
            return Ok(0);
        }
        if let Some(count) = resizing.give(buf) {
            return Ok(count);
        }
        let count = self.reader.read(buf)?;
        if count == 0 || !self.is_resized() {
            return Ok(count);
        }
        match Vec::from_slice(self.alloc, &buf[..count]) {
            Ok(line) => {
                resizing.ask(self.shared.size.get(), line);
                Ok(0)
            }
            Err(_) => Ok(count),
        }
    }
}

/// Puts a line at the beginning of bytes, as far as it has room, and says how many bytes that are.
fn put_line(line: &[u8], room: &mut [u8]) -> usize
    ensures same { length room.new ≡ length room.old }
    ensures within { result ≤ length room.new }
{
    let count = line.len().min(room.len());
    room[..count].copy_from_slice(&line[..count]);
    count
}
