//! A reader that keeps what is typed.

ghost use Rattle.std.specs.Prelude.{◌≡◌, ◌<◌, ◌≤◌, [], drop, length, take, OnOk};
ghost use Rattle.std.specs.Io.KnownBytes.{Appends, IsAtEnd, Keeps};
ghost use Rattle.session_keeping.specs.Lines.{added, is_begun_after, marked};
ghost use Rattle.session_keeping.specs.Waiting.{left_of};

use crate::lines::mark;
use std::alloc::Global;
use std::io::{self, Read, Write};

/// How many bytes are read at once.
const CHUNK: usize = 4_096;

/// A reader that keeps each line in a file, and flushes the file, before it gives the line on, one line at
/// a time. A last line without its end is ended in the file.
#[derive(Drop)]
pub struct Typed<'a, R, W> {
    reader: R,

    /// What was read last.
    read: Vec<u8>,

    /// How many bytes of it were given on.
    given: usize,

    /// The file.
    log: Log<'a, W>,
}

impl<'a, R: Read, W: Write> Typed<'a, R, W> {
    /// What a reader gives is kept in a file, which ends with a whole line. It is noted where that
    /// failed, so that reading failed.
    pub fn new(alloc: Global, reader: R, file: W, is_broken: &'a mut bool) -> Typed<'a, R, W>
        ensures reader { result.reader ≡ reader }
        ensures nothing { result.read.items ≡ [] }
    {
        Typed {
            reader,
            read: Vec::new(alloc),
            given: 0,
            log: Log::new(alloc, file, is_broken),
        }
    }

    /// What was read and not given on.
    fn waiting(&self) -> &[u8]
        ensures { result.now ≡ drop self.now.given self.now.read.items }
    {
        if self.given < self.read.len() {
            &self.read[self.given..]
        } else {
            &[]
        }
    }

    /// Reads what is typed next, where all was given on.
    fn wait(&mut self) -> io::Result<()>
        ensures left { Keeps (left_of self.old.given self.old.read.items (R.remaining self.old.reader))
            (left_of self.new.given self.new.read.items (R.remaining self.new.reader)) }
        ensures within { OnOk result (self.new.given ≤ length self.new.read.items) }
        ensures end { OnOk result (length (drop self.new.given self.new.read.items) ≡ 0
            → IsAtEnd (R.remaining self.new.reader)) }
    {
        if self.given < self.read.len() {
            return Ok(());
        }
        self.given = 0;
        self.read.clear();
        self.read.resize(CHUNK, 0)?;
        match self.reader.read(&mut self.read) {
            Ok(count) => {
                self.read.truncate(count);
                Ok(())
            }
            Err(error) => {
                self.read.clear();
                Err(error)
            }
        }
    }
}

/// How many bytes the first line of a text has, with its end; no more than there is room for.
fn line_length(text: &[u8], room: usize) -> usize
    ensures within { result ≤ length text.now }
    ensures room { result ≤ room }
    ensures end { result ≡ 0 → 0 < room → length text.now ≡ 0 }
{
    let most = text.len().min(room);
    for at in 0..most {
        if text[at] == b'\n' {
            return at + 1;
        }
    }
    most
}

/// Copies the first line of a text, with its end, as far as there is room. Says how many bytes.
pub(crate) fn copy_line(text: &[u8], room: &mut [u8]) -> usize
    ensures within { result ≤ length text.now }
    ensures room { result ≤ length room.new }
    ensures same { take result room.new ≡ take result text.now }
    ensures end { result ≡ 0 → 0 < length room.new → length text.now ≡ 0 }
{
    let count = line_length(text, room.len());
    room[..count].copy_from_slice(&text[..count]);
    count
}

impl<R: Read, W: Write> Read for Typed<'_, R, W> {
    ghost remaining = { λ typed. left_of typed.given typed.read.items (R.remaining typed.reader) };

    fn read(&mut self, buf: &mut [u8]) -> io::Result<usize> {
        self.wait()?;
        let count = copy_line(self.waiting(), buf);
        self.log.keep(&buf[..count], self.read.is_empty())?;
        self.given += count;
        Ok(count)
    }
}

/// The end of a session's file.
#[derive(Drop)]
struct Log<'a, W> {
    file: W,

    /// Whether a line is begun in the file.
    is_begun: bool,

    /// What was added last.
    added: Vec<u8>,

    /// Whether it could not be added.
    is_broken: &'a mut bool,
}

impl<'a, W: Write> Log<'a, W> {
    /// The end of a file that ends with a whole line. It is noted where nothing can be added.
    fn new(alloc: Global, file: W, is_broken: &'a mut bool) -> Log<'a, W> {
        Log {
            file,
            is_begun: false,
            added: Vec::new(alloc),
            is_broken,
        }
    }

    /// Keeps typed bytes, or after the last the end of its line, if it has none. Notes where that fails.
    fn keep(&mut self, typed: &[u8], is_end: bool) -> io::Result<()>
        ensures { OnOk result (Appends (W.contents self.old.file) (W.contents self.new.file)
            (added self.old.is_begun typed.now is_end)) }
    {
        let kept = if !is_end {
            self.add(typed)
        } else if self.is_begun {
            self.add(b"\n")
        } else {
            Ok(())
        };
        if kept.is_err() {
            *self.is_broken = true;
        }
        kept
    }

    /// Adds bytes that were typed to the file, with their marks, and flushes it.
    fn add(&mut self, typed: &[u8]) -> io::Result<()>
        ensures kept { OnOk result (Appends (W.contents self.old.file) (W.contents self.new.file)
            (marked self.old.is_begun typed.now)) }
        ensures begun { OnOk result (self.new.is_begun ≡ is_begun_after self.old.is_begun typed.now) }
    {
        self.added.clear();
        let is_begun = mark(self.is_begun, typed, &mut self.added)?;
        self.file.write_all(&self.added)?;
        self.file.flush()?;
        self.is_begun = is_begun;
        Ok(())
    }
}
