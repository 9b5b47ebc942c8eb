//! The transcript as a terminal shows it.

ghost use Rattle.std.specs.Prelude.{◌≡◌, [], false, true, OnOk, Some};
ghost use Rattle.std.specs.Io.{WritesAtMost};
ghost use Rattle.std.specs.Io.KnownBytes.{Appends, Keeps, WriteAppends};
ghost use Rattle.play_terminal.specs.Shown.{ShowsPlain, is_plain_byte, is_plain_text};

use std::alloc::Global;
use std::io::{self, Write};
use std::str;
use terminal::{Lines, Told, mark_length};

/// A writer that passes on what it is given. To a terminal it shows characters that would turn the
/// direction of what is written, or hide in it, by their numbers.
#[derive(Drop)]
pub struct Screen<W> {
    writer: W,
    alloc: Global,

    /// Whether the writer writes to a terminal.
    is_terminal: bool,

    /// All that was written.
    told: Told,
}

impl<W: Write> Screen<W> {
    /// A writer that passes on to another, which writes to a terminal or not.
    pub fn new(alloc: Global, writer: W, is_terminal: bool) -> Screen<W>
        ensures writer { result.writer ≡ writer }
        ensures told { result.told.bytes ≡ [] }
    {
        Screen {
            writer,
            alloc,
            is_terminal,
            told: Told::new(),
        }
    }
}

impl<W: Write> Write for Screen<W> {
    ghost contents = { λ screen. Some screen.told.bytes };

    /// Passes bytes on as they are, or to a terminal as it shows them.
    fn write(&mut self, buf: &[u8]) -> io::Result<usize>
        ensures bound { WritesAtMost result buf.now }
        ensures bytes { WriteAppends (Some self.old.told.bytes) (Some self.new.told.bytes) result buf.now }
        ensures passed { self.old.is_terminal ≡ false
            → WriteAppends (W.contents self.old.writer) (W.contents self.new.writer) result buf.now }
        ensures shown { self.old.is_terminal ≡ true
            → ShowsPlain (W.contents self.old.writer) (W.contents self.new.writer) buf.now result }
    {
        if self.is_terminal {
            show_any(self.alloc, &mut self.writer, buf)?;
            self.told.add(buf);
            return Ok(buf.len());
        }
        let count = self.writer.write(buf)?;
        self.told.add(&buf[..count]);
        Ok(count)
    }

    fn flush(&mut self) -> io::Result<()>
        ensures bytes { Keeps (Some self.old.told.bytes) (Some self.new.told.bytes) }
        ensures passed { Keeps (W.contents self.old.writer) (W.contents self.new.writer) }
    {
        self.writer.flush()
    }
}

/// Writes a text as a terminal shows it. One of printing characters of ASCII and ends of lines is written as it is.
/// At `Err` it is the error by which the writer fails, or want of memory.
fn show_any<W: Write>(alloc: Global, writer: &mut W, text: &[u8]) -> io::Result<()>
    ensures { is_plain_text text.now ≡ true
        → OnOk result (Appends (W.contents writer.old) (W.contents writer.new) text.now) }
{
    if is_plain_text(text) {
        return writer.write_all(text);
    }
    show(alloc, writer, text)
}

/// Whether a text has only printing characters of ASCII and ends of lines.
fn is_plain_text(mut text: &[u8]) -> bool
    ensures { result ≡ is_plain_text text.entry.now }
{
    while let [byte, rest @ ..] = text {
        if !is_plain_byte(*byte) {
            return false;
        }
        text = rest;
    }
    true
}

/// Whether a byte is a printing character of ASCII, or ends a line.
fn is_plain_byte(byte: u8) -> bool
    ensures { result ≡ is_plain_byte byte }
{
    byte == b'\n' || (32 <= byte && byte <= 126)
}

/// Writes a text as a terminal shows it. Marks of styles, and bytes that are no text, are written as they are.
/// At `Err` it is the error by which the writer fails, or want of memory.
pub fn show<W: Write>(alloc: Global, writer: &mut W, text: &[u8]) -> io::Result<()> {
    let mut begun = 0usize;
    for at in 0..text.len() {
        let long = mark_length(&text[at..]);
        if long > 0 && begun <= at {
            show_part(alloc, writer, &text[begun..at])?;
            writer.write_all(&text[at..at + long])?;
            begun = at + long;
        }
    }
    show_part(alloc, writer, &text[begun..])
}

/// Writes a text without marks as a terminal shows it.
fn show_part<W: Write>(alloc: Global, writer: &mut W, text: &[u8]) -> io::Result<()> {
    match str::from_utf8(text) {
        Ok(lines) if !Lines(lines).are_plain() => {
            let shown = format!(in alloc; "{}", Lines(lines))?;
            writer.write_all(shown.as_bytes())
        }
        _ => writer.write_all(text),
    }
}
