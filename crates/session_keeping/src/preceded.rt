//! A writer that begins with a text of its own.

ghost use Rattle.std.specs.Prelude.{◌≡◌, Some};
ghost use Rattle.session_keeping.specs.Preceded.{preceded_contents};

use std::io::{self, Write};

/// A writer that passes on what it is given, and before the first of it a text.
#[derive(Drop)]
pub struct Preceded<W> {
    writer: W,

    /// The text, until it is written.
    text: Option<String>,
}

impl<W: Write> Preceded<W> {
    /// A writer that passes on to another, and before that this text.
    pub fn new(writer: W, text: String) -> Preceded<W>
        ensures writer { result.writer ≡ writer }
        ensures text { result.text ≡ Some text }
    {
        Preceded {
            writer,
            text: Some(text),
        }
    }

    /// Writes the text, if it is not written.
    fn begin(&mut self) -> io::Result<()> {
        match self.text.take() {
            Some(text) => self.writer.write_all(text.as_bytes()),
            None => Ok(()),
        }
    }
}

impl<W: Write> Write for Preceded<W> {
    ghost contents = { preceded_contents W.contents };

    fn write(&mut self, buf: &[u8]) -> io::Result<usize> {
        if self.text.is_some() {
            self.begin()?;
        }
        self.writer.write(buf)
    }

    fn flush(&mut self) -> io::Result<()> {
        self.writer.flush()
    }
}
