//! A writer that begins later.

ghost use Rattle.std.specs.Prelude.{◌≡◌, ◌-◌, ◌<◌, IsTrue, ◌↔◌};
ghost use Rattle.std.specs.Io.{WritesAtMost};
ghost use Rattle.std.specs.Io.KnownBytes.{Keeps, WriteAppends};
ghost use Rattle.session_keeping.specs.Later.{DropsAll, later_contents};

use std::io::{self, Write};

/// A writer that passes on what it is given after so many flushes, so no replies that were there before.
#[derive(Drop)]
pub struct Later<W> {
    writer: W,

    /// How many replies are still to be dropped.
    left: usize,
}

impl<W: Write> Later<W> {
    /// A writer that drops so many replies, and passes on the others to another.
    pub fn new(writer: W, left: usize) -> Later<W>
        ensures writer { result.writer ≡ writer }
        ensures left { result.left ≡ left }
    {
        Later { writer, left }
    }

    /// Whether what is written now is dropped.
    pub fn is_silent(&self) -> bool
        ensures { IsTrue result ↔ (0 < self.now.left) }
    {
        self.left > 0
    }
}

impl<W: Write> Write for Later<W> {
    ghost contents = { later_contents W.contents };

    fn write(&mut self, buf: &[u8]) -> io::Result<usize>
        ensures bound { WritesAtMost result buf.now }
        ensures bytes { WriteAppends (later_contents W.contents self.old)
            (later_contents W.contents self.new) result buf.now }
        ensures left { self.new.left ≡ self.old.left }
        ensures dropped { 0 < self.old.left
            → DropsAll self.old.writer self.new.writer buf.now result }
    {
        if self.left > 0 {
            return Ok(buf.len());
        }
        self.writer.write(buf)
    }

    fn flush(&mut self) -> io::Result<()>
        ensures bytes { Keeps (later_contents W.contents self.old)
            (later_contents W.contents self.new) }
        ensures left { self.new.left ≡ self.old.left - 1 }
        ensures dropped { 0 < self.old.left → self.new.writer ≡ self.old.writer }
    {
        if self.left > 0 {
            self.left -= 1;
            return Ok(());
        }
        self.writer.flush()
    }
}
