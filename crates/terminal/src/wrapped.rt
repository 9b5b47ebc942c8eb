//! A writer that breaks lines.

ghost use Rattle.std.specs.Prelude.{◌≡◌, [], OnOk, Some};
ghost use Rattle.std.specs.Io.KnownBytes.{Keeps};
ghost use Rattle.terminal.specs.Broken.{IsBroken, WroteBroken};

use crate::breaking::break_lines;
use crate::passing::pass_on;
use crate::told::Told;
use std::alloc::Global;
use std::io::{self, Write};
use std::snapshot::Snapshot;

/// A writer that breaks the lines of what it is given at words. It gathers what is written, and
/// passes it on when it is flushed, so that no word is cut.
#[derive(Drop)]
pub struct Wrapped<W: Write> {
    writer: W,

    /// How many columns a line has.
    columns: usize,

    /// How many of them the line has that was begun.
    begun: usize,

    /// What was written since the last flush.
    gathered: Vec<u8>,

    /// The writer as it was before.
    before: Snapshot<W>,

    /// All that was written.
    told: Told,

    ghost broken: { ∥ WroteBroken (W.contents before.value) (W.contents writer) gathered.items told.bytes ∥₁ },
}

impl<W: Write> Wrapped<W> {
    /// A writer that passes lines of so many columns on to another.
    pub fn new(alloc: Global, writer: W, columns: usize) -> Wrapped<W>
        ensures writer { result.writer ≡ writer }
        ensures before { result.before.value ≡ writer }
        ensures told { result.told.bytes ≡ [] }
    {
        let before = Snapshot::of(&writer);
        Wrapped {
            writer,
            columns,
            begun: 0,
            gathered: Vec::new(alloc),
            before,
            told: Told::new(),
        }
    }
}

impl<W: Write> Write for Wrapped<W> {
    ghost contents = { λ wrapped. Some wrapped.told.bytes };

    fn write(&mut self, buf: &[u8]) -> io::Result<usize> {
        self.gathered.extend_from_slice(buf)?;
        self.told.add(buf);
        Ok(buf.len())
    }

    /// Passes on what was gathered, with some of its spaces replaced by new lines.
    fn flush(&mut self) -> io::Result<()>
        ensures bytes { Keeps (Some self.old.told.bytes) (Some self.new.told.bytes) }
        ensures passed { OnOk result (self.new.gathered.items ≡ []) }
    {
        self.begun = break_all(&mut self.gathered, self.columns, self.begun);
        pass_on(&mut self.writer, &mut self.gathered)?;
        self.writer.flush()
    }
}

/// Breaks the lines of bytes at words, as [`break_lines`] says.
fn break_all(bytes: &mut Vec<u8>, columns: usize, begun: usize) -> usize
    ensures { IsBroken bytes.old.items bytes.new.items }
{
    break_lines(bytes, columns, begun)
}
