//! Streams in memory, which fail where a row says.

use std::io::{ErrorKind, Read, Result, Write};

/// Gives its bytes, at most so many at a call, and fails once it has given as many as it can.
#[derive(Drop)]
pub struct Input<'a> {
    /// What it still has.
    pub rest: &'a [u8],

    /// How many bytes it can still give.
    pub left: usize,

    /// How many bytes it gives at most at a call.
    pub part: usize,
}

impl Read for Input<'_> {
    fn read(&mut self, buf: &mut [u8]) -> Result<usize> {
        if self.left == 0 {
            return Err(ErrorKind::Interrupted.into());
        }
        let count = self.rest.len().min(buf.len()).min(self.left).min(self.part);
        buf[..count].copy_from_slice(&self.rest[..count]);
        self.rest = &self.rest[count..];
        self.left -= count;
        Ok(count)
    }
}

/// Holds what is written. Where its room is bounded it takes one byte at a call, and when it is
/// full it takes none or fails. A flush fails that comes after as many as it can do.
#[derive(Drop)]
pub struct Output {
    /// What was written.
    pub bytes: Vec<u8>,

    /// How many bytes it can still take, if that is bounded.
    pub room: Option<usize>,

    /// Whether it fails when it is full.
    pub fails: bool,

    /// How often it can still be flushed.
    pub flushes: usize,
}

impl Write for Output {
    fn write(&mut self, buf: &[u8]) -> Result<usize> {
        match (self.room, buf) {
            (None, _) => {
                self.bytes.extend_from_slice(buf)?;
                Ok(buf.len())
            }
            (Some(0), _) if self.fails => Err(ErrorKind::Other.into()),
            (Some(0), _) | (_, []) => Ok(0),
            (Some(room), [byte, ..]) => {
                self.bytes.push(*byte)?;
                self.room = Some(room - 1);
                Ok(1)
            }
        }
    }

    fn flush(&mut self) -> Result<()> {
        if self.flushes == 0 {
            return Err(ErrorKind::Other.into());
        }
        self.flushes -= 1;
        Ok(())
    }
}
