//! A reader of what was typed before.

ghost use Rattle.std.specs.Prelude.{◌≡◌, Some};

use crate::typed::copy_line;
use std::cell::Cell;
use std::io::{self, Read};

/// How far a session that goes on has come.
#[derive(Drop)]
pub struct Progress {
    /// How many of the lines that were typed before are given on.
    pub lines: Cell<usize>,

    /// Whether all of them were answered.
    pub is_over: Cell<bool>,
}

impl Progress {
    /// No line is given on yet.
    pub fn new() -> Progress {
        Progress {
            lines: Cell::new(0),
            is_over: Cell::new(false),
        }
    }
}

/// Gives on what was typed before, one line at a time, and tells how far it has come.
#[derive(Drop)]
pub struct Again<'a> {
    /// What is not given on yet.
    left: &'a [u8],

    progress: &'a Progress,
}

impl<'a> Again<'a> {
    /// What was typed before, in whole lines.
    pub fn new(typed: &'a [u8], progress: &'a Progress) -> Again<'a>
        ensures { result.left.now ≡ typed.now }
    {
        Again {
            left: typed,
            progress,
        }
    }
}

impl Read for Again<'_> {
    ghost remaining = { λ again. Some again.left.now };

    fn read(&mut self, buf: &mut [u8]) -> io::Result<usize> {
        if self.left.is_empty() {
            self.progress.is_over.set(true);
            return Ok(0);
        }
        let count = copy_line(self.left, buf);
        let (given, left) = self.left.split_at(count);
        self.left = left;
        if given.ends_with(b"\n") {
            let lines = &self.progress.lines;
            lines.set(lines.get().saturating_add(1));
        }
        Ok(count)
    }
}
