//! The rows of an input, one after the other.

use crate::row::Row;
use crate::stories::Definition;
use anyhow::{Context, Result};
use std::alloc::Global;
use std::io::{BufRead, Write};

/// A program of rows that is being read.
#[derive(Drop)]
pub struct Program {
    /// The stories that have a name.
    definitions: Vec<Definition>,

    /// The row whose lines are read.
    row: Row,
    alloc: Global,
}

impl Program {
    /// A program of which no line was read.
    pub fn new(alloc: Global) -> Program {
        Program {
            definitions: Vec::new(alloc),
            row: Row::new(alloc),
            alloc,
        }
    }

    /// Plays the rows of an input, and writes what they show.
    pub fn play<R: BufRead + Drop, W: Write>(&mut self, input: R, output: &mut W) -> Result<()> {
        let mut number = 0u64;
        for line in input.lines(self.alloc) {
            number = number.wrapping_add(1);
            let line = line?;
            self.take(&line, number, output)?;
        }
        self.end(number, output)
    }

    /// Takes a line, which ends the row where it is empty.
    fn take<W: Write>(&mut self, line: &str, number: u64, output: &mut W) -> Result<()> {
        if line.is_empty() {
            return self.end(number, output);
        }
        let answer = self.row.take(&mut self.definitions, line, number);
        answer.context(format_args!("line {number}"))
    }

    /// Writes what the row shows, whose lines end at that number, and begins another.
    fn end<W: Write>(&mut self, number: u64, output: &mut W) -> Result<()> {
        let mut number = number;
        let outcome = self.row.outcome(&mut number);
        output.write_all(outcome.context(format_args!("line {number}"))?)?;
        self.row = Row::new(self.alloc);
        Ok(())
    }
}
