//! What each row may say.

use crate::names::{Mode, RowError, StandardOptions, Version, number_in, put_written};
use crate::streams::{Input, Output};
use std::alloc::Global;

/// The fuel of a turn where a row names none.
const FUEL: u32 = 1_000_000;

/// A row's source and input, and under which conditions a story is played.
#[derive(Drop)]
pub struct Setting {
    /// The source, its lines with byte 10 between them: `source`.
    pub source: Vec<u8>,

    /// The version for which the source is compiled: `version`.
    pub version: Version,

    /// By which opcodes a story is played: `standard`.
    pub mode: Mode,

    /// The units of fuel of each turn: `fuel`.
    pub fuel: u32,

    /// How many turns are kept at most: `keep`.
    pub keep: Option<u32>,

    /// The lines, each with byte 10: `line`; and a last one without it: `last`.
    pub input: Vec<u8>,

    /// How many bytes of the input can be read: `reads`; and at most at a call: `part`.
    pub reads: usize,
    pub part: usize,

    /// How many bytes can be written: `room`; and whether the next write then fails, and does not
    /// just take no byte: `breaks`.
    pub room: Option<usize>,
    pub breaks: bool,

    /// How often what is written can be flushed: `flushes`.
    pub flushes: usize,

    /// Where bytes come from.
    pub alloc: Global,
}

impl Setting {
    /// A row that says nothing.
    pub fn new(alloc: Global) -> Setting {
        Setting {
            source: Vec::new(alloc),
            version: Version::V5,
            mode: Mode::Profile,
            fuel: FUEL,
            keep: None,
            input: Vec::new(alloc),
            reads: usize::MAX,
            part: usize::MAX,
            room: None,
            breaks: false,
            flushes: usize::MAX,
            alloc,
        }
    }

    /// Takes a line's first word and the text after it, and says whether the word is one of these.
    pub fn takes(&mut self, word: &str, text: &str) -> Result<bool, RowError> {
        match word {
            "source" => self.add_source(text)?,
            "version" => self.version = version_in(text)?,
            "standard" => self.mode = Mode::Standard(StandardOptions::of_seed(small(text)?)),
            "fuel" => self.fuel = small(text)?,
            "keep" => self.keep = Some(small(text)?),
            "line" => {
                put_written(&mut self.input, self.alloc, text)?;
                self.input.push(b'\n')?;
            }
            "last" => put_written(&mut self.input, self.alloc, text)?,
            "reads" => self.reads = number_in(text)?,
            "part" => self.part = number_in(text)?,
            "room" => self.room = Some(number_in(text)?),
            "breaks" => {
                self.room = Some(number_in(text)?);
                self.breaks = true;
            }
            "flushes" => self.flushes = number_in(text)?,
            _ => return Ok(false),
        }
        Ok(true)
    }

    /// Adds a line to the source.
    fn add_source(&mut self, text: &str) -> Result<(), RowError> {
        if !self.source.is_empty() {
            self.source.push(b'\n')?;
        }
        put_written(&mut self.source, self.alloc, text)
    }

    /// The input as a reader.
    pub fn reader(&self) -> Input<'_> {
        Input {
            rest: &self.input,
            left: self.reads,
            part: self.part,
        }
    }

    /// A writer that holds nothing yet.
    pub fn writer(&self) -> Output {
        Output {
            bytes: Vec::new(self.alloc),
            room: self.room,
            fails: self.breaks,
            flushes: self.flushes,
        }
    }
}

/// The number that a text is, of 32 bits.
pub fn small(text: &str) -> Result<u32, RowError> {
    u32::try_from(number_in(text)?).ok().ok_or(RowError::Number)
}

/// The version that a text names.
fn version_in(text: &str) -> Result<Version, RowError> {
    match text {
        "5" => Ok(Version::V5),
        "8" => Ok(Version::V8),
        _ => Err(RowError::Number),
    }
}
