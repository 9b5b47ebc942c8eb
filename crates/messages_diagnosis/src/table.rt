//! Figures as a table: a line for each, what it is, the figure, and the limit where there is one.

use crate::measuring::{Counts, Figures};
use crate::routine_figures::RoutineFigures;
use crate::sought::Temporaries;
use crate::table_bytes::{FIXED_LENGTH, MOST_TABLE_BYTES, TableBytes};
use meaning::greatest_weight;
use meaning::limits::{
    GREATEST_ROUTINE_WEIGHT, MOST_GLOBALS, MOST_OBJECTS, MOST_PROPERTIES, MOST_TEMPORARIES,
};
use std::fmt::{self, Display, Formatter};
use story::Limit;
use story_file::greatest_length;
use zcore::MOST_ABBREVIATIONS;
use zcore::layout::ATTRIBUTE_COUNT;

/// The bytes of the longest name.
const LONGEST_NAME: usize = 32;

/// A figure: what it is, and the limit, where one is named.
#[derive(Clone, Copy)]
struct Line(&'static str, u128, Option<u128>);

impl Display for Line {
    fn fmt<W: fmt::Write>(&self, f: &mut Formatter<W>) -> fmt::Result {
        let what = self.0;
        let figure = self.1;
        write!(f, "{what:<42}{figure:>11}")?;
        match self.2 {
            Some(most) => write!(f, " of {most}"),
            None => Ok(()),
        }
    }
}

/// Figures by what they are, with the limits that are named.
macro_rules! lines {
    ($($what:literal: $figure:expr $(=> $most:expr)?;)+) => {
        [$(Line($what, $figure, lines!(@ $($most)?))),+]
    };
    (@) => { None };
    (@ $most:expr) => { Some($most) };
}

/// Figures, each on a line.
#[derive(Clone, Copy)]
struct Lines<'a>(&'a [Line]);

impl Display for Lines<'_> {
    fn fmt<W: fmt::Write>(&self, f: &mut Formatter<W>) -> fmt::Result {
        for line in self.0 {
            writeln!(f, "{line}")?;
        }
        Ok(())
    }
}

/// A name, and spaces up to the length of the longest.
#[derive(Clone, Copy)]
struct Padded<'a>(&'a [u8]);

impl Display for Padded<'_> {
    fn fmt<W: fmt::Write>(&self, f: &mut Formatter<W>) -> fmt::Result {
        for byte in self.0 {
            f.write_char(*byte as char)?;
        }
        for _ in self.0.len()..LONGEST_NAME {
            f.write_char(' ')?;
        }
        Ok(())
    }
}

impl Display for RoutineFigures<'_> {
    fn fmt<W: fmt::Write>(&self, f: &mut Formatter<W>) -> fmt::Result {
        let name = Padded(self.name.text);
        let weight = self.weight;
        let size = self.size;
        writeln!(
            f,
            "weight of {name}{weight:>11} of {GREATEST_ROUTINE_WEIGHT}, {size} bytes"
        )
    }
}

impl Display for Counts {
    fn fmt<W: fmt::Write>(&self, f: &mut Formatter<W>) -> fmt::Result {
        let lines = lines![
            "globals": self.globals as u128 => MOST_GLOBALS as u128;
            "attributes": self.attributes as u128 => ATTRIBUTE_COUNT as u128;
            "properties beside name": self.properties as u128 => MOST_PROPERTIES as u128;
            "objects": self.objects as u128 => MOST_OBJECTS as u128;
            "keys of dictionary words": self.words as u128;
            "abbreviations": self.abbreviations as u128 => MOST_ABBREVIATIONS as u128;
            "routines": self.routines as u128;
        ];
        write!(f, "{}", Lines(&lines))
    }
}

impl Display for TableBytes {
    fn fmt<W: fmt::Write>(&self, f: &mut Formatter<W>) -> fmt::Result {
        let lines = lines![
            "bytes of arrays": self.arrays as u128;
            "bytes of objects": self.objects;
            "bytes of dictionary words": self.words;
            "bytes of abbreviations": self.abbreviations;
        ];
        write!(f, "{}", Lines(&lines))
    }
}

/// The greatest number of temporaries, with the line of the first place that needs so many.
#[derive(Clone, Copy)]
struct Greatest(Option<Temporaries>);

impl Display for Greatest {
    fn fmt<W: fmt::Write>(&self, f: &mut Formatter<W>) -> fmt::Result {
        let number = match self.0 {
            Some(greatest) => greatest.number as u128,
            None => 0,
        };
        let most = Some(MOST_TEMPORARIES as u128);
        write!(f, "{}", Line("temporaries of an expression", number, most))?;
        match self.0 {
            Some(greatest) => writeln!(f, ", line {}", greatest.position.line),
            None => writeln!(f),
        }
    }
}

impl Figures<'_> {
    /// How many bytes stand in a story behind its tables and beside its routines.
    fn rest(&self, story: usize) -> u128 {
        (story as u128)
            .saturating_sub(FIXED_LENGTH)
            .saturating_sub(self.table_total)
            .saturating_sub(self.code)
    }
}

impl Display for Figures<'_> {
    fn fmt<W: fmt::Write>(&self, f: &mut Formatter<W>) -> fmt::Result {
        let (most_weight, most_length) = match self.limit {
            Limit::Weight => (Some(greatest_weight(self.version)), None),
            Limit::Length => (None, Some(greatest_length(self.version) as u128)),
        };
        writeln!(
            f,
            "{}",
            Line("weight of the source", self.weight, most_weight)
        )?;
        for routine in &self.heaviest {
            write!(f, "{routine}")?;
        }
        let temporaries = Greatest(self.temporaries);
        write!(f, "{}{temporaries}{}", self.counts, self.tables)?;
        let lines = lines![
            "bytes of these four": self.table_total => MOST_TABLE_BYTES;
            "bytes of header and tables of one length": FIXED_LENGTH;
            "bytes of routines": self.code;
        ];
        write!(f, "{}", Lines(&lines))?;
        let Ok(story) = self.story else {
            return Ok(());
        };
        let lines = lines!["bytes of texts of faults, and of filling": self.rest(story);];
        write!(f, "{}", Lines(&lines))?;
        writeln!(
            f,
            "{}",
            Line("bytes of the story file", story as u128, most_length)
        )
    }
}
