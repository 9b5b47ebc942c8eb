//! A diagnosis as people read it.

use crate::diagnosis::Diagnosis;
use crate::excerpt::Excerpt;
use std::fmt::{self, Display, Formatter};

/// A diagnosis beside its source. `Display` writes where the fault stands and why, the line and a
/// mark under what is at fault, each with its line end:
///
/// ```text
/// room.inf:3:10: unknown name
///     move lmp to box;
///          ^~~
/// ```
///
/// Of a fault at the end of a source in a line that is blank it writes the first line alone, and of a
/// fault without a place that line without numbers.
#[derive(Clone, Copy)]
pub struct Shown<'a, N, S> {
    pub source: &'a [u8],

    /// The source's name, on one line.
    pub name: N,

    /// What is wrong, in words, on one line.
    pub sentence: S,

    pub diagnosis: Diagnosis,
}

/// The line and the column of a diagnosis, each after a `:`, if it has a place.
#[derive(Clone, Copy)]
struct Numbers(Diagnosis);

impl Display for Numbers {
    fn fmt<W: fmt::Write>(&self, f: &mut Formatter<W>) -> fmt::Result {
        match self.0.place {
            Some(place) => write!(f, ":{}:{}", self.0.fault.line, place.column),
            None => Ok(()),
        }
    }
}

impl<N: Display, S: Display> Display for Shown<'_, N, S> {
    fn fmt<W: fmt::Write>(&self, f: &mut Formatter<W>) -> fmt::Result {
        let numbers = Numbers(self.diagnosis);
        writeln!(f, "{}{numbers}: {}", self.name, self.sentence)?;
        match self.diagnosis.place {
            Some(place) => write!(f, "{}", Excerpt::of(self.source, place)),
            None => Ok(()),
        }
    }
}
