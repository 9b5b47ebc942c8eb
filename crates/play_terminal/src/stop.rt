//! What stops a run.

use session::Place;
use session_run::RunFault;
use std::fmt::{self, Display, Formatter};

/// What stopped a run. `Display` writes the number alone.
#[derive(Clone, Copy)]
pub enum Stop {
    /// Reading or writing failed.
    Run(RunFault),

    /// A line could not be kept in the session's file.
    Unkept,

    /// A line of the session's file is not answered as it was.
    Lost(Lost),
}

impl Stop {
    /// The name by which it is explained.
    pub fn name(self) -> &'static str {
        match self {
            Stop::Run(RunFault::Reading) => "S1",
            Stop::Run(RunFault::Writing) => "S2",
            Stop::Unkept | Stop::Lost(_) => "S4",
        }
    }
}

/// How a run ended.
pub(crate) fn stopped(ran: Result<Place, RunFault>) -> Result<Place, Stop> {
    match ran {
        Ok(place) => Ok(place),
        Err(fault) => Err(Stop::Run(fault)),
    }
}

/// How a run ended of a session that is kept: a line was not answered as before, or not all could be kept.
pub(crate) fn ended(
    ran: Result<Place, RunFault>,
    lost: Option<Lost>,
    is_unkept: bool,
) -> Result<Place, Stop> {
    match lost {
        Some(lost) if ran.is_err() => Err(Stop::Lost(lost)),
        None if is_unkept && ran.is_err() => Err(Stop::Unkept),
        _ => stopped(ran),
    }
}

impl Display for Stop {
    fn fmt<W: fmt::Write>(&self, f: &mut Formatter<W>) -> fmt::Result {
        match self {
            Stop::Run(fault) => write!(f, "{fault}"),
            Stop::Unkept | Stop::Lost(_) => f.write_str("S4"),
        }
    }
}

/// A line of a session's file that is not answered as it was, by its number, counted from 1. `Display` writes why.
#[derive(Clone, Copy)]
pub enum Lost {
    /// It is a name, and its answer is not there.
    Answer {
        line: usize,

        /// Whether it is the last line.
        is_last: bool,
    },

    /// It was taken, and memory is refused for it now.
    Line(usize),
}

impl Display for Lost {
    fn fmt<W: fmt::Write>(&self, f: &mut Formatter<W>) -> fmt::Result {
        match *self {
            Lost::Answer { line, .. } => {
                write!(
                    f,
                    "it has no answer to the name that is line {line} of play"
                )
            }
            Lost::Line(line) => write!(f, "memory was refused for line {line} of play"),
        }
    }
}
