//! What is said of a file in a word.

ghost use Rattle.std.specs.Prelude.{◌≡◌};
ghost use Rattle.std.specs.List.{list_any};
ghost use Rattle.survey.specs.Verdict.{is_needed, tells_damage, verdict_of};

use crate::measures::Measures;
use crate::mode::Mode;
use crate::survey::Survey;
use crate::unplayed::Unplayed;
use std::fmt;
use zcore::HeaderFault;

/// What is said of a file in a word. `Display` writes it.
#[derive(Clone, Copy)]
pub enum Verdict {
    /// It loads, and nothing that the machine does not play is needed.
    Loads,

    /// It loads, and needs opcodes that the machine does not play, or not with such operands.
    Needs,

    /// It loads, and its length or its sum is not what its header states. Only of a file for the
    /// whole Standard it is said.
    Damaged,

    /// It does not load.
    Refused(HeaderFault),
}

impl fmt::Display for Verdict {
    fn fmt<W: fmt::Write>(&self, f: &mut fmt::Formatter<W>) -> fmt::Result {
        match self {
            Verdict::Loads => f.write_str("loads"),
            Verdict::Needs => f.write_str("needs"),
            Verdict::Damaged => f.write_str("damaged"),
            Verdict::Refused(fault) => write!(f, "{fault}"),
        }
    }
}

impl Survey {
    /// What is said of the file in a word.
    pub fn verdict(&self) -> Verdict
        ensures { result ≡ verdict_of self.now }
    {
        let contents = match &self.found {
            Ok(contents) => contents,
            Err(fault) => return Verdict::Refused(*fault),
        };
        if tells_damage(self.mode, self.measures) {
            Verdict::Damaged
        } else if are_needed(self.mode, &contents.unplayed) {
            Verdict::Needs
        } else {
            Verdict::Loads
        }
    }
}

/// Whether a file is told to be damaged, by what its header states.
fn tells_damage(mode: Mode, measures: Option<Measures>) -> bool
    ensures { result ≡ tells_damage mode measures }
{
    match (mode, measures) {
        (Mode::Standard, Some(measures)) => measures.is_damaged(),
        _ => false,
    }
}

/// Whether one of several opcodes that a machine does not play is needed.
fn are_needed(mode: Mode, unplayed: &[Unplayed]) -> bool
    ensures { result ≡ list_any (is_needed mode) unplayed.now }
{
    unplayed.iter().any(|one| is_needed(mode, one))
}

/// Whether an opcode that a machine does not play is needed. What no direct call leads to may be no
/// code.
fn is_needed(mode: Mode, unplayed: &Unplayed) -> bool
    ensures { result ≡ is_needed mode unplayed.now }
{
    match mode {
        Mode::Profile => true,
        Mode::Standard => !unplayed.is_swept,
    }
}
