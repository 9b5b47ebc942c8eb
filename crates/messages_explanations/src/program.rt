//! What is explained of each program.

ghost use Rattle.std.specs.Prelude.{◌≡◌, IfSome, find, option_map};
ghost use Rattle.messages_explanations.specs.Names.{IsNamed, all_of, is_named};

use crate::explanation::{Explanation, find_in};
use crate::limits_of_sources::LIMITS;
use crate::machine_faults::MACHINE_FAULTS;
use crate::sessions::SESSIONS;
use crate::stories::STORIES;
use crate::tokens::TOKENS;
use crate::uses_of_names::USES;
use std::fmt;

/// The program whose answers are explained.
#[derive(Clone, Copy)]
pub enum Program {
    /// The compiler: the faults of sources.
    Inform,

    /// The player: why a story is refused, machine faults, limits, what stops a session.
    Play,
}

impl Program {
    /// The program's explanations.
    pub fn explanations(self) -> Explanations {
        match self {
            Program::Inform => Explanations {
                first: &TOKENS,
                second: &USES,
                third: &LIMITS,
            },
            Program::Play => Explanations {
                first: &STORIES,
                second: &MACHINE_FAULTS,
                third: &SESSIONS,
            },
        }
    }
}

/// The explanations of a program by subject, in the order in which they are listed. `Display`
/// writes one line for each, its name and its title, as `E23: wrong kind of name`.
#[derive(Clone, Copy)]
pub struct Explanations {
    first: &'static [Explanation],
    second: &'static [Explanation],
    third: &'static [Explanation],
}

impl Explanations {
    /// The first explanation of this name; `None` exactly where none has it. Capital and small
    /// letters are the same.
    pub fn find(self, name: &str) -> Option<&'static Explanation>
        ensures first { option_map (λ found. found.now) result
            ≡ find (is_named name.now) (all_of self) }
        ensures named { IfSome result (λ found. IsNamed name.now found.now) }
    {
        if let Some(found) = find_in(self.first, name) {
            return Some(found);
        }
        if let Some(found) = find_in(self.second, name) {
            return Some(found);
        }
        find_in(self.third, name)
    }
}

impl fmt::Display for Explanations {
    fn fmt<W: fmt::Write>(&self, f: &mut fmt::Formatter<W>) -> fmt::Result {
        for table in [self.first, self.second, self.third] {
            for explanation in table {
                let name = explanation.name;
                let title = explanation.title;
                writeln!(f, "{name}: {title}")?;
            }
        }
        Ok(())
    }
}
