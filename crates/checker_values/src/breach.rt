//! Broken rules and their places.

use syntax_lexer::{Position, SourceFault};

/// A rule that is broken at a place.
#[derive(Clone, Copy)]
pub struct Breach {
    pub position: Position,

    /// The rule's number, as a source fault prints it.
    pub number: u8,
}

impl Breach {
    ghost use Rattle.std.specs.Prelude.{◌≡◌};

    /// The fault that tells of the breach: its number, and the line where it stands.
    pub fn fault(self) -> SourceFault
        ensures number { result.number ≡ self.number }
        ensures line { result.line ≡ self.position.line }
    {
        SourceFault {
            number: self.number,
            line: self.position.line,
        }
    }
}
