//! Why a source is refused, and where.

ghost use Rattle.std.specs.Prelude.{◌≡◌, ◌≢◌, ℕ, IfSome, Some, None};
ghost use Rattle.syntax_lexer.specs.Placed.{IsInLine};
ghost use Rattle.messages_parts.specs.Lines.{IsLocatedIn};

use crate::place::{Place, place_of};
use syntax_lexer::{PlacedFault, SourceFault};

/// Why a source is refused, and where.
#[derive(Clone, Copy)]
pub struct Diagnosis {
    /// The broken rule's number, and the line.
    pub fault: SourceFault,

    /// What is at fault, in that line; none for E30, E31 and E99, which name no place.
    pub place: Option<Place>,
}

/// The fault of a source, and its place, found from the offset. An offset that is none of the
/// fault's line has no place.
pub fn located(source: &[u8], placed: PlacedFault) -> Diagnosis
    ensures fault { result.fault ≡ placed.fault }
    ensures place { IsLocatedIn source.now result }
    ensures begins { IfSome result.place (λ p. placed.offset ≡ Some p.offset) }
    ensures there { (at : ℕ) → placed.offset ≡ Some at → IsInLine source.now placed.fault.line at
        → result.place ≢ None }
{
    Diagnosis {
        fault: placed.fault,
        place: place_of(source, placed),
    }
}
