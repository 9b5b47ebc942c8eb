//! How deep brackets may be nested in a statement.

ghost use Rattle.std.specs.Prelude.{◌≡◌, ◌<◌, ◌+◌, ◌^◌};
ghost use Rattle.derive_tokens.specs.Pieces.{derived, derived_all};
ghost use Rattle.derive_expressions.specs.Depth as spec;

use derive_statements::{deeper, ends_statement};
use derive_tokens::{Piece, refused};
use syntax_lexer::{NESTED_TOO_DEEP, PlacedFault};

/// How many brackets may be open in a statement.
const MOST_OPEN: usize = 100;

// How many brackets are open after a token.
#[inline(always)]
fn open_after(depth: usize, piece: Piece<'_>) -> usize
    requires { depth + 1 < 2 ^ 64 }
    ensures { result ≡ spec.open_after depth (derived piece.entry) }
{
    if ends_statement(piece) {
        0
    } else {
        deeper(depth, piece)
    }
}

/// The fault (E05) of the first bracket of a file that is in more than 100 others of its statement,
/// if there is one.
#[tactic(auto, using(derive_tokens::proofs::Positions::position_derived))]
pub fn depth_fault(pieces: &[Piece<'_>]) -> Option<PlacedFault>
    ensures { result ≡ spec.depth_fault (derived_all pieces.now) }
{
    let mut depth = 0;
    for piece in pieces {
        depth = open_after(depth, *piece);
        if depth > MOST_OPEN {
            return Some(refused(NESTED_TOO_DEEP, piece.position));
        }
    }
    None
}
