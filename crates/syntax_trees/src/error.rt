//! Why tokens are not read.

ghost use Rattle.std.specs.Prelude.{◌≡◌};
ghost use Rattle.syntax_lexer.specs.Token.{lexemes};
ghost use Rattle.syntax_trees.specs.Errors.{fault_number, placed_fault};
ghost use Rattle.syntax_trees.specs.declared.error.ParseError.TheVariants.{Memory};

use crate::tokens::place_of;
use std::alloc::{AllocError, AllocFailed};
use syntax_lexer::{NESTED_TOO_DEEP, NOT_IN_GRAMMAR, PlacedFault, SourceFault, Token};

/// Why tokens have no tree.
#[derive(Clone, Copy)]
pub enum Fault {
    /// No derivation of the grammar goes on with the token (E10).
    Grammar,

    /// The token stands deeper than the nestings that are left (E05).
    Deep,
}

/// Why tokens are not read.
#[derive(Drop)]
pub enum ParseError {
    /// A growth of memory was refused (E99).
    Memory,

    /// A fault, and how many tokens are left from that on at which it stands.
    Fault(Fault, usize),
}

/// What is read, or why nothing is.
pub type Parsed<T> = Result<T, ParseError>;

impl From<AllocError> for ParseError {
    ghost from_gives = { λ _ e. e ≡ Memory };

    fn from(_e: AllocError) -> ParseError {
        ParseError::Memory
    }
}

impl<T: Drop> From<AllocFailed<T>> for ParseError {
    ghost from_gives = { λ _ e. e ≡ Memory };

    fn from(_e: AllocFailed<T>) -> ParseError {
        ParseError::Memory
    }
}

// The number by which programs name the fault.
fn number(fault: Fault) -> u8
    ensures { result ≡ fault_number fault }
{
    match fault {
        Fault::Grammar => NOT_IN_GRAMMAR,
        Fault::Deep => NESTED_TOO_DEEP,
    }
}

impl ParseError {
    /// The fault of a source with these tokens, of which those that are left were not read: it
    /// stands at the first of these.
    pub fn placed(self, tokens: &[Token<'_>]) -> PlacedFault
        ensures { result ≡ placed_fault (lexemes tokens.now) self }
    {
        match self {
            ParseError::Memory => PlacedFault::from(AllocError),
            ParseError::Fault(fault, left) => {
                let place = place_of(tokens, left);
                PlacedFault {
                    fault: SourceFault {
                        number: number(fault),
                        line: place.line,
                    },
                    offset: Some(place.offset),
                }
            }
        }
    }
}
