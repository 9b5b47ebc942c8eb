//! A whole source.

ghost use Rattle.derive.specs.Extended as spec;
ghost use Rattle.derive.specs.Held.{MeetsDerived};

use crate::passes::passed;
use derive_joined::{fault_in, joined};
use std::alloc::Global;
use syntax_lexer::{PlacedFault, lex_placed};

// What the joined source stands for.
fn derived(alloc: Global, text: &[u8]) -> Result<Vec<u8>, PlacedFault>
    ensures { MeetsDerived result (spec.DerivesJoined text.now) }
{
    match lex_placed(alloc, text) {
        Ok(tokens) => passed(alloc, tokens),
        Err(fault) => Err(fault),
    }
}

/// The source of the profile that an extended source stands for.
///
/// # Errors
///
/// Those of the lexer and of the passes, each at its place in the source that was written.
pub fn extended(alloc: Global, source: &[u8]) -> Result<Vec<u8>, PlacedFault>
    ensures { MeetsDerived result (spec.Extends source.now) }
{
    let text = joined(alloc, source)?;
    match derived(alloc, &text) {
        Ok(bytes) => Ok(bytes),
        Err(fault) => {
            let placed = fault_in(alloc, source, fault)?;
            Err(placed)
        }
    }
}
