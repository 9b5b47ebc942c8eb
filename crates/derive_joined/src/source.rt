//! A whole source.

ghost use Rattle.std.specs.Prelude.{◌≡◌, IfOk};
ghost use Rattle.derive_joined.specs.Joined as spec;
ghost use Rattle.derive_joined.specs.Origin as places;

use crate::joiner::Joiner;
use std::alloc::{AllocError, Global};
use syntax_lexer::{PlacedFault, from};

/// The source with its texts on one line each, and without `#` before directives.
///
/// # Errors
///
/// `AllocError` where memory is refused.
pub fn joined(alloc: Global, source: &[u8]) -> Result<Vec<u8>, AllocError>
    ensures { IfOk result (λ text. text.items ≡ spec.joined source.now) }
{
    let mut joiner = Joiner::new(alloc);
    joiner.text.reserve(source.len())?;
    let mut rest = source;
    while !rest.is_empty() {
        let count = joiner.advance(rest)?;
        rest = from(rest, count);
    }
    Ok(joiner.text)
}

/// The offset in a source of the byte that a byte of the joined source comes from; its length past
/// the end.
///
/// # Errors
///
/// `AllocError` where memory is refused.
pub fn origin(alloc: Global, source: &[u8], offset: usize) -> Result<usize, AllocError>
    ensures { IfOk result (λ at. at ≡ places.origin source.now offset) }
{
    let mut joiner = Joiner::new(alloc);
    let mut at = 0;
    while at < source.len() {
        joiner.take(source[at], from(source, at + 1))?;
        if joiner.text.len() > offset {
            return Ok(at);
        }
        at += 1;
    }
    Ok(at)
}

/// A fault of the joined source, at its place in the source that was written.
///
/// # Errors
///
/// `AllocError` where memory is refused.
pub fn fault_in(alloc: Global, source: &[u8], fault: PlacedFault) -> Result<PlacedFault, AllocError>
    ensures { IfOk result (λ placed. placed ≡ places.fault_in source.now fault) }
{
    match fault.offset {
        None => Ok(fault),
        Some(offset) => {
            let at = origin(alloc, source, offset)?;
            Ok(PlacedFault {
                fault: fault.fault,
                offset: Some(at),
            })
        }
    }
}
