//! The rules of programs that a source breaks after a known one.

use crate::analysis::Analysis;
use checker::{NextBreach, next_breach};
use checker_values::Breach;
use messages_parts::{Diagnosis, located};
use std::alloc::{AllocError, Global};
use syntax::{Token, discard, parse};
use syntax_lexer::{NO_MEMORY, PlacedFault, Position};

/// The most tokens of a source of which more broken rules than the first are looked for: each takes
/// a check of the whole source.
pub const MOST_TOKENS: usize = 400_000;

/// A broken rule after a known one.
#[derive(Clone, Copy)]
pub struct NextFault {
    pub diagnosis: Diagnosis,

    /// How many there are after the known one, at most [`checker_values::MOST_COUNTED`].
    pub count: u32,
}

/// The broken rule of a fault with a place.
fn breach_of(diagnosis: Diagnosis) -> Option<Breach> {
    let place = diagnosis.place?;
    Some(Breach {
        position: Position {
            offset: place.offset,
            line: diagnosis.fault.line,
        },
        number: diagnosis.fault.number,
    })
}

/// The rule that some tokens break as a program after a known one.
fn breach_after(
    alloc: Global,
    tokens: &[Token<'_>],
    known: Breach,
) -> Result<Option<NextBreach>, AllocError> {
    match parse(alloc, tokens) {
        Ok(program) => {
            let next = next_breach(alloc, &program, known);
            discard(program);
            next
        }
        Err(fault) if fault.number == NO_MEMORY => Err(AllocError),
        Err(_) => Ok(None),
    }
}

/// The rule of programs that a source breaks after a known one. `None` if there is none, and if the
/// known one is no rule of programs: if the source is no program, or is too large.
///
/// # Errors
///
/// `AllocError` where memory is refused.
pub fn fault_after(
    alloc: Global,
    analysis: &Analysis<'_>,
    known: Diagnosis,
) -> Result<Option<NextFault>, AllocError> {
    let (Some(tokens), Some(breach)) = (&analysis.tokens, breach_of(known)) else {
        return Ok(None);
    };
    if tokens.len() > MOST_TOKENS {
        return Ok(None);
    }
    match breach_after(alloc, tokens, breach) {
        Ok(Some(next)) => {
            let placed = PlacedFault {
                fault: next.breach.fault(),
                offset: Some(next.breach.position.offset),
            };
            Ok(Some(NextFault {
                diagnosis: located(analysis.source, placed),
                count: next.count,
            }))
        }
        Ok(None) => Ok(None),
        Err(refused) => Err(refused),
    }
}
