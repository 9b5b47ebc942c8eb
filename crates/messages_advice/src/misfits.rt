//! The tokens that do not fit after the first: each is looked for in the source without the part in
//! which the one before it is.

ghost use Rattle.std.specs.Prelude.{◌≡◌, ◌<◌, IfOk, IfSome};

use crate::cuts::{Cut, Cuts, cuts_at};
use messages_parts::{Diagnosis, before, located};
use std::alloc::{AllocError, Global};
use syntax::{PlacedFault, Position, SourceFault, Token, first_unfit, lex};
use syntax_lexer::{NO_MEMORY, NOT_IN_GRAMMAR};

/// The most tokens of a source of which more tokens than the first are looked for that do not fit: each
/// takes a few parses of the source.
pub const MOST_TOKENS: usize = 400_000;

/// A token that does not fit after one that does not either.
#[derive(Drop)]
pub struct Misfit {
    /// The source as it is read up to this token: with blanks, but for line ends, and tokens that fit in
    /// the place of parts in which tokens before it are that do not.
    pub text: Vec<u8>,

    /// Where the token begins, in the source too.
    pub offset: usize,

    pub diagnosis: Diagnosis,
}

impl Misfit {
    /// The next one.
    ///
    /// # Errors
    ///
    /// `AllocError` where memory is refused.
    pub fn next(&self, alloc: Global) -> Result<Option<Misfit>, AllocError>
        ensures { IfOk result (λ found. IfSome found (λ next. self.now.offset < next.offset)) }
    {
        misfit_after(alloc, &self.text, self.offset)
    }
}

/// The tokens of a source. `None` where its bytes are none.
fn tokens_of<'a>(alloc: Global, text: &'a [u8]) -> Result<Option<Vec<Token<'a>>>, AllocError> {
    match lex(alloc, text) {
        Ok(tokens) => Ok(Some(tokens)),
        Err(fault) if fault.number == NO_MEMORY => Err(AllocError),
        Err(_) => Ok(None),
    }
}

/// The number of the token that begins at an offset. `None` where none does.
fn number_at(tokens: &[Token<'_>], offset: usize) -> Option<usize> {
    for number in 0..tokens.len() {
        if tokens[number].position.offset == offset {
            return Some(number);
        }
    }
    None
}

/// What can be left out of a source because of a token that begins at an offset and does not fit, the
/// least first: nothing in a source of more than [`MOST_TOKENS`] tokens.
fn cuts_of(alloc: Global, text: &[u8], offset: usize) -> Result<Cuts, AllocError> {
    match tokens_of(alloc, text) {
        Err(refused) => Err(refused),
        Ok(None) => Ok(Cuts([None; 3])),
        Ok(Some(tokens)) => match number_at(&tokens, offset) {
            Some(at) if tokens.len() <= MOST_TOKENS => Ok(cuts_at(text, &tokens, at)),
            _ => Ok(Cuts([None; 3])),
        },
    }
}

/// A source without a part.
fn without(alloc: Global, text: &[u8], cut: Cut) -> Result<Vec<u8>, AllocError> {
    let mut left = Vec::new(alloc);
    for at in 0..text.len() {
        let Ok(()) = left.push(cut.byte_at(at, text[at])) else {
            return Err(AllocError);
        };
    }
    Ok(left)
}

/// Where a token is that does not fit, and at which offset the one two before it begins.
#[derive(Clone, Copy)]
struct Found {
    position: Position,
    lead: usize,
}

/// The token of a number, which does not fit.
fn found_at(tokens: &[Token<'_>], at: usize) -> Option<Found> {
    let lead = match tokens.get(before(at, 2)) {
        Some(token) => token.position.offset,
        None => 0,
    };
    match tokens.get(at) {
        Some(token) => Some(Found {
            position: token.position,
            lead,
        }),
        None => None,
    }
}

/// The first token of a source that does not fit. `None` where all do.
fn misfit_in(alloc: Global, text: &[u8]) -> Result<Option<Found>, AllocError> {
    let Ok(tokens) = tokens_of(alloc, text) else {
        return Err(AllocError);
    };
    let Some(tokens) = tokens else {
        return Ok(None);
    };
    match first_unfit(alloc, &tokens) {
        Ok(Some(at)) => Ok(found_at(&tokens, at)),
        Ok(None) => Ok(None),
        Err(refused) => Err(refused),
    }
}

/// The token at a position of a source, which does not fit.
fn misfit_at(text: Vec<u8>, position: Position) -> Misfit
    ensures { result.offset ≡ position.offset }
{
    let placed = PlacedFault {
        fault: SourceFault {
            number: NOT_IN_GRAMMAR,
            line: position.line,
        },
        offset: Some(position.offset),
    };
    let diagnosis = located(&text, placed);
    Misfit {
        text,
        offset: position.offset,
        diagnosis,
    }
}

/// The token that does not fit after one at an offset, if the least is left out with which the source is
/// read on from there.
fn misfit_after(alloc: Global, text: &[u8], offset: usize) -> Result<Option<Misfit>, AllocError>
    ensures { IfOk result (λ found. IfSome found (λ next. offset < next.offset)) }
{
    let Ok(cuts) = cuts_of(alloc, text, offset) else {
        return Err(AllocError);
    };
    for cut in &cuts.0 {
        if let Some(cut) = *cut {
            let Ok(left) = without(alloc, text, cut) else {
                return Err(AllocError);
            };
            let Ok(found) = misfit_in(alloc, &left) else {
                return Err(AllocError);
            };
            let Some(found) = found else {
                return Ok(None);
            };
            let position = found.position;
            if position.offset > offset && position.offset >= cut.to && cut.counts(found.lead) {
                return Ok(Some(misfit_at(left, position)));
            }
        }
    }
    Ok(None)
}

/// The token that does not fit after the first fault of a source, if that is such a token too.
///
/// # Errors
///
/// `AllocError` where memory is refused.
pub fn second_misfit(
    alloc: Global,
    source: &[u8],
    first: Diagnosis,
) -> Result<Option<Misfit>, AllocError>
    ensures { IfOk result (λ found. IfSome found (λ next.
        IfSome first.place (λ place. place.offset < next.offset))) }
{
    match first.place {
        Some(place) if first.fault.number == NOT_IN_GRAMMAR => {
            misfit_after(alloc, source, place.offset)
        }
        _ => Ok(None),
    }
}
