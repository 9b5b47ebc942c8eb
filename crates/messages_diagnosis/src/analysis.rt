//! What a source is read as, once for all that is told of it.

use messages_parts::Diagnosis;
use std::alloc::{AllocError, Global};
use std::mem::forget;
use story::Limit;
use syntax::{Token, lex};
use syntax_lexer::{NO_MEMORY, NOT_IN_GRAMMAR};
use zcore::Version;

/// A source that a version's compiler refuses by a limit, and what it is read as. It has no tree: a
/// crate that owns one proves anew how each of its parts is dropped.
#[derive(Drop)]
pub struct Analysis<'a> {
    pub source: &'a [u8],
    pub version: Version,
    pub limit: Limit,

    /// The first broken rule.
    pub first: Diagnosis,

    /// `None` where its bytes are no tokens, and where these are not in the grammar: what is told of
    /// that is found by parses of its own.
    pub tokens: Option<Vec<Token<'a>>>,
}

/// The tokens of a source, of which the first broken rule is known.
fn tokens_of(alloc: Global, source: &[u8], rule: u8) -> Result<Option<Vec<Token<'_>>>, AllocError> {
    if rule == NOT_IN_GRAMMAR {
        return Ok(None);
    }
    match lex(alloc, source) {
        Ok(tokens) => Ok(Some(tokens)),
        Err(fault) if fault.number == NO_MEMORY => Err(AllocError),
        Err(_) => Ok(None),
    }
}

impl<'a> Analysis<'a> {
    /// Reads a source, whose first broken rule is known.
    ///
    /// # Errors
    ///
    /// `AllocError` where memory is refused.
    pub fn of(
        alloc: Global,
        source: &'a [u8],
        version: Version,
        limit: Limit,
        first: Diagnosis,
    ) -> Result<Analysis<'a>, AllocError> {
        match tokens_of(alloc, source, first.fault.number) {
            Ok(tokens) => Ok(Analysis {
                source,
                version,
                limit,
                first,
                tokens,
            }),
            Err(refused) => Err(refused),
        }
    }

    /// Leaves the memory of the tokens to the system, which takes it back when the process ends.
    pub fn leave(self) {
        forget(self);
    }
}
