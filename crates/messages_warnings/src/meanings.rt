//! What the names of a program mean: where each is defined.

use crate::numbers::{NONE, no_numbers, number_at, put_number};
use crate::routines::Routine;
use messages_parts::{after, defined_at, is_name, is_named, text_at};
use std::alloc::{AllocError, Global};
use syntax_lexer::Token;

/// How many hashes of names there are.
const HASHES: usize = 4_096;

/// By how much the hash of the bytes before another one is multiplied.
const HASH_FACTOR: usize = 31;

/// Where the names of the file are defined: lists of tokens, one for each hash of a name.
#[derive(Drop)]
struct Definitions {
    /// For each hash the last token that defines a name of it.
    last: Vec<usize>,

    /// For each such token the one before it in its list.
    earlier: Vec<usize>,
}

/// The hash of a name, below [`HASHES`]: capital and small letters are the same.
fn hash_of(text: &[u8]) -> usize {
    let mut hash: usize = 0;
    for byte in text {
        let letter = byte.to_ascii_lowercase() as usize;
        hash = hash.wrapping_mul(HASH_FACTOR).wrapping_add(letter);
    }
    hash % HASHES
}

/// The definitions of the file.
fn definitions_of(alloc: Global, tokens: &[Token<'_>]) -> Result<Definitions, AllocError> {
    let Ok(mut last) = no_numbers(alloc, HASHES) else {
        return Err(AllocError);
    };
    let Ok(mut earlier) = no_numbers(alloc, tokens.len()) else {
        return Err(AllocError);
    };
    for at in 0..tokens.len() {
        if defined_at(tokens, at).is_some() {
            let hash = hash_of(text_at(tokens, at));
            put_number(&mut earlier, at, number_at(&last, hash));
            put_number(&mut last, hash, at);
        }
    }
    Ok(Definitions { last, earlier })
}

/// The token where a name of the file is defined; [`NONE`] for the property `name`.
fn definition_of(tokens: &[Token<'_>], definitions: &Definitions, text: &[u8]) -> usize {
    let mut at = number_at(&definitions.last, hash_of(text));
    for _ in 0..tokens.len() {
        if at == NONE || is_named(tokens, at, text) {
            return at;
        }
        at = number_at(&definitions.earlier, at);
    }
    NONE
}

/// The token where a local of a routine is defined; [`NONE`] where the routine has none of this name.
fn local_of(tokens: &[Token<'_>], routine: Routine, text: &[u8]) -> usize {
    for number in after(routine.name, 1)..routine.body {
        if is_name(tokens, number) && is_named(tokens, number, text) {
            return number;
        }
    }
    NONE
}

/// Gives the locals in a routine their meaning: they hide names of the file.
fn mean_locals(tokens: &[Token<'_>], routine: Routine, meant: &mut [usize]) {
    for at in after(routine.name, 1)..routine.end {
        if is_name(tokens, at) {
            let local = local_of(tokens, routine, text_at(tokens, at));
            if local != NONE {
                put_number(meant, at, local);
            }
        }
    }
}

/// For each token the number of the token where its name is defined, which may be itself. [`NONE`]
/// for the property `name`, and for what is no name.
pub fn meanings_of(
    alloc: Global,
    tokens: &[Token<'_>],
    routines: &[Routine],
) -> Result<Vec<usize>, AllocError> {
    let Ok(definitions) = definitions_of(alloc, tokens) else {
        return Err(AllocError);
    };
    let Ok(mut meant) = no_numbers(alloc, tokens.len()) else {
        return Err(AllocError);
    };
    for at in 0..tokens.len() {
        if is_name(tokens, at) {
            let definition = definition_of(tokens, &definitions, text_at(tokens, at));
            put_number(&mut meant, at, definition);
        }
    }
    for routine in routines {
        mean_locals(tokens, *routine, &mut meant);
    }
    Ok(meant)
}
