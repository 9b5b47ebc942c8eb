//! The routines of a program.

use crate::numbers::NONE;
use messages_parts::{after, is_sign};
use std::alloc::{AllocError, Global};
use syntax_lexer::{Sign, Token};

/// Where a routine is, by the numbers of its tokens. Its locals are between its name and its body.
#[derive(Clone, Copy)]
pub struct Routine {
    pub name: usize,

    /// The token after the `;` that ends the head.
    pub body: usize,

    /// The `]`.
    pub end: usize,
}

/// The routines of a program, in order.
pub fn routines_of(alloc: Global, tokens: &[Token<'_>]) -> Result<Vec<Routine>, AllocError> {
    let mut routines = Vec::new(alloc);
    let mut routine = Routine {
        name: NONE,
        body: NONE,
        end: NONE,
    };
    for at in 0..tokens.len() {
        if is_sign(tokens, at, Sign::OpenBracket) {
            routine.name = after(at, 1);
            routine.body = NONE;
        } else if routine.body == NONE {
            if is_sign(tokens, at, Sign::Semicolon) {
                routine.body = after(at, 1);
            }
        } else if is_sign(tokens, at, Sign::CloseBracket) {
            routine.end = at;
            let Ok(()) = routines.push(routine) else {
                return Err(AllocError);
            };
        }
    }
    Ok(routines)
}
