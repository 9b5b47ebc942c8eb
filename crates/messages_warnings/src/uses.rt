//! Where names are used first.

use crate::loops::OpenStatements;
use crate::numbers::{NONE, number_at};
use crate::routines::Routine;
use messages_parts::{after, before, is_loop_variable, is_sign, is_step};
use std::alloc::{AllocError, Global};
use syntax_lexer::{Sign, Token};

/// The first use of a name.
#[derive(Clone, Copy)]
pub struct FirstUse {
    /// Its token; [`NONE`] where the name is never used.
    pub at: usize,

    /// The token with which the outermost loop around it begins; [`NONE`] without one.
    outermost: usize,

    /// Whether it reads the name, and no other use in that loop sets it.
    pub is_unset: bool,
}

/// Whether a value is assigned to an operand from one token to another, or it is stepped. Steps
/// count as assignments: to count from 0 on is no mistake.
fn is_changed(tokens: &[Token<'_>], first: usize, last: usize) -> bool {
    is_sign(tokens, after(last, 1), Sign::Assign)
        || is_step(tokens, after(last, 1))
        || is_step(tokens, before(first, 1))
}

/// Whether a name is in parentheses of its own that are changed.
fn is_changed_in_parentheses(tokens: &[Token<'_>], at: usize) -> bool {
    is_sign(tokens, before(at, 1), Sign::OpenParenthesis)
        && is_sign(tokens, after(at, 1), Sign::CloseParenthesis)
        && is_changed(tokens, before(at, 1), after(at, 1))
}

/// Whether the token of a number is a variable that is set there.
fn sets(tokens: &[Token<'_>], at: usize) -> bool {
    is_changed(tokens, at, at)
        || is_loop_variable(tokens, at)
        || is_changed_in_parentheses(tokens, at)
}

/// Notes a use of a name, which is the token of a number, in the outermost loop around it.
fn note(first: &mut FirstUse, at: usize, outermost: usize, is_set: bool) {
    if first.at == NONE {
        *first = FirstUse {
            at,
            outermost,
            is_unset: !is_set,
        };
    } else if is_set && outermost != NONE && outermost == first.outermost {
        first.is_unset = false;
    }
}

/// Notes the uses of names in the body of a routine, but for calls of itself.
fn note_body(
    alloc: Global,
    tokens: &[Token<'_>],
    meant: &[usize],
    routine: Routine,
    uses: &mut [FirstUse],
) -> Result<(), AllocError> {
    let mut open = OpenStatements::none(alloc);
    for at in routine.body..routine.end {
        open.take(tokens, at);
        let meaning = number_at(meant, at);
        if meaning < uses.len() && meaning != routine.name {
            note(&mut uses[meaning], at, open.outermost, sets(tokens, at));
        }
    }
    if open.is_refused {
        Err(AllocError)
    } else {
        Ok(())
    }
}

/// Notes the uses of names in the definitions from one token to another, which are no routines.
fn note_definitions(meant: &[usize], first: usize, end: usize, uses: &mut [FirstUse]) {
    for at in first..end {
        let meaning = number_at(meant, at);
        if meaning < uses.len() && meaning != at {
            note(&mut uses[meaning], at, NONE, true);
        }
    }
}

/// The first use of each name, by the token where it is defined.
pub fn uses_of(
    alloc: Global,
    tokens: &[Token<'_>],
    meant: &[usize],
    routines: &[Routine],
) -> Result<Vec<FirstUse>, AllocError> {
    let none = FirstUse {
        at: NONE,
        outermost: NONE,
        is_unset: false,
    };
    let Ok(mut uses) = vec![in alloc; none; tokens.len()] else {
        return Err(AllocError);
    };
    let mut end = 0;
    for routine in routines {
        note_definitions(meant, end, routine.name, &mut uses);
        let Ok(()) = note_body(alloc, tokens, meant, *routine, &mut uses) else {
            return Err(AllocError);
        };
        end = routine.end;
    }
    note_definitions(meant, end, tokens.len(), &mut uses);
    Ok(uses)
}
