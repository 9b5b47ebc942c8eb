//! Names that are never used, and locals that are read before they are set.

use crate::marks::{Concern, Marks};
use crate::numbers::{NONE, number_at};
use crate::routines::Routine;
use crate::uses::FirstUse;
use messages_parts::{Definition, after, defined_at, is_named};
use syntax_lexer::Token;

/// The name of the routine that the story calls.
const MAIN: &[u8] = b"Main";

/// The first use of the name that the token of a number defines; `None` where there is none.
fn first_use(uses: &[FirstUse], at: usize) -> Option<FirstUse> {
    match uses.get(at) {
        Some(first) if first.at != NONE => Some(*first),
        _ => None,
    }
}

/// What is said of a definition whose name is never used.
fn unused(tokens: &[Token<'_>], at: usize) -> Option<Concern> {
    match defined_at(tokens, at) {
        Some(Definition::Global) => Some(Concern::UnusedGlobal),
        Some(Definition::Property) => Some(Concern::UnusedProperty),
        Some(Definition::Routine) if !is_named(tokens, at, MAIN) => Some(Concern::UnusedRoutine),
        _ => None,
    }
}

/// Marks each global, routine and property that is never used.
pub fn mark_definitions(tokens: &[Token<'_>], uses: &[FirstUse], marks: &mut Marks) {
    for at in 0..tokens.len() {
        if first_use(uses, at).is_none() {
            if let Some(concern) = unused(tokens, at) {
                marks.mark(at, concern);
            }
        }
    }
}

/// Marks each local of a routine that is never used, and the first use of each that is read before
/// anything sets it. Calls set the first locals, as many as their most arguments. Of a routine that
/// is never called no call is known.
pub fn mark_locals(
    routine: Routine,
    uses: &[FirstUse],
    most_arguments: &[usize],
    marks: &mut Marks,
) {
    let first = after(routine.name, 1);
    let set = after(first, number_at(most_arguments, routine.name));
    let is_called = first_use(uses, routine.name).is_some();
    for local in first..routine.body.saturating_sub(1) {
        match first_use(uses, local) {
            None => marks.mark(local, Concern::UnusedLocal(routine.name)),
            Some(first) if first.is_unset && is_called && local >= set => {
                marks.mark(first.at, Concern::Unset);
            }
            Some(_) => {}
        }
    }
}
