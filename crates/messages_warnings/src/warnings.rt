//! All warnings about a program.

ghost use Rattle.std.specs.Prelude.{IfOk, length};
ghost use Rattle.messages_warnings.specs.InOrder.{AreInOrder};

use crate::bodies::mark_empty_bodies;
use crate::calls::calls_of;
use crate::conditions::mark_conditions;
use crate::letters::{Context, Groups, take_definitions, take_routine};
use crate::marks::{Marks, Warning, all_marks};
use crate::meanings::meanings_of;
use crate::routines::{Routine, routines_of};
use crate::unreached::mark_unreached;
use crate::unused::{mark_definitions, mark_locals};
use crate::uses::{FirstUse, uses_of};
use std::alloc::{AllocError, Global};
use syntax_lexer::Token;

/// The values in groups, among which characters are likely to be words.
fn groups_of(context: Context<'_, '_>, routines: &[Routine]) -> Result<Groups, AllocError> {
    let tokens = context.tokens;
    let Ok(mut groups) = Groups::none(context.alloc, tokens.len()) else {
        return Err(AllocError);
    };
    let mut end = 0;
    for routine in routines {
        take_definitions(tokens, end, routine.name, &mut groups);
        take_routine(context, *routine, &mut groups);
        end = routine.end;
    }
    take_definitions(tokens, end, tokens.len(), &mut groups);
    if groups.is_refused {
        Err(AllocError)
    } else {
        Ok(groups)
    }
}

/// All that is said of a program, by the first uses of its names and the most arguments of its calls.
fn marks_by(
    context: Context<'_, '_>,
    routines: &[Routine],
    uses: &[FirstUse],
    most_arguments: &[usize],
) -> Result<Marks, AllocError> {
    let tokens = context.tokens;
    let Ok(mut marks) = Marks::none(context.alloc, tokens.len()) else {
        return Err(AllocError);
    };
    mark_definitions(tokens, uses, &mut marks);
    mark_conditions(tokens, &mut marks);
    mark_empty_bodies(tokens, &mut marks);
    for routine in routines {
        mark_unreached(tokens, *routine, &mut marks);
        mark_locals(*routine, uses, most_arguments, &mut marks);
    }
    match groups_of(context, routines) {
        Ok(groups) => {
            groups.mark(&mut marks);
            Ok(marks)
        }
        Err(refused) => Err(refused),
    }
}

/// All that is said of a program, of which it is known what each name means.
fn marks_meant(
    alloc: Global,
    tokens: &[Token<'_>],
    routines: &[Routine],
    meant: &[usize],
) -> Result<Marks, AllocError> {
    let Ok(calls) = calls_of(alloc, tokens, meant) else {
        return Err(AllocError);
    };
    let context = Context {
        alloc,
        tokens,
        meant,
        openings: &calls.openings,
    };
    match uses_of(alloc, tokens, meant, routines) {
        Ok(uses) => marks_by(context, routines, &uses, &calls.most_arguments),
        Err(refused) => Err(refused),
    }
}

/// All that is said of the tokens of a program.
fn marks_of(alloc: Global, tokens: &[Token<'_>]) -> Result<Marks, AllocError> {
    let Ok(routines) = routines_of(alloc, tokens) else {
        return Err(AllocError);
    };
    match meanings_of(alloc, tokens, &routines) {
        Ok(meant) => marks_meant(alloc, tokens, &routines, &meant),
        Err(refused) => Err(refused),
    }
}

/// The warnings about the tokens of a program that is accepted, in their order, and at most one for
/// each token.
///
/// # Errors
///
/// `AllocError` where memory is refused.
pub fn warnings_of(alloc: Global, tokens: &[Token<'_>]) -> Result<Vec<Warning>, AllocError>
    ensures { IfOk result (λ v. AreInOrder (length tokens.now) v.items) }
{
    match marks_of(alloc, tokens) {
        Ok(marks) => all_marks(alloc, &marks, tokens.len()),
        Err(refused) => Err(refused),
    }
}
