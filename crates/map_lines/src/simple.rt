//! Statements in which no other is.

use crate::passing::Passing;
use code_drafts::{Destination, Wanted, alone, left_of};
use meaning::{Action, Value};
use std::alloc::AllocError;
use syntax_lexer::Sign;

/// How many items a text alone has: it is printed with a new line, and the routine returns true.
const TEXT_ITEMS: usize = 3;

/// How many items of `print_ret` follow what is printed.
const RETURN_ITEMS: usize = 2;

/// Passes a statement in which no other is. All its code is of the line where it begins.
pub fn pass_simple(
    passing: &mut Passing<'_, '_>,
    statement: &Action<'_>,
) -> Result<(), AllocError> {
    passing.mark()?;
    pass_its_items(passing, statement)?;
    passing.pass_through(Sign::Semicolon);
    Ok(())
}

/// Passes the items of such a statement.
fn pass_its_items(passing: &mut Passing<'_, '_>, statement: &Action<'_>) -> Result<(), AllocError> {
    match statement {
        Action::Text(_) => pass_few(passing, TEXT_ITEMS),
        Action::Print(items) => passing.pass_prints(items),
        Action::PrintReturn(items) => {
            passing.pass_prints(items)?;
            pass_few(passing, RETURN_ITEMS)
        }
        Action::ReturnValue(value) => passing.pass_alone(value),
        Action::Give(object, _) => passing.pass_alone(object),
        Action::Move(object, into) => pass_move(passing, object, into),
        Action::Remove(object) => passing.pass_alone(object),
        Action::Effect(value) => passing.pass_value(value, Wanted::Word(Destination::Nowhere)),
        _ => pass_few(passing, 1),
    }
}

/// Passes so many items, which need no memory.
fn pass_few(passing: &mut Passing<'_, '_>, count: usize) -> Result<(), AllocError> {
    passing.pass_items(count);
    Ok(())
}

/// Passes the items of a `move`.
fn pass_move(
    passing: &mut Passing<'_, '_>,
    object: &Value,
    into: &Value,
) -> Result<(), AllocError> {
    passing.pass_operand(object, left_of(object, into))?;
    passing.pass_alone(into)
}
