//! Statements that have no items.

use crate::counts::value_count;
use code_drafts::{Destination, Wanted};
use meaning::{Action, Span, Value};
use std::alloc::{AllocError, Global};

/// Whether an expression of which something is wanted has no items.
fn is_value_silent(alloc: Global, value: &Value, wanted: Wanted) -> Result<bool, AllocError> {
    let count = value_count(alloc, value, wanted)?;
    Ok(count == 0)
}

/// Whether the value and the cases of a `switch` have no items.
fn is_choice_silent(
    alloc: Global,
    value: &Value,
    cases: &[(Vec<Span>, Vec<Action<'_>>)],
) -> Result<bool, AllocError> {
    let aside = Wanted::Word(Destination::Aside);
    Ok(is_value_silent(alloc, value, aside)? && cases.is_empty())
}

/// Whether statements have no items.
#[cycle(silence)]
pub fn are_silent(alloc: Global, statements: &[Action<'_>]) -> Result<bool, AllocError> {
    for statement in statements {
        if !is_silent(alloc, statement)? {
            return Ok(false);
        }
    }
    Ok(true)
}

/// Whether a statement has no items.
#[cycle(silence)]
fn is_silent(alloc: Global, statement: &Action<'_>) -> Result<bool, AllocError> {
    match statement {
        Action::Empty => Ok(true),
        Action::Block(statements) => are_silent(alloc, statements),
        Action::Print(items) => Ok(items.is_empty()),
        Action::If(test, then) => {
            let tests = is_value_silent(alloc, test, Wanted::Branch(false, 0))?;
            if tests {
                is_silent(alloc, then)
            } else {
                Ok(false)
            }
        }
        Action::Switch(value, cases) => is_switch_silent(alloc, cases, value),
        Action::Effect(value) => {
            is_value_silent(alloc, value, Wanted::Word(Destination::Nowhere))
        }
        _ => Ok(false),
    }
}

/// Whether a `switch` has no items.
#[cycle(silence)]
fn is_switch_silent<'a>(
    alloc: Global,
    cases: &(Vec<(Vec<Span>, Vec<Action<'a>>)>, Option<Vec<Action<'a>>>),
    value: &Value,
) -> Result<bool, AllocError> {
    let choice = is_choice_silent(alloc, value, &cases.0)?;
    if choice {
        is_other_silent(alloc, &cases.1)
    } else {
        Ok(false)
    }
}

/// Whether the statements of `default` have no items.
#[cycle(silence)]
pub fn is_other_silent(alloc: Global, other: &Option<Vec<Action<'_>>>) -> Result<bool, AllocError> {
    match other {
        None => Ok(true),
        Some(statements) => are_silent(alloc, statements),
    }
}
