//! The marks of statements.

use crate::headings::{pass_closing, pass_opening};
use crate::passing::Passing;
use crate::silence::is_other_silent;
use crate::simple::pass_simple;
use meaning::{Action, Span, Value};
use std::alloc::AllocError;
use syntax_lexer::Sign;

/// Passes statements, one after another.
#[cycle(statements)]
pub fn pass_statements<'a>(
    passing: &mut Passing<'_, 'a>,
    statements: &[Action<'a>],
) -> Result<(), AllocError> {
    for statement in statements {
        pass_statement(passing, statement)?;
    }
    Ok(())
}

/// Passes a statement. It is marked where it has code of its own: at the beginning, and after each
/// statement in it.
#[cycle(statements)]
fn pass_statement<'a>(
    passing: &mut Passing<'_, 'a>,
    statement: &Action<'a>,
) -> Result<(), AllocError> {
    match statement {
        Action::Empty => {
            passing.pass_token();
            Ok(())
        }
        Action::Block(statements) => pass_block(passing, statements),
        Action::If(_, then) => pass_outer(passing, then, statement),
        Action::IfElse(_, then, otherwise) => pass_if_else(passing, then, otherwise, statement),
        Action::While(_, body) => pass_outer(passing, body, statement),
        Action::Do(body, test) => pass_do(passing, body, test),
        Action::For(_, _, _, body) => pass_outer(passing, body, statement),
        Action::Switch(value, cases) => pass_switch(passing, cases, value),
        Action::EachObject(_, body) => pass_outer(passing, body, statement),
        Action::EachWhere(_, _, body) => pass_outer(passing, body, statement),
        Action::EachIn(_, _, body) => pass_outer(passing, body, statement),
        _ => pass_simple(passing, statement),
    }
}

/// Passes a statement with one other in it: an `if` without `else`, or a loop but `do`.
#[cycle(statements)]
fn pass_outer<'a>(
    passing: &mut Passing<'_, 'a>,
    inner: &Action<'a>,
    statement: &Action<'a>,
) -> Result<(), AllocError> {
    let line = pass_opening(passing, statement)?;
    pass_statement(passing, inner)?;
    pass_closing(passing, statement, line)
}

/// Passes a block.
#[cycle(statements)]
fn pass_block<'a>(
    passing: &mut Passing<'_, 'a>,
    statements: &[Action<'a>],
) -> Result<(), AllocError> {
    passing.pass_token();
    pass_statements(passing, statements)?;
    passing.pass_token();
    Ok(())
}

/// Passes an `if` with `else`. The jump over the second statement is of the line of the `else`.
#[cycle(statements)]
fn pass_if_else<'a>(
    passing: &mut Passing<'_, 'a>,
    then: &Action<'a>,
    otherwise: &Action<'a>,
    statement: &Action<'a>,
) -> Result<(), AllocError> {
    pass_opening(passing, statement)?;
    pass_statement(passing, then)?;
    passing.pass_else()?;
    pass_statement(passing, otherwise)
}

/// Passes a `do`. Its test is of the line of the `until`.
#[cycle(statements)]
fn pass_do<'a>(
    passing: &mut Passing<'_, 'a>,
    body: &Action<'a>,
    test: &Value,
) -> Result<(), AllocError> {
    passing.pass_token();
    pass_statement(passing, body)?;
    passing.pass_until(test)
}

/// Passes a `switch`: its word is put aside, and its cases follow.
#[cycle(statements)]
fn pass_switch<'a>(
    passing: &mut Passing<'_, 'a>,
    cases: &(Vec<(Vec<Span>, Vec<Action<'a>>)>, Option<Vec<Action<'a>>>),
    value: &Value,
) -> Result<(), AllocError> {
    passing.pass_switch(value)?;
    let is_silent = is_other_silent(passing.alloc(), &cases.1)?;
    pass_cases(passing, &cases.0, is_silent)?;
    pass_other(passing, &cases.1)?;
    passing.pass_token();
    Ok(())
}

/// Passes the cases of a `switch` whose `default` is absent or has no items, or has some.
#[cycle(statements)]
fn pass_cases<'a>(
    passing: &mut Passing<'_, 'a>,
    cases: &[(Vec<Span>, Vec<Action<'a>>)],
    is_silent: bool,
) -> Result<(), AllocError> {
    for number in 0..cases.len() {
        pass_case(passing, &cases[number])?;
        // The way over what follows in the `switch`.
        if !is_silent || number + 1 < cases.len() {
            passing.pass_items(1);
        }
    }
    Ok(())
}

/// Passes a case: its tests, and its statements.
#[cycle(statements)]
fn pass_case<'a>(
    passing: &mut Passing<'_, 'a>,
    case: &(Vec<Span>, Vec<Action<'a>>),
) -> Result<(), AllocError> {
    passing.pass_values(&case.0)?;
    pass_statements(passing, &case.1)
}

/// Passes the statements of `default`.
#[cycle(statements)]
fn pass_other<'a>(
    passing: &mut Passing<'_, 'a>,
    other: &Option<Vec<Action<'a>>>,
) -> Result<(), AllocError> {
    match other {
        None => Ok(()),
        Some(statements) => {
            passing.pass_through(Sign::Colon);
            pass_statements(passing, statements)
        }
    }
}
