//! What is passed before and after the statements in another.

use crate::passing::Passing;
use crate::tests_of_cases::test_count;
use code_drafts::{Destination, Wanted, alone, is_one_test};
use meaning::{Action, Span, Value};
use std::alloc::AllocError;
use syntax_lexer::Sign;

/// How many items end a round of an `objectloop` over all objects, and go back.
const NEXT_OBJECT_ITEMS: usize = 2;

/// How many items give the variable of an `objectloop` a relative of an object.
const RELATIVE_ITEMS: usize = 3;

/// How many items end a round of an `objectloop` over children, and go back.
const SIBLING_ITEMS: usize = RELATIVE_ITEMS + 1;

/// Passes what is before the first statement in another: a word, and what is in parentheses after it.
/// Its line.
pub fn pass_opening(
    passing: &mut Passing<'_, '_>,
    statement: &Action<'_>,
) -> Result<usize, AllocError> {
    let line = passing.line();
    passing.mark_line(line)?;
    pass_opening_items(passing, statement)?;
    passing.pass_heading();
    Ok(line)
}

/// Passes the items of what is before the first statement in another.
fn pass_opening_items(
    passing: &mut Passing<'_, '_>,
    statement: &Action<'_>,
) -> Result<(), AllocError> {
    match statement {
        Action::If(test, _) => passing.pass_test(test, false),
        Action::IfElse(test, _, _) => passing.pass_test(test, false),
        Action::While(test, _) => passing.pass_test(test, false),
        Action::For(before, test, _, _) => passing.pass_for(before, test),
        Action::EachWhere(_, test, _) => passing.pass_each_where(test),
        Action::EachIn(_, parent, _) => passing.pass_each_in(parent),
        _ => {
            passing.pass_items(1);
            Ok(())
        }
    }
}

/// Passes what follows the statement in an `if` or a loop but `do`, whose line this is: the items that
/// end a round, and go back.
pub fn pass_closing(
    passing: &mut Passing<'_, '_>,
    statement: &Action<'_>,
    line: usize,
) -> Result<(), AllocError> {
    match statement {
        Action::While(_, _) => passing.pass_back(1, line),
        Action::For(_, _, after, _) => passing.pass_next_round(after, line),
        Action::EachObject(_, _) => passing.pass_back(NEXT_OBJECT_ITEMS, line),
        Action::EachWhere(_, _, _) => passing.pass_back(NEXT_OBJECT_ITEMS, line),
        Action::EachIn(_, _, _) => passing.pass_back(SIBLING_ITEMS, line),
        _ => Ok(()),
    }
}

impl Passing<'_, '_> {
    /// Passes `else`, and the jump over what follows it.
    pub fn pass_else(&mut self) -> Result<(), AllocError> {
        self.mark()?;
        self.pass_items(1);
        self.pass_token();
        Ok(())
    }

    /// Passes `until` with its condition, and the way back if that is an item of its own.
    pub fn pass_until(&mut self, test: &Value) -> Result<(), AllocError> {
        self.mark()?;
        self.pass_test(test, true)?;
        if !is_one_test(test) {
            self.pass_items(1);
        }
        self.pass_through(Sign::Semicolon);
        Ok(())
    }

    /// Passes the items of what a `for` does before the first round, and of its test.
    fn pass_for(
        &mut self,
        before: &Option<Box<Value>>,
        test: &Option<Box<Value>>,
    ) -> Result<(), AllocError> {
        self.pass_once(before)?;
        self.pass_test_if(test)
    }

    /// Passes what a `for` does after each round, and the way back. Both are of its line.
    fn pass_next_round(
        &mut self,
        after: &Option<Box<Value>>,
        line: usize,
    ) -> Result<(), AllocError> {
        self.mark_line(line)?;
        self.pass_once(after)?;
        self.pass_items(1);
        Ok(())
    }

    /// Passes the items with which an `objectloop` over the objects begins for which a condition holds.
    fn pass_each_where(&mut self, test: &Value) -> Result<(), AllocError> {
        self.pass_items(1);
        self.pass_test(test, false)
    }

    /// Passes the items with which an `objectloop` over the children of an object begins.
    fn pass_each_in(&mut self, parent: &Value) -> Result<(), AllocError> {
        self.pass_operand(parent, alone(parent))?;
        self.pass_items(RELATIVE_ITEMS);
        Ok(())
    }

    /// Passes the items that end a round of a loop, and go back. They are of the loop's line.
    fn pass_back(&mut self, count: usize, line: usize) -> Result<(), AllocError> {
        self.mark_line(line)?;
        self.pass_items(count);
        Ok(())
    }

    /// Passes `switch` with its value, which is put aside, and the brace after it.
    pub fn pass_switch(&mut self, value: &Value) -> Result<(), AllocError> {
        self.mark()?;
        self.pass_value(value, Wanted::Word(Destination::Aside))?;
        self.pass_heading();
        self.pass_token();
        Ok(())
    }

    /// Passes the values of a case. Its tests are of the line where these begin.
    pub fn pass_values(&mut self, spans: &[Span]) -> Result<(), AllocError> {
        self.mark()?;
        self.pass_items(test_count(spans));
        self.pass_through(Sign::Colon);
        Ok(())
    }
}
