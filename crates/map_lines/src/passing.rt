//! What is passed on the way through a routine: the tokens of its statements, and their items.

use crate::counts::{operand_count, value_count};
use crate::cursor::Cursor;
use crate::mark::Mark;
use code_drafts::{Destination, Operand, Wanted, alone};
use meaning::{Printed, Value};
use std::alloc::{AllocError, Global};
use syntax_lexer::Sign;

/// The way through a routine.
#[derive(Drop)]
pub struct Passing<'t, 'a> {
    alloc: Global,

    /// The tokens that are not passed yet.
    cursor: Cursor<'t, 'a>,

    /// How many items are passed since the last mark.
    items: usize,

    marks: Vec<Mark>,
}

impl<'t, 'a> Passing<'t, 'a> {
    /// The way from a token on, before the first item.
    pub fn new(alloc: Global, cursor: Cursor<'t, 'a>) -> Self {
        Passing {
            alloc,
            cursor,
            items: 0,
            marks: Vec::new(alloc),
        }
    }

    /// The tokens that are left.
    pub fn rest(&self) -> Cursor<'t, 'a> {
        self.cursor
    }

    /// The marks that were made.
    pub fn into_marks(self) -> Vec<Mark> {
        self.marks
    }
}

impl Passing<'_, '_> {
    pub fn alloc(&self) -> Global {
        self.alloc
    }

    /// The line of the next token.
    pub fn line(&self) -> usize {
        self.cursor.line()
    }

    /// Passes a token.
    pub fn pass_token(&mut self) {
        self.cursor.pass(1);
    }

    /// Passes a word, and what is in parentheses after it.
    pub fn pass_heading(&mut self) {
        self.cursor.pass(1);
        self.cursor.pass_parentheses();
    }

    /// Passes all tokens up to the next sign of a kind, and that.
    pub fn pass_through(&mut self, sign: Sign) {
        self.cursor.pass_through(sign);
    }

    /// Marks that the items from here on are of the line of the next token.
    pub fn mark(&mut self) -> Result<(), AllocError> {
        let line = self.line();
        self.mark_line(line)
    }

    /// Marks that the items from here on are of a line.
    pub fn mark_line(&mut self, line: usize) -> Result<(), AllocError> {
        let items = self.items;
        self.items = 0;
        self.marks.push(Mark { items, line })?;
        Ok(())
    }

    /// Passes so many items.
    pub fn pass_items(&mut self, count: usize) {
        self.items = self.items.saturating_add(count);
    }

    /// Passes the items of an expression of which something is wanted.
    pub fn pass_value(&mut self, value: &Value, wanted: Wanted) -> Result<(), AllocError> {
        let count = value_count(self.alloc, value, wanted)?;
        self.pass_items(count);
        Ok(())
    }

    /// Passes the items of a condition.
    pub fn pass_test(&mut self, test: &Value, when: bool) -> Result<(), AllocError> {
        self.pass_value(test, Wanted::Branch(when, 0))
    }

    /// Passes the items that push an operand, if it is pushed.
    pub fn pass_operand(&mut self, value: &Value, operand: Operand) -> Result<(), AllocError> {
        let count = operand_count(self.alloc, value, operand)?;
        self.pass_items(count);
        Ok(())
    }

    /// Passes an item that takes the word of an expression alone, and what pushes that.
    pub fn pass_alone(&mut self, value: &Value) -> Result<(), AllocError> {
        self.pass_operand(value, alone(value))?;
        self.pass_items(1);
        Ok(())
    }

    /// Passes the items of a part of a `for` whose word goes nowhere, if it is there.
    pub fn pass_once(&mut self, part: &Option<Box<Value>>) -> Result<(), AllocError> {
        match part {
            None => Ok(()),
            Some(value) => self.pass_value(value, Wanted::Word(Destination::Nowhere)),
        }
    }

    /// Passes the items of the test of a `for`, if it is there.
    pub fn pass_test_if(&mut self, test: &Option<Box<Value>>) -> Result<(), AllocError> {
        match test {
            None => Ok(()),
            Some(value) => self.pass_test(value, false),
        }
    }

    /// Passes the items of what `print` prints.
    pub fn pass_prints(&mut self, items: &[Printed<'_>]) -> Result<(), AllocError> {
        for item in items {
            match item {
                Printed::Text(_) => self.pass_items(1),
                Printed::Character(value) => self.pass_alone(value)?,
                Printed::Number(value) => self.pass_alone(value)?,
                Printed::Name(value) => self.pass_alone(value)?,
            }
        }
        Ok(())
    }
}
