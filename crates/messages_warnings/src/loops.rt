//! The loops around a place.

use crate::numbers::NONE;
use messages_parts::{after, is_word, kind_at};
use std::alloc::Global;
use syntax_lexer::{Kind, Sign, Token, Word};

/// A statement that has begun and not ended.
#[derive(Clone, Copy)]
enum Unended {
    /// `{` and what follows
    Block,

    /// `if`, whose first part is not ended
    If,

    /// `else`
    Else,

    /// A loop, whose body ends it; of a `do` what is after its body
    Loop,

    /// `do`, whose body is not ended
    Do,
}

/// The statements that are open at a place, and the loops among them.
#[derive(Drop)]
pub struct OpenStatements {
    unended: Vec<Unended>,

    /// How many of them are loops.
    loops: usize,

    /// Whether memory was refused for one. What is found then is of no use.
    pub is_refused: bool,

    /// The token with which the outermost loop begins; [`NONE`] where there is no loop.
    pub outermost: usize,
}

impl OpenStatements {
    /// None, outside of all routines.
    pub fn none(alloc: Global) -> OpenStatements {
        OpenStatements {
            unended: Vec::new(alloc),
            loops: 0,
            is_refused: false,
            outermost: NONE,
        }
    }

    /// A statement begins.
    fn begin(&mut self, begun: Unended) {
        if self.unended.push(begun).is_err() {
            self.is_refused = true;
        }
    }

    /// A loop begins with the token of a number.
    fn enter(&mut self, at: usize, begun: Unended) {
        self.begin(begun);
        if self.loops == 0 {
            self.outermost = at;
        }
        self.loops = self.loops.saturating_add(1);
    }

    /// The last statement ends.
    fn end_last(&mut self) {
        if let Some(Unended::Loop) = self.unended.pop() {
            self.loops = self.loops.saturating_sub(1);
            if self.loops == 0 {
                self.outermost = NONE;
            }
        }
    }

    /// Whether a statement goes on after one in it that ended, before an `else` or not. One that
    /// does has its next part before it.
    fn goes_on(&mut self, has_else: bool) -> bool {
        match self.unended.last_mut() {
            None => true,
            Some(last) => match *last {
                Unended::Block => true,
                Unended::If => {
                    *last = Unended::Else;
                    has_else
                }
                Unended::Do => {
                    *last = Unended::Loop;
                    true
                }
                Unended::Else => false,
                Unended::Loop => false,
            },
        }
    }

    /// A statement ends, and with it each that it ends.
    fn end(&mut self, has_else: bool) {
        for _ in 0..self.unended.len() {
            if self.goes_on(has_else) {
                return;
            }
            self.end_last();
        }
    }

    /// Takes the next token of a routine, which has a number.
    pub fn take(&mut self, tokens: &[Token<'_>], at: usize) {
        let has_else = is_word(tokens, after(at, 1), Word::Else);
        match kind_at(tokens, at) {
            Kind::Reserved(Word::If) => self.begin(Unended::If),
            Kind::Reserved(Word::While | Word::For | Word::Objectloop) => {
                self.enter(at, Unended::Loop);
            }
            Kind::Reserved(Word::Do) => self.enter(at, Unended::Do),
            Kind::Sign(Sign::OpenBrace) => self.begin(Unended::Block),
            Kind::Sign(Sign::CloseBrace) => {
                self.end_last();
                self.end(has_else);
            }
            Kind::Sign(Sign::Semicolon) => self.end(has_else),
            _ => {}
        }
    }
}
