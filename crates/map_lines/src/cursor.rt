//! The tokens of a routine, passed one after another.

use syntax_lexer::{Kind, Sign, Token};

/// The tokens of a source, and the number of the next one.
#[derive(Clone, Copy)]
pub struct Cursor<'t, 'a> {
    pub tokens: &'t [Token<'a>],
    pub at: usize,
}

impl Cursor<'_, '_> {
    /// The line of the next token; that of none is 0.
    pub fn line(&self) -> usize {
        match self.tokens.get(self.at) {
            Some(token) => token.position.line,
            None => 0,
        }
    }

    /// Whether the next token is a sign.
    fn is_sign(&self, sign: Sign) -> bool {
        match self.tokens.get(self.at) {
            Some(token) => match token.kind {
                Kind::Sign(found) => found as u8 == sign as u8,
                _ => false,
            },
            None => false,
        }
    }

    /// Passes so many tokens.
    pub fn pass(&mut self, count: usize) {
        self.at = self.at.saturating_add(count);
    }

    /// Passes all tokens up to the next sign of a kind, and that.
    pub fn pass_through(&mut self, sign: Sign) {
        for _ in self.at..self.tokens.len() {
            let is_last = self.is_sign(sign);
            self.pass(1);
            if is_last {
                return;
            }
        }
    }

    /// Passes what is in parentheses, the next token's and all within.
    pub fn pass_parentheses(&mut self) {
        let mut open: usize = 0;
        for _ in self.at..self.tokens.len() {
            if self.is_sign(Sign::OpenParenthesis) {
                open = open.saturating_add(1);
            } else if self.is_sign(Sign::CloseParenthesis) {
                open = open.saturating_sub(1);
            }
            self.pass(1);
            if open == 0 {
                return;
            }
        }
    }

    /// Passes all tokens before the one at an offset of the source.
    pub fn pass_to(&mut self, offset: usize) {
        for _ in self.at..self.tokens.len() {
            match self.tokens.get(self.at) {
                Some(token) if token.position.offset < offset => self.pass(1),
                _ => return,
            }
        }
    }
}
