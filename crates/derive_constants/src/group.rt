//! Tokens of a directive that are still to be written.

ghost use Rattle.std.specs.Prelude.{◌≡◌, ◌<◌, ◌+◌, ◌^◌, ◌++◌, OnOk};
ghost use Rattle.syntax_lexer.specs.declared.token.Position.{Position};
ghost use Rattle.syntax_lexer.specs.Token.{lexeme, lexeme_of, lexemes};
ghost use Rattle.derive_tokens.specs.Pieces.{derived_all};
ghost use Rattle.derive_constants.specs.Entries as spec;
ghost use Rattle.derive_constants.specs.Held.{known_of, group_of, opened_in, Takes};

use crate::constant::Known;
use crate::putting::{put_folded, put_token, put_tokens};
use derive_tokens::Piece;
use std::alloc::{AllocError, Global};
use syntax_lexer::{Kind, Sign, Token};

/// What is still to be written.
#[derive(Clone, Copy)]
pub enum Waiting<'a> {
    Nothing,

    /// A minus.
    Minus(Token<'a>),

    /// The tokens that are held, from a parenthesis on; so many are open.
    Opened(usize),
}

/// Tokens of a directive that are still to be written.
#[derive(Drop)]
pub struct Group<'a> {
    pub waiting: Waiting<'a>,
    pub held: Vec<Token<'a>>,
}

impl<'a> Group<'a> {
    /// No token is.
    pub fn new(alloc: Global) -> Group<'a>
        ensures { result.waiting ≡ Waiting.Nothing }
    {
        Group {
            waiting: Waiting::Nothing,
            held: Vec::new(alloc),
        }
    }

    // A token that belongs to nothing before it.
    fn begin(&mut self, out: &mut Vec<Piece<'a>>, token: Token<'a>) -> Result<(), AllocError>
        ensures { OnOk result (Takes out.old.items out.new.items self.old self.new
            (spec.alone (lexeme token.entry))) }
    {
        match token.kind {
            Kind::Sign(Sign::OpenParenthesis) => {
                self.held.clear();
                self.held.push(token)?;
                self.waiting = Waiting::Opened(1);
                Ok(())
            }
            Kind::Sign(Sign::Minus) => {
                self.waiting = Waiting::Minus(token);
                Ok(())
            }
            _ => {
                self.waiting = Waiting::Nothing;
                put_token(out, token)?;
                Ok(())
            }
        }
    }

    // A token after a minus.
    fn take_after_minus(
        &mut self,
        out: &mut Vec<Piece<'a>>,
        known: &Known,
        minus: Token<'a>,
        token: Token<'a>,
    ) -> Result<(), AllocError>
        ensures { OnOk result (Takes out.old.items out.new.items self.old self.new
            (spec.after_minus (known_of known.now) (lexeme minus.entry) (lexeme token.entry))) }
    {
        match token.kind {
            Kind::Sign(_) => {
                put_token(out, minus)?;
                self.begin(out, token)?;
                Ok(())
            }
            _ => {
                self.waiting = Waiting::Nothing;
                put_folded(out, known, &[minus, token])?;
                Ok(())
            }
        }
    }

    // The tokens from a parenthesis on, where one closes.
    fn close(
        &mut self,
        out: &mut Vec<Piece<'a>>,
        known: &Known,
        depth: usize,
    ) -> Result<(), AllocError>
        requires { self.old.waiting ≡ Waiting.Opened depth }
        ensures { OnOk result (Takes out.old.items out.new.items self.old self.new
            (spec.closed (known_of known.now) depth (lexemes self.old.held.items))) }
    {
        if depth > 1 {
            self.waiting = Waiting::Opened(depth - 1);
            return Ok(());
        }
        self.waiting = Waiting::Nothing;
        put_folded(out, known, &self.held)?;
        Ok(())
    }

    // A token after a parenthesis that is open, put at the end of those held.
    fn go_on(
        &mut self,
        out: &mut Vec<Piece<'a>>,
        known: &Known,
        depth: usize,
        kind: Kind<'a>,
    ) -> Result<(), AllocError>
        requires few { depth + 1 < 2 ^ 64 }
        requires waits { self.old.waiting ≡ Waiting.Opened depth }
        ensures { (p : Position) → OnOk result (Takes out.old.items out.new.items self.old self.new
            (spec.in_group (known_of known.now) depth (lexemes self.old.held.items)
            (lexeme_of kind.entry p))) }
    {
        match kind {
            Kind::Sign(Sign::OpenParenthesis) => {
                self.waiting = Waiting::Opened(depth + 1);
                Ok(())
            }
            Kind::Sign(Sign::CloseParenthesis) => {
                self.close(out, known, depth)?;
                Ok(())
            }
            Kind::Sign(Sign::OpenBracket) => {
                self.waiting = Waiting::Nothing;
                put_tokens(out, &self.held)?;
                Ok(())
            }
            _ => Ok(()),
        }
    }

    /// One token more, outside of brackets.
    pub fn take(
        &mut self,
        out: &mut Vec<Piece<'a>>,
        known: &Known,
        token: Token<'a>,
    ) -> Result<(), AllocError>
        requires { opened_in self.old.waiting + 1 < 2 ^ 64 }
        ensures { OnOk result (Takes out.old.items out.new.items self.old self.new
            (spec.turn (known_of known.now) (group_of self.old) (lexeme token.entry))) }
    {
        match self.waiting {
            Waiting::Nothing => self.begin(out, token),
            Waiting::Minus(minus) => self.take_after_minus(out, known, minus, token),
            Waiting::Opened(depth) => {
                self.held.push(token)?;
                self.go_on(out, known, depth, token.kind)?;
                Ok(())
            }
        }
    }

    /// Puts what is left at the end.
    pub fn put_left(&self, out: &mut Vec<Piece<'a>>) -> Result<(), AllocError>
        ensures { OnOk result (derived_all out.new.items
            ≡ derived_all out.old.items ++ spec.left (group_of self.now)) }
    {
        match self.waiting {
            Waiting::Nothing => Ok(()),
            Waiting::Minus(minus) => put_token(out, minus),
            Waiting::Opened(_) => put_tokens(out, &self.held),
        }
    }
}
