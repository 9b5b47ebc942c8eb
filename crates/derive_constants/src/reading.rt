//! The number that tokens are.

ghost use Rattle.std.specs.Prelude.{◌≡◌, ◌∷◌, [], IfOk, OnOk, reverse};
ghost use Rattle.syntax_lexer.specs.declared.token.Position.{Position};
ghost use Rattle.syntax_lexer.specs.Token.{lexeme, lexeme_of, lexemes};
ghost use Rattle.derive_constants.specs.Held.{known_of, read};
ghost use Rattle.derive_constants.specs.Values as spec;

use crate::arithmetic::{apply, prefixed};
use crate::constant::Known;
use crate::pending::Pending;
use std::alloc::{AllocError, Global};
use syntax_lexer::{Kind, Sign, Token, Word};

/// How far a computed constant is.
#[derive(Clone, Copy)]
pub enum State {
    /// A number is wanted.
    Wants,

    /// There is one.
    Has(u16),

    /// The tokens are no computed constant.
    Nothing,
}

/// A computed constant that is read up to a token.
#[derive(Drop)]
pub struct Reading {
    pub state: State,

    /// What waits for a number, the last at the end.
    pub waiting: Vec<Pending>,
}

// The number of a reserved word.
fn word_number(word: Word) -> Option<u16>
    ensures { result ≡ spec.word_number word }
{
    match word {
        Word::True => Some(1),
        Word::False | Word::Nothing => Some(0),
        _ => None,
    }
}

// The number of one token.
fn operand(alloc: Global, known: &Known, kind: Kind<'_>) -> Result<Option<u16>, AllocError>
    ensures { (p : Position) → IfOk result (λ number. number
        ≡ spec.operand (known_of known.now) (lexeme_of kind.entry p)) }
{
    match kind {
        Kind::Number(number) => Ok(Some(number)),
        Kind::Character(byte) => Ok(Some(u16::from(byte))),
        Kind::Reserved(word) => Ok(word_number(word)),
        Kind::Name(name) => known.number(alloc, name),
        _ => Ok(None),
    }
}

impl Reading {
    // Nothing is read yet.
    fn new(alloc: Global) -> Reading
        ensures { read result ≡ spec.wants [] }
    {
        Reading {
            state: State::Wants,
            waiting: Vec::new(alloc),
        }
    }

    // A number is wanted after what is put at the end of what waits.
    fn wait(&mut self, pending: Pending) -> Result<(), AllocError>
        ensures { OnOk result (read self.new
            ≡ spec.wants (pending ∷ reverse self.old.waiting.items)) }
    {
        self.waiting.push(pending)?;
        self.state = State::Wants;
        Ok(())
    }

    // A number after prefixes and the sign of a product.
    fn tight(&mut self, number: Option<u16>)
        ensures { read self.new ≡ spec.tight number (reverse self.old.waiting.items) }
    {
        let mut number = number;
        while let Some(value) = number {
            number = match self.waiting.last() {
                Some(Pending::Prefix(sign)) => Some(prefixed(*sign, value)),
                Some(Pending::Times(before, sign)) => apply(*sign, *before, value),
                _ => {
                    self.state = State::Has(value);
                    return;
                }
            };
            self.waiting.pop();
        }
        self.state = State::Nothing;
    }

    // A product after the sign of a sum.
    fn loose(&mut self, value: u16)
        ensures { read self.new ≡ spec.loose value (reverse self.old.waiting.items) }
    {
        match self.waiting.last() {
            Some(Pending::Adds(before, sign)) => {
                let sum = apply(*sign, *before, value);
                self.waiting.pop();
                self.tight(sum);
            }
            _ => self.state = State::Has(value),
        }
    }

    // A sum goes on after its sign.
    fn add(&mut self, value: u16, sign: Sign) -> Result<(), AllocError>
        ensures { OnOk result (read self.new
            ≡ spec.adds sign (spec.loose value (reverse self.old.waiting.items))) }
    {
        self.loose(value);
        match self.state {
            State::Has(sum) => self.wait(Pending::Adds(sum, sign)),
            _ => {
                self.state = State::Nothing;
                Ok(())
            }
        }
    }

    // A parenthesis closes.
    fn close(&mut self, value: u16)
        ensures { read self.new
            ≡ spec.closes (spec.loose value (reverse self.old.waiting.items)) }
    {
        self.loose(value);
        match (self.state, self.waiting.pop()) {
            (State::Has(sum), Some(Pending::Bracket)) => self.tight(Some(sum)),
            _ => self.state = State::Nothing,
        }
    }

    // A sign where a number is wanted.
    fn want_sign(&mut self, sign: Sign) -> Result<(), AllocError>
        ensures { OnOk result (read self.new
            ≡ spec.before_operand (reverse self.old.waiting.items) sign) }
    {
        match sign {
            Sign::Minus => self.wait(Pending::Prefix(Sign::Minus)),
            Sign::Tilde => self.wait(Pending::Prefix(Sign::Tilde)),
            Sign::OpenParenthesis => self.wait(Pending::Bracket),
            _ => {
                self.state = State::Nothing;
                Ok(())
            }
        }
    }

    // A token where a number is wanted.
    fn want(&mut self, known: &Known, kind: Kind<'_>) -> Result<(), AllocError>
        ensures { (p : Position) → OnOk result (read self.new
            ≡ spec.wanted (known_of known.now) (reverse self.old.waiting.items)
            (lexeme_of kind.entry p)) }
    {
        match kind {
            Kind::Sign(sign) => self.want_sign(sign),
            _ => {
                let alloc = *self.waiting.allocator();
                let number = operand(alloc, known, kind)?;
                self.tight(number);
                Ok(())
            }
        }
    }

    // A sign after a number.
    fn go_on(&mut self, value: u16, sign: Sign) -> Result<(), AllocError>
        ensures { OnOk result (read self.new
            ≡ spec.after_sign value (reverse self.old.waiting.items) sign) }
    {
        match sign {
            Sign::Plus | Sign::Minus => self.add(value, sign),
            Sign::Star | Sign::Slash | Sign::Percent | Sign::Ampersand | Sign::Bar => {
                self.wait(Pending::Times(value, sign))
            }
            Sign::CloseParenthesis => {
                self.close(value);
                Ok(())
            }
            _ => {
                self.state = State::Nothing;
                Ok(())
            }
        }
    }

    // One token more.
    fn read(&mut self, known: &Known, token: Token<'_>) -> Result<(), AllocError>
        ensures { OnOk result (read self.new
            ≡ spec.reads (known_of known.now) (read self.old) (lexeme token.entry)) }
    {
        match (self.state, token.kind) {
            (State::Wants, kind) => self.want(known, kind),
            (State::Has(value), Kind::Sign(sign)) => self.go_on(value, sign),
            _ => {
                self.state = State::Nothing;
                Ok(())
            }
        }
    }

    // The number that all tokens are.
    fn end(&mut self) -> Option<u16>
        ensures { result ≡ spec.at_end (read self.old) }
    {
        let State::Has(value) = self.state else {
            return None;
        };
        self.loose(value);
        match self.state {
            State::Has(sum) if self.waiting.is_empty() => Some(sum),
            _ => None,
        }
    }
}

/// The number that all these tokens are, as a computed constant; none where they are none.
///
/// # Errors
///
/// `AllocError` where memory is refused.
pub fn value_in(
    alloc: Global,
    known: &Known,
    tokens: &[Token<'_>],
) -> Result<Option<u16>, AllocError>
    ensures { IfOk result (λ number. number
        ≡ spec.value_in (known_of known.now) (lexemes tokens.now)) }
{
    let mut reading = Reading::new(alloc);
    for token in tokens {
        reading.read(known, *token)?;
    }
    Ok(reading.end())
}
