//! Changes at a token that does not fit, which are tried with the parser.

use crate::attempts::{Ask, Attempt, Cause, Put, Try};
use messages_parts::{Context, NO_CONDITIONS, Spot, is_of, kinds};
use std::alloc::{AllocError, Global};
use syntax::{Kind, Sign, Token, discard, parse_placed};
use syntax_lexer::NO_MEMORY;

/// The tokens of a source, of which changed copies are tried, and whether memory was refused for
/// one. What is found then is of no use.
#[derive(Clone, Copy)]
pub struct Trial<'t, 'a> {
    pub alloc: Global,
    pub tokens: &'t [Token<'a>],
    pub is_refused: bool,
}

impl<'t, 'a> Trial<'t, 'a> {
    /// The offset of the first token that does not fit where something is put in the place of the
    /// tokens from one number to before another: that of no token where all fit, and 0 where memory
    /// is refused.
    pub fn reach(&mut self, from: usize, to: usize, put: Put) -> usize {
        let mut others = Vec::new(self.alloc);
        let reach = match add_changed(&mut others, self.tokens, from, to, put) {
            Ok(()) => first_misfit(self.alloc, &others),
            Err(refused) => Err(refused),
        };
        self.is_refused = self.is_refused || reach.is_err();
        reach.unwrap_or(0)
    }

    /// Whether a source goes on as is asked after the change that an attempt makes at a place.
    fn goes_on(&mut self, place: Context<'_, '_>, attempt: Try) -> bool {
        let end = match attempt.ask {
            Ask::Known => return true,
            Ask::Fits => Some(place.at),
            Ask::Helps => Some(end_from(self.tokens, place.at)),
            Ask::HelpsNext => Some(end_from(self.tokens, place.number(Spot::Next))),
            Ask::Mends => None,
        };
        let from = place.number(attempt.from);
        let reach = self.reach(from, place.number(attempt.to), attempt.put);
        match end {
            None => reach == usize::MAX,
            Some(end) => match self.tokens.get(end) {
                Some(token) => reach > token.position.offset,
                None => false,
            },
        }
    }

    /// The cause of the first attempt whose conditions hold at a place, and that does.
    pub fn cause_by(
        &mut self,
        place: Context<'_, '_>,
        attempts: &'static [Attempt],
    ) -> Option<Cause> {
        let mut conditions = NO_CONDITIONS;
        for attempt in attempts {
            match *attempt {
                Attempt::Where(condition) => conditions = place.passed(conditions, condition),
                Attempt::Try(attempt) => {
                    if conditions.any && self.goes_on(place, attempt) {
                        return Some(attempt.cause);
                    }
                    conditions = NO_CONDITIONS;
                }
            }
        }
        None
    }
}

/// The number of the token with which a statement, a definition or the head of one ends, from the
/// token of a number on: the first `;` or `{`, or the last token.
fn end_from(tokens: &[Token<'_>], number: usize) -> usize {
    for at in number..tokens.len() {
        if is_of(tokens, at, kinds!(Sign Semicolon OpenBrace)) {
            return at;
        }
    }
    tokens.len().saturating_sub(1)
}

/// Puts tokens after others, at the place of the one that is next.
fn add<'a>(others: &mut Vec<Token<'a>>, next: Token<'a>, put: Put) -> Result<(), AllocError> {
    let kind = match put {
        Put::Nothing => return Ok(()),
        Put::Name => Kind::Name(b"name"),
        Put::Word(word) => Kind::Reserved(word),
        Put::Sign(sign) => Kind::Sign(sign),
        Put::End => {
            let kind = Kind::Sign(Sign::CloseBracket);
            others.push(Token { kind, ..next })?;
            Kind::Sign(Sign::Semicolon)
        }
    };
    others.push(Token { kind, ..next })?;
    Ok(())
}

/// Puts the tokens of a source after a change into others. Nothing is put where the source has no
/// token.
fn add_changed<'a>(
    others: &mut Vec<Token<'a>>,
    tokens: &[Token<'a>],
    from: usize,
    to: usize,
    put: Put,
) -> Result<(), AllocError> {
    others.extend_from_slice(tokens.split_at(from.min(tokens.len())).0)?;
    if let Some(next) = tokens.get(from) {
        add(others, *next, put)?;
    }
    others.extend_from_slice(tokens.split_at(to.min(tokens.len())).1)?;
    Ok(())
}

/// The offset of the first token that does not fit; that of no token where all fit.
fn first_misfit(alloc: Global, tokens: &[Token<'_>]) -> Result<usize, AllocError> {
    match parse_placed(alloc, tokens) {
        Ok(program) => {
            discard(program);
            Ok(usize::MAX)
        }
        Err(placed) if placed.fault.number == NO_MEMORY => Err(AllocError),
        Err(placed) => Ok(placed.offset.unwrap_or(0)),
    }
}
