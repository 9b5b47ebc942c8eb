//! The token at which a rule is broken, and what is wanted there.

use crate::rules::WANTED;
use messages_parts::{Advice, Context, Defined, Definition, Want, around};
use std::alloc::Global;
use syntax::Token;

/// A token at which a rule is broken, among those of its source, and the memory for what is said of
/// it.
#[derive(Clone, Copy)]
pub struct Site<'t, 'a> {
    pub alloc: Global,
    pub tokens: &'t [Token<'a>],

    /// The number of the token.
    pub at: usize,

    pub token: Token<'a>,
}

impl<'t, 'a> Site<'t, 'a> {
    /// The token that begins at an offset. `None` where none does.
    pub fn at_offset(alloc: Global, tokens: &'t [Token<'a>], offset: usize) -> Option<Self> {
        for at in 0..tokens.len() {
            let token = tokens[at];
            if token.position.offset == offset {
                return Some(Self {
                    alloc,
                    tokens,
                    at,
                    token,
                });
            }
        }
        None
    }

    /// The definition around the token.
    pub fn around(self) -> Option<Defined> {
        around(self.tokens, self.at)
    }

    /// Its place, of which rules ask.
    pub fn place(self) -> Context<'t, 'a> {
        Context::new(b"", self.tokens, self.at, 0)
    }

    /// Its place with what is wanted there, where a definition of a kind is found by the name, or none.
    pub fn wanting(self, found: Option<Definition>) -> (Context<'t, 'a>, Want) {
        let place = match found {
            Some(what) => self.place().finding(what),
            None => self.place(),
        };
        let want = match place.told(WANTED) {
            Some(Advice::Want(want)) => want,
            _ => Want::Value,
        };
        (place.wanting(want), want)
    }
}
