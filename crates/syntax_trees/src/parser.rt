//! The tokens that are still to be read, and what is taken from their front.
//!
//! What reads a part of a source answers the tree alone, and leaves the tokens after it here: a
//! result that held both would have its lifetimes compared part by part, wherever it is made or
//! taken apart.

ghost use Rattle.std.specs.Prelude.{◌≡◌};
ghost use Rattle.syntax_trees.specs.Parse as spec;
ghost use Rattle.syntax_trees.specs.Parse.{Gives};
ghost use Rattle.syntax_trees.specs.Returned.{ahead};

use crate::error::{Fault, Parsed};
use crate::tokens::{fault_at, is_sign, is_word, peek, skip};
use std::alloc::Global;
use syntax_lexer::{Sign, Token, Word};

/// The tokens that are still to be read, and where memory comes from.
#[derive(Drop)]
pub struct Parser<'t, 'a> {
    pub alloc: Global,
    pub tokens: &'t [Token<'a>],
}

/// Goes past the next token.
pub fn pass<'t, 'a>(parser: &mut Parser<'t, 'a>)
    ensures { ahead parser.new ≡ spec.tail (ahead parser.old) }
{
    parser.tokens = skip(parser.tokens);
}

/// Goes past that sign.
///
/// # Errors
///
/// `Fault::Grammar` at the next token: it is not that sign.
#[tactic(auto, unfolding(crate::specs::Parse::expect))]
pub fn expect<'t, 'a>(parser: &mut Parser<'t, 'a>, sign: Sign) -> Parsed<()>
    ensures { Gives (λ _. ahead parser.new) result (spec.expect sign (ahead parser.old)) }
{
    if !is_sign(peek(parser.tokens), sign) {
        return Err(fault_at(Fault::Grammar, parser.tokens));
    }
    pass(parser);
    Ok(())
}

/// Goes past that word.
///
/// # Errors
///
/// `Fault::Grammar` at the next token: it is not that word.
#[tactic(auto, unfolding(crate::specs::Parse::expect_word))]
pub fn expect_word<'t, 'a>(parser: &mut Parser<'t, 'a>, word: Word) -> Parsed<()>
    ensures { Gives (λ _. ahead parser.new) result (spec.expect_word word (ahead parser.old)) }
{
    if !is_word(peek(parser.tokens), word) {
        return Err(fault_at(Fault::Grammar, parser.tokens));
    }
    pass(parser);
    Ok(())
}
