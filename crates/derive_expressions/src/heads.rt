//! The calls after a primary, looked for ahead from its first token on.

ghost use Rattle.std.specs.Prelude.{◌≡◌, ◌≤◌, ◌<◌, ◌+◌, ◌^◌, [], map, length, IfOk, OnOk};
ghost use Rattle.derive_tokens.specs.Pieces.{derived, derived_all};
ghost use Rattle.derive_values.specs.Views.{reading_of};
ghost use Rattle.derive_statements.specs.Views.{file_names, token_of};
ghost use Rattle.derive_expressions.specs.Heads as spec;
ghost use Rattle.derive_expressions.specs.Views.{chain_held};

use crate::roles::{is_callee, is_cast};
use derive_statements::{FileNames, deeper, ends_statement};
use derive_tokens::{Piece, is_name, is_sign};
use derive_values::Reading;
use std::alloc::{AllocError, Global};
use syntax_lexer::Sign;

/// What is looked ahead in a primary.
#[derive(Clone, Copy)]
pub enum Ahead {
    /// It has ended, if no more follows.
    Ended,

    /// After a dot.
    AtProperty,

    /// After a dot and a name.
    AtBracket,

    /// In brackets.
    Inside,

    Over,
}

/// What is looked ahead, the brackets that are open, and the property after a dot.
#[derive(Clone, Copy)]
pub struct Chain<'a> {
    pub ahead: Ahead,
    pub depth: usize,
    pub property: Option<Piece<'a>>,
}

// Where nothing is open.
#[inline(always)]
fn at<'a>(ahead: Ahead) -> Chain<'a>
    ensures value { chain_held result ≡ spec.at ahead }
    ensures none { result.depth ≡ 0 }
{
    Chain {
        ahead,
        depth: 0,
        property: None,
    }
}

// So many brackets are open.
#[inline(always)]
fn inside<'a>(depth: usize) -> Chain<'a>
    ensures value { chain_held result ≡ spec.inside depth }
    ensures opens { result.depth ≡ depth }
{
    Chain {
        ahead: Ahead::Inside,
        depth,
        property: None,
    }
}

#[inline(always)]
fn chain_ended<'a>(piece: Piece<'a>) -> Chain<'a>
    ensures value { chain_held result ≡ spec.chain_ended (derived piece.entry) }
    ensures few { result.depth ≤ 1 }
{
    if is_sign(piece, Sign::Dot) {
        at(Ahead::AtProperty)
    } else if is_sign(piece, Sign::OpenParenthesis) {
        inside(1)
    } else {
        at(Ahead::Over)
    }
}

#[inline(always)]
fn chain_named<'a>(piece: Piece<'a>) -> Chain<'a>
    ensures value { chain_held result ≡ spec.chain_named (derived piece.entry) }
    ensures few { result.depth ≡ 0 }
{
    if is_name(piece) {
        Chain {
            ahead: Ahead::AtBracket,
            depth: 0,
            property: Some(piece),
        }
    } else {
        at(Ahead::Over)
    }
}

#[inline(always)]
fn chain_inside<'a>(depth: usize) -> Chain<'a>
    ensures value { chain_held result ≡ spec.chain_inside depth }
    ensures same { result.depth ≡ depth }
{
    if depth == 0 {
        at(Ahead::Ended)
    } else {
        inside(depth)
    }
}

// In the same statement.
#[inline(always)]
fn chain_on<'a>(chain: Chain<'a>, piece: Piece<'a>) -> Chain<'a>
    requires { chain.depth + 1 < 2 ^ 64 }
    ensures value { chain_held result
        ≡ spec.chain_on chain.entry.ahead chain.entry.depth (derived piece.entry) }
    ensures grows { result.depth ≤ chain.entry.depth + 1 }
{
    match chain.ahead {
        Ahead::Ended | Ahead::AtBracket => chain_ended(piece),
        Ahead::AtProperty => chain_named(piece),
        Ahead::Inside => chain_inside(deeper(chain.depth, piece)),
        Ahead::Over => at(Ahead::Over),
    }
}

#[inline(always)]
fn chain_after<'a>(chain: Chain<'a>, piece: Piece<'a>) -> Chain<'a>
    requires { chain.depth + 1 < 2 ^ 64 }
    ensures value { chain_held result
        ≡ spec.chain_after (chain_held chain.entry) (derived piece.entry) }
    ensures grows { result.depth ≤ chain.entry.depth + 1 }
{
    if ends_statement(piece) {
        at(Ahead::Over)
    } else {
        chain_on(chain, piece)
    }
}

#[inline(always)]
fn takes_bracket(ahead: Ahead) -> bool
    ensures { result ≡ spec.takes_bracket ahead }
{
    match ahead {
        Ahead::Ended | Ahead::AtBracket => true,
        Ahead::AtProperty | Ahead::Inside | Ahead::Over => false,
    }
}

#[inline(always)]
fn is_over(ahead: Ahead) -> bool
    ensures { result ≡ spec.is_over ahead }
{
    match ahead {
        Ahead::Over => true,
        _ => false,
    }
}

// The call of a bracket, if it is one.
#[inline(always)]
fn note_head<'a>(
    heads: &mut Vec<Option<Piece<'a>>>,
    chain: Chain<'a>,
    piece: Piece<'a>,
) -> Result<(), AllocError>
    ensures { OnOk result (map token_of heads.new.items ≡ spec.heads_with
        (map token_of heads.old.items) (chain_held chain.entry) (derived piece.entry)) }
{
    if takes_bracket(chain.ahead) && is_sign(piece, Sign::OpenParenthesis) {
        heads.push(chain.property)?;
        Ok(())
    } else {
        Ok(())
    }
}

// The calls of what follows.
#[inline(never)]
#[tactic(auto, using(crate::proofs::Over::nothing_more))]
fn heads_from<'a>(
    alloc: Global,
    start: Chain<'a>,
    pieces: &[Piece<'a>],
) -> Result<Vec<Option<Piece<'a>>>, AllocError>
    requires few { start.depth ≤ 1 }
    requires room { length pieces.now + 1 < 2 ^ 64 }
    ensures { IfOk result (λ heads. map token_of heads.items
        ≡ spec.heads_from [] (chain_held start.entry) (derived_all pieces.now)) }
{
    let mut heads = Vec::new(alloc);
    let mut chain = start;
    for piece in pieces {
        if is_over(chain.ahead) {
            return Ok(heads);
        }
        note_head(&mut heads, chain, *piece)?;
        chain = chain_after(chain, *piece);
    }
    Ok(heads)
}

/// The calls after a primary, in order, from its first token on: for each message its property.
///
/// # Errors
///
/// `AllocError` where memory is refused.
#[inline]
pub fn heads_of<'a>(
    alloc: Global,
    names: &FileNames,
    reading: &Reading,
    piece: Piece<'a>,
    rest: &[Piece<'a>],
) -> Result<Vec<Option<Piece<'a>>>, AllocError>
    requires { length rest.now + 1 < 2 ^ 64 }
    ensures { IfOk result (λ heads. map token_of heads.items
        ≡ spec.heads_of (file_names names.now) (reading_of reading.now) (derived piece.entry)
        (derived_all rest.now)) }
{
    let called = is_callee(alloc, names, reading, piece, rest)?;
    if called {
        heads_from(alloc, inside(0), rest)
    } else if is_name(piece) {
        heads_from(alloc, at(Ahead::Ended), rest)
    } else if is_sign(piece, Sign::OpenParenthesis) && !is_cast(rest) {
        heads_from(alloc, inside(1), rest)
    } else {
        Ok(Vec::new(alloc))
    }
}
