//! What is stepped by `++` and `--`, looked for ahead.

ghost use Rattle.std.specs.Prelude.{◌≡◌, ◌≤◌, ◌<◌, ◌+◌, ◌^◌, length, drop};
ghost use Rattle.syntax_lexer.specs.Token.{head};
ghost use Rattle.derive_tokens.specs.Pieces.{derived, derived_all};
ghost use Rattle.derive_statements.specs.Views.{token_of};
ghost use Rattle.derive_operands.specs.Steps as spec;
ghost use Rattle.derive_operands.specs.StepViews.{depth_in, found_held};

use derive_statements::deeper;
use derive_tokens::{Piece, PieceKind, after, is_name, is_sign};
use derive_values::is_next;
use syntax_lexer::{Kind, Sign};

/// What is looked ahead in what is stepped.
#[derive(Clone, Copy)]
pub enum Chain {
    /// A name comes.
    AtName,

    /// A dot may come.
    AtDot,

    /// In so many brackets.
    InBrackets(usize),

    /// After the brackets.
    Closed,

    /// Nothing is stepped.
    Over,
}

// Whether a sign may be in a bracket that is stepped: it is written twice.
#[inline(always)]
fn is_simple_sign(sign: Sign) -> bool
    ensures { result ≡ spec.is_simple_sign sign }
{
    matches!(
        sign,
        Sign::OpenParenthesis
            | Sign::CloseParenthesis
            | Sign::Dot
            | Sign::Arrow
            | Sign::LongArrow
            | Sign::Plus
            | Sign::Minus
            | Sign::Star
    )
}

#[inline(always)]
fn is_simple(piece: Piece<'_>) -> bool
    ensures { result ≡ spec.is_simple (derived piece.entry) }
{
    match piece.kind {
        PieceKind::Read(Kind::Name(_)) => true,
        PieceKind::Read(Kind::Number(_)) => true,
        PieceKind::Read(Kind::Character(_)) => true,
        PieceKind::Read(Kind::Sign(sign)) => is_simple_sign(sign),
        PieceKind::Read(_) => false,
        PieceKind::Numbered(..) => true,
        PieceKind::Quoted(_) => false,
    }
}

// Whether a token belongs to what is stepped.
#[inline(always)]
fn belongs(chain: Chain, piece: Piece<'_>) -> bool
    ensures { result ≡ spec.belongs chain (derived piece.entry) }
{
    match chain {
        Chain::AtName => is_name(piece),
        Chain::AtDot => is_sign(piece, Sign::Dot),
        Chain::InBrackets(_) => is_simple(piece),
        Chain::Closed | Chain::Over => false,
    }
}

#[inline(always)]
fn in_brackets(depth: usize) -> Chain
    ensures value { result ≡ spec.in_brackets depth }
    ensures few { depth_in result ≤ depth }
{
    if depth == 0 {
        Chain::Closed
    } else {
        Chain::InBrackets(depth)
    }
}

// In brackets, after a token that belongs. A call is not written twice.
#[inline(always)]
fn bracket_after(depth: usize, piece: Piece<'_>, rest: &[Piece<'_>]) -> Chain
    requires { depth + 1 < 2 ^ 64 }
    ensures value { result
        ≡ spec.bracket_after depth (derived piece.entry) (head (derived_all rest.now)) }
    ensures grows { depth_in result ≤ depth + 1 }
{
    if is_name(piece) && is_next(rest, Sign::OpenParenthesis) {
        Chain::Over
    } else {
        in_brackets(deeper(depth, piece))
    }
}

// After a token that belongs.
#[inline(always)]
fn chain_after(chain: Chain, piece: Piece<'_>, rest: &[Piece<'_>]) -> Chain
    requires { depth_in chain + 1 < 2 ^ 64 }
    ensures value { result
        ≡ spec.chain_after chain (derived piece.entry) (head (derived_all rest.now)) }
    ensures grows { depth_in result ≤ depth_in chain + 1 }
{
    match chain {
        Chain::AtName => Chain::AtDot,
        Chain::AtDot => Chain::AtName,
        Chain::InBrackets(depth) => bracket_after(depth, piece, rest),
        Chain::Closed | Chain::Over => chain,
    }
}

// How many tokens are stepped, where so many were met; a variable alone is nothing.
#[inline(always)]
fn target_met(count: usize, chain: Chain) -> usize
    ensures { result ≡ spec.target_met count chain }
{
    match chain {
        Chain::AtDot => { if count > 1 { count } else { 0 } }
        Chain::Closed => count,
        Chain::AtName | Chain::InBrackets(_) | Chain::Over => 0,
    }
}

// How many tokens are stepped, where so many were met before these.
#[inline(never)]
fn target_from(met: usize, start: Chain, pieces: &[Piece<'_>]) -> usize
    requires shallow { depth_in start ≤ met }
    requires room { met + length pieces.now < 2 ^ 64 }
    ensures { result ≡ spec.target_from met start (derived_all pieces.now) }
{
    let mut count = met;
    let mut chain = start;
    for (at, piece) in pieces.iter().enumerate() {
        if !belongs(chain, *piece) {
            return target_met(count, chain);
        }
        count += 1;
        chain = chain_after(chain, *piece, after(pieces, at + 1));
    }
    target_met(count, chain)
}

// How many tokens are stepped from the first on.
#[inline(always)]
fn target_length(pieces: &[Piece<'_>]) -> usize
    requires { length pieces.now < 2 ^ 64 }
    ensures { result ≡ spec.target_length (derived_all pieces.now) }
{
    match pieces {
        [] => 0,
        [first, rest @ ..] => {
            if is_sign(*first, Sign::OpenParenthesis) {
                target_from(1, Chain::InBrackets(1), rest)
            } else {
                target_from(0, Chain::AtName, pieces)
            }
        }
    }
}

#[inline(always)]
fn is_step(piece: Piece<'_>) -> bool
    ensures { result ≡ spec.is_step (derived piece.entry) }
{
    is_sign(piece, Sign::Increment) || is_sign(piece, Sign::Decrement)
}

/// What is stepped at the front of tokens.
#[derive(Clone, Copy)]
pub enum Found<'a> {
    Nothing,
    /// So many tokens, with this sign after them.
    Postfix(usize, Piece<'a>),

    /// So many tokens after a sign.
    Prefix(usize),
}

#[inline(always)]
fn prefix_of<'a>(count: usize) -> Found<'a>
    ensures { found_held result ≡ spec.prefix_of count }
{
    if count > 0 {
        Found::Prefix(count)
    } else {
        Found::Nothing
    }
}

// What is stepped after a sign.
#[inline(always)]
fn prefix_in<'a>(pieces: &[Piece<'a>]) -> Found<'a>
    requires { length pieces.now < 2 ^ 64 }
    ensures { found_held result ≡ spec.prefix_in (derived_all pieces.now) }
{
    match pieces {
        [] => Found::Nothing,
        [step, rest @ ..] => {
            if is_step(*step) {
                prefix_of(target_length(rest))
            } else {
                Found::Nothing
            }
        }
    }
}

// The sign of a step, if the first token is one.
#[inline(always)]
fn first_step<'a>(pieces: &[Piece<'a>]) -> Option<Piece<'a>>
    ensures { token_of result ≡ spec.step_in (head (derived_all pieces.now)) }
{
    match pieces {
        [] => None,
        [step, ..] => { if is_step(*step) { Some(*step) } else { None } }
    }
}

// The sign of a step after so many tokens.
#[inline(always)]
#[tactic(auto, using(crate::proofs::Rests::derived_drop))]
fn step_after<'a>(count: usize, pieces: &[Piece<'a>]) -> Option<Piece<'a>>
    ensures { token_of result ≡ spec.step_in (head (drop count (derived_all pieces.now))) }
{
    first_step(after(pieces, count))
}

/// What is stepped at the front of tokens.
#[inline(never)]
pub fn found_in<'a>(pieces: &[Piece<'a>]) -> Found<'a>
    requires { length pieces.now < 2 ^ 64 }
    ensures { found_held result ≡ spec.found_in (derived_all pieces.now) }
{
    let count = target_length(pieces);
    if count == 0 {
        return prefix_in(pieces);
    }
    match step_after(count, pieces) {
        Some(step) => Found::Postfix(count, step),
        None => prefix_in(pieces),
    }
}
