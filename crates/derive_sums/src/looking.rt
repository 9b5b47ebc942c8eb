//! Looking ahead for alternatives from the first token of a sum.

ghost use Rattle.std.specs.Prelude.{◌≡◌, ◌≤◌, ◌<◌, ◌+◌, ◌^◌, ◌∷◌, length};
ghost use Rattle.derive_tokens.specs.Pieces.{derived, derived_all};
ghost use Rattle.derive_statements.specs.Views.{token_of};
ghost use Rattle.derive_sums.specs.Sums as spec;
ghost use Rattle.derive_sums.specs.Views.{shape_held};

use crate::sums::{ends_sum, is_operator, is_or, takes_names};
use derive_statements::{deeper, ends_statement};
use derive_tokens::{Piece, is_name};

/// What is looked ahead in a sum.
#[derive(Clone, Copy)]
pub enum Shape<'a> {
    /// No operator was met; so many brackets are open.
    Before(usize),

    /// One before sums was met.
    After(Piece<'a>, usize),

    /// One before names.
    NamesBegin(Piece<'a>),

    /// And a name after it.
    NameRead(Piece<'a>),

    /// And `or` after that.
    OrRead(Piece<'a>),

    /// `or` with an alternative after it.
    Found(Piece<'a>),
    Nothing,
}

#[inline(always)]
fn operator_met<'a>(piece: Piece<'a>) -> Shape<'a>
    ensures value { shape_held result ≡ spec.operator_met (derived piece.entry) }
    ensures none { spec.depth_of (shape_held result) ≡ 0 }
{
    if takes_names(piece) {
        Shape::NamesBegin(piece)
    } else {
        Shape::After(piece, 0)
    }
}

#[inline(always)]
fn shape_before<'a>(depth: usize, piece: Piece<'a>) -> Shape<'a>
    requires { depth + 1 < 2 ^ 64 }
    ensures value { shape_held result ≡ spec.shape_before depth (derived piece.entry) }
    ensures grows { spec.depth_of (shape_held result) ≤ depth + 1 }
{
    if ends_statement(piece) {
        Shape::Nothing
    } else if depth == 0 && is_operator(piece) {
        operator_met(piece)
    } else if depth == 0 && (ends_sum(piece) || is_or(piece)) {
        Shape::Nothing
    } else {
        Shape::Before(deeper(depth, piece))
    }
}

#[inline(always)]
fn shape_later<'a>(operator: Piece<'a>, depth: usize, piece: Piece<'a>) -> Shape<'a>
    requires { depth + 1 < 2 ^ 64 }
    ensures value { shape_held result
        ≡ spec.shape_later (derived operator.entry) depth (derived piece.entry) }
    ensures grows { spec.depth_of (shape_held result) ≤ depth + 1 }
{
    if ends_statement(piece) {
        Shape::Nothing
    } else if depth == 0 && is_or(piece) {
        Shape::Found(operator)
    } else if depth == 0 && ends_sum(piece) {
        Shape::Nothing
    } else {
        Shape::After(operator, deeper(depth, piece))
    }
}

// Where a test holds, or else nothing is found.
#[inline(always)]
fn shape_if<'a>(holds: bool, shape: Shape<'a>) -> Shape<'a>
    ensures value { shape_held result ≡ spec.shape_if holds (shape_held shape.entry) }
    ensures grows { spec.depth_of (shape_held result)
        ≤ spec.depth_of (shape_held shape.entry) }
{
    if holds { shape } else { Shape::Nothing }
}

#[inline(always)]
fn shape_after<'a>(shape: Shape<'a>, piece: Piece<'a>) -> Shape<'a>
    requires { spec.depth_of (shape_held shape) + 1 < 2 ^ 64 }
    ensures value { shape_held result
        ≡ spec.shape_after (shape_held shape.entry) (derived piece.entry) }
    ensures grows { spec.depth_of (shape_held result)
        ≤ spec.depth_of (shape_held shape.entry) + 1 }
{
    match shape {
        Shape::Before(depth) => shape_before(depth, piece),
        Shape::After(operator, depth) => shape_later(operator, depth, piece),
        Shape::NamesBegin(operator) => shape_if(is_name(piece), Shape::NameRead(operator)),
        Shape::NameRead(operator) => shape_if(is_or(piece), Shape::OrRead(operator)),
        Shape::OrRead(operator) => shape_if(is_name(piece), Shape::Found(operator)),
        Shape::Found(operator) => Shape::Found(operator),
        Shape::Nothing => Shape::Nothing,
    }
}

// Whether no token changes what is found.
#[inline(always)]
fn is_settled(shape: Shape<'_>) -> bool
    ensures { result ≡ spec.is_settled (shape_held shape.entry) }
{
    matches!(shape, Shape::Found(_) | Shape::Nothing)
}

#[inline(always)]
fn operator_in<'a>(shape: Shape<'a>) -> Option<Piece<'a>>
    ensures { token_of result ≡ spec.operator_in (shape_held shape.entry) }
{
    match shape {
        Shape::Found(operator) => Some(operator),
        _ => None,
    }
}

/// The operator of the sum that begins with a token, if alternatives are after it.
#[inline(never)]
#[tactic(auto, using(crate::proofs::Settled::no_change))]
pub fn operator_of<'a>(piece: Piece<'a>, rest: &[Piece<'a>]) -> Option<Piece<'a>>
    requires { length rest.now + 1 < 2 ^ 64 }
    ensures { token_of result
        ≡ spec.operator_of (derived piece.entry ∷ derived_all rest.now) }
{
    let mut shape = shape_after(Shape::Before(0), piece);
    for next in rest {
        if is_settled(shape) {
            return operator_in(shape);
        }
        shape = shape_after(shape, *next);
    }
    operator_in(shape)
}
