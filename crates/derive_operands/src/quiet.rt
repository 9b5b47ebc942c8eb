//! Statements and directives that a pass leaves as they are.

ghost use Rattle.std.specs.Prelude.{◌≡◌, ◌≤◌, ◌<◌, ◌^◌, [], length, IfOk};
ghost use Rattle.derive_tokens.specs.Pieces.{derived, derived_all};
ghost use Rattle.derive_operands.specs.Quiet as spec;
ghost use Rattle.derive_operands.specs.QuietViews.{run_of};

use derive_statements::deeper;
use derive_tokens::{Piece, PieceKind, is_sign};
use derive_values::{Place, Scope};
use std::alloc::{AllocError, Global};
use syntax_lexer::{Kind, Sign, Word};

/// Where a token stands, by the brackets of routines and the ends of statements alone.
#[derive(Clone, Copy)]
pub enum Area {
    /// A directive begins.
    Between,

    /// In a directive.
    Directive,

    /// In the header of a routine.
    Header,

    /// In its statements.
    Body,
}

#[inline(always)]
fn area_after(area: Area, piece: Piece<'_>) -> Area
    ensures { result ≡ spec.area_after area (derived piece.entry) }
{
    match area {
        Area::Between => {
            if is_sign(piece, Sign::OpenBracket) {
                Area::Header
            } else if is_sign(piece, Sign::Semicolon) {
                Area::Between
            } else {
                Area::Directive
            }
        }
        Area::Directive => {
            if is_sign(piece, Sign::Semicolon) {
                Area::Between
            } else {
                Area::Directive
            }
        }
        Area::Header => {
            if is_sign(piece, Sign::Semicolon) {
                Area::Body
            } else {
                Area::Header
            }
        }
        Area::Body => {
            if is_sign(piece, Sign::CloseBracket) {
                Area::Directive
            } else {
                Area::Body
            }
        }
    }
}

/// The area of a scope.
#[inline(always)]
pub fn area_of(scope: Scope) -> Area
    ensures { result ≡ spec.area_of scope }
{
    match scope {
        Scope::Between => Area::Between,
        Scope::Named | Scope::Locals => Area::Header,
        Scope::Body(_) => Area::Body,
        _ => Area::Directive,
    }
}

/// The scope where a statement or a directive begins in an area.
#[inline(always)]
pub fn scope_at(area: Area) -> Scope
    ensures { result ≡ spec.scope_at area }
{
    match area {
        Area::Body => Scope::Body(Place::Statement),
        Area::Between | Area::Directive | Area::Header => Scope::Between,
    }
}

// Whether a token is a step, or a bracket of a routine; or else `or`.
#[inline(always)]
fn is_met(steps: bool, piece: Piece<'_>) -> bool
    ensures { result ≡ spec.is_met steps (derived piece.entry) }
{
    match piece.kind {
        PieceKind::Read(Kind::Sign(sign)) => {
            steps
                && matches!(
                    sign,
                    Sign::OpenBracket | Sign::CloseBracket | Sign::Increment | Sign::Decrement
                )
        }
        PieceKind::Read(Kind::Reserved(word)) => !steps && word == Word::Or,
        _ => false,
    }
}

/// How many tokens in front stay as they are, up to the end of a statement, the area after them,
/// and how many more were looked through.
#[derive(Clone, Copy)]
pub struct Run {
    pub length: usize,
    pub area: Area,
    pub looked: usize,
}

/// The statements and directives in front, in an area, in which no step, or else no `or`, is met.
#[inline(always)]
pub fn quiet_run(steps: bool, start: Area, pieces: &[Piece<'_>]) -> Run
    requires { length pieces.now < 2 ^ 64 }
    ensures value { run_of result ≡ spec.quiet_run steps start (derived_all pieces.now) }
    ensures within { result.length ≤ length pieces.now }
{
    let mut last = 0;
    let mut last_area = start;
    let mut depth = 0;
    let mut area = start;
    for (at, piece) in pieces.iter().enumerate() {
        if is_met(steps, *piece) {
            return Run {
                length: last,
                area: last_area,
                looked: at - last,
            };
        }
        area = area_after(area, *piece);
        if depth == 0 && is_sign(*piece, Sign::Semicolon) {
            last = at + 1;
            last_area = area;
        }
        depth = deeper(depth, *piece);
    }
    Run {
        length: last,
        area: last_area,
        looked: pieces.len() - last,
    }
}

/// An empty list with room for what these tokens stand for, which mostly are few more.
///
/// # Errors
///
/// `AllocError` where memory is refused, as for the function after it.
#[inline(always)]
pub fn with_room<'a>(alloc: Global, pieces: &[Piece<'a>]) -> Result<Vec<Piece<'a>>, AllocError>
    ensures { IfOk result (λ out. out.items ≡ []) }
{
    let mut out = Vec::new(alloc);
    out.reserve(pieces.len().saturating_add(pieces.len() / 8 + 16))?;
    Ok(out)
}
