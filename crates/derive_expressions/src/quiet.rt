//! Statements and directives that a pass leaves as they are.

ghost use Rattle.std.specs.Prelude.{◌≡◌, ◌≤◌, length};
ghost use Rattle.derive_tokens.specs.Pieces.{derived, derived_all};
ghost use Rattle.derive_expressions.specs.Quiet as spec;
ghost use Rattle.derive_expressions.specs.Views.{calling_of};

use crate::roles::{Calling, Role, is_kin};
use derive_tokens::{Piece, PieceKind, front, is_called, is_name, is_sign};
use derive_values::is_at_rest;
use syntax_lexer::{Kind, Sign};

/// How many tokens are looked through at once.
const MOST_AHEAD: usize = 42;

/// What a token comes after.
#[derive(Clone, Copy)]
pub enum Behind {
    /// Nothing that a bracket could call.
    Nothing,

    /// A dot.
    Dot,

    /// The token after a dot.
    Property,

    /// A name, or a closing bracket.
    Primary,
}

// After a dot.
#[inline(always)]
fn is_dotted(behind: Behind) -> bool
    ensures { result ≡ spec.is_dotted behind }
{
    matches!(behind, Behind::Dot)
}

// A bracket may call what is behind, or else may be that of a message.
#[inline(always)]
fn may_call(calls: bool, behind: Behind) -> bool
    ensures { result ≡ spec.may_call calls behind }
{
    match behind {
        Behind::Nothing => false,
        Behind::Property => true,
        Behind::Dot | Behind::Primary => calls,
    }
}

#[inline(always)]
fn is_dot(piece: Piece<'_>) -> bool
    ensures { result ≡ spec.is_dot (derived piece.entry) }
{
    is_sign(piece, Sign::Dot)
        || (is_sign(piece, Sign::DotAmpersand) || is_sign(piece, Sign::DotHash))
}

#[inline(always)]
fn behind_after(behind: Behind, piece: Piece<'_>) -> Behind
    ensures { result ≡ spec.behind_after behind (derived piece.entry) }
{
    if is_dot(piece) {
        Behind::Dot
    } else if is_dotted(behind) {
        Behind::Property
    } else if is_name(piece) || is_sign(piece, Sign::CloseParenthesis) {
        Behind::Primary
    } else {
        Behind::Nothing
    }
}

// Whether a token matters to messages, or else to calls too.
#[inline(always)]
fn is_met(calls: bool, behind: Behind, piece: Piece<'_>) -> bool
    ensures { result ≡ spec.is_met calls behind (derived piece.entry) }
{
    match piece.kind {
        PieceKind::Read(Kind::Sign(sign)) => match sign {
            Sign::OpenBracket | Sign::CloseBracket => true,
            Sign::OpenParenthesis => may_call(calls, behind),
            _ => false,
        },
        PieceKind::Read(Kind::Reserved(_)) => calls && is_kin(piece),
        PieceKind::Read(Kind::Name(_)) | PieceKind::Numbered(..) => {
            calls && is_called(piece, b"self")
        }
        _ => false,
    }
}

// How many tokens in front, up to the end of a statement, are before one that matters.
#[inline(always)]
fn quiet_length(calls: bool, pieces: &[Piece<'_>]) -> usize
    ensures value { result ≡ spec.quiet_length calls (derived_all pieces.now) }
    ensures within { result ≤ length pieces.now }
{
    let mut last = 0;
    let mut behind = Behind::Nothing;
    for (at, piece) in pieces.iter().enumerate() {
        if is_met(calls, behind, *piece) {
            return last;
        }
        if is_sign(*piece, Sign::Semicolon) {
            last = at + 1;
        }
        behind = behind_after(behind, *piece);
    }
    last
}

#[inline(always)]
fn is_operand(role: Role) -> bool
    ensures { result ≡ spec.is_operand role }
{
    matches!(role, Role::Operand)
}

/// How many tokens in front stay as they are, up to the end of a statement.
#[inline(always)]
pub fn quiet_ahead(calls: bool, calling: &Calling, pieces: &[Piece<'_>]) -> usize
    ensures value { result
        ≡ spec.quiet_ahead calls (calling_of calling.now) (derived_all pieces.now) }
    ensures within { result ≤ length pieces.now }
{
    if is_at_rest(calling.reading.scope) && is_operand(calling.role_now()) {
        quiet_length(calls, front(pieces, MOST_AHEAD))
    } else {
        0
    }
}
