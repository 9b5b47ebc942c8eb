//! The directives of a file, and rows of tokens.

ghost use Rattle.std.specs.Prelude.{◌≡◌, ◌≤◌, ◌<◌, ◌+◌, ◌^◌, ◌∷◌, ◌++◌, length, take, drop, IfOk, OnOk};
ghost use Rattle.syntax_lexer.specs.Token.{head, tail};
ghost use Rattle.derive_tokens.specs.Pieces.{derived, derived_all};
ghost use Rattle.derive_tokens.specs.Held.{names_of};
ghost use Rattle.derive_tokens.specs.Names.{is_among, small_name as small_of};
ghost use Rattle.derive_constants.specs.Cutting as spec;
ghost use Rattle.derive_classes.specs.Directives.{before_last, last_alone};

use derive_tokens::{Names, Piece, PieceKind, after, is_sign, small_name};
use std::alloc::{AllocError, Global};
use syntax_lexer::{Kind, Position, Sign};

// How many brackets are open after a token.
#[inline(always)]
fn depth_after(depth: usize, piece: Piece<'_>) -> usize
    requires { depth + 1 < 2 ^ 64 }
    ensures value { result ≡ spec.depth_after depth (derived piece.entry) }
    ensures grows { result ≤ depth + 1 }
{
    match piece.kind {
        PieceKind::Read(Kind::Sign(Sign::OpenBracket)) => depth + 1,
        PieceKind::Read(Kind::Sign(Sign::CloseBracket)) => depth.saturating_sub(1),
        _ => depth,
    }
}

// Whether a token ends a directive, where so many brackets are open.
#[inline(always)]
fn ends_directive(depth: usize, piece: Piece<'_>) -> bool
    ensures { result ≡ spec.ends_directive depth (derived piece.entry) }
{
    depth == 0 && is_sign(piece, Sign::Semicolon)
}

// How many tokens the first directive has: up to the first `;` outside of brackets, or all.
fn directive_length(pieces: &[Piece<'_>]) -> usize
    requires { 0 < length pieces.now }
    ensures within { result ≤ length pieces.now }
    ensures some { 0 < result }
    ensures cuts { spec.directives (derived_all pieces.now)
        ≡ derived_all (take result pieces.now)
        ∷ spec.directives (derived_all (drop result pieces.now)) }
{
    let mut depth = 0;
    for (at, piece) in pieces.iter().enumerate() {
        if ends_directive(depth, *piece) {
            return at + 1;
        }
        depth = depth_after(depth, *piece);
    }
    pieces.len()
}

/// The first directive.
pub fn first_directive<'t, 'a>(pieces: &'t [Piece<'a>]) -> &'t [Piece<'a>]
    requires { 0 < length pieces.now }
    ensures some { 0 < length result.now }
    ensures cuts { spec.directives (derived_all pieces.now)
        ≡ derived_all result.now
        ∷ spec.directives (derived_all (drop (length result.now) pieces.now)) }
{
    pieces.split_at(directive_length(pieces)).0
}

/// The first token, or the end.
pub fn first<'a>(pieces: &[Piece<'a>]) -> Piece<'a>
    ensures { derived result ≡ head (derived_all pieces.now) }
{
    match pieces {
        [first, ..] => *first,
        _ => Piece {
            kind: PieceKind::Read(Kind::End),
            position: Position { offset: 0, line: 0 },
        },
    }
}

/// The tokens behind the first.
#[tactic(auto, using(crate::proofs::Cuts::drop_one))]
pub fn behind<'t, 'a>(pieces: &'t [Piece<'a>]) -> &'t [Piece<'a>]
    ensures { derived_all result.now ≡ tail (derived_all pieces.now) }
{
    after(pieces, 1)
}

/// Tokens without their last.
#[tactic(auto, using(crate::proofs::Cuts::front))]
pub fn before_last<'t, 'a>(pieces: &'t [Piece<'a>]) -> &'t [Piece<'a>]
    ensures { derived_all result.now ≡ before_last (derived_all pieces.now) }
{
    pieces.split_at(pieces.len().saturating_sub(1)).0
}

/// Their last alone.
#[tactic(auto, using(crate::proofs::Cuts::back))]
pub fn last_alone<'t, 'a>(pieces: &'t [Piece<'a>]) -> &'t [Piece<'a>]
    ensures { derived_all result.now ≡ last_alone (derived_all pieces.now) }
{
    after(pieces, pieces.len().saturating_sub(1))
}

/// Whether the name that a token is is there.
pub fn has_name_of(alloc: Global, names: &Names, piece: Piece<'_>) -> Result<bool, AllocError>
    ensures { IfOk result (λ has. has
        ≡ is_among (names_of names.now) (small_of (derived piece.entry))) }
{
    let name = small_name(alloc, piece)?;
    Ok(names.has(&name))
}
