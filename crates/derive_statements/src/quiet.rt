//! Statements and directives that a pass leaves as they are.

ghost use Rattle.std.specs.Prelude.{◌≡◌, ◌≤◌, ◌<◌, false, true, length};
ghost use Rattle.derive_tokens.specs.Pieces.{derived, derived_all};
ghost use Rattle.derive_values.specs.Places as places;
ghost use Rattle.derive_statements.specs.Quiet as spec;

use crate::lists::at_statement;
use derive_tokens::{Piece, after, is_called, is_sign, is_word};
use derive_values::{Place, Scope, is_next, is_text};
use syntax_lexer::{Sign, Word};

/// What a pass looks for in statements.
#[derive(Clone, Copy)]
pub enum Seek {
    /// A text before a comma.
    Introduction,
    /// A comma.
    List,
    /// `spaces` and `objectloop`.
    Loop,
}

#[inline(always)]
fn is_sought(seek: Seek, piece: Piece<'_>, rest: &[Piece<'_>]) -> bool
    ensures { result ≡ spec.is_sought seek (derived piece.entry) (derived_all rest.now) }
{
    match seek {
        Seek::Introduction => is_text(piece) && is_next(rest, Sign::Comma),
        Seek::List => is_sign(piece, Sign::Comma),
        Seek::Loop => is_word(piece, Word::Objectloop) || is_called(piece, b"spaces"),
    }
}

/// How many tokens are of statements or directives in which a pass finds nothing, where one begins
/// directly after the end of another one.
#[inline(always)]
pub fn quiet_ahead(seek: Seek, ended: bool, scope: Scope, pieces: &[Piece<'_>]) -> usize
    ensures value { 0 < result → result ≡ spec.quiet_run seek scope (derived_all pieces.now) }
    ensures rest { 0 < result → places.is_at_rest scope ≡ true }
    ensures within { result ≤ length pieces.now }
{
    if !(ended && matches!(scope, Scope::Between | Scope::Body(Place::Statement))) {
        return 0;
    }
    let mut last = 0;
    for (at, piece) in pieces.iter().enumerate() {
        if is_sign(*piece, Sign::OpenBracket)
            || (is_sign(*piece, Sign::CloseBracket)
                || (at_statement(scope) && is_sought(seek, *piece, after(pieces, at + 1))))
        {
            return last;
        }
        if is_sign(*piece, Sign::Semicolon) {
            last = at + 1;
        }
    }
    last
}
