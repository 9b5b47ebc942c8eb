//! In which part of a file a token stands.

ghost use Rattle.std.specs.Prelude.{◌≡◌, ◌≤◌, ◌<◌, ◌+◌, ◌^◌, [], OnOk, IfOk};
ghost use Rattle.derive_tokens.specs.Pieces.{derived, derived_all};
ghost use Rattle.derive_values.specs.Places as spec;
ghost use Rattle.derive_tokens.specs.Held.{names_of};
ghost use Rattle.derive_values.specs.Views.{reading_of};
ghost use Rattle.derive_values.specs.declared.places.Scope.TheVariants as Scope;

use crate::places::{Place, Scope, place_after};
use derive_tokens::{Names, Piece, is_called, is_sign, is_word, note_name};
use std::alloc::{AllocError, Global};
use syntax_lexer::{Sign, Word};

#[inline(always)]
fn gives_values(piece: Piece<'_>) -> bool
    ensures { result ≡ spec.gives_values (derived piece.entry) }
{
    is_word(piece, Word::Array)
        || (is_word(piece, Word::Constant)
            || (is_word(piece, Word::Global) || is_word(piece, Word::Property)))
}

// The end of a directive, or else a scope.
#[inline(always)]
fn ended(piece: Piece<'_>, scope: Scope) -> Scope
    ensures value { result ≡ spec.ended (derived piece.entry) scope }
    ensures grows { spec.opened_within result ≤ spec.opened_within scope }
{
    if is_sign(piece, Sign::Semicolon) {
        Scope::Between
    } else {
        scope
    }
}

#[inline(always)]
fn after_between(piece: Piece<'_>) -> Scope
    ensures value { result ≡ spec.scope_after Scope.Between (derived piece.entry) }
    ensures none { spec.opened_within result ≡ 0 }
{
    if is_sign(piece, Sign::OpenBracket) {
        Scope::Named
    } else if is_word(piece, Word::Object) {
        Scope::Head
    } else if gives_values(piece) {
        Scope::Worth
    } else {
        ended(piece, Scope::Bare)
    }
}

// In the header of a routine.
#[inline(always)]
fn after_header(piece: Piece<'_>) -> Scope
    ensures value { result ≡ spec.after_header (derived piece.entry) }
    ensures none { spec.opened_within result ≡ 0 }
{
    if is_sign(piece, Sign::Semicolon) {
        Scope::Body(Place::Statement)
    } else {
        Scope::Locals
    }
}

#[inline(always)]
fn after_head(piece: Piece<'_>) -> Scope
    ensures value { result ≡ spec.scope_after Scope.Head (derived piece.entry) }
    ensures none { spec.opened_within result ≡ 0 }
{
    if is_sign(piece, Sign::Comma) || is_word(piece, Word::With) {
        ended(piece, Scope::Property)
    } else {
        ended(piece, Scope::Head)
    }
}

// The property of the words of an object.
#[inline(never)]
fn is_words(piece: Piece<'_>) -> bool
    ensures { result ≡ spec.is_words (derived piece.entry) }
{
    is_called(piece, b"name")
}

#[inline(always)]
fn after_property(piece: Piece<'_>) -> Scope
    ensures value { result ≡ spec.scope_after Scope.Property (derived piece.entry) }
    ensures none { spec.opened_within result ≡ 0 }
{
    if is_word(piece, Word::With) {
        ended(piece, Scope::Property)
    } else if is_words(piece) {
        ended(piece, Scope::Words)
    } else {
        ended(piece, Scope::Worth)
    }
}

#[inline(always)]
fn after_value(scope: Scope, piece: Piece<'_>) -> Scope
    ensures value { result ≡ spec.after_value scope (derived piece.entry) }
    ensures grows { spec.opened_within result ≤ spec.opened_within scope }
{
    if is_sign(piece, Sign::Comma) {
        ended(piece, Scope::Property)
    } else {
        ended(piece, scope)
    }
}

// In the statements of a routine. A token that is neither a sign nor a word ends nothing.
#[inline(always)]
fn body_after(place: Place, piece: Piece<'_>) -> Scope
    requires { spec.opened_in place + 1 < 2 ^ 64 }
    ensures value { result ≡ spec.scope_after (Scope.Body place) (derived piece.entry) }
    ensures grows { spec.opened_within result ≤ spec.opened_in place + 1 }
{
    if is_sign(piece, Sign::CloseBracket) {
        Scope::Bare
    } else {
        Scope::Body(place_after(place, piece))
    }
}

/// Whether a statement or a directive begins.
#[inline(always)]
pub fn is_at_rest(scope: Scope) -> bool
    ensures { result ≡ spec.is_at_rest scope }
{
    matches!(scope, Scope::Between | Scope::Body(Place::Statement))
}

/// The scope after a token.
#[inline(always)]
pub fn scope_after(scope: Scope, piece: Piece<'_>) -> Scope
    requires { spec.opened_within scope + 1 < 2 ^ 64 }
    ensures value { result ≡ spec.scope_after scope (derived piece.entry) }
    ensures grows { spec.opened_within result ≤ spec.opened_within scope + 1 }
{
    match scope {
        Scope::Between => after_between(piece),
        Scope::Named | Scope::Locals => after_header(piece),
        Scope::Body(place) => body_after(place, piece),
        Scope::Head => after_head(piece),
        Scope::Property => after_property(piece),
        Scope::Words | Scope::Worth => after_value(scope, piece),
        Scope::Bare => ended(piece, Scope::Bare),
    }
}

/// The scope after a token, for a pass that does not ask where in its statements a routine is: in
/// these nothing counts but the bracket that ends them.
#[inline(always)]
pub fn scope_outside(scope: Scope, piece: Piece<'_>) -> Scope
    ensures { result ≡ spec.outside (spec.scope_after scope (derived piece.entry)) }
{
    match scope {
        Scope::Body(_) => {
            if is_sign(piece, Sign::CloseBracket) {
                Scope::Bare
            } else {
                Scope::Body(Place::Statement)
            }
        }
        Scope::Between => after_between(piece),
        Scope::Named | Scope::Locals => after_header(piece),
        Scope::Head => after_head(piece),
        Scope::Property => after_property(piece),
        Scope::Words | Scope::Worth => after_value(scope, piece),
        Scope::Bare => ended(piece, Scope::Bare),
    }
}

// No locals.
#[inline(always)]
#[tactic(auto, using(crate::proofs::Rooms::none_there))]
fn clear(own: &mut Names, alloc: Global)
    ensures { names_of own.new ≡ [] }
{
    if own.count() == 0 {
        return;
    }
    *own = Names::new(alloc);
}

// The locals of the routine that is read.
#[inline(always)]
fn note_own(
    own: &mut Names,
    alloc: Global,
    scope: Scope,
    piece: Piece<'_>,
) -> Result<(), AllocError>
    ensures { OnOk result (names_of own.new
        ≡ spec.own_after scope (derived piece.entry) (names_of own.old)) }
{
    match scope {
        Scope::Between | Scope::Named => {
            clear(own, alloc);
            Ok(())
        }
        Scope::Locals => note_name(own, alloc, piece),
        _ => Ok(()),
    }
}

/// What is read of a file: where a token stands, and the locals of its routine.
#[derive(Drop)]
pub struct Reading {
    pub scope: Scope,
    pub own: Names,
}

impl Reading {
    /// Nothing is read yet.
    pub fn new(alloc: Global) -> Reading
        ensures value { reading_of result ≡ spec.unread }
        ensures none { spec.opened_within result.scope ≡ 0 }
    {
        Reading {
            scope: Scope::Between,
            own: Names::new(alloc),
        }
    }

    /// One token more.
    ///
    /// # Errors
    ///
    /// `AllocError` where memory is refused.
    #[inline(always)]
    pub fn step(&mut self, alloc: Global, piece: Piece<'_>) -> Result<(), AllocError>
        requires { spec.opened_within self.old.scope + 1 < 2 ^ 64 }
        ensures value { OnOk result (reading_of self.new
            ≡ spec.reading_after (reading_of self.old) (derived piece.entry)) }
        ensures grows { OnOk result (spec.opened_within self.new.scope
            ≤ spec.opened_within self.old.scope + 1) }
    {
        note_own(&mut self.own, alloc, self.scope, piece)?;
        self.scope = scope_after(self.scope, piece);
        Ok(())
    }
}

#[inline(always)]
fn note_routine(
    names: &mut Names,
    alloc: Global,
    scope: Scope,
    piece: Piece<'_>,
) -> Result<(), AllocError>
    ensures { OnOk result (names_of names.new
        ≡ spec.routines_after scope (derived piece.entry) (names_of names.old)) }
{
    match scope {
        Scope::Named => note_name(names, alloc, piece),
        _ => Ok(()),
    }
}

/// The names of all routines of a file.
///
/// # Errors
///
/// `AllocError` where memory is refused.
#[inline(never)]
pub fn routines_of(alloc: Global, pieces: &[Piece<'_>]) -> Result<Names, AllocError>
    ensures { IfOk result (λ names. names_of names ≡ spec.routines_of (derived_all pieces.now)) }
{
    let mut names = Names::new(alloc);
    let mut scope = Scope::Between;
    for piece in pieces {
        note_routine(&mut names, alloc, scope, *piece)?;
        scope = scope_outside(scope, *piece);
    }
    Ok(names)
}
