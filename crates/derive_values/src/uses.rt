//! What a text or a routine's name is used for.

ghost use Rattle.std.specs.Prelude.{◌≡◌, IfOk};
ghost use Rattle.syntax_lexer.specs.Token.{head, tail};
ghost use Rattle.derive_tokens.specs.Pieces.{derived, derived_all};
ghost use Rattle.derive_tokens.specs.Tokens as tokens;
ghost use Rattle.derive_values.specs.Values as spec;
ghost use Rattle.derive_tokens.specs.Held.{names_of};
ghost use Rattle.derive_tokens.specs.Names.{small, small_name};
ghost use Rattle.derive_values.specs.Views.{reading_of};

use crate::places::{Place, Scope};
use crate::scopes::Reading;
use derive_tokens::{Names, Piece, PieceKind, is_sign, is_word, small_name};
use std::alloc::{AllocError, Global};
use syntax_lexer::{Kind, Sign, Word};

/// What a token is used for.
#[derive(Clone, Copy)]
pub enum Use {
    /// It stays as it is.
    Copied,

    TextValue,
    RoutineValue,
    DictionaryValue,
}

// Whether a text is printed there: a statement or an item that is printed begins.
#[inline(always)]
fn is_printed(place: Place) -> bool
    ensures { result ≡ spec.is_printed place }
{
    match place {
        Place::Statement | Place::Item => true,
        Place::Rule | Place::Within(..) => false,
    }
}

/// Whether a text is a value there.
#[inline(always)]
pub fn takes_text(scope: Scope) -> bool
    ensures { result ≡ spec.takes_text scope }
{
    match scope {
        Scope::Body(place) => !is_printed(place),
        Scope::Worth => true,
        _ => false,
    }
}

/// Whether a text is a dictionary word there.
#[inline(always)]
pub fn takes_word(scope: Scope) -> bool
    ensures { result ≡ spec.takes_word scope }
{
    match scope {
        Scope::Words => true,
        _ => false,
    }
}

fn is_operand_sign(piece: Piece<'_>) -> bool
    ensures { result ≡ spec.is_operand_sign (derived piece.entry) }
{
    is_sign(piece, Sign::OpenParenthesis)
        || (is_sign(piece, Sign::Minus)
            || (is_sign(piece, Sign::Increment)
                || (is_sign(piece, Sign::Decrement)
                    || (is_sign(piece, Sign::Tilde) || is_sign(piece, Sign::Not)))))
}

/// Whether an operand begins with a token that is a reserved word.
pub fn is_operand_word(piece: Piece<'_>) -> bool
    ensures { result ≡ spec.is_operand_word (derived piece.entry) }
{
    is_word(piece, Word::Parent)
        || (is_word(piece, Word::Child)
            || (is_word(piece, Word::Sibling)
                || (is_word(piece, Word::True)
                    || (is_word(piece, Word::False) || is_word(piece, Word::Nothing)))))
}

/// Whether an operand begins with a token.
pub fn begins_operand(piece: Piece<'_>) -> bool
    ensures { result ≡ spec.begins_operand (derived piece.entry) }
{
    match piece.kind {
        PieceKind::Read(Kind::Sign(_)) => is_operand_sign(piece),
        PieceKind::Read(Kind::Reserved(_)) => is_operand_word(piece),
        PieceKind::Read(Kind::End) => false,
        _ => true,
    }
}

#[inline(always)]
fn text_use(scope: Scope) -> Use
    ensures { result ≡ spec.text_use scope }
{
    if takes_text(scope) {
        Use::TextValue
    } else if takes_word(scope) {
        Use::DictionaryValue
    } else {
        Use::Copied
    }
}

/// Whether the first token is this sign.
#[inline(always)]
pub fn is_next(pieces: &[Piece<'_>], sign: Sign) -> bool
    ensures { result ≡ tokens.is_sign sign (head (derived_all pieces.now)) }
{
    match pieces {
        [] => false,
        [first, ..] => is_sign(*first, sign),
    }
}

/// Whether an operand begins with the first token.
#[inline(always)]
pub fn is_operand_next(pieces: &[Piece<'_>]) -> bool
    ensures { result ≡ spec.begins_operand (head (derived_all pieces.now)) }
{
    match pieces {
        [] => false,
        [first, ..] => begins_operand(*first),
    }
}

// Whether an operand begins with the second token.
#[inline(always)]
fn is_operand_second(pieces: &[Piece<'_>]) -> bool
    ensures { result ≡ spec.begins_operand (head (tail (derived_all pieces.now))) }
{
    match pieces {
        [] => false,
        [_] => false,
        [_, second, ..] => begins_operand(*second),
    }
}

// Whether a routine's name is a value, before these tokens.
#[inline(always)]
fn takes_routine(scope: Scope, rest: &[Piece<'_>]) -> bool
    ensures { result ≡ spec.takes_routine scope (derived_all rest.now) }
{
    match scope {
        Scope::Body(Place::Rule) => {
            !(is_next(rest, Sign::OpenParenthesis)
                || (is_next(rest, Sign::CloseParenthesis) && is_operand_second(rest)))
        }
        Scope::Body(_) => !is_next(rest, Sign::OpenParenthesis),
        Scope::Worth => true,
        _ => false,
    }
}

// What a name is used for, in small letters or in capitals.
#[inline(always)]
fn name_use(
    alloc: Global,
    routines: &Names,
    reading: &Reading,
    name: &[u8],
    rest: &[Piece<'_>],
) -> Result<Use, AllocError>
    ensures { IfOk result (λ used. used ≡ spec.name_use (names_of routines.now)
        (reading_of reading.now) (small name.now) (derived_all rest.now)) }
{
    if !takes_routine(reading.scope, rest) {
        return Ok(Use::Copied);
    }
    if !routines.has_small(alloc, name)? {
        return Ok(Use::Copied);
    }
    if reading.own.has_small(alloc, name)? {
        Ok(Use::Copied)
    } else {
        Ok(Use::RoutineValue)
    }
}

// What a name that is made is used for.
#[inline(never)]
fn made_use(
    alloc: Global,
    routines: &Names,
    reading: &Reading,
    piece: Piece<'_>,
    rest: &[Piece<'_>],
) -> Result<Use, AllocError>
    ensures { IfOk result (λ used. used ≡ spec.name_use (names_of routines.now)
        (reading_of reading.now) (small_name (derived piece.entry)) (derived_all rest.now)) }
{
    if !takes_routine(reading.scope, rest) {
        return Ok(Use::Copied);
    }
    let name = small_name(alloc, piece)?;
    if routines.has(&name) && !reading.own.has(&name) {
        Ok(Use::RoutineValue)
    } else {
        Ok(Use::Copied)
    }
}

/// What a token is used for, before the rest of a file with these routines.
///
/// # Errors
///
/// `AllocError` where memory is refused.
#[inline(always)]
pub fn use_of(
    alloc: Global,
    routines: &Names,
    reading: &Reading,
    piece: Piece<'_>,
    rest: &[Piece<'_>],
) -> Result<Use, AllocError>
    ensures { IfOk result (λ used. used ≡ spec.use_of (names_of routines.now)
        (reading_of reading.now) (derived piece.entry) (derived_all rest.now)) }
{
    match piece.kind {
        PieceKind::Read(Kind::Text(_)) => Ok(text_use(reading.scope)),
        PieceKind::Read(Kind::Name(name)) => name_use(alloc, routines, reading, name, rest),
        PieceKind::Numbered(..) => made_use(alloc, routines, reading, piece, rest),
        PieceKind::Read(_) | PieceKind::Quoted(_) => Ok(Use::Copied),
    }
}
