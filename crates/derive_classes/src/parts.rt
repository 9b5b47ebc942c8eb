//! The parts of an object or a class.

ghost use Rattle.std.specs.Prelude.{◌≡◌, ◌++◌, OnOk};
ghost use Rattle.derive_tokens.specs.Pieces.{derived, derived_all};
ghost use Rattle.derive_classes.specs.Parts as spec;

use derive_tokens::{Piece, is_called, is_name, is_sign, is_word, put_kind, put_piece};
use std::alloc::AllocError;
use syntax_lexer::{Kind, Sign, Word};

/// In which part a token stands.
#[derive(Clone, Copy)]
pub enum Mode {
    /// Before the first part, or behind a comma between two.
    Outside,
    /// Where the name of a property is due.
    Naming,
    /// In the values of a property.
    Values,
    /// Behind `has`.
    Attributes,
    /// Behind `class`.
    Classes,
}

/// What is taken of the parts of an object.
#[derive(Clone, Copy)]
pub enum Row {
    /// The properties with their values.
    Properties,
    /// The names of the properties.
    Names,
    /// The attributes and the classes.
    Given,
    /// The classes.
    Mentions,
    /// What fits into no part.
    Unfit,
}

// Whether a token begins properties.
#[inline(always)]
fn begins_properties(piece: Piece<'_>) -> bool
    ensures { result ≡ spec.begins_properties (derived piece.entry) }
{
    is_word(piece, Word::With) || is_called(piece, b"private")
}

/// Whether a token begins the names of classes.
#[inline(always)]
pub fn begins_classes(piece: Piece<'_>) -> bool
    ensures { result ≡ spec.begins_classes (derived piece.entry) }
{
    is_called(piece, b"class")
}

#[inline(always)]
fn begins_part(piece: Piece<'_>) -> bool
    ensures { result ≡ spec.begins_part (derived piece.entry) }
{
    begins_properties(piece) || (is_word(piece, Word::Has) || begins_classes(piece))
}

/// Whether a token stands between parts, or between properties.
#[inline(always)]
pub fn is_between(piece: Piece<'_>) -> bool
    ensures { result ≡ spec.is_between (derived piece.entry) }
{
    begins_part(piece) || is_sign(piece, Sign::Comma)
}

fn after_comma(mode: Mode) -> Mode
    ensures { result ≡ spec.after_comma mode }
{
    match mode {
        Mode::Naming | Mode::Values => Mode::Naming,
        _ => Mode::Outside,
    }
}

fn after_other(mode: Mode) -> Mode
    ensures { result ≡ spec.after_other mode }
{
    match mode {
        Mode::Naming => Mode::Values,
        _ => mode,
    }
}

#[inline(always)]
fn mode_after(mode: Mode, piece: Piece<'_>) -> Mode
    ensures { result ≡ spec.mode_after mode (derived piece.entry) }
{
    if begins_properties(piece) {
        Mode::Naming
    } else if is_word(piece, Word::Has) {
        Mode::Attributes
    } else if begins_classes(piece) {
        Mode::Classes
    } else if is_sign(piece, Sign::Comma) {
        after_comma(mode)
    } else {
        after_other(mode)
    }
}

#[tactic(auto, using(derive_tokens::proofs::Positions::position_derived))]
fn put_property<'a>(
    out: &mut Vec<Piece<'a>>,
    mode: Mode,
    piece: Piece<'a>,
) -> Result<(), AllocError>
    ensures { OnOk result (derived_all out.new.items
        ≡ derived_all out.old.items ++ spec.in_properties mode (derived piece.entry)) }
{
    match mode {
        Mode::Naming => {
            put_kind(out, Kind::Sign(Sign::Comma), piece.position)?;
            put_piece(out, piece)
        }
        Mode::Values => put_piece(out, piece),
        _ => Ok(()),
    }
}

#[inline(always)]
fn is_taken(row: Row, mode: Mode, piece: Piece<'_>) -> bool
    ensures { result ≡ spec.is_taken row mode (derived piece.entry) }
{
    match (row, mode) {
        (Row::Names, Mode::Naming) => is_name(piece),
        (Row::Given, Mode::Attributes) => true,
        (Row::Given, Mode::Classes) => is_name(piece),
        (Row::Mentions, Mode::Classes) => is_name(piece),
        (Row::Unfit, Mode::Outside) => true,
        (Row::Unfit, Mode::Classes) => !is_name(piece),
        _ => false,
    }
}

#[inline(always)]
fn put_taken<'a>(
    out: &mut Vec<Piece<'a>>,
    row: Row,
    mode: Mode,
    piece: Piece<'a>,
) -> Result<(), AllocError>
    ensures { OnOk result (derived_all out.new.items
        ≡ derived_all out.old.items ++ spec.taken row mode (derived piece.entry)) }
{
    match row {
        Row::Properties => put_property(out, mode, piece),
        _ => {
            if is_taken(row, mode, piece) {
                put_piece(out, piece)
            } else {
                Ok(())
            }
        }
    }
}

/// Puts a row of what is behind the head of an object.
///
/// # Errors
///
/// `AllocError` where memory is refused.
pub fn put_row<'a>(
    out: &mut Vec<Piece<'a>>,
    row: Row,
    pieces: &[Piece<'a>],
) -> Result<(), AllocError>
    ensures { OnOk result (derived_all out.new.items
        ≡ derived_all out.old.items ++ spec.row_of row (derived_all pieces.now)) }
{
    let mut mode = Mode::Outside;
    for piece in pieces {
        if !is_between(*piece) {
            put_taken(out, row, mode, *piece)?;
        }
        mode = mode_after(mode, *piece);
    }
    Ok(())
}

fn stage_after(stage: u8, piece: Piece<'_>) -> u8
    ensures { result ≡ spec.stage_after stage (derived piece.entry) }
{
    if is_word(piece, Word::With) {
        1
    } else if is_word(piece, Word::Has) {
        2
    } else {
        stage
    }
}

#[inline(always)]
fn fits_at(stage: u8, piece: Piece<'_>) -> bool
    ensures { result ≡ spec.fits_at stage (derived piece.entry) }
{
    if is_word(piece, Word::With) {
        stage == 0
    } else if is_word(piece, Word::Has) {
        stage < 2
    } else {
        !(begins_part(piece) || is_sign(piece, Sign::Tilde))
    }
}

/// Whether an object has parts of the profile alone: `with` at most once, then `has` at most once,
/// which takes no attribute away.
pub fn is_plain(pieces: &[Piece<'_>]) -> bool
    ensures { result ≡ spec.is_plain (derived_all pieces.now) }
{
    let mut stage = 0;
    for piece in pieces {
        if !fits_at(stage, *piece) {
            return false;
        }
        stage = stage_after(stage, *piece);
    }
    true
}
