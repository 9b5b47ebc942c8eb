//! Texts and routines as values.

ghost use Rattle.std.specs.Prelude.{◌≡◌, ◌≤◌, ◌<◌, ◌+◌, ◌^◌, ◌++◌, OnOk};
ghost use Rattle.std.specs.Prelude.{false, length, set, take};
ghost use Rattle.syntax_lexer.specs.Bytes as bytes_spec;
ghost use Rattle.derive_tokens.specs.Pieces.{Gives, derived, derived_all, quoted_byte};
ghost use Rattle.derive_values.specs.Places.{routines_of};
ghost use Rattle.derive_values.specs.Values as spec;
ghost use Rattle.derive_tokens.specs.Held.{names_of};
ghost use Rattle.derive_values.specs.Views.{PutsOne, numbers_held};

use crate::numbers::{MOST_ROUTINES, MOST_TEXTS, Numbers, text_of};
use crate::scopes::Reading;
use crate::uses::{Use, use_of};
use derive_tokens::{Names, Piece, PieceKind, after, put_all, refused, small_name};
use std::alloc::{AllocError, Global};
use syntax_lexer::{BAD_TEXT, Kind, PlacedFault, Position, TOO_MANY};

/// The number of the first text that is a value.
const FIRST_TEXT: u16 = 49_152;

/// The number of the first routine that is a value.
const FIRST_ROUTINE: u16 = 57_344;

// The number of a value's place, from a first number on.
fn number_from<'a>(
    first: u16,
    most: usize,
    place: Option<usize>,
    position: Position,
) -> Result<Piece<'a>, PlacedFault>
    requires { first + most ≤ 2 ^ 16 }
    ensures { PutsOne result (spec.number_from first most place position) }
{
    match place {
        Some(k) if k < most => Ok(Piece {
            kind: PieceKind::Read(Kind::Number(first + k as u16)),
            position,
        }),
        _ => Err(refused(TOO_MANY, position)),
    }
}

fn is_word_byte(byte: u8) -> bool
    ensures { result ≡ bytes_spec.is_word_byte byte }
{
    byte.is_ascii_graphic() && !matches!(byte, b'\'' | b'~' | b'@' | b'\\')
}

// Whether a byte of a text may stand in a dictionary word. An apostrophe is a `^` there.
fn is_quotable(byte: u8) -> bool
    ensures { result ≡ bytes_spec.is_word_byte (quoted_byte byte) }
{
    match byte {
        b'\'' => true,
        _ => is_word_byte(byte),
    }
}

// Whether a byte may not stand in a dictionary word, after a slash or another byte.
fn is_bad_byte(slash: bool, byte: u8) -> bool
    ensures { result ≡ spec.is_bad_byte slash byte }
{
    !is_quotable(byte) || (slash && byte == b'/')
}

// Whether all bytes of a text may stand in a dictionary word.
fn are_word_bytes(text: &[u8]) -> bool
    ensures { result ≡ spec.are_word_bytes false text.now }
{
    let mut slash = false;
    for byte in text {
        if is_bad_byte(slash, *byte) {
            return false;
        }
        slash = *byte == b'/';
    }
    true
}

// Whether a text may be a dictionary word.
fn is_word_text(text: &[u8]) -> bool
    ensures { result ≡ spec.is_word_text text.now }
{
    match text {
        [] => false,
        [_, ..] => are_word_bytes(text),
    }
}

// The dictionary word of a text.
fn word_from<'a>(text: &'a [u8], position: Position) -> Result<Piece<'a>, PlacedFault>
    ensures { PutsOne result (spec.word_from text.now position) }
{
    if is_word_text(text) {
        Ok(Piece {
            kind: PieceKind::Quoted(text),
            position,
        })
    } else {
        Err(refused(BAD_TEXT, position))
    }
}

// What a token of this use stands for.
#[tactic(auto, using(derive_tokens::proofs::Positions::position_derived))]
#[inline(never)]
fn value_of<'a>(
    alloc: Global,
    numbers: &Numbers,
    used: Use,
    piece: Piece<'a>,
) -> Result<Piece<'a>, PlacedFault>
    ensures { PutsOne result (spec.value_of (numbers_held numbers.now) used (derived piece.entry)) }
{
    let position = piece.position;
    match used {
        Use::Copied => Ok(piece),
        Use::TextValue => {
            let place = numbers.texts.place(text_of(piece));
            number_from(FIRST_TEXT, MOST_TEXTS, place, position)
        }
        Use::RoutineValue => {
            let name = small_name(alloc, piece)?;
            let place = numbers.routines.place(&name);
            number_from(FIRST_ROUTINE, MOST_ROUTINES, place, position)
        }
        Use::DictionaryValue => word_from(text_of(piece), position),
    }
}

// Puts a token in place of another.
fn put_at<'a>(out: &mut [Piece<'a>], at: usize, piece: Piece<'a>)
    requires { at < length out.old }
    ensures { out.new ≡ set out.old at piece.entry }
{
    out[at] = piece;
}

/// The tokens of a file that has these routines and values, with numbers and words for values.
///
/// # Errors
///
/// E24 where there are too many values, E02 at a text that may be no dictionary word, and E99.
#[inline(never)]
pub fn valued<'a>(
    alloc: Global,
    routines: &Names,
    numbers: &Numbers,
    pieces: &[Piece<'a>],
) -> Result<Vec<Piece<'a>>, PlacedFault>
    requires defined { names_of routines.now ≡ routines_of (derived_all pieces.now) }
    requires numbered { numbers_held numbers.now ≡ spec.numbers_of (derived_all pieces.now) }
    ensures { Gives result (spec.valued (derived_all pieces.now)) }
{
    let mut out = Vec::new(alloc);
    out.reserve(pieces.len())?;
    put_all(&mut out, pieces)?;
    let mut reading = Reading::new(alloc);
    for (at, piece) in pieces.iter().enumerate() {
        let used = use_of(alloc, routines, &reading, *piece, after(pieces, at + 1))?;
        reading.step(alloc, *piece)?;
        match used {
            Use::Copied => {}
            _ => match value_of(alloc, numbers, used, *piece) {
                Ok(value) => put_at(&mut out, at, value),
                Err(fault) => return Err(fault),
            },
        }
    }
    Ok(out)
}
