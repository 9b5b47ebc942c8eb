//! Which texts and which routines are values.

ghost use Rattle.std.specs.Prelude.{◌≡◌, ◌≤◌, [], length, max, IfOk, OnOk};
ghost use Rattle.derive_tokens.specs.Pieces.{derived, derived_all};
ghost use Rattle.derive_values.specs.Places.{routines_of};
ghost use Rattle.derive_values.specs.Values as spec;
ghost use Rattle.derive_tokens.specs.Held.{names_of};
ghost use Rattle.derive_values.specs.Views.{numbers_held};

use crate::scopes::Reading;
use crate::uses::{Use, use_of};
use derive_tokens::{Names, Piece, PieceKind, after, small_name};
use std::alloc::{AllocError, Global};
use syntax_lexer::Kind;

/// How many texts may be values.
pub const MOST_TEXTS: usize = 8_192;

/// How many routines may be values.
pub const MOST_ROUTINES: usize = 8_000;

/// The texts and the routines of a file that are values: their places are their numbers.
#[derive(Drop)]
pub struct Numbers {
    pub texts: Names,
    pub routines: Names,
}

/// The bytes of a text; none where the token is no text.
pub fn text_of<'a>(piece: Piece<'a>) -> &'a [u8]
    ensures { result.now ≡ spec.text_of (derived piece.entry) }
{
    match piece.kind {
        PieceKind::Read(Kind::Text(bytes)) => bytes,
        _ => b"",
    }
}

// Puts a row at the end, if there is room and it is not there.
#[tactic(auto, using(crate::proofs::Rooms::room_left))]
fn add_in_room(rows: &mut Names, most: usize, row: Vec<u8>) -> Result<(), AllocError>
    ensures value { OnOk result (names_of rows.new
        ≡ spec.with_room most (names_of rows.old) row.items) }
    ensures few { OnOk result (length (names_of rows.new)
        ≤ max most (length (names_of rows.old))) }
{
    if rows.count() < most {
        rows.add(row)
    } else {
        Ok(())
    }
}

impl Numbers {
    // No values.
    fn new(alloc: Global) -> Numbers
        ensures texts { names_of result.texts ≡ [] }
        ensures routines { names_of result.routines ≡ [] }
    {
        Numbers {
            texts: Names::new(alloc),
            routines: Names::new(alloc),
        }
    }

    // A token of this use.
    #[inline(always)]
    fn note(&mut self, alloc: Global, used: Use, piece: Piece<'_>) -> Result<(), AllocError>
        ensures value { OnOk result (numbers_held self.new
            ≡ spec.numbers_after (numbers_held self.old) used (derived piece.entry)) }
        ensures texts { OnOk result (length (names_of self.new.texts)
            ≤ max 8192 (length (names_of self.old.texts))) }
        ensures routines { OnOk result (length (names_of self.new.routines)
            ≤ max 8000 (length (names_of self.old.routines))) }
    {
        match used {
            Use::Copied | Use::DictionaryValue => Ok(()),
            _ => self.note_value(alloc, used, piece),
        }
    }

    // A text or a routine's name.
    #[inline(never)]
    fn note_value(&mut self, alloc: Global, used: Use, piece: Piece<'_>) -> Result<(), AllocError>
        ensures value { OnOk result (numbers_held self.new
            ≡ spec.numbers_after (numbers_held self.old) used (derived piece.entry)) }
        ensures texts { OnOk result (length (names_of self.new.texts)
            ≤ max 8192 (length (names_of self.old.texts))) }
        ensures routines { OnOk result (length (names_of self.new.routines)
            ≤ max 8000 (length (names_of self.old.routines))) }
    {
        match used {
            Use::TextValue => {
                let text = Vec::from_slice(alloc, text_of(piece))?;
                add_in_room(&mut self.texts, MOST_TEXTS, text)
            }
            Use::RoutineValue => {
                let name = small_name(alloc, piece)?;
                add_in_room(&mut self.routines, MOST_ROUTINES, name)
            }
            Use::Copied | Use::DictionaryValue => Ok(()),
        }
    }
}

/// The texts and the routines that are values in a file with these routines.
///
/// # Errors
///
/// `AllocError` where memory is refused.
#[inline(never)]
pub fn numbers_of(
    alloc: Global,
    routines: &Names,
    pieces: &[Piece<'_>],
) -> Result<Numbers, AllocError>
    requires { names_of routines.now ≡ routines_of (derived_all pieces.now) }
    ensures value { IfOk result (λ numbers. numbers_held numbers
        ≡ spec.numbers_of (derived_all pieces.now)) }
    ensures texts { IfOk result (λ numbers. length (names_of numbers.texts) ≤ 8192) }
    ensures routines { IfOk result (λ numbers. length (names_of numbers.routines) ≤ 8000) }
{
    let mut numbers = Numbers::new(alloc);
    let mut reading = Reading::new(alloc);
    for (at, piece) in pieces.iter().enumerate() {
        let used = use_of(alloc, routines, &reading, *piece, after(pieces, at + 1))?;
        numbers.note(alloc, used, *piece)?;
        reading.step(alloc, *piece)?;
    }
    Ok(numbers)
}
