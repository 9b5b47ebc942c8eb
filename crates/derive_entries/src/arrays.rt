//! Arrays as values.

ghost use Rattle.std.specs.Prelude.{◌≡◌, ◌≤◌, ◌<◌, ◌+◌, ◌^◌, ◌&&◌, ◌++◌, ◌∷◌, [], not, true};
ghost use Rattle.std.specs.Prelude.{false, length, max, IfOk, OnOk};
ghost use Rattle.syntax_lexer.specs.Token.{head};
ghost use Rattle.derive_tokens.specs.Pieces.{derived, derived_all};
ghost use Rattle.derive_tokens.specs.Held.{names_of};
ghost use Rattle.derive_tokens.specs.Names as names_spec;
ghost use Rattle.derive_tokens.specs.Names.{is_among, place_in, small, small_name};
ghost use Rattle.derive_values.specs.Places.{opened_within};
ghost use Rattle.derive_values.specs.Values.{with_room};
ghost use Rattle.derive_values.specs.Views.{reading_of};
ghost use Rattle.derive_entries.specs.Arrays as spec;
ghost use Rattle.derive_entries.specs.Plain as plain;
ghost use Rattle.derive_entries.specs.Rough as rough;
ghost use Rattle.derive_entries.specs.Views.{placing_of};

use derive_tokens::{
    Names, Piece, PieceKind, is_name, is_sign, is_word, note_name, put_piece, small_name_in,
};
use derive_values::{Reading, Scope, scope_after};
use std::alloc::{AllocError, Global};
use syntax_lexer::{Kind, Sign, Word};

/// How many arrays may be values.
const MOST_PLACES: usize = 8_192;

/// The number of the first array that is a value.
const FIRST_PLACE: u16 = 40_960;

/// With how many arrays a name is compared.
const MOST_COMPARED: usize = 16;

/// Which names that come next stay.
#[derive(Clone, Copy)]
pub enum Keeping {
    Nothing,
    /// That of an array that is defined.
    Array,
    /// That of another definition.
    Other,
    /// Those after `read`.
    Read,
}

/// Whether a token is the sign of an entry.
#[inline(always)]
pub fn is_arrow(piece: Piece<'_>) -> bool
    ensures { result ≡ spec.is_arrow (derived piece.entry) }
{
    is_sign(piece, Sign::Arrow) || is_sign(piece, Sign::LongArrow)
}

// Whether the first token is the sign of an entry.
#[inline(always)]
fn is_arrow_next(pieces: &[Piece<'_>]) -> bool
    ensures { result ≡ spec.is_arrow (head (derived_all pieces.now)) }
{
    match pieces {
        [] => false,
        [first, ..] => is_arrow(*first),
    }
}

#[inline(always)]
fn is_worth(scope: Scope) -> bool
    ensures { result ≡ spec.is_worth scope }
{
    matches!(scope, Scope::Worth)
}

// An array's name is a value there.
#[inline(always)]
fn takes_array(scope: Scope) -> bool
    ensures { result ≡ spec.takes_array scope }
{
    match scope {
        Scope::Body(_) | Scope::Worth => true,
        _ => false,
    }
}

#[inline(always)]
fn keeping_after(keeping: Keeping, piece: Piece<'_>) -> Keeping
    ensures { result ≡ spec.keeping_after keeping (derived piece.entry) }
{
    if is_word(piece, Word::Array) {
        Keeping::Array
    } else if is_word(piece, Word::Read) {
        Keeping::Read
    } else if is_word(piece, Word::Constant)
        || (is_word(piece, Word::Global) || is_word(piece, Word::Property))
    {
        Keeping::Other
    } else {
        match keeping {
            Keeping::Read if is_name(piece) => Keeping::Read,
            _ => Keeping::Nothing,
        }
    }
}

// A local hides an array with its name.
fn is_hidden(reading: &Reading, name: &[u8]) -> bool
    ensures { result ≡ spec.is_hidden (reading_of reading.now) name.now }
{
    !is_worth(reading.scope) && reading.own.has(name)
}

// Whether a name is that of one of these arrays: no lookup where there are none.
#[inline(never)]
#[tactic(auto, using(crate::proofs::Without::no_array))]
fn is_array_name(
    alloc: Global,
    arrays: &Names,
    reading: &Reading,
    piece: Piece<'_>,
) -> Result<bool, AllocError>
    ensures { IfOk result (λ found. found
        ≡ (is_among (names_of arrays.now) (small_name (derived piece.entry))
        && not (spec.is_hidden (reading_of reading.now) (small_name (derived piece.entry))))) }
{
    if arrays.count() == 0 {
        Ok(false)
    } else {
        let name = small_name_in(alloc, piece)?;
        Ok(arrays.has(name.bytes()) && !is_hidden(reading, name.bytes()))
    }
}

// Whether a name has the length and the first letter of an array's.
#[inline(always)]
fn is_like(name: &[u8], array: &[u8]) -> bool
    ensures { result ≡ plain.is_like name.now array.now }
{
    match (name, array) {
        ([first, ..], [other, ..]) => {
            name.len() == array.len() && first.to_ascii_lowercase() == *other
        }
        _ => true,
    }
}

// Whether a name may be an array's: it is like one of them, or they are many.
#[inline(always)]
#[tactic(auto, using(crate::proofs::Bare::none_among))]
fn is_like_any(arrays: &Names, name: &[u8]) -> bool
    ensures { result ≡ false → is_among (names_of arrays.now) (small name.now) ≡ false }
{
    if arrays.count() > MOST_COMPARED {
        return true;
    }
    for k in 0..arrays.count() {
        if is_like(name, arrays.at(k)) {
            return true;
        }
    }
    false
}

/// Whether a token may be the name of an array.
#[inline(always)]
pub fn may_be_array(arrays: &Names, piece: Piece<'_>) -> bool
    ensures named { result ≡ true → names_spec.is_name (derived piece.entry) ≡ true }
    ensures apart { result ≡ false
        → plain.is_named_array (names_of arrays.now) (derived piece.entry) ≡ false }
{
    match piece.kind {
        PieceKind::Read(Kind::Name(name)) => is_like_any(arrays, name),
        PieceKind::Read(_) | PieceKind::Quoted(_) => false,
        PieceKind::Numbered(..) => true,
    }
}

/// Whether a token is the name of an array.
#[inline(always)]
#[tactic(auto, using(crate::proofs::Without::no_name))]
pub fn is_array(
    alloc: Global,
    arrays: &Names,
    reading: &Reading,
    piece: Piece<'_>,
) -> Result<bool, AllocError>
    ensures { IfOk result (λ found. found
        ≡ spec.is_array (names_of arrays.now) (reading_of reading.now) (derived piece.entry)) }
{
    if may_be_array(arrays, piece) {
        is_array_name(alloc, arrays, reading, piece)
    } else {
        Ok(false)
    }
}

// Puts what an array stands for that is a value.
#[inline(never)]
fn put_number<'a>(
    out: &mut Vec<Piece<'a>>,
    places: &Names,
    piece: Piece<'a>,
) -> Result<(), AllocError>
    ensures { OnOk result (derived_all out.new.items ≡ derived_all out.old.items
        ++ spec.number_at (place_in (names_of places.now) (small_name (derived piece.entry)))
        (derived piece.entry) ∷ []) }
{
    let alloc = *out.allocator();
    let name = small_name_in(alloc, piece)?;
    put_piece(out, number_at(places.place(name.bytes()), piece))
}

/// What is read of a file, and which names that come next stay.
#[derive(Drop)]
pub struct Placing {
    pub reading: Reading,
    pub keeping: Keeping,
}

// The scope after a token, but for the place in statements.
#[inline(always)]
fn rough_after(scope: Scope, piece: Piece<'_>) -> Scope
    requires { opened_within scope + 1 < 2 ^ 64 }
    ensures value { result ≡ rough.rough_after scope (derived piece.entry) }
    ensures grows { opened_within result ≤ opened_within scope + 1 }
{
    match scope {
        Scope::Body(_) => {
            if is_sign(piece, Sign::CloseBracket) {
                Scope::Bare
            } else {
                scope
            }
        }
        _ => scope_after(scope, piece),
    }
}

/// Puts a row at the end, if there is room and it is not there.
///
/// # Errors
///
/// `AllocError` where memory is refused.
#[tactic(auto, using(derive_values::proofs::Rooms::room_left))]
pub fn add_in_room(rows: &mut Names, row: Vec<u8>) -> Result<(), AllocError>
    ensures value { OnOk result (names_of rows.new
        ≡ with_room spec.most_places (names_of rows.old) row.items) }
    ensures few { OnOk result (length (names_of rows.new)
        ≤ max 8192 (length (names_of rows.old))) }
{
    if rows.count() < MOST_PLACES {
        rows.add(row)?;
        Ok(())
    } else {
        Ok(())
    }
}

/// Whether an array's name is a value before the rest of the file.
#[inline(always)]
pub fn takes_place(scope: Scope, keeping: Keeping, rest: &[Piece<'_>]) -> bool
    ensures { result ≡ rough.takes_place scope keeping (derived_all rest.now) }
{
    takes_array(scope) && (matches!(keeping, Keeping::Nothing) && !is_arrow_next(rest))
}

/// What a name stands for that has this place.
#[tactic(auto, using(derive_tokens::proofs::Positions::position_derived))]
pub fn number_at<'a>(place: Option<usize>, piece: Piece<'a>) -> Piece<'a>
    ensures { derived result ≡ spec.number_at place (derived piece.entry) }
{
    match place {
        Some(k) if k < MOST_PLACES => Piece {
            kind: PieceKind::Read(Kind::Number(FIRST_PLACE + k as u16)),
            position: piece.position,
        },
        _ => piece,
    }
}

impl Placing {
    /// Nothing is read yet.
    pub fn new(alloc: Global) -> Placing
        ensures value { placing_of result ≡ spec.unplaced }
        ensures none { opened_within result.reading.scope ≡ 0 }
    {
        Placing {
            reading: Reading::new(alloc),
            keeping: Keeping::Nothing,
        }
    }

    /// Puts what a token stands for: an array that is a value for its number.
    #[inline(always)]
    pub fn put_valued<'a>(
        &self,
        out: &mut Vec<Piece<'a>>,
        is_array: bool,
        places: &Names,
        piece: Piece<'a>,
        rest: &[Piece<'a>],
    ) -> Result<(), AllocError>
        ensures { OnOk result (derived_all out.new.items ≡ derived_all out.old.items
            ++ spec.valued_as is_array (names_of places.now) (placing_of self.now)
            (derived piece.entry) (derived_all rest.now) ∷ []) }
    {
        if is_array && takes_place(self.reading.scope, self.keeping, rest) {
            put_number(out, places, piece)
        } else {
            put_piece(out, piece)
        }
    }

    /// One token more.
    #[inline(always)]
    pub fn step(&mut self, alloc: Global, piece: Piece<'_>) -> Result<(), AllocError>
        requires { opened_within self.old.reading.scope + 1 < 2 ^ 64 }
        ensures value { OnOk result (placing_of self.new
            ≡ spec.placing_after (placing_of self.old) (derived piece.entry)) }
        ensures grows { OnOk result (opened_within self.new.reading.scope
            ≤ opened_within self.old.reading.scope + 1) }
    {
        self.keeping = keeping_after(self.keeping, piece);
        self.reading.step(alloc, piece)
    }
}

/// The arrays of a file.
///
/// # Errors
///
/// `AllocError` where memory is refused.
#[tactic(auto, using(crate::proofs::Rough::arrays_same))]
pub fn arrays_of(alloc: Global, pieces: &[Piece<'_>]) -> Result<Names, AllocError>
    ensures { IfOk result (λ arrays. names_of arrays ≡ spec.arrays_of (derived_all pieces.now)) }
{
    let mut arrays = Names::new(alloc);
    let mut scope = Scope::Between;
    let mut is_named = false;
    for piece in pieces {
        if is_named && is_worth(scope) {
            note_name(&mut arrays, alloc, *piece)?;
        }
        is_named = is_word(*piece, Word::Array);
        scope = rough_after(scope, *piece);
    }
    Ok(arrays)
}
