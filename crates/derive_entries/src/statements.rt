//! Statements in which no entry is read.

ghost use Rattle.std.specs.Prelude.{◌≡◌, ◌≤◌, ◌<◌, ◌+◌, ◌-◌, ◌^◌, ◌++◌, drop, length, take, true, false};
ghost use Rattle.std.specs.Prelude.{max, IfOk, OnOk};
ghost use Rattle.syntax_lexer.specs.declared.token.Sign.TheVariants as s;
ghost use Rattle.syntax_lexer.specs.Token.{head};
ghost use Rattle.derive_tokens.specs.Pieces.{derived, derived_all};
ghost use Rattle.derive_tokens.specs.Tokens.{is_sign};
ghost use Rattle.derive_tokens.specs.Held.{names_of};
ghost use Rattle.derive_values.specs.Places.{opened_within};
ghost use Rattle.derive_values.specs.Views.{reading_of};
ghost use Rattle.derive_entries.specs.Arrays as arrays_spec;
ghost use Rattle.derive_entries.specs.Arrays.{placing_after};
ghost use Rattle.derive_entries.specs.Plain as spec;
ghost use Rattle.derive_entries.specs.Rough as rough;
ghost use Rattle.derive_entries.specs.Views.{placing_of};

use crate::arrays::{Keeping, Placing, add_in_room, is_array, is_arrow, may_be_array, takes_place};
use derive_statements::deeper;
use derive_tokens::{Names, Piece, after, is_name, is_sign, put_pieces, small_name};
use derive_values::{Reading, Scope};
use std::alloc::{AllocError, Global};
use syntax_lexer::Sign;

/// Whether a token is a sign with which a statement ends.
#[inline(always)]
pub fn ends_plain(piece: Piece<'_>) -> bool
    ensures { result ≡ spec.ends_plain (derived piece.entry) }
{
    is_sign(piece, Sign::Semicolon)
        || (is_sign(piece, Sign::OpenBrace)
            || (is_sign(piece, Sign::CloseBrace) || is_sign(piece, Sign::CloseBracket)))
}

#[inline(always)]
fn is_dot(piece: Piece<'_>) -> bool
    ensures { result ≡ spec.is_dot (derived piece.entry) }
{
    is_sign(piece, Sign::Dot)
        || (is_sign(piece, Sign::DotHash) || is_sign(piece, Sign::DotAmpersand))
}

/// Whether no entry comes before the sign with which the statement ends.
#[inline(never)]
pub fn is_quiet(pieces: &[Piece<'_>]) -> bool
    ensures { result ≡ spec.quiet 0 false (derived_all pieces.now) }
{
    let mut depth = 0;
    let mut is_behind_dot = false;
    for piece in pieces {
        if ends_plain(*piece) {
            return !is_behind_dot && depth == 0;
        }
        if is_arrow(*piece) {
            return false;
        }
        depth = deeper(depth, *piece);
        is_behind_dot = is_dot(*piece);
    }
    false
}

// Whether the last token of these alone tells what is read behind them.
#[inline(always)]
fn is_skipped(scope: Scope, pieces: &[Piece<'_>], last: Piece<'_>) -> bool
    ensures { result ≡ spec.is_skipped scope (head (derived_all pieces.now)) (derived last.entry) }
{
    match scope {
        Scope::Body(_) => true,
        Scope::Named | Scope::Locals => false,
        Scope::Between => {
            is_sign(last, Sign::Semicolon)
                && match pieces {
                    [] => true,
                    [first, ..] => !is_sign(*first, Sign::OpenBracket),
                }
        }
        _ => is_sign(last, Sign::Semicolon),
    }
}

/// How many tokens come up to the end of a statement without names of arrays; 0 where one may be, or
/// where none begins.
#[inline(never)]
#[tactic(auto, using(crate::proofs::Bare::bare_more, crate::proofs::Bare::bare_found))]
pub fn bare_length(begins: bool, arrays: &Names, scope: Scope, pieces: &[Piece<'_>]) -> usize
    ensures within { result ≤ length pieces.now }
    ensures bare { 0 < result
        → spec.is_bare (names_of arrays.now) scope (result - 1) pieces.now ≡ true }
{
    if !begins {
        return 0;
    }
    for (at, piece) in pieces.iter().enumerate() {
        if ends_plain(*piece) {
            return if is_skipped(scope, pieces, *piece) {
                at + 1
            } else {
                0
            };
        }
        if may_be_array(arrays, *piece) {
            return 0;
        }
    }
    0
}

/// Puts so many tokens as they are, the statement that ends with the last of them.
#[inline(never)]
#[tactic(auto, using(crate::proofs::Bare::last_is))]
pub fn put_bare<'a>(
    out: &mut Vec<Piece<'a>>,
    placing: &mut Placing,
    pieces: &[Piece<'a>],
    count: usize,
) -> Result<(), AllocError>
    requires some { 0 < count }
    requires within { count ≤ length pieces.now }
    requires opened { opened_within placing.old.reading.scope + 1 < 2 ^ 64 }
    ensures put { OnOk result (derived_all out.new.items
        ≡ derived_all out.old.items ++ derived_all (take count pieces.now)) }
    ensures placing { OnOk result (placing_of placing.new ≡ placing_after
        (placing_of placing.old) (head (derived_all (drop (count - 1) pieces.now)))) }
    ensures grows { OnOk result (opened_within placing.new.reading.scope
        ≤ opened_within placing.old.reading.scope + 1) }
{
    let alloc = *out.allocator();
    put_pieces(out, pieces.split_at(count).0)?;
    placing.step(alloc, pieces[count - 1])
}

// A name that is a value, if it is that of an array.
#[inline(always)]
fn note_named_place(
    places: &mut Names,
    alloc: Global,
    arrays: &Names,
    reading: &Reading,
    piece: Piece<'_>,
) -> Result<(), AllocError>
    ensures value { OnOk result (names_of places.new
        ≡ rough.placed (arrays_spec.is_array (names_of arrays.now) (reading_of reading.now)
        (derived piece.entry)) (names_of places.old) (derived piece.entry)) }
    ensures few { OnOk result (length (names_of places.new)
        ≤ max 8192 (length (names_of places.old))) }
{
    if is_array(alloc, arrays, reading, piece)? {
        let name = small_name(alloc, piece)?;
        add_in_room(places, name)
    } else {
        Ok(())
    }
}

// An array that is a value, if that is read.
#[inline(always)]
fn note_place(
    places: &mut Names,
    alloc: Global,
    arrays: &Names,
    reading: &Reading,
    keeping: Keeping,
    piece: Piece<'_>,
    rest: &[Piece<'_>],
) -> Result<(), AllocError>
    ensures value { OnOk result (names_of places.new
        ≡ arrays_spec.places_after (names_of arrays.now) (names_of places.old)
        (rough.placing (reading_of reading.now) keeping) (derived piece.entry) (derived_all rest.now)) }
    ensures few { OnOk result (length (names_of places.new)
        ≤ max 8192 (length (names_of places.old))) }
{
    if is_name(piece) && takes_place(reading.scope, keeping, rest) {
        note_named_place(places, alloc, arrays, reading, piece)
    } else {
        Ok(())
    }
}

/// The arrays that are values in a file with these arrays.
///
/// # Errors
///
/// `AllocError` where memory is refused.
#[tactic(auto, using(crate::proofs::Found::places_on))]
pub fn places_of(alloc: Global, arrays: &Names, pieces: &[Piece<'_>]) -> Result<Names, AllocError>
    requires { names_of arrays.now ≡ arrays_spec.arrays_of (derived_all pieces.now) }
    ensures value { IfOk result (λ places. names_of places
        ≡ arrays_spec.places_of (derived_all pieces.now)) }
    ensures few { IfOk result (λ places. length (names_of places) ≤ 8192) }
{
    let mut places = Names::new(alloc);
    let mut placing = Placing::new(alloc);
    let mut begins = true;
    let mut at = 0;
    while at < pieces.len() {
        let front = after(pieces, at);
        let rest = after(pieces, at + 1);
        let count = bare_length(begins, arrays, placing.reading.scope, front);
        if count > 0 {
            placing.step(alloc, pieces[at + (count - 1)])?;
            at += count;
        } else {
            note_place(
                &mut places,
                alloc,
                arrays,
                &placing.reading,
                placing.keeping,
                pieces[at],
                rest,
            )?;
            begins = ends_plain(pieces[at]);
            placing.step(alloc, pieces[at])?;
            at += 1;
        }
    }
    Ok(places)
}
