//! Entries that are looked for ahead from the first token of an operand.

ghost use Rattle.std.specs.Prelude.{◌≡◌, ◌≤◌, ◌<◌, ◌+◌, ◌^◌, ◌∷◌, length};
ghost use Rattle.derive_tokens.specs.Pieces.{derived, derived_all};
ghost use Rattle.derive_entries.specs.Operands as spec;
ghost use Rattle.derive_entries.specs.Views.{look_held};

use crate::arrays::is_arrow;
use derive_statements::{deeper, ends_statement};
use derive_tokens::{Piece, PieceKind, is_sign};
use derive_values::is_operand_word;
use syntax_lexer::{Kind, Sign};

/// What is read of an operand.
#[derive(Clone, Copy)]
pub enum Part {
    /// Nothing: one may begin.
    Before,
    /// A sign with which one begins.
    Signed,
    /// It, or its beginning.
    Read,
    /// The same, and an entry behind it is one of the profile, or none.
    Kept,
    /// The dot before a property.
    Dotted,
    /// The sign before the words of a property.
    Words,
}

/// What is looked ahead.
#[derive(Clone, Copy)]
pub enum Look<'a> {
    /// No entry was met; so many brackets are open.
    Sought(Part, usize),
    /// Its sign was met.
    Indexed(Piece<'a>, Part, usize),
    /// An entry of this sign.
    Taken(Piece<'a>),
    /// One with `=` behind it.
    Assigned(Piece<'a>),
    Nothing,
}

/// Whether a token is an operand, or a name with which one begins.
#[inline(always)]
pub fn is_operand(piece: Piece<'_>) -> bool
    ensures { result ≡ spec.is_operand (derived piece.entry) }
{
    match piece.kind {
        PieceKind::Read(Kind::Sign(_)) => false,
        PieceKind::Read(Kind::Reserved(_)) => is_operand_word(piece),
        PieceKind::Read(Kind::End) => false,
        _ => true,
    }
}

#[inline(always)]
fn is_prefix(piece: Piece<'_>) -> bool
    ensures { result ≡ spec.is_prefix (derived piece.entry) }
{
    is_sign(piece, Sign::Minus)
        || (is_sign(piece, Sign::Increment) || is_sign(piece, Sign::Decrement))
}

#[inline(always)]
fn part_begun(is_array: bool, piece: Piece<'_>) -> Part
    ensures { result ≡ spec.part_begun is_array (derived piece.entry) }
{
    if is_array {
        Part::Kept
    } else if is_operand(piece) {
        Part::Read
    } else if is_prefix(piece) {
        Part::Signed
    } else {
        Part::Before
    }
}

#[inline(always)]
fn part_signed(piece: Piece<'_>) -> Part
    ensures { result ≡ spec.part_signed (derived piece.entry) }
{
    if is_operand(piece) {
        Part::Kept
    } else if is_prefix(piece) {
        Part::Signed
    } else {
        Part::Before
    }
}

// After an operand.
#[inline(always)]
fn part_on(is_array: bool, piece: Piece<'_>) -> Part
    ensures { result ≡ spec.part_on is_array (derived piece.entry) }
{
    if is_sign(piece, Sign::Dot) || is_sign(piece, Sign::DotHash) {
        Part::Dotted
    } else if is_sign(piece, Sign::DotAmpersand) {
        Part::Words
    } else if is_sign(piece, Sign::Increment) || is_sign(piece, Sign::Decrement) {
        Part::Read
    } else if is_sign(piece, Sign::Minus) {
        Part::Before
    } else {
        part_begun(is_array, piece)
    }
}

/// The part after a token that is no bracket.
#[inline(always)]
pub fn part_after(is_array: bool, part: Part, piece: Piece<'_>) -> Part
    ensures { result ≡ spec.part_after is_array part (derived piece.entry) }
{
    match part {
        Part::Before => part_begun(is_array, piece),
        Part::Signed => part_signed(piece),
        Part::Read | Part::Kept => part_on(is_array, piece),
        Part::Dotted => Part::Read,
        Part::Words => Part::Kept,
    }
}

/// The part after a bracket.
#[inline(always)]
pub fn part_closed(part: Part) -> Part
    ensures { result ≡ spec.part_closed part }
{
    match part {
        Part::Signed => Part::Kept,
        _ => Part::Read,
    }
}

/// Whether an operand is read.
#[inline(always)]
pub fn is_done(part: Part) -> bool
    ensures { result ≡ spec.is_done part }
{
    matches!(part, Part::Read | Part::Kept)
}

/// Whether an entry that is not one of the profile may come next.
#[inline(always)]
pub fn takes_entry(part: Part) -> bool
    ensures { result ≡ spec.takes_entry part }
{
    matches!(part, Part::Read)
}

/// Whether a token belongs to an operand that was read.
#[inline(always)]
pub fn goes_on(piece: Piece<'_>) -> bool
    ensures { result ≡ spec.goes_on (derived piece.entry) }
{
    is_sign(piece, Sign::Dot)
        || (is_sign(piece, Sign::DotHash)
            || (is_sign(piece, Sign::DotAmpersand)
                || (is_sign(piece, Sign::Increment)
                    || (is_sign(piece, Sign::Decrement) || is_sign(piece, Sign::OpenParenthesis)))))
}

fn belongs(part: Part, piece: Piece<'_>) -> bool
    ensures { result ≡ spec.belongs part (derived piece.entry) }
{
    match part {
        Part::Before | Part::Signed => is_operand(piece) || is_prefix(piece),
        Part::Read | Part::Kept => goes_on(piece),
        Part::Dotted | Part::Words => true,
    }
}

// The part in brackets, or behind them.
fn part_within(part: Part, depth: usize, piece: Piece<'_>) -> Part
    ensures { result ≡ spec.part_within part depth (derived piece.entry) }
{
    if depth > 0 {
        part
    } else if is_sign(piece, Sign::OpenParenthesis) {
        part_closed(part)
    } else {
        part_after(false, part, piece)
    }
}

fn look_sought<'a>(part: Part, depth: usize, piece: Piece<'a>) -> Look<'a>
    requires { depth + 1 < 2 ^ 64 }
    ensures value { look_held result ≡ spec.look_sought part depth (derived piece.entry) }
    ensures grows { spec.depth_of (look_held result) ≤ depth + 1 }
{
    if ends_statement(piece) {
        Look::Nothing
    } else if depth > 0 || belongs(part, piece) {
        Look::Sought(part_within(part, depth, piece), deeper(depth, piece))
    } else if takes_entry(part) && is_arrow(piece) {
        Look::Indexed(piece, Part::Before, 0)
    } else {
        Look::Nothing
    }
}

fn look_indexed<'a>(arrow: Piece<'a>, part: Part, depth: usize, piece: Piece<'a>) -> Look<'a>
    requires { depth + 1 < 2 ^ 64 }
    ensures value { look_held result
        ≡ spec.look_indexed (derived arrow.entry) part depth (derived piece.entry) }
    ensures grows { spec.depth_of (look_held result) ≤ depth + 1 }
{
    if ends_statement(piece) {
        Look::Taken(arrow)
    } else if depth > 0 || (belongs(part, piece) || is_sign(piece, Sign::OpenParenthesis)) {
        Look::Indexed(arrow, part_within(part, depth, piece), deeper(depth, piece))
    } else if is_sign(piece, Sign::Assign) {
        Look::Assigned(arrow)
    } else {
        Look::Taken(arrow)
    }
}

fn look_after<'a>(look: Look<'a>, piece: Piece<'a>) -> Look<'a>
    requires { spec.depth_of (look_held look) + 1 < 2 ^ 64 }
    ensures value { look_held result
        ≡ spec.look_after (look_held look.entry) (derived piece.entry) }
    ensures grows { spec.depth_of (look_held result)
        ≤ spec.depth_of (look_held look.entry) + 1 }
{
    match look {
        Look::Sought(part, depth) => look_sought(part, depth, piece),
        Look::Indexed(arrow, part, depth) => look_indexed(arrow, part, depth, piece),
        Look::Taken(arrow) => Look::Taken(arrow),
        Look::Assigned(arrow) => Look::Assigned(arrow),
        Look::Nothing => Look::Nothing,
    }
}

// After the first token, which is an array's name or not.
fn look_begun<'a>(is_array: bool, piece: Piece<'a>) -> Look<'a>
    ensures value { look_held result ≡ spec.look_begun is_array (derived piece.entry) }
    ensures low { spec.depth_of (look_held result) ≤ 1 }
{
    if is_sign(piece, Sign::OpenParenthesis) {
        Look::Sought(Part::Read, 1)
    } else {
        Look::Sought(part_begun(is_array, piece), 0)
    }
}

// Whether no token changes what is found.
fn is_settled(look: Look<'_>) -> bool
    ensures { result ≡ spec.is_settled (look_held look.entry) }
{
    matches!(look, Look::Taken(_) | Look::Assigned(_) | Look::Nothing)
}

/// The entry behind the operand that begins with a token.
#[inline(never)]
#[tactic(auto, using(crate::proofs::Settled::no_change))]
pub fn look_of<'a>(is_array: bool, piece: Piece<'a>, rest: &[Piece<'a>]) -> Look<'a>
    requires { length rest.now + 1 < 2 ^ 64 }
    ensures { look_held result
        ≡ spec.look_of is_array (derived piece.entry) (derived_all rest.now) }
{
    let mut look = look_begun(is_array, piece);
    for next in rest {
        if is_settled(look) {
            return look;
        }
        look = look_after(look, *next);
    }
    look
}

/// Whether the sign of an entry comes before the end of the statement.
#[inline(never)]
pub fn is_arrow_ahead(pieces: &[Piece<'_>]) -> bool
    ensures { result ≡ spec.arrow_ahead (derived_all pieces.now) }
{
    for piece in pieces {
        if ends_statement(*piece) {
            return false;
        }
        if is_arrow(*piece) {
            return true;
        }
    }
    false
}

/// The same after a token, before which it is known.
#[inline(always)]
#[tactic(auto, using(crate::proofs::Settled::same_ahead))]
pub fn ahead_after(is_ahead: bool, piece: Piece<'_>, rest: &[Piece<'_>]) -> bool
    requires { is_ahead ≡ spec.arrow_ahead (derived piece ∷ derived_all rest.now) }
    ensures { result ≡ spec.arrow_ahead (derived_all rest.now) }
{
    if ends_statement(piece) || is_arrow(piece) {
        is_arrow_ahead(rest)
    } else {
        is_ahead
    }
}
