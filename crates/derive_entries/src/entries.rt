//! Entries of what is no array's name.

ghost use Rattle.std.specs.Prelude.{◌≡◌, ◌≤◌, ◌<◌, ◌+◌, ◌-◌, ◌^◌, ◌++◌, ◌∷◌, [], drop, length, reverse};
ghost use Rattle.std.specs.Prelude.{false, true, IfOk, OnOk};
ghost use Rattle.derive_tokens.specs.Pieces.{derived, derived_all};
ghost use Rattle.derive_tokens.specs.Held.{names_of};
ghost use Rattle.derive_values.specs.Places.{opened_within};
ghost use Rattle.derive_entries.specs.Entries as spec;
ghost use Rattle.derive_entries.specs.Operands.{arrow_ahead};
ghost use Rattle.derive_entries.specs.Plain.{clear, is_bare, quiet};
ghost use Rattle.derive_entries.specs.Views.{entering_of, look_held, placing_of};

use crate::arrays::{Placing, is_array, is_arrow};
use crate::operands::{
    Look, Part, ahead_after, goes_on, is_arrow_ahead, is_done, is_operand, look_of, part_after,
    part_closed, takes_entry,
};
use crate::statements::{bare_length, ends_plain, is_quiet, put_bare};
use derive_expressions::{is_cast, is_in_body};
use derive_statements::{ends_statement, is_before_header};
use derive_tokens::{Names, Piece, after, is_sign, put_kind};
use derive_values::Scope;
use std::alloc::{AllocError, Global};
use syntax_lexer::{Kind, Position, Sign};

/// How many entries may be assigned to in one bracket.
const MOST_SETS: usize = 1_000;

/// The index that is read.
#[derive(Clone, Copy)]
pub enum Index {
    Absent,
    /// Of an entry of the profile, or of none.
    Kept,
    /// Of an entry for which a routine is called.
    Made,
}

/// What is read in a bracket: the part of an operand, the index that it is, and how many entries are
/// assigned to.
#[derive(Clone, Copy)]
pub struct Frame {
    pub part: Part,
    pub index: Index,
    pub sets: usize,
}

/// What is read, and the brackets that are open, the innermost at the end.
#[derive(Drop)]
pub struct Entering {
    pub placing: Placing,
    pub frame: Frame,
    pub outer: Vec<Frame>,
}

#[inline(always)]
fn opened() -> Frame
    ensures { result ≡ spec.opened }
{
    Frame {
        part: Part::Before,
        index: Index::Absent,
        sets: 0,
    }
}

#[inline(always)]
fn is_absent(index: Index) -> bool
    ensures { result ≡ spec.is_absent index }
{
    matches!(index, Index::Absent)
}

#[inline(always)]
fn is_made(index: Index) -> bool
    ensures { result ≡ spec.is_made index }
{
    matches!(index, Index::Made)
}

#[inline(always)]
fn is_before(part: Part) -> bool
    ensures { result ≡ spec.is_before part }
{
    matches!(part, Part::Before)
}

// An index is read, and the token does not belong to it.
#[inline(always)]
fn ends_index(frame: Frame, piece: Piece<'_>) -> bool
    ensures { result ≡ spec.ends_index frame (derived piece.entry) }
{
    !is_absent(frame.index) && (is_done(frame.part) && !goes_on(piece))
}

// What is assigned ends before the token.
#[inline(always)]
fn is_stop(piece: Piece<'_>) -> bool
    ensures { result ≡ spec.is_stop (derived piece.entry) }
{
    ends_statement(piece)
        || (is_sign(piece, Sign::Comma)
            || (is_sign(piece, Sign::CloseParenthesis) || is_sign(piece, Sign::Colon)))
}

// `=` behind an entry.
#[inline(always)]
fn is_assigned(frame: Frame, piece: Piece<'_>) -> bool
    ensures { result ≡ spec.is_assigned frame (derived piece.entry) }
{
    is_made(frame.index) && (ends_index(frame, piece) && is_sign(piece, Sign::Assign))
}

#[inline(always)]
fn index_ended(frame: Frame, piece: Piece<'_>) -> Index
    ensures { result ≡ spec.index_ended frame (derived piece.entry) }
{
    if ends_index(frame, piece) {
        Index::Absent
    } else {
        frame.index
    }
}

#[inline(always)]
fn sets_ended(frame: Frame, piece: Piece<'_>) -> usize
    ensures { result ≡ spec.sets_ended frame (derived piece.entry) }
{
    if frame.sets == 0 && !is_made(frame.index) {
        0
    } else if is_stop(piece) {
        0
    } else if is_assigned(frame, piece) && frame.sets < MOST_SETS {
        frame.sets + 1
    } else {
        frame.sets
    }
}

// The sign of an entry.
#[inline(always)]
fn is_entry(frame: Frame, piece: Piece<'_>) -> bool
    ensures { result ≡ spec.is_entry frame (derived piece.entry) }
{
    is_arrow(piece) && (takes_entry(frame.part) && is_absent(frame.index))
}

#[inline(always)]
fn index_moved(frame: Frame, piece: Piece<'_>) -> Index
    ensures { result ≡ spec.index_moved frame (derived piece.entry) }
{
    if is_entry(frame, piece) {
        Index::Made
    } else if is_arrow(piece) {
        Index::Kept
    } else {
        index_ended(frame, piece)
    }
}

// After a token that is no bracket.
#[inline(always)]
fn frame_moved(is_array: bool, frame: Frame, piece: Piece<'_>) -> Frame
    ensures { result ≡ spec.frame_moved is_array frame (derived piece.entry) }
{
    Frame {
        part: part_after(is_array, frame.part, piece),
        index: index_moved(frame, piece),
        sets: sets_ended(frame, piece),
    }
}

// The bracket of `if` and kin, or of a rule, as `(char)`.
#[inline(always)]
fn is_no_operand(scope: Scope, rest: &[Piece<'_>]) -> bool
    ensures { result ≡ spec.is_no_operand scope (derived_all rest.now) }
{
    is_before_header(scope) || is_cast(rest)
}

// After the bracket that is opened here.
#[inline(always)]
fn frame_around(scope: Scope, frame: Frame, piece: Piece<'_>, rest: &[Piece<'_>]) -> Frame
    ensures { result
        ≡ spec.frame_around scope frame (derived piece.entry) (derived_all rest.now) }
{
    let is_none = is_no_operand(scope, rest);
    Frame {
        part: if is_none {
            Part::Before
        } else {
            part_closed(frame.part)
        },
        index: index_ended(frame, piece),
        sets: sets_ended(frame, piece),
    }
}

// Whether an operand begins with the token, and an entry may be behind it.
#[inline(always)]
fn is_begun(scope: Scope, frame: Frame, piece: Piece<'_>, rest: &[Piece<'_>]) -> bool
    ensures { result
        ≡ spec.is_begun scope frame (derived piece.entry) (derived_all rest.now) }
{
    is_absent(index_ended(frame, piece))
        && (if is_sign(piece, Sign::OpenParenthesis) {
            is_before(frame.part) && !is_no_operand(scope, rest)
        } else {
            is_operand(piece) && (is_before(frame.part) || is_done(frame.part))
        })
}

fn word_or_byte(arrow: Piece<'_>, word: &'static [u8], byte: &'static [u8]) -> &'static [u8]
    ensures { result.now ≡ spec.word_or_byte (derived arrow.entry) word.now byte.now }
{
    if is_sign(arrow, Sign::LongArrow) {
        word
    } else {
        byte
    }
}

fn put_call<'a>(
    out: &mut Vec<Piece<'a>>,
    position: Position,
    routine: &'static [u8],
) -> Result<(), AllocError>
    ensures { OnOk result (derived_all out.new.items
        ≡ derived_all out.old.items ++ spec.call_of position routine.now) }
{
    put_kind(out, Kind::Name(routine), position)?;
    put_kind(out, Kind::Sign(Sign::OpenParenthesis), position)
}

// The routine of an entry.
fn put_routine<'a>(
    out: &mut Vec<Piece<'a>>,
    position: Position,
    look: Look<'a>,
) -> Result<(), AllocError>
    ensures { OnOk result (derived_all out.new.items
        ≡ derived_all out.old.items ++ spec.routine_called position (look_held look.entry)) }
{
    match look {
        Look::Taken(arrow) => put_call(out, position, word_or_byte(arrow, b"x__word", b"x__byte")),
        Look::Assigned(arrow) => put_call(
            out,
            position,
            word_or_byte(arrow, b"x__set_word", b"x__set_byte"),
        ),
        Look::Sought(..) | Look::Indexed(..) | Look::Nothing => Ok(()),
    }
}

// The routine of the entry that an operand has behind it, if a sign of an entry is ahead.
#[inline(never)]
#[tactic(auto, using(derive_tokens::proofs::Positions::position_derived))]
fn put_begun_ahead<'a>(
    out: &mut Vec<Piece<'a>>,
    is_array: bool,
    scope: Scope,
    frame: Frame,
    piece: Piece<'a>,
    rest: &[Piece<'a>],
) -> Result<(), AllocError>
    requires { length rest.now + 1 < 2 ^ 64 }
    ensures { OnOk result (derived_all out.new.items ≡ derived_all out.old.items
        ++ spec.begun_as is_array scope frame (derived piece.entry) (derived_all rest.now)) }
{
    if is_begun(scope, frame, piece, rest) {
        put_routine(out, piece.position, look_of(is_array, piece, rest))
    } else {
        Ok(())
    }
}

// The routine of the entry that an operand has behind it.
#[inline(always)]
#[tactic(auto, using(crate::proofs::Settled::none_begun))]
fn put_begun<'a>(
    out: &mut Vec<Piece<'a>>,
    is_ahead: bool,
    is_array: bool,
    scope: Scope,
    frame: Frame,
    piece: Piece<'a>,
    rest: &[Piece<'a>],
) -> Result<(), AllocError>
    requires few { length rest.now + 1 < 2 ^ 64 }
    requires ahead { is_ahead ≡ arrow_ahead (derived_all rest.now) }
    ensures { OnOk result (derived_all out.new.items ≡ derived_all out.old.items
        ++ spec.begun_as is_array scope frame (derived piece.entry) (derived_all rest.now)) }
{
    if is_ahead {
        put_begun_ahead(out, is_array, scope, frame, piece, rest)
    } else {
        Ok(())
    }
}

// Brackets close, at least one.
#[inline(never)]
#[tactic(auto, using(derive_tokens::proofs::Positions::position_derived))]
fn put_brackets<'a>(
    out: &mut Vec<Piece<'a>>,
    count: usize,
    piece: Piece<'a>,
) -> Result<(), AllocError>
    ensures { OnOk result (derived_all out.new.items
        ≡ derived_all out.old.items ++ spec.closing count (derived piece.entry)) }
{
    let mut left = count;
    while left > 0 {
        left -= 1;
        put_kind(out, Kind::Sign(Sign::CloseParenthesis), piece.position)?;
    }
    Ok(())
}

// So many brackets close.
#[inline(always)]
fn put_closing<'a>(
    out: &mut Vec<Piece<'a>>,
    count: usize,
    piece: Piece<'a>,
) -> Result<(), AllocError>
    ensures { OnOk result (derived_all out.new.items
        ≡ derived_all out.old.items ++ spec.closing count (derived piece.entry)) }
{
    if count == 0 {
        Ok(())
    } else {
        put_brackets(out, count, piece)
    }
}

// The bracket of an index that ends before the token.
#[inline(always)]
fn index_closed(frame: Frame, piece: Piece<'_>) -> usize
    ensures { result ≡ spec.index_closed frame (derived piece.entry) }
{
    if is_made(frame.index) && (ends_index(frame, piece) && !is_sign(piece, Sign::Assign)) {
        1
    } else {
        0
    }
}

// Those of what is assigned.
#[inline(always)]
fn sets_closed(frame: Frame, piece: Piece<'_>) -> usize
    ensures { result ≡ spec.sets_closed frame (derived piece.entry) }
{
    if frame.sets == 0 {
        0
    } else if is_stop(piece) {
        frame.sets
    } else {
        0
    }
}

impl Entering {
    fn new(alloc: Global) -> Entering
        ensures value { entering_of result ≡ spec.unentered }
        ensures none { opened_within result.placing.reading.scope ≡ 0 }
    {
        Entering {
            placing: Placing::new(alloc),
            frame: opened(),
            outer: Vec::new(alloc),
        }
    }

    // A token in a statement, without what is before it.
    #[inline(always)]
    #[tactic(auto, using(derive_tokens::proofs::Positions::position_derived))]
    fn put_alone<'a>(
        &self,
        out: &mut Vec<Piece<'a>>,
        is_array: bool,
        places: &Names,
        piece: Piece<'a>,
        rest: &[Piece<'a>],
    ) -> Result<(), AllocError>
        ensures { OnOk result (derived_all out.new.items ≡ derived_all out.old.items
            ++ spec.alone is_array (names_of places.now) (placing_of self.now.placing)
            self.now.frame (derived piece.entry) (derived_all rest.now) ∷ []) }
    {
        if is_entry(self.frame, piece) || is_assigned(self.frame, piece) {
            put_kind(out, Kind::Sign(Sign::Comma), piece.position)
        } else {
            self.placing.put_valued(out, is_array, places, piece, rest)
        }
    }

    // A token in a statement.
    #[inline(always)]
    fn put_in_body<'a>(
        &self,
        out: &mut Vec<Piece<'a>>,
        is_ahead: bool,
        is_array: bool,
        places: &Names,
        piece: Piece<'a>,
        rest: &[Piece<'a>],
    ) -> Result<(), AllocError>
        requires few { length rest.now + 1 < 2 ^ 64 }
        requires ahead { is_ahead ≡ arrow_ahead (derived_all rest.now) }
        ensures { OnOk result (derived_all out.new.items ≡ derived_all out.old.items
            ++ spec.body_as is_array (names_of places.now) (entering_of self.now)
            (derived piece.entry) (derived_all rest.now)) }
    {
        put_closing(out, index_closed(self.frame, piece), piece)?;
        put_closing(out, sets_closed(self.frame, piece), piece)?;
        put_begun(
            out,
            is_ahead,
            is_array,
            self.placing.reading.scope,
            self.frame,
            piece,
            rest,
        )?;
        self.put_alone(out, is_array, places, piece, rest)
    }

    // What a token stands for.
    #[inline(always)]
    fn put_entered<'a>(
        &self,
        out: &mut Vec<Piece<'a>>,
        is_ahead: bool,
        is_array: bool,
        places: &Names,
        piece: Piece<'a>,
        rest: &[Piece<'a>],
    ) -> Result<(), AllocError>
        requires few { length rest.now + 1 < 2 ^ 64 }
        requires ahead { is_ahead ≡ arrow_ahead (derived_all rest.now) }
        ensures { OnOk result (derived_all out.new.items ≡ derived_all out.old.items
            ++ spec.entered_as is_array (names_of places.now) (entering_of self.now)
            (derived piece.entry) (derived_all rest.now)) }
    {
        if is_in_body(self.placing.reading.scope) {
            self.put_in_body(out, is_ahead, is_array, places, piece, rest)
        } else {
            self.placing.put_valued(out, is_array, places, piece, rest)
        }
    }

    // The brackets that are open after a token.
    #[inline(always)]
    fn move_frame(
        &mut self,
        is_array: bool,
        piece: Piece<'_>,
        rest: &[Piece<'_>],
    ) -> Result<(), AllocError>
        ensures frame { OnOk result (self.new.frame ≡ spec.frame_after is_array self.old.frame
            (reverse self.old.outer.items) (derived piece.entry)) }
        ensures outer { OnOk result (reverse self.new.outer.items
            ≡ spec.outer_after self.old.placing.reading.scope self.old.frame
            (reverse self.old.outer.items) (derived piece.entry) (derived_all rest.now)) }
        ensures placing { self.new.placing ≡ self.old.placing }
    {
        if is_sign(piece, Sign::OpenParenthesis) {
            let scope = self.placing.reading.scope;
            self.outer
                .push(frame_around(scope, self.frame, piece, rest))?;
            self.frame = opened();
            Ok(())
        } else if is_sign(piece, Sign::CloseParenthesis) {
            self.frame = self.outer.pop().unwrap_or(opened());
            Ok(())
        } else {
            self.frame = frame_moved(is_array, self.frame, piece);
            Ok(())
        }
    }

    #[inline(always)]
    fn step(
        &mut self,
        alloc: Global,
        is_array: bool,
        piece: Piece<'_>,
        rest: &[Piece<'_>],
    ) -> Result<(), AllocError>
        requires { opened_within self.old.placing.reading.scope + 1 < 2 ^ 64 }
        ensures value { OnOk result (entering_of self.new
            ≡ spec.entering_after is_array (entering_of self.old)
            (derived piece.entry) (derived_all rest.now)) }
        ensures grows { OnOk result (opened_within self.new.placing.reading.scope
            ≤ opened_within self.old.placing.reading.scope + 1) }
    {
        self.move_frame(is_array, piece, rest)?;
        self.placing.step(alloc, piece)
    }

    // Whether the next token is between statements, and outside brackets.
    #[inline(always)]
    fn is_clear(&self) -> bool
        ensures { result ≡ true → entering_of self.now ≡ clear (placing_of self.now.placing) }
    {
        is_before(self.frame.part)
            && (is_absent(self.frame.index)
                && (self.frame.sets == 0 && self.outer.as_slice().is_empty()))
    }

    // The tokens up to the end of a statement, and how many they are.
    #[inline(never)]
    fn put_exact<'a>(
        &mut self,
        out: &mut Vec<Piece<'a>>,
        arrays: &Names,
        places: &Names,
        pieces: &[Piece<'a>],
    ) -> Result<usize, AllocError>
        requires some { 0 < length pieces.now }
        requires opened { opened_within self.old.placing.reading.scope + length pieces.now
            < 2 ^ 64 }
        ensures value { IfOk result (λ count. derived_all out.new.items
            ++ spec.entered_from (names_of arrays.now) (names_of places.now)
            (entering_of self.new) (derived_all (drop count pieces.now))
            ≡ derived_all out.old.items
            ++ spec.entered_from (names_of arrays.now) (names_of places.now)
            (entering_of self.old) (derived_all pieces.now)) }
        ensures some { IfOk result (λ count. 0 < count) }
        ensures few { IfOk result (λ count. count ≤ length pieces.now) }
        ensures grows { IfOk result (λ count. opened_within self.new.placing.reading.scope
            ≤ opened_within self.old.placing.reading.scope + count) }
    {
        let alloc = *out.allocator();
        let mut is_ahead = is_arrow_ahead(pieces);
        for (at, piece) in pieces.iter().enumerate() {
            let rest = after(pieces, at + 1);
            let is_array = is_array(alloc, arrays, &self.placing.reading, *piece)?;
            is_ahead = ahead_after(is_ahead, *piece, rest);
            self.put_entered(out, is_ahead, is_array, places, *piece, rest)?;
            self.step(alloc, is_array, *piece, rest)?;
            if ends_plain(*piece) {
                return Ok(at + 1);
            }
        }
        Ok(pieces.len())
    }

    // How many tokens are a statement that stays as it is.
    #[inline(always)]
    fn stays(&self, arrays: &Names, pieces: &[Piece<'_>]) -> usize
        ensures within { result ≤ length pieces.now }
        ensures clear { 0 < result → entering_of self.now ≡ clear (placing_of self.now.placing) }
        ensures quiet { 0 < result → quiet 0 false (derived_all pieces.now) ≡ true }
        ensures bare { 0 < result → is_bare (names_of arrays.now) self.now.placing.reading.scope
            (result - 1) pieces.now ≡ true }
    {
        if self.is_clear() && is_quiet(pieces) {
            bare_length(true, arrays, self.placing.reading.scope, pieces)
        } else {
            0
        }
    }
}

/// The tokens of a file that has these arrays, of which these are values, with numbers for them and
/// calls for entries.
///
/// # Errors
///
/// `AllocError` where memory is refused.
pub fn entered<'a>(
    alloc: Global,
    arrays: &Names,
    places: &Names,
    pieces: &[Piece<'a>],
) -> Result<Vec<Piece<'a>>, AllocError>
    ensures { IfOk result (λ out. derived_all out.items ≡ spec.entered (names_of arrays.now)
        (names_of places.now) (derived_all pieces.now)) }
{
    let mut out = Vec::new(alloc);
    out.reserve(pieces.len().saturating_add(pieces.len() / 8 + 16))?;
    let mut entering = Entering::new(alloc);
    let mut at = 0;
    while at < pieces.len() {
        let rest = after(pieces, at);
        let count = entering.stays(arrays, rest);
        if count > 0 {
            put_bare(&mut out, &mut entering.placing, rest, count)?;
            at += count;
        } else {
            at += entering.put_exact(&mut out, arrays, places, rest)?;
        }
    }
    Ok(out)
}
