//! Routines in properties.

ghost use Rattle.std.specs.Prelude.{◌≡◌, ◌++◌, ◌+◌, ◌<◌, ◌≤◌, ◌^◌, IfOk, OnOk, drop, false, length};
ghost use Rattle.derive_tokens.specs.Pieces.{derived, derived_all};
ghost use Rattle.derive_values.specs.declared.lifting.Level.TheVariants as Level;
ghost use Rattle.derive_values.specs.Lifted as spec;
ghost use Rattle.derive_values.specs.Views.{Lifts, Passes, lifting_of};

use derive_tokens::{
    Piece, PieceKind, after, front, is_name, is_sign, is_word, put_all, put_kind, put_numbered,
    put_piece, put_pieces,
};
use std::alloc::{AllocError, Global};
use syntax_lexer::{Kind, Sign, Word};

/// Where a token stands.
#[derive(Clone, Copy)]
pub enum Level {
    /// Where a directive may begin.
    Between,

    /// In a directive of an object.
    Object,

    /// In a routine in a property.
    Embedded,

    /// In another directive.
    Elsewhere,

    /// In a routine of the file.
    Routine,
}

/// How the name of a routine that is lifted begins.
const PREFIX: &[u8] = b"x__r";

// After the end of a directive, or else.
#[inline(always)]
fn after_directive(piece: Piece<'_>, other: Level) -> Level
    ensures { result ≡ spec.after_directive other (derived piece.entry) }
{
    if is_sign(piece, Sign::Semicolon) {
        Level::Between
    } else {
        other
    }
}

// After the end of a routine, or else.
#[inline(always)]
fn after_bracket(piece: Piece<'_>, closed: Level, other: Level) -> Level
    ensures { result ≡ spec.after_bracket closed other (derived piece.entry) }
{
    if is_sign(piece, Sign::CloseBracket) {
        closed
    } else {
        other
    }
}

// A directive of an object, or of a class, or of an object of a class.
#[inline(always)]
fn begins_object(piece: Piece<'_>) -> bool
    ensures { result ≡ spec.begins_object (derived piece.entry) }
{
    is_word(piece, Word::Object) || is_name(piece)
}

#[inline(always)]
fn after_between(piece: Piece<'_>) -> Level
    ensures { result ≡ spec.level_after Level.Between (derived piece.entry) }
{
    if begins_object(piece) {
        Level::Object
    } else if is_sign(piece, Sign::OpenBracket) {
        Level::Routine
    } else {
        after_directive(piece, Level::Elsewhere)
    }
}

#[inline(always)]
fn after_object(piece: Piece<'_>) -> Level
    ensures { result ≡ spec.level_after Level.Object (derived piece.entry) }
{
    if is_sign(piece, Sign::OpenBracket) {
        Level::Embedded
    } else {
        after_directive(piece, Level::Object)
    }
}

#[inline(always)]
fn level_after(level: Level, piece: Piece<'_>) -> Level
    ensures { result ≡ spec.level_after level (derived piece.entry) }
{
    match level {
        Level::Between => after_between(piece),
        Level::Object => after_object(piece),
        Level::Embedded => after_bracket(piece, Level::Object, Level::Embedded),
        Level::Routine => after_bracket(piece, Level::Elsewhere, Level::Routine),
        Level::Elsewhere => after_directive(piece, Level::Elsewhere),
    }
}

// Whether the bracket of a routine in a property opens.
#[inline(always)]
fn is_opened(level: Level, piece: Piece<'_>) -> bool
    ensures { result ≡ spec.is_opened level (derived piece.entry) }
{
    match level {
        Level::Object => is_sign(piece, Sign::OpenBracket),
        _ => false,
    }
}

#[inline(always)]
fn is_embedded(level: Level) -> bool
    ensures { result ≡ spec.is_embedded level }
{
    match level {
        Level::Embedded => true,
        _ => false,
    }
}

#[inline(always)]
fn is_end(piece: Piece<'_>) -> bool
    ensures { result ≡ spec.is_end (derived piece.entry) }
{
    match piece.kind {
        PieceKind::Read(Kind::End) => true,
        _ => false,
    }
}

// What a routine begins with, after its bracket: its name.
#[inline(never)]
#[tactic(auto, using(derive_tokens::proofs::Positions::position_derived))]
fn put_beginning<'a>(
    out: &mut Vec<Piece<'a>>,
    number: usize,
    bracket: Piece<'a>,
) -> Result<(), AllocError>
    ensures { OnOk result (derived_all out.new.items
        ≡ derived_all out.old.items ++ spec.beginning number (derived bracket.entry)) }
{
    put_piece(out, bracket)?;
    put_numbered(out, PREFIX, number, bracket.position)
}

// What a routine ends with.
#[inline(never)]
#[tactic(auto, using(derive_tokens::proofs::Positions::position_derived))]
fn put_ending<'a>(out: &mut Vec<Piece<'a>>, bracket: Piece<'a>) -> Result<(), AllocError>
    ensures { OnOk result (derived_all out.new.items
        ≡ derived_all out.old.items ++ spec.ending (derived bracket.entry)) }
{
    put_kind(out, Kind::Reserved(Word::Rfalse), bracket.position)?;
    put_kind(out, Kind::Sign(Sign::Semicolon), bracket.position)?;
    put_piece(out, bracket)?;
    put_kind(out, Kind::Sign(Sign::Semicolon), bracket.position)
}

// The tokens of routines that wait for the end of the object, after a token.
#[inline(always)]
fn wait<'a>(
    waiting: &mut Vec<Piece<'a>>,
    level: Level,
    count: usize,
    piece: Piece<'a>,
) -> Result<(), AllocError>
    requires { count + 1 < 2 ^ 64 }
    ensures { OnOk result (derived_all waiting.new.items
        ≡ spec.waiting_after level count (derived_all waiting.old.items) (derived piece.entry)) }
{
    if is_opened(level, piece) {
        put_beginning(waiting, count + 1, piece)
    } else if is_embedded(level) {
        if is_sign(piece, Sign::CloseBracket) {
            put_ending(waiting, piece)
        } else {
            put_piece(waiting, piece)
        }
    } else if is_sign(piece, Sign::Semicolon) {
        waiting.clear();
        Ok(())
    } else {
        Ok(())
    }
}

// How many routines are lifted after a token.
#[inline(always)]
fn count_after(level: Level, count: usize, piece: Piece<'_>) -> usize
    requires { count + 1 < 2 ^ 64 }
    ensures value { result ≡ spec.count_after level count (derived piece.entry) }
    ensures grows { result ≤ count + 1 }
{
    if is_opened(level, piece) {
        count + 1
    } else {
        count
    }
}

/// How many tokens in front stay as they are, and the level after them.
#[derive(Clone, Copy)]
pub struct Run {
    pub length: usize,
    pub level: Level,
}

// The tokens in front up to a routine in a property.
#[inline(always)]
fn plain_run(start: Level, pieces: &[Piece<'_>]) -> Run
    requires { spec.is_embedded start ≡ false }
    ensures value { Passes start pieces.now result.length result.level }
    ensures within { result.length ≤ length pieces.now }
{
    let mut level = start;
    for (at, piece) in pieces.iter().enumerate() {
        if is_opened(level, *piece) {
            return Run { length: at, level };
        }
        level = level_after(level, *piece);
    }
    Run {
        length: pieces.len(),
        level,
    }
}

/// Where a token stands, how many routines are lifted so far, and the tokens of those of the
/// object that is being read.
#[derive(Drop)]
pub struct Lifting<'a> {
    pub level: Level,
    pub count: usize,
    pub waiting: Vec<Piece<'a>>,
}

impl<'a> Lifting<'a> {
    // What a token stands for.
    #[inline(always)]
    #[tactic(auto, using(derive_tokens::proofs::Positions::position_derived))]
    fn put_in_place(&self, out: &mut Vec<Piece<'a>>, piece: Piece<'a>) -> Result<(), AllocError>
        requires { self.now.count + 1 < 2 ^ 64 }
        ensures { OnOk result (derived_all out.new.items ≡ derived_all out.old.items
            ++ spec.in_place (lifting_of self.now) (derived piece.entry)) }
    {
        if is_end(piece) {
            put_pieces(out, &self.waiting)?;
            put_piece(out, piece)
        } else if is_opened(self.level, piece) {
            put_numbered(out, PREFIX, self.count + 1, piece.position)
        } else if is_embedded(self.level) {
            Ok(())
        } else if is_sign(piece, Sign::Semicolon) {
            put_piece(out, piece)?;
            put_pieces(out, &self.waiting)
        } else {
            put_piece(out, piece)
        }
    }

    // One token more.
    #[inline(always)]
    fn step(&mut self, piece: Piece<'a>) -> Result<(), AllocError>
        requires { self.old.count + 1 < 2 ^ 64 }
        ensures value { OnOk result (lifting_of self.new
            ≡ spec.lifting_after (lifting_of self.old) (derived piece.entry)) }
        ensures grows { OnOk result (self.new.count ≤ self.old.count + 1) }
    {
        wait(&mut self.waiting, self.level, self.count, piece)?;
        self.count = count_after(self.level, self.count, piece);
        self.level = level_after(self.level, piece);
        Ok(())
    }

    // The tokens up to the next routine in a property where none waits, or else one token more.
    #[inline(always)]
    #[tactic(auto, using(crate::proofs::Plain::one_on))]
    fn put_next(
        &mut self,
        out: &mut Vec<Piece<'a>>,
        pieces: &[Piece<'a>],
    ) -> Result<usize, AllocError>
        requires some { 0 < length pieces.now }
        requires few { self.old.count + 1 < 2 ^ 64 }
        ensures value { IfOk result (λ count. Lifts out.old.items (lifting_of self.old) pieces.now
            out.new.items (lifting_of self.new) (drop count pieces.now)) }
        ensures more { IfOk result (λ count. 0 < count) }
        ensures within { IfOk result (λ count. count ≤ length pieces.now) }
        ensures grows { IfOk result (λ count. self.new.count ≤ self.old.count + count) }
    {
        if !is_embedded(self.level) && self.waiting.len() == 0 {
            let run = plain_run(self.level, pieces);
            if run.length > 0 {
                put_all(out, front(pieces, run.length))?;
                self.level = run.level;
                return Ok(run.length);
            }
        }
        self.put_in_place(out, pieces[0])?;
        self.step(pieces[0])?;
        Ok(1)
    }
}

/// The tokens of a file whose routines in properties are routines of their own.
///
/// # Errors
///
/// `AllocError` where memory is refused.
#[inline(never)]
pub fn lifted<'a>(alloc: Global, pieces: &[Piece<'a>]) -> Result<Vec<Piece<'a>>, AllocError>
    ensures { IfOk result (λ out. derived_all out.items ≡ spec.lifted (derived_all pieces.now)) }
{
    let mut out = Vec::new(alloc);
    out.reserve(pieces.len().saturating_add(pieces.len() / 8 + 16))?;
    let mut lifting = Lifting {
        level: Level::Between,
        count: 0,
        waiting: Vec::new(alloc),
    };
    let mut at = 0;
    while at < pieces.len() {
        at += lifting.put_next(&mut out, after(pieces, at))?;
    }
    Ok(out)
}
