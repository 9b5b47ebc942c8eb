//! Alternatives: `or` after `has`, `in`, `>` and kin.

ghost use Rattle.std.specs.Prelude.{◌≡◌, ◌≤◌, ◌<◌, ◌+◌, ◌^◌, ◌++◌, ◌∷◌, [], drop, false, length, reverse, true, IfOk, OnOk};
ghost use Rattle.derive_tokens.specs.Pieces.{derived, derived_all};
ghost use Rattle.derive_values.specs.Places.{opened_within};
ghost use Rattle.derive_tokens.specs.Held.{names_of};
ghost use Rattle.derive_statements.specs.Views.{token_of};
ghost use Rattle.derive_operands.specs.Alternatives as spec;
ghost use Rattle.derive_sums.specs.Views.{read_in};
ghost use Rattle.derive_operands.specs.AlternativeViews.{choosing_of};
ghost use Rattle.derive_operands.specs.Quiet as quiet;
ghost use Rattle.derive_operands.specs.QuietViews.{run_of};

use crate::quiet::{Run, area_of, quiet_run, scope_at, with_room};
use derive_expressions::{is_cast, is_in_body};
use derive_statements::is_before_header;
use derive_sums::{
    Part, count_of, ends_sum, is_or, key, operator_of, precedes_sum, takes_names, takes_sums,
};
use derive_tokens::{Names, Piece, after, is_sign, put_first, put_kind, put_numbered, put_piece};
use derive_values::{Scope, scope_after};
use std::alloc::{AllocError, Global};
use syntax_lexer::{Kind, Sign};

/// The alternatives that a token is in.
#[derive(Clone, Copy)]
pub enum Frame {
    /// None.
    Closed,

    /// Before the operator, whose sums are alternatives.
    Opened,

    /// After it.
    Listing,

    /// Before the operator, whose names are alternatives.
    Naming,
}

/// What is read: whether a sum may begin, the alternatives of each bracket that is open, the
/// innermost at the end, and how many tokens are to be passed.
#[derive(Drop)]
pub struct Choosing {
    pub scope: Scope,
    pub begins: bool,
    pub frame: Frame,
    pub outer: Vec<Frame>,
    pub passed: usize,
    /// How many tokens were looked through ahead.
    pub looked: usize,
}

#[inline(always)]
fn is_closed(frame: Frame) -> bool
    ensures { result ≡ spec.is_closed frame }
{
    matches!(frame, Frame::Closed)
}

// The bracket of `if` and kin, or of a rule, as `(char)`.
#[inline(always)]
fn is_no_operand(scope: Scope, piece: Piece<'_>, rest: &[Piece<'_>]) -> bool
    ensures { result ≡ spec.is_no_operand scope (derived piece.entry) (derived_all rest.now) }
{
    is_sign(piece, Sign::OpenParenthesis) && (is_before_header(scope) || is_cast(rest))
}

#[inline(always)]
fn chosen_frame(frame: Frame, operator: Option<Piece<'_>>) -> Frame
    ensures { result ≡ spec.chosen_frame frame (token_of operator.entry) }
{
    match operator {
        None => frame,
        Some(operator) => {
            if takes_names(operator) {
                Frame::Naming
            } else {
                Frame::Opened
            }
        }
    }
}

#[inline(always)]
fn closes_list(frame: Frame, piece: Piece<'_>) -> bool
    ensures { result ≡ spec.closes_list frame (derived piece.entry) }
{
    matches!(frame, Frame::Listing) && ends_sum(piece)
}

// The alternatives that a token is in, or begins.
#[inline(always)]
fn frame_now(frame: Frame, operator: Option<Piece<'_>>, piece: Piece<'_>) -> Frame
    ensures { result ≡ spec.frame_now frame (token_of operator.entry) (derived piece.entry) }
{
    if closes_list(frame, piece) {
        Frame::Closed
    } else {
        chosen_frame(frame, operator)
    }
}

// After a token that is no bracket.
#[inline(always)]
fn frame_moved(frame: Frame, piece: Piece<'_>) -> Frame
    ensures { result ≡ spec.frame_moved frame (derived piece.entry) }
{
    match frame {
        Frame::Opened => {
            if takes_sums(piece) {
                Frame::Listing
            } else {
                Frame::Opened
            }
        }
        Frame::Naming => {
            if takes_names(piece) {
                Frame::Closed
            } else {
                Frame::Naming
            }
        }
        Frame::Closed | Frame::Listing => frame,
    }
}

// How many tokens names with `or` between them are.
fn row_length(part: Part, met: usize) -> usize
    requires { read_in part met < 2 ^ 64 }
    ensures { result ≡ spec.row_length part met }
{
    match part {
        Part::Name | Part::Or => (met + met).saturating_sub(1),
        Part::Sought(_) | Part::Sums(_) => 0,
    }
}

// How many tokens the names after an operator are.
#[inline(always)]
fn names_passed(
    alloc: Global,
    current: Frame,
    piece: Piece<'_>,
    rest: &[Piece<'_>],
) -> Result<usize, AllocError>
    requires { length rest.now + 1 < 2 ^ 64 }
    ensures { IfOk result (λ passed. passed
        ≡ spec.names_passed current (derived piece.entry) (derived_all rest.now)) }
{
    match current {
        Frame::Naming => {
            if takes_names(piece) {
                let count = count_of(alloc, piece, rest)?;
                Ok(row_length(count.part, count.met))
            } else {
                Ok(0)
            }
        }
        Frame::Closed | Frame::Opened | Frame::Listing => Ok(0),
    }
}

// What a token stands for that is in this frame.
#[inline(always)]
#[tactic(auto, using(derive_tokens::proofs::Positions::position_derived))]
fn put_alone<'a>(
    out: &mut Vec<Piece<'a>>,
    current: Frame,
    piece: Piece<'a>,
) -> Result<(), AllocError>
    ensures { OnOk result (derived_all out.new.items
        ≡ derived_all out.old.items ++ spec.alone current (derived piece.entry) ∷ []) }
{
    match current {
        Frame::Opened => {
            if takes_sums(piece) {
                put_kind(out, Kind::Sign(Sign::Comma), piece.position)
            } else {
                put_piece(out, piece)
            }
        }
        Frame::Listing => {
            if is_or(piece) {
                put_kind(out, Kind::Sign(Sign::Comma), piece.position)
            } else {
                put_piece(out, piece)
            }
        }
        Frame::Naming => {
            if takes_names(piece) {
                put_kind(out, Kind::Sign(Sign::CloseParenthesis), piece.position)
            } else {
                put_piece(out, piece)
            }
        }
        Frame::Closed => put_piece(out, piece),
    }
}

#[inline(always)]
#[tactic(auto, using(derive_tokens::proofs::Positions::position_derived))]
fn put_list_end<'a>(
    out: &mut Vec<Piece<'a>>,
    frame: Frame,
    piece: Piece<'a>,
) -> Result<(), AllocError>
    ensures { OnOk result (derived_all out.new.items
        ≡ derived_all out.old.items ++ spec.list_end frame (derived piece.entry)) }
{
    if closes_list(frame, piece) {
        put_kind(out, Kind::Sign(Sign::CloseParenthesis), piece.position)
    } else {
        Ok(())
    }
}

// The name of the routine of the alternatives that begin with a token, if any do.
#[inline(always)]
#[tactic(auto, using(derive_tokens::proofs::Positions::position_derived))]
fn put_begun<'a>(
    out: &mut Vec<Piece<'a>>,
    keys: &Names,
    operator: Option<Piece<'a>>,
    piece: Piece<'a>,
    rest: &[Piece<'a>],
) -> Result<(), AllocError>
    requires { length rest.now + 1 < 2 ^ 64 }
    ensures { OnOk result (derived_all out.new.items ≡ derived_all out.old.items
        ++ spec.begun_with (names_of keys.now) (token_of operator.entry) (derived piece.entry)
        (derived_all rest.now)) }
{
    let alloc = *out.allocator();
    match operator {
        None => Ok(()),
        Some(operator) => {
            let wanted = key(alloc, operator, piece, rest)?;
            put_numbered(out, b"x__or", keys.number(&wanted), piece.position)?;
            put_kind(out, Kind::Sign(Sign::OpenParenthesis), piece.position)
        }
    }
}

// The alternatives that begin with a token are among the keys.
#[inline(always)]
fn note_key(
    keys: &mut Names,
    alloc: Global,
    operator: Option<Piece<'_>>,
    piece: Piece<'_>,
    rest: &[Piece<'_>],
) -> Result<(), AllocError>
    requires { length rest.now + 1 < 2 ^ 64 }
    ensures { OnOk result (names_of keys.new ≡ spec.with_key (names_of keys.old)
        (token_of operator.entry) (derived piece.entry ∷ derived_all rest.now)) }
{
    match operator {
        None => Ok(()),
        Some(operator) => {
            let wanted = key(alloc, operator, piece, rest)?;
            keys.add(wanted)?;
            Ok(())
        }
    }
}

impl Choosing {
    fn new(alloc: Global) -> Choosing
        ensures value { choosing_of result ≡ spec.unchosen }
        ensures none { opened_within result.scope ≡ 0 }
    {
        Choosing {
            scope: Scope::Between,
            begins: false,
            frame: Frame::Closed,
            outer: Vec::new(alloc),
            passed: 0,
            looked: 0,
        }
    }

    // Whether a sum that may have alternatives begins with a token.
    #[inline(always)]
    fn is_begun(&self, piece: Piece<'_>, rest: &[Piece<'_>]) -> bool
        ensures { result ≡ spec.is_begun (choosing_of self.now) (derived piece.entry)
            (derived_all rest.now) }
    {
        is_in_body(self.scope)
            && (self.begins
                && (is_closed(self.frame)
                    && !(ends_sum(piece) || is_no_operand(self.scope, piece, rest))))
    }

    // The operator of the alternatives that begin with a token, if any do.
    #[inline(always)]
    fn begun_operator<'a>(&self, piece: Piece<'a>, rest: &[Piece<'a>]) -> Option<Piece<'a>>
        requires { length rest.now + 1 < 2 ^ 64 }
        ensures { token_of result ≡ spec.begun_operator (choosing_of self.now)
            (derived piece.entry) (derived_all rest.now) }
    {
        if self.is_begun(piece, rest) {
            operator_of(piece, rest)
        } else {
            None
        }
    }

    // What a token stands for.
    #[inline(always)]
    fn put_chosen<'a>(
        &self,
        out: &mut Vec<Piece<'a>>,
        keys: &Names,
        operator: Option<Piece<'a>>,
        piece: Piece<'a>,
        rest: &[Piece<'a>],
    ) -> Result<(), AllocError>
        requires { length rest.now + 1 < 2 ^ 64 }
        ensures { OnOk result (derived_all out.new.items ≡ derived_all out.old.items
            ++ spec.chosen_as (names_of keys.now) (choosing_of self.now) (token_of operator.entry)
            (derived piece.entry) (derived_all rest.now)) }
    {
        if self.passed > 0 {
            return Ok(());
        }
        put_list_end(out, self.frame, piece)?;
        put_begun(out, keys, operator, piece, rest)?;
        put_alone(out, frame_now(self.frame, operator, piece), piece)
    }

    // The alternatives of the brackets that are open after a token.
    #[inline(always)]
    fn move_frame(&mut self, current: Frame, piece: Piece<'_>) -> Result<(), AllocError>
        ensures frame { OnOk result (self.new.frame
            ≡ spec.frame_after current (reverse self.old.outer.items) (derived piece.entry)) }
        ensures outer { OnOk result (reverse self.new.outer.items
            ≡ spec.outer_after current (reverse self.old.outer.items) (derived piece.entry)) }
        ensures scope { self.new.scope ≡ self.old.scope }
        ensures begins { self.new.begins ≡ self.old.begins }
        ensures passed { self.new.passed ≡ self.old.passed }
    {
        if is_sign(piece, Sign::OpenParenthesis) {
            self.outer.push(current)?;
            self.frame = Frame::Closed;
            Ok(())
        } else if is_sign(piece, Sign::CloseParenthesis) {
            self.frame = self.outer.pop().unwrap_or(Frame::Closed);
            Ok(())
        } else {
            self.frame = frame_moved(current, piece);
            Ok(())
        }
    }

    // How many tokens are to be passed after a token.
    #[inline(always)]
    fn passed_after(
        &self,
        alloc: Global,
        current: Frame,
        piece: Piece<'_>,
        rest: &[Piece<'_>],
    ) -> Result<usize, AllocError>
        requires { length rest.now + 1 < 2 ^ 64 }
        ensures { IfOk result (λ passed. passed ≡ spec.passed_after self.now.passed current
            (derived piece.entry) (derived_all rest.now)) }
    {
        if self.passed > 0 {
            Ok(self.passed - 1)
        } else {
            names_passed(alloc, current, piece, rest)
        }
    }

    #[inline(always)]
    fn step(
        &mut self,
        alloc: Global,
        operator: Option<Piece<'_>>,
        piece: Piece<'_>,
        rest: &[Piece<'_>],
    ) -> Result<(), AllocError>
        requires few { opened_within self.old.scope + 1 < 2 ^ 64 }
        requires room { length rest.now + 1 < 2 ^ 64 }
        ensures value { OnOk result (choosing_of self.new
            ≡ spec.choosing_after (choosing_of self.old) (token_of operator.entry)
            (derived piece.entry) (derived_all rest.now)) }
        ensures grows { OnOk result (opened_within self.new.scope
            ≤ opened_within self.old.scope + 1) }
    {
        let current = frame_now(self.frame, operator, piece);
        self.looked = self.looked.saturating_sub(1);
        self.passed = self.passed_after(alloc, current, piece, rest)?;
        self.move_frame(current, piece)?;
        self.begins = precedes_sum(piece)
            || (is_sign(piece, Sign::CloseParenthesis) && self.begins);
        self.scope = scope_after(self.scope, piece);
        Ok(())
    }

    // The tokens in front that stay as they are, where they were not looked through before.
    #[inline(always)]
    fn run_ahead(&self, pieces: &[Piece<'_>]) -> Run
        requires { length pieces.now < 2 ^ 64 }
        ensures state { 0 < result.length → quiet.is_plain (choosing_of self.now) ≡ true }
        ensures value { 0 < result.length → run_of result
            ≡ quiet.quiet_run false (quiet.area_of self.now.scope) (derived_all pieces.now) }
        ensures within { result.length ≤ length pieces.now }
    {
        let area = area_of(self.scope);
        if is_closed(self.frame)
            && (self.passed == 0 && (self.outer.is_empty() && self.looked == 0))
        {
            quiet_run(false, area, pieces)
        } else {
            Run {
                length: 0,
                area,
                looked: self.looked,
            }
        }
    }

    // The first token, or those that stay as they are: their keys, and what comes after them.
    #[inline(always)]
    fn note_next<'a>(
        &mut self,
        keys: &mut Names,
        alloc: Global,
        pieces: &[Piece<'a>],
    ) -> Result<usize, AllocError>
        requires some { 0 < length pieces.now }
        requires few { opened_within self.old.scope + 1 < 2 ^ 64 }
        ensures value { IfOk result (λ count. spec.keys_from (names_of keys.new)
            (choosing_of self.new) (derived_all (drop count pieces.now)) ≡ spec.keys_from
            (names_of keys.old) (choosing_of self.old) (derived_all pieces.now)) }
        ensures more { IfOk result (λ count. 0 < count) }
        ensures within { IfOk result (λ count. count ≤ length pieces.now) }
        ensures grows { IfOk result (λ count. opened_within self.new.scope
            ≤ opened_within self.old.scope + count) }
    {
        let run = self.run_ahead(pieces);
        let count = run.length;
        self.looked = run.looked;
        if count > 0 {
            self.begins = true;
            self.scope = scope_at(run.area);
            return Ok(count);
        }
        let (first, rest) = (pieces[0], after(pieces, 1));
        let operator = self.begun_operator(first, rest);
        note_key(keys, alloc, operator, first, rest)?;
        self.step(alloc, operator, first, rest)?;
        Ok(1)
    }

    // The first token, or those that stay as they are: what they stand for, and what comes after
    // them.
    #[inline(always)]
    fn put_next<'a>(
        &mut self,
        out: &mut Vec<Piece<'a>>,
        keys: &Names,
        pieces: &[Piece<'a>],
    ) -> Result<usize, AllocError>
        requires some { 0 < length pieces.now }
        requires few { opened_within self.old.scope + 1 < 2 ^ 64 }
        ensures value { IfOk result (λ count. derived_all out.new.items
            ++ spec.chosen_from (names_of keys.now) (choosing_of self.new)
            (derived_all (drop count pieces.now)) ≡ derived_all out.old.items ++ spec.chosen_from
            (names_of keys.now) (choosing_of self.old) (derived_all pieces.now)) }
        ensures more { IfOk result (λ count. 0 < count) }
        ensures within { IfOk result (λ count. count ≤ length pieces.now) }
        ensures grows { IfOk result (λ count. opened_within self.new.scope
            ≤ opened_within self.old.scope + count) }
    {
        let run = self.run_ahead(pieces);
        let count = run.length;
        self.looked = run.looked;
        if count > 0 {
            self.begins = true;
            self.scope = scope_at(run.area);
            put_first(out, pieces, count)?;
            return Ok(count);
        }
        let (first, rest) = (pieces[0], after(pieces, 1));
        let operator = self.begun_operator(first, rest);
        self.put_chosen(out, keys, operator, first, rest)?;
        self.step(*out.allocator(), operator, first, rest)?;
        Ok(1)
    }
}

/// The lists of alternatives of a file, each once.
///
/// # Errors
///
/// `AllocError` where memory is refused.
pub fn keys_of(alloc: Global, pieces: &[Piece<'_>]) -> Result<Names, AllocError>
    ensures { IfOk result (λ keys. names_of keys ≡ spec.keys_of (derived_all pieces.now)) }
{
    let mut keys = Names::new(alloc);
    let mut choosing = Choosing::new(alloc);
    let mut at = 0;
    while at < pieces.len() {
        at += choosing.note_next(&mut keys, alloc, after(pieces, at))?;
    }
    Ok(keys)
}

/// The tokens of a file that has these lists of alternatives, with calls for them.
///
/// # Errors
///
/// `AllocError` where memory is refused.
pub fn chosen<'a>(
    alloc: Global,
    keys: &Names,
    pieces: &[Piece<'a>],
) -> Result<Vec<Piece<'a>>, AllocError>
    requires { names_of keys.now ≡ spec.keys_of (derived_all pieces.now) }
    ensures { IfOk result (λ out. derived_all out.items ≡ spec.chosen (derived_all pieces.now)) }
{
    let mut out = with_room(alloc, pieces)?;
    let mut choosing = Choosing::new(alloc);
    let mut at = 0;
    while at < pieces.len() {
        at += choosing.put_next(&mut out, keys, after(pieces, at))?;
    }
    Ok(out)
}
