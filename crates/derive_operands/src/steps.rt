//! Steps of what is no variable.

ghost use Rattle.std.specs.Prelude.{◌≡◌, ◌≤◌, ◌<◌, ◌+◌, ◌-◌, ◌^◌, ◌++◌, drop, length, take, true, IfOk, OnOk};
ghost use Rattle.syntax_lexer.specs.declared.token.Position.{Position};
ghost use Rattle.syntax_lexer.specs.Token.{head, lexeme_of, tail};
ghost use Rattle.derive_tokens.specs.Pieces.{derived, derived_all};
ghost use Rattle.derive_values.specs.Places.{opened_within};
ghost use Rattle.derive_statements.specs.FileNames.{names_of};
ghost use Rattle.derive_statements.specs.Views.{file_names};
ghost use Rattle.derive_operands.specs.Steps as spec;
ghost use Rattle.derive_operands.specs.StepViews.{found_held, stepping_of};
ghost use Rattle.derive_operands.specs.Quiet as quiet;
ghost use Rattle.derive_operands.specs.QuietViews.{run_of};

use crate::quiet::{Area, Run, quiet_run, with_room};
use crate::targets::{Found, found_in};
use derive_expressions::{Calling, Role, is_in_body};
use derive_statements::{FileNames, at_statement, is_before_header, is_in_header};
use derive_tokens::{
    Piece, after, front, is_sign, is_word, put_first, put_kind, put_piece, put_pieces,
};
use derive_values::{Scope, is_at_rest};
use std::alloc::{AllocError, Global};
use syntax_lexer::{Kind, Sign, Word};

// The sign of a step up or down.
fn up(step: Piece<'_>) -> Sign
    ensures { (p : Position) → lexeme_of (Kind.Sign result) p ≡ spec.up (derived step.entry) p }
{
    if is_sign(step, Sign::Increment) {
        Sign::Plus
    } else {
        Sign::Minus
    }
}

// The sign that takes a step back.
fn down(step: Piece<'_>) -> Sign
    ensures { (p : Position) → lexeme_of (Kind.Sign result) p ≡ spec.down (derived step.entry) p }
{
    if is_sign(step, Sign::Increment) {
        Sign::Minus
    } else {
        Sign::Plus
    }
}

// All but the last.
#[tactic(auto, using(crate::proofs::Rests::derived_front))]
fn put_front<'a>(out: &mut Vec<Piece<'a>>, pieces: &[Piece<'a>]) -> Result<(), AllocError>
    ensures { OnOk result (derived_all out.new.items ≡ derived_all out.old.items
        ++ take (length (derived_all pieces.now) - 1) (derived_all pieces.now)) }
{
    put_pieces(out, front(pieces, pieces.len().saturating_sub(1)))
}

// What is stepped, without its outer brackets.
fn put_bare<'a>(out: &mut Vec<Piece<'a>>, target: &[Piece<'a>]) -> Result<(), AllocError>
    ensures { OnOk result (derived_all out.new.items
        ≡ derived_all out.old.items ++ spec.bare (derived_all target.now)) }
{
    match target {
        [] => Ok(()),
        [first, rest @ ..] => {
            if is_sign(*first, Sign::OpenParenthesis) {
                put_front(out, rest)
            } else {
                put_pieces(out, target)
            }
        }
    }
}

// `o.p = o.p + 1`.
#[tactic(auto, using(derive_tokens::proofs::Positions::position_derived))]
fn put_assigned<'a>(
    out: &mut Vec<Piece<'a>>,
    target: &[Piece<'a>],
    step: Piece<'a>,
) -> Result<(), AllocError>
    ensures { OnOk result (derived_all out.new.items ≡ derived_all out.old.items
        ++ spec.assigned (derived_all target.now) (derived step.entry)) }
{
    put_bare(out, target)?;
    put_kind(out, Kind::Sign(Sign::Assign), step.position)?;
    put_pieces(out, target)?;
    put_kind(out, Kind::Sign(up(step)), step.position)?;
    put_kind(out, Kind::Number(1), step.position)
}

// The assignment as a value, in brackets.
#[tactic(auto, using(derive_tokens::proofs::Positions::position_derived))]
fn put_bracketed<'a>(
    out: &mut Vec<Piece<'a>>,
    target: &[Piece<'a>],
    step: Piece<'a>,
) -> Result<(), AllocError>
    ensures { OnOk result (derived_all out.new.items ≡ derived_all out.old.items
        ++ spec.bracketed step.entry.position
        (spec.assigned (derived_all target.now) (derived step.entry))) }
{
    put_kind(out, Kind::Sign(Sign::OpenParenthesis), step.position)?;
    put_assigned(out, target, step)?;
    put_kind(out, Kind::Sign(Sign::CloseParenthesis), step.position)
}

// And the step taken back: its value is what was there before.
#[tactic(auto, using(derive_tokens::proofs::Positions::position_derived))]
fn put_taken_back<'a>(
    out: &mut Vec<Piece<'a>>,
    target: &[Piece<'a>],
    step: Piece<'a>,
) -> Result<(), AllocError>
    ensures { OnOk result (derived_all out.new.items ≡ derived_all out.old.items
        ++ spec.taken_back (derived_all target.now) (derived step.entry)) }
{
    put_bracketed(out, target, step)?;
    put_kind(out, Kind::Sign(down(step)), step.position)?;
    put_kind(out, Kind::Number(1), step.position)
}

// The same in brackets.
#[tactic(auto, using(derive_tokens::proofs::Positions::position_derived))]
fn put_undone<'a>(
    out: &mut Vec<Piece<'a>>,
    target: &[Piece<'a>],
    step: Piece<'a>,
) -> Result<(), AllocError>
    ensures { OnOk result (derived_all out.new.items ≡ derived_all out.old.items
        ++ spec.undone (derived_all target.now) (derived step.entry)) }
{
    put_kind(out, Kind::Sign(Sign::OpenParenthesis), step.position)?;
    put_taken_back(out, target, step)?;
    put_kind(out, Kind::Sign(Sign::CloseParenthesis), step.position)
}

// A step whose sign is after what is stepped.
#[inline(never)]
fn put_postfix<'a>(
    out: &mut Vec<Piece<'a>>,
    action: bool,
    target: &[Piece<'a>],
    step: Piece<'a>,
) -> Result<(), AllocError>
    ensures { OnOk result (derived_all out.new.items ≡ derived_all out.old.items
        ++ spec.postfix_as action (derived_all target.now) (derived step.entry)) }
{
    if action {
        put_assigned(out, target, step)
    } else {
        put_undone(out, target, step)
    }
}

// A step whose sign is before what is stepped.
#[inline(never)]
#[tactic(auto, using(derive_tokens::proofs::Positions::position_derived))]
fn put_prefix<'a>(
    out: &mut Vec<Piece<'a>>,
    action: bool,
    target: &[Piece<'a>],
    step: Piece<'a>,
) -> Result<(), AllocError>
    ensures { OnOk result (derived_all out.new.items ≡ derived_all out.old.items
        ++ spec.prefix_as action (derived_all target.now) (derived step.entry)) }
{
    if action {
        put_assigned(out, target, step)
    } else {
        put_bracketed(out, target, step)
    }
}

// The first of these tokens, and the rest.
#[tactic(auto, using(crate::proofs::Rests::derived_take, crate::proofs::Rests::derived_first, crate::proofs::Rests::derived_one, crate::proofs::Rests::derived_others))]
fn put_found<'a>(
    out: &mut Vec<Piece<'a>>,
    action: bool,
    found: Found<'a>,
    pieces: &[Piece<'a>],
) -> Result<(), AllocError>
    requires { 0 < length pieces.now }
    ensures { OnOk result (derived_all out.new.items ≡ derived_all out.old.items
        ++ spec.found_as action (found_held found.entry) (derived_all pieces.now)) }
{
    match found {
        Found::Nothing => put_piece(out, pieces[0]),
        Found::Postfix(count, step) => put_postfix(out, action, front(pieces, count), step),
        Found::Prefix(count) => {
            put_prefix(out, action, front(after(pieces, 1), count), pieces[0])
        }
    }
}

#[inline(always)]
fn found_length(found: Found<'_>) -> usize
    ensures { result ≡ spec.found_length (found_held found.entry) }
{
    match found {
        Found::Nothing => 0,
        Found::Postfix(count, _) | Found::Prefix(count) => count,
    }
}

#[inline(always)]
fn is_operand(role: Role) -> bool
    ensures { result ≡ spec.is_operand role }
{
    matches!(role, Role::Operand)
}

// A colon in the brackets of a header.
#[inline(always)]
fn is_colon(scope: Scope, piece: Piece<'_>) -> bool
    ensures { result ≡ spec.is_colon scope (derived piece.entry) }
{
    is_in_header(scope) && is_sign(piece, Sign::Colon)
}

#[inline(always)]
fn is_loop_after(scope: Scope, is_loop: bool, piece: Piece<'_>) -> bool
    ensures { result ≡ spec.is_loop_after scope is_loop (derived piece.entry) }
{
    if at_statement(scope) {
        is_word(piece, Word::For)
    } else {
        is_loop
    }
}

#[inline(always)]
fn is_middle_after(scope: Scope, is_middle: bool, piece: Piece<'_>) -> bool
    ensures { result ≡ spec.is_middle_after scope is_middle (derived piece.entry) }
{
    if at_statement(scope) {
        false
    } else if is_colon(scope, piece) {
        !is_middle
    } else {
        is_middle
    }
}

#[inline(always)]
fn is_fresh_after(scope: Scope, piece: Piece<'_>) -> bool
    ensures { result ≡ spec.is_fresh_after scope (derived piece.entry) }
{
    is_colon(scope, piece) || (is_before_header(scope) && is_sign(piece, Sign::OpenParenthesis))
}

/// What is read: whether the statement is a `for`, whether its second part is read, and whether a
/// part of it begins.
#[derive(Drop)]
pub struct Stepping {
    pub calling: Calling,
    pub is_loop: bool,
    pub is_middle: bool,
    pub is_fresh: bool,
    /// How many tokens are to be passed.
    pub passed: usize,
    /// How many tokens were looked through ahead.
    pub looked: usize,
}

impl Stepping {
    fn new(alloc: Global) -> Stepping
        ensures value { stepping_of result ≡ spec.unstepped }
        ensures none { opened_within result.calling.reading.scope ≡ 0 }
    {
        Stepping {
            calling: Calling::new(alloc),
            is_loop: false,
            is_middle: false,
            is_fresh: false,
            passed: 0,
            looked: 0,
        }
    }

    // Whether an action begins with the token that comes next.
    #[inline(always)]
    fn is_action(&self) -> bool
        ensures { result ≡ spec.is_action (stepping_of self.now) }
    {
        at_statement(self.calling.reading.scope)
            || (self.is_loop && (self.is_fresh && !self.is_middle))
    }

    // What is stepped at the front of the tokens that come next.
    #[inline(always)]
    fn found_now<'a>(&self, pieces: &[Piece<'a>]) -> Found<'a>
        requires { length pieces.now < 2 ^ 64 }
        ensures { found_held result
            ≡ spec.found_now (stepping_of self.now) (derived_all pieces.now) }
    {
        if is_in_body(self.calling.reading.scope) && is_operand(self.calling.role_now()) {
            found_in(pieces)
        } else {
            Found::Nothing
        }
    }

    // The first of these tokens.
    #[inline(always)]
    fn put_stepped<'a>(
        &self,
        out: &mut Vec<Piece<'a>>,
        pieces: &[Piece<'a>],
    ) -> Result<(), AllocError>
        requires some { 0 < length pieces.now }
        requires room { length pieces.now < 2 ^ 64 }
        ensures { OnOk result (derived_all out.new.items ≡ derived_all out.old.items
            ++ spec.stepped_as (stepping_of self.now) (derived_all pieces.now)) }
    {
        if self.passed > 0 {
            return Ok(());
        }
        put_found(out, self.is_action(), self.found_now(pieces), pieces)
    }

    // How many tokens are to be passed after the first of these.
    #[inline(always)]
    fn passed_after(&self, pieces: &[Piece<'_>]) -> usize
        requires { length pieces.now < 2 ^ 64 }
        ensures { result ≡ spec.passed_after (stepping_of self.now) (derived_all pieces.now) }
    {
        if self.passed > 0 {
            self.passed - 1
        } else {
            found_length(self.found_now(pieces))
        }
    }

    // The first of these tokens more.
    #[inline(always)]
    #[tactic(auto, using(crate::proofs::Rests::derived_first, crate::proofs::Rests::derived_others))]
    fn step(
        &mut self,
        alloc: Global,
        names: &FileNames,
        pieces: &[Piece<'_>],
    ) -> Result<(), AllocError>
        requires some { 0 < length pieces.now }
        requires room { length pieces.now < 2 ^ 64 }
        requires few { opened_within self.old.calling.reading.scope + 1 < 2 ^ 64 }
        ensures value { OnOk result (stepping_of self.new
            ≡ spec.stepping_after (file_names names.now) (stepping_of self.old)
            (head (derived_all pieces.now)) (tail (derived_all pieces.now))) }
        ensures grows { OnOk result (opened_within self.new.calling.reading.scope
            ≤ opened_within self.old.calling.reading.scope + 1) }
    {
        let scope = self.calling.reading.scope;
        let first = pieces[0];
        self.passed = self.passed_after(pieces);
        self.looked = self.looked.saturating_sub(1);
        self.is_loop = is_loop_after(scope, self.is_loop, first);
        self.is_middle = is_middle_after(scope, self.is_middle, first);
        self.is_fresh = is_fresh_after(scope, first);
        self.calling.step(alloc, names, first, after(pieces, 1))?;
        Ok(())
    }

    // The tokens in front that stay as they are, where they were not looked through before.
    #[inline(always)]
    fn run_ahead(&self, pieces: &[Piece<'_>]) -> Run
        requires { length pieces.now < 2 ^ 64 }
        ensures state { 0 < result.length → quiet.is_unstepped (stepping_of self.now) ≡ true }
        ensures value { 0 < result.length
            → run_of result ≡ quiet.quiet_run true Area.Body (derived_all pieces.now) }
        ensures within { result.length ≤ length pieces.now }
    {
        if is_at_rest(self.calling.reading.scope) && (self.passed == 0 && self.looked == 0) {
            quiet_run(true, Area::Body, pieces)
        } else {
            Run {
                length: 0,
                area: Area::Body,
                looked: self.looked,
            }
        }
    }

    // The first token, or those that stay as they are: what they stand for, and what comes after
    // them.
    #[inline(always)]
    fn put_next<'a>(
        &mut self,
        out: &mut Vec<Piece<'a>>,
        names: &FileNames,
        pieces: &[Piece<'a>],
    ) -> Result<usize, AllocError>
        requires some { 0 < length pieces.now }
        requires few { opened_within self.old.calling.reading.scope + 1 < 2 ^ 64 }
        ensures value { IfOk result (λ count. derived_all out.new.items
            ++ spec.stepped_from (file_names names.now) (stepping_of self.new)
            (derived_all (drop count pieces.now)) ≡ derived_all out.old.items ++ spec.stepped_from
            (file_names names.now) (stepping_of self.old) (derived_all pieces.now)) }
        ensures more { IfOk result (λ count. 0 < count) }
        ensures within { IfOk result (λ count. count ≤ length pieces.now) }
        ensures grows { IfOk result (λ count. opened_within self.new.calling.reading.scope
            ≤ opened_within self.old.calling.reading.scope + count) }
    {
        let run = self.run_ahead(pieces);
        let count = run.length;
        self.looked = run.looked;
        if count > 0 {
            put_first(out, pieces, count)?;
            return Ok(count);
        }
        self.put_stepped(out, pieces)?;
        self.step(*out.allocator(), names, pieces)?;
        Ok(1)
    }
}

/// The tokens of a file that defines these names, with assignments for steps.
///
/// # Errors
///
/// `AllocError` where memory is refused.
pub fn stepped<'a>(
    alloc: Global,
    names: &FileNames,
    pieces: &[Piece<'a>],
) -> Result<Vec<Piece<'a>>, AllocError>
    requires { file_names names.now ≡ names_of (derived_all pieces.now) }
    ensures { IfOk result (λ out. derived_all out.items ≡ spec.stepped (derived_all pieces.now)) }
{
    let mut out = with_room(alloc, pieces)?;
    let mut stepping = Stepping::new(alloc);
    let mut at = 0;
    while at < pieces.len() {
        at += stepping.put_next(&mut out, names, after(pieces, at))?;
    }
    Ok(out)
}
