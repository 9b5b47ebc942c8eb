//! `spaces`, and `objectloop` with `from`.

ghost use Rattle.std.specs.Prelude.{◌≡◌, ◌≤◌, ◌<◌, ◌+◌, ◌^◌, ◌++◌, drop, false, length, true, None, IfOk, OnOk};
ghost use Rattle.derive_tokens.specs.Pieces.{derived, derived_all};
ghost use Rattle.derive_values.specs.Places as places;
ghost use Rattle.derive_values.specs.Places.{opened_within};
ghost use Rattle.derive_values.specs.Views.{reading_of};
ghost use Rattle.derive_statements.specs.FileNames.{names_of};
ghost use Rattle.derive_statements.specs.declared.quiet.Seek.TheVariants as Seek;
ghost use Rattle.derive_statements.specs.Loops as spec;
ghost use Rattle.derive_statements.specs.Quiet as quiet;
ghost use Rattle.derive_statements.specs.Views.{file_names, token_of};

use crate::file_names::FileNames;
use crate::lists::{at_statement, is_in_header, made, with_room};
use crate::quiet::{Seek, quiet_ahead};
use derive_tokens::{Piece, after, is_called, is_sign, is_word, put_kind, put_piece, put_pieces};
use derive_values::{Reading, Scope, is_operand_next};
use std::alloc::{AllocError, Global};
use syntax_lexer::{Kind, Position, Sign, Word};

#[inline(always)]
fn begins_spaces(names: &FileNames, reading: &Reading, piece: Piece<'_>, rest: &[Piece<'_>]) -> bool
    ensures { result ≡ spec.begins_spaces (file_names names.now) (reading_of reading.now)
        (derived piece.entry) (derived_all rest.now) }
{
    at_statement(reading.scope)
        && (is_called(piece, b"spaces")
            && (is_operand_next(rest) && !names.defines(&reading.own, b"spaces")))
}

// The variable of a bracket, a name and `from`.
#[inline(never)]
fn variable_in<'a>(rest: &[Piece<'a>]) -> Option<Piece<'a>>
    ensures { token_of result ≡ spec.variable_in (derived_all rest.now) }
{
    match rest {
        [bracket, variable, from, ..] => {
            if is_sign(*bracket, Sign::OpenParenthesis) && is_called(*from, b"from") {
                Some(*variable)
            } else {
                None
            }
        }
        _ => None,
    }
}

// The variable of an `objectloop` with `from` that begins with a token.
#[inline(always)]
fn variable_of<'a>(scope: Scope, piece: Piece<'a>, rest: &[Piece<'a>]) -> Option<Piece<'a>>
    ensures { token_of result
        ≡ spec.variable_of scope (derived piece.entry) (derived_all rest.now) }
{
    if at_statement(scope) && is_word(piece, Word::Objectloop) {
        variable_in(rest)
    } else {
        None
    }
}

// Whether there is a variable.
#[inline(always)]
fn is_found(variable: Option<Piece<'_>>) -> bool
    ensures { result ≡ spec.is_found (token_of variable.entry) }
{
    variable.is_some()
}

// The rest of the header.
fn put_onward<'a>(
    out: &mut Vec<Piece<'a>>,
    variable: Piece<'a>,
    position: Position,
) -> Result<(), AllocError>
    ensures { OnOk result (derived_all out.new.items
        ≡ derived_all out.old.items ++ spec.onward (derived variable.entry) position) }
{
    let colon = made(Kind::Sign(Sign::Colon), position);
    let header = [
        colon,
        variable,
        colon,
        variable,
        made(Kind::Sign(Sign::Assign), position),
        made(Kind::Reserved(Word::Sibling), position),
        made(Kind::Sign(Sign::OpenParenthesis), position),
        variable,
        made(Kind::Sign(Sign::CloseParenthesis), position),
    ];
    put_pieces(out, &header)
}

// A token of the header of a loop with this variable.
#[inline(never)]
#[tactic(auto, using(derive_tokens::proofs::Positions::position_derived))]
fn put_header<'a>(
    out: &mut Vec<Piece<'a>>,
    variable: Piece<'a>,
    piece: Piece<'a>,
) -> Result<(), AllocError>
    ensures { OnOk result (derived_all out.new.items ≡ derived_all out.old.items
        ++ spec.header_as (derived variable.entry) (derived piece.entry)) }
{
    if is_called(piece, b"from") {
        put_kind(out, Kind::Sign(Sign::Assign), piece.position)
    } else if is_sign(piece, Sign::CloseParenthesis) {
        put_onward(out, variable, piece.position)?;
        put_piece(out, piece)
    } else {
        put_piece(out, piece)
    }
}

#[inline(always)]
fn put_in_loop<'a>(
    out: &mut Vec<Piece<'a>>,
    scope: Scope,
    variable: Option<Piece<'a>>,
    piece: Piece<'a>,
) -> Result<(), AllocError>
    ensures { OnOk result (derived_all out.new.items ≡ derived_all out.old.items
        ++ spec.in_loop scope (token_of variable.entry) (derived piece.entry)) }
{
    match variable {
        None => put_piece(out, piece),
        Some(variable) => {
            if is_in_header(scope) {
                put_header(out, variable, piece)
            } else {
                put_piece(out, piece)
            }
        }
    }
}

// The beginning of a call for `spaces`.
#[inline(never)]
fn put_spaces<'a>(out: &mut Vec<Piece<'a>>, position: Position) -> Result<(), AllocError>
    ensures { OnOk result (derived_all out.new.items
        ≡ derived_all out.old.items ++ spec.spaces_begun position) }
{
    put_kind(out, Kind::Name(b"x__spaces"), position)?;
    put_kind(out, Kind::Sign(Sign::OpenParenthesis), position)
}

// What is read of statements: whether the statement is `spaces`, the variable of an `objectloop`
// with `from`, and whether the last token was a semicolon.
#[derive(Clone, Copy)]
struct Looping<'a> {
    spaced: bool,
    variable: Option<Piece<'a>>,
    ended: bool,
}

// What a token stands for.
#[tactic(auto, using(derive_tokens::proofs::Positions::position_derived))]
fn put_looped<'a>(
    out: &mut Vec<Piece<'a>>,
    names: &FileNames,
    reading: &Reading,
    looping: Looping<'a>,
    piece: Piece<'a>,
    rest: &[Piece<'a>],
) -> Result<(), AllocError>
    ensures { OnOk result (derived_all out.new.items ≡ derived_all out.old.items
        ++ spec.looped_as (file_names names.now) (reading_of reading.now) looping.entry.spaced
        (token_of looping.entry.variable) (derived piece.entry) (derived_all rest.now)) }
{
    if begins_spaces(names, reading, piece, rest) {
        put_spaces(out, piece.position)
    } else if looping.spaced && is_sign(piece, Sign::Semicolon) {
        put_kind(out, Kind::Sign(Sign::CloseParenthesis), piece.position)?;
        put_piece(out, piece)
    } else if is_found(variable_of(reading.scope, piece, rest)) {
        put_kind(out, Kind::Reserved(Word::For), piece.position)
    } else {
        put_in_loop(out, reading.scope, looping.variable, piece)
    }
}

// A token of `spaces` or of such a loop.
#[inline(never)]
fn take_loop<'a>(
    out: &mut Vec<Piece<'a>>,
    names: &FileNames,
    reading: &Reading,
    looping: &mut Looping<'a>,
    piece: Piece<'a>,
    rest: &[Piece<'a>],
) -> Result<(), AllocError>
    ensures put { OnOk result (derived_all out.new.items ≡ derived_all out.old.items
        ++ spec.looped_as (file_names names.now) (reading_of reading.now) looping.old.spaced
        (token_of looping.old.variable) (derived piece.entry) (derived_all rest.now)) }
    ensures spaced { OnOk result (looping.new.spaced
        ≡ spec.spaced_after (file_names names.now) (reading_of reading.now) looping.old.spaced
        (derived piece.entry) (derived_all rest.now)) }
    ensures variable { OnOk result (token_of looping.new.variable
        ≡ spec.variable_after reading.now.scope (token_of looping.old.variable)
        (derived piece.entry) (derived_all rest.now)) }
{
    put_looped(out, names, reading, *looping, piece, rest)?;
    looping.spaced = begins_spaces(names, reading, piece, rest)
        || (looping.spaced && !is_sign(piece, Sign::Semicolon));
    if at_statement(reading.scope) {
        looping.variable = variable_of(reading.scope, piece, rest);
    }
    Ok(())
}

// How many tokens in front stay as they are.
#[inline(always)]
fn loop_ahead(looping: Looping<'_>, scope: Scope, pieces: &[Piece<'_>]) -> usize
    ensures value { 0 < result → result ≡ quiet.quiet_run Seek.Loop scope (derived_all pieces.now) }
    ensures rest { 0 < result → places.is_at_rest scope ≡ true }
    ensures spaced { 0 < result → looping.entry.spaced ≡ false }
    ensures variable { 0 < result → token_of looping.entry.variable ≡ None }
    ensures within { result ≤ length pieces.now }
{
    match looping.variable {
        Some(_) => 0,
        None => {
            if looping.spaced {
                0
            } else {
                quiet_ahead(Seek::Loop, looping.ended, scope, pieces)
            }
        }
    }
}

// The tokens in front that stay as they are, or else the first token; what is read after them.
#[inline(always)]
fn put_next<'a>(
    out: &mut Vec<Piece<'a>>,
    names: &FileNames,
    reading: &mut Reading,
    looping: &mut Looping<'a>,
    pieces: &[Piece<'a>],
) -> Result<usize, AllocError>
    requires some { 0 < length pieces.now }
    requires few { opened_within reading.old.scope + 1 < 2 ^ 64 }
    ensures value { IfOk result (λ count. derived_all out.new.items
        ++ spec.looped_from (file_names names.now) (reading_of reading.new) looping.new.spaced
        (token_of looping.new.variable) (derived_all (drop count pieces.now))
        ≡ derived_all out.old.items
        ++ spec.looped_from (file_names names.now) (reading_of reading.old) looping.old.spaced
        (token_of looping.old.variable) (derived_all pieces.now)) }
    ensures more { IfOk result (λ count. 0 < count) }
    ensures within { IfOk result (λ count. count ≤ length pieces.now) }
    ensures grows { IfOk result (λ count. opened_within reading.new.scope
        ≤ opened_within reading.old.scope + count) }
{
    let count = loop_ahead(*looping, reading.scope, pieces);
    if count > 0 {
        looping.ended = false;
        put_pieces(out, pieces.split_at(count).0)?;
        return Ok(count);
    }
    match pieces {
        [] => Ok(0),
        [first, rest @ ..] => {
            take_loop(out, names, reading, looping, *first, rest)?;
            looping.ended = is_sign(*first, Sign::Semicolon);
            reading.step(*out.allocator(), *first)?;
            Ok(1)
        }
    }
}

/// The tokens of a file that defines these names, with calls for `spaces` and a `for` for each
/// `objectloop` with `from`.
///
/// # Errors
///
/// `AllocError` where memory is refused.
pub fn looped<'a>(
    alloc: Global,
    names: &FileNames,
    pieces: &[Piece<'a>],
) -> Result<Vec<Piece<'a>>, AllocError>
    requires { file_names names.now ≡ names_of (derived_all pieces.now) }
    ensures { IfOk result (λ out. derived_all out.items ≡ spec.looped (derived_all pieces.now)) }
{
    let mut out = with_room(alloc, pieces)?;
    let mut reading = Reading::new(alloc);
    let mut looping = Looping {
        spaced: false,
        variable: None,
        ended: true,
    };
    let mut at = 0;
    while at < pieces.len() {
        at += put_next(
            &mut out,
            names,
            &mut reading,
            &mut looping,
            after(pieces, at),
        )?;
    }
    Ok(out)
}
