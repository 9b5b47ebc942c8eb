//! Calls by value, messages, `random` and kin, `self`.

ghost use Rattle.std.specs.Prelude.{◌≡◌, ◌≤◌, ◌<◌, ◌+◌, ◌^◌, ◌++◌, ◌∷◌, ◌||◌, [], map, length, true};
ghost use Rattle.std.specs.Prelude.{if◌then◌else◌, IfOk, OnOk};
ghost use Rattle.syntax_lexer.specs.declared.token.Sign.TheVariants as s;
ghost use Rattle.syntax_lexer.specs.Token as lexemes;
ghost use Rattle.derive_tokens.specs.Pieces.{Gives, derived, derived_all};
ghost use Rattle.derive_tokens.specs.Tokens as tokens;
ghost use Rattle.derive_tokens.specs.Held.{names_of};
ghost use Rattle.derive_tokens.specs.Names as small_names;
ghost use Rattle.derive_values.specs.Views.{reading_of};
ghost use Rattle.derive_statements.specs.FileNames as file;
ghost use Rattle.derive_statements.specs.Views.{file_names, token_of};
ghost use Rattle.derive_expressions.specs.Calls as spec;
ghost use Rattle.derive_expressions.specs.Roles.{role_now};
ghost use Rattle.derive_expressions.specs.Roles as roles;
ghost use Rattle.derive_expressions.specs.Views.{PutsAll, calling_of};

use crate::heads::heads_of;
use crate::quiet::quiet_ahead;
use crate::roles::{Calling, Role, is_in_body, is_kin, is_sent, routine_of};
use derive_statements::{FileNames, deeper, ends_statement};
use derive_tokens::{
    Names, Piece, after, is_called, is_name, is_sign, put_first, put_kind, put_numbered, put_piece,
    refused, small_name, small_name_in,
};
use derive_values::{Reading, is_next};
use std::alloc::{AllocError, Global};
use syntax_lexer::{Kind, PlacedFault, Position, Sign, TOO_MANY};

/// How many arguments a call by value may have.
const MOST_OF_CALL: usize = 6;

/// How many arguments a message may have.
const MOST_OF_MESSAGE: usize = 5;

/// Among how many values `random` may choose.
const MOST_OF_RANDOM: usize = 7;

// The commas after a token of the arguments, where so many brackets are open.
#[inline(always)]
fn commas_after(commas: usize, opened: usize, piece: Piece<'_>) -> usize
    requires { commas + 1 < 2 ^ 64 }
    ensures value { result ≡ spec.commas_after commas opened (derived piece.entry) }
    ensures grows { result ≤ commas + 1 }
{
    if opened == 1 && is_sign(piece, Sign::Comma) {
        commas + 1
    } else {
        commas
    }
}

// The bracket of the arguments is closed, or the statement ends.
#[inline(always)]
fn ends_arguments(opened: usize, piece: Piece<'_>) -> bool
    ensures { result ≡ spec.ends_arguments opened (derived piece.entry) }
{
    opened == 0 || ends_statement(piece)
}

// The commas between arguments, up to the bracket that closes.
#[inline(never)]
fn commas_in(pieces: &[Piece<'_>]) -> usize
    requires { length pieces.now + 1 < 2 ^ 64 }
    ensures value { result ≡ spec.commas_from 0 1 (derived_all pieces.now) }
    ensures few { result ≤ length pieces.now }
{
    let mut commas = 0;
    let mut opened = 1;
    for piece in pieces {
        if ends_arguments(opened, *piece) {
            return commas;
        }
        commas = commas_after(commas, opened, *piece);
        opened = deeper(opened, *piece);
    }
    commas
}

// How many arguments are after an opening bracket.
fn arguments_in(pieces: &[Piece<'_>]) -> usize
    requires { length pieces.now + 1 < 2 ^ 64 }
    ensures { result ≡ spec.arguments_in (derived_all pieces.now) }
{
    if is_next(pieces, Sign::CloseParenthesis) {
        0
    } else {
        commas_in(pieces) + 1
    }
}

#[inline(always)]
fn note_message(
    messages: &mut Names,
    alloc: Global,
    role: Role,
    piece: Piece<'_>,
    rest: &[Piece<'_>],
) -> Result<(), AllocError>
    ensures { OnOk result (names_of messages.new ≡ spec.messages_after (names_of messages.old) role
        (derived piece.entry) (derived_all rest.now)) }
{
    match role {
        Role::Dotted => {
            if is_sent(piece, rest) {
                let name = small_name(alloc, piece)?;
                messages.add(name)?;
                Ok(())
            } else {
                Ok(())
            }
        }
        _ => Ok(()),
    }
}

/// The properties to which messages are sent in a file that defines these names, in small letters.
///
/// # Errors
///
/// `AllocError` where memory is refused.
pub fn messages_of(
    alloc: Global,
    names: &FileNames,
    pieces: &[Piece<'_>],
) -> Result<Names, AllocError>
    ensures { IfOk result (λ messages. names_of messages
        ≡ spec.messages_of (file_names names.now) (derived_all pieces.now)) }
{
    let mut messages = Names::new(alloc);
    let mut calling = Calling::new(alloc);
    let mut at = 0;
    while at < pieces.len() {
        let count = quiet_ahead(false, &calling, after(pieces, at));
        if count > 0 {
            at += count;
        } else {
            let rest = after(pieces, at + 1);
            note_message(&mut messages, alloc, calling.role_now(), pieces[at], rest)?;
            calling.step(alloc, names, pieces[at], rest)?;
            at += 1;
        }
    }
    Ok(messages)
}

// The name of a call or message.
fn put_head_name<'a>(
    out: &mut Vec<Piece<'a>>,
    messages: &Names,
    property: Option<Piece<'a>>,
    position: Position,
) -> Result<(), AllocError>
    ensures { OnOk result (derived_all out.new.items ≡ derived_all out.old.items
        ++ lexemes.name (spec.head_name (names_of messages.now) (token_of property.entry)) position
        ∷ []) }
{
    let alloc = *out.allocator();
    match property {
        Some(piece) => {
            let name = small_name_in(alloc, piece)?;
            put_numbered(out, b"x__send", messages.number(name.bytes()), position)
        }
        None => put_kind(out, Kind::Name(b"x__call"), position),
    }
}

// The name and the bracket of a call or message.
fn put_head<'a>(
    out: &mut Vec<Piece<'a>>,
    messages: &Names,
    property: Option<Piece<'a>>,
    position: Position,
) -> Result<(), AllocError>
    ensures { OnOk result (derived_all out.new.items ≡ derived_all out.old.items
        ++ spec.head_written (names_of messages.now) position (token_of property.entry)) }
{
    put_head_name(out, messages, property, position)?;
    put_kind(out, Kind::Sign(Sign::OpenParenthesis), position)
}

// The last call first.
#[inline(never)]
#[tactic(auto, using(crate::proofs::Written::put_last))]
fn put_heads<'a>(
    out: &mut Vec<Piece<'a>>,
    messages: &Names,
    heads: &[Option<Piece<'a>>],
    position: Position,
) -> Result<(), AllocError>
    ensures { OnOk result (derived_all out.new.items ≡ derived_all out.old.items
        ++ spec.heads_written (names_of messages.now) position (map token_of heads.now)) }
{
    let mut at = heads.len();
    while at > 0 {
        at -= 1;
        put_head(out, messages, heads[at], position)?;
    }
    Ok(())
}

// The comma before the arguments of a call, if there are any and not too many.
#[inline(never)]
fn put_comma<'a>(
    out: &mut Vec<Piece<'a>>,
    most: usize,
    position: Position,
    rest: &[Piece<'a>],
) -> Result<(), PlacedFault>
    requires { length rest.now + 1 < 2 ^ 64 }
    ensures { PutsAll result (derived_all out.old.items) (derived_all out.new.items)
        (spec.comma_before most position (derived_all rest.now)) }
{
    let count = arguments_in(rest);
    if count > most {
        return Err(refused(TOO_MANY, position));
    }
    if count == 0 {
        return Ok(());
    }
    put_kind(out, Kind::Sign(Sign::Comma), position)?;
    Ok(())
}

// One of so many values at random.
#[inline(never)]
fn put_random<'a>(
    out: &mut Vec<Piece<'a>>,
    position: Position,
    count: usize,
) -> Result<(), PlacedFault>
    ensures { PutsAll result (derived_all out.old.items) (derived_all out.new.items)
        (spec.random_as position count) }
{
    if count > MOST_OF_RANDOM {
        return Err(refused(TOO_MANY, position));
    }
    if count > 1 {
        put_numbered(out, b"x__one", count, position)?;
        Ok(())
    } else {
        put_kind(out, Kind::Name(b"x__random"), position)?;
        Ok(())
    }
}

// A function before its bracket: the routine that is made for it, or one for so many values.
#[inline(never)]
fn put_function<'a>(
    out: &mut Vec<Piece<'a>>,
    name: &[u8],
    routine: &'static [u8],
    position: Position,
    rest: &[Piece<'a>],
) -> Result<(), PlacedFault>
    requires { length rest.now + 1 < 2 ^ 64 }
    ensures { PutsAll result (derived_all out.old.items) (derived_all out.new.items)
        (spec.function_as name.now routine.now position (derived_all rest.now)) }
{
    if name == b"random".as_slice() {
        put_random(out, position, arguments_in(after(rest, 1)))
    } else {
        put_kind(out, Kind::Name(routine), position)?;
        Ok(())
    }
}

// Whether a name is `self`, which the source does not define.
#[tactic(auto, using(crate::proofs::Tests::self_named, crate::proofs::Tests::not_self))]
fn is_self(names: &FileNames, reading: &Reading, piece: Piece<'_>) -> bool
    requires { small_names.is_name (derived piece) ≡ true }
    ensures { result ≡ spec.is_self (file_names names.now) (reading_of reading.now)
        (small_names.small_name (derived piece.entry)) }
{
    is_called(piece, b"self") && !names.defines(&reading.own, b"self")
}

// A name in a statement.
#[tactic(auto, using(derive_tokens::proofs::Positions::position_derived))]
fn put_self<'a>(
    out: &mut Vec<Piece<'a>>,
    names: &FileNames,
    reading: &Reading,
    piece: Piece<'a>,
) -> Result<(), AllocError>
    requires { small_names.is_name (derived piece) ≡ true }
    ensures { OnOk result (derived_all out.new.items ≡ derived_all out.old.items
        ++ spec.self_as (file_names names.now) (reading_of reading.now)
        (small_names.small_name (derived piece.entry)) (derived piece.entry) ∷ []) }
{
    if is_self(names, reading, piece) {
        put_kind(out, Kind::Name(b"x__self"), piece.position)
    } else {
        put_piece(out, piece)
    }
}

// A name before a bracket, which is this in small letters.
#[tactic(auto, using(derive_tokens::proofs::Positions::position_derived))]
fn put_called_name<'a>(
    out: &mut Vec<Piece<'a>>,
    names: &FileNames,
    reading: &Reading,
    name: &[u8],
    piece: Piece<'a>,
    rest: &[Piece<'a>],
) -> Result<(), PlacedFault>
    requires named { small_names.is_name (derived piece) ≡ true }
    requires small { name.now ≡ small_names.small_name (derived piece) }
    requires room { length rest.now + 1 < 2 ^ 64 }
    ensures { PutsAll result (derived_all out.old.items) (derived_all out.new.items)
        (spec.called_name (file_names names.now) (reading_of reading.now)
        (roles.routine_of (file_names names.now) (reading_of reading.now) name.now) name.now
        (derived piece.entry) (derived_all rest.now)) }
{
    match routine_of(names, reading, name) {
        Some(routine) => put_function(out, name, routine, piece.position, rest),
        None => Ok(put_self(out, names, reading, piece)?),
    }
}

// A name before a bracket.
#[inline(never)]
fn put_before_bracket<'a>(
    out: &mut Vec<Piece<'a>>,
    names: &FileNames,
    reading: &Reading,
    piece: Piece<'a>,
    rest: &[Piece<'a>],
) -> Result<(), PlacedFault>
    requires named { small_names.is_name (derived piece) ≡ true }
    requires room { length rest.now + 1 < 2 ^ 64 }
    ensures { PutsAll result (derived_all out.old.items) (derived_all out.new.items)
        (spec.called_name (file_names names.now) (reading_of reading.now)
        (roles.routine_of (file_names names.now) (reading_of reading.now)
        (small_names.small_name (derived piece.entry)))
        (small_names.small_name (derived piece.entry)) (derived piece.entry)
        (derived_all rest.now)) }
{
    let alloc = *out.allocator();
    let name = small_name_in(alloc, piece)?;
    put_called_name(out, names, reading, name.bytes(), piece, rest)
}

// A name with which a primary begins.
#[inline(always)]
fn put_name<'a>(
    out: &mut Vec<Piece<'a>>,
    names: &FileNames,
    reading: &Reading,
    piece: Piece<'a>,
    rest: &[Piece<'a>],
) -> Result<(), PlacedFault>
    requires named { small_names.is_name (derived piece) ≡ true }
    requires room { length rest.now + 1 < 2 ^ 64 }
    ensures { PutsAll result (derived_all out.old.items) (derived_all out.new.items)
        (spec.name_as (file_names names.now) (reading_of reading.now)
        (small_names.small_name (derived piece.entry)) (derived piece.entry)
        (derived_all rest.now)) }
{
    if is_next(rest, Sign::OpenParenthesis) {
        put_before_bracket(out, names, reading, piece, rest)
    } else {
        Ok(put_self(out, names, reading, piece)?)
    }
}

// The first token of a primary.
#[inline(always)]
fn put_first_token<'a>(
    out: &mut Vec<Piece<'a>>,
    names: &FileNames,
    reading: &Reading,
    piece: Piece<'a>,
    rest: &[Piece<'a>],
) -> Result<(), PlacedFault>
    requires { length rest.now + 1 < 2 ^ 64 }
    ensures { PutsAll result (derived_all out.old.items) (derived_all out.new.items)
        (spec.first_as (file_names names.now) (reading_of reading.now) (derived piece.entry)
        (derived_all rest.now)) }
{
    if is_name(piece) {
        put_name(out, names, reading, piece, rest)
    } else {
        Ok(put_piece(out, piece)?)
    }
}

// Whether a call may follow the primary that a token begins, as the token after it tells.
#[inline(always)]
fn may_be_called(piece: Piece<'_>, rest: &[Piece<'_>]) -> bool
    ensures { result ≡ (if small_names.is_name (derived piece.entry)
        then (tokens.is_sign s.Dot (lexemes.head (derived_all rest.now))
        || tokens.is_sign s.OpenParenthesis (lexemes.head (derived_all rest.now)))
        else (roles.is_kin (derived piece.entry)
        || tokens.is_sign s.OpenParenthesis (derived piece.entry))) }
{
    if is_name(piece) {
        is_next(rest, Sign::Dot) || is_next(rest, Sign::OpenParenthesis)
    } else {
        is_kin(piece) || is_sign(piece, Sign::OpenParenthesis)
    }
}

// A token with which a primary begins that may be called, after the names of its calls.
#[inline(never)]
#[tactic(auto, using(derive_tokens::proofs::Positions::position_derived, crate::proofs::Outcomes::after_both, crate::proofs::Outcomes::puts_after))]
fn put_calls<'a>(
    out: &mut Vec<Piece<'a>>,
    names: &FileNames,
    messages: &Names,
    reading: &Reading,
    piece: Piece<'a>,
    rest: &[Piece<'a>],
) -> Result<(), PlacedFault>
    requires { length rest.now + 1 < 2 ^ 64 }
    ensures { PutsAll result (derived_all out.old.items) (derived_all out.new.items)
        (spec.begun_as (file_names names.now) (names_of messages.now) (reading_of reading.now)
        (derived piece.entry) (derived_all rest.now)) }
{
    let alloc = *out.allocator();
    let heads = heads_of(alloc, names, reading, piece, rest)?;
    put_heads(out, messages, &heads, piece.position)?;
    put_first_token(out, names, reading, piece, rest)
}

// A token with which a primary begins.
#[inline(always)]
#[tactic(auto, using(crate::proofs::Over::nothing_begun))]
fn put_begun<'a>(
    out: &mut Vec<Piece<'a>>,
    names: &FileNames,
    messages: &Names,
    reading: &Reading,
    piece: Piece<'a>,
    rest: &[Piece<'a>],
) -> Result<(), PlacedFault>
    requires { length rest.now + 1 < 2 ^ 64 }
    ensures { PutsAll result (derived_all out.old.items) (derived_all out.new.items)
        (spec.begun_as (file_names names.now) (names_of messages.now) (reading_of reading.now)
        (derived piece.entry) (derived_all rest.now)) }
{
    if may_be_called(piece, rest) {
        put_calls(out, names, messages, reading, piece, rest)
    } else {
        put_first_token(out, names, reading, piece, rest)
    }
}

// A dot, a property and a bracket.
#[inline(always)]
fn is_message(piece: Piece<'_>, rest: &[Piece<'_>]) -> bool
    ensures { result ≡ spec.is_message (derived piece.entry) (derived_all rest.now) }
{
    match rest {
        [] => false,
        [property, others @ ..] => is_sent(*property, others) && is_sign(piece, Sign::Dot),
    }
}

// A token that a primary is before.
#[tactic(auto, using(derive_tokens::proofs::Positions::position_derived))]
fn put_following<'a>(
    out: &mut Vec<Piece<'a>>,
    piece: Piece<'a>,
    rest: &[Piece<'a>],
) -> Result<(), PlacedFault>
    requires { length rest.now + 1 < 2 ^ 64 }
    ensures { PutsAll result (derived_all out.old.items) (derived_all out.new.items)
        (spec.following_as (derived piece.entry) (derived_all rest.now)) }
{
    if is_sign(piece, Sign::OpenParenthesis) {
        return put_comma(out, MOST_OF_CALL, piece.position, rest);
    }
    if is_message(piece, rest) {
        return Ok(());
    }
    put_piece(out, piece)?;
    Ok(())
}

// The name of a property.
#[inline(always)]
fn put_property<'a>(
    out: &mut Vec<Piece<'a>>,
    piece: Piece<'a>,
    rest: &[Piece<'a>],
) -> Result<(), PlacedFault>
    ensures { PutsAll result (derived_all out.old.items) (derived_all out.new.items)
        (spec.property_as (derived piece.entry) (derived_all rest.now)) }
{
    if is_sent(piece, rest) {
        return Ok(());
    }
    put_piece(out, piece)?;
    Ok(())
}

// What a token of a role stands for.
#[inline(always)]
#[tactic(auto, using(derive_tokens::proofs::Positions::position_derived))]
fn put_called<'a>(
    out: &mut Vec<Piece<'a>>,
    names: &FileNames,
    messages: &Names,
    calling: &Calling,
    piece: Piece<'a>,
    rest: &[Piece<'a>],
) -> Result<(), PlacedFault>
    requires { length rest.now + 1 < 2 ^ 64 }
    ensures { PutsAll result (derived_all out.old.items) (derived_all out.new.items)
        (spec.called_as (file_names names.now) (names_of messages.now)
        (reading_of calling.now.reading) (role_now (calling_of calling.now)) (derived piece.entry)
        (derived_all rest.now)) }
{
    match calling.role_now() {
        Role::Operand => put_begun(out, names, messages, &calling.reading, piece, rest),
        Role::Follows => put_following(out, piece, rest),
        Role::Dotted => put_property(out, piece, rest),
        Role::Sent => put_comma(out, MOST_OF_MESSAGE, piece.position, rest),
        Role::Callee | Role::Cast | Role::CastEnd => Ok(put_piece(out, piece)?),
    }
}

// What a token stands for.
#[inline(always)]
fn put_now<'a>(
    out: &mut Vec<Piece<'a>>,
    names: &FileNames,
    messages: &Names,
    calling: &Calling,
    piece: Piece<'a>,
    rest: &[Piece<'a>],
) -> Result<(), PlacedFault>
    requires { length rest.now + 1 < 2 ^ 64 }
    ensures { PutsAll result (derived_all out.old.items) (derived_all out.new.items)
        (spec.called_now (file_names names.now) (names_of messages.now) (calling_of calling.now)
        (derived piece.entry) (derived_all rest.now)) }
{
    if is_in_body(calling.reading.scope) {
        put_called(out, names, messages, calling, piece, rest)
    } else {
        Ok(put_piece(out, piece)?)
    }
}

/// The tokens of a file that defines these names and sends these messages, with routines for calls
/// by value, messages and functions.
///
/// # Errors
///
/// E24 where a call or a message has too many arguments, and E99.
#[tactic(auto, using(crate::proofs::Outcomes::after_none))]
pub fn called<'a>(
    alloc: Global,
    names: &FileNames,
    messages: &Names,
    pieces: &[Piece<'a>],
) -> Result<Vec<Piece<'a>>, PlacedFault>
    requires defined { file_names names.now ≡ file.names_of (derived_all pieces.now) }
    requires sent { names_of messages.now
        ≡ spec.messages_of (file_names names.now) (derived_all pieces.now) }
    ensures { Gives result (spec.called (derived_all pieces.now)) }
{
    let mut out = Vec::new(alloc);
    out.reserve(pieces.len().saturating_add(pieces.len() / 8))?;
    let mut calling = Calling::new(alloc);
    let mut at = 0;
    while at < pieces.len() {
        let count = quiet_ahead(true, &calling, after(pieces, at));
        if count > 0 {
            put_first(&mut out, after(pieces, at), count)?;
            at += count;
        } else {
            let rest = after(pieces, at + 1);
            match put_now(&mut out, names, messages, &calling, pieces[at], rest) {
                Ok(()) => {}
                Err(fault) => return Err(fault),
            }
            calling.step(alloc, names, pieces[at], rest)?;
            at += 1;
        }
    }
    Ok(out)
}
