//! Lists in statements.

ghost use Rattle.std.specs.Prelude.{◌≡◌, ◌≤◌, ◌+◌, ◌<◌, ◌^◌, ◌++◌, [], drop, false, length, IfOk, OnOk};
ghost use Rattle.syntax_lexer.specs.Token.{lexeme_of};
ghost use Rattle.derive_tokens.specs.Pieces.{derived, derived_all};
ghost use Rattle.derive_values.specs.Places.{opened_within};
ghost use Rattle.derive_statements.specs.Lists as spec;
ghost use Rattle.derive_statements.specs.Views.{listing_of};

use crate::quiet::{Seek, quiet_ahead};
use derive_tokens::{Piece, PieceKind, after, is_sign, is_word, put_kind, put_piece, put_pieces};
use derive_values::{Form, Place, Scope, is_next, is_text, scope_after};
use std::alloc::{AllocError, Global};
use syntax_lexer::{Kind, Position, Sign, Word};

/// An empty list with room for what these tokens stand for, which mostly are few more.
#[inline(always)]
pub fn with_room<'a>(alloc: Global, pieces: &[Piece<'a>]) -> Result<Vec<Piece<'a>>, AllocError>
    ensures { IfOk result (λ out. out.items ≡ []) }
{
    let mut out = Vec::new(alloc);
    out.reserve(pieces.len().saturating_add(pieces.len() / 8))?;
    Ok(out)
}

/// A token that is made, at a position.
#[inline(always)]
pub fn made<'a>(kind: Kind<'a>, position: Position) -> Piece<'a>
    ensures { derived result ≡ lexeme_of kind.entry position }
{
    Piece {
        kind: PieceKind::Read(kind),
        position,
    }
}

/// Whether a statement may begin.
#[inline(always)]
pub fn at_statement(scope: Scope) -> bool
    ensures { result ≡ spec.at_statement scope }
{
    matches!(scope, Scope::Body(Place::Statement))
}

// The tokens in front that stay as they are, or else the first token; what comes after them.
#[inline(always)]
#[tactic(auto, using(derive_tokens::proofs::Positions::position_derived))]
fn put_next_introduced<'a>(
    out: &mut Vec<Piece<'a>>,
    scope: &mut Scope,
    ended: &mut bool,
    pieces: &[Piece<'a>],
) -> Result<usize, AllocError>
    requires some { 0 < length pieces.now }
    requires few { opened_within scope.old + 1 < 2 ^ 64 }
    ensures value { IfOk result (λ count. derived_all out.new.items
        ++ spec.introduced_from scope.new (derived_all (drop count pieces.now))
        ≡ derived_all out.old.items ++ spec.introduced_from scope.old (derived_all pieces.now)) }
    ensures more { IfOk result (λ count. 0 < count) }
    ensures within { IfOk result (λ count. count ≤ length pieces.now) }
    ensures grows { IfOk result (λ count. opened_within scope.new
        ≤ opened_within scope.old + count) }
{
    let count = quiet_ahead(Seek::Introduction, *ended, *scope, pieces);
    *ended = false;
    if count > 0 {
        put_pieces(out, pieces.split_at(count).0)?;
        return Ok(count);
    }
    match pieces {
        [] => Ok(0),
        [first, rest @ ..] => {
            if at_statement(*scope) && (is_text(*first) && is_next(rest, Sign::Comma)) {
                put_kind(out, Kind::Reserved(Word::PrintRet), first.position)?;
            }
            put_piece(out, *first)?;
            *scope = scope_after(*scope, *first);
            *ended = is_sign(*first, Sign::Semicolon);
            Ok(1)
        }
    }
}

/// The tokens of a file with `print_ret` before each text with which a list begins.
///
/// # Errors
///
/// `AllocError` where memory is refused.
pub fn introduced<'a>(alloc: Global, pieces: &[Piece<'a>]) -> Result<Vec<Piece<'a>>, AllocError>
    ensures { IfOk result (λ out. derived_all out.items ≡ spec.introduced (derived_all pieces.now)) }
{
    let mut out = with_room(alloc, pieces)?;
    let mut scope = Scope::Between;
    let mut ended = true;
    let mut at = 0;
    while at < pieces.len() {
        at += put_next_introduced(&mut out, &mut scope, &mut ended, after(pieces, at))?;
    }
    Ok(out)
}

/// How many brackets are open after a token.
#[inline(always)]
pub fn deeper(depth: usize, piece: Piece<'_>) -> usize
    requires { depth + 1 < 2 ^ 64 }
    ensures value { result ≡ spec.deeper depth (derived piece.entry) }
    ensures grows { result ≤ depth + 1 }
{
    if is_sign(piece, Sign::OpenParenthesis) {
        depth + 1
    } else if is_sign(piece, Sign::CloseParenthesis) {
        depth.saturating_sub(1)
    } else {
        depth
    }
}

/// Whether a statement ends with a token, in however many brackets.
#[inline(always)]
pub fn ends_statement(piece: Piece<'_>) -> bool
    ensures { result ≡ spec.ends_statement (derived piece.entry) }
{
    match piece.kind {
        PieceKind::Read(Kind::End) => true,
        _ => {
            is_sign(piece, Sign::Semicolon)
                || (is_sign(piece, Sign::OpenBrace)
                    || (is_sign(piece, Sign::CloseBrace) || is_sign(piece, Sign::CloseBracket)))
        }
    }
}

// Whether the tokens up to the end of an action, within so many brackets, are a list that this sign ends.
#[inline(never)]
fn is_listed(wanted: Sign, opened: usize, pieces: &[Piece<'_>]) -> bool
    requires few { opened ≤ 1 }
    requires room { length pieces.now + 1 < 2 ^ 64 }
    ensures { result ≡ spec.is_listed wanted opened (derived_all pieces.now) }
{
    let mut comma = false;
    let mut depth = opened;
    for piece in pieces {
        if ends_statement(*piece)
            || (depth == 0
                && (is_sign(*piece, Sign::Colon) || is_sign(*piece, Sign::CloseParenthesis)))
        {
            return comma && is_sign(*piece, wanted);
        }
        comma = comma || (depth == 0 && is_sign(*piece, Sign::Comma));
        depth = deeper(depth, *piece);
    }
    false
}

#[inline(always)]
fn begins_action(piece: Piece<'_>) -> bool
    ensures { result ≡ spec.begins_action (derived piece.entry) }
{
    match piece.kind {
        PieceKind::Read(Kind::Reserved(_)) => {
            is_word(piece, Word::Parent)
                || (is_word(piece, Word::Child) || is_word(piece, Word::Sibling))
        }
        PieceKind::Read(Kind::Text(_)) => false,
        PieceKind::Read(Kind::Sign(_)) => {
            is_sign(piece, Sign::OpenParenthesis)
                || (is_sign(piece, Sign::Increment) || is_sign(piece, Sign::Decrement))
        }
        _ => true,
    }
}

/// Outside the brackets of a statement.
#[inline(always)]
fn is_outside(scope: Scope) -> bool
    ensures { result ≡ spec.is_outside scope }
{
    match scope {
        Scope::Body(Place::Within(Form::Plain, depth)) => depth == 0,
        _ => false,
    }
}

/// Whether the brackets of a header are still to come.
#[inline(always)]
pub fn is_before_header(scope: Scope) -> bool
    ensures { result ≡ spec.is_before_header scope }
{
    match scope {
        Scope::Body(Place::Within(Form::Header, depth)) => depth == 0,
        _ => false,
    }
}

/// Whether a token is in the brackets of a header, and in no others.
#[inline(always)]
pub fn is_in_header(scope: Scope) -> bool
    ensures { result ≡ spec.is_in_header scope }
{
    match scope {
        Scope::Body(Place::Within(Form::Header, depth)) => depth == 1,
        _ => false,
    }
}

/// What is read: whether the statement is a `for`, and whether a list of actions is being read.
#[derive(Clone, Copy)]
pub struct Listing {
    pub scope: Scope,
    pub is_loop: bool,
    pub is_listed: bool,
}

// A list of actions as a statement.
#[inline(always)]
fn opens_block(listing: Listing, piece: Piece<'_>, rest: &[Piece<'_>]) -> bool
    requires { length rest.now + 1 < 2 ^ 64 }
    ensures { result
        ≡ spec.opens_block (listing_of listing) (derived piece.entry) (derived_all rest.now) }
{
    at_statement(listing.scope)
        && (begins_action(piece) && is_listed(Sign::Semicolon, deeper(0, piece), rest))
}

// A list of actions as the first part of a `for`, or as its last.
#[inline(always)]
fn opens_both(listing: Listing, piece: Piece<'_>, rest: &[Piece<'_>]) -> bool
    requires { length rest.now + 1 < 2 ^ 64 }
    ensures { result
        ≡ spec.opens_both (listing_of listing) (derived piece.entry) (derived_all rest.now) }
{
    listing.is_loop
        && ((is_before_header(listing.scope)
            && (is_sign(piece, Sign::OpenParenthesis) && is_listed(Sign::Colon, 0, rest)))
            || (is_in_header(listing.scope)
                && (is_sign(piece, Sign::Colon) && is_listed(Sign::CloseParenthesis, 0, rest))))
}

// The end of a list in a `for`.
#[inline(always)]
fn closes_both(listing: Listing, piece: Piece<'_>) -> bool
    ensures { result ≡ spec.closes_both (listing_of listing) (derived piece.entry) }
{
    listing.is_listed
        && (is_in_header(listing.scope)
            && (is_sign(piece, Sign::Colon) || is_sign(piece, Sign::CloseParenthesis)))
}

// A token where a list may begin or end: a block, or in a `for` the arguments of `x__both`.
#[inline(never)]
#[tactic(auto, using(derive_tokens::proofs::Positions::position_derived))]
fn put_listed<'a>(
    out: &mut Vec<Piece<'a>>,
    listing: Listing,
    piece: Piece<'a>,
    rest: &[Piece<'a>],
) -> Result<(), AllocError>
    requires { length rest.now + 1 < 2 ^ 64 }
    ensures { OnOk result (derived_all out.new.items ≡ derived_all out.old.items
        ++ spec.listed_as (listing_of listing) (derived piece.entry) (derived_all rest.now)) }
{
    if opens_block(listing, piece, rest) {
        put_kind(out, Kind::Sign(Sign::OpenBrace), piece.position)?;
        put_piece(out, piece)
    } else if listing.is_listed && (is_outside(listing.scope) && is_sign(piece, Sign::Comma)) {
        put_kind(out, Kind::Sign(Sign::Semicolon), piece.position)
    } else if listing.is_listed && is_sign(piece, Sign::Semicolon) {
        put_piece(out, piece)?;
        put_kind(out, Kind::Sign(Sign::CloseBrace), piece.position)
    } else {
        if closes_both(listing, piece) {
            put_kind(out, Kind::Sign(Sign::CloseParenthesis), piece.position)?;
        }
        put_piece(out, piece)?;
        if opens_both(listing, piece, rest) {
            put_kind(out, Kind::Name(b"x__both"), piece.position)?;
            put_kind(out, Kind::Sign(Sign::OpenParenthesis), piece.position)?;
        }
        Ok(())
    }
}

// What is read after a token.
#[inline(always)]
fn listing_after(listing: Listing, piece: Piece<'_>, rest: &[Piece<'_>]) -> Listing
    requires few { opened_within listing.scope + 1 < 2 ^ 64 }
    requires room { length rest.now + 1 < 2 ^ 64 }
    ensures value { listing_of result
        ≡ spec.listing_after (listing_of listing) (derived piece.entry) (derived_all rest.now) }
    ensures grows { opened_within result.scope ≤ opened_within listing.scope + 1 }
{
    Listing {
        scope: scope_after(listing.scope, piece),
        is_loop: if at_statement(listing.scope) {
            is_word(piece, Word::For)
        } else {
            listing.is_loop
        },
        is_listed: opens_block(listing, piece, rest)
            || (opens_both(listing, piece, rest)
                || (listing.is_listed
                    && !(closes_both(listing, piece) || is_sign(piece, Sign::Semicolon)))),
    }
}

// The tokens in front that stay as they are, or else the first token; what is read after them.
#[inline(always)]
fn put_next_listed<'a>(
    out: &mut Vec<Piece<'a>>,
    listing: &mut Listing,
    ended: &mut bool,
    pieces: &[Piece<'a>],
) -> Result<usize, AllocError>
    requires some { 0 < length pieces.now }
    requires room { length pieces.now < 2 ^ 64 }
    requires few { opened_within listing.old.scope + 1 < 2 ^ 64 }
    ensures value { IfOk result (λ count. derived_all out.new.items
        ++ spec.listed_from (listing_of listing.new) (derived_all (drop count pieces.now))
        ≡ derived_all out.old.items
        ++ spec.listed_from (listing_of listing.old) (derived_all pieces.now)) }
    ensures more { IfOk result (λ count. 0 < count) }
    ensures within { IfOk result (λ count. count ≤ length pieces.now) }
    ensures grows { IfOk result (λ count. opened_within listing.new.scope
        ≤ opened_within listing.old.scope + count) }
{
    if !listing.is_listed {
        let count = quiet_ahead(Seek::List, *ended, listing.scope, pieces);
        if count > 0 {
            *ended = false;
            put_pieces(out, pieces.split_at(count).0)?;
            return Ok(count);
        }
    }
    match pieces {
        [] => Ok(0),
        [first, rest @ ..] => {
            put_listed(out, *listing, *first, rest)?;
            *listing = listing_after(*listing, *first, rest);
            *ended = is_sign(*first, Sign::Semicolon);
            Ok(1)
        }
    }
}

/// The tokens of a file whose lists of actions are blocks, or arguments of `x__both`.
///
/// # Errors
///
/// `AllocError` where memory is refused.
pub fn listed<'a>(alloc: Global, pieces: &[Piece<'a>]) -> Result<Vec<Piece<'a>>, AllocError>
    ensures { IfOk result (λ out. derived_all out.items ≡ spec.listed (derived_all pieces.now)) }
{
    let mut out = with_room(alloc, pieces)?;
    let mut listing = Listing {
        scope: Scope::Between,
        is_loop: false,
        is_listed: false,
    };
    let mut ended = true;
    let mut at = 0;
    while at < pieces.len() {
        at += put_next_listed(&mut out, &mut listing, &mut ended, after(pieces, at))?;
    }
    Ok(out)
}
