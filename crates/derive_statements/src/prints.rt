//! Print rules.

ghost use Rattle.std.specs.Prelude.{◌≡◌, ◌++◌, ◌-◌, ◌||◌, if◌then◌else◌, true, false, is_some, IfOk, OnOk};
ghost use Rattle.std.specs.Str.{bytes_eq};
ghost use Rattle.derive_tokens.specs.Pieces.{derived, derived_all};
ghost use Rattle.derive_tokens.specs.Names.{is_name};
ghost use Rattle.derive_tokens.specs.Names.{small as small_letters};
ghost use Rattle.derive_values.specs.declared.places.Place.TheVariants as Place;
ghost use Rattle.derive_values.specs.Places.{routines_of};
ghost use Rattle.derive_tokens.specs.Held as held;
ghost use Rattle.derive_values.specs.Views as values;
ghost use Rattle.derive_statements.specs.Prints as spec;
ghost use Rattle.derive_statements.specs.PrintViews.{rule_held, rule_found, cut_held, printing_held};

use crate::lists::{at_statement, made, with_room};
use derive_tokens::{
    Names, Piece, PieceKind, after, is_sign, is_word, name_of, put_kind, put_piece, put_pieces,
    small_name,
};
use derive_values::{Form, Place, Reading, Scope, begins_print, is_operand_next, place_after};
use std::alloc::{AllocError, Global};
use syntax_lexer::{Kind, Position, Sign, Word};

/// What an item of a list stands for that is printed by a rule.
#[derive(Clone, Copy)]
pub enum Rule<'a> {
    /// A call of the routine of this name.
    Call(Piece<'a>),

    /// An article, if there is one, and the short name.
    Article(&'a [u8], Position),
}

// What is before the expression of a rule.
#[tactic(auto, using(derive_tokens::proofs::Positions::position_derived))]
fn put_call<'a>(out: &mut Vec<Piece<'a>>, routine: Piece<'a>) -> Result<(), AllocError>
    ensures { OnOk result (derived_all out.new.items
        ≡ derived_all out.old.items ++ spec.opening_of (spec.call (derived routine.entry))) }
{
    put_piece(out, routine)?;
    put_kind(out, Kind::Sign(Sign::OpenParenthesis), routine.position)
}

fn put_article<'a>(
    out: &mut Vec<Piece<'a>>,
    article: &'a [u8],
    position: Position,
) -> Result<(), AllocError>
    ensures { OnOk result (derived_all out.new.items
        ≡ derived_all out.old.items ++ spec.article_of article.now position) }
{
    match article {
        [] => Ok(()),
        [_, ..] => {
            put_kind(out, Kind::Text(article), position)?;
            put_kind(out, Kind::Sign(Sign::Comma), position)
        }
    }
}

fn put_short_name<'a>(
    out: &mut Vec<Piece<'a>>,
    article: &'a [u8],
    position: Position,
) -> Result<(), AllocError>
    ensures { OnOk result (derived_all out.new.items ≡ derived_all out.old.items
        ++ spec.opening_of (spec.article article.now position)) }
{
    put_kind(out, Kind::Reserved(Word::Print), position)?;
    put_article(out, article, position)?;
    put_kind(out, Kind::Sign(Sign::OpenParenthesis), position)?;
    put_kind(out, Kind::Reserved(Word::Object), position)?;
    put_kind(out, Kind::Sign(Sign::CloseParenthesis), position)
}

fn put_opening<'a>(out: &mut Vec<Piece<'a>>, rule: Rule<'a>) -> Result<(), AllocError>
    ensures { OnOk result (derived_all out.new.items
        ≡ derived_all out.old.items ++ spec.opening_of (rule_held rule.entry)) }
{
    match rule {
        Rule::Call(routine) => put_call(out, routine),
        Rule::Article(article, position) => put_short_name(out, article, position),
    }
}

// What is after the expression of a rule.
#[tactic(auto, using(derive_tokens::proofs::Positions::position_derived))]
fn put_closing<'a>(out: &mut Vec<Piece<'a>>, rule: Rule<'a>) -> Result<(), AllocError>
    ensures { OnOk result (derived_all out.new.items
        ≡ derived_all out.old.items ++ spec.closing_of (rule_held rule.entry)) }
{
    match rule {
        Rule::Call(routine) => {
            put_kind(out, Kind::Sign(Sign::CloseParenthesis), routine.position)?;
            put_kind(out, Kind::Sign(Sign::Semicolon), routine.position)
        }
        Rule::Article(_, position) => put_kind(out, Kind::Sign(Sign::Semicolon), position),
    }
}

// The rule of a routine, in small letters this, if the source has it, or else of an article.
fn either<'a>(
    routines: &Names,
    position: Position,
    routine: &'static [u8],
    small: &[u8],
    article: &'static [u8],
) -> Option<Rule<'a>>
    requires { small_letters routine.now ≡ small.now }
    ensures { rule_found result
        ≡ spec.either (held.names_of routines.now) position routine.now article.now }
{
    if routines.has(small) {
        Some(Rule::Call(made(Kind::Name(routine), position)))
    } else {
        Some(Rule::Article(article, position))
    }
}

// Whether a name is one of two, in whose letters capitals count.
fn is_one_of(name: &[u8], first: &[u8], second: &[u8]) -> bool
    ensures { result ≡ (bytes_eq name.now first.now || bytes_eq name.now second.now) }
{
    name == first || name == second
}

// A rule that Inform has, in whose name capitals count.
fn known_rule<'a>(routines: &Names, position: Position, name: &[u8]) -> Option<Rule<'a>>
    ensures { rule_found result
        ≡ spec.known_rule (held.names_of routines.now) position name.now }
{
    if name == b"the".as_slice() {
        either(routines, position, b"DefArt", b"defart", b"the ")
    } else if name == b"The".as_slice() {
        either(routines, position, b"CDefArt", b"cdefart", b"The ")
    } else if is_one_of(name, b"a", b"an") {
        either(routines, position, b"IndefArt", b"indefart", b"a ")
    } else if is_one_of(name, b"A", b"An") {
        either(routines, position, b"CInDefArt", b"cindefart", b"A ")
    } else if name == b"name".as_slice() {
        either(
            routines,
            position,
            b"PrintShortName",
            b"printshortname",
            b"",
        )
    } else if name == b"address".as_slice() {
        Some(Rule::Call(made(Kind::Name(b"x__address"), position)))
    } else {
        None
    }
}

// The rule of a name between the brackets; a routine of the source is one.
#[tactic(auto, using(derive_tokens::proofs::Positions::position_derived, crate::proofs::Named::named_rule))]
fn name_rule<'a>(
    alloc: Global,
    routines: &Names,
    reading: &Reading,
    piece: Piece<'a>,
) -> Result<Option<Rule<'a>>, AllocError>
    requires { is_name (derived piece) ≡ true }
    ensures { IfOk result (λ rule. rule_found rule ≡ spec.rule_of (held.names_of routines.now)
        (values.reading_of reading.now) (derived piece.entry)) }
{
    let small = small_name(alloc, piece)?;
    if routines.has(&small) && !reading.own.has(&small) {
        return Ok(Some(Rule::Call(piece)));
    }
    let name = name_of(alloc, piece)?;
    Ok(known_rule(routines, piece.position, &name))
}

// The rule of the token between the brackets.
fn rule_of<'a>(
    alloc: Global,
    routines: &Names,
    reading: &Reading,
    piece: Piece<'a>,
) -> Result<Option<Rule<'a>>, AllocError>
    ensures { IfOk result (λ rule. rule_found rule ≡ spec.rule_of (held.names_of routines.now)
        (values.reading_of reading.now) (derived piece.entry)) }
{
    match piece.kind {
        PieceKind::Read(Kind::Reserved(_)) => {
            if is_word(piece, Word::String) {
                Ok(Some(Rule::Call(made(Kind::Name(b"x__string"), piece.position))))
            } else {
                Ok(None)
            }
        }
        PieceKind::Read(Kind::Name(_)) | PieceKind::Numbered(..) => {
            name_rule(alloc, routines, reading, piece)
        }
        PieceKind::Read(_) | PieceKind::Quoted(_) => Ok(None),
    }
}

// The rule of a token after an opening bracket, with an operand after the other one.
#[inline(never)]
fn rule_in<'a>(
    alloc: Global,
    routines: &Names,
    reading: &Reading,
    rest: &[Piece<'a>],
) -> Result<Option<Rule<'a>>, AllocError>
    ensures { IfOk result (λ rule. rule_found rule ≡ spec.rule_in (held.names_of routines.now)
        (values.reading_of reading.now) (derived_all rest.now)) }
{
    match rest {
        [piece, bracket, others @ ..] => {
            if is_sign(*bracket, Sign::CloseParenthesis) && is_operand_next(others) {
                rule_of(alloc, routines, reading, *piece)
            } else {
                Ok(None)
            }
        }
        _ => Ok(None),
    }
}

#[inline(always)]
fn rule_at<'a>(
    alloc: Global,
    routines: &Names,
    reading: &Reading,
    piece: Piece<'a>,
    rest: &[Piece<'a>],
) -> Result<Option<Rule<'a>>, AllocError>
    ensures { IfOk result (λ rule. rule_found rule ≡ spec.rule_at (held.names_of routines.now)
        (values.reading_of reading.now) (derived piece.entry) (derived_all rest.now)) }
{
    if is_sign(piece, Sign::OpenParenthesis) {
        rule_in(alloc, routines, reading, rest)
    } else {
        Ok(None)
    }
}

/// Whether an item that is printed begins.
#[inline(always)]
fn is_item(place: Place) -> bool
    ensures { result ≡ spec.is_item place }
{
    matches!(place, Place::Item)
}

#[inline(always)]
fn is_ended(place: Place) -> bool
    ensures { result ≡ spec.is_ended place }
{
    matches!(place, Place::Statement)
}

// Whether an item up to the end of the statement is a rule.
#[inline(never)]
fn has_rule(
    alloc: Global,
    routines: &Names,
    reading: &Reading,
    pieces: &[Piece<'_>],
) -> Result<bool, AllocError>
    ensures { IfOk result (λ found. found ≡ spec.has_rule_from (held.names_of routines.now)
        (values.reading_of reading.now) Place.Item (derived_all pieces.now)) }
{
    let mut place = Place::Item;
    for (at, piece) in pieces.iter().enumerate() {
        if is_ended(place) {
            return Ok(false);
        }
        let rest = after(pieces, at + 1);
        if is_item(place) && rule_at(alloc, routines, reading, *piece, rest)?.is_some() {
            return Ok(true);
        }
        place = place_after(place, *piece);
    }
    Ok(false)
}

/// Where a token stands in a list that is printed.
#[derive(Clone, Copy)]
pub enum Cut<'a> {
    /// In no list that is cut.
    Whole,

    /// In an item that is no rule.
    Apart,

    /// In an item of a rule.
    Ruled(Rule<'a>),
}

/// What is read of lists that are printed.
#[derive(Clone, Copy)]
pub struct Printing<'a> {
    pub cut: Cut<'a>,

    /// The list is of a `print_ret`.
    pub returns: bool,

    /// So many tokens of a rule's brackets are to be passed.
    pub passed: usize,
}

#[inline(always)]
fn is_whole(cut: Cut<'_>) -> bool
    ensures { result ≡ spec.is_whole (cut_held cut.entry) }
{
    matches!(cut, Cut::Whole)
}

#[inline(always)]
fn is_at_item(scope: Scope) -> bool
    ensures { result ≡ spec.is_at_item scope }
{
    matches!(scope, Scope::Body(Place::Item))
}

#[inline(always)]
fn is_at_comma(scope: Scope, piece: Piece<'_>) -> bool
    ensures { result ≡ spec.is_at_comma scope (derived piece.entry) }
{
    match scope {
        Scope::Body(Place::Within(Form::Printing, depth)) => {
            depth == 0 && is_sign(piece, Sign::Comma)
        }
        _ => false,
    }
}

// The end of an item.
fn put_item_end<'a>(
    out: &mut Vec<Piece<'a>>,
    cut: Cut<'a>,
    position: Position,
) -> Result<(), AllocError>
    ensures { OnOk result (derived_all out.new.items
        ≡ derived_all out.old.items ++ spec.item_end (cut_held cut.entry) position) }
{
    match cut {
        Cut::Ruled(rule) => put_closing(out, rule),
        Cut::Whole | Cut::Apart => put_kind(out, Kind::Sign(Sign::Semicolon), position),
    }
}

fn put_list_end<'a>(
    out: &mut Vec<Piece<'a>>,
    returns: bool,
    position: Position,
) -> Result<(), AllocError>
    ensures { OnOk result (derived_all out.new.items
        ≡ derived_all out.old.items ++ spec.list_end returns position) }
{
    if returns {
        let semicolon = made(Kind::Sign(Sign::Semicolon), position);
        let end = [
            made(Kind::Reserved(Word::NewLine), position),
            semicolon,
            made(Kind::Reserved(Word::Rtrue), position),
            semicolon,
            made(Kind::Sign(Sign::CloseBrace), position),
        ];
        put_pieces(out, &end)
    } else {
        put_kind(out, Kind::Sign(Sign::CloseBrace), position)
    }
}

// The first token of an item.
#[tactic(auto, using(derive_tokens::proofs::Positions::position_derived))]
fn put_item_begun<'a>(
    out: &mut Vec<Piece<'a>>,
    rule: Option<Rule<'a>>,
    piece: Piece<'a>,
) -> Result<(), AllocError>
    ensures { OnOk result (derived_all out.new.items ≡ derived_all out.old.items
        ++ spec.item_begun (rule_found rule.entry) (derived piece.entry)) }
{
    match rule {
        Some(rule) => put_opening(out, rule),
        None => {
            put_kind(out, Kind::Reserved(Word::Print), piece.position)?;
            put_piece(out, piece)
        }
    }
}

// What a token of a list that is cut stands for.
#[inline(never)]
#[tactic(auto, using(derive_tokens::proofs::Positions::position_derived))]
fn put_item_token<'a>(
    out: &mut Vec<Piece<'a>>,
    scope: Scope,
    printing: Printing<'a>,
    rule: Option<Rule<'a>>,
    piece: Piece<'a>,
) -> Result<(), AllocError>
    ensures { OnOk result (derived_all out.new.items ≡ derived_all out.old.items
        ++ spec.item_token scope (printing_held printing.entry) (rule_found rule.entry)
        (derived piece.entry)) }
{
    if printing.passed > 0 {
        Ok(())
    } else if is_at_item(scope) {
        put_item_begun(out, rule, piece)
    } else if is_at_comma(scope, piece) {
        put_item_end(out, printing.cut, piece.position)
    } else if is_sign(piece, Sign::Semicolon) {
        put_item_end(out, printing.cut, piece.position)?;
        put_list_end(out, printing.returns, piece.position)
    } else {
        put_piece(out, piece)
    }
}

// In a list that is cut, after a token.
#[inline(always)]
fn cut_moved<'a>(scope: Scope, cut: Cut<'a>, rule: Option<Rule<'a>>, piece: Piece<'a>) -> Cut<'a>
    ensures { cut_held result ≡ spec.cut_moved scope (cut_held cut.entry)
        (rule_found rule.entry) (derived piece.entry) }
{
    if is_at_item(scope) {
        match rule {
            Some(rule) => Cut::Ruled(rule),
            None => Cut::Apart,
        }
    } else if is_sign(piece, Sign::Semicolon) {
        Cut::Whole
    } else {
        cut
    }
}

// How many tokens of a rule's brackets are to be passed after a token of a list that is cut.
fn passed_after(passed: usize, rule: Option<Rule<'_>>) -> usize
    ensures { result ≡ (if is_some (rule_found rule.entry) then 2 else passed - 1) }
{
    match rule {
        Some(_) => 2,
        None => passed.saturating_sub(1),
    }
}

#[inline(always)]
fn returns_after(scope: Scope, returns: bool, piece: Piece<'_>) -> bool
    ensures { result ≡ spec.returns_after scope returns (derived piece.entry) }
{
    if at_statement(scope) {
        is_word(piece, Word::PrintRet)
    } else {
        returns
    }
}

// A token of a list that is cut, and what is read after it.
#[inline(never)]
fn take_item<'a>(
    out: &mut Vec<Piece<'a>>,
    routines: &Names,
    reading: &Reading,
    printing: &mut Printing<'a>,
    piece: Piece<'a>,
    rest: &[Piece<'a>],
) -> Result<(), AllocError>
    requires { spec.is_whole (cut_held printing.old.cut) ≡ false }
    ensures put { OnOk result (derived_all out.new.items ≡ derived_all out.old.items
        ++ spec.printed_as (held.names_of routines.now) (values.reading_of reading.now)
        (printing_held printing.old) (derived piece.entry) (derived_all rest.now)) }
    ensures read { OnOk result (printing_held printing.new
        ≡ spec.printing_after (held.names_of routines.now) (values.reading_of reading.now)
        (printing_held printing.old) (derived piece.entry) (derived_all rest.now)) }
{
    let alloc = *out.allocator();
    let rule = if is_at_item(reading.scope) {
        rule_at(alloc, routines, reading, piece, rest)?
    } else {
        None
    };
    put_item_token(out, reading.scope, *printing, rule, piece)?;
    *printing = Printing {
        cut: cut_moved(reading.scope, printing.cut, rule, piece),
        returns: returns_after(reading.scope, printing.returns, piece),
        passed: passed_after(printing.passed, rule),
    };
    Ok(())
}

// A token, and what is read after it.
#[inline(always)]
#[tactic(auto, using(derive_tokens::proofs::Positions::position_derived, crate::proofs::Kept::whole))]
fn take_token<'a>(
    out: &mut Vec<Piece<'a>>,
    routines: &Names,
    reading: &Reading,
    printing: &mut Printing<'a>,
    piece: Piece<'a>,
    rest: &[Piece<'a>],
) -> Result<(), AllocError>
    ensures put { OnOk result (derived_all out.new.items ≡ derived_all out.old.items
        ++ spec.printed_as (held.names_of routines.now) (values.reading_of reading.now)
        (printing_held printing.old) (derived piece.entry) (derived_all rest.now)) }
    ensures read { OnOk result (printing_held printing.new
        ≡ spec.printing_after (held.names_of routines.now) (values.reading_of reading.now)
        (printing_held printing.old) (derived piece.entry) (derived_all rest.now)) }
{
    if !is_whole(printing.cut) {
        return take_item(out, routines, reading, printing, piece, rest);
    }
    let alloc = *out.allocator();
    if at_statement(reading.scope)
        && (begins_print(piece) && has_rule(alloc, routines, reading, rest)?)
    {
        printing.cut = Cut::Apart;
        put_kind(out, Kind::Sign(Sign::OpenBrace), piece.position)?;
    } else {
        put_piece(out, piece)?;
    }
    printing.returns = returns_after(reading.scope, printing.returns, piece);
    printing.passed = printing.passed.saturating_sub(1);
    Ok(())
}

/// The tokens of a file that has these routines, with its lists cut that have a print rule.
///
/// # Errors
///
/// `AllocError` where memory is refused.
pub fn printed<'a>(
    alloc: Global,
    routines: &Names,
    pieces: &[Piece<'a>],
) -> Result<Vec<Piece<'a>>, AllocError>
    requires { held.names_of routines.now ≡ routines_of (derived_all pieces.now) }
    ensures { IfOk result (λ out. derived_all out.items ≡ spec.printed (derived_all pieces.now)) }
{
    let mut out = with_room(alloc, pieces)?;
    let mut reading = Reading::new(alloc);
    let mut printing = Printing {
        cut: Cut::Whole,
        returns: false,
        passed: 0,
    };
    for (at, piece) in pieces.iter().enumerate() {
        let rest = after(pieces, at + 1);
        take_token(&mut out, routines, &reading, &mut printing, *piece, rest)?;
        reading.step(alloc, *piece)?;
    }
    Ok(out)
}
