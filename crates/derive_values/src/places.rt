//! Where a token stands in the statements of a routine.

ghost use Rattle.std.specs.Prelude.{◌≡◌, ◌≤◌, ◌<◌, ◌+◌, ◌^◌};
ghost use Rattle.syntax_lexer.specs.declared.token.Position.{Position};
ghost use Rattle.syntax_lexer.specs.Token.{reserved, sign};
ghost use Rattle.syntax_lexer.specs.declared.token.Sign.TheVariants as Sign;
ghost use Rattle.derive_tokens.specs.Pieces.{derived};
ghost use Rattle.derive_tokens.specs.Tokens.{is_sign};
ghost use Rattle.derive_values.specs.Places as spec;

use derive_tokens::{Piece, PieceKind, is_sign, is_word};
use syntax_lexer::{Kind, Position, Sign, Word};

/// What a statement that has begun is.
#[derive(Clone, Copy)]
pub enum Form {
    /// A list that is printed.
    Printing,

    /// A word as `if`, a bracket, and then a statement.
    Header,

    Plain,
}

/// Where a token stands in the statements of a routine.
#[derive(Clone, Copy)]
pub enum Place {
    /// A statement may begin.
    Statement,

    /// An item that is printed begins.
    Item,

    /// Directly after the bracket with which such an item begins.
    Rule,

    /// Later in a statement, in so many brackets.
    Within(Form, usize),
}

/// The part of a file that a token is in.
#[derive(Clone, Copy)]
pub enum Scope {
    /// A directive may begin.
    Between,

    /// After the bracket of a routine: its name.
    Named,

    /// After the name of a routine.
    Locals,

    /// In the statements of a routine.
    Body(Place),

    /// After `Object`.
    Head,

    /// Where an object may name a property.
    Property,

    /// The values of the property `name`.
    Words,

    /// Other values: of a property, an array, a constant, a global.
    Worth,

    /// What has no values.
    Bare,
}

/// Whether a token is a text.
#[inline(always)]
pub fn is_text(piece: Piece<'_>) -> bool
    ensures { result ≡ spec.is_text (derived piece.entry) }
{
    match piece.kind {
        PieceKind::Read(Kind::Text(_)) => true,
        _ => false,
    }
}

/// Whether a list that is printed begins after a token.
#[inline(always)]
pub fn begins_print(piece: Piece<'_>) -> bool
    ensures { result ≡ spec.begins_print (derived piece.entry) }
{
    is_word(piece, Word::Print) || is_word(piece, Word::PrintRet)
}

#[inline(always)]
fn begins_header(piece: Piece<'_>) -> bool
    ensures { result ≡ spec.begins_header (derived piece.entry) }
{
    is_word(piece, Word::If)
        || (is_word(piece, Word::While)
            || (is_word(piece, Word::For)
                || (is_word(piece, Word::Objectloop)
                    || (is_word(piece, Word::Switch) || is_word(piece, Word::Until)))))
}

#[inline(always)]
fn ends_statement(piece: Piece<'_>) -> bool
    ensures { result ≡ spec.ends_statement (derived piece.entry) }
{
    is_sign(piece, Sign::Semicolon)
        || (is_sign(piece, Sign::OpenBrace)
            || (is_sign(piece, Sign::CloseBrace)
                || (is_word(piece, Word::Else) || is_word(piece, Word::Do))))
}

// After a closing bracket.
#[inline(always)]
fn closed(form: Form, opened: usize) -> Place
    ensures value { result ≡ spec.closed form opened }
    ensures within { spec.opened_in result ≤ opened }
{
    match form {
        Form::Header => {
            if opened <= 1 {
                Place::Statement
            } else {
                Place::Within(Form::Header, opened.saturating_sub(1))
            }
        }
        Form::Printing | Form::Plain => Place::Within(form, opened.saturating_sub(1)),
    }
}

// After a comma outside brackets.
#[inline(always)]
fn parted(form: Form) -> Place
    ensures value { result ≡ spec.parted form }
    ensures none { spec.opened_in result ≡ 0 }
{
    match form {
        Form::Printing => Place::Item,
        Form::Header | Form::Plain => Place::Within(form, 0),
    }
}

#[inline(always)]
fn place_within(form: Form, opened: usize, piece: Piece<'_>) -> Place
    requires { opened + 1 < 2 ^ 64 }
    ensures value { result ≡ spec.place_within form opened (derived piece.entry) }
    ensures grows { spec.opened_in result ≤ opened + 1 }
{
    if ends_statement(piece) || (is_sign(piece, Sign::Colon) && opened == 0) {
        Place::Statement
    } else if is_sign(piece, Sign::OpenParenthesis) {
        Place::Within(form, opened + 1)
    } else if is_sign(piece, Sign::CloseParenthesis) {
        closed(form, opened)
    } else if is_sign(piece, Sign::Comma) && opened == 0 {
        parted(form)
    } else {
        Place::Within(form, opened)
    }
}

#[inline(always)]
fn place_begun(piece: Piece<'_>) -> Place
    ensures value { result ≡ spec.place_begun (derived piece.entry) }
    ensures few { spec.opened_in result ≤ 1 }
{
    if begins_print(piece) {
        Place::Item
    } else if is_text(piece) {
        Place::Within(Form::Printing, 0)
    } else if begins_header(piece) {
        Place::Within(Form::Header, 0)
    } else {
        place_within(Form::Plain, 0, piece)
    }
}

/// The beginning of a source.
const ORIGIN: Position = Position { offset: 0, line: 0 };

// After a sign later in a statement, wherever it stands.
#[inline(never)]
fn sign_within(form: Form, opened: usize, found: Sign) -> Place
    requires { opened + 1 < 2 ^ 64 }
    ensures value { (p : Position) → result ≡ spec.place_within form opened (sign found p) }
    ensures grows { spec.opened_in result ≤ opened + 1 }
{
    let piece = Piece {
        kind: PieceKind::Read(Kind::Sign(found)),
        position: ORIGIN,
    };
    place_within(form, opened, piece)
}

// After a reserved word with which a statement begins, wherever it stands.
#[inline(never)]
fn word_begun(found: Word) -> Place
    ensures value { (p : Position) → result ≡ spec.place_begun (reserved found p) }
    ensures few { spec.opened_in result ≤ 1 }
{
    let piece = Piece {
        kind: PieceKind::Read(Kind::Reserved(found)),
        position: ORIGIN,
    };
    place_begun(piece)
}

// After a reserved word later in a statement, wherever it stands.
#[inline(always)]
fn word_within(form: Form, opened: usize, found: Word) -> Place
    requires { opened + 1 < 2 ^ 64 }
    ensures value { (p : Position) → result ≡ spec.place_within form opened (reserved found p) }
    ensures grows { spec.opened_in result ≤ opened + 1 }
{
    let piece = Piece {
        kind: PieceKind::Read(Kind::Reserved(found)),
        position: ORIGIN,
    };
    if is_word(piece, Word::Else) || is_word(piece, Word::Do) {
        Place::Statement
    } else {
        Place::Within(form, opened)
    }
}

// Whether a sign is an opening parenthesis.
#[inline(always)]
fn is_opening(found: Sign) -> bool
    ensures { (p : Position) → result ≡ is_sign Sign.OpenParenthesis (sign found p) }
{
    let piece = Piece {
        kind: PieceKind::Read(Kind::Sign(found)),
        position: ORIGIN,
    };
    is_sign(piece, Sign::OpenParenthesis)
}

// After a sign, wherever it stands.
#[inline(always)]
fn after_sign(place: Place, found: Sign) -> Place
    requires { spec.opened_in place + 1 < 2 ^ 64 }
    ensures value { (p : Position) → result ≡ spec.place_after place (sign found p) }
    ensures grows { spec.opened_in result ≤ spec.opened_in place + 1 }
{
    match place {
        Place::Statement => sign_within(Form::Plain, 0, found),
        Place::Item => {
            if is_opening(found) {
                Place::Rule
            } else {
                sign_within(Form::Printing, 0, found)
            }
        }
        Place::Rule => sign_within(Form::Printing, 1, found),
        Place::Within(form, opened) => sign_within(form, opened, found),
    }
}

// After a reserved word, wherever it stands.
#[inline(always)]
fn after_word(place: Place, found: Word) -> Place
    requires { spec.opened_in place + 1 < 2 ^ 64 }
    ensures value { (p : Position) → result ≡ spec.place_after place (reserved found p) }
    ensures grows { spec.opened_in result ≤ spec.opened_in place + 1 }
{
    match place {
        Place::Statement => word_begun(found),
        Place::Item => word_within(Form::Printing, 0, found),
        Place::Rule => word_within(Form::Printing, 1, found),
        Place::Within(form, opened) => word_within(form, opened, found),
    }
}

/// The place after a token. A statement is read by its first word and its brackets alone.
#[inline(always)]
pub fn place_after(place: Place, piece: Piece<'_>) -> Place
    requires { spec.opened_in place + 1 < 2 ^ 64 }
    ensures value { result ≡ spec.place_after place (derived piece.entry) }
    ensures grows { spec.opened_in result ≤ spec.opened_in place + 1 }
{
    match piece.kind {
        PieceKind::Read(Kind::Sign(found)) => after_sign(place, found),
        PieceKind::Read(Kind::Reserved(found)) => after_word(place, found),
        _ => match place {
            Place::Statement => {
                if is_text(piece) {
                    Place::Within(Form::Printing, 0)
                } else {
                    Place::Within(Form::Plain, 0)
                }
            }
            Place::Item => Place::Within(Form::Printing, 0),
            Place::Rule => Place::Within(Form::Printing, 1),
            Place::Within(form, opened) => Place::Within(form, opened),
        },
    }
}
