//! What a directive computes.

ghost use Rattle.std.specs.Prelude.{◌≡◌, ◌++◌, IfOk, OnOk};
ghost use Rattle.syntax_lexer.specs.declared.token.Position.{Position};
ghost use Rattle.syntax_lexer.specs.Token.{lexeme, lexemes};
ghost use Rattle.derive_tokens.specs.Pieces.{derived_all};
ghost use Rattle.derive_constants.specs.Constants as spec;
ghost use Rattle.derive_constants.specs.Held.{known_of, between_of, values_of, parts_of, parts_found};
ghost use Rattle.derive_constants.specs.Values.{value_in};

use crate::constant::Known;
use crate::cutting::{before_last, is_sign, is_word, last_alone};
use crate::entries::put_entries;
use crate::putting::{put_token, put_tokens};
use crate::reading::value_in;
use derive_tokens::{Piece, put_kind};
use std::alloc::{AllocError, Global};
use syntax_lexer::{Kind, Position, Sign, Token, Word};

/// The values of a directive.
#[derive(Clone, Copy)]
pub enum Values<'t, 'a> {
    /// What these tokens are.
    Tokens(&'t [Token<'a>]),

    /// The characters of a text.
    Characters(&'a [u8], Position),

    /// 0, where nothing is said of a constant.
    Zero(Position),
}

/// A directive of a name, in parts.
#[derive(Clone, Copy)]
pub struct Parts<'t, 'a> {
    pub first: Token<'a>,
    pub name: Token<'a>,

    /// What is between the name and the values, if anything is.
    pub between: Option<Token<'a>>,

    pub values: Values<'t, 'a>,

    /// The `;`.
    pub close: &'t [Token<'a>],
}

// The parts where the values are what these tokens are, but for the last.
fn directive_parts<'t, 'a>(
    first: Token<'a>,
    name: Token<'a>,
    between: Option<Token<'a>>,
    rest: &'t [Token<'a>],
) -> Parts<'t, 'a>
    ensures { parts_of result
        ≡ spec.parts (lexeme first.entry) (lexeme name.entry) (between_of between.entry)
        (lexemes rest.now) }
{
    Parts {
        first,
        name,
        between,
        values: Values::Tokens(before_last(rest)),
        close: last_alone(rest),
    }
}

// What a constant is: 0 where nothing is said.
fn constant_values<'t, 'a>(position: Position, values: &'t [Token<'a>]) -> Values<'t, 'a>
    ensures { values_of result ≡ spec.constant_value position (lexemes values.now) }
{
    match values {
        [] => Values::Zero(position),
        [_, ..] => Values::Tokens(values),
    }
}

// A constant without `=` gets one.
fn assigned<'t, 'a>(first: Token<'a>, name: Token<'a>, rest: &'t [Token<'a>]) -> Parts<'t, 'a>
    ensures { parts_of result
        ≡ spec.assigned (lexeme first.entry) (lexeme name.entry) (lexemes rest.now) }
{
    Parts {
        first,
        name,
        between: Some(Token {
            kind: Kind::Sign(Sign::Assign),
            text: b"=",
            position: first.position,
        }),
        values: constant_values(first.position, before_last(rest)),
        close: last_alone(rest),
    }
}

fn constant_parts<'t, 'a>(first: Token<'a>, name: Token<'a>, rest: &'t [Token<'a>]) -> Parts<'t, 'a>
    ensures { parts_of result
        ≡ spec.constant_parts (lexeme first.entry) (lexeme name.entry) (lexemes rest.now) }
{
    match rest {
        [] => assigned(first, name, rest),
        [sign, values @ ..] => {
            if is_sign(*sign, Sign::Assign) {
                directive_parts(first, name, Some(*sign), values)
            } else {
                assigned(first, name, rest)
            }
        }
    }
}

fn global_parts<'t, 'a>(
    first: Token<'a>,
    name: Token<'a>,
    rest: &'t [Token<'a>],
) -> Option<Parts<'t, 'a>>
    ensures { parts_found result
        ≡ spec.global_parts (lexeme first.entry) (lexeme name.entry) (lexemes rest.now) }
{
    match rest {
        [] => None,
        [sign, values @ ..] => {
            if is_sign(*sign, Sign::Assign) {
                Some(directive_parts(first, name, Some(*sign), values))
            } else {
                None
            }
        }
    }
}

// An array of bytes whose entries are one text has its characters.
fn array_values<'t, 'a>(holds_bytes: bool, values: &'t [Token<'a>]) -> Values<'t, 'a>
    ensures { values_of result ≡ spec.array_values holds_bytes (lexemes values.now) }
{
    if !holds_bytes {
        return Values::Tokens(values);
    }
    match values {
        [token] => match token.kind {
            Kind::Text(bytes) => Values::Characters(bytes, token.position),
            _ => Values::Tokens(values),
        },
        _ => Values::Tokens(values),
    }
}

fn array_parts<'t, 'a>(
    first: Token<'a>,
    name: Token<'a>,
    rest: &'t [Token<'a>],
) -> Option<Parts<'t, 'a>>
    ensures { parts_found result
        ≡ spec.array_parts (lexeme first.entry) (lexeme name.entry) (lexemes rest.now) }
{
    match rest {
        [] => None,
        [kind, values @ ..] => {
            let holds_bytes = is_sign(*kind, Sign::Arrow) || is_word(*kind, Word::String);
            Some(Parts {
                first,
                name,
                between: Some(*kind),
                values: array_values(holds_bytes, before_last(values)),
                close: last_alone(values),
            })
        }
    }
}

// What is computed in a directive that begins with this token and a name.
fn named_parts<'t, 'a>(
    first: Token<'a>,
    name: Token<'a>,
    rest: &'t [Token<'a>],
) -> Option<Parts<'t, 'a>>
    ensures { parts_found result
        ≡ spec.named_parts (lexeme first.entry) (lexeme name.entry) (lexemes rest.now) }
{
    if is_word(first, Word::Constant) {
        Some(constant_parts(first, name, rest))
    } else if is_word(first, Word::Global) {
        global_parts(first, name, rest)
    } else if is_word(first, Word::Property) {
        Some(directive_parts(first, name, None, rest))
    } else if is_word(first, Word::Array) {
        array_parts(first, name, rest)
    } else {
        None
    }
}

/// What a directive computes, if it does.
pub fn computed<'t, 'a>(directive: &'t [Token<'a>]) -> Option<Parts<'t, 'a>>
    ensures { parts_found result ≡ spec.computed (lexemes directive.now) }
{
    match directive {
        [first, name, rest @ ..] => match name.kind {
            Kind::Name(_) => named_parts(*first, *name, rest),
            _ => None,
        },
        _ => None,
    }
}

// The byte of a text that a character of an array is: `^` is 13, and `~` a double quote.
fn text_byte(byte: u8) -> u8
    ensures { result ≡ spec.text_byte byte }
{
    match byte {
        b'^' => b'\r',
        b'~' => b'"',
        _ => byte,
    }
}

// The number that the characters of a text are: one alone is its number.
fn character_in(bytes: &[u8]) -> Option<u16>
    ensures { (known : Known) (p : Position) → result
        ≡ value_in (known_of known) (spec.characters p bytes.now) }
{
    match bytes {
        [] => None,
        [byte] => Some(u16::from(text_byte(*byte))),
        [_, _, ..] => None,
    }
}

/// The number that values are, or none.
///
/// # Errors
///
/// `AllocError` where memory is refused.
pub fn number_in(
    alloc: Global,
    known: &Known,
    values: Values<'_, '_>,
) -> Result<Option<u16>, AllocError>
    ensures { IfOk result (λ number. number
        ≡ value_in (known_of known.now) (values_of values.entry)) }
{
    match values {
        Values::Tokens(tokens) => value_in(alloc, known, tokens),
        Values::Zero(_) => Ok(Some(0)),
        Values::Characters(bytes, _) => Ok(character_in(bytes)),
    }
}

// The characters of a text.
fn put_characters<'a>(
    out: &mut Vec<Piece<'a>>,
    bytes: &[u8],
    position: Position,
) -> Result<(), AllocError>
    ensures { OnOk result (derived_all out.new.items
        ≡ derived_all out.old.items ++ spec.characters position bytes.now) }
{
    for byte in bytes {
        put_kind(out, Kind::Number(u16::from(text_byte(*byte))), position)?;
    }
    Ok(())
}

// The number that tokens are, or entries.
fn put_one_or_entries<'a>(
    out: &mut Vec<Piece<'a>>,
    known: &Known,
    tokens: &[Token<'a>],
) -> Result<(), AllocError>
    ensures { OnOk result (derived_all out.new.items ≡ derived_all out.old.items
        ++ spec.one_or_entries (value_in (known_of known.now) (lexemes tokens.now))
        (known_of known.now) (lexemes tokens.now)) }
{
    let alloc = *out.allocator();
    match (value_in(alloc, known, tokens)?, tokens.first()) {
        (Some(number), Some(token)) => put_kind(out, Kind::Number(number), token.position),
        _ => put_entries(out, known, tokens),
    }
}

// The values of a directive.
fn put_values<'a>(
    out: &mut Vec<Piece<'a>>,
    known: &Known,
    values: Values<'_, 'a>,
) -> Result<(), AllocError>
    ensures { OnOk result (derived_all out.new.items ≡ derived_all out.old.items
        ++ spec.one_or_entries (value_in (known_of known.now) (values_of values.entry))
        (known_of known.now) (values_of values.entry)) }
{
    match values {
        Values::Tokens(tokens) => put_one_or_entries(out, known, tokens),
        Values::Characters(bytes, position) => put_characters(out, bytes, position),
        Values::Zero(position) => put_kind(out, Kind::Number(0), position),
    }
}

/// Puts a directive, with numbers for what it computes.
///
/// # Errors
///
/// `AllocError` where memory is refused.
pub fn put_parts<'a>(
    out: &mut Vec<Piece<'a>>,
    known: &Known,
    parts: Parts<'_, 'a>,
) -> Result<(), AllocError>
    ensures { OnOk result (derived_all out.new.items ≡ derived_all out.old.items
        ++ spec.joined (known_of known.now) (parts_of parts.entry)) }
{
    put_token(out, parts.first)?;
    put_token(out, parts.name)?;
    if let Some(between) = parts.between {
        put_token(out, between)?;
    }
    put_values(out, known, parts.values)?;
    put_tokens(out, parts.close)
}
