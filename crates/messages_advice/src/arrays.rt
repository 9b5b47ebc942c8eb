//! The entry or the size of an array (E28). The tokens are those of a program.

use crate::forms::{Part, some, told};
use crate::kinds_of_names::{array_kind, most_entries};
use crate::site::Site;
use checker_values::{Known, Table, constant_known, find};
use messages_parts::{after, is_sign, kind_at};
use std::alloc::{AllocError, Global};
use syntax::{ArrayKind, Kind, Sign, Token, Word};

/// What is known of the value that begins with the token of a number.
fn known_at(tokens: &[Token<'_>], at: usize, table: &Table) -> Option<Known> {
    match kind_at(tokens, at) {
        Kind::Sign(Sign::Minus) => match known_token(tokens, after(at, 1), table) {
            Some(Known::Number(number)) => Some(Known::Number(0_u16.wrapping_sub(number))),
            other => other,
        },
        _ => known_token(tokens, at, table),
    }
}

/// What is known of the value that is the token of a number, but of one with `-` before it.
fn known_token(tokens: &[Token<'_>], at: usize, table: &Table) -> Option<Known> {
    match kind_at(tokens, at) {
        Kind::Number(number) => Some(Known::Number(number)),
        Kind::Character(character) => Some(Known::Number(character as u16)),
        Kind::DictionaryWord(_) => Some(Known::Key(0)),
        Kind::Name(text) => constant_known(find(table, text)),
        Kind::Reserved(word) => Some(Known::Number(matches!(word, Word::True) as u16)),
        _ => None,
    }
}

/// The kind of the array of which the token of a number tells it.
fn kind_told(tokens: &[Token<'_>], at: usize) -> ArrayKind {
    match kind_at(tokens, at) {
        Kind::Sign(Sign::Arrow) => ArrayKind::Bytes,
        Kind::Sign(Sign::LongArrow) => ArrayKind::Words,
        Kind::Reserved(Word::String) => ArrayKind::String,
        _ => ArrayKind::Table,
    }
}

/// How many values are from the token of a number to the end of a definition.
fn values(tokens: &[Token<'_>], first: usize) -> usize {
    let mut count: usize = 0;
    for number in first..tokens.len() {
        if is_sign(tokens, number, Sign::Semicolon) {
            break;
        }
        if !is_sign(tokens, number, Sign::Minus) {
            count = count.saturating_add(1);
        }
    }
    count
}

/// What is wrong with an entry that is no byte.
fn entry(alloc: Global, known: Option<Known>) -> Result<Option<String>, AllocError> {
    let (form, number) = match known {
        Some(Known::Number(number)) => (
            "an entry of *; a byte holds at most 255: write '-->' or 'table' for words",
            number,
        ),
        Some(Known::Key(_)) => (
            "a dictionary word does not fit into a byte: write '-->' or 'table' for words",
            0,
        ),
        None => return Ok(None),
    };
    some(told(alloc, form, &[Part::Figure(number as u128)]))
}

/// What is wrong with the number of entries of the array whose name is a token.
fn entries(site: Site<'_, '_>, table: &Table) -> Result<Option<String>, AllocError> {
    let kind = kind_told(site.tokens, after(site.at, 1));
    let first = after(site.at, 2);
    let (count, known) = (
        values(site.tokens, first),
        known_at(site.tokens, first, table),
    );
    let (form, count) = match (count, known) {
        (1, Some(Known::Number(count))) => ("* has * entries; * has 1 to *", count as usize),
        (1, Some(Known::Key(_))) => (
            "the size of * is a dictionary word; a number is expected",
            0,
        ),
        (1, None) => return Ok(None),
        (count, _) => ("* has * entries; * has 1 to *", count),
    };
    let parts = [
        Part::Quoted(site.token.text),
        Part::Figure(count as u128),
        Part::Text(array_kind(kind)),
        Part::Figure(most_entries(kind) as u128),
    ];
    some(told(site.alloc, form, &parts))
}

/// What is wrong with the entry or the size of an array at a token.
///
/// # Errors
///
/// `AllocError` where memory is refused.
pub fn bad_array(site: Site<'_, '_>, table: &Table) -> Result<Option<String>, AllocError> {
    match site.around() {
        None => Ok(None),
        Some(found) if found.name == site.at => entries(site, table),
        Some(_) => entry(site.alloc, known_at(site.tokens, site.at, table)),
    }
}
