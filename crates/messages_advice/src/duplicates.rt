//! What is there a second time: a name (E22), and an abbreviation (E33). The tokens are those of a
//! program.

use crate::forms::{Part, some, told};
use crate::site::Site;
use messages_parts::{
    Definition, before, first_definition, first_given, first_local, is_text, is_word, kind_at,
    line_of,
};
use std::alloc::AllocError;
use syntax::{Kind, Token, Word};

/// What is wrong with a name that is there first as the token of a number, and again as a token, and
/// what to do.
fn again(site: Site<'_, '_>, first: usize, remedy: &'static str) -> Result<String, AllocError> {
    let (name, remedy) = (Part::Quoted(site.token.text), Part::Text(remedy));
    if first == site.at {
        return told(site.alloc, "* is a built-in property: *", &[name, remedy]);
    }
    let parts = [name, Part::Number(line_of(site.tokens, first)), remedy];
    told(site.alloc, "* is already defined in line *: *", &parts)
}

/// What is wrong with a name that is there a second time as a token: among the locals of its routine,
/// the properties of its object, or the definitions of the file. An object has all values of a
/// property in one place.
///
/// # Errors
///
/// `AllocError` where memory is refused.
pub fn defined_twice(site: Site<'_, '_>) -> Result<Option<String>, AllocError> {
    let (tokens, at, text) = (site.tokens, site.at, site.token.text);
    let Some(found) = site.around() else {
        return Ok(None);
    };
    let (first, remedy) = match found.what {
        Definition::Property if found.name == at && first_definition(tokens, text) == Some(at) => {
            (Some(at), "leave this definition out")
        }
        _ if found.name == at => (first_definition(tokens, text), "choose another name"),
        Definition::Routine => (first_local(tokens, found.name, text), "choose another name"),
        Definition::Object => (
            first_given(tokens, found.name, text),
            "put all its values there",
        ),
        _ => (None, ""),
    };
    match first {
        Some(first) => some(again(site, first, remedy)),
        None => Ok(None),
    }
}

/// Whether the token of a number is an abbreviation: no two other texts are side by side.
pub fn is_abbreviation(tokens: &[Token<'_>], at: usize) -> bool {
    let last = before(at, 1);
    is_text(tokens, at) && (is_text(tokens, last) || is_word(tokens, last, Word::Abbreviate))
}

/// The number of the first abbreviation with these bytes before the token of a number.
fn abbreviated_before(tokens: &[Token<'_>], at: usize, bytes: &[u8]) -> Option<usize> {
    for number in 0..at {
        match kind_at(tokens, number) {
            Kind::Text(text) if text == bytes && is_abbreviation(tokens, number) => {
                return Some(number);
            }
            _ => {}
        }
    }
    None
}

/// What is wrong with an abbreviation. `None` where it is no text, or nothing is wrong.
///
/// # Errors
///
/// `AllocError` where memory is refused.
pub fn bad_abbreviation(site: Site<'_, '_>) -> Result<Option<String>, AllocError> {
    let Kind::Text(bytes) = site.token.kind else {
        return Ok(None);
    };
    let written = Part::Cut(site.token.text);
    if bytes.len() < 2 {
        let parts = [written, Part::Counted(bytes.len() as u128, "byte")];
        return some(told(
            site.alloc,
            "* has *; an abbreviation has two or more",
            &parts,
        ));
    }
    let Some(first) = abbreviated_before(site.tokens, site.at, bytes) else {
        return Ok(None);
    };
    let parts = [written, Part::Number(line_of(site.tokens, first))];
    some(told(site.alloc, "* is already an abbreviation in line *", &parts))
}
