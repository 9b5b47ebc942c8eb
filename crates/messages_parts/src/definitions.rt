//! Where names are defined. The tokens are those of a program.

use crate::tokens::{before, is_name, is_named, is_sign, kind_at, text_at};
use syntax_lexer::{Kind, Sign, Token, Word};

/// What a definition is of.
#[derive(Clone, Copy)]
pub enum Definition {
    Global,
    Constant,
    Array,
    Attribute,
    Property,
    Object,
    Routine,
}

/// A definition of a file, and the number of the token of its name.
#[derive(Clone, Copy)]
pub struct Defined {
    pub what: Definition,
    pub name: usize,
}

/// What a definition is of that begins with a reserved word.
fn begun_by(word: Word) -> Option<Definition> {
    match word {
        Word::Global => Some(Definition::Global),
        Word::Constant => Some(Definition::Constant),
        Word::Array => Some(Definition::Array),
        Word::Attribute => Some(Definition::Attribute),
        Word::Property => Some(Definition::Property),
        Word::Object => Some(Definition::Object),
        _ => None,
    }
}

/// What a definition is of that begins with the token of a number.
pub fn begun_at(tokens: &[Token<'_>], at: usize) -> Option<Definition> {
    if is_sign(tokens, at, Sign::OpenBracket) {
        return Some(Definition::Routine);
    }
    match kind_at(tokens, at) {
        Kind::Reserved(word) => begun_by(word),
        _ => None,
    }
}

/// The number of the last token before one that is no arrow.
fn before_arrows(tokens: &[Token<'_>], at: usize) -> usize {
    for count in 0..at {
        let number = before(at, count.saturating_add(1));
        if !is_sign(tokens, number, Sign::Arrow) {
            return number;
        }
    }
    usize::MAX
}

/// What is defined where the token of a number is the name of a definition: it stands after the
/// word that begins one, or after the arrows of an object.
pub fn defined_at(tokens: &[Token<'_>], at: usize) -> Option<Definition> {
    if is_name(tokens, at) {
        begun_at(tokens, before_arrows(tokens, at))
    } else {
        None
    }
}

/// The definition in which the token of a number stands: the last whose name is that token or one
/// before it.
pub fn around(tokens: &[Token<'_>], at: usize) -> Option<Defined> {
    for count in 0..tokens.len() {
        let name = before(at, count);
        if let Some(what) = defined_at(tokens, name) {
            return Some(Defined { what, name });
        }
    }
    None
}

/// The number of the token where a name is defined first in a file.
pub fn first_definition(tokens: &[Token<'_>], text: &[u8]) -> Option<usize> {
    for number in 0..tokens.len() {
        if is_named(tokens, number, text) && defined_at(tokens, number).is_some() {
            return Some(number);
        }
    }
    None
}

/// The number of the token where a local is defined first in the routine whose name has a number.
pub fn first_local(tokens: &[Token<'_>], routine: usize, text: &[u8]) -> Option<usize> {
    for number in routine.saturating_add(1)..tokens.len() {
        if !is_name(tokens, number) {
            return None;
        }
        if is_named(tokens, number, text) {
            return Some(number);
        }
    }
    None
}

/// Whether a name is a local of the routine in which it stands.
pub fn is_local(tokens: &[Token<'_>], around: Option<Defined>, text: &[u8]) -> bool {
    match around {
        Some(found) => match found.what {
            Definition::Routine => first_local(tokens, found.name, text).is_some(),
            _ => false,
        },
        None => false,
    }
}

/// What the name that is the token of a number is defined as: a local of its routine, or what the
/// file defines.
pub fn known_as(tokens: &[Token<'_>], at: usize) -> Option<Known> {
    let text = text_at(tokens, at);
    if !is_name(tokens, at) {
        return None;
    }
    if is_local(tokens, around(tokens, at), text) {
        return Some(Known::Local);
    }
    let defined = first_definition(tokens, text)?;
    match defined_at(tokens, defined) {
        Some(what) => Some(Known::File(what)),
        None => None,
    }
}

/// What a name is defined as.
#[derive(Clone, Copy)]
pub enum Known {
    Local,
    File(Definition),
}

/// Whether the token of a number is a name that is defined nowhere.
pub fn is_unknown(tokens: &[Token<'_>], at: usize) -> bool {
    is_name(tokens, at) && known_as(tokens, at).is_none()
}

/// Whether the token of a number is the name of an attribute.
pub fn is_attribute(tokens: &[Token<'_>], at: usize) -> bool {
    matches!(
        known_as(tokens, at),
        Some(Known::File(Definition::Attribute))
    )
}
