//! Too many of something (E24). The tokens are those of a program.

use crate::duplicates::is_abbreviation;
use crate::forms::{Part, some, told};
use crate::site::Site;
use meaning::limits::{
    MOST_ARGUMENTS, MOST_GLOBALS, MOST_OBJECTS, MOST_PROPERTIES, MOST_PROPERTY_WORDS,
};
use meaning::name_words;
use messages_parts::{Definition, ends_within};
use std::alloc::AllocError;
use syntax::Kind;
use zcore::MOST_ABBREVIATIONS;
use zcore::layout::{ATTRIBUTE_COUNT, LONGEST_SHORT_NAME, MOST_LOCALS};

/// The limit that is passed at a token: how many there may be, and of what, with what to write
/// instead.
fn passed(site: Site<'_, '_>) -> Option<(usize, &'static str)> {
    if is_abbreviation(site.tokens, site.at) {
        return Some((MOST_ABBREVIATIONS, "abbreviations: leave one out"));
    }
    let around = site.around()?;
    match (around.what, around.name == site.at) {
        (Definition::Global, true) => Some((MOST_GLOBALS, "globals: use entries of an array")),
        (Definition::Attribute, true) => {
            let most = ATTRIBUTE_COUNT as usize;
            Some((most, "attributes: use properties of 0 and 1"))
        }
        (Definition::Property, true) => {
            Some((MOST_PROPERTIES, "properties besides name: use arrays"))
        }
        (Definition::Object, true) => Some((MOST_OBJECTS, "objects: use numbers and arrays")),
        (Definition::Object, false) => {
            Some((MOST_PROPERTY_WORDS, "words of a property: use a second one"))
        }
        (Definition::Routine, false) if ends_within(site.tokens, around.name, site.at) => {
            Some((MOST_ARGUMENTS, "arguments of a call: use globals"))
        }
        (Definition::Routine, false) => Some((MOST_LOCALS, "locals of a routine: use globals")),
        _ => None,
    }
}

/// What there is too much of at a token. A text there that is no abbreviation is a short name.
///
/// # Errors
///
/// `AllocError` where memory is refused.
pub fn too_many(site: Site<'_, '_>) -> Result<Option<String>, AllocError> {
    match (site.token.kind, passed(site)) {
        (Kind::Text(text), _) if !is_abbreviation(site.tokens, site.at) => {
            let most = Part::Number(LONGEST_SHORT_NAME as usize);
            let form = "a short name of * words of Z-text; the limit is *: shorten it";
            some(told(site.alloc, form, &[Part::Figure(name_words(text)), most]))
        }
        (_, Some((most, what))) => {
            let parts = [Part::Figure(most as u128), Part::Text(what)];
            some(told(site.alloc, "more than * *", &parts))
        }
        (_, None) => Ok(None),
    }
}
