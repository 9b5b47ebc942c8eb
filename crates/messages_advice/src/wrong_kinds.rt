//! A name of the wrong kind (E23): what it is, and what is wanted where it is.

use crate::forms::{Part, some, told};
use crate::kinds_of_names::{array_kind, binding_in, definition_of, kind_of, words_of};
use crate::rules::{HINTS, MISSING};
use crate::site::Site;
use checker_values::{Binding, Table};
use messages_parts::{Advice, before, is_word};
use std::alloc::AllocError;
use syntax::{ArrayKind, Token, Word};

/// What is wrong with a name of a `read` that is no array of bytes.
const NO_BYTES: &str = "* is *; an array of bytes is expected here: define one by 'Array a -> 50;'";

/// What is wrong with a name of a `read`.
fn read(site: Site<'_, '_>, binding: Binding) -> Result<String, AllocError> {
    let (form, kind) = match binding {
        Binding::Array(_, ArrayKind::Bytes | ArrayKind::String) => (
            "* is already used by this read; another array is expected here",
            "",
        ),
        Binding::Array(_, kind) => (NO_BYTES, array_kind(kind)),
        other => (NO_BYTES, kind_of(other)),
    };
    told(
        site.alloc,
        form,
        &[Part::Quoted(site.token.text), Part::Text(kind)],
    )
}

/// What is wrong with a name that is not what is wanted, and what to write.
fn other(site: Site<'_, '_>, binding: Binding) -> Result<String, AllocError> {
    let (place, wanted) = site.wanting(Some(definition_of(binding)));
    let (name, kind) = (Part::Quoted(site.token.text), Part::Text(kind_of(binding)));
    if let Some(Advice::Do(missing)) = place.told(MISSING) {
        let parts = [name, kind, Part::Text(missing)];
        return told(site.alloc, "* is *; '*' may be missing before it", &parts);
    }
    let (before, call, instead) = match place.told(HINTS) {
        Some(Advice::Do(hint)) => (": ", "", hint),
        Some(Advice::Absent(call, feature)) => (": ", call, feature.instead),
        _ => ("", "", ""),
    };
    let wanted = Part::Text(words_of(wanted));
    let (before, call) = (Part::Text(before), Part::Text(call));
    let parts = [name, kind, wanted, before, call, Part::Text(instead)];
    told(site.alloc, "* is *; * is expected here***", &parts)
}

/// What is wrong with a name of the wrong kind. `None` where it is not defined.
///
/// # Errors
///
/// `AllocError` where memory is refused.
pub fn wrong_kind(site: Site<'_, '_>, table: &Table) -> Result<Option<String>, AllocError> {
    let around = site.around();
    match binding_in(site.tokens, around, table, site.token.text) {
        Some(binding) if is_read(site.tokens, site.at) => some(read(site, binding)),
        Some(binding) => some(other(site, binding)),
        None => Ok(None),
    }
}

/// Whether a name is one of the two of a `read`.
fn is_read(tokens: &[Token<'_>], at: usize) -> bool {
    is_word(tokens, before(at, 1), Word::Read) || is_word(tokens, before(at, 2), Word::Read)
}
