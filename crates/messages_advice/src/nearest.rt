//! The defined name that is nearest to one that is not known.

use crate::site::Site;
use messages_parts::{
    Definition, Want, after, defined_at, in_small_letters, is_attribute, is_in_routine, is_name,
    is_near, text_at,
};
use std::alloc::{AllocError, Global};
use strsim::generic_levenshtein;
use syntax::Token;

/// Whether what is wanted may be of that kind.
fn suits(wanted: Want, what: Definition) -> bool {
    match what {
        Definition::Global => matches!(wanted, Want::Value | Want::Variable),
        Definition::Constant => matches!(wanted, Want::Value | Want::Constant),
        Definition::Object => matches!(wanted, Want::Value | Want::Constant | Want::Object),
        Definition::Array => matches!(wanted, Want::Array),
        Definition::Attribute => matches!(wanted, Want::Attribute),
        Definition::Property => matches!(wanted, Want::Property),
        Definition::Routine => matches!(wanted, Want::Routine),
    }
}

/// How many edits lead from a name in small letters to another one.
fn edits_to(alloc: Global, name: &[u8], other: &[u8]) -> Result<usize, AllocError> {
    match in_small_letters(alloc, other) {
        Ok(other) => generic_levenshtein(alloc, name, other.as_slice()),
        Err(refused) => Err(refused),
    }
}

/// A search for the name to which the fewest edits lead from one in small letters.
#[derive(Clone, Copy)]
struct Search<'n, 't, 'a> {
    alloc: Global,
    name: &'n [u8],
    tokens: &'t [Token<'a>],

    /// The bytes of the first name with the fewest edits so far, if one may be meant.
    found: Option<&'a [u8]>,

    edits: usize,
}

impl Search<'_, '_, '_> {
    /// Compares the token of a number.
    fn compare(&mut self, number: usize) -> Result<(), AllocError> {
        let other = text_at(self.tokens, number);
        let edits = edits_to(self.alloc, self.name, other)?;
        if edits < self.edits && is_near(self.name, edits, other) {
            self.found = Some(other);
            self.edits = edits;
        }
        Ok(())
    }

    /// Compares what the file defines that may be wanted.
    fn compare_definitions(&mut self, wanted: Want) -> Result<(), AllocError> {
        for number in 0..self.tokens.len() {
            match defined_at(self.tokens, number) {
                Some(what) if suits(wanted, what) => self.compare(number)?,
                _ => {}
            }
        }
        Ok(())
    }

    /// Compares the locals of the routine whose name has a number.
    fn compare_locals(&mut self, routine: usize) -> Result<(), AllocError> {
        for number in routine.saturating_add(1)..self.tokens.len() {
            if !is_name(self.tokens, number) {
                break;
            }
            self.compare(number)?;
        }
        Ok(())
    }
}

/// The number of the token of the name of the routine around a token; that of no token if there is none.
fn around_routine(site: Site<'_, '_>) -> usize {
    match site.around() {
        Some(around) if matches!(around.what, Definition::Routine) => around.name,
        _ => usize::MAX,
    }
}

/// The defined name that may be meant by one that is not known: the nearest of those that are wanted.
pub fn nearest<'a>(site: Site<'_, 'a>, wanted: Want) -> Result<Option<&'a [u8]>, AllocError> {
    let Ok(small) = in_small_letters(site.alloc, site.token.text) else {
        return Err(AllocError);
    };
    let mut search = Search {
        alloc: site.alloc,
        name: small.as_slice(),
        tokens: site.tokens,
        found: None,
        edits: usize::MAX,
    };
    let Ok(()) = search.compare_definitions(wanted) else {
        return Err(AllocError);
    };
    if suits(wanted, Definition::Global) {
        let Ok(()) = search.compare_locals(around_routine(site)) else {
            return Err(AllocError);
        };
    }
    Ok(search.found)
}

/// The first of some words to which so few edits lead from a name that it may be meant: one, or two
/// if both are as long.
fn near_word(
    alloc: Global,
    name: &[u8],
    words: &[&'static str],
) -> Result<Option<&'static str>, AllocError> {
    let Ok(small) = in_small_letters(alloc, name) else {
        return Err(AllocError);
    };
    for word in words {
        let Ok(edits) = edits_to(alloc, &small, word.as_bytes()) else {
            return Err(AllocError);
        };
        let is_alike = edits == 1 || name.len() == word.len();
        if is_alike && is_near(name, edits, word.as_bytes()) {
            return Ok(Some(*word));
        }
    }
    Ok(None)
}

/// The reserved words that can be in the place of a name.
fn words_for(site: Site<'_, '_>, wanted: Want) -> &'static [&'static str] {
    match wanted {
        Want::Value => &["true", "false", "nothing"],
        Want::Routine => &["parent", "child", "sibling"],
        Want::Constant if is_in_routine(site.tokens, site.at) => &["default"],
        Want::Property if is_attribute(site.tokens, after(site.at, 1)) => &["has"],
        Want::Property => &["name"],
        _ => &[],
    }
}

/// The reserved word that may be meant by a name that is not known, of those that can be there.
pub fn nearest_word(site: Site<'_, '_>, wanted: Want) -> Result<Option<&'static str>, AllocError> {
    near_word(site.alloc, site.token.text, words_for(site, wanted))
}

/// The number of the token of the first routine by whose name `Main` may be meant.
pub fn nearest_main(alloc: Global, tokens: &[Token<'_>]) -> Result<Option<usize>, AllocError> {
    for number in 0..tokens.len() {
        if matches!(defined_at(tokens, number), Some(Definition::Routine))
            && near_word(alloc, text_at(tokens, number), &["main"])?.is_some()
        {
            return Ok(Some(number));
        }
    }
    Ok(None)
}
