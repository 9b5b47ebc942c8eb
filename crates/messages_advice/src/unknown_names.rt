//! A name that is not known (E20), and a program without a proper Main (E21).

use crate::forms::{Part, absent, some, told};
use crate::kinds_of_names::kind_of;
use crate::nearest::{nearest, nearest_main, nearest_word};
use crate::rules::{AFTER_WORD, FORMS, HYPHENED, IN_NAMES, WORDS};
use crate::site::Site;
use checker_values::{Binding, Table, find};
use messages_parts::{
    Advice, Context, Spot, Want, after, first_definition, is_sign, line_of, text_at,
};
use std::alloc::{AllocError, Global};
use syntax::{Kind, Sign, Token};

/// How many arrows are from the token of a number on.
fn arrows(tokens: &[Token<'_>], at: usize) -> usize {
    for count in 0..tokens.len() {
        if !is_sign(tokens, after(at, count), Sign::Arrow) {
            return count;
        }
    }
    tokens.len()
}

/// What is wrong with so many arrows without an object to be in.
fn arrow(alloc: Global, count: usize) -> Result<String, AllocError> {
    let form = if count < 2 {
        "this arrow has no object to go into: leave it out, or define that object before"
    } else {
        "these * arrows have no object with * to go into: write fewer arrows"
    };
    let fewer = Part::Counted(count.saturating_sub(1) as u128, "arrow");
    told(alloc, form, &[Part::Figure(count as u128), fewer])
}

/// What is wrong with a name that is defined nowhere, and how it may be defined.
fn undefined_name(alloc: Global, place: Context<'_, '_>) -> Result<String, AllocError> {
    let (form, second, third) = if place.holds(HYPHENED) {
        (
            "unknown name '*': a name has no '-': write '*_*'",
            Spot::Here,
            Spot::SecondNext,
        )
    } else if place.holds(AFTER_WORD) {
        ("unknown name '*': leave '*' out", Spot::Last, Spot::Last)
    } else {
        match place.told(FORMS) {
            Some(Advice::Do(form)) => (form, Spot::Here, Spot::Here),
            _ => ("unknown name '*'", Spot::Here, Spot::Here),
        }
    };
    let name = Part::Cut(place.text(Spot::Here));
    let parts = [
        name,
        Part::Cut(place.text(second)),
        Part::Cut(place.text(third)),
    ];
    told(alloc, form, &parts)
}

/// What is wrong with a name that is defined nowhere.
fn undefined(site: Site<'_, '_>) -> Result<String, AllocError> {
    let alloc = site.alloc;
    let name = Part::Quoted(site.token.text);
    let (place, wanted) = site.wanting(None);
    match place.told(WORDS) {
        Some(Advice::Absent(what, feature)) => absent(alloc, Part::Text(what), feature),
        Some(Advice::Word(_, feature)) => absent(alloc, name, feature),
        Some(Advice::Do(instead)) => told(alloc, "unknown name *: *", &[name, Part::Text(instead)]),
        _ if place.holds(IN_NAMES) => undefined_name(alloc, place),
        _ => misspelt(site, place, wanted),
    }
}

/// What is wrong with a name that is defined nowhere, and may be a word or another name misspelt.
fn misspelt(
    site: Site<'_, '_>,
    place: Context<'_, '_>,
    wanted: Want,
) -> Result<String, AllocError> {
    let meant = match nearest_word(site, wanted)? {
        Some(word) => Some(word.as_bytes()),
        None => nearest(site, wanted)?,
    };
    match meant {
        Some(meant) => {
            let parts = [Part::Quoted(site.token.text), Part::Quoted(meant)];
            told(site.alloc, "unknown name *; did you mean *?", &parts)
        }
        None => undefined_name(site.alloc, place),
    }
}

/// What is wrong with a token that is no known name.
///
/// # Errors
///
/// `AllocError` where memory is refused.
pub fn unknown(site: Site<'_, '_>) -> Result<String, AllocError> {
    let Kind::Name(_) = site.token.kind else {
        return arrow(site.alloc, arrows(site.tokens, site.at));
    };
    let (form, line) = match first_definition(site.tokens, site.token.text) {
        None => return undefined(site),
        Some(defined) if defined > site.at => (
            "* is defined in line *, but must be defined before its use here",
            line_of(site.tokens, defined),
        ),
        Some(_) => ("* cannot be used in its own definition", 0),
    };
    told(
        site.alloc,
        form,
        &[Part::Quoted(site.token.text), Part::Number(line)],
    )
}

/// What is wrong with a program that has no Main.
fn without_main(alloc: Global, tokens: &[Token<'_>]) -> Result<String, AllocError> {
    let (form, number) = match nearest_main(alloc, tokens)? {
        Some(number) => (
            "there is no routine Main; did you mean it by * in line *?",
            number,
        ),
        None => (
            "there is no routine Main, with which a story begins: write '[ Main; .. ];'",
            0,
        ),
    };
    let parts = [
        Part::Quoted(text_at(tokens, number)),
        Part::Number(line_of(tokens, number)),
    ];
    told(alloc, form, &parts)
}

/// What is wrong with Main. `None` where nothing is.
///
/// # Errors
///
/// `AllocError` where memory is refused.
pub fn no_main(site: Site<'_, '_>, table: &Table) -> Result<Option<String>, AllocError> {
    let (form, part) = match find(table, b"main") {
        None => return some(without_main(site.alloc, site.tokens)),
        Some(Binding::Routine(_, 0)) => return Ok(None),
        Some(Binding::Routine(_, count)) => (
            "Main has *; it may have none: write globals, or a routine that Main calls",
            Part::Counted(count as u128, "local"),
        ),
        Some(other) => (
            "Main is *; it must be a routine",
            Part::Text(kind_of(other)),
        ),
    };
    some(told(site.alloc, form, &[part]))
}
