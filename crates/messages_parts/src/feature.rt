//! A feature, how it is found by a name, and how its absence is said.

use crate::bytes::{Bytes, Style};
use crate::habits::{
    ACTIONS, CONDITIONS_AND_LOOPS, DEFINITIONS, OPERANDS, OPERATORS, OTHERS, WHEN,
};
use crate::table::{DIRECTIVES, IN_EXPRESSIONS, OTHER_FEATURES};
use std::fmt::{self, Display, Formatter};

/// A feature of Inform 6, or one that authors expect there, that is not in this language.
pub struct Feature {
    /// What to do here: `leave it out`, or words that begin with `write`. Code is between backquotes.
    pub instead: &'static str,

    /// The names by which it is recognized, in small letters and with a space between two of them.
    pub(crate) names: &'static str,
}

/// A feature: how it is written in Inform 6, what to write instead, the section of docs/DIFFERENCES.md that says more,
/// and the names. What is missing and the section are only for the tables there.
macro_rules! feature {
    ($missing:literal => "nothing" $(in $section:literal)? $(; $names:literal)?) => {
        &Feature { instead: "leave it out", names: concat!("" $(, $names)?) }
    };
    ($missing:literal => $instead:literal $(in $section:literal)? $(; $names:literal)?) => {
        &Feature { instead: concat!("write ", $instead), names: concat!("" $(, $names)?) }
    };
}

pub(crate) use feature;

/// That something is not in this language, and what to write instead: `'random' is not in this
/// language: write a routine of your own`.
#[derive(Clone, Copy)]
pub struct Absent<N>(pub N, pub &'static Feature);

impl<N: Display> Display for Absent<N> {
    fn fmt<W: fmt::Write>(&self, f: &mut Formatter<W>) -> fmt::Result {
        let instead = Bytes(Style::Text, self.1.instead.as_bytes());
        write!(f, "{} is not in this language: {instead}", self.0)
    }
}

/// Whether a word is one of some names, with a space between two of them, in capital or small letters.
pub fn is_one_of(word: &[u8], names: &str) -> bool {
    for name in names.split(' ') {
        if name.as_bytes().eq_ignore_ascii_case(word) {
            return true;
        }
    }
    false
}

/// The first feature of a list that has a name, in capital or small letters.
fn find(features: &[&'static Feature], text: &[u8]) -> Option<&'static Feature> {
    for feature in features {
        if is_one_of(text, feature.names) {
            return Some(*feature);
        }
    }
    None
}

/// The feature that is recognized by the name of a directive, in capital or small letters.
pub fn named_as_directive(text: &[u8]) -> Option<&'static Feature> {
    find(&DIRECTIVES, text)
}

/// The feature that is recognized by a name in an expression, in capital or small letters.
pub fn named_in_expression(text: &[u8]) -> Option<&'static Feature> {
    find(&IN_EXPRESSIONS, text)
}

/// The feature that is recognized by a name, in capital or small letters.
pub fn named(text: &[u8]) -> Option<&'static Feature> {
    named_as_directive(text)
        .or(named_in_expression(text))
        .or(find(&OTHER_FEATURES, text))
}

/// What to write instead of a word at the beginning of a condition, a loop or a block.
fn habit_before_condition(text: &[u8]) -> Option<&'static Feature> {
    find(&CONDITIONS_AND_LOOPS, text)
}

/// What to write instead of a word at the beginning of a definition, or of a statement that prints, reads, ends or
/// calls.
fn habit_before_definition(text: &[u8]) -> Option<&'static Feature> {
    find(&DEFINITIONS, text).or(find(&ACTIONS, text))
}

/// What to write instead of a word of another language at the beginning of a statement or a
/// definition, in capital or small letters.
pub fn habit_at_beginning(text: &[u8]) -> Option<&'static Feature> {
    habit_before_condition(text)
        .or(habit_before_definition(text))
        .or(find(&OTHERS, text))
}

/// What to write instead of a word of another language between operands, in capital or small
/// letters.
pub fn habit_between(text: &[u8]) -> Option<&'static Feature> {
    find(&OPERATORS, text)
}

/// What to write instead of a word of another language that is read as a name, in capital or small
/// letters.
pub fn habit_as_name(text: &[u8]) -> Option<&'static Feature> {
    habit_as_operand(text)
        .or(find(&[WHEN], text))
        .or(find(&ACTIONS, text))
}

/// Whether a word is one of another language, or names a feature.
pub fn is_habit(text: &[u8]) -> bool {
    habit_as_name(text)
        .or(habit_between(text))
        .or(habit_at_beginning(text))
        .or(named(text))
        .is_some()
}

/// What to write instead of a word of another language in the place of an operand, in capital or
/// small letters.
pub fn habit_as_operand(text: &[u8]) -> Option<&'static Feature> {
    find(&OPERANDS, text)
}
