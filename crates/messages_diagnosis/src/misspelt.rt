//! Reserved words that may be misspelt as names.

use crate::attempts::Put;
use crate::trials::Trial;
use messages_advice::RESERVED_WORDS;
use messages_parts::{
    MOST_EDITS, before, in_small_letters, is_habit, is_near, is_unknown, start_of, text_at,
};
use strsim::generic_levenshtein;
use syntax::Word;

/// How many tokens before one that does not fit may be misspelt, at most.
const MOST_BEFORE: usize = 12;

/// The reserved words with their bytes. A function of its own: a loop that names the table itself has a
/// long proof.
fn reserved_words() -> &'static [(Word, &'static str)] {
    &RESERVED_WORDS
}

/// The reserved word with which the tokens are a program in the place of the token of a number,
/// among those with so many edits to its name.
fn word_at_distance(
    trial: &mut Trial<'_, '_>,
    number: usize,
    name: &[u8],
    distance: usize,
) -> Option<Word> {
    for row in reserved_words() {
        let word = row.0;
        let written = row.1.as_bytes();
        let Ok(edits) = generic_levenshtein(trial.alloc, name, written) else {
            trial.is_refused = true;
            return None;
        };
        if edits == distance
            && is_near(name, edits, written)
            && trial.reach(number, number.saturating_add(1), Put::Word(word)) == usize::MAX
        {
            return Some(word);
        }
    }
    None
}

/// The reserved word that the token of a number may be meant as, the nearest to its name: a name that
/// is defined nowhere, and no word of another language.
fn meant_at(trial: &mut Trial<'_, '_>, number: usize) -> Option<Word> {
    if !is_unknown(trial.tokens, number) || is_habit(text_at(trial.tokens, number)) {
        return None;
    }
    let Ok(name) = in_small_letters(trial.alloc, text_at(trial.tokens, number)) else {
        trial.is_refused = true;
        return None;
    };
    for distance in 1..=MOST_EDITS {
        let word = word_at_distance(trial, number, &name, distance);
        if word.is_some() {
            return word;
        }
    }
    None
}

/// The number of the token that may be a misspelt reserved word, and that word: in the statement of
/// the token of a number, which does not fit, the last with which the tokens are a program, or the
/// first of the statement.
pub fn misspelt(trial: &mut Trial<'_, '_>, number: usize) -> Option<(usize, Word)> {
    let start = start_of(trial.tokens, number);
    for count in 0..MOST_BEFORE {
        let place = before(number, count);
        if place < start || place > number {
            return None;
        }
        if let Some(word) = meant_at(trial, place) {
            return Some((place, word));
        }
    }
    match meant_at(trial, start) {
        Some(word) => Some((start, word)),
        None => None,
    }
}
