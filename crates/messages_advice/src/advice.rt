//! Advice, and the order in which it is sought.

use crate::definitions::in_definition;
use crate::expressions::{BEFORE_OPERANDS, INDEXES, OPERATORS, PARTS, WORDS_OF_OBJECTS};
use crate::features::{MEANT, NEGATIONS, QUOTES};
use crate::groups::Grouped;
use crate::habits::{FEATURES, HABITS};
use crate::late::{NAMES_BESIDE, NO_DIRECTIVES, OTHERS, VALUES_ALONE};
use crate::loops::{FOR_LOOPS, LATE_LOOPS, OTHER_LOOPS, UNTIL};
use crate::prints::{FORMS, FORMS_OF_ITEMS, ITEMS, ITEMS_BESIDE, WITHOUT_PRINT};
use crate::signs::{COMMENTS, PAIRS};
use crate::statements::{BEGINNINGS, OBJECT_STATEMENTS, WHOLE_STATEMENTS};
use crate::switches::{CASES, COLONS, ELSES, NO_PAIRS, VALUES_OF_CASES};
use messages_parts::{Advice, Context, Want, is_in_routine, wants};
use syntax_lexer::{Sign, Token, Word};

/// What of these kinds is expected.
fn wants_of(wanted: Option<&Grouped>) -> u64 {
    let Some(grouped) = wanted else {
        return 0;
    };
    wants(Want::Until, grouped.is_only_word(Word::Until))
        | wants(Want::Name, grouped.is_only_name())
        | wants(Want::Value, grouped.has_value())
        | wants(Want::Text, grouped.has_text())
        | wants(Want::Operator, grouped.has_operator())
        | wants(Want::Directive, grouped.has_directive())
        | wants(Want::End, grouped.has_alone(Sign::Semicolon))
}

/// What is told of the token at a place and the one before it, if both are signs.
fn of_pair(place: Context<'_, '_>) -> Option<Advice> {
    place.told(PAIRS)
}

/// What is told of two signs side by side that are one in another language: of the token at a place
/// and the one before it or after it.
fn between_signs(place: Context<'_, '_>) -> Option<Advice> {
    if place.holds(NO_PAIRS) {
        None
    } else {
        of_pair(place).or(of_pair(place.next()))
    }
}

/// What is told of a token in a routine.
fn in_routine(place: Context<'_, '_>) -> Option<Advice> {
    between_signs(place).or(place.first_told(&[
        UNTIL,
        FOR_LOOPS,
        OTHER_LOOPS,
        ELSES,
        CASES,
        VALUES_OF_CASES,
        COLONS,
        WITHOUT_PRINT,
        ITEMS,
        FORMS_OF_ITEMS,
        INDEXES,
        WORDS_OF_OBJECTS,
        PARTS,
        OPERATORS,
        BEFORE_OPERANDS,
        WHOLE_STATEMENTS,
        BEGINNINGS,
        OBJECT_STATEMENTS,
    ]))
}

/// The place of the token of a number that does not fit, in the place of which these kinds are
/// expected.
pub fn place_of<'t, 's>(
    source: &'t [u8],
    tokens: &'t [Token<'s>],
    at: usize,
    wanted: Option<&Grouped>,
) -> Context<'t, 's> {
    Context::new(source, tokens, at, wants_of(wanted))
}

/// What is wrong at a token that does not fit, if its form tells.
pub fn advice_at(place: Context<'_, '_>) -> Option<Advice> {
    let told = place
        .first_told(&[NEGATIONS, COMMENTS, QUOTES])
        .or(in_definition(place))
        .or(place.first_told(&[FORMS, FEATURES, HABITS]));
    if told.is_some() {
        return told;
    }
    let told = if is_in_routine(place.tokens, place.at) {
        in_routine(place)
    } else {
        None
    };
    told.or(of_pair(place)).or(place.told(MEANT))
}

/// What is wrong at a token that does not fit, and for which no small change would do.
pub fn late_advice_at(place: Context<'_, '_>) -> Option<Advice> {
    place.first_told(&[
        LATE_LOOPS,
        ITEMS_BESIDE,
        NO_DIRECTIVES,
        NAMES_BESIDE,
        VALUES_ALONE,
        OTHERS,
    ])
}
