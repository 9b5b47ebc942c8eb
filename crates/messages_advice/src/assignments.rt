//! What cannot be assigned (E26), and `break` and `continue` where none may be (E27).

use crate::forms::{Part, told};
use crate::kinds_of_names::{binding_in, definition_of, is_variable, kind_of};
use crate::site::Site;
use checker_values::Table;
use messages_parts::Say::{Do, Nothing};
use messages_parts::{Advice, Context, Spot, Step, rules};
use std::alloc::AllocError;
use syntax::{Kind, Sign, Word};

const COMPARE: &str = ": write '==' to compare";

/// Where a sign changes the name before it, and nothing more.
static CHANGES_LAST: &[Step] = rules! { Last[Is Name] SecondLast[BeginsExpression] => Nothing, };

/// Where a sign steps the name after it, and nothing more.
static CHANGES_NEXT: &[Step] = rules! {
    Here[Sign Increment Decrement] Last[BeginsExpression] Next[Is Name] SecondNext[Sign Semicolon] => Nothing,
};

/// What to write where a sign is not beside a name alone: it steps a part, or assigns. In the
/// parentheses of a condition a comparison may be meant.
static PARTS: &[Step] = rules! {
    Here[Sign Decrement] SecondLast[Sign Dot Arrow LongArrow]
        | Here[Sign Decrement] SecondNext[Sign Dot Arrow LongArrow]
        | Here[Sign Decrement] Last[Sign CloseParenthesis]
        => Do(": write 'bag.p = bag.p - 1', 'a->1 = a->1 - 1'"),
    Here[Sign Increment] SecondLast[Sign Dot Arrow LongArrow]
        | Here[Sign Increment] SecondNext[Sign Dot Arrow LongArrow]
        | Here[Sign Increment] Last[Sign CloseParenthesis]
        => Do(": write 'bag.p = bag.p + 1', 'a->1 = a->1 + 1'"),
    Here[not Sign Assign] => Nothing,
    Here[After Has] => Do(": write 'give lamp lit' to set an attribute, '==' to compare"),
    BeforeOpen[Sign OpenParenthesis, Word If While Until For] => Do(COMPARE),
    => Do(": write one before it"),
};

/// What to write where a sign changes a name that is no variable.
static NAMES: &[Step] = rules! {
    Here[Sign Assign] BeforeOpen[Sign OpenParenthesis, Word If While Until For] => Do(COMPARE),
    Here[Found Constant] => Do(": define it by 'Global' to change it"),
};

/// The text that a table tells; none if it tells nothing.
fn text_of(place: Context<'_, '_>, steps: &'static [Step]) -> &'static str {
    match place.told(steps) {
        Some(Advice::Do(text)) => text,
        _ => "",
    }
}

/// The spot of the name alone that the sign at a place changes.
fn operand(place: Context<'_, '_>) -> Option<Spot> {
    if place.holds(CHANGES_LAST) {
        Some(Spot::Last)
    } else if place.holds(CHANGES_NEXT) {
        Some(Spot::Next)
    } else {
        None
    }
}

/// What is wrong with an assignment or a step by a token.
///
/// # Errors
///
/// `AllocError` where memory is refused.
pub fn not_assignable(site: Site<'_, '_>, table: &Table) -> Result<String, AllocError> {
    let (place, sign) = (site.place(), Part::Quoted(site.token.text));
    let wanted = Part::Text(match site.token.kind {
        Kind::Sign(Sign::Assign) => "a variable, an entry of an array or a property",
        _ => "a variable",
    });
    let Some(spot) = operand(place) else {
        let parts = [sign, wanted, Part::Text(text_of(place, PARTS))];
        return told(site.alloc, "* needs **", &parts);
    };
    let name = place.text(spot);
    match binding_in(site.tokens, site.around(), table, name) {
        Some(binding) if !is_variable(binding) => {
            let instead = text_of(place.finding(definition_of(binding)), NAMES);
            let kind = Part::Text(kind_of(binding));
            let parts = [sign, wanted, Part::Quoted(name), kind, Part::Text(instead)];
            told(site.alloc, "* needs *, but * is **", &parts)
        }
        _ => told(site.alloc, "* needs *", &[sign, wanted]),
    }
}

/// What is wrong with a `break` or a `continue`.
///
/// # Errors
///
/// `AllocError` where memory is refused.
pub fn outside(site: Site<'_, '_>) -> Result<String, AllocError> {
    let sentence = match site.token.kind {
        Kind::Reserved(Word::Break) => {
            "'break' is not inside a loop or a switch: write 'return' to leave a routine"
        }
        _ => "'continue' is not inside a loop: write 'return' to leave a routine",
    };
    String::from_str(site.alloc, sentence)
}
