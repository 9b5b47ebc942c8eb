//! The likely cause of a token that does not fit.

use crate::attempts::{AT_END, BESIDE, Cause, HELPING, MENDING};
use crate::misspelt::misspelt;
use crate::trials::Trial;
use messages_advice::{advice_at, late_advice_at};
use messages_parts::Context;

/// The most tokens of a source in which signs are tried: more than the weight of a source for
/// version 8 allows.
const MOST_TOKENS: usize = 15_000;

/// What may be the cause of a token that does not fit, the one at a place. Each change costs a parse,
/// so most are not tried in a source of very many tokens.
pub fn likely_cause(trial: &mut Trial<'_, '_>, place: Context<'_, '_>) -> Cause {
    let is_small = trial.tokens.len() <= MOST_TOKENS;
    if is_small && let Some((number, word)) = misspelt(trial, place.at) {
        return Cause::Misspelt(number, word);
    }
    if let Some(advice) = advice_at(place) {
        return Cause::Told(advice);
    }
    match trial.cause_by(place, BESIDE) {
        Some(cause) => cause,
        None => by_changes(trial, place, is_small),
    }
}

/// The cause by what makes a program of the tokens, or gets the parser on.
fn by_changes(trial: &mut Trial<'_, '_>, place: Context<'_, '_>, is_small: bool) -> Cause {
    if is_small && let Some(cause) = trial.cause_by(place, MENDING) {
        return cause;
    }
    if let Some(cause) = trial.cause_by(place, AT_END) {
        return cause;
    }
    match late_advice_at(place) {
        Some(advice) => Cause::Told(advice),
        None if is_small => trial.cause_by(place, HELPING).unwrap_or(Cause::Unknown),
        None => Cause::Unknown,
    }
}
