//! The parts of a `for`: the rules that they can break, and what they resolve to.

ghost use Rattle.std.specs.Prelude.{◌≡◌, ◌&&◌, IfOk, nat_le};
ghost use Rattle.std.specs.Option.{option_map};
ghost use Rattle.syntax_statements.specs.PartViews.{part_tree, heading_tree};
ghost use Rattle.meaning.specs.Views.{boxed_value};
ghost use Rattle.meaning.specs.Limits.{most_temporaries};
ghost use Rattle.checker_values.specs.Noted.{noted};
ghost use Rattle.checker_values.specs.Scope.{seen_in};
ghost use Rattle.checker_statements.specs.Statements as spec;
ghost use Rattle.checker_statements.specs.Walk.{need_of_heading};
ghost use Rattle.checker_statements.specs.Walk.{part_fits, room_after, IsPart, IsHeading};
ghost use Rattle.checker_statements.specs.Walk.{parts_of};

use checker_values::{Scope, Tally, boxed_expression, fits, note};
use meaning::Value;
use meaning::limits::MOST_TEMPORARIES;
use std::alloc::{AllocError, Global};
use syntax_lexer::{EXPRESSION_TOO_LARGE, Position};
use syntax_statements::Heading;
use syntax_trees::Expression;

/// Whether a part of a `for` needs at most so many temporaries.
pub fn fits_in<'a>(part: &Option<Box<Expression<'a>>>, room: u8) -> bool
    ensures { result ≡ part_fits (part_tree part.now) room }
{
    match part {
        None => true,
        Some(e) => fits(e, room),
    }
}

/// How many are left for the parts after it.
pub fn room_after<'a>(part: &Option<Box<Expression<'a>>>, room: u8) -> u8
    ensures { result ≡ room_after (part_tree part.now) room }
{
    match part {
        None => room,
        Some(_) => room.saturating_sub(1),
    }
}

fn all_three(first: bool, second: bool, third: bool) -> bool
    ensures { result ≡ (first && (second && third)) }
{
    first && second && third
}

// Whether the parts, as operands of one form, need at most 48 temporaries.
fn all_fit<'a>(heading: &Heading<'a>) -> bool
    ensures { result ≡ nat_le (need_of_heading (heading_tree heading.now))
        most_temporaries }
{
    let second = room_after(&heading.before, MOST_TEMPORARIES);
    let third = room_after(&heading.test, second);
    let first_fits = fits_in(&heading.before, MOST_TEMPORARIES);
    let second_fits = fits_in(&heading.test, second);
    let third_fits = fits_in(&heading.after, third);
    all_three(first_fits, second_fits, third_fits)
}

#[tactic(auto, using(checker_values::proofs::Noted::noted_none, checker_values::proofs::Needs::fits_not))]
fn temporaries<'a>(heading: &Heading<'a>, position: Position, tally: &mut Tally)
    ensures { tally.new ≡ noted tally.old
        (spec.room_breaches position (need_of_heading (heading_tree heading.now))) }
{
    if !all_fit(heading) {
        note(tally, EXPRESSION_TOO_LARGE, position);
    }
}

#[tactic(auto, using(checker_values::proofs::Noted::noted_none))]
fn part<'a>(
    given: &Option<Box<Expression<'a>>>,
    alloc: Global,
    scope: &Scope<'_>,
    tally: &mut Tally,
) -> Result<Option<Box<Value>>, AllocError>
    ensures { IfOk result (λ v. IsPart (seen_in scope.now) (part_tree given.now)
        tally.old tally.new (option_map boxed_value v)) }
{
    match given {
        None => Ok(None),
        Some(e) => {
            let Ok(value) = boxed_expression(e, alloc, scope, tally) else {
                return Err(AllocError);
            };
            Ok(Some(value))
        }
    }
}

/// The parts of a `for` that begins at this position.
///
/// # Errors
///
/// `AllocError` where memory is refused.
pub fn resolved_heading<'a>(
    given: &Heading<'a>,
    alloc: Global,
    scope: &Scope<'_>,
    position: Position,
    tally: &mut Tally,
) -> Result<(Option<Box<Value>>, Option<Box<Value>>, Option<Box<Value>>), AllocError>
    ensures { IfOk result (λ x. IsHeading (seen_in scope.now) position (heading_tree given.now)
        tally.old tally.new (parts_of x)) }
{
    temporaries(given, position, tally);
    let Ok(before) = part(&given.before, alloc, scope, tally) else {
        return Err(AllocError);
    };
    let Ok(test) = part(&given.test, alloc, scope, tally) else {
        drop(before);
        return Err(AllocError);
    };
    let Ok(after) = part(&given.after, alloc, scope, tally) else {
        drop(before);
        drop(test);
        return Err(AllocError);
    };
    Ok((before, test, after))
}
