//! How many temporaries one expression needs, or several as operands of one form.
//!
//! Whether so many are enough is known of an expression. So the number so far is raised until it is
//! enough, where the expression is wanted: all of a program together raise it so many times at most
//! as are told.

ghost use Rattle.std.specs.Prelude.{◌≡◌, ◌&&◌, [], ◌∷◌, nat_le};
ghost use Rattle.syntax_trees.specs.Views.{expression_tree};
ghost use Rattle.syntax_statements.specs.PartViews.{heading_tree};
ghost use Rattle.checker_values.specs.Temporaries.{need};
ghost use Rattle.checker_statements.specs.Statements.{move_need};
ghost use Rattle.checker_statements.specs.Walk.{need_of_heading};
ghost use Rattle.messages_diagnosis.specs.Walk.{raised_all, up_to};

use crate::sought::{Sought, least_of, raise, wants};
use checker_statements::{fits_in, room_after};
use checker_values::{both_fit, fits};
use syntax_lexer::Position;
use syntax_statements::Heading;
use syntax_trees::Expression;

// The number, raised to what an expression needs, and as far as is told.
#[tactic(auto, using(crate::proofs::Raising::more, crate::proofs::Raising::enough, crate::proofs::Raising::full))]
fn whole_need(e: &Expression<'_>, least: u8, most: u8) -> u8
    ensures { result ≡ up_to most least (need (expression_tree e.now)) }
{
    let mut number = least;
    while number < most && !fits(e, number) {
        number += 1;
    }
    number
}

// The number, raised to what the operands of a `move` need.
#[tactic(auto, using(crate::proofs::Raising::more, crate::proofs::Raising::enough, crate::proofs::Raising::full))]
fn move_need(object: &Expression<'_>, parent: &Expression<'_>, least: u8, most: u8) -> u8
    ensures { result ≡ up_to most least
        (move_need (expression_tree object.now) (expression_tree parent.now)) }
{
    let mut number = least;
    while number < most && !both_fit(object, parent, number) {
        number += 1;
    }
    number
}

fn all_four(first: bool, second: bool, third: bool, fourth: bool) -> bool
    ensures { result ≡ (first && (second && (third && fourth))) }
{
    first && second && third && fourth
}

// Whether the parts of a `for` that are there need at most so many, one at least.
fn heading_fits(heading: &Heading<'_>, room: u8) -> bool
    ensures { result ≡ nat_le (need_of_heading (heading_tree heading.now)) room }
{
    let second = room_after(&heading.before, room);
    let third = room_after(&heading.test, second);
    let first_fits = fits_in(&heading.before, room);
    let second_fits = fits_in(&heading.test, second);
    let third_fits = fits_in(&heading.after, third);
    let has_room = room >= 1;
    all_four(has_room, first_fits, second_fits, third_fits)
}

// The number, raised to what the parts of a `for` need.
#[tactic(auto, using(crate::proofs::Raising::more, crate::proofs::Raising::enough, crate::proofs::Raising::full))]
fn heading_need(heading: &Heading<'_>, least: u8, most: u8) -> u8
    ensures { result ≡ up_to most least (need_of_heading (heading_tree heading.now)) }
{
    let mut number = least;
    while number < most && !heading_fits(heading, number) {
        number += 1;
    }
    number
}

/// An expression of what begins at this position.
#[tactic(auto, using(crate::proofs::Raising::raised_once, crate::proofs::Raising::passed_over))]
pub fn whole(e: &Expression<'_>, position: Position, sought: &mut Sought)
    ensures { sought.new ≡ raised_all sought.old
        ((position, need (expression_tree e.now)) ∷ []) }
{
    if wants(position, sought) {
        let number = whole_need(e, least_of(sought), sought.most);
        raise(position, number, sought);
    }
}

/// The operands of a `move` that begins there.
#[tactic(auto, using(crate::proofs::Raising::raised_once, crate::proofs::Raising::passed_over))]
pub fn of_move(
    object: &Expression<'_>,
    parent: &Expression<'_>,
    position: Position,
    sought: &mut Sought,
)
    ensures { sought.new ≡ raised_all sought.old
        ((position, move_need (expression_tree object.now) (expression_tree parent.now)) ∷ []) }
{
    if wants(position, sought) {
        let number = move_need(object, parent, least_of(sought), sought.most);
        raise(position, number, sought);
    }
}

/// The parts of a `for` that begins there.
#[tactic(auto, using(crate::proofs::Raising::raised_once, crate::proofs::Raising::passed_over))]
pub fn of_heading(heading: &Heading<'_>, position: Position, sought: &mut Sought)
    ensures { sought.new ≡ raised_all sought.old
        ((position, need_of_heading (heading_tree heading.now)) ∷ []) }
{
    if wants(position, sought) {
        let number = heading_need(heading, least_of(sought), sought.most);
        raise(position, number, sought);
    }
}
