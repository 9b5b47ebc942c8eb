//! How many temporaries an expression needs.

ghost use Rattle.std.specs.Prelude.{◌≡◌, ◌-◌, ◌++◌, ◌∷◌, ℕ, [], nat_le, length, map};
ghost use Rattle.syntax_trees.specs.Views.{expression_tree, trees_of};
ghost use Rattle.meaning.specs.Limits.{operands};
ghost use Rattle.checker_values.specs.Temporaries.{need, needs, greatest, left_needs};

use syntax_trees::{Binary, Expression};

// How many operands the left side of an assignment is.
fn left_operands(e: &Expression<'_>) -> u8
    ensures { (own : ℕ) → result ≡ length (left_needs (expression_tree e.now) own) }
{
    match e {
        Expression::Named(_) => 0,
        Expression::Parenthesised(inside) => left_operands(inside),
        Expression::PropertyEntry(_, _, _) => 2,
        Expression::Constant(_) => 1,
        Expression::Word(_) => 1,
        Expression::Call(_, _) => 1,
        Expression::Index(_, _, _) => 1,
        Expression::RelativeOf(_, _) => 1,
        Expression::Property(_, _, _) => 1,
        Expression::PropertyLength(_, _) => 1,
        Expression::Prefixed(_, _) => 1,
        Expression::StepBefore(_, _, _) => 1,
        Expression::StepAfter(_, _, _) => 1,
        Expression::Chain(_, _, _, _) => 1,
        Expression::Compare(_, _, _) => 1,
        Expression::Equal(_, _, _, _) => 1,
        Expression::Contained(_, _, _) => 1,
        Expression::Tested(_, _, _) => 1,
        Expression::Assign(_, _, _) => 1,
    }
}

/// Whether an expression needs at most `room` temporaries.
#[cycle(fits)]
pub fn fits(expression: &Expression<'_>, room: u8) -> bool
    ensures { result ≡ nat_le (need (expression_tree expression.now)) room }
{
    match expression {
        Expression::Constant(_) => room >= 1,
        Expression::Word(_) => room >= 1,
        Expression::Named(_) => room >= 1,
        Expression::Call(_, arguments) => operands_fit(arguments, 0, room),
        Expression::Index(_, _, index) => fits(index, room),
        Expression::Parenthesised(inside) => fits(inside, room),
        Expression::RelativeOf(_, object) => fits(object, room),
        Expression::Property(object, _, _) => fits(object, room),
        Expression::PropertyLength(object, _) => fits(object, room),
        Expression::PropertyEntry(object, _, index) => both_fit(object, index, room),
        Expression::Prefixed(_, operand) => fits(operand, room),
        Expression::StepBefore(_, _, operand) => fits(operand, room),
        Expression::StepAfter(operand, _, _) => fits(operand, room),
        Expression::Chain(first, _, second, links) => {
            both_fit(first, second, room) && links_fit(links, room)
        }
        Expression::Compare(left, _, right) => both_fit(left, right, room),
        Expression::Equal(left, _, right, others) => {
            both_fit(left, right, room) && operands_fit(others, 2, room)
        }
        Expression::Contained(left, _, right) => both_fit(left, right, room),
        Expression::Tested(object, _, _) => fits(object, room),
        Expression::Assign(left, _, right) => assignment_fits(left, right, room),
    }
}

/// Whether two operands of one form need at most `room` temporaries.
#[cycle(fits)]
pub fn both_fit(first: &Expression<'_>, second: &Expression<'_>, room: u8) -> bool
    ensures { result ≡ nat_le (operands 0
        (need (expression_tree first.now) ∷ need (expression_tree second.now) ∷ [])) room }
{
    fits(first, room) && fits(second, room.saturating_sub(1))
}

// The sides of an assignment.
#[cycle(fits)]
fn assignment_fits(left: &Expression<'_>, right: &Expression<'_>, room: u8) -> bool
    ensures { result ≡ nat_le (operands 0
        (left_needs (expression_tree left.now) (need (expression_tree left.now))
        ++ need (expression_tree right.now) ∷ [])) room }
{
    let before = left_operands(left);
    if before == 0 {
        fits(right, room)
    } else {
        fits(left, room) && fits(right, room.saturating_sub(before))
    }
}

// Operands after so many others.
#[cycle(fits)]
fn operands_fit(given: &[Expression<'_>], before: u8, room: u8) -> bool
    ensures { result ≡ nat_le (operands before
        (needs (trees_of (map expression_tree given.now)))) room }
{
    let mut left = room.saturating_sub(before);
    for operand in given {
        if left == 0 || !fits(operand, left) {
            return false;
        }
        left -= 1;
    }
    room >= 1
}

// The operands that follow the first in a chain.
#[cycle(fits)]
fn links_fit(links: &[(Binary, Expression<'_>)], room: u8) -> bool
    ensures { result ≡ nat_le (greatest (map (λ l. need (expression_tree l.1)) links.now))
        (room - 1) }
{
    for link in links {
        if !fits(&link.1, room.saturating_sub(1)) {
            return false;
        }
    }
    true
}
