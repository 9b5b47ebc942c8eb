//! Operators, comparisons and conditions, as items.

ghost use Rattle.std.specs.Prelude.{map, IfOk, OnOk};
ghost use Rattle.meaning.specs.Resolved.{binary, compare, equal};
ghost use Rattle.meaning.specs.Views.{chained, value_of};
ghost use Rattle.code_drafts.specs.Writing.{link_of, more_in, WritesValue};
ghost use Rattle.code_items.specs.ValueWriting.{WritesFolded};
ghost use Rattle.code_items.specs.ValueWriting.{WritesLink};
ghost use Rattle.code_items.specs.ValueWriting.{WritesLinks, WritesComparison, WritesEquality, WritesFirst};

use crate::value::{put_operand, put_operands, put_right, put_value};
use code_drafts::{
    Destination, Draft, Item, Operand, Test, Wanted, alone, are_few, comparison_test,
    comparison_when, equality_when, first_of_and, first_of_or, is_logical, is_pushed, item_count,
    left_of, operation_item, push_alone, push_operands, put, put_branch, put_each_same, put_truth,
    put_word, right_place, side_operands,
};
use meaning::{Value, Variable};
use std::alloc::AllocError;
use syntax_trees::{Binary, Comparison, Equality};

/// Operations that group to the left, from the last one to the first operand.
#[cycle(values)]
#[inline(never)]
pub(crate) fn put_chain<'a>(
    draft: &mut Draft<'a>,
    first: &Value,
    operator: Binary,
    second: &Value,
    links: &[(Binary, Value)],
    wanted: Wanted,
) -> Result<(), AllocError>
    ensures { OnOk result (WritesValue draft.old draft.new wanted
        (chained (binary operator (value_of first.now) (value_of second.now))
        (map link_of links.now))) }
{
    let Ok(wanted) = put_links(draft, links, wanted) else {
        return Err(AllocError);
    };
    let left = left_of(first, second);
    let Ok(wanted) = put_link(draft, second, operator, left, wanted) else {
        return Err(AllocError);
    };
    put_first(draft, first, operator, left, wanted)
}

/// Operations that group to the left, from the last one on: what is then wanted of what stands
/// before them.
#[cycle(values)]
fn put_links<'a>(
    draft: &mut Draft<'a>,
    links: &[(Binary, Value)],
    wanted: Wanted,
) -> Result<Wanted, AllocError>
    ensures { IfOk result (λ rest. WritesLinks draft.old draft.new wanted rest links.now) }
{
    let mut wanted = wanted;
    for done in 0..links.len() {
        let (operator, operand) = &links[links.len() - 1 - done];
        let Ok(before) = put_link(draft, operand, *operator, Operand::Pushed, wanted) else {
            return Err(AllocError);
        };
        wanted = before;
    }
    Ok(wanted)
}

/// An operator and its second operand, where the operand for the first one is known: what is then
/// wanted of the first.
#[cycle(values)]
#[inline(never)]
fn put_link<'a>(
    draft: &mut Draft<'a>,
    second: &Value,
    operator: Binary,
    left: Operand,
    wanted: Wanted,
) -> Result<Wanted, AllocError>
    ensures { IfOk result (λ rest. WritesLink draft.old draft.new
        wanted rest operator left second.now) }
{
    match operator {
        Binary::AndAlso => {
            let Ok((when, target)) = put_truth(draft, wanted) else {
                return Err(AllocError);
            };
            let end = item_count(draft);
            let Ok(()) = put_value(draft, second, Wanted::Branch(when, target)) else {
                return Err(AllocError);
            };
            Ok(first_of_and(when, target, end))
        }
        Binary::OrElse => {
            let Ok((when, target)) = put_truth(draft, wanted) else {
                return Err(AllocError);
            };
            let end = item_count(draft);
            let Ok(()) = put_value(draft, second, Wanted::Branch(when, target)) else {
                return Err(AllocError);
            };
            Ok(first_of_or(when, target, end))
        }
        _ => {
            let Ok(destination) = put_word(draft, wanted) else {
                return Err(AllocError);
            };
            let right = alone(second);
            let place = right_place(operator, left);
            let Ok(()) = put(
                draft,
                operation_item(operator, left, right, place, destination),
            ) else {
                return Err(AllocError);
            };
            let Ok(()) = put_right(draft, second, right, place) else {
                return Err(AllocError);
            };
            Ok(Wanted::Word(Destination::Push))
        }
    }
}

/// The first operand of an operation.
#[cycle(values)]
fn put_first<'a>(
    draft: &mut Draft<'a>,
    first: &Value,
    operator: Binary,
    left: Operand,
    wanted: Wanted,
) -> Result<(), AllocError>
    ensures { OnOk result (WritesFirst draft.old draft.new operator left wanted first.now) }
{
    match left {
        Operand::Pushed => put_value(draft, first, wanted),
        Operand::Number(_) | Operand::Variable(_) => {
            if is_logical(operator) {
                put_value(draft, first, wanted)
            } else {
                Ok(())
            }
        }
    }
}

/// A comparison of two words.
#[cycle(values)]
#[inline(never)]
pub(crate) fn put_compare<'a>(
    draft: &mut Draft<'a>,
    left: &Value,
    right: &Value,
    comparison: Comparison,
    wanted: Wanted,
) -> Result<(), AllocError>
    ensures { OnOk result (WritesValue draft.old draft.new wanted
        (compare comparison (value_of left.now) (value_of right.now))) }
{
    let operand = left_of(left, right);
    let Ok(()) = put_comparison(draft, right, comparison, operand, wanted) else {
        return Err(AllocError);
    };
    put_operand(draft, left, operand)
}

/// A comparison and its right side, where the operand for the left one is known.
#[cycle(values)]
fn put_comparison<'a>(
    draft: &mut Draft<'a>,
    right: &Value,
    comparison: Comparison,
    left: Operand,
    wanted: Wanted,
) -> Result<(), AllocError>
    ensures { OnOk result (WritesComparison draft.old draft.new wanted comparison left right.now) }
{
    let Ok((when, target)) = put_truth(draft, wanted) else {
        return Err(AllocError);
    };
    let operand = alone(right);
    let Ok(operands) = vec![in draft.alloc; left, operand] else {
        return Err(AllocError);
    };
    let test = comparison_test(comparison);
    let when = comparison_when(comparison, when);
    let Ok(()) = put(draft, Item::Branch(test, operands, when, target)) else {
        return Err(AllocError);
    };
    put_operand(draft, right, operand)
}

/// `==` or `~=` with all its right sides.
#[cycle(values)]
#[inline(never)]
pub(crate) fn put_equal<'a>(
    draft: &mut Draft<'a>,
    left: &Value,
    right: &Value,
    others: &[Value],
    equality: Equality,
    wanted: Wanted,
) -> Result<(), AllocError>
    ensures { OnOk result (WritesValue draft.old draft.new wanted
        (equal equality (value_of left.now) (more_in right.now others.now))) }
{
    let (first, second) = side_operands(left, right, others);
    let Ok(()) = put_others(draft, others, equality, (first, second), wanted) else {
        return Err(AllocError);
    };
    let Ok(()) = put_operand(draft, right, second) else {
        return Err(AllocError);
    };
    put_operand(draft, left, first)
}

/// `==` or `~=` with the right sides after the first, where the operands for the left side and the
/// first right side are known.
#[cycle(values)]
#[inline(never)]
fn put_others<'a>(
    draft: &mut Draft<'a>,
    others: &[Value],
    equality: Equality,
    sides: (Operand, Operand),
    wanted: Wanted,
) -> Result<(), AllocError>
    ensures { OnOk result (WritesEquality draft.old draft.new
        wanted equality sides.0 sides.1 others.now) }
{
    let (when, target) = put_truth(draft, wanted)?;
    let when = equality_when(equality, when);
    if are_few(others) {
        let mut operands = vec![in draft.alloc; sides.0, sides.1]?;
        push_operands(&mut operands, others)?;
        put(draft, Item::Branch(Test::Same, operands, when, target))?;
        put_operands(draft, others)
    } else if is_pushed(sides.0) {
        put_branch(draft, Operand::Pushed, when, target)?;
        put(draft, Item::DropBelow)?;
        put_folded(draft, others)?;
        put(draft, Item::FirstEqual)
    } else {
        let mut compared = vec![in draft.alloc; sides.1]?;
        push_alone(&mut compared, others)?;
        put_each_same(draft, sides.0, &compared, when, target)
    }
}

/// Right sides that are folded into a flag one after another.
#[cycle(values)]
#[inline(never)]
fn put_folded<'a>(draft: &mut Draft<'a>, values: &[Value]) -> Result<(), AllocError>
    ensures { OnOk result (WritesFolded draft.old draft.new values.now) }
{
    for done in 0..values.len() {
        let Ok(()) = put(draft, Item::AlsoEqual) else {
            return Err(AllocError);
        };
        let value = &values[values.len() - 1 - done];
        let Ok(()) = put_value(draft, value, Wanted::Word(Destination::Push)) else {
            return Err(AllocError);
        };
    }
    Ok(())
}
