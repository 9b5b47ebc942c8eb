//! Parts of expressions that hold no expression.

ghost use Rattle.std.specs.Prelude.{◌≡◌, true, false, if◌then◌else◌, IfOk, OnOk};
ghost use Rattle.meaning.specs.Resolved as source;
ghost use Rattle.meaning.specs.Meaning.{is_true};
ghost use Rattle.code_drafts.specs.Items as items;
ghost use Rattle.code_drafts.specs.Code.{as_destination, as_operand, as_operands, as_test, item_of};
ghost use Rattle.code_drafts.specs.declared.wanted.Wanted.TheVariants.{Branch};
ghost use Rattle.code_drafts.specs.Writing.{is_logical, WritesValue, WritesWord, WritesTruth};
ghost use Rattle.code_drafts.specs.Writing.{WritesChoice, WritesMoved};

use crate::draft::{Draft, item_count, put, put_branch};
use crate::item::{Destination, Item, Operand, Test};
use crate::operand::{is_any_pushed, is_pushed};
use crate::wanted::Wanted;
use meaning::Variable;
use std::alloc::AllocError;
use syntax_trees::{Binary, Comparison, Containment, Equality, Step, Width};

/// What follows an expression that has a word: a branch by it, if that is wanted. Where the word is
/// to go.
#[tactic(auto, using(crate::proofs::Reductions::word_wanted, crate::proofs::Reductions::word_branches))]
pub fn put_word(draft: &mut Draft<'_>, wanted: Wanted) -> Result<Destination, AllocError>
    ensures { IfOk result (λ destination. WritesWord draft.old draft.new wanted destination) }
{
    match wanted {
        Wanted::Word(destination) => Ok(destination),
        Wanted::Branch(when, left) => {
            let Ok(()) = put_branch(draft, Operand::Pushed, when, left) else {
                return Err(AllocError);
            };
            Ok(Destination::Push)
        }
    }
}

/// What follows a condition: 0, and 1 after it, if a word is wanted. Where the condition is to
/// branch: whether where it is true, and how many items are left there.
#[inline(never)]
#[tactic(auto, using(crate::proofs::Reductions::truth_wanted, crate::proofs::Reductions::truth_nowhere, crate::proofs::Reductions::truth_pushed, crate::proofs::Reductions::truth_kept, crate::proofs::Reductions::truth_aside))]
pub fn put_truth(draft: &mut Draft<'_>, wanted: Wanted) -> Result<(bool, usize), AllocError>
    ensures { IfOk result (λ truth. WritesTruth draft.old draft.new wanted truth.0 truth.1) }
{
    match wanted {
        Wanted::Branch(when, left) => Ok((when, left)),
        Wanted::Word(Destination::Nowhere) => {
            let end = item_count(draft);
            Ok((true, end))
        }
        Wanted::Word(Destination::Push) => {
            let Ok(left) = put_choice(draft, Destination::Push) else {
                return Err(AllocError);
            };
            Ok((true, left))
        }
        Wanted::Word(Destination::Into(variable)) => {
            let Ok(left) = put_choice(draft, Destination::Into(variable)) else {
                return Err(AllocError);
            };
            Ok((true, left))
        }
        Wanted::Word(Destination::Aside) => {
            let Ok(left) = put_choice(draft, Destination::Aside) else {
                return Err(AllocError);
            };
            Ok((true, left))
        }
    }
}

/// 0, and 1 after it: how many items are left at the 1.
#[tactic(auto, using(crate::proofs::Reductions::chosen))]
fn put_choice(draft: &mut Draft<'_>, destination: Destination) -> Result<usize, AllocError>
    ensures { IfOk result (λ left. WritesChoice draft.old draft.new destination left) }
{
    let end = item_count(draft);
    let Ok(()) = put(draft, Item::Move(Operand::Number(1), destination)) else {
        return Err(AllocError);
    };
    let left = item_count(draft);
    let Ok(()) = put(draft, Item::Jump(end)) else {
        return Err(AllocError);
    };
    let Ok(()) = put(draft, Item::Move(Operand::Number(0), destination)) else {
        return Err(AllocError);
    };
    Ok(left)
}

#[inline(never)]
pub fn put_number(draft: &mut Draft<'_>, number: u16, wanted: Wanted) -> Result<(), AllocError>
    ensures { OnOk result (WritesValue draft.old draft.new wanted (source.number number)) }
{
    match wanted {
        Wanted::Word(destination) => {
            let Ok(()) = put_moved(draft, Operand::Number(number), destination) else {
                return Err(AllocError);
            };
        }
        Wanted::Branch(when, left) => {
            if is_known(number, when) {
                let Ok(()) = put(draft, Item::Jump(left)) else {
                    return Err(AllocError);
                };
            }
        }
    }
    Ok(())
}

/// Whether a number, as a condition, is as is wanted.
fn is_known(number: u16, when: bool) -> bool
    ensures { result ≡ items.agrees (is_true number) when }
{
    if number == 0 { !when } else { when }
}

#[inline(never)]
pub fn put_read(draft: &mut Draft<'_>, variable: Variable, wanted: Wanted) -> Result<(), AllocError>
    ensures { OnOk result (WritesValue draft.old draft.new wanted (source.read variable)) }
{
    match wanted {
        Wanted::Word(destination) => {
            let Ok(()) = put_moved(draft, Operand::Variable(variable), destination) else {
                return Err(AllocError);
            };
        }
        Wanted::Branch(when, left) => {
            let Ok(()) = put_branch(draft, Operand::Variable(variable), when, left) else {
                return Err(AllocError);
            };
        }
    }
    Ok(())
}

/// An operand that stands in place goes to a destination.
fn put_moved(
    draft: &mut Draft<'_>,
    operand: Operand,
    destination: Destination,
) -> Result<(), AllocError>
    ensures { OnOk result (WritesMoved draft.old draft.new operand destination) }
{
    match destination {
        Destination::Nowhere => Ok(()),
        _ => put(draft, Item::Move(operand, destination)),
    }
}

/// A variable is stepped, and its new word goes on.
#[inline(never)]
#[tactic(auto, using(crate::proofs::Reductions::step_more))]
pub fn put_step_before(
    draft: &mut Draft<'_>,
    variable: Variable,
    step: Step,
    wanted: Wanted,
) -> Result<(), AllocError>
    ensures { OnOk result (WritesValue draft.old draft.new wanted
        (source.step_before step variable)) }
{
    let Ok(destination) = put_word(draft, wanted) else {
        return Err(AllocError);
    };
    let Ok(()) = put(draft, Item::Step(step, variable, destination)) else {
        return Err(AllocError);
    };
    Ok(())
}

/// A variable is stepped, and its old word goes on.
#[inline(never)]
pub fn put_step_after(
    draft: &mut Draft<'_>,
    variable: Variable,
    step: Step,
    wanted: Wanted,
) -> Result<(), AllocError>
    ensures { OnOk result (WritesValue draft.old draft.new wanted
        (source.step_after variable step)) }
{
    match put_word(draft, wanted)? {
        Destination::Nowhere => {
            put(draft, Item::Step(step, variable, Destination::Nowhere))?;
        }
        Destination::Push => {
            put(draft, Item::Step(step, variable, Destination::Nowhere))?;
            put(
                draft,
                Item::Move(Operand::Variable(variable), Destination::Push),
            )?;
        }
        Destination::Into(other) => {
            put(draft, Item::Move(Operand::Pushed, Destination::Into(other)))?;
            put(draft, Item::Step(step, variable, Destination::Nowhere))?;
            put(
                draft,
                Item::Move(Operand::Variable(variable), Destination::Push),
            )?;
        }
        Destination::Aside => {
            put(draft, Item::Move(Operand::Pushed, Destination::Aside))?;
            put(draft, Item::Step(step, variable, Destination::Nowhere))?;
            put(
                draft,
                Item::Move(Operand::Variable(variable), Destination::Push),
            )?;
        }
    }
    Ok(())
}

/// What is wanted of the first operand of `&&`, whose second one is to branch to `target` and
/// stands before `end`: where the first is false it decides.
pub fn first_of_and(when: bool, target: usize, end: usize) -> Wanted
    ensures { result ≡ Branch false (if when then end else target) }
{
    Wanted::Branch(false, if when { end } else { target })
}

/// What is wanted of the first operand of `||`: where it is true it decides.
pub fn first_of_or(when: bool, target: usize, end: usize) -> Wanted
    ensures { result ≡ Branch true (if when then target else end) }
{
    Wanted::Branch(true, if when { target } else { end })
}

/// Whether an operator is `&&` or `||`.
pub fn is_logical(operator: Binary) -> bool
    ensures { result ≡ is_logical operator }
{
    matches!(operator, Binary::AndAlso | Binary::OrElse)
}

/// Where the right operand of an operator goes that does not stand in place: aside, where it would
/// have to be taken from the stack first, since the left one stands below it there, or since it is
/// tested as a divisor.
pub fn right_place(operator: Binary, left: Operand) -> Destination
    ensures { as_destination result ≡ items.right_place operator (as_operand left) }
{
    match operator {
        Binary::Subtract => match left {
            Operand::Pushed => Destination::Aside,
            Operand::Number(_) | Operand::Variable(_) => Destination::Push,
        },
        Binary::Divide | Binary::Remainder => Destination::Aside,
        _ => Destination::Push,
    }
}

/// An operation, where a right operand that does not stand in place went to `place`.
pub fn operation_item<'a>(
    operator: Binary,
    left: Operand,
    right: Operand,
    place: Destination,
    destination: Destination,
) -> Item<'a>
    ensures { item_of result ≡ items.operation_item (as_destination place) operator (as_operand left)
        (as_operand right) (as_destination destination) }
{
    match place {
        Destination::Aside => match right {
            Operand::Pushed => Item::OperateAside(operator, left, destination),
            Operand::Number(_) | Operand::Variable(_) => {
                Item::Operate(operator, left, right, destination)
            }
        },
        Destination::Push | Destination::Into(_) | Destination::Nowhere => {
            Item::Operate(operator, left, right, destination)
        }
    }
}

/// Where an argument goes that does not stand in place, where there are several of those, and where
/// one of those stands after it: the last of several goes aside.
pub fn argument_place(several: bool, after: bool) -> Destination
    ensures { as_destination result ≡ items.argument_place several after }
{
    if several && !after {
        Destination::Aside
    } else {
        Destination::Push
    }
}

/// A call, where there are several of those.
pub fn call_item<'a>(
    routine: usize,
    operands: Vec<Operand>,
    several: bool,
    destination: Destination,
) -> Item<'a>
    ensures { item_of result ≡ items.call_item several routine (as_operands operands.items)
        (as_destination destination) }
{
    if several {
        Item::CallAside(routine, operands, destination)
    } else {
        Item::Call(routine, operands, destination)
    }
}

/// An entry that is read, where an index that does not stand in place went aside.
pub fn entry_item<'a>(
    width: Width,
    array: usize,
    index: Operand,
    destination: Destination,
) -> Item<'a>
    ensures { item_of result ≡ items.entry_item width array (as_operand index)
        (as_destination destination) }
{
    match index {
        Operand::Pushed => Item::EntryAside(width, array, destination),
        Operand::Number(_) | Operand::Variable(_) => Item::Entry(width, array, index, destination),
    }
}

/// Where the index of an entry goes that does not stand in place, by the word that is assigned:
/// aside, if that stands in place, since the last of both goes there.
pub fn index_place(word: Operand) -> Destination
    ensures { as_destination result ≡ items.index_place (as_operand word) }
{
    argument_place(true, is_pushed(word))
}

/// An entry that is assigned, where the last of index and word that does not stand in place went
/// aside.
pub fn assign_entry_item<'a>(
    width: Width,
    array: usize,
    index: Operand,
    word: Operand,
    destination: Destination,
) -> Item<'a>
    ensures { item_of result ≡ items.assign_entry_item width array (as_operand index) (as_operand word)
        (as_destination destination) }
{
    if is_any_pushed(&[index, word]) {
        Item::AssignEntryAside(width, array, index, word, destination)
    } else {
        Item::AssignEntry(width, array, index, word, destination)
    }
}

/// Whether an operand of a call is pushed, or one after it.
pub fn is_pushed_or_later(operand: Operand, after: bool) -> bool
    ensures { result ≡ items.if_pushed (as_operand operand) true after }
{
    is_pushed(operand) || after
}

/// The test of a comparison.
pub fn comparison_test(comparison: Comparison) -> Test
    ensures { as_test result ≡ items.comparison_test comparison }
{
    match comparison {
        Comparison::Less | Comparison::GreaterOrEqual => Test::Less,
        Comparison::Greater | Comparison::LessOrEqual => Test::Greater,
    }
}

/// Whether that test is to hold.
pub fn comparison_when(comparison: Comparison, when: bool) -> bool
    ensures { result ≡ items.comparison_when comparison when }
{
    match comparison {
        Comparison::Less | Comparison::Greater => when,
        Comparison::LessOrEqual | Comparison::GreaterOrEqual => !when,
    }
}

/// Whether an object is to stand in another.
pub fn containment_when(containment: Containment, when: bool) -> bool
    ensures { result ≡ items.containment_when containment when }
{
    match containment {
        Containment::In => when,
        Containment::NotIn => !when,
    }
}

/// Whether an object is to have an attribute.
pub fn has_when(positive: bool, when: bool) -> bool
    ensures { result ≡ items.agrees positive when }
{
    if positive { when } else { !when }
}

/// Whether a word is to equal one of the others.
pub fn equality_when(equality: Equality, when: bool) -> bool
    ensures { result ≡ items.equality_when equality when }
{
    match equality {
        Equality::Equal => when,
        Equality::NotEqual => !when,
    }
}
