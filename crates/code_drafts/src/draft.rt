//! The items that are written so far.

ghost use Rattle.std.specs.Prelude.{◌≡◌, ◌<◌, ◌-◌, length, OnOk};
ghost use Rattle.code_drafts.specs.Items.{branch_true, turned_back};
ghost use Rattle.code_drafts.specs.Code.{as_operand, item_of, items_of};
ghost use Rattle.code_drafts.specs.Writing.{written_in, numbered, items_in_order, LeadsBack, PutsItem};
ghost use Rattle.code_drafts.specs.Writing.{TurnsBack};
ghost use Rattle.code_drafts.specs.Writing as spec;

use crate::item::{Item, Operand, Test};
use std::alloc::{AllocError, Global};
use std::mem::replace;

/// The items of a routine, written from the last to the first: branches lead ahead, so what they
/// lead to is written by then. A target is told by how many items there are from there on to the
/// end.
#[derive(Drop)]
pub struct Draft<'a> {
    pub alloc: Global,
    pub items: Vec<Item<'a>>,
}

/// One more item, before those that are written.
#[inline(never)]
pub fn put<'a>(draft: &mut Draft<'a>, item: Item<'a>) -> Result<(), AllocError>
    ensures { OnOk result (PutsItem draft.old draft.new (item_of item.entry)) }
{
    draft.items.push(item)?;
    Ok(())
}

/// A branch by whether a word is true, to where so many items are left.
#[inline(never)]
pub fn put_branch<'a>(
    draft: &mut Draft<'a>,
    operand: Operand,
    when: bool,
    left: usize,
) -> Result<(), AllocError>
    ensures { OnOk result (PutsItem draft.old draft.new
        (branch_true (as_operand operand) when left)) }
{
    let Ok(operands) = vec![in draft.alloc; operand] else {
        return Err(AllocError);
    };
    let Ok(()) = put(draft, Item::Branch(Test::IsZero, operands, !when, left)) else {
        return Err(AllocError);
    };
    Ok(())
}

/// How many items are written.
pub fn item_count(draft: &Draft<'_>) -> usize
    ensures { result ≡ length (written_in draft.now) }
{
    draft.items.len()
}

/// The item that was written after so many leads back to the first.
#[tactic(auto, using(crate::proofs::Drafts::led_back))]
pub fn lead_back(draft: &mut Draft<'_>, number: usize)
    requires { number < length (written_in draft.now) }
    ensures { LeadsBack draft.old draft.new number }
{
    draft.items[number] = Item::Back(draft.items.len());
}

/// The item that was written after so many, if it is a branch, leads back to the first, where its
/// test is the other way round.
pub fn turn_back(draft: &mut Draft<'_>, number: usize)
    requires { number < length (written_in draft.now) }
    ensures { TurnsBack draft.old draft.new number }
{
    let first = draft.items.len();
    turn_item_back(&mut draft.items[number], first);
}

/// A branch becomes one back to where so many items are left, where its test is the other way
/// round.
fn turn_item_back(item: &mut Item<'_>, first: usize)
    ensures { item_of item.new ≡ turned_back first (item_of item.old) }
{
    *item = match replace(item, Item::Quit) {
        Item::Branch(test, operands, when, _) => Item::BranchBack(test, operands, !when, first),
        other => other,
    };
}

/// The items from the first to the last, with the numbers of their targets.
pub fn into_items(draft: Draft<'_>) -> Vec<Item<'_>>
    ensures { items_of result.items ≡ items_in_order draft.entry }
{
    let mut items = draft.items;
    put_in_order(&mut items);
    items
}

/// Puts the items of a draft in order, from the first to the last, and numbers their targets.
fn put_in_order(items: &mut [Item<'_>])
    ensures { items_of items.new
        ≡ spec.in_order (length (items_of items.old)) (items_of items.old) }
{
    let count = items.len();
    items.reverse();
    for number in 0..count {
        number_target(&mut items[number], count);
    }
}

/// Gives an item the number of its target, where there are `count` items in all.
fn number_target(item: &mut Item<'_>, count: usize)
    ensures { item_of item.new ≡ numbered count (item_of item.old) }
{
    match item {
        Item::Branch(_, _, _, target) => count_from_first(target, count),
        Item::Case(_, _, _, target) => count_from_first(target, count),
        Item::IsIn(_, _, _, target) => count_from_first(target, count),
        Item::Has(_, _, _, target) => count_from_first(target, count),
        Item::Provides(_, _, _, target) => count_from_first(target, count),
        Item::FirstObject(_, target) => count_from_first(target, count),
        Item::NextObject(_, target) => count_from_first(target, count),
        Item::Jump(target) => count_from_first(target, count),
        Item::Back(target) => count_from_first(target, count),
        Item::BranchBack(_, _, _, target) => count_from_first(target, count),
        _ => (),
    }
}

/// A target that was told by how many of `count` items there are from there on to the end becomes
/// the number of its item.
fn count_from_first(target: &mut usize, count: usize)
    ensures { target.new ≡ count - target.old }
{
    *target = count.saturating_sub(*target);
}
