//! `==` and `~=` with more right sides than one instruction compares with.

ghost use Rattle.std.specs.Prelude.{◌≡◌, ◌≤◌, ◌+◌, ◌-◌, ◌*◌, ◌∷◌, if◌then◌else◌, OnOk};
ghost use Rattle.code_drafts.specs.Items.{same};
ghost use Rattle.code_drafts.specs.Items as items;
ghost use Rattle.code_drafts.specs.Code.{as_operand, as_operands};
ghost use Rattle.code_drafts.specs.Writing.{PutsItem, WritesSame};

use crate::draft::{Draft, item_count, put};
use crate::item::{Item, Operand, Test};
use crate::operand::MOST_COMPARED;
use std::alloc::AllocError;

/// A branch where an operand equals one of at most three others.
fn put_same(
    draft: &mut Draft<'_>,
    operand: Operand,
    others: &[Operand],
    when: bool,
    target: usize,
) -> Result<(), AllocError>
    ensures { OnOk result (PutsItem draft.old draft.new
        (items.branch same (as_operand operand ∷ as_operands others.now) when target)) }
{
    let Ok(mut operands) = vec![in draft.alloc; operand] else {
        return Err(AllocError);
    };
    let Ok(()) = operands.extend_from_slice(others) else {
        return Err(AllocError);
    };
    let Ok(()) = put(draft, Item::Branch(Test::Same, operands, when, target)) else {
        return Err(AllocError);
    };
    Ok(())
}

/// Where a branch before the last one of several leads to, by which the operand equals one of all.
fn where_equal(when: bool, target: usize, end: usize) -> usize
    ensures { result ≡ (if when then target else end) }
{
    if when { target } else { end }
}

/// How many groups of three stand before the last one, where that has up to three.
fn groups_before_last(count: usize) -> usize
    ensures before { 3 * result ≤ count - 1 }
    ensures last { count ≤ 3 * result + 3 }
{
    count.saturating_sub(1) / MOST_COMPARED
}

/// A branch where an operand equals one of any number of others: branches by three at a time, from
/// the last one to the first.
pub fn put_each_same(
    draft: &mut Draft<'_>,
    operand: Operand,
    others: &[Operand],
    when: bool,
    target: usize,
) -> Result<(), AllocError>
    ensures { OnOk result (WritesSame draft.old draft.new operand others.now when target) }
{
    let count = groups_before_last(others.len());
    let end = item_count(draft);
    let Ok(()) = put_same(
        draft,
        operand,
        &others[MOST_COMPARED * count..],
        when,
        target,
    ) else {
        return Err(AllocError);
    };
    let found = where_equal(when, target, end);
    for done in 0..count {
        let first = MOST_COMPARED * (count - 1 - done);
        let Ok(()) = put_same(
            draft,
            operand,
            &others[first..first + MOST_COMPARED],
            true,
            found,
        ) else {
            return Err(AllocError);
        };
    }
    Ok(())
}
