//! The tests of the cases of a `switch`.

ghost use Rattle.std.specs.Prelude.{◌-◌, ◌∷◌, [], true, length, map, OnOk};
ghost use Rattle.meaning.specs.Views.{range_of};
ghost use Rattle.code_drafts.specs.Items.{case, same, less, greater};
ghost use Rattle.code_drafts.specs.Writing.{Writes, written_in, PutsItem};
ghost use Rattle.code_items.specs.Statements.{groups_of, group_items, last_items, tests_items};
ghost use Rattle.code_items.specs.Statements.{over_items};
ghost use Rattle.code_items.specs.Code.{group_of};

use crate::group::{Group, groups};
use code_drafts::{Draft, Item, Test, item_count, put};
use meaning::Span;
use std::alloc::AllocError;

/// The test of a range, whose upper end is tested last.
fn put_lower(draft: &mut Draft<'_>, low: u16, left: usize) -> Result<(), AllocError>
    ensures { OnOk result (PutsItem draft.old draft.new (case less (low ∷ []) true left)) }
{
    let Ok(numbers) = vec![in draft.alloc; low] else {
        return Err(AllocError);
    };
    put(draft, Item::Case(Test::Less, numbers, true, left))
}

fn put_upper(draft: &mut Draft<'_>, high: u16, when: bool, left: usize) -> Result<(), AllocError>
    ensures { OnOk result (PutsItem draft.old draft.new (case greater (high ∷ []) when left)) }
{
    let Ok(numbers) = vec![in draft.alloc; high] else {
        return Err(AllocError);
    };
    put(draft, Item::Case(Test::Greater, numbers, when, left))
}

fn put_numbers(
    draft: &mut Draft<'_>,
    numbers: &[u16],
    when: bool,
    left: usize,
) -> Result<(), AllocError>
    ensures { OnOk result (PutsItem draft.old draft.new (case same numbers.now when left)) }
{
    let Ok(numbers) = Vec::from_slice(draft.alloc, numbers) else {
        return Err(AllocError);
    };
    put(draft, Item::Case(Test::Same, numbers, when, left))
}

/// A group that others follow: it leads to the statements of the case, where so many items are
/// left, where it holds.
fn put_group(draft: &mut Draft<'_>, group: &Group, inside: usize) -> Result<(), AllocError>
    ensures { OnOk result (Writes draft.old draft.new
        (λ n at. group_items at (group_of group.now) (n - inside))) }
{
    match group {
        Group::Numbers(numbers) => put_numbers(draft, numbers, true, inside),
        Group::Range(low, high) => {
            let next = item_count(draft);
            let Ok(()) = put_upper(draft, *high, false, inside) else {
                return Err(AllocError);
            };
            put_lower(draft, *low, next)
        }
    }
}

/// The last group: it leads after those statements, where so many items are left, where it does
/// not hold.
fn put_last(draft: &mut Draft<'_>, group: &Group, after: usize) -> Result<(), AllocError>
    ensures { OnOk result (Writes draft.old draft.new
        (λ n at. last_items (group_of group.now) (n - after))) }
{
    match group {
        Group::Numbers(numbers) => put_numbers(draft, numbers, false, after),
        Group::Range(low, high) => {
            let Ok(()) = put_upper(draft, *high, true, after) else {
                return Err(AllocError);
            };
            put_lower(draft, *low, after)
        }
    }
}

/// The tests of a case, from the last to the first.
pub fn put_tests(
    draft: &mut Draft<'_>,
    spans: &[Span],
    inside: usize,
    after: usize,
) -> Result<(), AllocError>
    ensures { OnOk result (Writes draft.old draft.new
        (λ n at. tests_items at (groups_of (map range_of spans.now)) (n - inside) (n - after))) }
{
    let Ok(found) = groups(draft.alloc, spans) else {
        return Err(AllocError);
    };
    if found.is_empty() {
        return put(draft, Item::Jump(after));
    }
    let Ok(()) = put_last(draft, &found[0], after) else {
        return Err(AllocError);
    };
    for group in &found[1..] {
        let Ok(()) = put_group(draft, group, inside) else {
            return Err(AllocError);
        };
    }
    Ok(())
}

/// From the end of a case over what is written of the `switch`, of which the end leaves so many
/// items.
pub fn put_over(draft: &mut Draft<'_>, end: usize) -> Result<(), AllocError>
    ensures { OnOk result (Writes draft.old draft.new
        (λ n at. over_items (length (written_in draft.old) - end) (n - end))) }
{
    if item_count(draft) > end {
        return put(draft, Item::Jump(end));
    }
    Ok(())
}
