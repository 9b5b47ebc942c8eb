//! Branches back: whether they are near, and how many bytes they have.

ghost use Rattle.std.specs.Prelude.{◌≡◌};
ghost use Rattle.code_drafts.specs.Code.{item_of, items_of};
ghost use Rattle.code_drafts.specs.Written.{sizes_in};
ghost use Rattle.code.specs.Bytes as spec;

use code_drafts::Sizes;
use code_items::Item;

/// Over so many bytes a branch back leads by two bytes of branch data at most (Z-Machine Standards
/// Document 1.1, section 4.7).
const MOST_BACK: usize = 8_190;

/// So many bytes more than with the shortest branch an item has at most.
const MOST_MORE: usize = 4;

/// Whether an item is a branch back.
fn is_back(item: &Item<'_>) -> bool
    ensures { result ≡ spec.is_back (item_of item.now) }
{
    matches!(item, Item::BranchBack(_, _, _, _))
}

/// The bytes of a branch back in addition to the shortest one: a second byte of branch data if it
/// is near, or a jump; none of any other item.
pub fn back_size(near: bool, item: &Item<'_>) -> usize
    ensures { result ≡ spec.back_size near (item_of item.now) }
{
    if !is_back(item) {
        0
    } else if near {
        1
    } else {
        3
    }
}

/// Whether one of some items is a branch back.
fn has_back(items: &[Item<'_>]) -> bool
    ensures { result ≡ spec.has_back (items_of items.now) }
{
    for item in items {
        if is_back(item) {
            return true;
        }
    }
    false
}

/// Whether branches back are near, where all items have so many bytes with the shortest branches:
/// there are none, or even the largest items together have too few bytes to lead too far.
pub fn is_near(sizes: &Sizes<'_>, items: &[Item<'_>], sum: usize) -> bool
    requires { sum ≡ spec.least_sum (sizes_in sizes.now) (items_of items.now) }
    ensures { result ≡ spec.is_near (sizes_in sizes.now) (items_of items.now) }
{
    !has_back(items) || sum.saturating_add(items.len().saturating_mul(MOST_MORE)) <= MOST_BACK
}
