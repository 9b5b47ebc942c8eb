//! Where items stand, and where they lead.

ghost use Rattle.std.specs.Prelude.{◌≡◌, ◌<◌, ◌≤◌, reverse, length, slice_index};
ghost use Rattle.code_drafts.specs.Layout.{first, bytes_limit};
ghost use Rattle.code_drafts.specs.Code.{item_of};
ghost use Rattle.code_instructions.specs.Places.{place_in};
ghost use Rattle.code_instructions.specs.Places as spec;

use crate::jumps::jump_offset;
use code_drafts::Item;

/// The fewest bytes that a branch back leads over: its own.
const LEAST_BACK: usize = 3;

/// The offset of a branch back over so many, in 14 bits (Z-Machine Standards Document 1.1, section
/// 4.7.2): 2 less than 0 and the bytes.
const LAST_BACK: usize = 16_383;

/// What is added to the offset of a jump where that goes back for a branch.
const JUMP_BACK: usize = 65_536;

/// The item to which one branches ahead.
pub fn target_of(item: &Item<'_>) -> Option<usize>
    ensures { result ≡ spec.target_of (item_of item.now) }
{
    match item {
        Item::Branch(_, _, _, target)
        | Item::IsIn(_, _, _, target)
        | Item::Has(_, _, _, target)
        | Item::Provides(_, _, _, target)
        | Item::Case(_, _, _, target) => Some(*target),
        _ => None,
    }
}

/// How many bytes of the shortest label an item has.
pub fn label_size(target: Option<usize>) -> usize
    ensures { result ≡ spec.label_size target }
{
    match target {
        None => 0,
        Some(_) => 1,
    }
}

/// How many bytes there are from the item of a number on to the end, where `left` tells it of each,
/// the end's first.
#[tactic(auto, using(code_drafts::proofs::Offsets::turned, code_drafts::proofs::Offsets::turned_past))]
fn left_from(left: &[usize], number: usize) -> usize
    ensures { result ≡ slice_index (reverse left.now) number }
{
    if number < left.len() {
        left[left.len() - 1 - number]
    } else {
        0
    }
}

/// Where the item of a number stands, the end of the code where there is none.
#[tactic(auto, using(code_drafts::proofs::Offsets::first_is))]
pub fn place(left: &[usize], number: usize) -> usize
    ensures value { result ≡ place_in (reverse left.now) number }
    ensures within { result ≤ first (reverse left.now) }
{
    left_from(left, 0).saturating_sub(left_from(left, number))
}

/// The offset of a branch back from the address after it to another: as two bytes of branch data
/// hold it, if branches back are near, and else 65,536 more than that of a jump.
fn back_offset(near: bool, after: usize, target: usize) -> usize
    ensures { result ≡ spec.back_offset near after target }
{
    if near {
        LAST_BACK.saturating_sub(after.saturating_sub(target).saturating_sub(LEAST_BACK))
    } else {
        jump_offset(after, target) as usize + JUMP_BACK
    }
}

/// The offset of the branch or the jump of the item of a number; whether branches back are near.
pub fn offset_of(near: bool, left: &[usize], number: usize, item: &Item<'_>) -> usize
    requires few { number < length left.now }
    requires small { first (reverse left.now) < bytes_limit }
    ensures { result ≡ spec.offset_of near (place_in (reverse left.now)) number (item_of item.now) }
{
    match item {
        Item::Branch(_, _, _, target)
        | Item::IsIn(_, _, _, target)
        | Item::Has(_, _, _, target)
        | Item::Provides(_, _, _, target)
        | Item::Case(_, _, _, target) => {
            2 + place(left, *target).saturating_sub(place(left, number + 1))
        }
        Item::FirstObject(_, target)
        | Item::NextObject(_, target)
        | Item::Jump(target)
        | Item::Back(target) => {
            jump_offset(place(left, number + 1), place(left, *target)) as usize
        }
        Item::BranchBack(_, _, _, target) => {
            back_offset(near, place(left, number + 1), place(left, *target))
        }
        _ => 0,
    }
}
