//! Items whose bytes are the same wherever everything else is in the story, and what is kept of
//! them.

ghost use Rattle.std.specs.Prelude.{◌≡◌, ◌<◌, ◌-◌, length, reverse, take, drop, slice_index};
ghost use Rattle.code_drafts.specs.Code.{item_of};
ghost use Rattle.code.specs.Bytes as spec;

use code_items::Item;
use syntax_lexer::{from, front};
use syntax_trees::Binary;

/// Whether the divisor of an operation is tested, and a fault printed if it is 0.
fn tests_divisor(operator: Binary) -> bool
    ensures { result ≡ spec.tests_divisor operator }
{
    matches!(operator, Binary::Divide | Binary::Remainder)
}

/// Whether an item names no address and leads nowhere.
pub fn is_settled(item: &Item<'_>) -> bool
    ensures { result ≡ spec.is_settled (item_of item.now) }
{
    match item {
        Item::Move(_, _)
        | Item::Prefix(_, _, _)
        | Item::Step(_, _, _)
        | Item::Keep(_)
        | Item::FirstEqual
        | Item::AlsoEqual
        | Item::DropBelow
        | Item::PrintText(_)
        | Item::PrintNumber(_)
        | Item::NewLine
        | Item::Quit
        | Item::Return(_) => true,
        Item::Operate(operator, _, _, _) => !tests_divisor(*operator),
        Item::OperateAside(operator, _, _) => !tests_divisor(*operator),
        _ => false,
    }
}

/// The bytes from `start` to `end`.
pub fn between(bytes: &[u8], start: usize, end: usize) -> &[u8]
    ensures { result.now ≡ take (end - start) (drop start bytes.now) }
{
    front(from(bytes, start), end.saturating_sub(start))
}

/// How many bytes there are from the item of a number on to the end, where `left` tells it of each,
/// the end's first.
#[tactic(auto, using(code_drafts::proofs::Offsets::turned))]
fn left_from(left: &[usize], number: usize) -> usize
    requires { number < length left.now }
    ensures { result ≡ slice_index (reverse left.now) number }
{
    left[left.len() - 1 - number]
}

/// How many bytes the items from a number to another have, where `left` tells how many there are
/// from each on to the end, the end's first.
pub fn size_between(left: &[usize], first: usize, end: usize) -> usize
    requires first { first < length left.now }
    requires end { end < length left.now }
    ensures { result ≡ slice_index (reverse left.now) first - slice_index (reverse left.now) end }
{
    left_from(left, first).saturating_sub(left_from(left, end))
}
