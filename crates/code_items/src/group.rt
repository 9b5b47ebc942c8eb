//! The tests of a case, in groups that need few branches.

ghost use Rattle.std.specs.Prelude.{◌≡◌, map, reverse, IfOk, OnOk};
ghost use Rattle.meaning.specs.Views.{range_of};
ghost use Rattle.code_items.specs.Statements as statements;
ghost use Rattle.code_items.specs.Code.{group_of};

use code_drafts::MOST_COMPARED;
use meaning::Span;
use std::alloc::{AllocError, Global};

/// What one test asks of the word of a `switch`, or two.
#[derive(Drop)]
pub enum Group {
    /// That it is one of up to three numbers.
    Numbers(Vec<u16>),

    /// That it is in a range.
    Range(u16, u16),
}

/// A number before groups, of which the last of these is the first: it takes the number, where it
/// has fewer than three.
fn add_number(alloc: Global, groups: &mut Vec<Group>, number: u16) -> Result<(), AllocError>
    ensures { OnOk result (reverse (map group_of groups.new.items)
        ≡ statements.with_number number (reverse (map group_of groups.old.items))) }
{
    match groups.pop() {
        Some(Group::Numbers(mut numbers)) => {
            if numbers.len() < MOST_COMPARED {
                numbers.insert(0, number)?;
                groups.push(Group::Numbers(numbers))?;
            } else {
                groups.push(Group::Numbers(numbers))?;
                groups.push(Group::Numbers(vec![in alloc; number]?))?;
            }
        }
        Some(range) => {
            groups.push(range)?;
            groups.push(Group::Numbers(vec![in alloc; number]?))?;
        }
        None => groups.push(Group::Numbers(vec![in alloc; number]?))?,
    }
    Ok(())
}

/// The groups of a case, the last one first.
pub fn groups(alloc: Global, spans: &[Span]) -> Result<Vec<Group>, AllocError>
    ensures { IfOk result (λ v. reverse (map group_of v.items)
        ≡ statements.groups_of (map range_of spans.now)) }
{
    let mut found = Vec::new(alloc);
    for done in 0..spans.len() {
        match spans[spans.len() - 1 - done] {
            Span::One(number) => add_number(alloc, &mut found, number)?,
            Span::Between(low, high) => found.push(Group::Range(low, high))?,
        }
    }
    Ok(found)
}
