//! Which objects the entries of an object table lead to.

ghost use Rattle.std.specs.Prelude.{◌≡◌, ◌≤◌, ◌<◌, IfOk, length, map, slice_index_or};
ghost use Rattle.meaning.specs.Objects.{no_object};
ghost use Rattle.meaning.specs.Views.{object_of};
ghost use Rattle.story_file.specs.Linked.{AreLinked, ArePlaced};

use meaning::CheckedObject;
use std::alloc::{AllocError, Global};

/// The numbers of objects to which others lead, 0 for none.
#[derive(Drop)]
pub struct Links {
    /// Of each number, 0 among them, the first object that stands there.
    pub first: Vec<u16>,

    /// Of each object, the next that stands where it does.
    pub next: Vec<u16>,
}

/// The number of the object in which the one at an index stands.
fn parent_at(objects: &[CheckedObject<'_>], index: usize) -> usize
    requires within { index < length objects.now }
    ensures { result ≡ (slice_index_or (map object_of objects.now) index no_object).parent }
{
    let parent = objects[index].parent;
    usize::from(parent)
}

/// The links of objects, in time linear in their number: they are gone through from the last to the
/// first, and at each one all that follow it are known.
pub fn links_of(alloc: Global, objects: &[CheckedObject<'_>]) -> Result<Links, AllocError>
    requires few { length objects.now ≤ 2000 }
    requires placed { ArePlaced (map object_of objects.now) }
    ensures { IfOk result (λ l. AreLinked (map object_of objects.now) 0 l.first.items l.next.items) }
{
    let mut first = vec![in alloc; 0u16; objects.len() + 1]?;
    let mut next = vec![in alloc; 0u16; objects.len()]?;
    let mut left = objects.len();
    while left > 0 {
        left -= 1;
        let parent = parent_at(objects, left);
        next[left] = first[parent];
        first[parent] = (left + 1) as u16;
    }
    Ok(Links { first, next })
}
