//! The link that names an object among those that are in the same (Z-Machine Standards Document 1.1, section 12.3.1).

ghost use Rattle.std.specs.Prelude.{◌≡◌, ◌<◌, ◌≤◌, length, slice_index, IfSome};
ghost use Rattle.zcore_versions.specs.SmallObjects.{named_from};

use crate::entries::{has_entry, link_place};
use tables::Link;

/// There are no more objects than 255: sibling links that find no end within so many steps lead in a
/// circle.
const MOST_STEPS: u16 = 256;

/// The number of an object at a place.
#[inline(always)]
fn number(memory: &[u8], at: usize) -> u16
    requires { at < length memory.now }
    ensures { result ≡ slice_index memory.now at }
{
    memory[at] as u16
}

/// The place of the link that names an object, looked for from a place on along sibling links.
#[inline(always)]
pub fn named_from(memory: &[u8], table: u16, end: usize, object: u16, from: usize) -> Option<usize>
    requires end { end ≤ length memory.now }
    requires from { from < end }
    ensures same { result ≡ named_from memory.now table end object from 256 }
    ensures inside { IfSome result (λ at. at < end) }
{
    let mut at = from;
    for step in 0..MOST_STEPS {
        let named = number(memory, at);
        if named == object {
            return Some(at);
        }
        if !has_entry(table, end, named) {
            return None;
        }
        at = link_place(table, Link::Sibling(named));
    }
    None
}
