//! The small entries of objects in versions 1 to 3 (Z-Machine Standards Document 1.1, section 12.3.1).

ghost use Rattle.std.specs.Prelude.{◌≡◌, ◌≤◌, ◌+◌};
ghost use Rattle.tables.specs.Links.{as_link};
ghost use Rattle.zcore_versions.specs.SmallObjects.{small_entry, has_small_entry};
ghost use Rattle.zcore_versions.specs.SmallObjects.{small_attribute_place, small_place_of};

use tables::Link;

/// How many bytes 31 property defaults have (section 12.2).
const DEFAULTS_LENGTH: usize = 62;

/// How many bytes an entry has.
const ENTRY_LENGTH: usize = 9;

/// The greatest number of an object.
const MOST_OBJECTS: u16 = 255;

/// Where the parent of an object is in its entry: after 32 attributes.
const PARENT: usize = 4;

/// Where its sibling is.
const SIBLING: usize = 5;

/// Where its child is.
const CHILD: usize = 6;

/// Where the address of its property table is.
const PROPERTIES: usize = 7;

/// Where an object's entry is.
#[inline(always)]
fn entry(table: u16, object: u16) -> usize
    ensures same { result ≡ small_entry table object }
    ensures within { result ≤ 1048576 }
{
    table as usize + DEFAULTS_LENGTH + ENTRY_LENGTH * (object as usize).saturating_sub(1)
}

/// Whether a number is an object's, and its entry is before an end.
#[inline(always)]
pub fn has_entry(table: u16, end: usize, object: u16) -> bool
    ensures { result ≡ has_small_entry table end object }
{
    1 <= object && object <= MOST_OBJECTS && entry(table, object) + ENTRY_LENGTH <= end
}

/// Where the byte is in which an object has an attribute.
#[inline(always)]
pub fn attribute_place(table: u16, object: u16, attribute: u16) -> usize
    ensures { result ≡ small_attribute_place table object attribute }
{
    entry(table, object) + attribute as usize / 8
}

/// Where a link of an object is.
#[inline(always)]
pub fn link_place(table: u16, link: Link) -> usize
    ensures { result ≡ small_place_of table (as_link link) }
{
    match link {
        Link::Parent(object) => entry(table, object) + PARENT,
        Link::Sibling(object) => entry(table, object) + SIBLING,
        Link::Child(object) => entry(table, object) + CHILD,
    }
}

/// Where the address of an object's property table is.
#[inline(always)]
pub fn properties_place(table: u16, object: u16) -> usize
    ensures { result ≡ small_entry table object + 7 }
{
    entry(table, object) + PROPERTIES
}
