//! The entries of an object table (Z-Machine Standards Document 1.1, section 12.3).

ghost use Rattle.std.specs.Prelude.{◌≡◌, ◌<◌, ◌≤◌, ◌+◌, ℕ, length};
ghost use Rattle.ztext.specs.Bytes.{word_at};
ghost use Rattle.zcore.specs.Layout.{object_entry_size};
ghost use Rattle.zcore.specs.Entries.{Parent, Sibling, Child, object_entry, has_entry, place_of, properties_place, attribute_place, is_set};
ghost use Rattle.tables.specs.Links.{as_link};
ghost use Rattle.tables.specs.Objects.{word_of_entry, link_of, attribute_of};

use crate::fault::TableRead;
use crate::link::Link;
use byteorder::{BigEndian, ByteOrder};
use zcore::layout::{DEFAULTS_LENGTH, OBJECT_ENTRY_LENGTH};

// The next four are the places of words in an entry, behind its six bytes of attributes.
const PARENT: usize = 6;

const SIBLING: usize = 8;

const CHILD: usize = 10;

/// The place of the address of the property table.
pub(crate) const PROPERTIES: usize = 12;

/// Where an object's entry stands.
#[inline]
pub(crate) fn entry(table: u16, object: u16) -> usize
    ensures same { result ≡ object_entry table object }
    ensures within { result ≤ 1048576 }
{
    usize::from(table)
        + DEFAULTS_LENGTH
        + OBJECT_ENTRY_LENGTH * usize::from(object).saturating_sub(1)
}

/// Whether an object's number is not 0, and its entry lies before an end. The table is at the
/// address of its property defaults, here and in all that follows.
#[inline]
pub fn has_entry(table: u16, end: usize, object: u16) -> bool
    ensures { result ≡ has_entry table end object }
{
    object >= 1 && entry(table, object) + OBJECT_ENTRY_LENGTH <= end
}

/// Whether an object's number is not 0, and its entry lies in a story.
#[inline]
pub(crate) fn is_object(story: &[u8], table: u16, object: u16) -> bool
    ensures { result ≡ has_entry table (length story.now) object }
{
    has_entry(table, story.len(), object)
}

/// Where a link of an object stands, a word.
#[inline]
pub fn link_place(table: u16, link: Link) -> usize
    ensures { result ≡ place_of table (as_link link) }
{
    match link {
        Link::Parent(object) => entry(table, object) + PARENT,
        Link::Sibling(object) => entry(table, object) + SIBLING,
        Link::Child(object) => entry(table, object) + CHILD,
    }
}

/// Where the address of an object's property table stands, a word.
#[inline]
pub fn properties_place(table: u16, object: u16) -> usize
    ensures { result ≡ properties_place table object }
{
    entry(table, object) + PROPERTIES
}

/// Where the byte stands in which an object has an attribute.
#[inline]
pub fn attribute_place(table: u16, object: u16, attribute: u8) -> usize
    ensures { result ≡ attribute_place table object attribute }
{
    entry(table, object) + usize::from(attribute) / 8
}

/// Whether an attribute is set in its byte.
#[inline]
pub fn is_set(byte: u8, attribute: u8) -> bool
    ensures { result ≡ is_set byte attribute }
{
    (byte >> (7 - attribute % 8)) % 2 == 1
}

/// The word at an address, its high byte first.
#[inline]
pub(crate) fn read_word(story: &[u8], at: usize) -> u16
    requires { at + 1 < length story.now }
    ensures { result ≡ word_at story.now at }
{
    BigEndian::read_u16(&story[at..])
}

/// The word at a place of an object's entry.
fn entry_word(story: &[u8], table: u16, object: u16, place: usize) -> Result<u16, TableRead>
    requires { place + 1 < object_entry_size }
    ensures { result ≡ word_of_entry story.now table object place }
{
    if !is_object(story, table, object) {
        return Err(TableRead::Object);
    }
    Ok(read_word(story, entry(table, object) + place))
}

/// The object that an object stands in, 0 for none. The table is at the address of its property
/// defaults. It takes no memory, as none of these readers does.
///
/// # Errors
///
/// [`TableRead::Object`] for the number 0, and where the object's entry lies outside the story.
pub fn parent(story: &[u8], table: u16, object: u16) -> Result<u16, TableRead>
    ensures { result ≡ link_of story.now table (Parent object) }
{
    entry_word(story, table, object, PARENT)
}

/// The next object that stands in the same as an object, 0 for none.
///
/// # Errors
///
/// [`TableRead::Object`] for the number 0, and where the object's entry lies outside the story.
pub fn sibling(story: &[u8], table: u16, object: u16) -> Result<u16, TableRead>
    ensures { result ≡ link_of story.now table (Sibling object) }
{
    entry_word(story, table, object, SIBLING)
}

/// The first object that stands in an object, 0 for none.
///
/// # Errors
///
/// [`TableRead::Object`] for the number 0, and where the object's entry lies outside the story.
pub fn child(story: &[u8], table: u16, object: u16) -> Result<u16, TableRead>
    ensures { result ≡ link_of story.now table (Child object) }
{
    entry_word(story, table, object, CHILD)
}

/// Whether an object has an attribute, whose number is below 48.
///
/// # Errors
///
/// [`TableRead::Object`] for the number 0, and where the object's entry lies outside the story.
pub fn has_attribute(
    story: &[u8],
    table: u16,
    object: u16,
    attribute: u8,
) -> Result<bool, TableRead>
    requires { attribute < 48 }
    ensures { result ≡ attribute_of story.now table object attribute }
{
    if !is_object(story, table, object) {
        return Err(TableRead::Object);
    }
    let byte = story[attribute_place(table, object, attribute)];
    Ok(is_set(byte, attribute))
}
