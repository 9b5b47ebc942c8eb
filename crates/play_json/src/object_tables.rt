//! The objects of a story, as its memory has them now (Z-Machine Standards Document 1.1, section 12).
//! Any bytes may be a table: what is after the end of memory is read as 0, and each loop has a bound.

ghost use Rattle.std.specs.Prelude.{◌≤◌};

use crate::memory::{byte_at, word_at};
use serde_json::{Map, Value, push, put};
use std::alloc::{AllocError, Global};
use ztext::{TextFault, decode_front};

/// Where the header has the address of the object table (section 11.1).
const TABLE: usize = 0x0A;

/// Where the header of versions 5 and later has the address of the story's own alphabets.
const ALPHABETS: usize = 0x34;

/// The most characters of a short name that are shown.
const LONGEST_NAME: usize = 765;

/// The sizes of a version's object table, in bytes.
#[derive(Clone, Copy)]
struct Layout {
    /// The defaults of properties.
    defaults: usize,

    /// The attributes at the beginning of an object's entry.
    attributes: usize,

    /// A link. The parent, the sibling and the child follow the attributes, and then the address of the
    /// properties.
    link: usize,

    /// An object's entry.
    entry: usize,

    /// The greatest number of an object.
    most: usize,
}

/// Up to version 3 (sections 12.2 and 12.3.1).
const SMALL: Layout = Layout {
    defaults: 62,
    attributes: 4,
    link: 1,
    entry: 9,
    most: 255,
};

/// From version 4 on (sections 12.2 and 12.3.2).
const LARGE: Layout = Layout {
    defaults: 126,
    attributes: 6,
    link: 2,
    entry: 14,
    most: 65_535,
};

/// A story's memory, with what its header says of objects.
#[derive(Clone, Copy)]
struct Table<'a> {
    memory: &'a [u8],
    layout: Layout,

    /// Whether the size bytes of properties are those of versions 1 to 3.
    is_small: bool,

    /// Whether short names are in the alphabets that are read here: those of versions 3 and later, where
    /// the story has none of its own.
    is_named: bool,
}

impl<'a> Table<'a> {
    /// The objects of a memory.
    fn of(memory: &'a [u8]) -> Table<'a> {
        let is_small = byte_at(memory, 0) <= 3;
        Table {
            memory,
            layout: if is_small { SMALL } else { LARGE },
            is_small,
            is_named: is_read_here(memory),
        }
    }

    /// The link of this number in an entry.
    fn link(self, entry: usize, number: usize) -> u16 {
        let layout = self.layout;
        let at = entry
            .saturating_add(layout.attributes)
            .saturating_add(layout.link.saturating_mul(number));
        if layout.link == 1 {
            u16::from(byte_at(self.memory, at))
        } else {
            word_at(self.memory, at)
        }
    }

    /// The address of an entry's property table.
    fn properties(self, entry: usize) -> usize {
        let layout = self.layout;
        let at = entry
            .saturating_add(layout.attributes)
            .saturating_add(layout.link.saturating_mul(3));
        usize::from(word_at(self.memory, at))
    }
}

/// Whether texts are in the alphabets that are read here: those of versions 3 and later, where the story
/// has none of its own.
pub(crate) fn is_read_here(memory: &[u8]) -> bool {
    let version = byte_at(memory, 0);
    version >= 3 && (version < 5 || word_at(memory, ALPHABETS) == 0)
}

/// The objects of a story: of each its number, its short name, its parent, sibling and child, its
/// attributes and its properties. The table ends where the first of the property tables after it
/// begins.
///
/// # Errors
///
/// Memory was refused.
pub fn objects(alloc: Global, memory: &[u8]) -> Result<Value, AllocError> {
    let table = Table::of(memory);
    let layout = table.layout;
    let mut found = Vec::new(alloc);
    let mut entry = usize::from(word_at(memory, TABLE)).saturating_add(layout.defaults);
    let mut end = memory.len();
    for count in 0..layout.most {
        if end < entry.saturating_add(layout.entry) {
            return Ok(Value::Array(found));
        }
        let properties = table.properties(entry);
        if entry < properties {
            end = end.min(properties);
        }
        let object = object_at(alloc, table, entry, count + 1)?;
        push(&mut found, object)?;
        entry = entry.saturating_add(layout.entry);
    }
    Ok(Value::Array(found))
}

/// The object of an entry.
fn object_at(
    alloc: Global,
    table: Table<'_>,
    entry: usize,
    number: usize,
) -> Result<Value, AllocError> {
    let mut members = Map::new(alloc);
    match put_object(&mut members, alloc, table, entry, number) {
        Ok(()) => Ok(Value::Object(members)),
        Err(error) => Err(error),
    }
}

/// Adds the members of the object of an entry.
fn put_object(
    members: &mut Map<String, Value>,
    alloc: Global,
    table: Table<'_>,
    entry: usize,
    number: usize,
) -> Result<(), AllocError> {
    let properties = table.properties(entry);
    put(members, alloc, "number", Value::from(number))?;
    put(members, alloc, "parent", Value::from(table.link(entry, 0)))?;
    put(members, alloc, "sibling", Value::from(table.link(entry, 1)))?;
    put(members, alloc, "child", Value::from(table.link(entry, 2)))?;
    let name = name_at(alloc, table, properties)?;
    put(members, alloc, "name", name)?;
    let attributes = attributes_at(alloc, table, entry)?;
    put(members, alloc, "attributes", attributes)?;
    let properties = properties_at(alloc, table, properties)?;
    put(members, alloc, "properties", properties)
}

/// The numbers of the attributes that an entry has (section 12.3.1).
fn attributes_at(alloc: Global, table: Table<'_>, entry: usize) -> Result<Value, AllocError> {
    let mut found = Vec::new(alloc);
    for place in 0..table.layout.attributes {
        let byte = byte_at(table.memory, entry.saturating_add(place));
        for bit in 0..8usize {
            if is_set(byte, bit) {
                let number = place.saturating_mul(8).saturating_add(bit);
                push(&mut found, Value::from(number))?;
            }
        }
    }
    Ok(Value::Array(found))
}

/// Whether a byte has a bit: the first is its highest.
fn is_set(byte: u8, bit: usize) -> bool {
    let mut shifted = byte;
    for step in bit..7 {
        shifted /= 2;
    }
    shifted % 2 == 1
}

/// The short name of an object by its property table: a text, or null where it is not read here.
fn name_at(alloc: Global, table: Table<'_>, properties: usize) -> Result<Value, AllocError> {
    let words = byte_at(table.memory, properties);
    if words == 0 {
        return Value::try_from_str(alloc, "");
    }
    if !table.is_named {
        return Ok(Value::Null);
    }
    text_at(alloc, table.memory, properties.saturating_add(1), words)
}

/// The text of at most so many words at an address, or null where it cannot be read.
///
/// # Errors
///
/// Memory was refused.
pub(crate) fn text_at(
    alloc: Global,
    memory: &[u8],
    address: usize,
    words: u8,
) -> Result<Value, AllocError> {
    if !ends_within(memory, address, words) {
        return Ok(Value::Null);
    }
    let Ok(at) = u32::try_from(address) else {
        return Ok(Value::Null);
    };
    match decode_front(alloc, memory, at, LONGEST_NAME) {
        Ok((text, _)) => Ok(Value::String(String::from_utf8_lossy(alloc, &text)?)),
        Err(TextFault::Memory) => Err(AllocError),
        Err(_) => Ok(Value::Null),
    }
}

/// Whether a text ends within so many words (section 3.2).
fn ends_within(memory: &[u8], text: usize, words: u8) -> bool {
    for word in 0..usize::from(words) {
        if byte_at(memory, text.saturating_add(2 * word)) >= 0x80 {
            return true;
        }
    }
    false
}

/// A property in a list.
#[derive(Clone, Copy)]
struct Property {
    /// Its number, 0 at the end of a list.
    number: u8,

    /// Where its data are.
    address: usize,

    /// The bytes of its data.
    size: usize,
}

/// What is at an address of a property list (sections 12.4.1 and 12.4.2).
fn property_at(table: Table<'_>, at: usize) -> Property {
    let first = byte_at(table.memory, at);
    let next = at.saturating_add(1);
    if table.is_small {
        return Property {
            number: first % 32,
            address: next,
            size: usize::from(first / 32) + 1,
        };
    }
    if first < 0x80 {
        return Property {
            number: first % 64,
            address: next,
            size: usize::from(first / 64) + 1,
        };
    }
    let size = usize::from(byte_at(table.memory, next) % 64);
    Property {
        number: first % 64,
        address: next.saturating_add(1),
        size: if size == 0 { 64 } else { size },
    }
}

/// The properties of a property table: of each its number and its data, two hexadecimal digits a byte.
/// Their numbers fall, so a list ends where one does not.
fn properties_at(alloc: Global, table: Table<'_>, address: usize) -> Result<Value, AllocError> {
    let mut found = Vec::new(alloc);
    let words = usize::from(byte_at(table.memory, address));
    let mut at = address.saturating_add(1 + 2 * words);
    let mut latest = 64;
    for step in 0..64 {
        let property = property_at(table, at);
        let end = property.address.saturating_add(property.size);
        if property.number == 0 || property.number >= latest || end > table.memory.len() {
            return Ok(Value::Array(found));
        }
        let data = &table.memory[property.address..end];
        push(&mut found, shown_property(alloc, property.number, data)?)?;
        latest = property.number;
        at = end;
    }
    Ok(Value::Array(found))
}

/// A property of this number and data.
fn shown_property(alloc: Global, number: u8, data: &[u8]) -> Result<Value, AllocError> {
    let mut members = Map::new(alloc);
    match put_property(&mut members, alloc, number, data) {
        Ok(()) => Ok(Value::Object(members)),
        Err(error) => Err(error),
    }
}

/// Adds the members of a property.
fn put_property(
    members: &mut Map<String, Value>,
    alloc: Global,
    number: u8,
    data: &[u8],
) -> Result<(), AllocError> {
    put(members, alloc, "number", Value::from(number))?;
    let data = hex::encode(alloc, data)?;
    put(members, alloc, "data", Value::String(data))
}
