//! The property lists of objects (Z-Machine Standards Document 1.1, section 12.4).

ghost use Rattle.std.specs.Prelude.{◌≡◌, ◌≤◌, ◌<◌, ◌+◌, ℕ, length, Ok, Err, Some, None, IfOk, IfErr, MatchOption};
ghost use Rattle.zcore.specs.Properties as properties;
ghost use Rattle.zcore.specs.Properties.{standing, property_in};
ghost use Rattle.tables.specs.declared.properties.Standing.TheVariants.{Listed};
ghost use Rattle.tables.specs.Standing.{standing_of};
ghost use Rattle.tables.specs.Objects.{start_of, property_of, counted_in, property_count_of};

use crate::entries::{PROPERTIES, entry, is_object, read_word};
use crate::fault::TableRead;

/// A property of a list.
#[derive(Clone, Copy, Debug)]
pub struct ListedProperty {
    /// From 0 to 63.
    pub number: u8,

    /// Where its data stand.
    pub address: usize,

    /// The bytes of its data.
    pub size: usize,
}

/// What stands at an address of a property list.
#[derive(Clone, Copy, Debug)]
pub enum Standing {
    /// The zero byte behind the last property.
    Terminator,

    /// A property.
    Listed(ListedProperty),

    /// The end of the story, before the property's data.
    Beyond,
}

/// What stands at an address of a property list.
#[inline]
pub fn stands_at(story: &[u8], at: usize) -> Standing
    ensures same { standing_of result ≡ standing story.now (length story.now) at }
    ensures within { (p : _) → result ≡ Listed p → p.address + p.size ≤ length story.now + 66 }
{
    if at >= story.len() {
        return Standing::Beyond;
    }
    let first = story[at];
    if first == 0 {
        return Standing::Terminator;
    }
    if first < 128 {
        return Standing::Listed(ListedProperty {
            number: first % 64,
            address: at + 1,
            size: usize::from(first) / 64 + 1,
        });
    }
    if at + 1 >= story.len() {
        return Standing::Beyond;
    }
    Standing::Listed(ListedProperty {
        number: first % 64,
        address: at + 2,
        size: long_size(story[at + 1]),
    })
}

/// The length that a second size byte tells (section 12.4.2.1.1).
#[inline]
pub fn long_size(byte: u8) -> usize
    ensures same { result ≡ properties.long_size byte }
    ensures within { result ≤ 64 }
{
    match byte % 64 {
        0 => 64,
        size => usize::from(size),
    }
}

/// Where the property list of an object begins.
fn list_start(story: &[u8], table: u16, object: u16) -> Result<usize, TableRead>
    ensures { result ≡ start_of story.now table object }
{
    if !is_object(story, table, object) {
        return Err(TableRead::Object);
    }
    let properties = usize::from(read_word(story, entry(table, object) + PROPERTIES));
    if properties >= story.len() {
        return Err(TableRead::Outside);
    }
    Ok(properties + 1 + 2 * usize::from(story[properties]))
}

/// The first property of a number in the list at an address, or what ends the list before one. It
/// takes no memory.
pub fn search_list(story: &[u8], number: u8, start: usize) -> Standing
    ensures same { standing_of result ≡ property_in story.now (length story.now) number start }
    ensures within { (p : _) → result ≡ Listed p → p.address + p.size ≤ length story.now + 66 }
{
    let mut at = start;
    // A property is two bytes at least, so that the list ends within as many steps as there are
    // bytes.
    for step in 0..story.len() {
        match stands_at(story, at) {
            Standing::Terminator => {
                return Standing::Terminator;
            }
            Standing::Listed(property) => {
                if property.number == number {
                    return Standing::Listed(property);
                }
                at = property.address + property.size;
            }
            Standing::Beyond => {
                return Standing::Beyond;
            }
        }
    }
    Standing::Beyond
}

/// The data of an object's property, or `None` where the object has no property of the number. The
/// table is at the address of its property defaults. It takes no memory.
///
/// # Errors
///
/// [`TableRead::Object`] for the object's number 0, and where its entry lies outside the story;
/// [`TableRead::Outside`] where its property table, its property list up to the property, or the
/// property's data do.
pub fn property<'a>(
    story: &'a [u8],
    table: u16,
    object: u16,
    number: u8,
) -> Result<Option<&'a [u8]>, TableRead>
    ensures found { IfOk result (λ found. MatchOption found
        (property_of story.now table object number ≡ Ok None)
        (λ bytes. property_of story.now table object number ≡ Ok (Some bytes.now))) }
    ensures refused { IfErr result
        (λ cause. property_of story.now table object number ≡ Err cause) }
{
    let start = list_start(story, table, object)?;
    match search_list(story, number, start) {
        Standing::Terminator => Ok(None),
        Standing::Listed(found) => {
            let end = found.address + found.size;
            if end > story.len() {
                return Err(TableRead::Outside);
            }
            Ok(Some(&story[found.address..end]))
        }
        Standing::Beyond => Err(TableRead::Outside),
    }
}

/// How many properties the list at an address has.
fn count(story: &[u8], start: usize) -> Result<usize, TableRead>
    ensures { result ≡ counted_in story.now 0 start (length story.now) }
{
    let mut at = start;
    for count in 0..story.len() {
        match stands_at(story, at) {
            Standing::Terminator => {
                return Ok(count);
            }
            Standing::Listed(property) => {
                at = property.address + property.size;
            }
            Standing::Beyond => {
                return Err(TableRead::Outside);
            }
        }
    }
    Err(TableRead::Outside)
}

/// How many properties the list of an object has. It takes no memory.
///
/// # Errors
///
/// [`TableRead::Object`] for the object's number 0, and where its entry lies outside the story;
/// [`TableRead::Outside`] where its property table or its property list does.
pub fn property_count(story: &[u8], table: u16, object: u16) -> Result<usize, TableRead>
    ensures { result ≡ property_count_of story.now table object }
{
    count(story, list_start(story, table, object)?)
}
