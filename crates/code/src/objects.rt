//! Object tables as they are written (Z-Machine Standards Document 1.1, section 12).

ghost use Rattle.std.specs.Prelude.{◌≡◌, ◌≤◌, ◌<◌, ◌+◌, ◌++◌, ℕ, List, true, OnOk, IfOk, IfErr, length};
ghost use Rattle.std.specs.List.{All, flat_map, list_all};
ghost use Rattle.ztext.specs.Alphabets.{is_printable};
ghost use Rattle.ztext.specs.Text.{Holds};
ghost use Rattle.tables.specs.Rows as written;
ghost use Rattle.tables.specs.Rows.{IsProperty, IsRow, RefusesName, RefusesRows, HasShortName, ReadsRows, objects_length};

use std::alloc::{AllocError, Global};
use tables::{ObjectRow, TableFault};
use zcore::encode_text;
use zcore::layout::{DEFAULTS_LENGTH, LONGEST_SHORT_NAME, OBJECT_ENTRY_LENGTH, READABLE};

/// How many objects at most are written: more entries than these pass 65,536 bytes.
const MOST_OBJECTS: usize = READABLE / OBJECT_ENTRY_LENGTH;

/// The bytes of a short name at most: its length in words is a byte (section 12.4).
const NAME_LENGTH: usize = 2 * LONGEST_SHORT_NAME;

/// The bytes of the object table of these rows, which is to stand at an address: the property
/// defaults, an entry for each row, and the property tables. There may be no rows.
///
/// A name's characters are 13 or 32 to 126, and the numbers of properties from 1 to 63, with 1 to
/// 32 words each. Links and the order of properties, which the standard wants descending, are
/// written as they are given. Where a story has the bytes at the address, each object is read as
/// its row says.
///
/// # Errors
///
/// `B1` where a short name is longer than 255 words of Z-text; `B2` where the table would pass
/// address 65,536; `B3` where a growth of memory was refused. Where several causes stand, any of
/// them is answered.
pub fn write_objects(
    alloc: Global,
    rows: &[ObjectRow],
    defaults: &[u16; 63],
    at: u16,
) -> Result<Vec<u8>, TableFault>
    requires { All IsRow rows.now }
    ensures bytes { IfOk result (λ v. v.items ≡ written.objects_bytes rows.now defaults.now at) }
    ensures fits { IfOk result (λ v. at + objects_length rows.now ≤ 65536) }
    ensures names { IfOk result (λ v. All HasShortName rows.now) }
    ensures read { IfOk result (λ v. (story : List ℕ) → Holds story at v.items
        → ReadsRows story at rows.now defaults.now) }
    ensures refused { IfErr result (RefusesRows rows.now at) }
{
    if rows.len() > MOST_OBJECTS {
        return Err(TableFault::TooLarge);
    }
    let start = usize::from(at) + DEFAULTS_LENGTH + OBJECT_ENTRY_LENGTH * rows.len();
    let mut bytes = Vec::new(alloc);
    put_words(&mut bytes, defaults)?;
    let mut tables = Vec::new(alloc);
    for row in rows {
        let place = start + tables.len();
        if place >= READABLE {
            return Err(TableFault::TooLarge);
        }
        put_entry(&mut bytes, row, place as u16)?;
        put_table(alloc, &mut tables, row)?;
    }
    if start + tables.len() > READABLE {
        return Err(TableFault::TooLarge);
    }
    bytes.extend_from_slice(&tables)?;
    Ok(bytes)
}

/// Adds an entry, whose property table stands at an address.
fn put_entry(bytes: &mut Vec<u8>, row: &ObjectRow, table: u16) -> Result<(), AllocError>
    ensures put { OnOk result (bytes.new.items ≡ bytes.old.items
        ++ written.entry_bytes row.now table) }
    ensures attributes { OnOk result (length row.now.attributes ≡ 6) }
{
    bytes.extend_from_slice(&row.attributes)?;
    put_word(bytes, row.parent)?;
    put_word(bytes, row.sibling)?;
    put_word(bytes, row.child)?;
    put_word(bytes, table)
}

/// Adds a property table: the short name and the properties.
fn put_table(alloc: Global, bytes: &mut Vec<u8>, row: &ObjectRow) -> Result<(), TableFault>
    requires { IsRow row.now }
    ensures put { OnOk result (bytes.new.items ≡ bytes.old.items ++ written.table_bytes row.now) }
    ensures short { OnOk result (length (written.name_bytes row.now.name.items) ≤ 510) }
    ensures refused { IfErr result (RefusesName row.now.name.items) }
{
    let name = name_text(alloc, &row.name)?;
    bytes.push((name.len() / 2) as u8)?;
    bytes.extend_from_slice(&name)?;
    put_list(bytes, &row.properties)?;
    Ok(())
}

/// The Z-text of a short name; an empty one has none.
fn name_text(alloc: Global, name: &[u8]) -> Result<Vec<u8>, TableFault>
    requires { list_all is_printable name.now ≡ true }
    ensures text { IfOk result (λ v. v.items ≡ written.name_bytes name.now) }
    ensures short { IfOk result (λ v. length v.items ≤ 510) }
    ensures refused { IfErr result (RefusesName name.now) }
{
    if name.is_empty() {
        return Ok(Vec::new(alloc));
    }
    // Of characters that can be printed nothing but memory is refused.
    let Ok(text) = encode_text(alloc, name) else {
        return Err(TableFault::Memory);
    };
    if text.len() > NAME_LENGTH {
        return Err(TableFault::NameTooLong);
    }
    Ok(text)
}

/// Adds properties, and the zero byte that ends their list.
fn put_list(bytes: &mut Vec<u8>, properties: &[(u8, Vec<u16>)]) -> Result<(), AllocError>
    requires { All IsProperty properties.now }
    ensures { OnOk result (bytes.new.items ≡ bytes.old.items ++ written.list_bytes properties.now) }
{
    for property in properties {
        put_sizes(bytes, property.0, property.1.len())?;
        put_words(bytes, &property.1)?;
    }
    bytes.push(0)?;
    Ok(())
}

/// Adds the size bytes of a property of so many words (section 12.4.2).
fn put_sizes(bytes: &mut Vec<u8>, number: u8, words: usize) -> Result<(), AllocError>
    requires number { number ≤ 63 }
    requires words { words ≤ 32 }
    ensures { OnOk result (bytes.new.items ≡ bytes.old.items ++ written.sizes number words) }
{
    if words == 1 {
        bytes.push(64 + number)?;
    } else {
        bytes.push(128 + number)?;
        bytes.push(128 + (2 * words % 64) as u8)?;
    }
    Ok(())
}

fn put_words(bytes: &mut Vec<u8>, words: &[u16]) -> Result<(), AllocError>
    ensures { OnOk result (bytes.new.items ≡ bytes.old.items ++ flat_map written.word words.now) }
{
    for word in words {
        put_word(bytes, *word)?;
    }
    Ok(())
}

/// Adds a word, its high byte first.
fn put_word(bytes: &mut Vec<u8>, word: u16) -> Result<(), AllocError>
    ensures { OnOk result (bytes.new.items ≡ bytes.old.items ++ written.word word) }
{
    bytes.push((word / 256) as u8)?;
    bytes.push((word % 256) as u8)?;
    Ok(())
}
