//! The object table of a story (Z-Machine Standards Document 1.1, section 12).

ghost use Rattle.std.specs.Prelude.{◌≡◌, ◌≤◌, ◌<◌, ◌+◌, IfOk, OnOk, length, map, slice_index_or};
ghost use Rattle.std.specs.List.{All};
ghost use Rattle.tables.specs.Rows.{HasShortName, IsRow, objects_length};
ghost use Rattle.meaning.specs.Objects.{object_at};
ghost use Rattle.meaning.specs.Places as places;
ghost use Rattle.meaning.specs.Views.{object_of, program_of, property_of};
ghost use Rattle.code.specs.Rows as rows;
ghost use Rattle.code.specs.Rows.{rows_bytes, rows_of, view_of};
ghost use Rattle.story_file.specs.Layout.{object_bytes};
ghost use Rattle.story_file.specs.Linked.{AreLinked, ArePlaced};
ghost use Rattle.story_file.specs.Written.{ObjectsFit};
ghost use Rattle.code_drafts.specs.Bytes.{Adds};

use crate::links::{Links, links_of};
use code::write_objects;
use meaning::{Checked, CheckedObject, Places, machine_character};
use std::alloc::{AllocError, Global};
use tables::{ObjectRow, TableFault};
use zcore::layout::DEFAULT_COUNT;

/// The characters of a short name.
fn characters(alloc: Global, name: &[u8]) -> Result<Vec<u8>, AllocError>
    ensures { IfOk result (λ v. v.items ≡ map places.machine_character name.now) }
{
    let mut characters = Vec::new(alloc);
    for byte in name {
        characters.push(machine_character(*byte))?;
    }
    Ok(characters)
}

/// The bit of an attribute.
fn flag(attributes: &[u8], attribute: u8) -> u8
    ensures bit { result ≡ rows.flag attributes.now attribute }
    ensures small { result ≤ 1 }
{
    if attributes.contains(&attribute) {
        1
    } else {
        0
    }
}

/// The byte of the eight attributes from one on, which has the top bit.
fn attribute_byte(attributes: &[u8], first: u8) -> u8
    requires { first ≤ 40 }
    ensures { result ≡ rows.attribute_byte attributes.now first }
{
    128 * flag(attributes, first)
        + 64 * flag(attributes, first + 1)
        + 32 * flag(attributes, first + 2)
        + 16 * flag(attributes, first + 3)
        + 8 * flag(attributes, first + 4)
        + 4 * flag(attributes, first + 5)
        + 2 * flag(attributes, first + 6)
        + flag(attributes, first + 7)
}

/// The number at an index, 0 where there is none.
fn number_at(numbers: &[u16], index: usize) -> u16
    ensures { result ≡ slice_index_or numbers.now index 0 }
{
    match numbers.get(index) {
        Some(number) => *number,
        None => 0,
    }
}

/// The number of the next object that stands where the object at an index does, 0 where none does.
fn sibling(objects: &[CheckedObject<'_>], links: &Links, index: usize) -> u16
    requires within { index < length objects.now }
    requires linked { AreLinked (map object_of objects.now) 0 links.now.first.items
        links.now.next.items }
    ensures { result ≡ (rows.row_of (map object_of objects.now) (index + 1)
        (object_at (map object_of objects.now) (index + 1))).sibling }
{
    let parent = objects[index].parent;
    if parent == 0 {
        return 0;
    }
    number_at(&links.next, index)
}

/// The numbers and words of properties.
fn copy_properties(
    alloc: Global,
    properties: &[(u8, Vec<u16>)],
) -> Result<Vec<(u8, Vec<u16>)>, AllocError>
    ensures { IfOk result (λ v. map property_of v.items ≡ map property_of properties.now) }
{
    let mut copies = Vec::new(alloc);
    for property in properties {
        let mut words = Vec::new(alloc);
        words.extend_from_slice(&property.1)?;
        copies.push((property.0, words))?;
    }
    Ok(copies)
}

/// The row of the object at an index.
fn row(
    alloc: Global,
    objects: &[CheckedObject<'_>],
    links: &Links,
    index: usize,
) -> Result<ObjectRow, AllocError>
    requires within { index < length objects.now }
    requires linked { AreLinked (map object_of objects.now) 0 links.now.first.items
        links.now.next.items }
    ensures { IfOk result (λ r. view_of r ≡ rows.row_of (map object_of objects.now) (index + 1)
        (object_at (map object_of objects.now) (index + 1))) }
{
    let object = &objects[index];
    let Ok(name) = characters(alloc, object.name) else {
        return Err(AllocError);
    };
    let Ok(properties) = copy_properties(alloc, &object.properties) else {
        return Err(AllocError);
    };
    let attributes = [
        attribute_byte(&object.attributes, 0),
        attribute_byte(&object.attributes, 8),
        attribute_byte(&object.attributes, 16),
        attribute_byte(&object.attributes, 24),
        attribute_byte(&object.attributes, 32),
        attribute_byte(&object.attributes, 40),
    ];
    Ok(ObjectRow {
        attributes,
        parent: object.parent,
        sibling: sibling(objects, links, index),
        child: number_at(&links.first, index + 1),
        name,
        properties,
    })
}

/// The rows of objects.
fn rows(alloc: Global, objects: &[CheckedObject<'_>]) -> Result<Vec<ObjectRow>, AllocError>
    requires few { length objects.now ≤ 2000 }
    requires placed { ArePlaced (map object_of objects.now) }
    ensures { IfOk result (λ v. map view_of v.items ≡ rows_of (map object_of objects.now)) }
{
    let links = links_of(alloc, objects)?;
    let mut rows = Vec::new(alloc);
    for index in 0..objects.len() {
        rows.push(row(alloc, objects, &links, index)?)?;
    }
    Ok(rows)
}

/// The object table of rows that it can hold, which is to stand at an address.
#[tactic(auto, using(code::proofs::RowBytes::written_rows))]
fn table(
    alloc: Global,
    rows: &[ObjectRow],
    defaults: &[u16],
    at: u16,
) -> Result<Vec<u8>, AllocError>
    requires rows { All IsRow rows.now }
    requires names { All HasShortName rows.now }
    requires defaults { length defaults.now ≡ 63 }
    requires fits { at + objects_length rows.now ≤ 65536 }
    ensures { IfOk result (λ v. v.items ≡ rows_bytes (map view_of rows.now) defaults.now at) }
{
    let mut words = [0u16; DEFAULT_COUNT];
    words.copy_from_slice(defaults);
    match write_objects(alloc, rows, &words, at) {
        Ok(table) => Ok(table),
        Err(TableFault::Memory) => Err(AllocError),
        Err(_) => unreachable!(),
    }
}

/// The property defaults, the entries of objects, and their property tables, where these are the
/// places of the story's parts.
pub fn put_objects(
    alloc: Global,
    bytes: &mut Vec<u8>,
    checked: &Checked<'_>,
    at: Places,
) -> Result<(), AllocError>
    requires at { at ≡ places.places_of (program_of checked.now) }
    requires fit { ObjectsFit (program_of checked.now) }
    ensures { OnOk result (Adds bytes.old bytes.new (object_bytes (program_of checked.now))) }
{
    let rows = rows(alloc, checked.objects())?;
    let table = table(alloc, &rows, checked.defaults(), at.defaults as u16)?;
    bytes.extend_from_slice(&table)
}
