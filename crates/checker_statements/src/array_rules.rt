//! Definitions of arrays: the rules that they can break, and the bytes that they begin with.

ghost use Rattle.std.specs.Prelude.{◌≡◌, ◌≢◌, ◌++◌, OnOk, map, replicate, length, Some};
ghost use Rattle.std.specs.List.{flat_map};
ghost use Rattle.syntax_trees.specs.declared.tree.Width.TheVariants as widths;
ghost use Rattle.syntax_directives.specs.Views.{value_tree, array_tree};
ghost use Rattle.checker_values.specs.Noted.{noted};
ghost use Rattle.checker_values.specs.Scope.{file_in};
ghost use Rattle.checker_statements.specs.Arrays as spec;
ghost use Rattle.checker_statements.specs.Entries.{most, number_bytes, own_entry_bytes};
ghost use Rattle.checker_statements.specs.Entries.{own_entry_breaches, IsArrayAdded};

use checker_values::{File, Known, Tally, literal, note, or_zero};
use meaning::Arrays;
use meaning::limits::MOST_ARRAY_BYTES;
use std::alloc::AllocError;
use syntax::{Array, ArrayKind, ArrayValue};
use syntax_lexer::{BAD_ARRAY, Position};
use syntax_trees::Width;

fn width_of(kind: ArrayKind) -> Width
    ensures { result ≡ spec.width_of kind }
{
    match kind {
        ArrayKind::Bytes => Width::Byte,
        ArrayKind::Words => Width::Word,
        ArrayKind::String => Width::Byte,
        ArrayKind::Table => Width::Word,
    }
}

// The most entries: 32,000 bytes in all, and as many as byte 0 of a `string` can tell.
fn most_entries(kind: ArrayKind) -> usize
    ensures { result ≡ most kind }
{
    match kind {
        ArrayKind::Bytes => MOST_ARRAY_BYTES,
        ArrayKind::Words => MOST_ARRAY_BYTES / 2,
        ArrayKind::String => 255,
        ArrayKind::Table => MOST_ARRAY_BYTES / 2 - 1,
    }
}

#[tactic(auto, using(crate::proofs::ArraySizes::size_is))]
fn is_size(kind: ArrayKind, count: usize) -> bool
    ensures { result ≡ spec.is_size kind count }
{
    count >= 1 && count <= most_entries(kind)
}

// A number of entries, of the array whose name stands there.
#[tactic(auto, using(checker_values::proofs::Noted::noted_none))]
fn count_rule(position: Position, kind: ArrayKind, count: usize, tally: &mut Tally)
    ensures { tally.new ≡ noted tally.old (spec.count_breaches position kind count) }
{
    if !is_size(kind, count) {
        note(tally, BAD_ARRAY, position);
    }
}

// A size, and how many zeros it makes.
#[tactic(auto, using(checker_values::proofs::Noted::noted_none))]
fn zeros_of(position: Position, kind: ArrayKind, size: Option<Known>, tally: &mut Tally) -> usize
    ensures value { result ≡ spec.zeros kind size }
    ensures breaches { tally.new ≡ noted tally.old (spec.size_breaches position kind size) }
{
    match size {
        None => 0,
        Some(Known::Key(_)) => {
            note(tally, BAD_ARRAY, position);
            0
        }
        Some(Known::Number(count)) => {
            let count = count as usize;
            count_rule(position, kind, count, tally);
            if is_size(kind, count) { count } else { 0 }
        }
    }
}

fn add_entry(bytes: &mut Vec<u8>, width: Width, value: usize) -> Result<(), AllocError>
    ensures { OnOk result (bytes.new.items ≡ bytes.old.items ++ spec.entry_bytes width value) }
{
    if let Width::Word = width {
        bytes.push((value / 256 % 256) as u8)?;
    }
    bytes.push((value % 256) as u8)?;
    Ok(())
}

// The number of the entries, where the kind has it in front.
fn add_number(bytes: &mut Vec<u8>, kind: ArrayKind, count: usize) -> Result<(), AllocError>
    ensures { OnOk result (bytes.new.items ≡ bytes.old.items ++ number_bytes kind count) }
{
    match kind {
        ArrayKind::Bytes => Ok(()),
        ArrayKind::Words => Ok(()),
        ArrayKind::String => add_entry(bytes, Width::Byte, count),
        ArrayKind::Table => add_entry(bytes, Width::Word, count),
    }
}

fn add_zeros(bytes: &mut Vec<u8>, width: Width, count: usize) -> Result<(), AllocError>
    ensures { OnOk result (bytes.new.items ≡ bytes.old.items
        ++ flat_map (spec.entry_bytes width) (replicate count 0)) }
{
    for _turn in 0..count {
        add_entry(bytes, width, 0)?;
    }
    Ok(())
}

#[tactic(auto, using(checker_values::proofs::Noted::noted_none))]
fn byte_rule(position: Position, value: Known, tally: &mut Tally)
    ensures { tally.new ≡ noted tally.old (spec.wide_breaches position widths.Byte value) }
{
    match value {
        Known::Number(number) => {
            if number > 255 {
                note(tally, BAD_ARRAY, position);
            }
        }
        Known::Key(_) => note(tally, BAD_ARRAY, position),
    }
}

#[tactic(auto, using(checker_values::proofs::Noted::noted_none))]
fn wide_rule(position: Position, width: Width, value: Known, tally: &mut Tally)
    ensures { tally.new ≡ noted tally.old (spec.wide_breaches position width value) }
{
    if let Width::Byte = width {
        byte_rule(position, value, tally);
    }
}

// An entry of an array.
fn entry(value: &ArrayValue<'_>, width: Width, file: &File, tally: &mut Tally) -> usize
    ensures value { result ≡ spec.entry_value (file_in file.now) (value_tree value.now) }
    ensures breaches { tally.new ≡ noted tally.old
        (spec.entry_breaches file.now.table.entries width (value_tree value.now)) }
{
    let known = or_zero(literal(&value.value, &file.table, tally));
    wide_rule(value.position, width, known, tally);
    file.numbers.value(known) as usize
}

fn add_entries(
    values: &[ArrayValue<'_>],
    width: Width,
    file: &File,
    bytes: &mut Vec<u8>,
    tally: &mut Tally,
) -> Result<(), AllocError>
    ensures bytes { OnOk result (bytes.new.items ≡ bytes.old.items
        ++ flat_map (own_entry_bytes (file_in file.now) width) values.now) }
    ensures breaches { OnOk result (tally.new ≡ noted tally.old
        (flat_map (own_entry_breaches file.now.table.entries width) values.now)) }
{
    for value in values {
        let number = entry(value, width, file, tally);
        add_entry(bytes, width, number)?;
    }
    Ok(())
}

// One value: it is the number of entries.
fn add_sized(
    values: &[ArrayValue<'_>],
    position: Position,
    kind: ArrayKind,
    file: &File,
    bytes: &mut Vec<u8>,
    tally: &mut Tally,
) -> Result<(), AllocError>
    requires one { length values.now ≡ 1 }
    ensures bytes { OnOk result (bytes.new.items ≡ bytes.old.items ++ spec.bytes_of kind
        (spec.entries_of (file_in file.now) kind (map value_tree values.now))) }
    ensures breaches { OnOk result (tally.new ≡ noted tally.old
        (spec.values_breaches file.now.table.entries position kind (map value_tree values.now))) }
{
    let size = literal(&values[0].value, &file.table, tally);
    let count = zeros_of(position, kind, size, tally);
    add_number(bytes, kind, count)?;
    add_zeros(bytes, width_of(kind), count)?;
    Ok(())
}

// Several values: they are the entries.
fn add_listed(
    values: &[ArrayValue<'_>],
    position: Position,
    kind: ArrayKind,
    file: &File,
    bytes: &mut Vec<u8>,
    tally: &mut Tally,
) -> Result<(), AllocError>
    requires several { length values.now ≢ 1 }
    ensures bytes { OnOk result (bytes.new.items ≡ bytes.old.items ++ spec.bytes_of kind
        (spec.entries_of (file_in file.now) kind (map value_tree values.now))) }
    ensures breaches { OnOk result (tally.new ≡ noted tally.old
        (spec.values_breaches file.now.table.entries position kind (map value_tree values.now))) }
{
    count_rule(position, kind, values.len(), tally);
    add_number(bytes, kind, values.len())?;
    add_entries(values, width_of(kind), file, bytes, tally)?;
    Ok(())
}

fn add_values(
    values: &[ArrayValue<'_>],
    position: Position,
    kind: ArrayKind,
    file: &File,
    bytes: &mut Vec<u8>,
    tally: &mut Tally,
) -> Result<(), AllocError>
    ensures bytes { OnOk result (bytes.new.items ≡ bytes.old.items ++ spec.bytes_of kind
        (spec.entries_of (file_in file.now) kind (map value_tree values.now))) }
    ensures breaches { OnOk result (tally.new ≡ noted tally.old
        (spec.values_breaches file.now.table.entries position kind (map value_tree values.now))) }
{
    if values.len() == 1 {
        add_sized(values, position, kind, file, bytes, tally)
    } else {
        add_listed(values, position, kind, file, bytes, tally)
    }
}

/// Adds what an array begins with, and notes the rules that its definition breaks.
///
/// # Errors
///
/// `AllocError` where memory is refused.
pub fn array(
    written: &Array<'_>,
    file: &File,
    found: &mut Arrays,
    tally: &mut Tally,
) -> Result<(), AllocError>
    ensures added { OnOk result (IsArrayAdded
        (spec.array_bytes (file_in file.now) (array_tree written.now)) found.old found.new) }
    ensures breaches { OnOk result (tally.new ≡ noted tally.old
        (spec.array_breaches file.now.table.entries (array_tree written.now))) }
{
    let before = found.bytes.len();
    let position = written.name.position;
    let bytes = &mut found.bytes;
    add_values(&written.values, position, written.kind, file, bytes, tally)?;
    found.sizes.push(found.bytes.len() - before)?;
    Ok(())
}
