//! Tables that are printed (Z-Machine Standards Document 1.1, section 15).

ghost use Rattle.std.specs.Prelude.{◌≡◌, ◌+◌, ◌<◌, ◌≤◌, ℕ, drop, length, replicate, take, true};
ghost use Rattle.zcore.specs.Layout.{text_limit};
ghost use Rattle.zcore_standard.specs.Characters.{print_codes};
ghost use Rattle.zcore_standard.specs.Tables.{are_readable, print_table, row_division, rows};
ghost use Rattle.zcore_standard.specs.Tables.{rows_length, rows_size};
ghost use Rattle.machine_opcodes.specs.Printed.{HasBegun, Grew, ToldFrom};
ghost use Rattle.machine_frames.specs.Contents.{memory_of};
ghost use Rattle.machine_frames.specs.States.{IsSound};

use crate::testing::test_readable;
use journal::Recorded;
use machine_frames::{End, Store};
use machine_standard_texts::{print_code, spend_for};
use zcore::Next;
use zcore::layout::NEW_LINE;

/// The code of a space.
const SPACE: u16 = 32;

/// Prints a table of ZSCII codes, with a new line between a row and the next, and then `indent` spaces, so that it
/// begins where the first row did: `print_table`. These are the characters of the codes from 155 on. Between rows,
/// `skip` bytes are not printed. It takes fuel for the characters and the spaces.
///
/// # Errors
///
/// M3 where a byte to print cannot be read, then the limit of fuel; nothing is printed then. The
/// limit of text.
/// `End::Memory` where memory was refused: the turn is given up.
pub fn print_table(
    store: &mut Recorded<Store>,
    text: &mut Vec<u8>,
    start: usize,
    characters: &[u16],
    here: Next,
    after: u32,
    table: u16,
    width: u16,
    height: u16,
    skip: u16,
    indent: usize,
) -> Result<Next, End>
    requires sound { IsSound store.old.store }
    requires text { HasBegun start text.old.items }
    requires indent { indent ≤ text_limit }
    ensures told { ToldFrom start result store.old text.old.items store.new text.new.items
        (print_table characters.now here after table width height skip indent) }
    ensures text { Grew start text.old.items text.new.items }
{
    test_readable(store, table as usize, rows_size(width, height, skip))?;
    let fuel = spend_for(rows_length(width, height, indent), here.fuel)?;
    print_rows(
        store, text, start, characters, table, width, height, skip, indent,
    )?;
    Ok(Next {
        program_counter: after,
        fuel,
    })
}

/// How many bytes a table has from the first character of its first row to the last character of
/// its last row.
fn rows_size(width: u16, height: u16, skip: u16) -> usize
    ensures same { result ≡ rows_size width height skip }
    ensures short { result < 8590000000 }
{
    if width == 0 || height == 0 {
        return 0;
    }
    (height as usize - 1) * (width as usize + skip as usize) + width as usize
}

/// How many characters of a table are printed, but for new lines.
fn rows_length(width: u16, height: u16, indent: usize) -> usize
    requires { indent ≤ text_limit }
    ensures { result ≡ rows_length width height indent }
{
    if height == 0 {
        return 0;
    }
    width as usize * height as usize + (height as usize - 1) * indent
}

/// Prints the rows of a table that can be read. The limit of text.
fn print_rows(
    store: &mut Recorded<Store>,
    text: &mut Vec<u8>,
    start: usize,
    characters: &[u16],
    table: u16,
    width: u16,
    height: u16,
    skip: u16,
    indent: usize,
) -> Result<(), End>
    requires sound { IsSound store.old.store }
    requires text { HasBegun start text.old.items }
    requires readable { are_readable (memory_of store.old.store) table
        (rows_size width height skip) ≡ true }
    ensures told { ToldFrom start result store.old text.old.items store.new text.new.items
        (print_codes characters.now (rows (memory_of store.old.store) table width skip indent height)) }
    ensures text { Grew start text.old.items text.new.items }
{
    let step = width as usize + skip as usize;
    for row in 0..height {
        print_row_division(store, text, start, characters, indent, row)?;
        print_row(
            store,
            text,
            start,
            characters,
            table as usize + row as usize * step,
            width,
        )?;
    }
    Ok(())
}

/// Prints a new line before each row but the first, and so many spaces. The limit of text.
fn print_row_division(
    store: &mut Recorded<Store>,
    text: &mut Vec<u8>,
    start: usize,
    characters: &[u16],
    indent: usize,
    row: u16,
) -> Result<(), End>
    requires sound { IsSound store.old.store }
    requires text { HasBegun start text.old.items }
    ensures told { ToldFrom start result store.old text.old.items store.new text.new.items
        (print_codes characters.now (row_division indent row)) }
    ensures text { Grew start text.old.items text.new.items }
{
    if row == 0 {
        return Ok(());
    }
    print_code(store, text, start, characters, NEW_LINE as u16)?;
    print_spaces(store, text, start, characters, indent)
}

/// Prints so many spaces. The limit of text.
fn print_spaces(
    store: &mut Recorded<Store>,
    text: &mut Vec<u8>,
    start: usize,
    characters: &[u16],
    count: usize,
) -> Result<(), End>
    requires sound { IsSound store.old.store }
    requires text { HasBegun start text.old.items }
    ensures told { ToldFrom start result store.old text.old.items store.new text.new.items
        (print_codes characters.now (replicate count 32)) }
    ensures text { Grew start text.old.items text.new.items }
{
    for _ in 0..count {
        print_code(store, text, start, characters, SPACE)?;
    }
    Ok(())
}

/// Prints the codes of a row. The limit of text.
fn print_row(
    store: &mut Recorded<Store>,
    text: &mut Vec<u8>,
    start: usize,
    characters: &[u16],
    at: usize,
    width: u16,
) -> Result<(), End>
    requires sound { IsSound store.old.store }
    requires text { HasBegun start text.old.items }
    requires row { (i : ℕ) → i < width → at + i < length (memory_of store.old.store) }
    ensures told { ToldFrom start result store.old text.old.items store.new text.new.items
        (print_codes characters.now (take width (drop at (memory_of store.old.store)))) }
    ensures text { Grew start text.old.items text.new.items }
{
    for i in 0..width {
        let code = store.store().byte(at + i as usize);
        print_code(store, text, start, characters, code as u16)?;
    }
    Ok(())
}
