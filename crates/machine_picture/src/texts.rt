//! The text of a picture.

ghost use Rattle.std.specs.Prelude.{◌≡◌, ◌≤◌, ◌++◌, [], ◌∷◌, ◌*◌, length, take, drop, OnOk};
ghost use Rattle.std.specs.List.{flat_map, suffix_len};
ghost use Rattle.zcore_standard.specs.Unicode.{utf_8};
ghost use Rattle.zcore_standard.specs.Windows as windows;
ghost use Rattle.machine_picture.specs.Drawing.{picture_of};
ghost use Rattle.machine_picture.specs.Picture as definitions;

use crate::picture::{BLANK, COLUMNS, Picture};
use std::alloc::AllocError;

impl Picture {
    /// Puts the rows of the picture into an empty text, as far as the last in which something is drawn, without the
    /// spaces at their ends.
    ///
    /// # Errors
    ///
    /// Memory was refused. A part of them may be in the text then.
    pub fn put_text(&self, text: &mut Vec<u8>) -> Result<(), AllocError>
        requires { text.old.items ≡ [] }
        ensures { OnOk result (text.new.items ≡ definitions.picture_text (picture_of self.now)) }
    {
        put_rows(text, self.cells.as_slice())?;
        let ended = text.len() - new_lines_at_end(text.as_slice());
        text.truncate(ended);
        Ok(())
    }
}

/// Puts the rows of cells into an empty text, each with a newline.
fn put_rows(text: &mut Vec<u8>, cells: &[u16]) -> Result<(), AllocError>
    requires { text.old.items ≡ [] }
    ensures { OnOk result (text.new.items
        ≡ definitions.rows_text (definitions.row_count cells.now) cells.now) }
{
    for row in 0..cells.len() / COLUMNS as usize + 1 {
        let from = row * COLUMNS as usize;
        let to = (from + COLUMNS as usize).min(cells.len());
        put_row(text, &cells[from..to])?;
    }
    Ok(())
}

/// Adds a row to a text, without the spaces at its end, and a newline.
fn put_row(text: &mut Vec<u8>, cells: &[u16]) -> Result<(), AllocError>
    ensures { OnOk result (text.new.items ≡ text.old.items ++ definitions.row_text cells.now) }
{
    put_characters(text, &cells[..bare_length(cells)])?;
    text.push(b'\n')?;
    Ok(())
}

/// How many of some cells come before the blank ones at their end.
fn bare_length(cells: &[u16]) -> usize
    ensures bare { take result cells.now ≡ windows.without_spaces cells.now }
    ensures within { result ≤ length cells.now }
{
    cells.len() - blanks_at_end(cells)
}

/// How many blank cells are at the end of some.
fn blanks_at_end(cells: &[u16]) -> usize
    ensures { result ≡ suffix_len windows.is_space cells.now }
{
    cells
        .iter()
        .rev()
        .take_while(|cell| **cell == BLANK)
        .count()
}

/// How many newlines a text ends with.
fn new_lines_at_end(text: &[u8]) -> usize
    ensures { result ≡ suffix_len windows.is_new_line text.now }
{
    text.iter().rev().take_while(|byte| **byte == b'\n').count()
}

/// Adds characters to a text.
fn put_characters(text: &mut Vec<u8>, characters: &[u16]) -> Result<(), AllocError>
    ensures { OnOk result (text.new.items ≡ text.old.items ++ flat_map utf_8 characters.now) }
{
    for i in 0..characters.len() {
        put_character(text, characters[i])?;
    }
    Ok(())
}

/// Adds a character to a text, by its bytes in UTF-8.
fn put_character(text: &mut Vec<u8>, character: u16) -> Result<(), AllocError>
    ensures { OnOk result (text.new.items ≡ text.old.items ++ utf_8 character) }
{
    if character < 0x80 {
        text.push(character as u8)?;
        Ok(())
    } else if character < 0x800 {
        let bytes = [(0xC0 + character / 64) as u8, (0x80 + character % 64) as u8];
        text.extend_from_slice(&bytes)
    } else {
        let bytes = [
            (0xE0 + character / 4_096) as u8,
            (0x80 + character / 64 % 64) as u8,
            (0x80 + character % 64) as u8,
        ];
        text.extend_from_slice(&bytes)
    }
}
