//! The rows of the upper window.

ghost use Rattle.std.specs.Prelude.{◌≡◌, ◌≤◌, ◌++◌, length, replicate, OnOk};
ghost use Rattle.std.specs.List.{count_by, prefix_len};
ghost use Rattle.screen.specs.Upper as definitions;

use crate::after::after;
use crate::sequences::put_to_row;
use std::alloc::AllocError;

/// What ends a line.
pub(crate) const NEW_LINE: u8 = b'\n';

/// What moves the cursor to the beginning of its row.
pub(crate) const CARRIAGE_RETURN: u8 = b'\r';

/// How many rows are left for the story, with the one that is blank.
const ROWS_LEFT: u8 = 4;

/// How the upper window begins: lines are not broken in the last column, and characters are in reverse video.
const BEGUN: &[u8] = b"\x1b[?7l\x1b[7m";

/// How it ends.
const ENDED: &[u8] = b"\x1b[m\x1b[?7h";

/// How many rows the upper window has at most on a terminal of so many.
pub fn most_rows(rows: u8) -> u8
    ensures { result ≡ definitions.most_rows rows }
{
    rows.saturating_sub(ROWS_LEFT)
}

/// How many rows the upper window has on a terminal of so many.
pub(crate) fn height(rows: u8, text: &[u8]) -> u8
    ensures { result ≡ definitions.height rows text.now }
{
    if text.is_empty() {
        return 0;
    }
    let most = most_rows(rows);
    let breaks = line_breaks(text);
    if breaks < most as usize {
        breaks as u8 + 1
    } else {
        most
    }
}

/// How many new lines a text has.
fn line_breaks(text: &[u8]) -> usize
    ensures { result ≡ count_by definitions.is_new_line text.now }
{
    text.iter().filter(|byte| **byte == NEW_LINE).count()
}

/// Adds the upper window: so many rows of a text.
pub(crate) fn put_upper(
    written: &mut Vec<u8>,
    columns: u8,
    count: u8,
    text: &[u8],
) -> Result<(), AllocError>
    ensures { OnOk result (written.new.items
        ≡ written.old.items ++ definitions.upper columns count text.now) }
{
    written.extend_from_slice(BEGUN)?;
    put_rows(written, columns, count, text)?;
    written.extend_from_slice(ENDED)?;
    Ok(())
}

/// Adds so many rows of a text.
fn put_rows(written: &mut Vec<u8>, columns: u8, count: u8, text: &[u8]) -> Result<(), AllocError>
    ensures { OnOk result (written.new.items
        ≡ written.old.items ++ definitions.rows_from columns 1 count text.now) }
{
    let mut rest = text;
    for row in 0..count {
        let end = line_length(rest);
        put_row(written, columns, row + 1, &rest[..end])?;
        rest = after(rest, end);
    }
    Ok(())
}

/// How many bytes the first line of a text has.
pub(crate) fn line_length(text: &[u8]) -> usize
    ensures length { result ≡ prefix_len definitions.is_in_line text.now }
    ensures within { result ≤ length text.now }
{
    text.iter().take_while(|byte| **byte != NEW_LINE).count()
}

/// Adds a row: blanks, and over them what fits of its line.
fn put_row(written: &mut Vec<u8>, columns: u8, row: u8, line: &[u8]) -> Result<(), AllocError>
    ensures { OnOk result (written.new.items ≡ written.old.items ++ definitions.row columns row line.now) }
{
    put_to_row(written, row)?;
    put_blanks(written, columns)?;
    written.push(CARRIAGE_RETURN)?;
    put_fitting(written, columns, line)?;
    Ok(())
}

/// Adds so many blanks.
pub(crate) fn put_blanks(written: &mut Vec<u8>, columns: u8) -> Result<(), AllocError>
    ensures { OnOk result (written.new.items ≡ written.old.items ++ replicate columns 32) }
{
    for done in 0..columns {
        written.push(b' ')?;
    }
    Ok(())
}

/// Adds the characters of a line for which there is room.
pub(crate) fn put_fitting(written: &mut Vec<u8>, columns: u8, line: &[u8]) -> Result<(), AllocError>
    ensures { OnOk result (written.new.items ≡ written.old.items ++ definitions.fitting columns line.now) }
{
    let mut room = columns;
    for byte in line {
        let taken = width(*byte);
        if room < taken {
            return Ok(());
        }
        room -= taken;
        written.push(*byte)?;
    }
    Ok(())
}

/// How many columns a byte takes: one for the first of each character.
fn width(byte: u8) -> u8
    ensures { result ≡ definitions.width byte }
{
    if 0x80 <= byte && byte < 0xC0 { 0 } else { 1 }
}
