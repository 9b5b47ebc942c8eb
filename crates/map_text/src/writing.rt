//! Rows as text.

ghost use Rattle.std.specs.Prelude.{◌≡◌, ◌%◌, ◌∷◌, ◌++◌, [], map, OnOk};
ghost use Rattle.map_text.specs.Text as spec;

use crate::row::Row;
use std::alloc::AllocError;

/// The last hexadecimal digit of a number.
pub fn digit(number: u32) -> u8
    ensures { result ≡ spec.digit (number % 16) }
{
    let value = (number % 16) as u8;
    if value < 10 {
        b'0' + value
    } else {
        b'A' - 10 + value
    }
}

/// The last five hexadecimal digits of an address.
fn address_digits(address: u32) -> [u8; 5]
    ensures { result ≡ spec.address_text address }
{
    [
        digit(address / 65_536),
        digit(address / 4_096),
        digit(address / 256),
        digit(address / 16),
        digit(address),
    ]
}

/// Writes a row: the address, the name of the routine and the line, with a space between two of
/// them, and the end of the line.
///
/// # Errors
///
/// `AllocError` where memory is refused.
pub fn put_row(text: &mut Vec<u8>, row: Row<'_>) -> Result<(), AllocError>
    ensures { OnOk result (text.new.items ≡ text.old.items
        ++ spec.row_text (spec.row_of row.entry) ++ spec.line_feed ∷ []) }
{
    let alloc = *text.allocator();
    let line = row.line;
    let number = format!(in alloc; "{line}")?;
    text.extend_from_slice(&address_digits(row.address))?;
    text.push(b' ')?;
    text.extend_from_slice(row.routine)?;
    text.push(b' ')?;
    text.extend_from_slice(number.as_bytes())?;
    text.push(b'\n')?;
    Ok(())
}

/// Writes rows, one after another.
///
/// # Errors
///
/// `AllocError` where memory is refused.
pub fn put_rows(text: &mut Vec<u8>, rows: &[Row<'_>]) -> Result<(), AllocError>
    ensures { OnOk result (text.new.items ≡ text.old.items
        ++ spec.rows_text (map spec.row_of rows.now)) }
{
    for row in rows {
        put_row(text, *row)?;
    }
    Ok(())
}
