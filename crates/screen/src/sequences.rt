//! Control sequences of a terminal.

ghost use Rattle.std.specs.Prelude.{◌≡◌, ◌++◌, OnOk};
ghost use Rattle.screen.specs.Sequences.{above_last, counted, fed, sequence, to_row};

use std::alloc::AllocError;

/// What begins a control sequence, with `[` or a letter after it.
const ESCAPE: u8 = 0x1B;

/// Moves the cursor up.
const UP: u8 = b'A';

/// How many numbers three digits state.
const HUNDRED: u8 = 100;

/// Adds the sequence of a number and a letter.
pub(crate) fn put_sequence(written: &mut Vec<u8>, number: u8, letter: u8) -> Result<(), AllocError>
    ensures { OnOk result (written.new.items ≡ written.old.items ++ sequence number letter) }
{
    let hundreds = b'0' + number / HUNDRED;
    let tens = b'0' + number / 10 % 10;
    let ones = b'0' + number % 10;
    written.extend_from_slice(&[ESCAPE, b'[', hundreds, tens, ones, letter])
}

/// Adds what moves the cursor to the beginning of a row.
pub(crate) fn put_to_row(written: &mut Vec<u8>, row: u8) -> Result<(), AllocError>
    ensures { OnOk result (written.new.items ≡ written.old.items ++ to_row row) }
{
    put_sequence(written, row, b'H')
}

/// Adds a sequence that does something to so many rows, unless there are none: terminals take 0 for 1.
pub(crate) fn put_counted(written: &mut Vec<u8>, rows: u8, letter: u8) -> Result<(), AllocError>
    ensures { OnOk result (written.new.items ≡ written.old.items ++ counted rows letter) }
{
    if rows == 0 {
        return Ok(());
    }
    put_sequence(written, rows, letter)
}

/// Adds what moves the cursor to the beginning of the row so many rows above the last one.
pub(crate) fn put_above_last(written: &mut Vec<u8>, rows: u8) -> Result<(), AllocError>
    ensures { OnOk result (written.new.items ≡ written.old.items ++ above_last rows) }
{
    put_to_row(written, u8::MAX)?;
    put_counted(written, rows, UP)?;
    Ok(())
}

/// Adds what moves the cursor down so many times, and in the last row all rows up.
pub(crate) fn put_fed(written: &mut Vec<u8>, rows: usize) -> Result<(), AllocError>
    ensures { OnOk result (written.new.items ≡ written.old.items ++ fed rows) }
{
    for done in 0..rows {
        written.extend_from_slice(&[ESCAPE, b'D'])?;
    }
    Ok(())
}
