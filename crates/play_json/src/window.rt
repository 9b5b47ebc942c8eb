//! The rows of the upper window.

ghost use Rattle.std.specs.Prelude.{◌≡◌, ◌++◌, ◌∷◌, [], IfOk, OnOk, map};
ghost use Rattle.serde_json.specs.View.{view};
ghost use Rattle.play_json.specs.Windows.{last_row, row_data, window_data};

use serde_json::{Value, push};
use std::alloc::{AllocError, Global};

/// The rows of a status text, an array of strings. In each, what is not UTF-8 is U+FFFD.
///
/// # Errors
///
/// Memory was refused.
pub(crate) fn window_of(alloc: Global, mut text: &[u8]) -> Result<Value, AllocError>
    ensures { IfOk result (λ value. view value ≡ window_data text.entry.now) }
{
    let mut rows = Vec::new(alloc);
    let mut row = Vec::new(alloc);
    while let [byte, rest @ ..] = text {
        if *byte == b'\n' {
            push_row(alloc, &mut rows, &row)?;
            row.clear();
        } else {
            row.push(*byte)?;
        }
        text = rest;
    }
    push_last(alloc, &mut rows, &row)?;
    Ok(Value::Array(rows))
}

/// Adds a row.
fn push_row(alloc: Global, rows: &mut Vec<Value>, row: &[u8]) -> Result<(), AllocError>
    ensures { OnOk result
        (map view rows.new.items ≡ map view rows.old.items ++ row_data row.now ∷ []) }
{
    let text = String::from_utf8_lossy(alloc, row)?;
    push(rows, Value::String(text))
}

/// Adds a last row, if anything is in it.
fn push_last(alloc: Global, rows: &mut Vec<Value>, row: &[u8]) -> Result<(), AllocError>
    ensures { OnOk result (map view rows.new.items ≡ map view rows.old.items ++ last_row row.now) }
{
    if row.is_empty() {
        return Ok(());
    }
    push_row(alloc, rows, row)
}
