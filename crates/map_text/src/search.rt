//! The row of an address.

ghost use Rattle.std.specs.Prelude.{◌≤◌, length, map};
ghost use Rattle.map_text.specs.Text.{Ascend, row_of};
ghost use Rattle.map_text.specs.Found.{IsLast, IsRowAt};

use crate::row::Row;

/// The last of the first rows, so many of them; `None` of none.
fn row_before<'a>(rows: &[Row<'a>], count: usize) -> Option<Row<'a>>
    requires { count ≤ length rows.now }
    ensures { IsLast rows.now count result }
{
    if count == 0 {
        None
    } else {
        Some(rows[count - 1])
    }
}

/// The last of rows, whose addresses ascend, at or before an address; `None` where the first row is
/// after it, or there is none.
pub fn row_at<'a>(rows: &[Row<'a>], address: u32) -> Option<Row<'a>>
    ensures { Ascend 0 (map row_of rows.now) → IsRowAt rows.now address result }
{
    for number in 0..rows.len() {
        let row = &rows[number];
        if row.address > address {
            return row_before(rows, number);
        }
    }
    row_before(rows, rows.len())
}
