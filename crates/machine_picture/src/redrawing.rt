//! What the opcodes of windows do to a picture.

ghost use Rattle.std.specs.Prelude.{◌≡◌, ◌≤◌, ◌<◌, length, slice_index_or};
ghost use Rattle.machine_picture.specs.Drawing.{picture_of};
ghost use Rattle.machine_picture.specs.Picture as definitions;

use crate::picture::{BLANK, COLUMNS, Picture, cell_at, is_inside, is_place};
use zcore_standard::StandardOperation;

/// The upper window, by its number (Z-Machine Standards Document 1.1, section 8.7.2).
const UPPER: u16 = 1;

/// The first number of `erase_window` that erases both windows: -2. The other is -1.
const BOTH: u16 = 0xFFFE;

/// The version in which each `split_window` erases the upper window.
const ERASING: u8 = 3;

impl Picture {
    /// Does to the picture what an operation of windows or streams does, which was done in this window
    /// with these values of its operands. The turn's text is then so long, and was looked at. A table that
    /// was printed is drawn when the text is looked at next.
    pub fn redraw(
        &mut self,
        version: u8,
        operation: StandardOperation,
        window: u16,
        values: &[u16],
        seen: usize,
    )
        ensures { picture_of self.new ≡ definitions.redrawn_to version operation window values.now seen
            (picture_of self.old) }
    {
        match operation {
            StandardOperation::PrintTable => {
                self.until = seen;
                self.margin = self.column;
            }
            _ => {
                self.perform(version, operation, window, values);
                self.seen = seen;
                self.until = 0;
            }
        }
    }

    /// Does to the picture what an operation does.
    fn perform(&mut self, version: u8, operation: StandardOperation, window: u16, values: &[u16])
        ensures { picture_of self.new ≡ definitions.redrawn version operation window values.now
            (picture_of self.old) }
    {
        match operation {
            StandardOperation::Restart => self.erase(),
            StandardOperation::SplitWindow => self.split(version, value_at(values, 0)),
            StandardOperation::SetWindow => self.select(value_at(values, 0)),
            StandardOperation::SetCursor => {
                self.set_cursor(window, value_at(values, 0), value_at(values, 1))
            }
            StandardOperation::EraseLine => self.erase_line(window, value_at(values, 0)),
            StandardOperation::EraseWindow => self.erase_window(value_at(values, 0)),
            _ => {}
        }
    }

    /// Puts the cursor into a row and a column.
    pub(crate) fn go_to(&mut self, row: u16, column: u16)
        ensures { picture_of self.new ≡ definitions.at_cursor row column (picture_of self.old) }
    {
        self.row = row;
        self.column = column;
    }

    /// Erases all.
    fn erase(&mut self)
        ensures { picture_of self.new ≡ definitions.all_erased (picture_of self.old) }
    {
        self.cells.clear();
        self.go_to(1, 1);
    }

    /// Does what `split_window` does with a number of rows.
    fn split(&mut self, version: u8, rows: u16)
        ensures { picture_of self.new ≡ definitions.split version rows (picture_of self.old) }
    {
        if version != ERASING {
            self.cut_after(rows);
            return;
        }
        self.cells.clear();
        self.cut_after(rows);
    }

    /// Erases the rows after a number.
    fn cut_after(&mut self, rows: u16)
        ensures { picture_of self.new ≡ definitions.cut_after rows (picture_of self.old) }
    {
        self.cells.truncate(rows as usize * COLUMNS as usize);
        if self.row <= rows {
            return;
        }
        self.go_to(1, 1);
    }

    /// Does what `set_window` does.
    fn select(&mut self, window: u16)
        ensures { picture_of self.new ≡ definitions.selected window (picture_of self.old) }
    {
        if window == 0 {
            return;
        }
        self.go_to(1, 1);
    }

    /// Does what `set_cursor` does in a window.
    fn set_cursor(&mut self, window: u16, row: u16, column: u16)
        ensures { picture_of self.new ≡ definitions.with_cursor window row column (picture_of self.old) }
    {
        if window != UPPER || !is_inside(row, column) {
            return;
        }
        self.go_to(row, column);
    }

    /// Does what `erase_line` does in a window.
    fn erase_line(&mut self, window: u16, value: u16)
        ensures { picture_of self.new ≡ definitions.line_erased window value (picture_of self.old) }
    {
        if window != UPPER || value != 1 || !is_place(self.row) {
            return;
        }
        self.erase_row();
    }

    /// Erases the row of the cursor, from there on.
    fn erase_row(&mut self)
        ensures { picture_of self.new ≡ definitions.with_line_erased (picture_of self.old) }
    {
        let to = (self.row as usize * COLUMNS as usize).min(self.cells.len());
        let from = cell_at(self.row, self.column);
        if to <= from {
            return;
        }
        erase_cells(&mut self.cells, from, to);
    }

    /// Does what `erase_window` does.
    fn erase_window(&mut self, window: u16)
        ensures { picture_of self.new ≡ definitions.window_erased window (picture_of self.old) }
    {
        if window != UPPER && window < BOTH {
            return;
        }
        self.erase();
    }
}

/// Makes cells blank, from one on up to another.
fn erase_cells(cells: &mut Vec<u16>, from: usize, to: usize)
    requires some { from < to }
    requires within { to ≤ length cells.old.items }
    ensures { cells.new.items ≡ definitions.erased from to cells.old.items }
{
    for i in from..to {
        cells[i] = BLANK;
    }
}

/// The value of an operand, or 0 where it is left out.
fn value_at(values: &[u16], place: usize) -> u16
    ensures { result ≡ slice_index_or values.now place 0 }
{
    if place < values.len() {
        values[place]
    } else {
        0
    }
}
