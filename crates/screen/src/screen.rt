//! A terminal with the upper window above the text.

ghost use Rattle.std.specs.Prelude.{◌≡◌, ◌<◌, ◌≤◌, ◌++◌, length, IfOk, OnOk};
ghost use Rattle.std.specs.List.{suffix_len};
ghost use Rattle.screen.specs.Replies as definitions;
ghost use Rattle.screen.specs.Shown.{shown};
ghost use Rattle.screen.specs.Status.{window_for};
ghost use Rattle.screen.specs.Upper as windows;

use crate::marked::{put_first, put_rest, unmarked};
use crate::sequences::{put_above_last, put_counted, put_fed, put_to_row};
use crate::shown::shown;
use crate::size::Size;
use crate::status::window_for;
use crate::upper::{CARRIAGE_RETURN, NEW_LINE, height, put_upper};
use std::alloc::{AllocError, Global};
use terminal::break_lines;

/// Deletes rows from the cursor on.
const DELETE: u8 = b'M';

/// Inserts rows at the cursor.
const INSERT: u8 = b'L';

/// A terminal of a size, with the upper window in its first rows.
#[derive(Clone, Copy)]
pub struct Screen {
    size: Size,

    /// Whether the upper window begins with the status line of versions 1 to 3.
    has_line: bool,

    /// How many rows the upper window has.
    upper: u8,
}

impl Screen {
    /// A terminal of a size, without upper window: what is drawn there begins with the status line of versions
    /// 1 to 3 or has none.
    pub fn new(size: Size, has_line: bool) -> Screen
        ensures size { result.size ≡ size }
        ensures line { result.has_line ≡ has_line }
        ensures upper { result.upper ≡ 0 }
    {
        Screen {
            size,
            has_line,
            upper: 0,
        }
    }

    /// A terminal of another size, without upper window.
    pub(crate) fn resized(self, size: Size) -> Screen
        ensures size { result.size ≡ size }
        ensures line { result.has_line ≡ self.has_line }
        ensures upper { result.upper ≡ 0 }
    {
        Screen::new(size, self.has_line)
    }

    /// Its size.
    pub fn size(self) -> Size
        ensures { result ≡ self.size }
    {
        self.size
    }

    /// Adds what is written after the last reply: the cursor goes to the row that is blank.
    ///
    /// # Errors
    ///
    /// Memory was refused. Parts may have been added.
    pub fn put_ended(self, written: &mut Vec<u8>) -> Result<(), AllocError>
        ensures { OnOk result (written.new.items ≡ written.old.items ++ definitions.ended) }
    {
        put_above_last(written, 0)
    }

    /// Adds what is written for the text of a reply, which may have marks of styles, but its last line, with lines
    /// broken at words. It answers that line, the prompt.
    ///
    /// # Errors
    ///
    /// Memory was refused. Parts may have been added.
    pub fn put_text(
        self,
        alloc: Global,
        text: &[u8],
        written: &mut Vec<u8>,
    ) -> Result<Vec<u8>, AllocError>
        ensures { IfOk result (λ prompt. definitions.AddsText self.size self.upper text.now
            written.old.items written.new.items prompt.items) }
    {
        let unmarked = unmarked(alloc, text)?;
        let mut text = shown(alloc, &unmarked.text)?;
        break_lines(&mut text, self.size.columns as usize, 0);
        self.put_lines(&text, &unmarked.each, written)?;
        let prompt = last_line(alloc, &text, &unmarked.each)?;
        Ok(prompt)
    }

    /// Adds what is written for the rest of a reply: the upper window, which shows a text, and the prompt.
    ///
    /// # Errors
    ///
    /// Memory was refused. Parts may have been added.
    pub fn put_window(
        &mut self,
        alloc: Global,
        status: &[u8],
        prompt: &[u8],
        written: &mut Vec<u8>,
    ) -> Result<(), AllocError>
        ensures added { OnOk result (written.new.items ≡ written.old.items
            ++ definitions.window_part self.old.size self.old.upper
            (shown (window_for self.old.has_line self.old.size.columns status.now)) prompt.now) }
        ensures size { self.new.size ≡ self.old.size }
        ensures line { self.new.has_line ≡ self.old.has_line }
        ensures upper { OnOk result (self.new.upper ≡ windows.height self.old.size.rows
            (shown (window_for self.old.has_line self.old.size.columns status.now))) }
    {
        let window = window_for(alloc, self.has_line, self.size.columns, status)?;
        let status = shown(alloc, &window)?;
        let height = height(self.size.rows, &status);
        self.put_drawn(height, &status, prompt, written)?;
        self.upper = height;
        Ok(())
    }

    /// Adds the upper window of so many rows, and the prompt.
    fn put_drawn(
        self,
        height: u8,
        status: &[u8],
        prompt: &[u8],
        written: &mut Vec<u8>,
    ) -> Result<(), AllocError>
        ensures { OnOk result (written.new.items
            ≡ written.old.items ++ definitions.drawn self.size self.upper height status.now prompt.now) }
    {
        put_room(written, self.upper.max(height))?;
        put_upper(written, self.size.columns, height, status)?;
        put_above_last(written, 1)?;
        written.push(CARRIAGE_RETURN)?;
        written.extend_from_slice(prompt)?;
        Ok(())
    }

    /// Adds what is written for a text of these styles but its last line.
    fn put_lines(self, text: &[u8], each: &[u8], written: &mut Vec<u8>) -> Result<(), AllocError>
        ensures added { OnOk result (written.new.items
            ≡ written.old.items ++ definitions.text_part self.upper text.now each.now) }
        ensures rows { OnOk result (self.size.rows < 256) }
        ensures upper { OnOk result (self.upper < 256) }
    {
        let last = last_line_at(text);
        self.put_removed(written)?;
        put_first(written, text, each, last)?;
        Ok(())
    }

    /// Adds what removes the rows of the upper window, and moves the cursor to the row after the user's line.
    fn put_removed(self, written: &mut Vec<u8>) -> Result<(), AllocError>
        ensures added { OnOk result (written.new.items
            ≡ written.old.items ++ definitions.upper_removed self.upper) }
        ensures rows { OnOk result (self.size.rows < 256) }
        ensures upper { OnOk result (self.upper < 256) }
    {
        put_to_row(written, 1)?;
        put_counted(written, self.upper, DELETE)?;
        put_above_last(written, self.upper)?;
        Ok(())
    }
}

/// Adds what makes room for so many rows of the upper window.
fn put_room(written: &mut Vec<u8>, rows: u8) -> Result<(), AllocError>
    ensures { OnOk result (written.new.items ≡ written.old.items ++ definitions.room_made rows) }
{
    put_fed(written, rows as usize + 1)?;
    put_to_row(written, 1)?;
    put_counted(written, rows, INSERT)?;
    Ok(())
}

/// The last line of a text, with marks of its styles.
fn last_line(alloc: Global, text: &[u8], each: &[u8]) -> Result<Vec<u8>, AllocError>
    ensures { IfOk result (λ line. line.items ≡ definitions.prompt_part text.now each.now) }
{
    let last = last_line_at(text);
    let mut line = Vec::new(alloc);
    put_rest(&mut line, text, each, last)?;
    Ok(line)
}

/// Where the last line of a text begins.
fn last_line_at(text: &[u8]) -> usize
    ensures place { result ≡ definitions.last_line_at text.now }
    ensures within { result ≤ length text.now }
{
    text.len() - last_line_length(text)
}

/// How many bytes the last line of a text has.
fn last_line_length(text: &[u8]) -> usize
    ensures { result ≡ suffix_len windows.is_in_line text.now }
{
    text.iter()
        .rev()
        .take_while(|byte| **byte != NEW_LINE)
        .count()
}
