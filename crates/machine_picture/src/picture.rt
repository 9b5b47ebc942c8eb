//! A picture, and what is printed in it.

ghost use Rattle.std.specs.Prelude.{◌≡◌, ◌≤◌, ◌+◌, ◌-◌, ◌*◌, ◌&&◌, length, take, IfOk, OnOk};
ghost use Rattle.zcore_standard.specs.Streams.{between, characters_in};
ghost use Rattle.zcore_standard.specs.Windows.{is_place};
ghost use Rattle.machine_picture.specs.Begun.{IsBegun};
ghost use Rattle.machine_picture.specs.Drawing.{IsRun, PutsWhole, picture_of, with_cells};
ghost use Rattle.machine_picture.specs.Picture as definitions;

use crate::characters::{BETWEEN, next_byte, plain_count};
use std::alloc::{AllocError, Global};
use zcore_standard::Begun;

/// How many characters a row has, and how many rows there are.
pub(crate) const COLUMNS: u16 = 255;

/// A cell in which nothing is drawn.
pub(crate) const BLANK: u16 = b' ' as u16;

/// Characters in their places, and where the next one goes.
#[derive(Drop)]
pub struct Picture {
    /// The characters of row 1, then those of row 2, and so on, as many of each. Those after the last
    /// are blank.
    pub(crate) cells: Vec<u16>,

    /// Rows are counted from 1. In row 256 nothing is drawn.
    pub(crate) row: u16,

    /// So are columns.
    pub(crate) column: u16,

    /// How many bytes of the turn's text were looked at.
    pub(crate) seen: usize,

    /// After so many bytes of it a table ends.
    pub(crate) until: usize,

    /// In this column its rows begin.
    pub(crate) margin: u16,
}

impl Picture {
    /// Nothing is drawn, and so many bytes of the turn's text were looked at.
    pub fn new(alloc: Global, seen: usize) -> Picture
        ensures { picture_of result ≡ definitions.blank_picture seen }
    {
        Picture {
            cells: Vec::new(alloc),
            row: 1,
            column: 1,
            seen,
            until: 0,
            margin: 0,
        }
    }

    /// A picture that begins with what a text shows: the text of the turn before. An empty text shows nothing. So
    /// many bytes of the turn's own text were looked at.
    ///
    /// # Errors
    ///
    /// Memory was refused.
    pub fn from_text(alloc: Global, drawing: &[u8], seen: usize) -> Result<Picture, AllocError>
        ensures { IfOk result (λ picture.
            picture_of picture ≡ definitions.picture_from drawing.now seen) }
    {
        let mut picture = Picture::new(alloc, seen);
        if drawing.is_empty() {
            return Ok(picture);
        }
        picture.draw(drawing)?;
        picture.go_to(1, 1);
        Ok(picture)
    }

    /// Looks at the text of the turn: what was added since the last time is drawn, if it is of the
    /// upper window.
    ///
    /// # Errors
    ///
    /// Memory was refused. A part may be drawn then.
    pub fn look(&mut self, is_drawn: bool, text: &[u8]) -> Result<(), AllocError>
        ensures { OnOk result (picture_of self.new
            ≡ definitions.with_text is_drawn text.now (picture_of self.old)) }
    {
        if !is_drawn {
            self.seen = text.len();
            return Ok(());
        }
        let from = self.seen.min(text.len());
        let to = self.until.max(from).min(text.len());
        self.draw_others(&text[from..to], self.margin)?;
        self.draw(&text[to..])?;
        self.seen = text.len();
        Ok(())
    }

    /// Draws characters.
    fn draw(&mut self, bytes: &[u8]) -> Result<(), AllocError>
        ensures { OnOk result (picture_of self.new
            ≡ definitions.drawn (characters_in between bytes.now) (picture_of self.old)) }
    {
        let count = self.run_length(bytes);
        self.draw_run(&bytes[..count])?;
        self.draw_others(&bytes[count..], 0)
    }

    /// How many plain characters some bytes begin with, as far as the row of the cursor has cells.
    fn run_length(&self, bytes: &[u8]) -> usize
        ensures run { IsRun (picture_of self.now) (take result bytes.now) }
        ensures within { result ≤ length bytes.now }
    {
        if !is_inside(self.row, self.column) {
            return 0;
        }
        let room = (COLUMNS + 1 - self.column) as usize;
        plain_count(bytes).min(room)
    }

    /// Draws plain characters in the row of the cursor.
    fn draw_run(&mut self, run: &[u8]) -> Result<(), AllocError>
        requires { IsRun (picture_of self.old) run.now }
        ensures { OnOk result (picture_of self.new ≡ definitions.drawn run.now (picture_of self.old)) }
    {
        if run.is_empty() {
            return Ok(());
        }
        let at = cell_at(self.row, self.column);
        set_cells(&mut self.cells, at, run)?;
        self.column += run.len() as u16;
        Ok(())
    }

    /// Draws characters one by one beside a margin, each as soon as its bytes are read.
    fn draw_others(&mut self, bytes: &[u8], margin: u16) -> Result<(), AllocError>
        ensures { OnOk result (picture_of self.new
            ≡ definitions.drawn_beside margin (characters_in between bytes.now) (picture_of self.old)) }
    {
        let mut begun = BETWEEN;
        for i in 0..bytes.len() {
            let next = next_byte(begun, bytes[i]);
            begun = self.put_whole(next, margin)?;
        }
        Ok(())
    }

    /// Draws a character that is whole, after which another begins. One that is not whole goes on.
    fn put_whole(&mut self, begun: Begun, margin: u16) -> Result<Begun, AllocError>
        requires { IsBegun begun }
        ensures { IfOk result (PutsWhole margin begun (picture_of self.old) (picture_of self.new)) }
    {
        if begun.more != 0 {
            return Ok(begun);
        }
        self.put_beside(begun.bits as u16, margin)?;
        Ok(BETWEEN)
    }

    /// Draws a character. A space before the margin only moves the cursor.
    fn put_beside(&mut self, character: u16, margin: u16) -> Result<(), AllocError>
        ensures { OnOk result (picture_of self.new
            ≡ definitions.put_beside margin character (picture_of self.old)) }
    {
        if character == BLANK && self.column < margin {
            self.column = next(self.column);
            return Ok(());
        }
        self.put(character)
    }

    /// Draws a character, or goes to the next row.
    fn put(&mut self, character: u16) -> Result<(), AllocError>
        ensures { OnOk result (picture_of self.new
            ≡ definitions.put character (picture_of self.old)) }
    {
        if character == b'\n' as u16 {
            self.row = next(self.row);
            self.column = 1;
            return Ok(());
        }
        self.write(character)?;
        self.column = next(self.column);
        Ok(())
    }

    /// Puts a character into the cell of the cursor; outside it is dropped.
    fn write(&mut self, character: u16) -> Result<(), AllocError>
        ensures { OnOk result (picture_of self.new
            ≡ definitions.with_character character (picture_of self.old)) }
    {
        if !is_inside(self.row, self.column) {
            return Ok(());
        }
        let at = cell_at(self.row, self.column);
        set_cell(&mut self.cells, at, character)
    }
}

/// The next row or column.
fn next(number: u16) -> u16
    ensures { result ≡ definitions.next number }
{
    if number <= COLUMNS {
        number + 1
    } else {
        COLUMNS + 1
    }
}

/// Whether a number is that of a row or a column.
pub(crate) fn is_place(number: u16) -> bool
    ensures { result ≡ is_place number }
{
    1 <= number && number <= COLUMNS
}

/// Whether these are a row and a column.
pub(crate) fn is_inside(row: u16, column: u16) -> bool
    ensures { result ≡ (is_place row && is_place column) }
{
    is_place(row) && is_place(column)
}

/// The number of the cell in a row and a column, from 0.
pub(crate) fn cell_at(row: u16, column: u16) -> usize
    ensures same { result ≡ (row - 1) * 255 + (column - 1) }
    ensures few { result ≤ 16776960 }
{
    row.saturating_sub(1) as usize * COLUMNS as usize + column.saturating_sub(1) as usize
}

/// Puts a character into a cell. Those between the last one and this are blank.
fn set_cell(cells: &mut Vec<u16>, at: usize, character: u16) -> Result<(), AllocError>
    requires { at ≤ 16776960 }
    ensures { OnOk result (cells.new.items ≡ definitions.with_cell at character cells.old.items) }
{
    pad(cells, at + 1)?;
    cells[at] = character;
    Ok(())
}

/// Puts characters into the cells from one on. Those between the last one and that are blank.
fn set_cells(cells: &mut Vec<u16>, at: usize, characters: &[u8]) -> Result<(), AllocError>
    requires at { at ≤ 16776960 }
    requires some { 1 ≤ length characters.now }
    requires few { length characters.now ≤ 255 }
    ensures { OnOk result (cells.new.items ≡ with_cells at characters.now cells.old.items) }
{
    pad(cells, at + characters.len())?;
    for i in 0..characters.len() {
        cells[at + i] = characters[i] as u16;
    }
    Ok(())
}

/// Adds blank cells up to so many.
fn pad(cells: &mut Vec<u16>, count: usize) -> Result<(), AllocError>
    ensures padded { OnOk result (cells.new.items ≡ definitions.padded count cells.old.items) }
    ensures enough { OnOk result (count ≤ length cells.new.items) }
{
    if count <= cells.len() {
        return Ok(());
    }
    cells.resize(count, BLANK)
}
