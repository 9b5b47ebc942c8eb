//! The rows of a routine.

ghost use Rattle.std.specs.Prelude.{◌≡◌, ◌<◌, ◌≤◌, ◌+◌, ℕ, Some, length, map, reverse, slice_get, IfOk, OnOk};
ghost use Rattle.meaning.specs.declared.checked.CheckedRoutine.{CheckedRoutine};
ghost use Rattle.meaning.specs.Views.{program_of, title_of};
ghost use Rattle.code.specs.Written.{AreSizesOf};
ghost use Rattle.code_instructions.specs.Places.{place_in};
ghost use Rattle.map_text.specs.Text as text;
ghost use Rattle.map_lines.specs.Rows.{address_at, lefts_at, AddsMarks, AddsRoutine};

use crate::cursor::Cursor;
use crate::mark::Mark;
use crate::passing::Passing;
use crate::statements::pass_statements;
use code::{CodeFault, Sizes, routine_code};
use code_instructions::place;
use map_text::Row;
use meaning::{Checked, CheckedRoutine};
use std::alloc::{AllocError, Global};
use syntax_lexer::Sign;
use syntax_trees::Name;

/// The number of no item, at whose place the code of a routine ends.
const NO_ITEM: usize = usize::MAX;

/// The marks of a routine, whose name is the next token: of its statements, and of its end.
fn marks_of<'a>(
    alloc: Global,
    routine: &CheckedRoutine<'a>,
    cursor: &mut Cursor<'_, 'a>,
) -> Result<Vec<Mark>, AllocError> {
    cursor.pass_through(Sign::Semicolon);
    let mut passing = Passing::new(alloc, *cursor);
    pass_statements(&mut passing, &routine.body)?;
    passing.mark()?;
    *cursor = passing.rest();
    Ok(passing.into_marks())
}

/// How many bytes there are from each item of a routine on to the end, the end's first.
fn left_of_routine<'b>(
    alloc: Global,
    checked: &'b Checked<'_>,
    sizes: &Sizes<'b>,
    number: usize,
) -> Result<Vec<usize>, AllocError>
    requires routine { number < length checked.now.routines }
    requires sizes { AreSizesOf sizes.now (program_of checked.now) }
    ensures rise { IfOk result (λ v. (m n : ℕ) → m ≤ n
        → place_in (reverse v.items) m ≤ place_in (reverse v.items) n) }
    ensures left { IfOk result (λ v. reverse v.items ≡ lefts_at (program_of checked.now) number) }
{
    match routine_code(alloc, checked, sizes, number) {
        Ok(code) => Ok(code.into_left()),
        Err(CodeFault::Memory) => Err(AllocError),
    }
}

/// Where the rows of a routine begin: its name, and its first byte.
#[derive(Clone, Copy)]
struct Beginning<'a> {
    name: Name<'a>,
    address: usize,
}

/// A row of a routine: so many bytes after its first one, of a line.
fn row_of(beginning: Beginning<'_>, after: usize, line: usize) -> Row<'_>
    ensures routine { result.routine.now ≡ beginning.entry.name.text.now }
    ensures line { result.line ≡ line }
    ensures address { result.address ≡ address_at beginning.entry.address after }
{
    let address = beginning.address.saturating_add(after);
    Row {
        address: u32::try_from(address).unwrap_or(u32::MAX),
        routine: beginning.name.text,
        line,
    }
}

/// Adds the rows of marks, by how many bytes there are from each item on.
fn put_marks<'a>(
    rows: &mut Vec<Row<'a>>,
    beginning: Beginning<'a>,
    left: &[usize],
    marks: &[Mark],
) -> Result<(), AllocError>
    requires { (m n : ℕ) → m ≤ n → place_in (reverse left.now) m ≤ place_in (reverse left.now) n }
    ensures { OnOk result (AddsMarks beginning.entry.name.text.now (reverse left.now)
        beginning.entry.address rows.old.items rows.new.items (length marks.now)
        (address_at beginning.entry.address (place_in (reverse left.now) NO_ITEM + 1))) }
{
    let mut item: usize = 0;
    for mark in marks {
        item = item.saturating_add(mark.items);
        let after = place(left, item).saturating_add(1);
        rows.push(row_of(beginning, after, mark.line))?;
    }
    Ok(())
}

/// Adds the rows of the routine of a number, which is at an address, in a program of these sizes,
/// and answers where it ends.
///
/// # Errors
///
/// `AllocError` where memory is refused.
pub fn put_routine<'a, 'b>(
    alloc: Global,
    rows: &mut Vec<Row<'a>>,
    checked: &'b Checked<'a>,
    sizes: &Sizes<'b>,
    number: usize,
    address: usize,
    cursor: &mut Cursor<'_, 'a>,
) -> Result<usize, AllocError>
    requires routine { number < length checked.now.routines }
    requires sizes { AreSizesOf sizes.now (program_of checked.now) }
    ensures { IfOk result (λ end. (r : CheckedRoutine)
        → Some r ≡ slice_get checked.now.routines number
        → AddsRoutine (title_of r) (lefts_at (program_of checked.now) number) address
        (map text.row_of rows.old.items) (map text.row_of rows.new.items) end) }
{
    let routine = checked.routine(number);
    let name = routine.name;
    let beginning = Beginning { name, address };
    cursor.pass_to(name.position.offset);
    let marks = marks_of(alloc, routine, cursor)?;
    let left = left_of_routine(alloc, checked, sizes, number)?;
    rows.push(row_of(beginning, 0, name.position.line))?;
    put_marks(rows, beginning, &left, &marks)?;
    let length = place(&left, NO_ITEM).saturating_add(1);
    Ok(address.saturating_add(length))
}
