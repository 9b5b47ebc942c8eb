//! The map of a source.

ghost use Rattle.std.specs.Prelude.{◌≡◌, ◌≤◌, ℕ, map, IfOk};
ghost use Rattle.meaning.specs.Views.{program_of, title_of};
ghost use Rattle.map_text.specs.Text.{row_of, Ascend};
ghost use Rattle.map_lines.specs.Rows.{address_at, AreOf, IsMapOf, IsMapOfSource};
ghost use Rattle.map_lines.specs.Rows as spec;

use crate::cursor::Cursor;
use crate::routine::put_routine;
use checker::{check, discard};
use code::program_sizes;
use map_text::{Row, heading, put_rows, word_in};
use meaning::{Checked, START_LENGTH};
use std::alloc::{AllocError, Global};
use syntax::parse;
use syntax_lexer::{SourceFault, Token, lex};
use zcore::Version;
use zcore::layout::HIGH_MEMORY_WORD;

/// The first address at or after another to which a packed address leads.
fn aligned(version: Version, at: usize) -> usize
    ensures later { address_at at 0 ≤ address_at result 0 }
    ensures same { (x : ℕ) → address_at at 0 ≡ address_at x 0
        → address_at result 0 ≡ address_at (spec.aligned version x) 0 }
{
    let scale = version.scale() as usize;
    let last = at.saturating_add(scale - 1);
    last - last % scale
}

/// The rows of all routines of a program, in order of definition, which follow an address.
fn rows_of<'a>(
    alloc: Global,
    checked: &Checked<'a>,
    tokens: &[Token<'a>],
    version: Version,
    place: usize,
) -> Result<Vec<Row<'a>>, AllocError>
    ensures routines { IfOk result (λ v. AreOf version (program_of checked.now) place 0
        (map title_of checked.now.routines) (map row_of v.items)) }
    ensures ascend { IfOk result (λ v. Ascend 0 (map row_of v.items)) }
{
    let sizes = program_sizes(checked);
    let mut rows = Vec::new(alloc);
    let mut cursor = Cursor { tokens, at: 0 };
    let mut at = place;
    for number in 0..checked.routines() {
        let address = aligned(version, at);
        at = put_routine(
            alloc,
            &mut rows,
            checked,
            &sizes,
            number,
            address,
            &mut cursor,
        )?;
    }
    Ok(rows)
}

/// The text of the map of a story, which is that of a program in a version.
fn text_of_rows<'a>(
    alloc: Global,
    checked: &Checked<'a>,
    tokens: &[Token<'a>],
    version: Version,
    story: &[u8],
) -> Result<Vec<u8>, AllocError>
    ensures { IfOk result (λ text. IsMapOf version (program_of checked.now) story.now
        (map title_of checked.now.routines) text.items) }
{
    let place = word_in(story, HIGH_MEMORY_WORD) as usize + START_LENGTH;
    let rows = rows_of(alloc, checked, tokens, version, place)?;
    let mut text = heading(alloc, story)?;
    put_rows(&mut text, &rows)?;
    Ok(text)
}

/// The text of the map of a story, which is that of a source in a version.
///
/// # Errors
///
/// The fault by which the source is refused; E99, with line 0, where a growth of memory was refused.
pub fn map_of(
    alloc: Global,
    source: &[u8],
    version: Version,
    story: &[u8],
) -> Result<Vec<u8>, SourceFault>
    ensures { IfOk result (λ text. IsMapOfSource source.now version story.now text.items) }
{
    let tokens = lex(alloc, source)?;
    let program = parse(alloc, &tokens)?;
    let checked = check(alloc, program)?;
    let found = text_of_rows(alloc, &checked, &tokens, version, story);
    discard(checked);
    let text = found?;
    Ok(text)
}
