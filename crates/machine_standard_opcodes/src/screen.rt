//! The screen, of which a plain terminal has none (Z-Machine Standards Document 1.1, sections 8 and
//! 15).

ghost use Rattle.std.specs.Prelude.{◌≡◌, ◌<◌, ◌≤◌, ◌+◌, ◌&&◌, nat_le, nat_lt, true, drop, if◌then◌else◌, OnOk};
ghost use Rattle.zcore.specs.Layout.{header_size, text_limit};
ghost use Rattle.zcore_standard.specs.Screen as definitions;
ghost use Rattle.machine_frames.specs.States.{IsStoreOf};
ghost use Rattle.machine_frames.specs.Went.{Went};
ghost use Rattle.machine_opcodes.specs.Printed.{HasBegun};
ghost use Rattle.machine_standard_windows.specs.TurnState.{place};
ghost use Rattle.machine_standard_opcodes.specs.Left.{are_writable, words_before};

use crate::streams::heard_length;
use journal::Recorded;
use machine_frames::{End, Store, write_word};
use machine_standard_windows::{TurnState, row_in, width_in};
use zcore::layout::HEADER_LENGTH;
use zcore::{Fault, Header, Next, Place};

/// The greatest word.
const GREATEST: usize = 0xFFFF;

/// Where the cursor is, counted from 1.
#[derive(Clone, Copy, Drop)]
pub struct Cursor {
    /// Its row.
    pub row: u16,

    /// Its column.
    pub column: u16,
}

/// Where the cursor is, in a turn whose text begins at a place of a text. What goes to open streams does not move it.
pub fn cursor_of(text: &[u8], start: usize, turn: &TurnState) -> Cursor
    requires { HasBegun start text.now }
    ensures row { (next : Next)
        → result.row ≡ definitions.cursor_row (place turn.now next) (drop start text.now) }
    ensures column { (next : Next)
        → result.column ≡ definitions.cursor_column (place turn.now next) (drop start text.now) }
{
    let long = text.len() - start;
    let heard = &text[start..start + heard_length(turn.streams.as_slice(), long)];
    Cursor {
        row: row_in(turn.upper, heard).min(GREATEST) as u16,
        column: (1 + width_in(turn.upper, heard)).min(GREATEST) as u16,
    }
}

/// How many characters from the left edge printing begins, in a turn whose text begins at a place of a text. A stream
/// has no edge.
pub fn indent_of(text: &[u8], start: usize, turn: &TurnState) -> usize
    requires { HasBegun start text.now }
    ensures same { (next : Next)
        → result ≡ definitions.indent_of (place turn.now next) (drop start text.now) }
    ensures within { result ≤ text_limit }
{
    if turn.streams.as_slice().len() != 0 {
        return 0;
    }
    width_in(turn.upper, &text[start..])
}

/// Writes where the cursor is, two words: `get_cursor`. The first is its row.
///
/// # Errors
///
/// M4 where a word cannot be written, and then neither is. `End::Memory` where memory was refused:
/// the turn is given up.
pub fn get_cursor(
    header: &Header,
    store: &mut Recorded<Store>,
    here: Next,
    after: u32,
    table: u16,
    cursor: Cursor,
) -> Result<Next, End>
    requires { IsStoreOf header.now store.old.store }
    ensures { Went result store.old store.new
        (definitions.get_cursor here after table cursor.row cursor.column) }
{
    let at = table as usize;
    test_words(header, store, at)?;
    write_word(header, store, at, cursor.row)?;
    write_word(header, store, at + 2, cursor.column)?;
    Ok(Next {
        program_counter: after,
        fuel: here.fuel,
    })
}

/// Tests whether two words can be written, and changes nothing. M4.
fn test_words(header: &Header, store: &Recorded<Store>, at: usize) -> Result<(), End>
    requires store { IsStoreOf header.now store.now.store }
    requires at { at ≤ 65535 }
    ensures went { Went result store.now store.now (are_writable at) }
    ensures within { OnOk result (at + 3 ≤ 65535) }
{
    if !has_words(header.static_base, at) {
        return Err(End::Stop(Place::Fault(Fault::Write)));
    }
    Ok(())
}

/// Whether two words at an address can be written, in a story with this static base.
fn has_words(static_base: u16, at: usize) -> bool
    requires { at ≤ 65535 }
    ensures same { result ≡ words_before static_base at }
    ensures within { result ≡ true → at + 3 ≤ 65535 }
{
    is_before(static_base, at) && is_before(static_base, at + 3)
}

/// Whether a byte can be written, in a story with this static base.
fn is_before(static_base: u16, at: usize) -> bool
    ensures same { result ≡ nat_le header_size at && nat_lt at static_base }
    ensures within { result ≡ true → at < static_base }
{
    HEADER_LENGTH <= at && at < static_base as usize
}

/// The font that is set where one is asked for: `set_font`. Fonts 0 and 1 give the normal font, and
/// another is not there.
pub fn font_of(font: u16) -> u16
    ensures { result ≡ (if nat_le font 1 then 1 else 0) }
{
    if font <= 1 { 1 } else { 0 }
}
