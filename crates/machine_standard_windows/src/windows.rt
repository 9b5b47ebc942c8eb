//! The upper window (Z-Machine Standards Document 1.1, sections 8.6, 8.7 and 15). Its text is the
//! end of the turn's text, until a read shows it or it is dropped.

ghost use Rattle.std.specs.Prelude.{◌≡◌, ◌≤◌, ◌<◌, ◌+◌, ◌++◌, ◌&&◌, length, take, drop, replicate, OnOk, OnErr, Some};
ghost use Rattle.zcore.specs.Layout.{text_limit};
ghost use Rattle.zcore_standard.specs.Screen as screen;
ghost use Rattle.zcore_standard.specs.Windows as definitions;
ghost use Rattle.machine_frames.specs.States.{IsSound};
ghost use Rattle.machine_opcodes.specs.Printed.{HasBegun, ToldFrom};
ghost use Rattle.machine_decoding.specs.Seen.{seen};
ghost use Rattle.machine_standard_windows.specs.TurnState.{place, Keeps};
ghost use Rattle.machine_standard_windows.specs.Drawn as drawings;
ghost use Rattle.machine_standard_windows.specs.Drawn.{Redraws, Bounds, Way, Apart};

use crate::lines::{bare_length, count_new_lines, missing_lines, width};
use crate::texts::cut;
use crate::turn_state::{LOWER, TurnState, UPPER};
use journal::Recorded;
use machine_frames::{End, Store};
use std::alloc::AllocError;
use zcore::{Limit, Next, Place};
use zcore_standard::Upper;

/// How many bytes a turn may print.
const TEXT_LIMIT: usize = 65_536;

/// `erase_window` erases both windows: -2.
const BOTH: u16 = 0xFFFE;

/// It erases both, and selects the lower one: -1.
const UNSPLIT: u16 = 0xFFFF;

/// The greatest row and column.
const GREATEST: u16 = 255;

/// Selects a window: `set_window`. The lower one drops the text of the upper one; the cursor of the
/// upper one goes to its first place. While a stream is open, the window alone is set.
///
/// # Errors
///
/// The limit of text. `End::Memory` where memory was refused: the turn is given up.
pub fn set_window(
    store: &mut Recorded<Store>,
    text: &mut Vec<u8>,
    start: usize,
    turn: &mut TurnState,
    next: Next,
    window: u16,
) -> Result<Next, End>
    requires sound { IsSound store.old.store }
    requires text { HasBegun start text.old.items }
    ensures told { ToldFrom start (seen (place turn.new) result) store.old text.old.items
        store.new text.new.items (definitions.set_window (place turn.old next) window) }
    ensures text { Keeps start text.old.items text.new.items }
    ensures turn { OnErr result (turn.new ≡ turn.old) }
{
    if window == LOWER {
        select_lower(text, start, turn);
        return Ok(next);
    }
    match open_upper(turn) {
        None => {
            begin_upper(text, start, turn);
            Ok(next)
        }
        Some(upper) => {
            let moved = put_cursor(store, text, start, upper, 1, 1)?;
            turn.standard_state.window = UPPER;
            turn.upper = Some(moved);
            Ok(next)
        }
    }
}

/// Selects the lower window.
fn select_lower(text: &mut Vec<u8>, start: usize, turn: &mut TurnState)
    requires { HasBegun start text.old.items }
    ensures redraws { Redraws start turn.old turn.new text.old.items text.new.items
        (λ here. definitions.set_window here 0) }
    ensures text { Keeps start text.old.items text.new.items }
{
    turn.standard_state.window = LOWER;
    begin_or_drop_upper(text, start, turn);
}

/// Selects the upper window where it is not there, or a stream is open.
fn begin_upper(text: &mut Vec<u8>, start: usize, turn: &mut TurnState)
    requires { HasBegun start text.old.items }
    ensures redraws { Redraws start turn.old turn.new text.old.items text.new.items
        (λ here. definitions.settled (definitions.with_window here 1)) }
    ensures text { Keeps start text.old.items text.new.items }
{
    turn.standard_state.window = UPPER;
    begin_or_drop_upper(text, start, turn);
}

/// Where no stream is open, the upper window is there exactly if it is selected: it begins, or it
/// is dropped with its text.
pub fn begin_or_drop_upper(text: &mut Vec<u8>, start: usize, turn: &mut TurnState)
    requires { HasBegun start text.old.items }
    ensures redraws { Redraws start turn.old turn.new text.old.items text.new.items
        definitions.settled }
    ensures text { Keeps start text.old.items text.new.items }
{
    if turn.streams.as_slice().len() != 0 {
        return;
    }
    if turn.standard_state.window == LOWER {
        drop_upper(text, start, turn.upper);
        turn.upper = None;
        return;
    }
    match turn.upper {
        None => turn.upper = Some(begun_at((text.len() - start) as u32)),
        Some(_) => {}
    }
}

/// Cuts from a text what the upper window has, in a turn whose text begins at a place of it.
pub fn drop_upper(text: &mut Vec<u8>, start: usize, upper: Option<Upper>)
    requires { HasBegun start text.old.items }
    ensures lower { drop start text.new.items
        ≡ definitions.lower upper (drop start text.old.items) }
    ensures text { Keeps start text.old.items text.new.items }
{
    match upper {
        None => {}
        Some(upper) => cut(text, start, upper.from),
    }
}

/// A window that begins after so many bytes of the turn.
fn begun_at(from: u32) -> Upper
    ensures { result ≡ definitions.begun_at from }
{
    Upper {
        from,
        mark: from,
        row: 1,
    }
}

/// The upper window, where it is there and no stream is open.
fn open_upper(turn: &TurnState) -> Option<Upper>
    ensures { (next : Next) → result ≡ definitions.open_upper (place turn.now next) }
{
    if turn.streams.as_slice().len() != 0 {
        return None;
    }
    turn.upper
}

/// Sets the cursor of the upper window: `set_cursor`.
///
/// # Errors
///
/// The limit of text. `End::Memory` where memory was refused: the turn is given up.
pub fn set_cursor(
    store: &mut Recorded<Store>,
    text: &mut Vec<u8>,
    start: usize,
    turn: &mut TurnState,
    next: Next,
    row: u16,
    column: u16,
) -> Result<Next, End>
    requires sound { IsSound store.old.store }
    requires text { HasBegun start text.old.items }
    ensures told { ToldFrom start (seen (place turn.new) result) store.old text.old.items
        store.new text.new.items (definitions.set_cursor (place turn.old next) row column) }
    ensures text { Keeps start text.old.items text.new.items }
    ensures turn { OnErr result (turn.new ≡ turn.old) }
{
    if !are_places(row, column) {
        return Ok(next);
    }
    match open_upper(turn) {
        None => Ok(next),
        Some(upper) => {
            let moved = put_cursor(store, text, start, upper, row, column)?;
            turn.upper = Some(moved);
            Ok(next)
        }
    }
}

/// Whether these are a row and a column.
fn are_places(row: u16, column: u16) -> bool
    ensures { result ≡ (definitions.is_place row && definitions.is_place column) }
{
    is_place(row) && is_place(column)
}

/// Whether a number is that of a row or a column.
fn is_place(number: u16) -> bool
    ensures { result ≡ definitions.is_place number }
{
    1 <= number && number <= GREATEST
}

/// Draws the way of the cursor to a row and a column. The limit of text, and then the text stands.
fn put_cursor(
    store: &mut Recorded<Store>,
    text: &mut Vec<u8>,
    start: usize,
    upper: Upper,
    row: u16,
    column: u16,
) -> Result<Upper, End>
    requires sound { IsSound store.old.store }
    requires text { HasBegun start text.old.items }
    requires column { 1 ≤ column }
    ensures told { ToldFrom start result store.old text.old.items store.new text.new.items
        (definitions.put_cursor upper row column) }
    ensures text { Keeps start text.old.items text.new.items }
{
    let (end, lines, spaces) = find_way(text.as_slice(), start, upper, row, column);
    let long = end + lines + spaces;
    if TEXT_LIMIT < long - start {
        return Err(End::Stop(Place::Limit(Limit::Text)));
    }
    text.truncate(end);
    match add_blanks(text, lines, spaces) {
        Ok(()) => Ok(Upper {
            from: upper.from,
            mark: (long - start) as u32,
            row,
        }),
        Err(_) => {
            store.abandon();
            Err(End::Memory)
        }
    }
}

/// The way of the cursor: where the text ends that stays, and the newlines and the spaces that are
/// added to it.
fn find_way(text: &[u8], start: usize, upper: Upper, row: u16, column: u16) -> (usize, usize, usize)
    requires text { HasBegun start text.now }
    requires column { 1 ≤ column }
    ensures way { Way start (drawings.place_at start upper.from text.now) result.0 result.1 result.2
        row column upper text.now }
    ensures after { start ≤ result.0 }
    ensures within { result.0 ≤ length text.now }
    ensures lines { result.1 ≤ 1 }
    ensures spaces { result.2 < column }
{
    let (begin, end) = bounds_of(text, start, upper.from);
    let is_in_row = row_of(upper, text, start) == row as usize;
    let (lines, spaces) = way_to(is_in_row, column as usize, &text[begin..end]);
    (end, lines, spaces)
}

/// Where the text of the upper window begins, and where it ends without the spaces at its end.
fn bounds_of(text: &[u8], start: usize, from: u32) -> (usize, usize)
    requires { HasBegun start text.now }
    ensures bounds { Bounds start result.0 result.1 from text.now }
    ensures after { start ≤ result.0 }
    ensures behind { result.0 ≤ result.1 }
    ensures within { result.1 ≤ length text.now }
{
    let begin = place_at(start, from, text);
    (begin, begin + bare_length(&text[begin..]))
}

/// The place in a text where so many bytes of the turn end, whose text begins at a place of it.
fn place_at(start: usize, from: u32, text: &[u8]) -> usize
    requires { start ≤ length text.now }
    ensures { result ≡ drawings.place_at start from text.now }
{
    start + (from as usize).min(text.len() - start)
}

/// The row where the cursor is.
fn row_of(upper: Upper, text: &[u8], start: usize) -> usize
    requires { HasBegun start text.now }
    ensures { result ≡ definitions.row_of upper (drop start text.now) }
{
    let at = place_at(start, upper.mark, text);
    upper.row as usize + count_new_lines(&text[at..])
}

/// The row of the cursor, in a turn that has printed this: in the lower window, rows are counted from where the turn
/// began.
pub fn row_in(upper: Option<Upper>, text: &[u8]) -> usize
    requires { length text.now ≤ text_limit }
    ensures { result ≡ screen.row_in upper text.now }
{
    match upper {
        None => 1 + count_new_lines(text),
        Some(upper) => row_of(upper, text, 0),
    }
}

/// How many characters the last line has in the window that is selected, in a turn that has printed this.
pub fn width_in(upper: Option<Upper>, text: &[u8]) -> usize
    ensures same { result ≡ definitions.width (screen.in_window upper text.now) }
    ensures within { result ≤ length text.now }
{
    match upper {
        None => width(text),
        Some(upper) => width(&text[place_at(0, upper.from, text)..]),
    }
}

/// The newlines and the spaces that take the cursor to a column, after a text that has no spaces
/// at its end.
fn way_to(is_in_row: bool, column: usize, bare: &[u8]) -> (usize, usize)
    requires { 1 ≤ column }
    ensures way { definitions.with_cursor is_in_row column bare.now
        ≡ bare.now ++ (replicate result.0 10 ++ replicate result.1 32) }
    ensures lines { result.0 ≤ 1 }
    ensures spaces { result.1 < column }
{
    let taken = width(bare);
    if is_in_row && taken < column {
        (0, column - 1 - taken)
    } else {
        (missing_lines(bare), column - 1)
    }
}

/// Adds newlines and spaces to a text.
fn add_blanks(text: &mut Vec<u8>, lines: usize, spaces: usize) -> Result<(), AllocError>
    requires lines { lines ≤ 1 }
    requires spaces { spaces ≤ 65535 }
    ensures added { OnOk result (text.new.items
        ≡ text.old.items ++ (replicate lines 10 ++ replicate spaces 32)) }
    ensures front { take (length text.old.items) text.new.items ≡ text.old.items }
    ensures few { length text.new.items ≤ length text.old.items + lines + spaces }
{
    let ended = text.len() + lines;
    text.resize(ended, b'\n')?;
    text.resize(ended + spaces, b' ')
}

/// Erases windows: `erase_window`. -1 also selects the lower one. While a stream is open, no text is
/// erased.
pub fn erase_window(text: &mut Vec<u8>, start: usize, turn: &mut TurnState, window: u16)
    requires { HasBegun start text.old.items }
    ensures redraws { Redraws start turn.old turn.new text.old.items text.new.items
        (λ here. definitions.erase_window here window) }
    ensures text { Keeps start text.old.items text.new.items }
{
    match window {
        UPPER => erase_upper(text, start, turn),
        BOTH => erase_upper(text, start, turn),
        UNSPLIT => select_lower(text, start, turn),
        _ => {}
    }
}

/// Sets how many lines the upper window has: `split_window`. Where it has none, it is erased.
pub fn split_window(text: &mut Vec<u8>, start: usize, turn: &mut TurnState, lines: u16)
    requires { HasBegun start text.old.items }
    ensures redraws { Redraws start turn.old turn.new text.old.items text.new.items
        (λ here. definitions.split_window here lines) }
    ensures text { Keeps start text.old.items text.new.items }
{
    if lines != 0 {
        return;
    }
    erase_upper(text, start, turn);
}

/// Erases the upper window, where it is there and no stream is open.
fn erase_upper(text: &mut Vec<u8>, start: usize, turn: &mut TurnState)
    requires { HasBegun start text.old.items }
    ensures redraws { Redraws start turn.old turn.new text.old.items text.new.items
        definitions.erase_upper }
    ensures text { Keeps start text.old.items text.new.items }
{
    match open_upper(turn) {
        None => {}
        Some(upper) => {
            cut(text, start, upper.from);
            turn.upper = Some(begun_at(upper.from));
        }
    }
}

/// Shows the text of the upper window if that is selected, and else drops it: what a read does once
/// it has closed the streams. The limit of text.
pub fn show_upper(
    store: &mut Recorded<Store>,
    text: &mut Vec<u8>,
    start: usize,
    turn: &TurnState,
) -> Result<(), End>
    requires sound { IsSound store.old.store }
    requires text { HasBegun start text.old.items }
    ensures told { (next : Next) → ToldFrom start result store.old text.old.items
        store.new text.new.items (definitions.show_upper (place turn.now next)) }
    ensures text { Keeps start text.old.items text.new.items }
{
    match turn.upper {
        None => Ok(()),
        Some(upper) => show_or_drop(store, text, start, upper, turn.standard_state.window),
    }
}

/// The same, where the upper window is there.
fn show_or_drop(
    store: &mut Recorded<Store>,
    text: &mut Vec<u8>,
    start: usize,
    upper: Upper,
    window: u16,
) -> Result<(), End>
    requires sound { IsSound store.old.store }
    requires text { HasBegun start text.old.items }
    ensures told { ToldFrom start result store.old text.old.items store.new text.new.items
        (definitions.show_in (Some upper) window) }
    ensures text { Keeps start text.old.items text.new.items }
{
    if window == LOWER {
        cut(text, start, upper.from);
        return Ok(());
    }
    show_text(store, text, start, upper)
}

/// Shows the text of the upper window, in lines of its own. The limit of text, and then the text
/// stands.
fn show_text(
    store: &mut Recorded<Store>,
    text: &mut Vec<u8>,
    start: usize,
    upper: Upper,
) -> Result<(), End>
    requires sound { IsSound store.old.store }
    requires text { HasBegun start text.old.items }
    ensures told { ToldFrom start result store.old text.old.items store.new text.new.items
        (definitions.show_text upper) }
    ensures text { Keeps start text.old.items text.new.items }
{
    let (begin, end) = bounds_of(text.as_slice(), start, upper.from);
    if end == begin {
        text.truncate(begin);
        return Ok(());
    }
    show_part(store, text, start, upper, begin, end)
}

/// The same, where a part of the text is shown: from a place up to another.
fn show_part(
    store: &mut Recorded<Store>,
    text: &mut Vec<u8>,
    start: usize,
    upper: Upper,
    begin: usize,
    end: usize,
) -> Result<(), End>
    requires sound { IsSound store.old.store }
    requires text { HasBegun start text.old.items }
    requires bounds { Bounds start begin end upper.from text.old.items }
    requires after { start ≤ begin }
    requires some { begin < end }
    requires within { end ≤ length text.old.items }
    ensures told { ToldFrom start result store.old text.old.items store.new text.new.items
        (definitions.show_text upper) }
    ensures text { Keeps start text.old.items text.new.items }
{
    let (before, after) = lines_around(text.as_slice(), start, begin, end);
    let long = end + before + after;
    if TEXT_LIMIT < long - start {
        return Err(End::Stop(Place::Limit(Limit::Text)));
    }
    text.truncate(end);
    match put_newlines(text, begin, before, after) {
        Ok(()) => Ok(()),
        Err(_) => {
            store.abandon();
            Err(End::Memory)
        }
    }
}

/// The newlines that a part of a text lacks before it, in a turn whose text begins at a place of it,
/// and after it.
fn lines_around(text: &[u8], start: usize, begin: usize, end: usize) -> (usize, usize)
    requires after { start ≤ begin }
    requires behind { begin ≤ end }
    requires within { end ≤ length text.now }
    ensures apart { Apart start begin end result.0 result.1 text.now }
    ensures before { result.0 ≤ 1 }
    ensures after { result.1 ≤ 1 }
{
    (
        missing_lines(&text[start..begin]),
        missing_lines(&text[begin..end]),
    )
}

/// Puts newlines before and after the end of a text, which begins at a place of it: none or one.
fn put_newlines(
    text: &mut Vec<u8>,
    at: usize,
    before: usize,
    after: usize,
) -> Result<(), AllocError>
    requires at { at ≤ length text.old.items }
    requires before { before ≤ 1 }
    requires after { after ≤ 1 }
    ensures apart { OnOk result (text.new.items ≡ take at text.old.items
        ++ (replicate before 10 ++ (drop at text.old.items ++ replicate after 10))) }
    ensures front { take at text.new.items ≡ take at text.old.items }
    ensures longer { length text.old.items ≤ length text.new.items }
    ensures few { length text.new.items ≤ length text.old.items + before + after }
{
    insert_lines(text, at, before)?;
    text.resize(text.len() + after, b'\n')
}

/// Puts newlines into a text: none or one.
fn insert_lines(text: &mut Vec<u8>, at: usize, lines: usize) -> Result<(), AllocError>
    requires at { at ≤ length text.old.items }
    requires few { lines ≤ 1 }
    ensures inserted { OnOk result (text.new.items
        ≡ take at text.old.items ++ (replicate lines 10 ++ drop at text.old.items)) }
    ensures front { take at text.new.items ≡ take at text.old.items }
    ensures longer { length text.old.items ≤ length text.new.items }
    ensures few { length text.new.items ≤ length text.old.items + lines }
{
    if lines == 0 {
        return Ok(());
    }
    match text.insert(at, b'\n') {
        Ok(()) => Ok(()),
        Err(_) => Err(AllocError),
    }
}
