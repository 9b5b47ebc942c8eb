//! Streams of output (Z-Machine Standards Document 1.1, sections 7 and 15, `output_stream`).

ghost use Rattle.std.specs.Prelude.{◌≡◌, ◌≤◌, ◌+◌, ℕ, List, length, take, drop, OnOk, OnErr};
ghost use Rattle.zcore.specs.Header.{static_base_of};
ghost use Rattle.zcore.specs.Layout.{text_limit};
ghost use Rattle.zcore_standard.specs.Streams as definitions;
ghost use Rattle.zcore_standard.specs.Words as words;
ghost use Rattle.machine_frames.specs.Contents.{memory_of};
ghost use Rattle.machine_frames.specs.States.{IsSound, IsStoreOf};
ghost use Rattle.machine_frames.specs.Went.{GivenUp, Went, Told};
ghost use Rattle.machine_lines.specs.Lines.{Filled};
ghost use Rattle.machine_opcodes.specs.Printed.{HasBegun, ToldFrom};
ghost use Rattle.machine_decoding.specs.Seen.{seen};
ghost use Rattle.machine_standard_windows.specs.TurnState.{place, Keeps};

use crate::zscii::{add_zscii, count_characters};
use journal::{NoMemory, Recorded};
use machine_frames::layout::MEMORY;
use machine_frames::{End, Store};
use machine_lines::fill;
use machine_standard_texts::spend_for;
use machine_standard_windows::{TurnState, begin_or_drop_upper, cut, drop_upper};
use zcore::layout::HEADER_LENGTH;
use zcore::{Fault, Header, Next, Place};
use zcore_standard::{Loaded, Stream};

/// The stream that goes to a table in memory (section 7.1.2).
const MEMORY_STREAM: u16 = 3;

/// This closes it: -3.
const NO_MEMORY_STREAM: u16 = 0xFFFD;

/// The transcript.
const TRANSCRIPT: u16 = 2;

/// This turns it off: -2.
const NO_TRANSCRIPT: u16 = 0xFFFE;

/// The byte of the header in which bit 0 tells whether the transcript is on (section 7.4).
pub(crate) const FLAGS_2: usize = 17;

/// Selects or closes a stream of output: `output_stream`. A memory stream that is closed is cut from
/// the text of the turn, and written to its table as ZSCII, which takes fuel for the bytes that are
/// cut. The transcript is on where the player writes one: a bit of the header tells so.
///
/// # Errors
///
/// M1 for a memory stream without a table, M12 for a seventeenth, M4 where what a stream was given
/// does not fit in dynamic memory, after the header, and then the limit of fuel. `End::Memory` where
/// memory was refused: the turn is given up.
pub fn output_stream(
    header: &Header,
    store: &mut Recorded<Store>,
    text: &mut Vec<u8>,
    start: usize,
    loaded: &Loaded,
    turn: &mut TurnState,
    here: Next,
    after: u32,
    values: &[u16],
) -> Result<Next, End>
    requires store { IsStoreOf header.now store.old.store }
    requires text { HasBegun start text.old.items }
    requires some { 1 ≤ length values.now }
    ensures told { ToldFrom start (seen (place turn.new) result) store.old text.old.items
        store.new text.new.items
        (definitions.output_stream loaded.now.characters loaded.now.has_transcript (place turn.old here)
        after values.now) }
    ensures text { Keeps start text.old.items text.new.items }
    ensures turn { OnErr result (turn.new ≡ turn.old) }
{
    let next = Next {
        program_counter: after,
        fuel: here.fuel,
    };
    match values[0] {
        MEMORY_STREAM => open_table(store, text, start, turn, here, after, values),
        NO_MEMORY_STREAM => { close_first(header, store, text, start, loaded, turn, here, after) }
        TRANSCRIPT => {
            if !loaded.has_transcript() {
                return Ok(next);
            }
            set_transcript(store, 1)?;
            Ok(next)
        }
        NO_TRANSCRIPT => {
            set_transcript(store, 0)?;
            Ok(next)
        }
        _ => Ok(next),
    }
}

/// Opens a memory stream, where a table is given. M1, M12.
fn open_table(
    store: &Recorded<Store>,
    text: &Vec<u8>,
    start: usize,
    turn: &mut TurnState,
    here: Next,
    after: u32,
    values: &[u16],
) -> Result<Next, End>
    requires sound { IsSound store.now.store }
    requires text { HasBegun start text.now.items }
    requires some { 1 ≤ length values.now }
    ensures told { Told (seen (place turn.new) result) store.now (drop start text.now.items)
        store.now (drop start text.now.items)
        (definitions.open_table (place turn.old here) after values.now) }
    ensures turn { OnErr result (turn.new ≡ turn.old) }
{
    if values.len() == 1 {
        return Err(End::Stop(Place::Fault(Fault::Opcode)));
    }
    open_stream(store, text, start, turn, here, after, values[1])
}

/// Opens a stream to a table. M12.
fn open_stream(
    store: &Recorded<Store>,
    text: &Vec<u8>,
    start: usize,
    turn: &mut TurnState,
    here: Next,
    after: u32,
    table: u16,
) -> Result<Next, End>
    requires sound { IsSound store.now.store }
    requires text { HasBegun start text.now.items }
    ensures told { Told (seen (place turn.new) result) store.now (drop start text.now.items)
        store.now (drop start text.now.items)
        (definitions.open_stream (place turn.old here) after table) }
    ensures turn { OnErr result (turn.new ≡ turn.old) }
{
    let _store = store;
    let from = (text.len() - start) as u32;
    match turn.streams.try_insert(0, Stream { table, from }) {
        Ok(()) => Ok(Next {
            program_counter: after,
            fuel: here.fuel,
        }),
        Err(_) => Err(End::Stop(Place::Fault(Fault::Buffer))),
    }
}

/// Closes the innermost stream, if there is one. After the last one the upper window is there if it
/// is selected. M4, then the limit of fuel.
fn close_first(
    header: &Header,
    store: &mut Recorded<Store>,
    text: &mut Vec<u8>,
    start: usize,
    loaded: &Loaded,
    turn: &mut TurnState,
    here: Next,
    after: u32,
) -> Result<Next, End>
    requires store { IsStoreOf header.now store.old.store }
    requires text { HasBegun start text.old.items }
    ensures told { ToldFrom start (seen (place turn.new) result) store.old text.old.items
        store.new text.new.items (definitions.close_first loaded.now.characters
        (place turn.old here) after turn.old.streams.items) }
    ensures text { Keeps start text.old.items text.new.items }
    ensures turn { OnErr result (turn.new ≡ turn.old) }
{
    if turn.streams.as_slice().len() == 0 {
        return Ok(Next {
            program_counter: after,
            fuel: here.fuel,
        });
    }
    let stream = turn.streams.as_slice()[0];
    let given = text_since(text, start, stream);
    test_table(header, store, given, stream)?;
    let fuel = spend_for(given.len(), here.fuel)?;
    close(header, store, text, start, loaded.characters(), stream)?;
    turn.streams.remove(0);
    begin_or_drop_upper(text, start, turn);
    Ok(Next {
        program_counter: after,
        fuel,
    })
}

/// What was printed since a stream was opened.
fn text_since(text: &Vec<u8>, start: usize, stream: Stream) -> &[u8]
    requires { HasBegun start text.now.items }
    ensures { result.now ≡ drop stream.from (drop start text.now.items) }
{
    let kept = (stream.from as usize).min(text.len() - start);
    &text[start + kept..]
}

/// Tests whether what a stream was given fits in its table, and changes nothing. M4.
fn test_table(
    header: &Header,
    store: &Recorded<Store>,
    given: &[u8],
    stream: Stream,
) -> Result<(), End>
    requires store { IsStoreOf header.now store.now.store }
    requires few { length given.now ≤ text_limit }
    ensures { (extra text : List ℕ) → given.now ≡ drop stream.from text
        → Told result store.now text store.now text (definitions.test_table extra stream) }
{
    let _store = store;
    let count = count_characters(given);
    if are_writable(header.static_base, stream.table as usize, count + 2) {
        Ok(())
    } else {
        Err(End::Stop(Place::Fault(Fault::Write)))
    }
}

/// Closes each of these streams, of which the innermost is first. M4.
pub(crate) fn close_all(
    header: &Header,
    store: &mut Recorded<Store>,
    text: &mut Vec<u8>,
    start: usize,
    extra: &[u16],
    streams: &[Stream],
) -> Result<(), End>
    requires store { IsStoreOf header.now store.old.store }
    requires text { HasBegun start text.old.items }
    ensures told { ToldFrom start result store.old text.old.items store.new text.new.items
        (definitions.close_all extra.now streams.now) }
    ensures text { Keeps start text.old.items text.new.items }
{
    for i in 0..streams.len() {
        close(header, store, text, start, extra, streams[i])?;
    }
    Ok(())
}

/// Closes a stream: what it was given is cut from the text, and goes to its table. M4, and then the
/// text stands.
fn close(
    header: &Header,
    store: &mut Recorded<Store>,
    text: &mut Vec<u8>,
    start: usize,
    extra: &[u16],
    stream: Stream,
) -> Result<(), End>
    requires store { IsStoreOf header.now store.old.store }
    requires text { HasBegun start text.old.items }
    ensures told { ToldFrom start result store.old text.old.items store.new text.new.items
        (definitions.close extra.now stream) }
    ensures text { Keeps start text.old.items text.new.items }
{
    let printed = text.len();
    let kept = (stream.from as usize).min(printed - start);
    match write_zscii(header, store, text, start + kept, extra, stream.table) {
        Ok(()) => {
            text.truncate(start + kept);
            Ok(())
        }
        Err(end) => {
            text.truncate(printed);
            Err(end)
        }
    }
}

/// Writes the ZSCII codes of the bytes of a text from one on to a table. The text has them after
/// it then, whole or in part. M4.
fn write_zscii(
    header: &Header,
    store: &mut Recorded<Store>,
    text: &mut Vec<u8>,
    from: usize,
    extra: &[u16],
    table: u16,
) -> Result<(), End>
    requires store { IsStoreOf header.now store.old.store }
    requires from { from ≤ length text.old.items }
    requires few { length text.old.items ≤ from + text_limit }
    ensures went { Went result store.old store.new (words.write_bytes table
        (definitions.counted (definitions.zscii_in extra.now (drop from text.old.items)))) }
    ensures front { take (length text.old.items) text.new.items ≡ text.old.items }
{
    let end = text.len();
    match add_zscii(text, from, extra) {
        Ok(()) => write_table(header, store, table, &text[end..]),
        Err(_) => {
            store.abandon();
            Err(End::Memory)
        }
    }
}

/// Writes characters to a table, after their number. M4.
fn write_table(
    header: &Header,
    store: &mut Recorded<Store>,
    table: u16,
    characters: &[u8],
) -> Result<(), End>
    requires store { IsStoreOf header.now store.old.store }
    requires few { length characters.now ≤ text_limit }
    ensures { Went result store.old store.new
        (words.write_bytes table (definitions.counted characters.now)) }
{
    let at = table as usize;
    let count = characters.len();
    if !are_writable(header.static_base, at, count + 2) {
        return Err(End::Stop(Place::Fault(Fault::Write)));
    }
    fill(store, at, &[(count / 256) as u8, (count % 256) as u8])?;
    fill(store, at + 2, characters)?;
    Ok(())
}

/// Whether so many bytes from an address on are in dynamic memory after the header, in a story with
/// this static base.
fn are_writable(static_base: u16, at: usize, count: usize) -> bool
    requires address { at ≤ 65535 }
    requires few { count ≤ text_limit + 2 }
    ensures { (memory : List ℕ) → static_base ≡ static_base_of memory
        → result ≡ words.are_writable memory at count }
{
    HEADER_LENGTH <= at && at + count <= static_base as usize
}

/// Tells the story by 0 or 1 whether it has turned the transcript on.
fn set_transcript(store: &mut Recorded<Store>, bit: u8) -> Result<(), NoMemory>
    requires sound { IsSound store.old.store }
    requires bit { bit ≤ 1 }
    ensures told { OnOk result (Filled store.old store.new
        (definitions.with_transcript (memory_of store.old.store) bit)) }
    ensures given_up { OnErr result (GivenUp store.old store.new) }
{
    let flags = store.store().byte(FLAGS_2);
    store.put(MEMORY + FLAGS_2, (flags / 2 * 2 + bit) as u16)
}

/// Cuts from a text what was printed while a stream was open and what the upper window has, in a
/// turn whose text begins at a place of it.
pub fn cut_to_heard(text: &mut Vec<u8>, start: usize, turn: &TurnState)
    requires { HasBegun start text.old.items }
    ensures heard { (next : Next) → drop start text.new.items
        ≡ definitions.heard_of (place turn.now next) (drop start text.old.items) }
    ensures text { Keeps start text.old.items text.new.items }
{
    cut_streams(text, start, turn.streams.as_slice());
    drop_upper(text, start, turn.upper);
}

/// How much of a text of so many bytes is heard outside memory streams.
pub fn heard_length(streams: &[Stream], long: usize) -> usize
    ensures heard { (text : List ℕ) → length text ≡ long
        → take result text ≡ definitions.heard streams.now text }
    ensures within { result ≤ long }
{
    let mut kept = long;
    for i in 0..streams.len() {
        kept = kept.min(streams[i].from as usize);
    }
    kept
}

/// Cuts from a text what was printed while one of these streams was open.
fn cut_streams(text: &mut Vec<u8>, start: usize, streams: &[Stream])
    requires { HasBegun start text.old.items }
    ensures heard { drop start text.new.items
        ≡ definitions.heard streams.now (drop start text.old.items) }
    ensures text { Keeps start text.old.items text.new.items }
{
    for i in 0..streams.len() {
        cut(text, start, streams[i].from);
    }
}
