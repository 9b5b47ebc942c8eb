//! Waiting for a line, and the line that is then given.

ghost use Rattle.std.specs.Prelude.{◌≡◌, ◌≢◌, ◌≤◌, ◌*◌, length, map, take, slice_index, OnOk, OnErr};
ghost use Rattle.zcore.specs.Header.{static_base_of};
ghost use Rattle.zcore.specs.Layout.{header_size};
ghost use Rattle.zcore.specs.Parts.{is_text_buffer, test_text_buffer, is_parse_buffer, test_parse_buffer, wait};
ghost use Rattle.ztext.specs.Text as texts;
ghost use Rattle.machine_lines.specs.Lines.{FillsBuffers, HasRoomForLetters, HasRoomForWords, WaitsNoMore};
ghost use Rattle.machine_frames.specs.Contents.{memory_of};
ghost use Rattle.machine_frames.specs.Playing.{IsWaiting, TakesLine};
ghost use Rattle.machine_frames.specs.States.{IsSound, IsStoreOf};
ghost use Rattle.machine_frames.specs.Went.{GivenUp, Went};

use crate::bytes::fill_counted;
use crate::parse::{USUAL_LENGTH, USUAL_WORDS, WORDS_LENGTH, parse};
use journal::{NoMemory, Recorded};
use machine_frames::layout::{PARSE_BUFFER, RESULT_VARIABLE, RETURN_ADDRESS, TEXT_BUFFER, WAITING};
use machine_frames::{End, Store, cell, long, put_all, store_result, variable_cell, variable_in};
use zcore::layout::{HEADER_LENGTH, NEW_LINE};
use zcore::{Fault, Header, Next, Place};

/// As many letters as a text buffer can have room for.
const MOST_LETTERS: usize = 255;

/// The word of the character that ends a line.
const TERMINATOR: u16 = NEW_LINE as u16;

/// Tests whether a line can be read into a text buffer, and changes nothing: it lies in dynamic
/// memory behind the header, with room for a letter or more, and holds none (Z-Machine Standards
/// Document 1.1, section 15, `aread`).
///
/// # Errors
///
/// M12 where it cannot.
pub fn test_text_buffer(header: &Header, store: &Recorded<Store>, buffer: u16) -> Result<(), End>
    requires { IsStoreOf header.now store.now.store }
    ensures { Went result store.now store.now (test_text_buffer buffer) }
{
    if is_text_buffer(store.store().memory(), header.static_base, buffer) {
        Ok(())
    } else {
        Err(End::Stop(Place::Fault(Fault::Buffer)))
    }
}

/// Whether an address is that of a text buffer, in a story with this static base.
fn is_text_buffer(memory: &[u8], static_base: u16, buffer: u16) -> bool
    requires base { static_base ≡ static_base_of memory.now }
    requires within { static_base ≤ length memory.now }
    ensures { result ≡ is_text_buffer memory.now buffer }
{
    let at = buffer as usize;
    let end = static_base as usize;
    if at < HEADER_LENGTH || at + 2 > end {
        return false;
    }
    let room = memory[at] as usize;
    at + 2 + room <= end && 1 <= room && memory[at + 1] == 0
}

/// Tests whether words can be written to a parse buffer, and changes nothing: it is 0, which stands
/// for none, or lies in dynamic memory behind the header, with room for a word or more (Z-Machine
/// Standards Document 1.1, section 15, `aread`).
///
/// # Errors
///
/// M12 where they cannot.
pub fn test_parse_buffer(header: &Header, store: &Recorded<Store>, buffer: u16) -> Result<(), End>
    requires { IsStoreOf header.now store.now.store }
    ensures { Went result store.now store.now (test_parse_buffer buffer) }
{
    if is_parse_buffer(store.store().memory(), header.static_base, buffer) {
        Ok(())
    } else {
        Err(End::Stop(Place::Fault(Fault::Buffer)))
    }
}

/// Whether an address is 0 or that of a parse buffer, in a story with this static base.
fn is_parse_buffer(memory: &[u8], static_base: u16, buffer: u16) -> bool
    requires base { static_base ≡ static_base_of memory.now }
    requires within { static_base ≤ length memory.now }
    ensures { result ≡ is_parse_buffer memory.now buffer }
{
    if buffer == 0 {
        return true;
    }
    let at = buffer as usize;
    let end = static_base as usize;
    if at < HEADER_LENGTH || at + 2 > end {
        return false;
    }
    let room = memory[at] as usize;
    at + 2 + 4 * room <= end && 1 <= room
}

/// Ends the turn: the machine waits for a line, with these buffers (the second 0 for none), the
/// variable for the result and the address to go on at. It never answers `Ok`.
///
/// # Errors
///
/// `Place::Waiting`, at all times. `End::Memory` where memory was refused: the turn is given up.
pub fn wait(
    store: &mut Recorded<Store>,
    text_buffer: u16,
    parse_buffer: u16,
    result_variable: Option<u8>,
    return_address: u32,
) -> Result<Next, End>
    requires { IsSound store.old.store }
    ensures { Went result store.old store.new (wait (record {
      text_buffer = text_buffer;
      parse_buffer = parse_buffer;
      result = result_variable;
      return_address = return_address;
    })) }
{
    let registers = [
        1,
        text_buffer,
        parse_buffer,
        variable_cell(result_variable),
        (return_address / 65_536) as u16,
        (return_address % 65_536) as u16,
    ];
    put_all(store, WAITING, &registers)?;
    Err(End::Stop(Place::Waiting))
}

/// Gives a line to a store that waits for one, and answers where the turn goes on: the text buffer
/// takes as many letters as it has room for, in lower case, the parse buffer as many of their
/// words, and the result is the code of the key that ended the line (Z-Machine Standards Document
/// 1.1, section 15, `aread`).
///
/// # Errors
///
/// M6 where the stack is full, M4 where the frame has not the local, both of the result.
/// `End::Memory` where memory was refused: the turn is given up.
#[inline(always)]
pub fn give_line(
    header: &Header,
    store: &mut Recorded<Store>,
    line: &[u8],
    fuel: u32,
) -> Result<Next, End>
    requires store { IsStoreOf header.now store.old.store }
    requires waiting { IsWaiting store.old.store }
    ensures { TakesLine result store.old store.new line.now fuel }
{
    let text_buffer = cell(store, TEXT_BUFFER) as usize;
    let parse_buffer = cell(store, PARSE_BUFFER) as usize;
    let result_variable = variable_in(cell(store, RESULT_VARIABLE));
    let program_counter = long(store, RETURN_ADDRESS);
    let most = store.store().memory()[text_buffer] as usize;
    let count = most.min(line.len());
    let mut letters = [0; MOST_LETTERS];
    lower(&line[..count], &mut letters);
    fill_buffers(header, store, text_buffer, parse_buffer, &letters[..count])?;
    stop_waiting(store)?;
    store_result(header, store, result_variable, TERMINATOR)?;
    Ok(Next {
        program_counter,
        fuel,
    })
}

/// Fills the buffers of a line, of which the parse buffer may be 0 for none. The words are found
/// before a byte is written.
fn fill_buffers(
    header: &Header,
    store: &mut Recorded<Store>,
    text_buffer: usize,
    parse_buffer: usize,
    letters: &[u8],
) -> Result<(), NoMemory>
    requires store { IsStoreOf header.now store.old.store }
    requires few { length letters.now ≤ 255 }
    requires behind_header { header_size ≤ text_buffer }
    requires room { HasRoomForLetters store.old.store text_buffer (length letters.now) }
    requires words_behind_header { parse_buffer ≢ 0 → header_size ≤ parse_buffer }
    requires words_room { HasRoomForWords store.old.store parse_buffer }
    ensures filled { OnOk result (FillsBuffers store.old store.new
        text_buffer parse_buffer letters.now) }
    ensures given_up { OnErr result (GivenUp store.old store.new) }
{
    if parse_buffer == 0 {
        return fill_counted(store, text_buffer + 1, letters.len() as u8, letters);
    }
    // A row of bytes is filled with zeros first: one for 255 words would cost more than the words.
    if store.store().memory()[parse_buffer] <= USUAL_WORDS {
        let mut bytes = [0; USUAL_LENGTH];
        fill_words(
            header,
            store,
            text_buffer,
            parse_buffer,
            letters,
            &mut bytes,
        )
    } else {
        let mut bytes = [0; WORDS_LENGTH];
        fill_words(
            header,
            store,
            text_buffer,
            parse_buffer,
            letters,
            &mut bytes,
        )
    }
}

/// Fills both buffers of a line, by way of a row of bytes with room for the words.
fn fill_words(
    header: &Header,
    store: &mut Recorded<Store>,
    text_buffer: usize,
    parse_buffer: usize,
    letters: &[u8],
    bytes: &mut [u8],
) -> Result<(), NoMemory>
    requires store { IsStoreOf header.now store.old.store }
    requires few { length letters.now ≤ 255 }
    requires behind_header { header_size ≤ text_buffer }
    requires room { HasRoomForLetters store.old.store text_buffer (length letters.now) }
    requires given { parse_buffer ≢ 0 }
    requires words_behind_header { header_size ≤ parse_buffer }
    requires words_room { HasRoomForWords store.old.store parse_buffer }
    requires bytes_room { 4 * slice_index (memory_of store.old.store) parse_buffer ≤ length bytes.old }
    ensures filled { OnOk result (FillsBuffers store.old store.new
        text_buffer parse_buffer letters.now) }
    ensures given_up { OnErr result (GivenUp store.old store.new) }
{
    let memory = store.store().memory();
    let most = memory[parse_buffer];
    let dictionary = header.dictionary;
    let words = parse(
        memory,
        dictionary.address,
        dictionary.is_ordered,
        letters,
        most,
        bytes,
    );
    fill_counted(store, text_buffer + 1, letters.len() as u8, letters)?;
    fill_counted(store, parse_buffer + 1, words, &bytes[..4 * words as usize])
}

/// Writes the letters of a line in lower case to the front of a row.
fn lower(line: &[u8], letters: &mut [u8; 255])
    requires { length line.now ≤ 255 }
    ensures { take (length line.now) letters.new ≡ map texts.lower_case line.now }
{
    for (i, letter) in line.iter().enumerate() {
        letters[i] = lower_case(*letter);
    }
}

/// A capital of ASCII as a small letter.
#[inline]
pub fn lower_case(letter: u8) -> u8
    ensures { result ≡ texts.lower_case letter }
{
    if b'A' <= letter && letter <= b'Z' {
        letter + 32
    } else {
        letter
    }
}

/// Waits for no line any more.
fn stop_waiting(store: &mut Recorded<Store>) -> Result<(), NoMemory>
    requires { IsSound store.old.store }
    ensures waits { OnOk result (WaitsNoMore store.old store.new) }
    ensures given_up { OnErr result (GivenUp store.old store.new) }
{
    store.put(WAITING, 0)?;
    Ok(())
}
