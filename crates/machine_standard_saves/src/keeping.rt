//! `save_undo` (Z-Machine Standards Document 1.1, section 15).

ghost use Rattle.std.specs.Prelude.{◌≡◌, ◌≤◌, ◌<◌, ◌+◌, ◌-◌, ◌*◌, drop, length, slice_index, take, IfOk, OnErr, OnOk};
ghost use Rattle.std.specs.Option.{option_map};
ghost use Rattle.zcore.specs.Header.{static_base_of};
ghost use Rattle.zcore.specs.Layout.{header_size, longest_story, stack_size};
ghost use Rattle.zcore_standard.specs.Keeping.{with_newest};
ghost use Rattle.zcore_standard.specs.SavedStates as definitions;
ghost use Rattle.machine_decoding.specs.Seen.{seen};
ghost use Rattle.machine_frames.specs.Contents.{memory_of};
ghost use Rattle.machine_frames.specs.Layout.{stack_offset};
ghost use Rattle.machine_frames.specs.States.{cells_from, frame_count, height_of, IsSound, IsStoreOf};
ghost use Rattle.machine_frames.specs.Went.{GivenUp, Went};
ghost use Rattle.machine_standard_windows.specs.TurnState.{place};
ghost use Rattle.machine_standard_saves.specs.Written.{IsFileOf, IsHeadOf, WritesAll, WritesCall, WritesMain, end_of, frame_at};

use crate::restoring::HEAD;
use iff_files::{FrameHead, SaveState, put_frame, put_main, write_save};
use journal::{NoMemory, Recorded};
use machine_frames::layout::{
    ARGUMENT_COUNT, FRAME_COUNT, HEIGHT, LOCAL_COUNT, RECORD, RECORDS, RESULT, RETURN, STACK,
};
use machine_frames::{End, Store, cell, long, store_result, test_result, variable_in};
use machine_opcodes::give_result;
use machine_standard_texts::spend_for;
use machine_standard_windows::TurnState;
use std::alloc::{AllocError, Global};
use zcore::{Header, Next};
use zcore_standard::Loaded;

/// What `save_undo` answers where the state is kept.
const SUCCEEDED: u16 = 1;

/// What it answers where the state is not kept: -1.
const HAS_NO_UNDO: u16 = 65_535;

/// How many locals a frame of a save file has at most.
const MOST_LOCALS: u16 = 15;

/// How many arguments a call gives at most.
const MOST_ARGUMENTS: u16 = 7;

/// How many words the stack of a frame has less than: their number is told by two bytes.
const WORD_LIMIT: usize = 65_536;

/// Keeps the state: `save_undo`. The address after the instruction is one more than that of the byte
/// that names the variable for its result. It takes fuel for the bytes that are kept.
///
/// # Errors
///
/// M6 and M4 of the result; then the limit of fuel, where the state can be kept. `End::Memory` where
/// memory was refused: the turn is given up.
pub fn save_undo(
    header: &Header,
    store: &mut Recorded<Store>,
    loaded: &Loaded,
    turn: &mut TurnState,
    here: Next,
    after: u32,
    variable: Option<u8>,
) -> Result<Next, End>
    requires store { IsStoreOf header.now store.old.store }
    requires dynamic { length loaded.now.dynamic ≡ static_base_of (memory_of store.old.store) }
    requires after { after ≤ longest_story }
    ensures went { Went (seen (place turn.new) result) store.old store.new
        (definitions.save_undo loaded.now (place turn.old here) after variable) }
    ensures turn { OnErr result (turn.new ≡ turn.old) }
{
    let alloc = turn.kept.alloc();
    let Ok(kept) = file_of(store, loaded.dynamic(), after.saturating_sub(1), alloc) else {
        store.abandon();
        return Err(End::Memory);
    };
    let file = match kept {
        Some(file) => file,
        None => return give_result(header, store, here, after, variable, HAS_NO_UNDO),
    };
    let next = give_for(header, store, file.len(), here, after, variable, SUCCEEDED)?;
    keep(store, turn, file)?;
    Ok(next)
}

/// Stores the result of what costs the units of so many bytes, and goes on.
///
/// # Errors
///
/// M6 and M4 of the result; then the limit of fuel. `End::Memory` where memory was refused: the turn is
/// given up.
fn give_for(
    header: &Header,
    store: &mut Recorded<Store>,
    bytes: usize,
    here: Next,
    after: u32,
    variable: Option<u8>,
    word: u16,
) -> Result<Next, End>
    requires { IsStoreOf header.now store.old.store }
    ensures { Went result store.old store.new
        (definitions.give_for bytes here after variable word) }
{
    test_result(store, variable)?;
    let fuel = spend_for(bytes, here.fuel)?;
    store_result(header, store, variable, word)?;
    Ok(Next {
        program_counter: after,
        fuel,
    })
}

/// Keeps a file.
///
/// # Errors
///
/// Memory was refused: the turn is given up.
fn keep(store: &mut Recorded<Store>, turn: &mut TurnState, file: Vec<u8>) -> Result<(), NoMemory>
    ensures kept { OnOk result
        (turn.new ≡ record turn.old { kept = with_newest file.items turn.old.kept }) }
    ensures same { OnOk result (store.new ≡ store.old) }
    ensures given_up { OnErr result (GivenUp store.old store.new) }
    ensures turn { OnErr result (turn.new ≡ turn.old) }
{
    match turn.kept.push(file) {
        Ok(()) => Ok(()),
        Err(_) => {
            store.abandon();
            Err(NoMemory)
        }
    }
}

/// The save file of a state that goes on with the answer at an address, told from a dynamic memory, or
/// none where no file can tell all of its frames. At `Err` memory was refused.
pub(crate) fn file_of(
    store: &Recorded<Store>,
    story: &[u8],
    at: u32,
    alloc: Global,
) -> Result<Option<Vec<u8>>, AllocError>
    requires sound { IsSound store.now.store }
    requires dynamic { length story.now ≡ static_base_of (memory_of store.now.store) }
    requires at { at ≤ longest_story }
    ensures { IfOk result (λ file.
        IsFileOf story.now at store.now.store (option_map (λ f. f.items) file)) }
{
    let mut stacks = Vec::with_capacity(alloc, stacks_size(store))?;
    let can_be_kept = put_frames(store, &mut stacks)?;
    if !can_be_kept {
        return Ok(None);
    }
    let memory = store.store().memory();
    let base = static_base(memory);
    let state = SaveState {
        program_counter: at,
        memory: first_bytes(memory, base as usize),
        stacks: stacks.as_slice(),
    };
    let file = write_save(alloc, story, state)?;
    Ok(Some(file))
}

/// How many bytes the frames of a store have in a file.
fn stacks_size(store: &Recorded<Store>) -> usize
    requires { IsSound store.now.store }
    ensures { result ≡ frame_count (slice_index store.now.store.cells) * HEAD
        + height_of (slice_index store.now.store.cells) * 2 }
{
    cell(store, FRAME_COUNT) as usize * HEAD + long(store, HEIGHT) as usize * 2
}

/// Where static memory begins: how many bytes dynamic memory has.
fn static_base(memory: &[u8]) -> u16
    requires { header_size ≤ length memory.now }
    ensures { result ≡ static_base_of memory.now }
{
    memory[14] as u16 * 256 + memory[15] as u16
}

/// The first bytes, of which there are `count`.
fn first_bytes(bytes: &[u8], count: usize) -> &[u8]
    requires { count ≤ length bytes.now }
    ensures { result.now ≡ take count bytes.now }
{
    &bytes[..count]
}

/// Appends the frames of a store, the oldest first. It returns false where no file can tell all of
/// one; any bytes may be appended then. At `Err` memory was refused.
fn put_frames(store: &Recorded<Store>, out: &mut Vec<u8>) -> Result<bool, AllocError>
    requires { IsSound store.now.store }
    ensures { IfOk result (WritesAll store.now.store out.old.items out.new.items) }
{
    let frames = cell(store, FRAME_COUNT) as usize;
    let is_main_told = put_main_code(store, out)?;
    if !is_main_told {
        return Ok(false);
    }
    for number in 1..frames {
        let is_call_told = put_call(store, out, number)?;
        if !is_call_told {
            return Ok(false);
        }
    }
    Ok(true)
}

/// Appends the frame of the main code, or returns false where no file can tell all of it. At `Err`
/// memory was refused.
fn put_main_code(store: &Recorded<Store>, out: &mut Vec<u8>) -> Result<bool, AllocError>
    requires { IsSound store.now.store }
    ensures { IfOk result (WritesMain store.now.store out.old.items out.new.items) }
{
    let top = end_of(store, 1);
    let Some(head) = head_of(store, 0, top) else {
        return Ok(false);
    };
    let bottom = top - head.words as usize;
    let stack = words_of(store, bottom, top);
    put_main(out, stack)?;
    Ok(true)
}

/// Appends the frame of a call, by the number of its record, or returns false where no file can tell
/// all of it. At `Err` memory was refused.
fn put_call(store: &Recorded<Store>, out: &mut Vec<u8>, number: usize) -> Result<bool, AllocError>
    requires sound { IsSound store.now.store }
    requires number { number < frame_count (slice_index store.now.store.cells) }
    ensures { IfOk result (WritesCall store.now.store number out.old.items out.new.items) }
{
    let top = end_of(store, number + 1);
    let Some(head) = head_of(store, number, top) else {
        return Ok(false);
    };
    let bottom = top - head.words as usize;
    let base = bottom - head.locals as usize;
    let locals = words_of(store, base, bottom);
    let stack = words_of(store, bottom, top);
    put_frame(out, head, locals, stack)?;
    Ok(true)
}

/// What a file tells of the frame of a record, which ends at a height of the stack, before its words;
/// none where it cannot tell all of it.
fn head_of(store: &Recorded<Store>, number: usize, top: usize) -> Option<FrameHead>
    requires sound { IsSound store.now.store }
    requires number { number < frame_count (slice_index store.now.store.cells) }
    requires top { top ≡ end_of (slice_index store.now.store.cells) (number + 1) }
    ensures { IsHeadOf (length (memory_of store.now.store))
        (frame_at store.now.store number) result }
{
    let at = RECORDS + RECORD * number;
    let locals = cell(store, at + LOCAL_COUNT);
    if locals > MOST_LOCALS {
        return None;
    }
    let arguments = cell(store, at + ARGUMENT_COUNT);
    if arguments > MOST_ARGUMENTS {
        return None;
    }
    let return_address = long(store, at + RETURN);
    let size = store.store().memory().len();
    if return_address as usize >= size {
        return None;
    }
    let base = long(store, at) as usize;
    let words = top - (base + locals as usize);
    if words >= WORD_LIMIT {
        return None;
    }
    Some(FrameHead {
        return_address,
        locals: locals as u8,
        variable: variable_in(cell(store, at + RESULT)),
        arguments: arguments as u8,
        words: words as u16,
    })
}

/// The height of the stack at which the first frames end, of which there are `count`.
fn end_of(store: &Recorded<Store>, count: usize) -> usize
    requires sound { IsSound store.now.store }
    requires count { count ≤ frame_count (slice_index store.now.store.cells) }
    ensures { result ≡ end_of (slice_index store.now.store.cells) count }
{
    if count < cell(store, FRAME_COUNT) as usize {
        long(store, RECORDS + RECORD * count) as usize
    } else {
        long(store, HEIGHT) as usize
    }
}

/// The words of the stack from a height to another.
fn words_of(store: &Recorded<Store>, from: usize, to: usize) -> &[u16]
    requires sound { IsSound store.now.store }
    requires order { from ≤ to }
    requires most { to ≤ stack_size }
    ensures { result.now ≡ cells_from (slice_index store.now.store.cells)
        (stack_offset + from) (to - from) }
{
    part_of(store.store().words(), STACK + from, STACK + to)
}

/// The words from one on, up to another.
fn part_of(words: &[u16], from: usize, to: usize) -> &[u16]
    requires order { from ≤ to }
    requires end { to ≤ length words.now }
    ensures { result.now ≡ take (to - from) (drop from words.now) }
{
    &words[from..to]
}
