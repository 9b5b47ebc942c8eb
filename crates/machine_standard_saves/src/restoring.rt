//! `restore_undo` (Z-Machine Standards Document 1.1, section 15).

ghost use Rattle.std.specs.Prelude.{◌≡◌, ◌≤◌, ◌<◌, ◌+◌, ◌^◌, ℕ, List, false, length, drop, slice_index, IfOk, OnErr, OnOk};
ghost use Rattle.zcore.specs.Header.{static_base_of};
ghost use Rattle.zcore.specs.Layout.{longest_story, stack_size};
ghost use Rattle.zcore.specs.State.{Frame};
ghost use Rattle.iff_files.specs.Frames.{Stacks, size_of, words_from, words_of};
ghost use Rattle.iff_files.specs.SaveFiles.{saved_in};
ghost use Rattle.zcore_standard.specs.SavedStates as definitions;
ghost use Rattle.machine_decoding.specs.Seen.{seen};
ghost use Rattle.machine_frames.specs.Contents.{memory_of};
ghost use Rattle.machine_frames.specs.Layout.{record_count};
ghost use Rattle.machine_frames.specs.States.{IsSound, IsStoreOf, frame_count, height_of};
ghost use Rattle.machine_frames.specs.Went.{Went};
ghost use Rattle.machine_standard_windows.specs.TurnState.{place};
ghost use Rattle.machine_standard_saves.specs.Restored.{AreCalls, AreStacks, add_frames, put_back_one, with_frames};

use crate::frames::{begin_frames, push_frame};
use iff_files::{FrameHead, Save, read_head, read_save, read_words};
use journal::Recorded;
use machine_frames::layout::WAITING;
use machine_frames::{End, Store, store_result};
use machine_lines::fill;
use machine_opcodes::give_result;
use machine_standard_windows::TurnState;
use std::alloc::{AllocError, Global};
use zcore::layout::HEADER_LENGTH;
use zcore::{Header, Limit, Next, Place};
use zcore_standard::{Loaded, keep_words};

/// How many bytes a frame of a save file has before its words.
pub(crate) const HEAD: usize = 8;

/// How many words a save file has at most.
const MOST_WORDS: usize = 65_536;

/// What `restore_undo` answers where no state is kept.
const FAILED: u16 = 0;

/// What the `save_undo` of a state answers that is restored.
const RESTORED: u16 = 2;

/// Restores the state that was kept last, which is kept no longer: `restore_undo`. It takes a unit of
/// fuel. Where no state is kept, the story goes on with the answer 0.
///
/// # Errors
///
/// The limit of fuel, and M6 and M4 of the result. `End::Memory` where memory was refused: the turn
/// is given up.
pub fn restore_undo(
    header: &Header,
    store: &mut Recorded<Store>,
    loaded: &Loaded,
    turn: &mut TurnState,
    here: Next,
    after: u32,
    variable: Option<u8>,
) -> Result<Next, End>
    requires store { IsStoreOf header.now store.old.store }
    requires dynamic { length loaded.now.dynamic ≡ static_base_of (memory_of store.old.store) }
    requires after { after ≤ longest_story }
    ensures went { Went (seen (place turn.new) result) store.old store.new
        (definitions.restore_undo loaded.now (place turn.old here) after variable) }
    ensures turn { OnErr result (turn.new ≡ turn.old) }
{
    let alloc = turn.kept.alloc();
    let Some(file) = turn.kept.newest() else {
        return give_result(header, store, here, after, variable, FAILED);
    };
    let next = restore(header, store, loaded, file, alloc, here, after, variable)?;
    turn.kept.drop_newest();
    Ok(next)
}

/// Restores the state of a file, or answers that this failed where the file is refused.
fn restore(
    header: &Header,
    store: &mut Recorded<Store>,
    loaded: &Loaded,
    file: &[u8],
    alloc: Global,
    here: Next,
    after: u32,
    variable: Option<u8>,
) -> Result<Next, End>
    requires store { IsStoreOf header.now store.old.store }
    requires dynamic { length loaded.now.dynamic ≡ static_base_of (memory_of store.old.store) }
    requires after { after ≤ longest_story }
    ensures { Went result store.old store.new (definitions.resume_if_read loaded.now
        (saved_in loaded.now.dynamic (length (memory_of store.old.store)) file.now) here after variable) }
{
    let Ok(mut memory) = copy_of(loaded.dynamic(), alloc) else {
        store.abandon();
        return Err(End::Memory);
    };
    restore_over(
        header,
        store,
        loaded,
        &mut memory,
        file,
        alloc,
        here,
        after,
        variable,
    )
}

/// A copy of bytes. At `Err` memory was refused.
pub(crate) fn copy_of(bytes: &[u8], alloc: Global) -> Result<Vec<u8>, AllocError>
    ensures { IfOk result (λ copy. copy.items ≡ bytes.now) }
{
    let mut copy = Vec::new(alloc);
    copy.extend_from_slice(bytes)?;
    Ok(copy)
}

/// The same, over dynamic memory as it was loaded, which becomes that of the file.
fn restore_over(
    header: &Header,
    store: &mut Recorded<Store>,
    loaded: &Loaded,
    memory: &mut [u8],
    file: &[u8],
    alloc: Global,
    here: Next,
    after: u32,
    variable: Option<u8>,
) -> Result<Next, End>
    requires store { IsStoreOf header.now store.old.store }
    requires loaded { length loaded.now.dynamic ≡ static_base_of (memory_of store.old.store) }
    requires dynamic { length memory.old ≡ static_base_of (memory_of store.old.store) }
    requires after { after ≤ longest_story }
    ensures { Went result store.old store.new (definitions.resume_if_read loaded.now
        (saved_in memory.old (length (memory_of store.old.store)) file.now) here after variable) }
{
    let size = store.store().memory().len() as u32;
    match read_save(memory, size, file) {
        Ok(save) => resume(header, store, loaded, memory, save, alloc, here),
        Err(_) => give_result(header, store, here, after, variable, FAILED),
    }
}

/// Goes on in a state with this dynamic memory and these frames, by the result at an address.
fn resume(
    header: &Header,
    store: &mut Recorded<Store>,
    loaded: &Loaded,
    memory: &mut [u8],
    save: Save<'_>,
    alloc: Global,
    here: Next,
) -> Result<Next, End>
    requires store { IsStoreOf header.now store.old.store }
    requires loaded { length loaded.now.dynamic ≡ static_base_of (memory_of store.old.store) }
    requires dynamic { length memory.old ≡ static_base_of (memory_of store.old.store) }
    requires counter { save.program_counter < 2 ^ 24 }
    requires stacks { (read : Stacks)
        × AreStacks (length (memory_of store.old.store)) save.stacks.now read }
    ensures { (read : Stacks)
        → AreStacks (length (memory_of store.old.store)) save.entry.stacks.now read
        → Went result store.old store.new (definitions.resume loaded.now (record {
          program_counter = save.entry.program_counter;
          memory = memory.old;
          stacks = read;
        }) here.fuel) }
{
    if here.fuel == 0 {
        return Err(End::Stop(Place::Limit(Limit::Fuel)));
    }
    take_up(header, store, loaded, memory, save.stacks, alloc)?;
    let variable = byte_at(store, save.program_counter);
    store_result(header, store, Some(variable), RESTORED)?;
    Ok(Next {
        program_counter: save.program_counter + 1,
        fuel: here.fuel - 1,
    })
}

/// Puts a state in place of the present one: this dynamic memory after the header, and the frames of a
/// file. What the player sets in the extension of the header is as at loading, in this memory too.
pub(crate) fn take_up(
    header: &Header,
    store: &mut Recorded<Store>,
    loaded: &Loaded,
    memory: &mut [u8],
    stacks: &[u8],
    alloc: Global,
) -> Result<(), End>
    requires store { IsStoreOf header.now store.old.store }
    requires loaded { length loaded.now.dynamic ≡ static_base_of (memory_of store.old.store) }
    requires dynamic { length memory.old ≡ static_base_of (memory_of store.old.store) }
    requires stacks { (read : Stacks)
        × AreStacks (length (memory_of store.old.store)) stacks.now read }
    ensures went { (counter : ℕ) (read : Stacks)
        → AreStacks (length (memory_of store.old.store)) stacks.now read
        → Went result store.old store.new (definitions.take_up loaded.now (record {
          program_counter = counter;
          memory = memory.old;
          stacks = read;
        })) }
    ensures store { OnOk result (IsStoreOf header.now store.new.store) }
{
    keep_words(memory, loaded.dynamic());
    fill(store, HEADER_LENGTH, bytes_after(memory, HEADER_LENGTH))?;
    store.put(WAITING, 0)?;
    put_back(store, stacks, alloc)
}

/// The byte at an address, 0 after the end of the story.
pub(crate) fn byte_at(store: &Recorded<Store>, at: u32) -> u8
    ensures { result ≡ slice_index (memory_of store.now.store) at }
{
    let memory = store.store().memory();
    if (at as usize) < memory.len() {
        memory[at as usize]
    } else {
        0
    }
}

/// The bytes from one on.
pub(crate) fn bytes_after(bytes: &[u8], at: usize) -> &[u8]
    requires { at ≤ length bytes.now }
    ensures { result.now ≡ drop at bytes.now }
{
    &bytes[at..]
}

/// Puts back the frames of a file, the oldest first.
fn put_back(store: &mut Recorded<Store>, stacks: &[u8], alloc: Global) -> Result<(), End>
    requires sound { IsSound store.old.store }
    requires stacks { (read : Stacks)
        × AreStacks (length (memory_of store.old.store)) stacks.now read }
    ensures { (read : Stacks) → AreStacks (length (memory_of store.old.store)) stacks.now read
        → Went result store.old store.new (with_frames read) }
{
    let size = store.store().memory().len() as u32;
    let mut words = Vec::new(alloc);
    let Some(head) = read_head(stacks, size, MOST_WORDS) else {
        return Ok(());
    };
    put_back_one(store, stacks, head, true, &mut words)?;
    let most = MOST_WORDS - head.word_count();
    let calls = bytes_after(stacks, head.size());
    put_back_calls(store, calls, size, most, &mut words)
}

/// Puts back the frames of calls, the oldest first.
fn put_back_calls(
    store: &mut Recorded<Store>,
    bytes: &[u8],
    size: u32,
    most: usize,
    words: &mut Vec<u16>,
) -> Result<(), End>
    requires sound { IsSound store.old.store }
    requires main { frame_count (slice_index store.old.store.cells) ≡ 1 }
    requires room { height_of (slice_index store.old.store.cells) + most ≤ stack_size }
    requires calls { (calls : List Frame) × AreCalls size most bytes.now calls }
    ensures { (calls : List Frame) → AreCalls size most bytes.now calls
        → Went result store.old store.new (add_frames calls) }
{
    let mut rest = bytes;
    let mut left = most;
    while let Some(head) = read_head(rest, size, left) {
        put_back_one(store, rest, head, false, words)?;
        left -= head.word_count();
        rest = bytes_after(rest, head.size());
    }
    Ok(())
}

/// Puts back the frame that bytes begin with: that of the main code, or of a call.
fn put_back_one(
    store: &mut Recorded<Store>,
    bytes: &[u8],
    head: FrameHead,
    is_main: bool,
    words: &mut Vec<u16>,
) -> Result<(), End>
    requires sound { IsSound store.old.store }
    requires whole { size_of head ≤ length bytes.now }
    requires few { words_of head ≤ stack_size }
    requires calls { is_main ≡ false
        → frame_count (slice_index store.old.store.cells) < record_count }
    requires room { is_main ≡ false
        → height_of (slice_index store.old.store.cells) + words_of head ≤ stack_size }
    ensures { Went result store.old store.new
        (put_back_one is_main head (words_from (words_of head) (drop HEAD bytes.now))) }
{
    words.clear();
    let Ok(()) = read_words(bytes_after(bytes, HEAD), head.word_count(), words) else {
        store.abandon();
        return Err(End::Memory);
    };
    if is_main {
        begin_frames(store, words.as_slice())
    } else {
        push_frame(store, head, words.as_slice())
    }
}
