//! What a story is given for the name of a saved game: what became of the file (Z-Machine Standards
//! Document 1.1, section 15, `save` and `restore`).

ghost use Rattle.std.specs.Prelude.{◌≡◌, ◌≤◌, ◌<◌, ◌+◌, ◌^◌, ◌++◌, ◌∷◌, ◌&&◌, nat_lt, codes, [], Some, None, Ok};
ghost use Rattle.std.specs.Prelude.{length, slice_set, IfOk, OnOk, OnErr};
ghost use Rattle.std.specs.Option.{option_map};
ghost use Rattle.zcore.specs.Header.{static_base_of};
ghost use Rattle.zcore.specs.Instruction as known;
ghost use Rattle.zcore.specs.State.{Pending};
ghost use Rattle.iff_files.specs.Frames.{Stacks};
ghost use Rattle.iff_files.specs.SaveFiles.{saved_in};
ghost use Rattle.zcore_standard.specs.Saving as definitions;
ghost use Rattle.zcore_standard.specs.declared.save_form.SaveForm.TheVariants as forms;
ghost use Rattle.machine_frames.specs.Contents.{memory_of};
ghost use Rattle.machine_frames.specs.States.{IsSound, IsStoreOf, state_of};
ghost use Rattle.machine_frames.specs.Went.{GivenUp, Went};
ghost use Rattle.machine_lines.specs.Lines.{WaitsNoMore};
ghost use Rattle.machine_standard_saves.specs.Asked.{BranchIn, CanSucceed, GrewBy, HasJustBegun, HasSaves, IsGameOf};
ghost use Rattle.machine_standard_saves.specs.Asked.{TakesFile, ToldAfter, longest_notice, waiting_register};
ghost use Rattle.machine_standard_saves.specs.Restored.{AreStacks};

use crate::keeping::file_of;
use crate::pausing::add;
use crate::restoring::{byte_at, bytes_after, copy_of, take_up};
use iff_files::{Save, SaveFault, read_save};
use journal::{NoMemory, Recorded};
use machine_frames::layout::{PARSE_BUFFER, RETURN_ADDRESS, TEXT_BUFFER, WAITING};
use machine_frames::{End, Store, cell, long, store_result, test_result};
use machine_opcodes::{branch_on, test_branch};
use std::alloc::{AllocError, Global};
use zcore::layout::HEADER_LENGTH;
use zcore::{Branch, Header, Next, Place};
use zcore_standard::{Loaded, Purpose, SaveForm, branch_at};

/// What the opcodes answer where they fail, where a game was saved, and where it was restored.
const FAILED: u16 = 0;

const SAVED: u16 = 1;

const RESTORED: u16 = 2;

/// What is given where a file was written or read.
const DONE: u8 = 0;

/// What is given for a name that is none.
const NO_NAME: u8 = 1;

/// What is given where there is no file.
const NO_FILE: u8 = 4;

/// By what number `save` is kept as what a name is asked for.
const FOR_SAVING: u16 = 1;

/// How `save` is written without operands, before its variable or branch.
const SAVE: u8 = 0xB5;

const EXTENDED_SAVE: [u8; 3] = [0xBE, 0, 0xFF];

/// An opcode that waits for its answer.
#[derive(Clone, Copy)]
struct Request {
    /// How the version of the story writes `save`.
    form: SaveForm,

    /// The address of the byte that names the variable for the answer, or up to version 3 of the first
    /// byte of its branch.
    place: u32,

    /// The fuel of the turn that the answer begins.
    fuel: u32,
}

/// What a story that waits is asked for, where it is a name.
pub fn asked(store: &Recorded<Store>) -> Option<Purpose>
    requires { IsSound store.now.store }
    ensures { result ≡ definitions.asked_by (state_of store.now.store []).pending }
{
    let waiting = cell(store, WAITING);
    if waiting == 0 {
        return None;
    }
    let text = cell(store, TEXT_BUFFER);
    let parse = cell(store, PARSE_BUFFER);
    purpose_by(text, parse)
}

/// What a story that waits with these buffers is asked for, where it is a name.
fn purpose_by(text: u16, parse: u16) -> Option<Purpose>
    ensures { result ≡ definitions.asked_by (Some (record {
      text_buffer = text;
      parse_buffer = parse;
      result = None;
      return_address = 0;
    })) }
{
    if text != 0 {
        return None;
    }
    if parse == 0 {
        return None;
    }
    Some(purpose_of(parse))
}

/// For what a name is asked for, by the number that is kept.
fn purpose_of(number: u16) -> Purpose
    ensures { result ≡ definitions.purpose_of (record {
      text_buffer = 0;
      parse_buffer = number;
      result = None;
      return_address = 0;
    }) }
{
    if number == FOR_SAVING {
        Purpose::Saving
    } else {
        Purpose::Restoring
    }
}

/// The place of the answer that a store waits for.
fn place_in(store: &Recorded<Store>) -> u32
    requires { IsSound store.now.store }
    ensures place { (pending : Pending) → (state_of store.now.store []).pending ≡ Some pending
        → result ≡ definitions.place_of pending }
    ensures few { result + 1 < 2 ^ 32 }
{
    long(store, RETURN_ADDRESS).saturating_sub(1)
}

/// The save file of a story that waits for a name; none where the player has no save files, or where
/// no file can tell all of its frames.
///
/// # Errors
///
/// Memory was refused.
pub fn saved_game(
    store: &Recorded<Store>,
    loaded: &Loaded,
    alloc: Global,
) -> Result<Option<Vec<u8>>, AllocError>
    requires sound { IsSound store.now.store }
    requires saves { HasSaves loaded.now store.now.store }
    ensures { IfOk result (λ file.
        IsGameOf loaded.now store.now.store (option_map (λ f. f.items) file)) }
{
    let place = place_in(store);
    let size = store.store().memory().len();
    if size <= place as usize {
        return Ok(None);
    }
    match loaded.saves() {
        Some(story) => file_of(store, story, place, alloc),
        None => Ok(None),
    }
}

/// Whether "success" can be answered to a story that waits for a name.
///
/// # Errors
///
/// Memory was refused.
pub fn can_succeed(store: &Recorded<Store>, form: SaveForm) -> Result<bool, NoMemory>
    requires { IsSound store.now.store }
    ensures { IfOk result (CanSucceed form store.now.store) }
{
    can_answer(store, form, place_in(store))
}

/// Gives a story that waits for a name what became of the file, and answers where the turn goes on.
/// The text of the turn begins where `text` ends.
///
/// # Errors
///
/// The faults of the answer. `End::Memory` where memory was refused: the turn is given up.
pub fn give_file(
    header: &Header,
    store: &mut Recorded<Store>,
    text: &mut Vec<u8>,
    loaded: &Loaded,
    form: SaveForm,
    given: &[u8],
    alloc: Global,
    fuel: u32,
) -> Result<Next, End>
    requires store { IsStoreOf header.now store.old.store }
    requires saves { HasSaves loaded.now store.old.store }
    requires loaded { length loaded.now.dynamic ≡ static_base_of (memory_of store.old.store) }
    requires begun { store.old.beginning ≡ store.old.store.cells }
    ensures told { TakesFile loaded.now form given.now fuel result
        store.old text.old.items store.new text.new.items }
    ensures text { GrewBy longest_notice text.old.items text.new.items }
{
    let purpose = purpose_of(cell(store, PARSE_BUFFER));
    let request = Request {
        form,
        place: place_in(store),
        fuel,
    };
    stop_asking(store)?;
    match purpose {
        Purpose::Saving => give_saved(header, store, text, request, given),
        Purpose::Restoring => give_restored(header, store, text, loaded, request, given, alloc),
    }
}

/// Waits for nothing any more, and writes nothing else.
fn stop_asking(store: &mut Recorded<Store>) -> Result<(), NoMemory>
    requires { IsSound store.old.store }
    ensures waits { OnOk result (WaitsNoMore store.old store.new) }
    ensures cells { OnOk result (store.new.store.cells
        ≡ slice_set store.old.store.cells waiting_register 0) }
    ensures given_up { OnErr result (GivenUp store.old store.new) }
{
    store.put(WAITING, 0)?;
    Ok(())
}

/// Answers `save`. A name comes first; then "success" has to be possible, even where there is no file.
fn give_saved(
    header: &Header,
    store: &mut Recorded<Store>,
    text: &mut Vec<u8>,
    request: Request,
    given: &[u8],
) -> Result<Next, End>
    requires store { IsStoreOf header.now store.old.store }
    requires place { request.place + 1 < 2 ^ 32 }
    ensures told { ToldAfter result store.old text.old.items store.new text.new.items
        (definitions.saved_or request.form request.place request.fuel given.now) }
    ensures text { GrewBy longest_notice text.old.items text.new.items }
{
    if given.is_empty() {
        return give_answer(header, store, request, FAILED);
    }
    answer_saved(header, store, text, request, given[0])
}

/// Answers `save` by the number that is given.
fn answer_saved(
    header: &Header,
    store: &mut Recorded<Store>,
    text: &mut Vec<u8>,
    request: Request,
    number: u8,
) -> Result<Next, End>
    requires store { IsStoreOf header.now store.old.store }
    requires place { request.place + 1 < 2 ^ 32 }
    ensures told { ToldAfter result store.old text.old.items store.new text.new.items
        (definitions.saved_by request.form request.place request.fuel number) }
    ensures text { GrewBy longest_notice text.old.items text.new.items }
{
    if number == NO_NAME {
        return refuse(header, store, text, request, b"saved", reason(number));
    }
    test_success(store, request.form, request.place)?;
    if number == DONE {
        return give_answer(header, store, request, SAVED);
    }
    refuse(header, store, text, request, b"saved", reason(number))
}

/// Answers `restore`.
fn give_restored(
    header: &Header,
    store: &mut Recorded<Store>,
    text: &mut Vec<u8>,
    loaded: &Loaded,
    request: Request,
    given: &[u8],
    alloc: Global,
) -> Result<Next, End>
    requires store { IsStoreOf header.now store.old.store }
    requires saves { HasSaves loaded.now store.old.store }
    requires loaded { length loaded.now.dynamic ≡ static_base_of (memory_of store.old.store) }
    requires begun { HasJustBegun store.old }
    requires place { request.place + 1 < 2 ^ 32 }
    ensures told { ToldAfter result store.old text.old.items store.new text.new.items
        (definitions.restored_or loaded.now request.form request.place request.fuel given.now) }
    ensures text { GrewBy longest_notice text.old.items text.new.items }
{
    if given.is_empty() {
        return give_answer(header, store, request, FAILED);
    }
    let number = given[0];
    if number == DONE {
        restore(
            header,
            store,
            text,
            loaded,
            request,
            bytes_after(given, 1),
            alloc,
        )
    } else {
        refuse(header, store, text, request, b"restored", reason(number))
    }
}

/// Why there is no file, by the number that is given.
fn reason(number: u8) -> &'static [u8]
    requires { 1 ≤ number }
    ensures reason { result.now ≡ definitions.reason number }
    ensures few { length result.now ≤ 40 }
{
    match number {
        NO_NAME => b"that is no name for a file",
        2 => b"another file has this name",
        3 => b"the file cannot be written",
        NO_FILE => b"there is no such file",
        _ => b"",
    }
}

/// The opcode fails, and why is told.
fn refuse(
    header: &Header,
    store: &mut Recorded<Store>,
    text: &mut Vec<u8>,
    request: Request,
    what: &[u8],
    why: &[u8],
) -> Result<Next, End>
    requires store { IsStoreOf header.now store.old.store }
    requires place { request.place + 1 < 2 ^ 32 }
    requires few { length what.now + length why.now ≤ 50 }
    ensures told { ToldAfter result store.old text.old.items store.new text.new.items
        (definitions.refuse request.form request.place request.fuel what.now why.now) }
    ensures text { GrewBy longest_notice text.old.items text.new.items }
{
    match put_notice(text, what, why) {
        Ok(()) => give_answer(header, store, request, FAILED),
        Err(_) => {
            store.abandon();
            Err(End::Memory)
        }
    }
}

/// Adds the line that tells why. At `Err` memory was refused, and a part may have been added.
fn put_notice(text: &mut Vec<u8>, what: &[u8], why: &[u8]) -> Result<(), AllocError>
    requires { length what.now + length why.now ≤ 50 }
    ensures added { OnOk result
        (text.new.items ≡ text.old.items ++ definitions.notice what.now why.now) }
    ensures text { GrewBy longest_notice text.old.items text.new.items }
{
    add(text, b"[Not ")?;
    add(text, what)?;
    put_why(text, why)
}

/// The same from the colon on.
fn put_why(text: &mut Vec<u8>, why: &[u8]) -> Result<(), AllocError>
    ensures added { OnOk result (text.new.items
        ≡ text.old.items ++ (codes ": " ++ why.now ++ codes ".]" ++ 10 ∷ [])) }
    ensures text { GrewBy (length why.now + 5) text.old.items text.new.items }
{
    add(text, b": ")?;
    add(text, why)?;
    add(text, b".]\n")
}

/// The story goes on with an answer at a place: by the branch there, or by a result.
fn give_answer(
    header: &Header,
    store: &mut Recorded<Store>,
    request: Request,
    word: u16,
) -> Result<Next, End>
    requires store { IsStoreOf header.now store.old.store }
    requires place { request.place + 1 < 2 ^ 32 }
    ensures { Went result store.old store.new
        (definitions.answer request.form request.place word request.fuel) }
{
    match request.form {
        SaveForm::Branch => give_branch(header, store, request.place, word, request.fuel),
        SaveForm::Result => give_result(header, store, request.place, word, request.fuel),
        SaveForm::Extended => give_result(header, store, request.place, word, request.fuel),
    }
}

/// The story goes on by the branch at an address, by whether the answer is not 0.
fn give_branch(
    header: &Header,
    store: &mut Recorded<Store>,
    place: u32,
    word: u16,
    fuel: u32,
) -> Result<Next, End>
    requires { IsStoreOf header.now store.old.store }
    ensures { Went result store.old store.new (λ s.
        definitions.branch_by place word fuel (known.branch_at s.memory place) s) }
{
    let (branch, after) = branch_in(store, place)?;
    let here = Next {
        program_counter: place.saturating_sub(1),
        fuel,
    };
    branch_on(header, store, here, after, Some(branch), word > FAILED)
}

/// The story goes on after the byte at an address, with the result in the variable that this names.
fn give_result(
    header: &Header,
    store: &mut Recorded<Store>,
    place: u32,
    word: u16,
    fuel: u32,
) -> Result<Next, End>
    requires store { IsStoreOf header.now store.old.store }
    requires place { place + 1 < 2 ^ 32 }
    ensures { Went result store.old store.new (definitions.answer forms.Result place word fuel) }
{
    let variable = byte_at(store, place);
    store_result(header, store, Some(variable), word)?;
    Ok(Next {
        program_counter: place + 1,
        fuel,
    })
}

/// The branch at an address, and the address after it. M2.
fn branch_in(store: &Recorded<Store>, at: u32) -> Result<(Branch, u32), End>
    requires { IsSound store.now.store }
    ensures { BranchIn (memory_of store.now.store) at result }
{
    match branch_at(store.store().memory(), at as usize) {
        Ok((branch, after)) => Ok((branch, after as u32)),
        Err(fault) => Err(End::Stop(Place::Fault(fault))),
    }
}

/// Tests whether "success" can be answered at a place, and changes nothing.
fn test_success(store: &Recorded<Store>, form: SaveForm, place: u32) -> Result<(), End>
    requires { IsSound store.now.store }
    ensures { Went result store.now store.now (definitions.test_success form place) }
{
    match form {
        SaveForm::Branch => {
            let (branch, after) = branch_in(store, place)?;
            test_branch(store, after, Some(branch), true)
        }
        SaveForm::Result => test_result(store, Some(byte_at(store, place))),
        SaveForm::Extended => test_result(store, Some(byte_at(store, place))),
    }
}

/// Whether "success" can be answered at a place.
fn can_answer(store: &Recorded<Store>, form: SaveForm, place: u32) -> Result<bool, NoMemory>
    requires { IsSound store.now.store }
    ensures can { IfOk result (λ can. can ≡ definitions.is_done
        (definitions.test_success form place (state_of store.now.store []))) }
    ensures given_up { OnErr result (GivenUp store.now store.now) }
{
    match test_success(store, form, place) {
        Ok(()) => Ok(true),
        Err(End::Stop(_)) => Ok(false),
        Err(End::Memory) => Err(NoMemory),
    }
}

/// Restores the state of a file, or tells why it is refused.
fn restore(
    header: &Header,
    store: &mut Recorded<Store>,
    text: &mut Vec<u8>,
    loaded: &Loaded,
    request: Request,
    bytes: &[u8],
    alloc: Global,
) -> Result<Next, End>
    requires store { IsStoreOf header.now store.old.store }
    requires saves { HasSaves loaded.now store.old.store }
    requires loaded { length loaded.now.dynamic ≡ static_base_of (memory_of store.old.store) }
    requires begun { HasJustBegun store.old }
    requires place { request.place + 1 < 2 ^ 32 }
    ensures told { ToldAfter result store.old text.old.items store.new text.new.items
        (definitions.restored_by loaded.now request.form request.place request.fuel bytes.now) }
    ensures text { GrewBy longest_notice text.old.items text.new.items }
{
    let Some(story) = loaded.saves() else {
        return refuse(header, store, text, request, b"restored", reason(NO_FILE));
    };
    let Ok(mut memory) = copy_of(story, alloc) else {
        store.abandon();
        return Err(End::Memory);
    };
    restore_over(
        header,
        store,
        text,
        loaded,
        story,
        request,
        &mut memory,
        bytes,
        alloc,
    )
}

/// The same, over dynamic memory as the story's file has it, which becomes that of the saved game.
fn restore_over(
    header: &Header,
    store: &mut Recorded<Store>,
    text: &mut Vec<u8>,
    loaded: &Loaded,
    story: &[u8],
    request: Request,
    memory: &mut [u8],
    bytes: &[u8],
    alloc: Global,
) -> Result<Next, End>
    requires store { IsStoreOf header.now store.old.store }
    requires loaded { length loaded.now.dynamic ≡ static_base_of (memory_of store.old.store) }
    requires story { length story.now ≡ static_base_of (memory_of store.old.store) }
    requires memory { length memory.old ≡ static_base_of (memory_of store.old.store) }
    requires same { memory.old ≡ story.now }
    requires begun { HasJustBegun store.old }
    requires place { request.place + 1 < 2 ^ 32 }
    ensures told { ToldAfter result store.old text.old.items store.new text.new.items
        (λ s. definitions.restore_read loaded.now story.now request.form request.place request.fuel
        (saved_in story.now (length s.memory) bytes.now) s) }
    ensures text { GrewBy longest_notice text.old.items text.new.items }
{
    let size = store.store().memory().len() as u32;
    match read_save(memory, size, bytes) {
        Ok(save) => restore_save(
            header, store, text, loaded, story, request, memory, save, alloc,
        ),
        Err(fault) => refuse(header, store, text, request, b"restored", reason_of(fault)),
    }
}

/// Puts a saved game with this dynamic memory in place of the present state, and goes on after its
/// `save`. Where no `save` is there that "success" can be answered to, all stays as it was, and why is
/// told.
fn restore_save(
    header: &Header,
    store: &mut Recorded<Store>,
    text: &mut Vec<u8>,
    loaded: &Loaded,
    story: &[u8],
    request: Request,
    memory: &mut [u8],
    save: Save<'_>,
    alloc: Global,
) -> Result<Next, End>
    requires store { IsStoreOf header.now store.old.store }
    requires loaded { length loaded.now.dynamic ≡ static_base_of (memory_of store.old.store) }
    requires story { length story.now ≡ static_base_of (memory_of store.old.store) }
    requires memory { length memory.old ≡ static_base_of (memory_of store.old.store) }
    requires counter { save.program_counter < 2 ^ 24 }
    requires stacks { (read : Stacks)
        × AreStacks (length (memory_of store.old.store)) save.stacks.now read }
    requires begun { HasJustBegun store.old }
    requires place { request.place + 1 < 2 ^ 32 }
    ensures told { (read : Stacks)
        → AreStacks (length (memory_of store.old.store)) save.entry.stacks.now read
        → ToldAfter result store.old text.old.items store.new text.new.items
        (definitions.restore_read loaded.now story.now request.form request.place request.fuel (Ok (record {
          program_counter = save.entry.program_counter;
          memory = memory.old;
          stacks = read;
        }))) }
    ensures text { GrewBy longest_notice text.old.items text.new.items }
{
    take_up(header, store, loaded, memory, save.stacks, alloc)?;
    let place = save.program_counter;
    let can_go_on = is_place(store, story, request.form, place)?;
    if can_go_on {
        let there = Request {
            form: request.form,
            place,
            fuel: request.fuel,
        };
        return give_answer(header, store, there, RESTORED);
    }
    store.abandon();
    stop_asking(store)?;
    refuse(
        header,
        store,
        text,
        request,
        b"restored",
        b"its place is not after a save",
    )
}

/// Whether a story in this state can go on at a place, after a `save`. Its file has this dynamic
/// memory.
fn is_place(
    store: &Recorded<Store>,
    story: &[u8],
    form: SaveForm,
    place: u32,
) -> Result<bool, NoMemory>
    requires { IsSound store.now.store }
    ensures is { IfOk result (λ is. is
        ≡ definitions.is_place story.now form place (state_of store.now.store [])) }
    ensures given_up { OnErr result (GivenUp store.now store.now) }
{
    let memory = store.store().memory();
    let follows = follows_save(memory, story, form, place as usize);
    if !follows {
        return Ok(false);
    }
    can_answer(store, form, place)
}

/// Whether the bytes before a place in a story are a `save` without operands, after the header, as the
/// story's file has them: with this dynamic memory.
fn follows_save(memory: &[u8], story: &[u8], form: SaveForm, place: usize) -> bool
    ensures { result ≡ (nat_lt place (length memory.now)
        && definitions.follows_save form (definitions.byte_of_file story.now memory.now) place) }
{
    if memory.len() <= place {
        return false;
    }
    match form {
        SaveForm::Branch => follows_short(memory, story, place),
        SaveForm::Result => follows_short(memory, story, place),
        SaveForm::Extended => follows_extended(memory, story, place),
    }
}

/// The same, where `save` is one byte.
fn follows_short(memory: &[u8], story: &[u8], place: usize) -> bool
    requires { place < length memory.now }
    ensures { result ≡ definitions.follows_save forms.Branch
        (definitions.byte_of_file story.now memory.now) place }
{
    if place < HEADER_LENGTH + 1 {
        return false;
    }
    byte_of_file(story, memory, place - 1) == SAVE
}

/// The same, where it is an extended opcode: with a byte for no types of operands.
fn follows_extended(memory: &[u8], story: &[u8], place: usize) -> bool
    requires { place < length memory.now }
    ensures { result ≡ definitions.follows_save forms.Extended
        (definitions.byte_of_file story.now memory.now) place }
{
    if place < HEADER_LENGTH + EXTENDED_SAVE.len() {
        return false;
    }
    let first = byte_of_file(story, memory, place - 3);
    let second = byte_of_file(story, memory, place - 2);
    let third = byte_of_file(story, memory, place - 1);
    [first, second, third] == EXTENDED_SAVE
}

/// The byte of the story's file at an address.
fn byte_of_file(story: &[u8], memory: &[u8], at: usize) -> u8
    requires { at < length memory.now }
    ensures { result ≡ definitions.byte_of_file story.now memory.now at }
{
    if at < story.len() {
        story[at]
    } else {
        memory[at]
    }
}

/// Why a file is refused.
fn reason_of(fault: SaveFault) -> &'static [u8]
    ensures reason { result.now ≡ definitions.reason_of fault }
    ensures few { length result.now ≤ 40 }
{
    match fault {
        SaveFault::Damaged => b"the file is damaged",
        SaveFault::OtherStory => b"the file is of another story",
        SaveFault::WrongMemory => b"its memory does not fit",
        SaveFault::WrongStacks => b"its stacks do not fit",
    }
}
