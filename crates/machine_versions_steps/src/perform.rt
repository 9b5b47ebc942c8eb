//! What an instruction does with the values of its operands, where the version performs it otherwise
//! (Z-Machine Standards Document 1.1, section 15).

ghost use Rattle.std.specs.Prelude.{◌≡◌, ◌≤◌, true, drop, length, OnErr};
ghost use Rattle.zcore.specs.Layout.{longest_story};
ghost use Rattle.machine_frames.specs.States.{IsSound, IsStoreOf};
ghost use Rattle.machine_frames.specs.Went.{Went};
ghost use Rattle.machine_opcodes.specs.Printed.{HasBegun, Grew, ToldFrom};
ghost use Rattle.machine_decoding.specs.Seen.{seen};
ghost use Rattle.machine_standard_windows.specs.TurnState.{place, Keeps};
ghost use Rattle.zcore_versions.specs.Operations.{differs};
ghost use Rattle.zcore_versions.specs.declared.operations.VersionOperation.TheVariants as operations;
ghost use Rattle.zcore_standard.specs.Loaded as loading;
ghost use Rattle.zcore_versions.specs.Performing as definitions;
ghost use Rattle.zcore_versions.specs.Versions.{versioned};
ghost use Rattle.machine_versions_steps.specs.Kinds.{Differs, IsEarly};

use crate::objects::{perform_on_none, perform_on_object, value_of};
use crate::reading::read_line;
use journal::Recorded;
use machine_frames::{End, Store, pop};
use machine_locked_texts::{print_address, print_inline, print_return};
use machine_opcodes::{Ending, branch_on, give_result};
use machine_standard_objects::concerns_nothing;
use machine_standard_saves::pause;
use machine_standard_windows::{TurnState, split_window};
use machine_steps::OPERANDS;
use machine_versions::{call_older, print_object, print_packed};
use zcore::{Fault, Header, Next, Operation, Place};
use zcore_standard::{Loaded, OlderOperation, Purpose};
use zcore_versions::{StoryVersion, VersionOperation};

/// What `save` and `restore` answer, which fail.
const FAILED: u16 = 0;

/// The values after the first.
fn rest_of(values: &[u16]) -> &[u16]
    ensures { result.now ≡ drop 1 values.now }
{
    if values.len() == 0 {
        values
    } else {
        &values[1..]
    }
}

/// Does an operation: a call, a text, or one on objects.
fn perform_other(
    header: &Header,
    store: &mut Recorded<Store>,
    text: &mut Vec<u8>,
    start: usize,
    loaded: &Loaded,
    version: StoryVersion,
    here: Next,
    operation: Operation,
    values: &[u16],
    ending: Ending,
) -> Result<Next, End>
    requires store { IsStoreOf header.now store.old.store }
    requires text { HasBegun start text.old.items }
    requires version { IsEarly version }
    requires differs { differs version.number operation ≡ true }
    requires few { length values.now ≤ OPERANDS }
    requires after { ending.after ≤ longest_story }
    ensures told { ToldFrom start result store.old text.old.items store.new text.new.items
        (definitions.perform_other (versioned loaded.now version) operation here ending.after
        ending.result ending.branch values.now) }
    ensures text { Grew start text.old.items text.new.items }
{
    let after = ending.after;
    let x = value_of(values, 0);
    let rest = rest_of(values);
    match operation {
        Operation::CallVs | Operation::CallVs2 | Operation::Call1s | Operation::Call2s => {
            call_older(header, store, version, here, after, ending.result, x, rest)
        }
        Operation::CallVn | Operation::CallVn2 | Operation::Call1n | Operation::Call2n => {
            call_older(header, store, version, here, after, None, x, rest)
        }
        Operation::PrintPacked => {
            print_packed(store, text, start, loaded, version, here, after, x)
        }
        Operation::PrintObject => {
            print_object(header, store, text, start, loaded, version, here, after, x)
        }
        Operation::Print => print_inline(store, text, start, loaded, version, here, after),
        Operation::PrintReturn => {
            print_return(header, store, text, start, loaded, version, here, after)
        }
        Operation::PrintAddress => {
            let address = x as u32;
            print_address(store, text, start, loaded, version, here, after, address)
        }
        _ => perform_on_object(header, store, here, operation, values, ending),
    }
}

/// Does an operation that the profile has too.
fn perform_known(
    header: &Header,
    store: &mut Recorded<Store>,
    text: &mut Vec<u8>,
    start: usize,
    loaded: &Loaded,
    version: StoryVersion,
    here: Next,
    operation: Operation,
    values: &[u16],
    ending: Ending,
) -> Result<Next, End>
    requires store { IsStoreOf header.now store.old.store }
    requires text { HasBegun start text.old.items }
    requires version { IsEarly version }
    requires differs { differs version.number operation ≡ true }
    requires few { length values.now ≤ OPERANDS }
    requires after { ending.after ≤ longest_story }
    ensures told { ToldFrom start result store.old text.old.items store.new text.new.items
        (definitions.perform_known (versioned loaded.now version) operation here ending.after
        ending.result ending.branch values.now) }
    ensures text { Grew start text.old.items text.new.items }
{
    if concerns_nothing(operation, values) {
        return perform_on_none(header, store, here, operation, values, ending);
    }
    perform_other(
        header, store, text, start, loaded, version, here, operation, values, ending,
    )
}

/// Drops the top of the stack: `pop`.
fn drop_word(store: &mut Recorded<Store>, here: Next, after: u32) -> Result<Next, End>
    requires { IsSound store.old.store }
    ensures { Went result store.old store.new (definitions.drop_word here after) }
{
    pop(store)?;
    Ok(Next {
        program_counter: after,
        fuel: here.fuel,
    })
}

/// Fails: `save` and `restore`, by the branch up to version 3 and by the result in version 4.
fn fail(
    header: &Header,
    store: &mut Recorded<Store>,
    version: StoryVersion,
    here: Next,
    ending: Ending,
) -> Result<Next, End>
    requires store { IsStoreOf header.now store.old.store }
    requires after { ending.after ≤ longest_story }
    ensures { (loaded : loading.Loaded) → Went result store.old store.new (definitions.fail
        (versioned loaded version) here ending.after ending.result ending.branch) }
{
    let after = ending.after;
    if version.is_small() {
        return branch_on(header, store, here, after, ending.branch, false);
    }
    give_result(header, store, here, after, ending.result, FAILED)
}

/// Does an operation of versions up to 4 that reads nothing.
fn perform_silent(
    header: &Header,
    store: &mut Recorded<Store>,
    version: StoryVersion,
    here: Next,
    operation: OlderOperation,
    values: &[u16],
    ending: Ending,
) -> Result<Next, End>
    requires store { IsStoreOf header.now store.old.store }
    requires after { ending.after ≤ longest_story }
    ensures { (loaded : loading.Loaded) → Went result store.old store.new (definitions.perform_older
        (versioned loaded version) (operations.Older operation) here ending.after ending.result
        ending.branch values.now) }
{
    let after = ending.after;
    match operation {
        OlderOperation::Not => {
            let word = u16::MAX - value_of(values, 0);
            give_result(header, store, here, after, ending.result, word)
        }
        OlderOperation::Pop => drop_word(store, here, after),
        OlderOperation::Save | OlderOperation::Restore | OlderOperation::Read => {
            Err(End::Stop(Place::Fault(Fault::Opcode)))
        }
    }
}

/// Does an operation of versions up to 4.
fn perform_older(
    header: &Header,
    store: &mut Recorded<Store>,
    text: &mut Vec<u8>,
    start: usize,
    loaded: &Loaded,
    version: StoryVersion,
    turn: &TurnState,
    here: Next,
    operation: OlderOperation,
    values: &[u16],
    ending: Ending,
) -> Result<Next, End>
    requires store { IsStoreOf header.now store.old.store }
    requires text { HasBegun start text.old.items }
    requires after { ending.after ≤ longest_story }
    requires here { here.program_counter ≤ longest_story }
    ensures told { ToldFrom start (seen (place turn.now) result) store.old text.old.items
        store.new text.new.items (definitions.perform (versioned loaded.now version)
        (operations.Older operation) (place turn.now here) ending.after ending.result ending.branch
        values.now) }
    ensures text { Keeps start text.old.items text.new.items }
{
    match operation {
        OlderOperation::Read => {
            read_line(header, store, text, start, loaded, turn, values, ending)
        }
        OlderOperation::Save => use_file(
            header,
            store,
            text,
            start,
            loaded,
            version,
            turn,
            here,
            Purpose::Saving,
            ending,
        ),
        OlderOperation::Restore => use_file(
            header,
            store,
            text,
            start,
            loaded,
            version,
            turn,
            here,
            Purpose::Restoring,
            ending,
        ),
        _ => perform_silent(header, store, version, here, operation, values, ending),
    }
}

/// Pauses for the name of a saved game, where the player has save files, and else fails: `save` and
/// `restore`. The byte after the first one is the one of the answer.
fn use_file(
    header: &Header,
    store: &mut Recorded<Store>,
    text: &mut Vec<u8>,
    start: usize,
    loaded: &Loaded,
    version: StoryVersion,
    turn: &TurnState,
    here: Next,
    purpose: Purpose,
    ending: Ending,
) -> Result<Next, End>
    requires store { IsStoreOf header.now store.old.store }
    requires text { HasBegun start text.old.items }
    requires after { ending.after ≤ longest_story }
    requires here { here.program_counter ≤ longest_story }
    ensures told { ToldFrom start (seen (place turn.now) result) store.old text.old.items
        store.new text.new.items (definitions.use_file (versioned loaded.now version) purpose
        (place turn.now here) ending.after ending.result ending.branch) }
    ensures text { Keeps start text.old.items text.new.items }
{
    match loaded.saves() {
        Some(_) => {
            let at = here.program_counter + 1;
            pause(
                header,
                store,
                text,
                start,
                loaded,
                turn,
                purpose,
                at,
                ending.result,
            )
        }
        None => fail(header, store, version, here, ending),
    }
}

/// Does an operation on the values of its operands.
pub(crate) fn perform(
    header: &Header,
    store: &mut Recorded<Store>,
    text: &mut Vec<u8>,
    start: usize,
    loaded: &Loaded,
    version: StoryVersion,
    turn: &mut TurnState,
    here: Next,
    operation: VersionOperation,
    values: &[u16],
    ending: Ending,
) -> Result<Next, End>
    requires store { IsStoreOf header.now store.old.store }
    requires text { HasBegun start text.old.items }
    requires version { IsEarly version }
    requires differs { Differs version.number operation }
    requires few { length values.now ≤ OPERANDS }
    requires after { ending.after ≤ longest_story }
    requires here { here.program_counter ≤ longest_story }
    ensures told { ToldFrom start (seen (place turn.new) result) store.old text.old.items
        store.new text.new.items (definitions.perform (versioned loaded.now version) operation
        (place turn.old here) ending.after ending.result ending.branch values.now) }
    ensures text { Keeps start text.old.items text.new.items }
    ensures turn { OnErr result (turn.new ≡ turn.old) }
{
    match operation {
        VersionOperation::Known(known) => perform_known(
            header, store, text, start, loaded, version, here, known, values, ending,
        ),
        VersionOperation::Older(older) => perform_older(
            header, store, text, start, loaded, version, turn, here, older, values, ending,
        ),
        VersionOperation::SplitWindow => {
            split_window(text, start, turn, 0);
            Ok(Next {
                program_counter: ending.after,
                fuel: here.fuel,
            })
        }
        VersionOperation::Missing => Err(End::Stop(Place::Fault(Fault::Opcode))),
    }
}
