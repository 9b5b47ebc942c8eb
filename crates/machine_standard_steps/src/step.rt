//! A step of the Standard's machine.

ghost use Rattle.std.specs.Prelude.{◌≡◌, ◌≤◌, ◌<◌, false, length, drop, IfOk, OnErr, Some, None};
ghost use Rattle.zcore.specs.Header.{static_base_of};
ghost use Rattle.zcore.specs.Turn.{weight};
ghost use Rattle.zcore_standard.specs.Performing as definitions;
ghost use Rattle.zcore_standard.specs.Instruction.{decode_row};
ghost use Rattle.zcore_standard.specs.Machine.{standard_step};
ghost use Rattle.zcore_standard.specs.Operations.{row_of, further_at};
ghost use Rattle.zcore_standard.specs.declared.operations.StandardOperation.TheVariants.{SplitWindow};
ghost use Rattle.machine_frames.specs.Contents.{memory_of};
ghost use Rattle.machine_frames.specs.States.{state_of, IsStoreOf};
ghost use Rattle.machine_opcodes.specs.Printed.{HasBegun, ToldFrom};
ghost use Rattle.machine_decoding.specs.Seen.{seen};
ghost use Rattle.machine_standard_windows.specs.TurnState.{place, Keeps};
ghost use Rattle.machine_picture.specs.Drawing.{picture_of};
ghost use Rattle.machine_picture.specs.Picture as pictures;
ghost use Rattle.machine_standard_steps.specs.Versions.{IsPlayedVersion};
ghost use Rattle.machine_standard_steps.specs.Redrawing.{Pictures, Redraws};
ghost use Rattle.zcore_versions.specs.Machine.{any_step};
ghost use Rattle.zcore_versions.specs.Operations as versions;
ghost use Rattle.zcore_versions.specs.Operations.{older_at};
ghost use Rattle.zcore_versions.specs.Performing.{execute_older};
ghost use Rattle.zcore_versions.specs.Versions.{Story, is_late, versioned};
ghost use Rattle.zcore_versions.specs.declared.operations.VersionOperation.TheVariants as variants;

use crate::drawing::{look, name_of, redraw};
use crate::opcodes::{operation_at, version_operation_at};
use crate::perform::perform_further;
use journal::Recorded;
use machine_frames::{End, Store};
use machine_picture::Picture;
use machine_standard_objects::step_known;
use machine_standard_windows::{TurnState, split_window};
use machine_steps::{OPERANDS, operand_values};
use machine_versions_steps::step_version;
use zcore::{Fault, Header, Next, OpcodeRow, Operand, Place};
use zcore_standard::{Loaded, StandardOperation, decode_row};
use zcore_versions::{StoryVersion, VersionOperation};

/// Does the instruction at the program counter as versions 5 and 8 do it, and answers where the turn goes on.
fn step_standard(
    header: &Header,
    store: &mut Recorded<Store>,
    text: &mut Vec<u8>,
    start: usize,
    loaded: &Loaded,
    version: u8,
    turn: &mut TurnState,
    picture: &mut Picture,
    here: Next,
) -> Result<Next, End>
    requires store { IsStoreOf header.now store.old.store }
    requires dynamic { length loaded.now.dynamic ≡ static_base_of (memory_of store.old.store) }
    requires text { HasBegun start text.old.items }
    ensures told { ToldFrom start (seen (place turn.new) result) store.old text.old.items
        store.new text.new.items (standard_step loaded.now (place turn.old here)) }
    ensures picture { Pictures result version
        (further_at (memory_of store.old.store) here.program_counter) (place turn.old here)
        (state_of store.old.store (drop start text.old.items)) (drop start text.new.items)
        (picture_of picture.old) (picture_of picture.new) }
    ensures falls { IfOk result (λ next.
        weight next (state_of store.new.store (drop start text.new.items))
        < weight here (state_of store.old.store (drop start text.old.items))) }
    ensures text { Keeps start text.old.items text.new.items }
    ensures turn { OnErr result (turn.new ≡ turn.old) }
{
    match operation_at(store.store().memory(), here.program_counter as usize) {
        None => step_known(header, store, text, start, loaded, here),
        Some((operation, row)) => step_looking(
            header, store, text, start, loaded, version, turn, picture, here, operation, row,
        ),
    }
}

/// Does the instruction of a further operation, before which the picture is brought up to date where the operation draws or
/// waits.
fn step_looking(
    header: &Header,
    store: &mut Recorded<Store>,
    text: &mut Vec<u8>,
    start: usize,
    loaded: &Loaded,
    version: u8,
    turn: &mut TurnState,
    picture: &mut Picture,
    here: Next,
    operation: StandardOperation,
    row: OpcodeRow,
) -> Result<Next, End>
    requires store { IsStoreOf header.now store.old.store }
    requires dynamic { length loaded.now.dynamic ≡ static_base_of (memory_of store.old.store) }
    requires text { HasBegun start text.old.items }
    requires row { row ≡ row_of operation }
    requires found { further_at (memory_of store.old.store) here.program_counter
        ≡ Some operation }
    ensures told { ToldFrom start (seen (place turn.new) result) store.old text.old.items
        store.new text.new.items (definitions.execute_further loaded.now operation
        (place turn.old here) (decode_row (memory_of store.old.store) here.program_counter
        (row_of operation))) }
    ensures picture { Pictures result version (Some operation) (place turn.old here)
        (state_of store.old.store (drop start text.old.items)) (drop start text.new.items)
        (picture_of picture.old) (picture_of picture.new) }
    ensures text { Keeps start text.old.items text.new.items }
    ensures turn { OnErr result (turn.new ≡ turn.old) }
{
    match look(store, &text[start..], turn, picture, Some(operation)) {
        Ok(()) => step_further(
            header, store, text, start, loaded, version, turn, picture, here, operation, row,
        ),
        Err(_) => Err(End::Memory),
    }
}

/// Does the instruction at the program counter of a story of any version.
#[inline(always)]
pub fn step_any(
    header: &Header,
    store: &mut Recorded<Store>,
    text: &mut Vec<u8>,
    start: usize,
    loaded: &Loaded,
    version: StoryVersion,
    turn: &mut TurnState,
    picture: &mut Picture,
    here: Next,
) -> Result<Next, End>
    requires store { IsStoreOf header.now store.old.store }
    requires dynamic { length loaded.now.dynamic ≡ static_base_of (memory_of store.old.store) }
    requires text { HasBegun start text.old.items }
    requires version { IsPlayedVersion version }
    ensures told { ToldFrom start (seen (place turn.new) result) store.old text.old.items
        store.new text.new.items (any_step (versioned loaded.now version) (place turn.old here)) }
    ensures picture { Pictures result version.number
        (pictures.operation_at (versioned loaded.now version) (memory_of store.old.store) here.program_counter)
        (place turn.old here) (state_of store.old.store (drop start text.old.items))
        (drop start text.new.items) (picture_of picture.old) (picture_of picture.new) }
    ensures falls { IfOk result (λ next.
        weight next (state_of store.new.store (drop start text.new.items))
        < weight here (state_of store.old.store (drop start text.old.items))) }
    ensures text { Keeps start text.old.items text.new.items }
    ensures turn { OnErr result (turn.new ≡ turn.old) }
{
    let number = version.number;
    if version.is_late() {
        return step_standard(
            header, store, text, start, loaded, number, turn, picture, here,
        );
    }
    match version_operation_at(
        store.store().memory(),
        here.program_counter as usize,
        version,
    ) {
        None => step_standard(
            header, store, text, start, loaded, number, turn, picture, here,
        ),
        Some((operation, row)) => step_other(
            header, store, text, start, loaded, version, turn, picture, here, operation, row,
        ),
    }
}

/// Does the instruction of an operation that the version performs otherwise than versions 5 and 8, before
/// which the picture is brought up to date where the operation draws or waits.
fn step_other(
    header: &Header,
    store: &mut Recorded<Store>,
    text: &mut Vec<u8>,
    start: usize,
    loaded: &Loaded,
    version: StoryVersion,
    turn: &mut TurnState,
    picture: &mut Picture,
    here: Next,
    operation: VersionOperation,
    row: OpcodeRow,
) -> Result<Next, End>
    requires store { IsStoreOf header.now store.old.store }
    requires text { HasBegun start text.old.items }
    requires early { is_late version ≡ false }
    requires version { IsPlayedVersion version }
    requires row { row ≡ versions.row_of version.number operation }
    requires found { older_at version (memory_of store.old.store) here.program_counter
        ≡ Some operation }
    ensures told { ToldFrom start (seen (place turn.new) result) store.old text.old.items
        store.new text.new.items (any_step (versioned loaded.now version) (place turn.old here)) }
    ensures picture { Pictures result version.number (pictures.by_name (Some operation) None)
        (place turn.old here) (state_of store.old.store (drop start text.old.items)) (drop start text.new.items)
        (picture_of picture.old) (picture_of picture.new) }
    ensures text { Keeps start text.old.items text.new.items }
    ensures turn { OnErr result (turn.new ≡ turn.old) }
{
    match look(store, &text[start..], turn, picture, name_of(operation)) {
        Ok(()) => step_looked(
            header, store, text, start, loaded, version, turn, picture, here, operation, row,
        ),
        Err(_) => Err(End::Memory),
    }
}

/// The same, where the picture is up to date.
fn step_looked(
    header: &Header,
    store: &mut Recorded<Store>,
    text: &mut Vec<u8>,
    start: usize,
    loaded: &Loaded,
    version: StoryVersion,
    turn: &mut TurnState,
    picture: &mut Picture,
    here: Next,
    operation: VersionOperation,
    row: OpcodeRow,
) -> Result<Next, End>
    requires store { IsStoreOf header.now store.old.store }
    requires text { HasBegun start text.old.items }
    requires early { is_late version ≡ false }
    requires version { IsPlayedVersion version }
    requires row { row ≡ versions.row_of version.number operation }
    requires found { older_at version (memory_of store.old.store) here.program_counter
        ≡ Some operation }
    ensures told { ToldFrom start (seen (place turn.new) result) store.old text.old.items
        store.new text.new.items (any_step (versioned loaded.now version) (place turn.old here)) }
    ensures picture { Redraws result version.number (pictures.by_name (Some operation) None)
        (place turn.old here) (state_of store.old.store (drop start text.old.items)) (drop start text.new.items)
        (picture_of picture.old) (picture_of picture.new) }
    ensures text { Keeps start text.old.items text.new.items }
    ensures turn { OnErr result (turn.new ≡ turn.old) }
{
    match operation {
        VersionOperation::Missing => Err(End::Stop(Place::Fault(Fault::Opcode))),
        VersionOperation::SplitWindow => {
            let number = version.number;
            step_split(header, store, text, start, number, turn, picture, here, row)
        }
        _ => step_version(
            header, store, text, start, loaded, version, turn, here, operation, row,
        ),
    }
}

/// Does the instruction `split_window` of version 3, which erases the upper window whatever the number
/// of rows.
fn step_split(
    header: &Header,
    store: &mut Recorded<Store>,
    text: &mut Vec<u8>,
    start: usize,
    version: u8,
    turn: &mut TurnState,
    picture: &mut Picture,
    here: Next,
    row: OpcodeRow,
) -> Result<Next, End>
    requires store { IsStoreOf header.now store.old.store }
    requires text { HasBegun start text.old.items }
    requires row { row ≡ row_of SplitWindow }
    requires within { here.program_counter < length (memory_of store.old.store) }
    ensures told { (story : Story) → ToldFrom start (seen (place turn.new) result)
        store.old text.old.items store.new text.new.items (execute_older story variants.SplitWindow (place turn.old here)
        (decode_row (memory_of store.old.store) here.program_counter (row_of SplitWindow))) }
    ensures picture { Redraws result version (Some SplitWindow) (place turn.old here)
        (state_of store.old.store (drop start text.old.items)) (drop start text.new.items)
        (picture_of picture.old) (picture_of picture.new) }
    ensures text { Keeps start text.old.items text.new.items }
    ensures turn { OnErr result (turn.new ≡ turn.old) }
{
    let mut operands = [Operand::Small(0); OPERANDS];
    let mut values = [0; OPERANDS];
    let memory = store.store().memory();
    let at = here.program_counter as usize;
    let (count, ending) = match decode_row(memory, at, row, &mut operands) {
        Ok(read) => read,
        Err(fault) => return Err(End::Stop(Place::Fault(fault))),
    };
    operand_values(header, store, &operands, count, &mut values)?;
    let window = turn.standard_state.window;
    split_window(text, start, turn, 0);
    let long = text.len() - start;
    picture.redraw(
        version,
        StandardOperation::SplitWindow,
        window,
        &values[..count],
        long,
    );
    Ok(Next {
        program_counter: ending.after,
        fuel: here.fuel,
    })
}

/// Does the instruction of a further operation.
fn step_further(
    header: &Header,
    store: &mut Recorded<Store>,
    text: &mut Vec<u8>,
    start: usize,
    loaded: &Loaded,
    version: u8,
    turn: &mut TurnState,
    picture: &mut Picture,
    here: Next,
    operation: StandardOperation,
    row: OpcodeRow,
) -> Result<Next, End>
    requires store { IsStoreOf header.now store.old.store }
    requires dynamic { length loaded.now.dynamic ≡ static_base_of (memory_of store.old.store) }
    requires text { HasBegun start text.old.items }
    requires row { row ≡ row_of operation }
    requires found { further_at (memory_of store.old.store) here.program_counter
        ≡ Some operation }
    ensures told { ToldFrom start (seen (place turn.new) result) store.old text.old.items
        store.new text.new.items (definitions.execute_further loaded.now operation
        (place turn.old here) (decode_row (memory_of store.old.store) here.program_counter
        (row_of operation))) }
    ensures picture { Redraws result version (Some operation) (place turn.old here)
        (state_of store.old.store (drop start text.old.items)) (drop start text.new.items)
        (picture_of picture.old) (picture_of picture.new) }
    ensures text { Keeps start text.old.items text.new.items }
    ensures turn { OnErr result (turn.new ≡ turn.old) }
{
    let mut operands = [Operand::Small(0); OPERANDS];
    let mut values = [0; OPERANDS];
    let memory = store.store().memory();
    let at = here.program_counter as usize;
    let (count, ending) = match decode_row(memory, at, row, &mut operands) {
        Ok(read) => read,
        Err(fault) => return Err(End::Stop(Place::Fault(fault))),
    };
    operand_values(header, store, &operands, count, &mut values)?;
    let window = turn.standard_state.window;
    let performed = perform_further(
        header,
        store,
        text,
        start,
        loaded,
        turn,
        here,
        operation,
        &values[..count],
        ending,
    );
    let long = text.len() - start;
    redraw(
        picture,
        performed.is_ok(),
        version,
        operation,
        window,
        &values[..count],
        long,
    );
    performed
}
