//! A step of an opcode that the version performs otherwise.

ghost use Rattle.std.specs.Prelude.{◌≡◌, ◌<◌, length, OnErr};
ghost use Rattle.zcore_standard.specs.Instruction.{decode_row};
ghost use Rattle.machine_frames.specs.Contents.{memory_of};
ghost use Rattle.machine_frames.specs.States.{IsStoreOf};
ghost use Rattle.machine_opcodes.specs.Printed.{HasBegun, ToldFrom};
ghost use Rattle.machine_decoding.specs.Seen.{seen};
ghost use Rattle.machine_standard_windows.specs.TurnState.{place, Keeps};
ghost use Rattle.zcore_versions.specs.Operations.{row_of};
ghost use Rattle.zcore_versions.specs.Performing as definitions;
ghost use Rattle.zcore_versions.specs.Versions.{versioned};
ghost use Rattle.machine_versions_steps.specs.Kinds.{Differs, IsEarly};

use crate::perform::perform;
use journal::Recorded;
use machine_frames::{End, Store};
use machine_standard_windows::TurnState;
use machine_steps::{OPERANDS, operand_values};
use zcore::{Header, Next, OpcodeRow, Operand, Place};
use zcore_standard::{Loaded, decode_row};
use zcore_versions::{StoryVersion, VersionOperation};

/// Does the instruction at the program counter, whose opcode the version performs otherwise, by its row.
///
/// # Errors
///
/// Where the turn ends: M1 and M2 where the instruction is none, M3 and M5 where a value of an operand is
/// none, then those of the operation. `End::Memory` where memory was refused: the turn is given up.
pub fn step_version(
    header: &Header,
    store: &mut Recorded<Store>,
    text: &mut Vec<u8>,
    start: usize,
    loaded: &Loaded,
    version: StoryVersion,
    turn: &mut TurnState,
    here: Next,
    operation: VersionOperation,
    row: OpcodeRow,
) -> Result<Next, End>
    requires store { IsStoreOf header.now store.old.store }
    requires text { HasBegun start text.old.items }
    requires version { IsEarly version }
    requires row { row ≡ row_of version.number operation }
    requires differs { Differs version.number operation }
    requires within { here.program_counter < length (memory_of store.old.store) }
    ensures told { ToldFrom start (seen (place turn.new) result) store.old text.old.items
        store.new text.new.items (definitions.execute_older (versioned loaded.now version) operation
        (place turn.old here) (decode_row (memory_of store.old.store) here.program_counter
        (row_of version.number operation))) }
    ensures text { Keeps start text.old.items text.new.items }
    ensures turn { OnErr result (turn.new ≡ turn.old) }
{
    let mut operands = [Operand::Small(0); OPERANDS];
    let mut values = [0; OPERANDS];
    let memory = store.store().memory();
    let at = here.program_counter as usize;
    let (count, ending) = match decode_row(memory, at, row, &mut operands) {
        Ok(read) => read,
        Err(fault) => return Err(End::Stop(Place::Fault(fault))),
    };
    operand_values(header, store, &operands, count, &mut values)?;
    perform(
        header,
        store,
        text,
        start,
        loaded,
        version,
        turn,
        here,
        operation,
        &values[..count],
        ending,
    )
}
