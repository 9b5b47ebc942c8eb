//! The story begins anew (Z-Machine Standards Document 1.1, section 15, `restart`).

ghost use Rattle.std.specs.Prelude.{◌≡◌, ◌≤◌, length, drop, OnOk, OnErr};
ghost use Rattle.zcore.specs.Header.{static_base_of};
ghost use Rattle.zcore.specs.Layout.{header_size};
ghost use Rattle.zcore_standard.specs.Flags.{with_kept_bits};
ghost use Rattle.zcore_standard.specs.Flow as definitions;
ghost use Rattle.machine_frames.specs.Contents.{memory_of};
ghost use Rattle.machine_frames.specs.States.{IsSound};
ghost use Rattle.machine_frames.specs.Went.{GivenUp};
ghost use Rattle.machine_lines.specs.Lines.{Filled};
ghost use Rattle.machine_opcodes.specs.Printed.{HasBegun, ToldFrom};
ghost use Rattle.machine_decoding.specs.Seen.{seen};
ghost use Rattle.machine_standard_windows.specs.TurnState.{place, Keeps};
ghost use Rattle.machine_standard_opcodes.specs.Left.{Empties};

use crate::streams::{FLAGS_2, cut_to_heard};
use journal::{NoMemory, Recorded};
use machine_frames::layout::{FRAME_COUNT, HEIGHT, MEMORY, NO_VARIABLE, RECORD, RECORDS, WAITING};
use machine_frames::{End, Store, put_all};
use machine_lines::fill;
use machine_standard_texts::spend_for;
use machine_standard_windows::TurnState;
use zcore::layout::HEADER_LENGTH;
use zcore::{Limit, Next, Place};
use zcore_standard::Loaded;

/// Begins the story anew: `restart`. Dynamic memory after the header is as it was loaded, and so is
/// Flags 2 but for bits 0 and 1, the first environment runs, no line is waited for, window and dice are as at loading, and no stream is
/// open; what was printed to one or to the upper window is dropped. It takes a unit of fuel, and more
/// for the bytes of dynamic memory.
///
/// # Errors
///
/// The limit of fuel. `End::Memory` where memory was refused: the turn is given up.
pub fn restart(
    store: &mut Recorded<Store>,
    text: &mut Vec<u8>,
    start: usize,
    loaded: &Loaded,
    turn: &mut TurnState,
    here: Next,
) -> Result<Next, End>
    requires sound { IsSound store.old.store }
    requires dynamic { length loaded.now.dynamic ≡ static_base_of (memory_of store.old.store) }
    requires text { HasBegun start text.old.items }
    ensures told { ToldFrom start (seen (place turn.new) result) store.old text.old.items
        store.new text.new.items (definitions.restart loaded.now (place turn.old here)) }
    ensures text { Keeps start text.old.items text.new.items }
    ensures turn { OnErr result (turn.new ≡ turn.old) }
{
    if here.fuel == 0 {
        return Err(End::Stop(Place::Limit(Limit::Fuel)));
    }
    let dynamic = loaded.dynamic();
    let fuel = spend_for(dynamic.len(), here.fuel - 1)?;
    let memory = store.store().memory();
    let program_counter = memory[6] as u32 * 256 + memory[7] as u32;
    fill(store, HEADER_LENGTH, after_header(dynamic))?;
    restore_flags(store, dynamic)?;
    empty(store)?;
    cut_to_heard(text, start, turn);
    turn.standard_state = loaded.dice();
    turn.streams.clear();
    turn.upper = None;
    Ok(Next {
        program_counter,
        fuel,
    })
}

/// Brings Flags 2 back as it was loaded, but for bits 0 and 1, which stay (section 6.1.3). Bits 0 to 2
/// alone can have changed, and all are in the second byte.
fn restore_flags(store: &mut Recorded<Store>, dynamic: &[u8]) -> Result<(), NoMemory>
    requires sound { IsSound store.old.store }
    requires header { header_size ≤ length dynamic.now }
    ensures restored { OnOk result (Filled store.old store.new
        (with_kept_bits dynamic.now (memory_of store.old.store))) }
    ensures given_up { OnErr result (GivenUp store.old store.new) }
{
    let loaded = dynamic[FLAGS_2];
    let flags = store.store().byte(FLAGS_2);
    store.put(MEMORY + FLAGS_2, (loaded / 4 * 4 + flags % 4) as u16)
}

/// Memory from the end of the header on.
fn after_header(memory: &[u8]) -> &[u8]
    requires { header_size ≤ length memory.now }
    ensures { result.now ≡ drop header_size memory.now }
{
    &memory[HEADER_LENGTH..]
}

/// Leaves all frames but the first environment, which is empty, and waits for no line.
fn empty(store: &mut Recorded<Store>) -> Result<(), NoMemory>
    requires sound { IsSound store.old.store }
    ensures emptied { OnOk result (Empties store.old store.new) }
    ensures given_up { OnErr result (GivenUp store.old store.new) }
{
    put_all(store, FRAME_COUNT, &[1, 0, 0])?;
    put_all(store, RECORDS, &[0, 0, 0, 0, 0, 0, NO_VARIABLE])?;
    store.put(WAITING, 0)?;
    Ok(())
}
