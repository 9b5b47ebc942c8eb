//! Waiting for a line or a key (Z-Machine Standards Document 1.1, section 15, `aread` and
//! `read_char`). Each open stream is closed first, and the text of the upper window is shown if that is
//! selected.

ghost use Rattle.std.specs.Prelude.{◌≤◌, slice_index_or, length};
ghost use Rattle.zcore.specs.Execution.{first};
ghost use Rattle.zcore.specs.declared.next.Next as next;
ghost use Rattle.zcore_standard.specs.Reading as definitions;
ghost use Rattle.machine_frames.specs.States.{IsStoreOf};
ghost use Rattle.machine_opcodes.specs.Printed.{HasBegun, ToldFrom};
ghost use Rattle.machine_decoding.specs.Seen.{seen};
ghost use Rattle.machine_standard_windows.specs.TurnState.{place, Keeps};

use crate::effects::value_or;
use journal::Recorded;
use machine_frames::{End, Store};
use machine_opcodes::Ending;
use machine_standard_opcodes::begin_read;
use machine_standard_windows::TurnState;
use machine_standard_words::{wait_for_key, wait_for_line};
use zcore::{Header, Next};
use zcore_standard::Loaded;

/// Waits for a line: `aread`, of which the parse buffer may be left out; time and routine are not
/// used.
pub(crate) fn read_line(
    header: &Header,
    store: &mut Recorded<Store>,
    text: &mut Vec<u8>,
    start: usize,
    loaded: &Loaded,
    turn: &TurnState,
    values: &[u16],
    ending: Ending,
) -> Result<Next, End>
    requires store { IsStoreOf header.now store.old.store }
    requires text { HasBegun start text.old.items }
    requires enough { 1 ≤ length values.now }
    ensures told { (here : next.Next) → ToldFrom start (seen (place turn.now) result)
        store.old text.old.items store.new text.new.items
        (definitions.read_line loaded.now.characters (place turn.now here)
        ending.after ending.result (first values.now) (slice_index_or values.now 1 0)) }
    ensures text { Keeps start text.old.items text.new.items }
{
    begin_read(header, store, text, start, loaded, turn)?;
    let parse_buffer = value_or(values, 1, 0);
    wait_for_line(
        header,
        store,
        ending.after,
        ending.result,
        values[0],
        parse_buffer,
    )
}

/// Waits for a key: `read_char`, whose operands are not used.
pub(crate) fn read_key(
    header: &Header,
    store: &mut Recorded<Store>,
    text: &mut Vec<u8>,
    start: usize,
    loaded: &Loaded,
    turn: &TurnState,
    ending: Ending,
) -> Result<Next, End>
    requires store { IsStoreOf header.now store.old.store }
    requires text { HasBegun start text.old.items }
    ensures told { (here : next.Next) → ToldFrom start (seen (place turn.now) result)
        store.old text.old.items store.new text.new.items
        (definitions.read_key loaded.now.characters (place turn.now here)
        ending.after ending.result) }
    ensures text { Keeps start text.old.items text.new.items }
{
    begin_read(header, store, text, start, loaded, turn)?;
    wait_for_key(store, ending.after, ending.result)
}
