//! What a read does before it waits (Z-Machine Standards Document 1.1, sections 7.1.2 and 8.6).

ghost use Rattle.zcore_standard.specs.Streams as definitions;
ghost use Rattle.machine_frames.specs.States.{IsStoreOf};
ghost use Rattle.machine_opcodes.specs.Printed.{HasBegun, ToldFrom};
ghost use Rattle.machine_standard_windows.specs.TurnState.{place, Keeps};

use crate::streams::close_all;
use journal::Recorded;
use machine_frames::{End, Store};
use machine_standard_windows::{TurnState, show_upper};
use zcore::{Header, Next};
use zcore_standard::Loaded;

/// Closes each open stream, and shows the text of the upper window if that is selected.
///
/// # Errors
///
/// M4 where what a stream was given does not fit in dynamic memory, after the header; the limit of
/// text. `End::Memory` where memory was refused: the turn is given up.
pub fn begin_read(
    header: &Header,
    store: &mut Recorded<Store>,
    text: &mut Vec<u8>,
    start: usize,
    loaded: &Loaded,
    turn: &TurnState,
) -> Result<(), End>
    requires store { IsStoreOf header.now store.old.store }
    requires text { HasBegun start text.old.items }
    ensures told { (next : Next) → ToldFrom start result store.old text.old.items
        store.new text.new.items
        (definitions.begin_read loaded.now.characters (place turn.now next)) }
    ensures text { Keeps start text.old.items text.new.items }
{
    let streams = turn.streams.as_slice();
    close_all(header, store, text, start, loaded.characters(), streams)?;
    show_upper(store, text, start, turn)
}
