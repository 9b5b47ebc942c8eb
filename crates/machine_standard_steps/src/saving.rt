//! `save` and `restore` (Z-Machine Standards Document 1.1, section 15).

ghost use Rattle.std.specs.Prelude.{◌≤◌};
ghost use Rattle.zcore.specs.declared.next.Next as next;
ghost use Rattle.zcore.specs.Layout.{longest_story};
ghost use Rattle.zcore_standard.specs.Performing as definitions;
ghost use Rattle.machine_frames.specs.States.{IsStoreOf};
ghost use Rattle.machine_opcodes.specs.Printed.{HasBegun, ToldFrom};
ghost use Rattle.machine_decoding.specs.Seen.{seen};
ghost use Rattle.machine_standard_windows.specs.TurnState.{place, Keeps};

use journal::Recorded;
use machine_frames::{End, Store};
use machine_opcodes::{Ending, give_result};
use machine_standard_saves::pause;
use machine_standard_windows::TurnState;
use zcore::{Header, Next};
use zcore_standard::{Loaded, Purpose};

/// What the opcodes answer where they fail.
const FAILED: u16 = 0;

/// Pauses for the name of a saved game, where the player has save files. With operands, which would
/// save a part of memory, the opcode fails.
pub(crate) fn use_file(
    header: &Header,
    store: &mut Recorded<Store>,
    text: &mut Vec<u8>,
    start: usize,
    loaded: &Loaded,
    turn: &TurnState,
    here: Next,
    purpose: Purpose,
    values: &[u16],
    ending: Ending,
) -> Result<Next, End>
    requires store { IsStoreOf header.now store.old.store }
    requires text { HasBegun start text.old.items }
    requires after { ending.after ≤ longest_story }
    ensures told { ToldFrom start (seen (place turn.now) result) store.old text.old.items
        store.new text.new.items (definitions.use_file loaded.now purpose
        (place turn.now here) ending.after ending.result values.now) }
    ensures text { Keeps start text.old.items text.new.items }
{
    let Ending { after, result, .. } = ending;
    if !values.is_empty() {
        return give_result(header, store, here, after, result, FAILED);
    }
    match loaded.saves() {
        Some(_) => {
            let at = after.saturating_sub(1);
            pause(
                header, store, text, start, loaded, turn, purpose, at, result,
            )
        }
        None => give_result(header, store, here, after, result, FAILED),
    }
}
