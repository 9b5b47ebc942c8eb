//! Waiting for a line in versions 1 to 4 (Z-Machine Standards Document 1.1, section 15, `sread`). Each
//! open stream is closed first, and the text of the upper window is shown if that is selected.

ghost use Rattle.zcore.specs.Execution.{first, second};
ghost use Rattle.zcore.specs.declared.next.Next as next;
ghost use Rattle.machine_frames.specs.States.{IsStoreOf};
ghost use Rattle.machine_opcodes.specs.Printed.{HasBegun, ToldFrom};
ghost use Rattle.machine_decoding.specs.Seen.{seen};
ghost use Rattle.machine_standard_windows.specs.TurnState.{place, Keeps};
ghost use Rattle.zcore_versions.specs.Reading as definitions;
ghost use Rattle.zcore_versions.specs.Versions.{versioned};
ghost use Rattle.zcore_versions.specs.declared.version.StoryVersion as versions;

use crate::objects::value_of;
use journal::Recorded;
use machine_frames::{End, Store};
use machine_opcodes::Ending;
use machine_standard_opcodes::begin_read;
use machine_standard_windows::TurnState;
use machine_versions_words::wait_for_line;
use zcore::{Header, Next};
use zcore_standard::Loaded;

/// Waits for a line: `sread`, whose time and routine are not used.
pub(crate) fn read_line(
    header: &Header,
    store: &mut Recorded<Store>,
    text: &mut Vec<u8>,
    start: usize,
    loaded: &Loaded,
    turn: &TurnState,
    values: &[u16],
    ending: Ending,
) -> Result<Next, End>
    requires store { IsStoreOf header.now store.old.store }
    requires text { HasBegun start text.old.items }
    ensures told { (version : versions.StoryVersion) (here : next.Next)
        → ToldFrom start (seen (place turn.now) result)
        store.old text.old.items store.new text.new.items
        (definitions.read_older (versioned loaded.now version) (place turn.now here) ending.after
        (first values.now) (second values.now)) }
    ensures text { Keeps start text.old.items text.new.items }
{
    begin_read(header, store, text, start, loaded, turn)?;
    let letters = value_of(values, 0);
    let words = value_of(values, 1);
    wait_for_line(header, store, ending.after, letters, words)
}
