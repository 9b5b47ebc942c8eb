//! What a story prints into its transcript, which is stream 2.

ghost use Rattle.std.specs.Prelude.{◌≡◌, ◌&&◌, ◌≤◌, [], drop, length, OnOk};
ghost use Rattle.zcore.specs.Layout.{header_size};
ghost use Rattle.zcore.specs.declared.next.Next as next;
ghost use Rattle.machine_frames.specs.States.{IsSound};
ghost use Rattle.machine_standard_windows.specs.TurnState.{place};
ghost use Rattle.machine_standard.specs.Script as definitions;
ghost use Rattle.machine_standard.specs.Scripts.{AddsPrinted, IsTyped};
ghost use Rattle.zcore_versions.specs.Versions.{Story};

use journal::Recorded;
use machine_frames::layout::TEXT_BUFFER;
use machine_frames::{End, Store, cell, standard_state};
use machine_standard_windows::TurnState;
use std::alloc::AllocError;
use zcore::{Next, Place};
use zcore_standard::Loaded;

/// The second byte of Flags 2 in the header, of which bit 0 tells whether the transcript is on (Z-Machine
/// Standards Document 1.1, sections 7.4 and 11.1).
const FLAGS_2_LOW: usize = 17;

/// The lower window, by its number (section 8.7.2).
const LOWER: u16 = 0;

/// Whether the transcript is on: the player writes one, and the story has turned it on.
#[inline]
pub(crate) fn is_on(memory: &[u8], loaded: &Loaded) -> bool
    requires { header_size ≤ length memory.now }
    ensures { result ≡ definitions.is_on loaded.now memory.now }
{
    if !loaded.has_transcript() {
        return false;
    }
    memory[FLAGS_2_LOW] % 2 == 1
}

/// Whether what is printed is heard outside the memory streams and the upper window.
fn is_heard(turn: &TurnState) -> bool
    ensures { (next : next.Next) → result ≡ definitions.is_heard (place turn.now next) }
{
    if turn.streams.as_slice().len() != 0 {
        return false;
    }
    turn.standard_state.window == LOWER
}

/// Whether what is printed goes to the transcript.
#[inline]
pub(crate) fn is_scripted(memory: &[u8], loaded: &Loaded, turn: &TurnState) -> bool
    requires { header_size ≤ length memory.now }
    ensures { (next : next.Next) → result
        ≡ (definitions.is_on loaded.now memory.now && definitions.is_heard (place turn.now next)) }
{
    if !is_on(memory, loaded) {
        return false;
    }
    is_heard(turn)
}

/// Adds to the transcript what a step has printed: what follows so many bytes of the text. Of a step at
/// which the turn waits that is nothing: the prompt for a name is the player's.
///
/// # Errors
///
/// Memory was refused.
pub(crate) fn add_printed(
    script: &mut Vec<u8>,
    done: Result<Next, End>,
    text: &[u8],
    long: usize,
) -> Result<(), AllocError>
    ensures { OnOk result (AddsPrinted done (drop long text.now) script.old.items
        script.new.items) }
{
    match done {
        Err(End::Memory) => Ok(()),
        Err(End::Stop(Place::Waiting)) => Ok(()),
        _ => {
            if text.len() <= long {
                return Ok(());
            }
            script.extend_from_slice(&text[long..])
        }
    }
}

/// Puts the line that a waiting story is given into an empty transcript, if the story reads it there.
///
/// # Errors
///
/// Memory was refused.
pub(crate) fn put_typed(
    store: &Recorded<Store>,
    loaded: &Loaded,
    line: &[u8],
    script: &mut Vec<u8>,
) -> Result<(), AllocError>
    requires store { IsSound store.now.store }
    requires empty { script.old.items ≡ [] }
    ensures { (story : Story) → story.loaded ≡ loaded.now
        → OnOk result (IsTyped story line.now store.now.store script.new.items) }
{
    if !is_on(store.store().memory(), loaded) {
        return Ok(());
    }
    if standard_state(store).window != LOWER {
        return Ok(());
    }
    if cell(store, TEXT_BUFFER) == 0 {
        return Ok(());
    }
    script.extend_from_slice(line)?;
    script.push(b'\n')?;
    Ok(())
}
