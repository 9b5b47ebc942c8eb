//! Pauses for the name of a saved game (Z-Machine Standards Document 1.1, section 15, `save` and
//! `restore`).

ghost use Rattle.std.specs.Prelude.{◌≡◌, ◌≤◌, ◌<◌, ◌+◌, ◌^◌, ◌++◌, length, replicate, take, OnErr, OnOk};
ghost use Rattle.zcore.specs.declared.next.Next as next;
ghost use Rattle.zcore_standard.specs.Saving as definitions;
ghost use Rattle.machine_decoding.specs.Seen.{seen};
ghost use Rattle.machine_frames.specs.States.{IsSound, IsStoreOf};
ghost use Rattle.machine_opcodes.specs.Printed.{HasBegun, ToldFrom};
ghost use Rattle.machine_standard_windows.specs.TurnState.{place, Keeps};
ghost use Rattle.machine_standard_saves.specs.Asked.{GrewBy};

use journal::Recorded;
use machine_frames::{End, Store, test_result};
use machine_lines::wait;
use machine_standard_opcodes::begin_read;
use machine_standard_windows::{TurnState, missing_lines};
use std::alloc::AllocError;
use zcore::{Header, Limit, Next, Place};
use zcore_standard::{Loaded, Purpose};

/// How long the text of a turn is at most.
const TEXT_LIMIT: usize = 65_536;

/// What is printed where a name is asked for.
const PROMPT: &[u8] = b"Name of the saved game: ";

/// Waits for the name of a saved game, with all that a read does first. It never answers `Ok`. `at` is
/// the address of the byte that names the variable for the result, or up to version 3 of the first
/// byte of the branch.
///
/// # Errors
///
/// What `begin_read` refuses; M6 and M4 of the result; the limit of text; else `Place::Waiting`.
/// `End::Memory` where memory was refused: the turn is given up.
pub fn pause(
    header: &Header,
    store: &mut Recorded<Store>,
    text: &mut Vec<u8>,
    start: usize,
    loaded: &Loaded,
    turn: &TurnState,
    purpose: Purpose,
    at: u32,
    variable: Option<u8>,
) -> Result<Next, End>
    requires store { IsStoreOf header.now store.old.store }
    requires text { HasBegun start text.old.items }
    requires at { at + 1 < 2 ^ 32 }
    ensures told { (here : next.Next) → ToldFrom start (seen (place turn.now) result)
        store.old text.old.items store.new text.new.items
        (definitions.pause loaded.now purpose (place turn.now here) at variable) }
    ensures text { Keeps start text.old.items text.new.items }
{
    begin_read(header, store, text, start, loaded, turn)?;
    test_result(store, variable)?;
    put_prompt(store, text, start)?;
    wait(store, 0, number_of(purpose), None, at + 1)
}

/// By what number a purpose is kept.
fn number_of(purpose: Purpose) -> u16
    ensures { result ≡ definitions.number_of purpose }
{
    match purpose {
        Purpose::Saving => 1,
        Purpose::Restoring => 2,
    }
}

/// Prints the prompt, in a line of its own. The limit of text.
fn put_prompt(store: &mut Recorded<Store>, text: &mut Vec<u8>, start: usize) -> Result<(), End>
    requires sound { IsSound store.old.store }
    requires text { HasBegun start text.old.items }
    ensures told { ToldFrom start result store.old text.old.items store.new text.new.items
        definitions.put_prompt }
    ensures text { Keeps start text.old.items text.new.items }
{
    let lines = missing_lines(&text[start..]);
    let long = text.len() - start + lines + PROMPT.len();
    if long > TEXT_LIMIT {
        return Err(End::Stop(Place::Limit(Limit::Text)));
    }
    match add_prompt(text, lines) {
        Ok(()) => Ok(()),
        Err(_) => {
            store.abandon();
            Err(End::Memory)
        }
    }
}

/// Adds so many newlines and the prompt. At `Err` memory was refused, and a part may have been added.
fn add_prompt(text: &mut Vec<u8>, lines: usize) -> Result<(), AllocError>
    requires { lines ≤ 1 }
    ensures added { OnOk result
        (text.new.items ≡ text.old.items ++ (replicate lines 10 ++ definitions.prompt)) }
    ensures front { take (length text.old.items) text.new.items ≡ text.old.items }
    ensures few { length text.new.items
        ≤ length text.old.items + lines + length definitions.prompt }
{
    add_lines(text, lines)?;
    add(text, PROMPT)?;
    Ok(())
}

/// Adds so many newlines, where memory is not refused.
fn add_lines(text: &mut Vec<u8>, lines: usize) -> Result<(), AllocError>
    requires { lines ≤ 1 }
    ensures added { OnOk result (text.new.items ≡ text.old.items ++ replicate lines 10) }
    ensures same { OnErr result (text.new.items ≡ text.old.items) }
{
    text.resize(text.len() + lines, b'\n')
}

/// Adds bytes to a text, where memory is not refused.
pub(crate) fn add(text: &mut Vec<u8>, bytes: &[u8]) -> Result<(), AllocError>
    ensures added { OnOk result (text.new.items ≡ text.old.items ++ bytes.now) }
    ensures same { OnErr result (text.new.items ≡ text.old.items) }
    ensures text { GrewBy (length bytes.now) text.old.items text.new.items }
{
    text.extend_from_slice(bytes)
}
