//! The opcodes of versions 1 and 2 that print texts (Z-Machine Standards Document 1.1, sections 3 and
//! 15).

ghost use Rattle.std.specs.Prelude.{◌≡◌, true};
ghost use Rattle.zcore_versions.specs.Printing as definitions;
ghost use Rattle.zcore_versions.specs.Versions.{locks_alphabets, versioned};
ghost use Rattle.machine_frames.specs.States.{IsSound, IsStoreOf};
ghost use Rattle.machine_opcodes.specs.Printed.{HasBegun, Grew, ToldFrom};
ghost use Rattle.machine_standard_texts.specs.Put.{Extends};
ghost use Rattle.machine_standard_texts.specs.Read.{AddsText};

use crate::reading::put_text;
use journal::Recorded;
use machine_frames::{End, Store, test_return};
use machine_opcodes::give_back;
use machine_standard_texts::{Halt, finish, put_next, unread};
use zcore::layout::NEW_LINE;
use zcore::{Header, Next};
use zcore_standard::Loaded;
use zcore_versions::StoryVersion;

/// Adds what the text at an address prints. Answers the address after it, and where printing
/// halted. M3 and M10; nothing is added then.
fn add_text(
    store: &mut Recorded<Store>,
    text: &mut Vec<u8>,
    start: usize,
    loaded: &Loaded,
    version: StoryVersion,
    address: u32,
) -> Result<(u32, Option<Halt>), End>
    requires sound { IsSound store.old.store }
    requires text { HasBegun start text.old.items }
    requires locked { locks_alphabets version ≡ true }
    ensures adds { AddsText loaded.now.characters start text.old.items text.new.items result store.old
        store.new (definitions.text_in (versioned loaded.now version) address) }
    ensures text { Extends start text.old.items text.new.items }
{
    match put_text(
        text,
        start,
        loaded.characters(),
        version.number,
        store.store().memory(),
        address,
    ) {
        Ok(added) => Ok(added),
        Err(fault) => Err(unread(store, fault)),
    }
}

/// Prints the text at an address, and goes on: `print_addr`.
///
/// # Errors
///
/// M3 where it passes the memory that can be read, M10 where an abbreviation is in another or there
/// are none, the limit of text. `End::Memory` where memory was refused: the turn is given up.
pub fn print_address(
    store: &mut Recorded<Store>,
    text: &mut Vec<u8>,
    start: usize,
    loaded: &Loaded,
    version: StoryVersion,
    here: Next,
    after: u32,
    address: u32,
) -> Result<Next, End>
    requires sound { IsSound store.old.store }
    requires text { HasBegun start text.old.items }
    requires locked { locks_alphabets version ≡ true }
    ensures told { ToldFrom start result store.old text.old.items store.new text.new.items
        (definitions.print_text (versioned loaded.now version) here after address) }
    ensures text { Grew start text.old.items text.new.items }
{
    let added = add_text(store, text, start, loaded, version, address)?;
    finish(store, added.1)?;
    Ok(Next {
        program_counter: after,
        fuel: here.fuel,
    })
}

/// Prints the text that follows the opcode, and goes on after it: `print`.
///
/// # Errors
///
/// Those of `print_address`.
pub fn print_inline(
    store: &mut Recorded<Store>,
    text: &mut Vec<u8>,
    start: usize,
    loaded: &Loaded,
    version: StoryVersion,
    here: Next,
    after: u32,
) -> Result<Next, End>
    requires sound { IsSound store.old.store }
    requires text { HasBegun start text.old.items }
    requires locked { locks_alphabets version ≡ true }
    ensures told { ToldFrom start result store.old text.old.items store.new text.new.items
        (definitions.print_inline (versioned loaded.now version) here after) }
    ensures text { Grew start text.old.items text.new.items }
{
    let added = add_text(store, text, start, loaded, version, after)?;
    finish(store, added.1)?;
    Ok(Next {
        program_counter: added.0,
        fuel: here.fuel,
    })
}

/// Prints the text that follows the opcode and a new line, and returns 1: `print_ret`.
///
/// # Errors
///
/// M3 and M10 as of `print_address`, then the faults of a return, the limit of text. `End::Memory` where
/// memory was refused: the turn is given up.
pub fn print_return(
    header: &Header,
    store: &mut Recorded<Store>,
    text: &mut Vec<u8>,
    start: usize,
    loaded: &Loaded,
    version: StoryVersion,
    here: Next,
    after: u32,
) -> Result<Next, End>
    requires store { IsStoreOf header.now store.old.store }
    requires text { HasBegun start text.old.items }
    requires locked { locks_alphabets version ≡ true }
    ensures told { ToldFrom start result store.old text.old.items store.new text.new.items
        (definitions.print_return (versioned loaded.now version) here after) }
    ensures text { Grew start text.old.items text.new.items }
{
    let end = text.len();
    let added = add_text(store, text, start, loaded, version, after)?;
    match test_return(store) {
        Ok(_) => {}
        Err(e) => {
            text.truncate(end);
            return Err(e);
        }
    }
    let halted = put_next(text, start, loaded.characters(), added.1, NEW_LINE as u16);
    finish(store, halted)?;
    give_back(header, store, here.fuel, 1)
}
