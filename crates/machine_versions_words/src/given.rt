//! The line that is given to a machine of any version that waits for a line or a key (Z-Machine Standards
//! Document 1.1, section 15, `sread`, `aread` and `read_char`).

ghost use Rattle.std.specs.Prelude.{◌≡◌, true, IfOk, OnOk, OnErr};
ghost use Rattle.zcore_standard.specs.Reading.{result_given};
ghost use Rattle.zcore_versions.specs.Reading as definitions;
ghost use Rattle.machine_frames.specs.Contents.{memory_of};
ghost use Rattle.machine_frames.specs.States.{IsStoreOf};
ghost use Rattle.machine_frames.specs.Went.{GivenUp};
ghost use Rattle.machine_lines.specs.Lines.{Filled};
ghost use Rattle.machine_versions_words.specs.Taking.{CanBeGivenBy, CanBeGivenOlder, TakesGivenBy, TakesOlder};
ghost use Rattle.zcore_versions.specs.Versions.{versioned};

use crate::typed::fill_line;
use journal::{NoMemory, Recorded};
use machine_frames::layout::{PARSE_BUFFER, RESULT_VARIABLE, RETURN_ADDRESS, TEXT_BUFFER};
use machine_frames::{End, Store, cell, long, store_result, variable_in};
use machine_standard_words::{give_typed, key_of_line, stop_waiting};
use zcore::layout::NEW_LINE;
use zcore::{Header, Next};
use zcore_standard::Loaded;
use zcore_versions::StoryVersion;

/// The word of the character that ends a line.
const TERMINATOR: u16 = NEW_LINE as u16;

/// Gives a line to a store that waits for a line or a key, and answers where the turn goes on.
///
/// # Errors
///
/// M6 where the stack is full, M4 where the frame has not the local, both of the result.
/// `End::Memory` where memory was refused: the turn is given up.
pub fn give_line(
    header: &Header,
    loaded: &Loaded,
    version: StoryVersion,
    store: &mut Recorded<Store>,
    line: &[u8],
    fuel: u32,
) -> Result<Next, End>
    requires store { IsStoreOf header.now store.old.store }
    requires waiting { CanBeGivenBy (versioned loaded.now version) store.old.store }
    ensures { TakesGivenBy (versioned loaded.now version) result store.old store.new line.now fuel }
{
    if version.is_old() {
        give_older(header, loaded, version, store, line, fuel)
    } else {
        give_typed(header, loaded, store, line, fuel)
    }
}

/// The same, in versions 1 to 4.
fn give_older(
    header: &Header,
    loaded: &Loaded,
    version: StoryVersion,
    store: &mut Recorded<Store>,
    line: &[u8],
    fuel: u32,
) -> Result<Next, End>
    requires store { IsStoreOf header.now store.old.store }
    requires waiting { CanBeGivenOlder store.old.store }
    ensures { TakesOlder (versioned loaded.now version) result store.old store.new line.now fuel }
{
    let text = cell(store, TEXT_BUFFER);
    let parse = cell(store, PARSE_BUFFER);
    let result_variable = variable_in(cell(store, RESULT_VARIABLE));
    let program_counter = long(store, RETURN_ADDRESS);
    let word = take_line(header, loaded, version, store, text, parse, line)?;
    stop_waiting(store)?;
    store_result(header, store, result_variable, word)?;
    Ok(Next {
        program_counter,
        fuel,
    })
}

/// Fills the buffers of a line, and answers what an instruction that waits gives: the code of the key
/// that ended the line. Text buffer 0 waits for a key: this is given, and nothing is filled.
fn take_line(
    header: &Header,
    loaded: &Loaded,
    version: StoryVersion,
    store: &mut Recorded<Store>,
    text: u16,
    parse: u16,
    line: &[u8],
) -> Result<u16, NoMemory>
    requires store { IsStoreOf header.now store.old.store }
    requires given { definitions.can_take_old (memory_of store.old.store) text parse ≡ true }
    ensures word { IfOk result (λ word. word ≡ result_given loaded.now.characters text line.now) }
    ensures filled { OnOk result (Filled store.old store.new
        (definitions.memory_given (versioned loaded.now version) text parse line.now
        (memory_of store.old.store))) }
    ensures given_up { OnErr result (GivenUp store.old store.new) }
{
    if text == 0 {
        return Ok(key_of_line(loaded.characters(), line));
    }
    fill_line(header, loaded, version, store, text, parse, line)?;
    Ok(TERMINATOR)
}
