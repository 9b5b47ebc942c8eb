//! The line that is given to a machine that waits for a line or a key (Z-Machine Standards Document
//! 1.1, section 15, `aread` and `read_char`).

ghost use Rattle.std.specs.Prelude.{◌≡◌, true, IfOk, OnOk, OnErr};
ghost use Rattle.zcore_standard.specs.Reading as definitions;
ghost use Rattle.machine_frames.specs.Contents.{memory_of};
ghost use Rattle.machine_frames.specs.States.{IsSound, IsStoreOf};
ghost use Rattle.machine_frames.specs.Went.{GivenUp};
ghost use Rattle.machine_lines.specs.Lines.{Filled, WaitsNoMore};
ghost use Rattle.machine_standard_words.specs.Taking.{CanBeGiven, TakesGiven};

use crate::key::key_of_line;
use crate::typed::fill_line;
use journal::{NoMemory, Recorded};
use machine_frames::layout::{PARSE_BUFFER, RESULT_VARIABLE, RETURN_ADDRESS, TEXT_BUFFER, WAITING};
use machine_frames::{End, Store, cell, long, store_result, variable_in};
use zcore::layout::NEW_LINE;
use zcore::{Header, Next};
use zcore_standard::Loaded;

/// The word of the character that ends a line.
const TERMINATOR: u16 = NEW_LINE as u16;

/// Gives a line to a store that waits for a line or a key, and answers where the turn goes on.
///
/// # Errors
///
/// M6 where the stack is full, M4 where the frame has not the local, both of the result.
/// `End::Memory` where memory was refused: the turn is given up.
pub fn give_typed(
    header: &Header,
    loaded: &Loaded,
    store: &mut Recorded<Store>,
    line: &[u8],
    fuel: u32,
) -> Result<Next, End>
    requires store { IsStoreOf header.now store.old.store }
    requires waiting { CanBeGiven store.old.store }
    ensures { TakesGiven loaded.now result store.old store.new line.now fuel }
{
    let text = cell(store, TEXT_BUFFER);
    let parse = cell(store, PARSE_BUFFER);
    let result_variable = variable_in(cell(store, RESULT_VARIABLE));
    let program_counter = long(store, RETURN_ADDRESS);
    let word = take_typed(header, loaded, store, text, parse, line)?;
    stop_waiting(store)?;
    store_result(header, store, result_variable, word)?;
    Ok(Next {
        program_counter,
        fuel,
    })
}

/// Fills the buffers of a line, and answers what the instruction that waits gives: the code of the
/// key that ended the line. Text buffer 0 waits for a key: this is given, and nothing is filled.
fn take_typed(
    header: &Header,
    loaded: &Loaded,
    store: &mut Recorded<Store>,
    text: u16,
    parse: u16,
    line: &[u8],
) -> Result<u16, NoMemory>
    requires store { IsStoreOf header.now store.old.store }
    requires given { definitions.can_take (memory_of store.old.store) text parse ≡ true }
    ensures word { IfOk result (λ word. word
        ≡ definitions.result_given loaded.now.characters text line.now) }
    ensures filled { OnOk result (Filled store.old store.new
        (definitions.memory_given loaded.now text parse line.now (memory_of store.old.store))) }
    ensures given_up { OnErr result (GivenUp store.old store.new) }
{
    if text == 0 {
        return Ok(key_of_line(loaded.characters(), line));
    }
    fill_line(header, loaded, store, text, parse, line)?;
    Ok(TERMINATOR)
}

/// Waits for nothing any more.
pub fn stop_waiting(store: &mut Recorded<Store>) -> Result<(), NoMemory>
    requires { IsSound store.old.store }
    ensures waits { OnOk result (WaitsNoMore store.old store.new) }
    ensures given_up { OnErr result (GivenUp store.old store.new) }
{
    store.put(WAITING, 0)?;
    Ok(())
}
