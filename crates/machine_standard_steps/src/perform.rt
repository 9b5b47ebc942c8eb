//! What a further instruction does with the values of its operands.

ghost use Rattle.std.specs.Prelude.{◌≡◌, ◌≤◌, true, drop, slice_index_or, length, OnErr};
ghost use Rattle.zcore.specs.Execution.{first, second};
ghost use Rattle.zcore.specs.Header.{static_base_of};
ghost use Rattle.zcore.specs.Layout.{longest_story};
ghost use Rattle.zcore_standard.specs.Performing as definitions;
ghost use Rattle.zcore_standard.specs.Loaded as loading;
ghost use Rattle.zcore_standard.specs.Operations.{row_of};
ghost use Rattle.zcore_standard.specs.Screen.{indent_of};
ghost use Rattle.zcore_standard.specs.Tables as tables;
ghost use Rattle.machine_frames.specs.Contents.{memory_of};
ghost use Rattle.machine_frames.specs.States.{IsSound, IsStoreOf};
ghost use Rattle.machine_opcodes.specs.Printed.{HasBegun, Grew, ToldFrom};
ghost use Rattle.machine_decoding.specs.Seen.{seen};
ghost use Rattle.machine_standard_windows.specs.TurnState.{place, Keeps};
ghost use Rattle.machine_standard_steps.specs.Kinds.{is_on_windows};

use crate::effects::{perform_quietly, value_or};
use crate::kinds::{condition_of, does_nothing, is_on_windows, word_of};
use crate::reading::{read_key, read_line};
use crate::saving::use_file;
use journal::Recorded;
use machine_frames::{End, Store};
use machine_opcodes::{Ending, branch_on, give_result};
use machine_standard_opcodes::{
    cursor_of, get_cursor, indent_of, output_stream, print_unicode, random, restart,
};
use machine_standard_saves::{restore_undo, save_undo};
use machine_standard_tables::print_table;
use machine_standard_windows::{TurnState, erase_window, set_cursor, set_window, split_window};
use zcore::{Header, Next};
use zcore_standard::{Loaded, Purpose, StandardOperation};

/// The rows of a table that is printed, where their number is left out.
const ONE_ROW: u16 = 1;

/// Does a further operation on the values of its operands.
pub(crate) fn perform_further(
    header: &Header,
    store: &mut Recorded<Store>,
    text: &mut Vec<u8>,
    start: usize,
    loaded: &Loaded,
    turn: &mut TurnState,
    here: Next,
    operation: StandardOperation,
    values: &[u16],
    ending: Ending,
) -> Result<Next, End>
    requires store { IsStoreOf header.now store.old.store }
    requires dynamic { length loaded.now.dynamic ≡ static_base_of (memory_of store.old.store) }
    requires text { HasBegun start text.old.items }
    requires enough { (row_of operation).least_operands ≤ length values.now }
    requires after { ending.after ≤ longest_story }
    ensures told { ToldFrom start (seen (place turn.new) result) store.old text.old.items
        store.new text.new.items (definitions.perform_further loaded.now operation
        (place turn.old here) ending.after ending.result ending.branch values.now) }
    ensures text { Keeps start text.old.items text.new.items }
    ensures turn { OnErr result (turn.new ≡ turn.old) }
{
    if is_on_windows(operation) {
        return perform_on_windows(store, text, start, turn, here, operation, values, ending);
    }
    match operation {
        StandardOperation::Restart => restart(store, text, start, loaded, turn, here),
        StandardOperation::Random => {
            random(
                header,
                store,
                turn,
                here,
                ending.after,
                ending.result,
                values[0],
            )
        }
        StandardOperation::Save => use_file(
            header,
            store,
            text,
            start,
            loaded,
            turn,
            here,
            Purpose::Saving,
            values,
            ending,
        ),
        StandardOperation::Restore => use_file(
            header,
            store,
            text,
            start,
            loaded,
            turn,
            here,
            Purpose::Restoring,
            values,
            ending,
        ),
        StandardOperation::SaveUndo => {
            let Ending { after, result, .. } = ending;
            save_undo(header, store, loaded, turn, here, after, result)
        }
        StandardOperation::RestoreUndo => {
            let Ending { after, result, .. } = ending;
            restore_undo(header, store, loaded, turn, here, after, result)
        }
        StandardOperation::Read => read_line(
            header, store, text, start, loaded, turn, values, ending,
        ),
        StandardOperation::ReadChar => read_key(header, store, text, start, loaded, turn, ending),
        StandardOperation::OutputStream => output_stream(
            header,
            store,
            text,
            start,
            loaded,
            turn,
            here,
            ending.after,
            values,
        ),
        StandardOperation::GetCursor => {
            let cursor = cursor_of(text.as_slice(), start, turn);
            get_cursor(header, store, here, ending.after, values[0], cursor)
        }
        StandardOperation::PrintTable => print_rows(
            store,
            text,
            start,
            loaded,
            turn,
            here,
            ending.after,
            values,
        ),
        _ => perform_keeping(
            header, store, text, start, loaded, here, operation, values, ending,
        ),
    }
}

/// Does an operation on windows.
fn perform_on_windows(
    store: &mut Recorded<Store>,
    text: &mut Vec<u8>,
    start: usize,
    turn: &mut TurnState,
    here: Next,
    operation: StandardOperation,
    values: &[u16],
    ending: Ending,
) -> Result<Next, End>
    requires sound { IsSound store.old.store }
    requires text { HasBegun start text.old.items }
    requires windows { is_on_windows operation ≡ true }
    requires enough { (row_of operation).least_operands ≤ length values.now }
    ensures told { (loaded : loading.Loaded) → ToldFrom start (seen (place turn.new) result)
        store.old text.old.items store.new text.new.items (definitions.perform_further loaded
        operation (place turn.old here) ending.after ending.result ending.branch values.now) }
    ensures text { Keeps start text.old.items text.new.items }
    ensures turn { OnErr result (turn.new ≡ turn.old) }
{
    let next = Next {
        program_counter: ending.after,
        fuel: here.fuel,
    };
    match operation {
        StandardOperation::SetWindow => set_window(store, text, start, turn, next, values[0]),
        StandardOperation::SetCursor => {
            set_cursor(store, text, start, turn, next, values[0], values[1])
        }
        StandardOperation::EraseWindow => {
            erase_window(text, start, turn, values[0]);
            Ok(next)
        }
        StandardOperation::SplitWindow => {
            split_window(text, start, turn, values[0]);
            Ok(next)
        }
        _ => unreachable!(),
    }
}

/// Does a further operation that neither changes nor asks for windows, dice, streams and kept states.
fn perform_keeping(
    header: &Header,
    store: &mut Recorded<Store>,
    text: &mut Vec<u8>,
    start: usize,
    loaded: &Loaded,
    here: Next,
    operation: StandardOperation,
    values: &[u16],
    ending: Ending,
) -> Result<Next, End>
    requires store { IsStoreOf header.now store.old.store }
    requires text { HasBegun start text.old.items }
    requires enough { (row_of operation).least_operands ≤ length values.now }
    requires after { ending.after ≤ longest_story }
    ensures told { ToldFrom start result store.old text.old.items store.new text.new.items
        (definitions.perform_keeping loaded.now operation here ending.after ending.result
        ending.branch values.now) }
    ensures text { Grew start text.old.items text.new.items }
{
    let after = ending.after;
    if does_nothing(operation) {
        return Ok(Next {
            program_counter: after,
            fuel: here.fuel,
        });
    }
    if let Some(word) = word_of(loaded, operation, values) {
        return give_result(header, store, here, after, ending.result, word);
    }
    if let Some(holds) = condition_of(loaded, operation) {
        return branch_on(header, store, here, after, ending.branch, holds);
    }
    match operation {
        StandardOperation::PrintUnicode => print_unicode(
            store, text, start, here, after, values[0],
        ),
        _ => perform_quietly(header, store, loaded, here, operation, values, ending),
    }
}

/// Prints a table: `print_table`, of which the number of rows and what is skipped between them may be
/// left out.
fn print_rows(
    store: &mut Recorded<Store>,
    text: &mut Vec<u8>,
    start: usize,
    loaded: &Loaded,
    turn: &TurnState,
    here: Next,
    after: u32,
    values: &[u16],
) -> Result<Next, End>
    requires sound { IsSound store.old.store }
    requires text { HasBegun start text.old.items }
    requires enough { 2 ≤ length values.now }
    ensures told { ToldFrom start result store.old text.old.items store.new text.new.items
        (tables.print_table loaded.now.characters here after (first values.now) (second values.now)
        (slice_index_or values.now 2 definitions.one_row) (definitions.fourth values.now)
        (indent_of (place turn.now here) (drop start text.old.items))) }
    ensures text { Grew start text.old.items text.new.items }
{
    let indent = indent_of(text.as_slice(), start, turn);
    let height = value_or(values, 2, ONE_ROW);
    let skip = value_or(values, 3, 0);
    print_table(
        store,
        text,
        start,
        loaded.characters(),
        here,
        after,
        values[0],
        values[1],
        height,
        skip,
        indent,
    )
}
