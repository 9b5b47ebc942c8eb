//! StandardOperation operations that change memory or frames (Z-Machine Standards Document 1.1, section 15).

ghost use Rattle.std.specs.Prelude.{◌≡◌, ◌≤◌, true, slice_index_or, length};
ghost use Rattle.zcore.specs.Execution.{first, second, third};
ghost use Rattle.zcore.specs.Layout.{longest_story};
ghost use Rattle.zcore_standard.specs.Performing.{fourth, perform_keeping, words_of_table};
ghost use Rattle.zcore_standard.specs.Tables as tables;
ghost use Rattle.zcore_standard.specs.Words as words;
ghost use Rattle.zcore_standard.specs.Texts.{alphabets_of};
ghost use Rattle.zcore_standard.specs.Operations.{row_of};
ghost use Rattle.machine_frames.specs.States.{IsStoreOf};
ghost use Rattle.machine_frames.specs.Went.{Went};
ghost use Rattle.machine_standard_steps.specs.Kinds.{is_quiet};

use journal::Recorded;
use machine_frames::{End, Store};
use machine_opcodes::Ending;
use machine_standard_opcodes::{catch, throw};
use machine_standard_tables::{copy_table, scan_table};
use machine_standard_words::{encode_text, tokenise};
use zcore::{Fault, Header, Next, Place};
use zcore_standard::{Loaded, StandardOperation};

/// What `scan_table` looks for where its form is left out: words in a table of words.
const WORDS_OF_TABLE: u16 = 0x82;

/// The value of an operand, or another where it is left out.
pub(crate) fn value_or(values: &[u16], place: usize, other: u16) -> u16
    ensures { result ≡ slice_index_or values.now place other }
{
    if place < values.len() {
        values[place]
    } else {
        other
    }
}

/// Looks for a word in a table: `scan_table`, of which the form may be left out.
fn scan(
    header: &Header,
    store: &mut Recorded<Store>,
    here: Next,
    values: &[u16],
    ending: Ending,
) -> Result<Next, End>
    requires store { IsStoreOf header.now store.old.store }
    requires enough { 3 ≤ length values.now }
    requires after { ending.after ≤ longest_story }
    ensures { Went result store.old store.new
        (tables.scan_table here ending.after ending.result ending.branch (first values.now)
        (second values.now) (third values.now) (slice_index_or values.now 3 words_of_table)) }
{
    let form = value_or(values, 3, WORDS_OF_TABLE);
    scan_table(
        header,
        store,
        here,
        ending.after,
        ending.result,
        ending.branch,
        values[0],
        values[1],
        values[2],
        form,
    )
}

/// Cuts letters into words: `tokenise`, of which dictionary and flag may be left out.
fn cut_words(
    header: &Header,
    store: &mut Recorded<Store>,
    loaded: &Loaded,
    here: Next,
    after: u32,
    values: &[u16],
) -> Result<Next, End>
    requires store { IsStoreOf header.now store.old.store }
    requires enough { 2 ≤ length values.now }
    ensures { Went result store.old store.new
        (words.tokenise (alphabets_of loaded.now) here after (first values.now) (second values.now)
        (slice_index_or values.now 2 0) (fourth values.now)) }
{
    let dictionary = value_or(values, 2, 0);
    let flag = value_or(values, 3, 0);
    tokenise(
        header, loaded, store, here, after, values[0], values[1], dictionary, flag,
    )
}

/// Does an operation that prints nothing, and does more than to give a word or to branch.
pub(crate) fn perform_quietly(
    header: &Header,
    store: &mut Recorded<Store>,
    loaded: &Loaded,
    here: Next,
    operation: StandardOperation,
    values: &[u16],
    ending: Ending,
) -> Result<Next, End>
    requires store { IsStoreOf header.now store.old.store }
    requires quiet { is_quiet operation ≡ true }
    requires enough { (row_of operation).least_operands ≤ length values.now }
    requires after { ending.after ≤ longest_story }
    ensures { Went result store.old store.new
        (perform_keeping loaded.now operation here ending.after ending.result ending.branch values.now) }
{
    let after = ending.after;
    match operation {
        StandardOperation::Catch => catch(header, store, here, after, ending.result),
        StandardOperation::Throw => throw(header, store, here, values[0], values[1]),
        StandardOperation::ScanTable => scan(header, store, here, values, ending),
        StandardOperation::Tokenise => cut_words(header, store, loaded, here, after, values),
        StandardOperation::EncodeText => {
            encode_text(
                header, loaded, store, here, after, values[0], values[1], values[2], values[3],
            )
        }
        StandardOperation::CopyTable => {
            copy_table(header, store, here, after, values[0], values[1], values[2])
        }
        StandardOperation::SetWindow
        | StandardOperation::SetCursor
        | StandardOperation::EraseWindow
        | StandardOperation::SplitWindow
        | StandardOperation::ReadChar
        | StandardOperation::Restart
        | StandardOperation::Random
        | StandardOperation::Read
        | StandardOperation::OutputStream
        | StandardOperation::SaveUndo
        | StandardOperation::RestoreUndo
        | StandardOperation::Save
        | StandardOperation::Restore => Err(End::Stop(Place::Fault(Fault::Opcode))),
        StandardOperation::GetCursor | StandardOperation::PrintTable => {
            Err(End::Stop(Place::Fault(Fault::Opcode)))
        }
        _ => unreachable!(),
    }
}
