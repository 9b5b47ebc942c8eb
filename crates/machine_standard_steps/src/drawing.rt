//! The picture of the upper window, along the steps of a turn.

ghost use Rattle.std.specs.Prelude.{◌≡◌, ◌==◌, ◌&&◌, OnOk, OnErr, Some, None};
ghost use Rattle.machine_frames.specs.States.{IsSound};
ghost use Rattle.machine_frames.specs.Went.{GivenUp};
ghost use Rattle.machine_opcodes.specs.Printed.{HasBegun};
ghost use Rattle.machine_picture.specs.Drawing.{picture_of};
ghost use Rattle.machine_picture.specs.Picture as definitions;
ghost use Rattle.machine_standard_windows.specs.TurnState.{place};
ghost use Rattle.machine_standard_steps.specs.Redrawing.{redrawn_if};
ghost use Rattle.zcore.specs.declared.next.Next as next;

use journal::{NoMemory, Recorded};
use machine_frames::Store;
use machine_picture::Picture;
use machine_standard_windows::TurnState;
use zcore_standard::{OlderOperation, StandardOperation};
use zcore_versions::VersionOperation;

/// The upper window.
const UPPER: u16 = 1;

/// Whether an operation is of windows or streams, or prints a table.
fn is_on_screen(operation: StandardOperation) -> bool
    ensures { result ≡ definitions.is_on_screen operation }
{
    matches!(
        operation,
        StandardOperation::Restart
            | StandardOperation::SplitWindow
            | StandardOperation::SetWindow
            | StandardOperation::SetCursor
            | StandardOperation::EraseLine
            | StandardOperation::EraseWindow
            | StandardOperation::OutputStream
            | StandardOperation::PrintTable
    )
}

/// Whether an operation can wait.
pub fn can_wait(operation: StandardOperation) -> bool
    ensures { result ≡ definitions.can_wait operation }
{
    matches!(
        operation,
        StandardOperation::Read
            | StandardOperation::ReadChar
            | StandardOperation::Save
            | StandardOperation::Restore
    )
}

/// Whether the text is looked at before an operation.
pub fn looks(operation: StandardOperation) -> bool
    ensures { result ≡ definitions.looks operation }
{
    is_on_screen(operation) || can_wait(operation)
}

/// The name that an operation of a version has in later ones, if it is one that draws or waits.
pub(crate) fn name_of(operation: VersionOperation) -> Option<StandardOperation>
    ensures { result ≡ definitions.by_name (Some operation) None }
{
    match operation {
        VersionOperation::SplitWindow => Some(StandardOperation::SplitWindow),
        VersionOperation::Older(OlderOperation::Read) => Some(StandardOperation::Read),
        VersionOperation::Older(OlderOperation::Save) => Some(StandardOperation::Save),
        VersionOperation::Older(OlderOperation::Restore) => Some(StandardOperation::Restore),
        _ => None,
    }
}

/// Whether what is printed is drawn.
fn is_drawing(turn: &TurnState) -> bool
    ensures { (next : next.Next) → result ≡ definitions.is_drawing (place turn.now next) }
{
    if turn.streams.as_slice().len() != 0 {
        return false;
    }
    turn.standard_state.window == UPPER
}

/// Looks at what the turn has printed, where the next operation wants it.
///
/// # Errors
///
/// Memory was refused: the turn is given up.
pub(crate) fn look(
    store: &mut Recorded<Store>,
    text: &[u8],
    turn: &TurnState,
    picture: &mut Picture,
    operation: Option<StandardOperation>,
) -> Result<(), NoMemory>
    ensures same { OnOk result (store.new ≡ store.old) }
    ensures given_up { OnErr result (GivenUp store.old store.new) }
    ensures picture { (next : next.Next) → OnOk result (picture_of picture.new
        ≡ definitions.before operation (place turn.now next) text.now (picture_of picture.old)) }
{
    match operation {
        None => Ok(()),
        Some(operation) => look_before(store, text, turn, picture, operation),
    }
}

/// The same, before an operation.
fn look_before(
    store: &mut Recorded<Store>,
    text: &[u8],
    turn: &TurnState,
    picture: &mut Picture,
    operation: StandardOperation,
) -> Result<(), NoMemory>
    ensures same { OnOk result (store.new ≡ store.old) }
    ensures given_up { OnErr result (GivenUp store.old store.new) }
    ensures picture { (next : next.Next) → OnOk result (picture_of picture.new
        ≡ definitions.before (Some operation) (place turn.now next) text.now (picture_of picture.old)) }
{
    if !looks(operation) {
        return Ok(());
    }
    match picture.look(is_drawing(turn), text) {
        Ok(()) => Ok(()),
        Err(_) => {
            store.abandon();
            Err(NoMemory)
        }
    }
}

/// Does to the picture what an operation has done on these values in a window, if it was done. The
/// turn's text is so long then.
pub(crate) fn redraw(
    picture: &mut Picture,
    is_done: bool,
    version: u8,
    operation: StandardOperation,
    window: u16,
    values: &[u16],
    long: usize,
)
    ensures { picture_of picture.new ≡ redrawn_if is_done version operation window values.now long
        (picture_of picture.old) }
{
    if is_done && is_on_screen(operation) {
        picture.redraw(version, operation, window, values, long);
    }
}
