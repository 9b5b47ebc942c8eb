//! StandardOperation operations by what they do: nothing, a word, a branch (Z-Machine Standards Document 1.1,
//! section 15).

ghost use Rattle.std.specs.Prelude.{◌≡◌, ◌≤◌, ℕ, false, List, length, IfSome, IfNone};
ghost use Rattle.zcore_standard.specs.Operations.{row_of};
ghost use Rattle.machine_standard_steps.specs.Kinds.{does_nothing, is_on_windows, gives_word, branches, GivesWord, BranchesBy};

use machine_standard_opcodes::{abilities, font_of, shifted, shifted_with_sign};
use zcore_standard::{Loaded, StandardOperation};

/// Whether an operation does nothing.
pub(crate) fn does_nothing(operation: StandardOperation) -> bool
    ensures { result ≡ does_nothing operation }
{
    match operation {
        StandardOperation::ShowStatus
        | StandardOperation::SetColour
        | StandardOperation::EraseLine
        | StandardOperation::SetTextStyle
        | StandardOperation::BufferMode
        | StandardOperation::InputStream
        | StandardOperation::SoundEffect
        | StandardOperation::SetTrueColour => true,
        _ => false,
    }
}

/// Whether an operation is on windows.
pub(crate) fn is_on_windows(operation: StandardOperation) -> bool
    ensures { result ≡ is_on_windows operation }
{
    matches!(
        operation,
        StandardOperation::SetWindow
            | StandardOperation::SetCursor
            | StandardOperation::EraseWindow
            | StandardOperation::SplitWindow
    )
}

/// The word that an operation gives, where it does nothing else.
pub(crate) fn word_of(loaded: &Loaded, operation: StandardOperation, values: &[u16]) -> Option<u16>
    requires { (row_of operation).least_operands ≤ length values.now }
    ensures some { IfSome result (GivesWord loaded.now operation values.now) }
    ensures none { IfNone result (gives_word operation ≡ false) }
{
    match operation {
        StandardOperation::LogShift => Some(shifted(values[0], values[1])),
        StandardOperation::ArtShift => Some(shifted_with_sign(values[0], values[1])),
        StandardOperation::SetFont => Some(font_of(values[0])),
        StandardOperation::CheckUnicode => Some(abilities(loaded.characters(), values[0])),
        _ => None,
    }
}

/// Whether the condition of an operation holds that branches, and does nothing else.
pub(crate) fn condition_of(loaded: &Loaded, operation: StandardOperation) -> Option<bool>
    ensures some { (values : List ℕ) → IfSome result (BranchesBy loaded.now operation values) }
    ensures none { IfNone result (branches operation ≡ false) }
{
    match operation {
        StandardOperation::Verify => Some(loaded.is_sum_right()),
        StandardOperation::Piracy => Some(true),
        _ => None,
    }
}
