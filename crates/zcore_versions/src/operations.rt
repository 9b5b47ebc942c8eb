//! The operations that a version performs otherwise than versions 5 and 8.

ghost use Rattle.std.specs.Prelude.{◌≡◌, ◌==◌, ◌&&◌, Some};
ghost use Rattle.zcore_standard.specs.Rows.{row_in};
ghost use Rattle.zcore.specs.Operations.{plain};
ghost use Rattle.zcore.specs.declared.operations.OperandCount.TheVariants as counts;
ghost use Rattle.zcore_versions.specs.Operations as table;

use crate::version::StoryVersion;
use zcore::{OpcodeRow, OperandCount, Operation};
use zcore_standard::{Action, OlderOperation, Opcode, StandardOperation};

/// What an opcode does in a version, where versions 5 and 8 do something else (Z-Machine Standards
/// Document 1.1, section 15).
#[derive(Clone, Copy, Debug, PartialEq, Eq)]
pub enum VersionOperation {
    /// An operation of the profile, on packed addresses, objects or texts of the version.
    Known(Operation),

    /// An operation of versions up to 4.
    Older(OlderOperation),

    /// `split_window` of version 3, which always empties the upper window.
    SplitWindow,

    /// An opcode that the version does not have.
    Missing,
}

impl StoryVersion {
    /// What the version makes of an opcode, where versions 5 and 8 make something else of it, with its
    /// operands and what follows them.
    pub fn operation(self, opcode: Opcode) -> Option<(VersionOperation, OpcodeRow)>
        ensures { result ≡ table.with_row self.number (table.of_opcode self opcode) }
    {
        if self.is_late() {
            return None;
        }
        match opcode.row(self.number) {
            None => Some((VersionOperation::Missing, no_operands())),
            Some(row) => otherwise(self.number, row.action, row.shape),
        }
    }
}

/// What a version makes of an action that it has, where versions 5 and 8 make something else of it.
fn otherwise(version: u8, action: Action, shape: OpcodeRow) -> Option<(VersionOperation, OpcodeRow)>
    requires { shape ≡ row_in version action }
    ensures { result ≡ table.with_row version (table.otherwise version (Some action)) }
{
    match action {
        Action::Profile(operation) => {
            if differs(version, operation) {
                Some((VersionOperation::Known(operation), shape))
            } else {
                None
            }
        }
        Action::Standard(operation) => {
            if empties(version, operation) {
                Some((VersionOperation::SplitWindow, shape))
            } else {
                None
            }
        }
        Action::Older(operation) => Some((VersionOperation::Older(operation), shape)),
    }
}

/// Whether an operation empties the upper window in a version: `split_window` in version 3.
fn empties(version: u8, operation: StandardOperation) -> bool
    ensures { result ≡ ((version == 3) && table.splits operation) }
{
    version == 3 && matches!(operation, StandardOperation::SplitWindow)
}

/// The row of what is not there.
fn no_operands() -> OpcodeRow
    ensures { result ≡ plain counts.Zero 0 0 0 }
{
    OpcodeRow {
        count: OperandCount::Zero,
        number: 0,
        least_operands: 0,
        most_operands: 0,
        has_result: false,
        has_branch: false,
        has_text: false,
    }
}

/// Whether a version performs an operation of the profile otherwise than versions 5 and 8.
fn differs(version: u8, operation: Operation) -> bool
    ensures { result ≡ table.differs version operation }
{
    takes_packed_address(operation)
        || (uses_objects(operation) && version <= 3)
        || (prints_text(operation) && version <= 2)
}

/// Whether an operand of an operation is a packed address.
fn takes_packed_address(operation: Operation) -> bool
    ensures { result ≡ table.takes_packed_address operation }
{
    matches!(
        operation,
        Operation::CallVs
            | Operation::CallVs2
            | Operation::CallVn
            | Operation::CallVn2
            | Operation::Call1s
            | Operation::Call2s
            | Operation::Call1n
            | Operation::Call2n
            | Operation::PrintPacked
    )
}

/// Whether an operation concerns an object or a property.
fn uses_objects(operation: Operation) -> bool
    ensures { result ≡ table.uses_objects operation }
{
    matches!(
        operation,
        Operation::JumpIfIn
            | Operation::TestAttribute
            | Operation::SetAttribute
            | Operation::ClearAttribute
            | Operation::InsertObject
            | Operation::RemoveObject
            | Operation::GetParent
            | Operation::GetSibling
            | Operation::GetChild
            | Operation::GetProperty
            | Operation::GetPropertyAddress
            | Operation::GetPropertyLength
            | Operation::GetNextProperty
            | Operation::PutProperty
            | Operation::PrintObject
    )
}

/// Whether an operation prints a text of Z-characters.
fn prints_text(operation: Operation) -> bool
    ensures { result ≡ table.prints_text operation }
{
    matches!(
        operation,
        Operation::Print
            | Operation::PrintReturn
            | Operation::PrintAddress
            | Operation::PrintPacked
            | Operation::PrintObject
    )
}
