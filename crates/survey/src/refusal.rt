//! What of an instruction a machine refuses.

ghost use Rattle.std.specs.Prelude.{◌≡◌, ◌≤◌, ◌<◌, true, false, not, Some, None, IfSome, length, slice_index};
ghost use Rattle.zcore.specs.Instruction.{opcode};
ghost use Rattle.zcore.specs.Layout.{longest_story};
ghost use Rattle.zcore_standard.specs.Opcodes.{opcode_at, opcode_of};
ghost use Rattle.zcore_standard.specs.OlderOpcodes.{action_in};
ghost use Rattle.zcore_standard.specs.Rows.{said_by};
ghost use Rattle.zcore_standard.specs.Operations as table;
ghost use Rattle.survey.specs.Refusals.{is_refused, is_said, takes, counted_at};
ghost use Rattle.survey.specs.Refusals.{IsOperandsRefusal, IsProfileRefusal, SaysOfOperands, SaysOfVersion};
ghost use Rattle.survey.specs.declared.refusal.Refusal.TheVariants as refusals;

use std::fmt;
use zcore::{Fault, OpcodeRow};
use zcore_standard::{EXTENDED, Opcode, types_at};

/// What of an instruction the machine refuses with M1. `Display` writes what is said after the
/// opcode: nothing, ` with 4 operands`, or ` with an operand after an omitted one`.
#[derive(Clone, Copy, PartialEq, Eq)]
pub enum Refusal {
    /// Its opcode, which the machine does not have.
    Opcode,

    /// That it has so many operands: its opcode takes another number.
    Operands(usize),

    /// That an operand follows an omitted one (Z-Machine Standards Document 1.1, section 4.4.3).
    Gap,
}

impl fmt::Display for Refusal {
    fn fmt<W: fmt::Write>(&self, f: &mut fmt::Formatter<W>) -> fmt::Result {
        match self {
            Refusal::Opcode => Ok(()),
            Refusal::Operands(1) => f.write_str(" with 1 operand"),
            Refusal::Operands(count) => write!(f, " with {count} operands"),
            Refusal::Gap => f.write_str(" with an operand after an omitted one"),
        }
    }
}

/// What of the instruction at an address the profile's machine refuses with M1. `None` where it
/// refuses nothing, and where the story does not have the bytes of the opcode and of the operands'
/// types.
pub fn profile_refusal_at(story: &[u8], at: usize) -> Option<Refusal>
    requires { length story.now ≤ longest_story }
    ensures said { is_said result ≡ is_refused (opcode story.now at) }
    ensures refusal { IfSome (opcode_at story.now at) (λ x. IfSome result (IsProfileRefusal x)) }
    ensures unknown { IfSome (opcode_at story.now at)
        (λ x. table.profile_of x ≡ None → result ≡ Some refusals.Opcode) }
{
    if story.len() <= at {
        return None;
    }
    let first = story[at];
    if first == EXTENDED {
        return Some(Refusal::Opcode);
    }
    match Opcode::plain(first).profile() {
        None => Some(Refusal::Opcode),
        Some(operation) => operands_refusal(story, at, operation.row()),
    }
}

/// What of the instruction at an address `play --standard` answers with M1. What the profile plays
/// it plays too, and an operation that the profile does not have with as many operands as the
/// Standard lets it have. `None` where it refuses nothing, and where the story does not have the
/// bytes of the opcode and of the operands' types.
pub fn standard_refusal_at(story: &[u8], at: usize) -> Option<Refusal>
    requires { length story.now ≤ longest_story }
    ensures kept { is_refused (opcode story.now at) ≡ false → result ≡ None }
    ensures unknown { IfSome (opcode_at story.now at) (λ x. table.profile_of x ≡ None
        → table.standard_of x ≡ None → result ≡ Some refusals.Opcode) }
    ensures operands { is_refused (opcode story.now at) ≡ true
        → IfSome (opcode_at story.now at) (SaysOfOperands story.now at result) }
{
    let refusal = profile_refusal_at(story, at)?;
    match Opcode::read(story, at)?.standard() {
        Some((_, row)) => operands_refusal(story, at, row),
        None => Some(refusal),
    }
}

/// What of the instruction at an address of a story of version 1 to 4 `play --standard` answers with
/// M1: an opcode that the version does not have, or a number of operands that it does not take.
pub fn older_refusal_at(story: &[u8], at: usize, version: u8) -> Option<Refusal>
    requires { length story.now ≤ longest_story }
    ensures { at < length story.now → SaysOfVersion story.now at
        (said_by version (action_in version (opcode_of (slice_index story.now at) 0))) result }
{
    if story.len() <= at {
        return None;
    }
    match Opcode::of_bytes(story[at], 0).row(version) {
        Some(row) => operands_refusal(story, at, row.shape),
        None => Some(Refusal::Opcode),
    }
}

/// What is refused of the operands of the instruction at an address, whose opcode has a row.
fn operands_refusal(story: &[u8], at: usize, row: OpcodeRow) -> Option<Refusal>
    requires short { length story.now ≤ longest_story }
    requires within { at < length story.now }
    ensures said { is_said result ≡ is_refused (counted_at story.now at row) }
    ensures refusal { IfSome result (IsOperandsRefusal row) }
{
    match types_at(story, at, row) {
        Ok((_, count, _)) => count_refusal(row, count),
        Err(Fault::Opcode) => Some(Refusal::Gap),
        Err(_) => None,
    }
}

/// What is refused of so many operands of an opcode with a row.
fn count_refusal(row: OpcodeRow, count: usize) -> Option<Refusal>
    ensures said { is_said result ≡ not (takes row count) }
    ensures refusal { IfSome result (IsOperandsRefusal row) }
{
    if row.least_operands <= count && count <= row.most_operands {
        None
    } else {
        Some(Refusal::Operands(count))
    }
}
