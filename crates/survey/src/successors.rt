//! Which instructions follow one.

ghost use Rattle.std.specs.Prelude.{◌≡◌, ◌<◌, ◌≤◌, IfSome, length};
ghost use Rattle.zcore.specs.Layout.{longest_story};
ghost use Rattle.zcore.specs.Parts.{jump_target, branch_target};

use machine_decoding::OPERANDS;
use zcore::Operand;
use zcore_standard::{Flow, Row, decode_any};

/// The last version whose routines give initial values to their locals (Z-Machine Standards Document
/// 1.1, section 5.2.1).
pub(crate) const LAST_OLD: u8 = 4;

/// What an instruction says of those that follow it.
#[derive(Clone, Copy)]
pub(crate) struct Successors {
    /// Where the machine goes on.
    pub flow: Flow,

    /// Its first operand: the routine of a call, the offset of a jump.
    pub first: Option<Operand>,

    /// The offset of its branch, of 14 bits.
    pub branch: Option<u16>,

    /// The address after it, where the text of a `print` begins.
    pub after: usize,
}

/// What the instruction at an address says of those that follow it. Its opcode has a row of the
/// table, and it may have any number of operands. `None` where it leaves the story, or where an
/// operand follows an omitted one.
pub(crate) fn successors_at(story: &[u8], at: usize, row: Row) -> Option<Successors>
    requires { length story.now ≤ longest_story }
    ensures { IfSome result (λ successors. successors.after ≤ length story.now) }
{
    if story.len() <= at {
        return None;
    }
    let mut operands = [Operand::Small(0); OPERANDS];
    let Ok((count, ending)) = decode_any(story, at, row.shape, &mut operands) else {
        return None;
    };
    let first = if count == 0 { None } else { Some(operands[0]) };
    let branch = match ending.branch {
        Some(branch) => Some(branch.offset),
        None => None,
    };
    Some(Successors {
        flow: row.flow,
        first,
        branch,
        after: ending.after as usize,
    })
}

/// The address of the first instruction of the routine at an address, after the initial values of
/// its locals in the versions that have them.
pub(crate) fn first_instruction(story: &[u8], routine: usize, version: u8) -> usize
    requires within { routine < length story.now }
    requires short { length story.now ≤ longest_story }
    ensures { routine < result }
{
    if version <= LAST_OLD {
        routine + 1 + 2 * usize::from(story[routine])
    } else {
        routine + 1
    }
}

/// The value of an operand that is a constant.
pub(crate) fn constant(operand: Option<Operand>) -> Option<u16> {
    match operand {
        Some(Operand::Large(value)) => Some(value),
        Some(Operand::Small(value)) => Some(u16::from(value)),
        Some(Operand::Variable(_)) => None,
        None => None,
    }
}

/// Where a jump by an offset leads, of which the address after it is given; 0 below 0.
pub(crate) fn jump_target(after: usize, offset: u16) -> usize
    requires { after ≤ longest_story }
    ensures { result ≡ jump_target after offset }
{
    let sum = after + usize::from(offset);
    if offset < 0x8000 {
        sum.saturating_sub(2)
    } else {
        sum.saturating_sub(0x10002)
    }
}

/// Where a branch leads; 0 below 0.
pub(crate) fn branch_target(after: usize, offset: u16) -> usize
    requires { after ≤ longest_story }
    ensures { result ≡ branch_target after offset }
{
    let sum = after + usize::from(offset);
    if offset < 0x2000 {
        sum.saturating_sub(2)
    } else {
        sum.saturating_sub(0x4002)
    }
}
