//! What was found that the machine does not play.

ghost use Rattle.std.specs.Prelude.{◌≡◌, OnOk};
ghost use Rattle.survey.specs.Noted.{IsNoted};

use crate::refusal::Refusal;
use std::alloc::AllocError;
use std::fmt;
use zcore_standard::Opcode;

/// An opcode among the instructions that can be reached that the machine does not play, or not with
/// such operands. `Display` writes it with its first address, as `random (VAR 7) at 1A2C, 3 times`,
/// or `aread (VAR 4) with 4 operands at 1A2C, once`, or `2OP 0 at 1A2C, once` where the story's
/// version has no such opcode; then `, where no direct call leads`, if it is so.
#[derive(Clone, Copy)]
pub struct Unplayed {
    /// The opcode.
    pub opcode: Opcode,

    /// Its name, where the story's version has it.
    pub name: Option<&'static str>,

    /// What the machine refuses of it.
    pub refusal: Refusal,

    /// The lowest address at which an instruction is so.
    pub first: usize,

    /// How many instructions are so.
    pub times: usize,

    /// Whether they are in routines to which no direct call leads.
    pub is_swept: bool,
}

impl fmt::Display for Unplayed {
    fn fmt<W: fmt::Write>(&self, f: &mut fmt::Formatter<W>) -> fmt::Result {
        let opcode = self.opcode;
        let refusal = self.refusal;
        let first = self.first;
        let found = if self.is_swept {
            ", where no direct call leads"
        } else {
            ""
        };
        match self.name {
            Some(name) => write!(f, "{name} ({opcode})")?,
            None => write!(f, "{opcode}")?,
        }
        write!(f, "{refusal} at {first:04X}, ")?;
        match self.times {
            1 => write!(f, "once{found}"),
            2 => write!(f, "twice{found}"),
            times => write!(f, "{times} times{found}"),
        }
    }
}

/// Notes an instruction of which the machine refuses something, once, at its first address.
pub(crate) fn note(unplayed: &mut Vec<Unplayed>, found: Unplayed) -> Result<(), AllocError>
    ensures noted { OnOk result (IsNoted unplayed.new.items found.opcode found.refusal) }
{
    let known = unplayed.len();
    for i in 0..known {
        let is_same = unplayed[i].opcode == found.opcode && unplayed[i].refusal == found.refusal;
        if is_same && unplayed[i].is_swept == found.is_swept {
            unplayed[i] = again(unplayed[i], found.first);
            return Ok(());
        }
    }
    unplayed.push(found)?;
    Ok(())
}

/// The same at one more address.
fn again(found: Unplayed, at: usize) -> Unplayed
    ensures opcode { result.opcode ≡ found.opcode }
    ensures refusal { result.refusal ≡ found.refusal }
{
    Unplayed {
        opcode: found.opcode,
        name: found.name,
        refusal: found.refusal,
        first: found.first.min(at),
        times: found.times.saturating_add(1),
        is_swept: found.is_swept,
    }
}
