//! The opcode of an instruction, by its first bytes (Z-Machine Standards Document 1.1, section 4.3).

ghost use Rattle.std.specs.Prelude.{◌≡◌, ◌<◌, length};
ghost use Rattle.zcore_standard.specs.Opcodes.{opcode_at, opcode_of, extended, plain};

use machine_decoding::first_bytes::{
    OPCODE_NUMBERS, SHORT_FORM, SHORT_FORM_0OP, SHORT_OPCODE_NUMBERS, VARIABLE_FORM,
    VARIABLE_FORM_VAR,
};
use std::fmt;

/// This first byte begins an extended opcode, whose number is the second byte.
pub const EXTENDED: u8 = 0xBE;

/// By what opcodes are numbered (section 14).
#[derive(Clone, Copy, PartialEq, Eq)]
pub enum Numbering {
    /// Two operands: 2OP.
    Two,

    /// One operand: 1OP.
    One,

    /// No operand: 0OP.
    Zero,

    /// Any number of operands: VAR.
    Several,

    /// Extended opcodes: EXT.
    Extended,
}

/// An opcode. `Display` writes its number, as `VAR 7`.
#[derive(Clone, Copy, PartialEq, Eq)]
pub struct Opcode {
    /// By what it is numbered.
    pub numbering: Numbering,

    /// Its number among those.
    pub number: u8,
}

impl fmt::Display for Opcode {
    fn fmt<W: fmt::Write>(&self, f: &mut fmt::Formatter<W>) -> fmt::Result {
        let numbering = match self.numbering {
            Numbering::Two => "2OP",
            Numbering::One => "1OP",
            Numbering::Zero => "0OP",
            Numbering::Several => "VAR",
            Numbering::Extended => "EXT",
        };
        let number = self.number;
        write!(f, "{numbering} {number}")
    }
}

impl Opcode {
    /// The opcode at an address of a story. `None` where the story does not have its bytes.
    pub fn read(story: &[u8], at: usize) -> Option<Opcode>
        ensures { result ≡ opcode_at story.now at }
    {
        if story.len() <= at {
            return None;
        }
        let first = story[at];
        if first == EXTENDED {
            return extended(story, at);
        }
        Some(Opcode::plain(first))
    }

    /// The opcode that two bytes begin. The second counts only in an extended opcode.
    #[inline]
    pub fn of_bytes(first: u8, second: u8) -> Opcode
        ensures { result ≡ opcode_of first second }
    {
        if first == EXTENDED {
            Opcode {
                numbering: Numbering::Extended,
                number: second,
            }
        } else {
            Opcode::plain(first)
        }
    }

    /// The opcode of a first byte that begins no extended one.
    #[inline]
    pub fn plain(first: u8) -> Opcode
        ensures { result ≡ plain first }
    {
        let (numbering, numbers) = if first < SHORT_FORM {
            (Numbering::Two, OPCODE_NUMBERS)
        } else if first < SHORT_FORM_0OP {
            (Numbering::One, SHORT_OPCODE_NUMBERS)
        } else if first < VARIABLE_FORM {
            (Numbering::Zero, SHORT_OPCODE_NUMBERS)
        } else if first < VARIABLE_FORM_VAR {
            (Numbering::Two, OPCODE_NUMBERS)
        } else {
            (Numbering::Several, OPCODE_NUMBERS)
        };
        Opcode {
            numbering,
            number: first % numbers,
        }
    }
}

/// The opcode at an address whose first byte begins an extended one.
fn extended(story: &[u8], at: usize) -> Option<Opcode>
    requires { at < length story.now }
    ensures { result ≡ extended story.now at }
{
    let second = at + 1;
    if story.len() <= second {
        return None;
    }
    Some(Opcode {
        numbering: Numbering::Extended,
        number: story[second],
    })
}
