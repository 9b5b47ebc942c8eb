//! Where a turn of the machine leaves it.

use thiserror::Error;

/// Where a turn leaves the machine.
#[derive(Clone, Copy, Debug, PartialEq, Eq)]
pub enum Place {
    /// It waits for a line.
    Waiting,

    /// It has quit.
    Quit,

    /// A limit of the player stopped it.
    Limit(Limit),

    /// An instruction that the machine does not allow stopped it.
    Fault(Fault),
}

/// A limit of the player. `Display` writes the words of its notice.
#[derive(Clone, Copy, Debug, PartialEq, Eq, Error)]
pub enum Limit {
    /// The turn's fuel is spent.
    #[error("turn too long")]
    Fuel,

    /// 1,000 routine calls are open.
    #[error("calls too deep")]
    Calls,

    /// The turn has printed 65,536 bytes.
    #[error("text too long")]
    Text,
}

/// Why an instruction cannot be done. `Display` writes the number alone.
#[derive(Clone, Copy, Debug, PartialEq, Eq, Error)]
pub enum Fault {
    /// An opcode that is not known, too few or too many operands, or an operand after an omitted
    /// one.
    #[error("M1")]
    Opcode,

    /// An instruction's byte, a jump's target or a routine outside the story's code.
    #[error("M2")]
    Code,

    /// A read past the memory that can be read, or of a variable that is not there; a text past the
    /// story.
    #[error("M3")]
    Read,

    /// A write outside dynamic memory, or to a variable that is not there.
    #[error("M4")]
    Write,

    /// A pop off an empty stack.
    #[error("M5")]
    StackEmpty,

    /// More words on all stacks than 65,536.
    #[error("M6")]
    StackFull,

    /// A division by zero.
    #[error("M7")]
    Division,

    /// An object or attribute that is not there, or an object that cannot be taken out of its
    /// parent.
    #[error("M8")]
    Object,

    /// A property that is not there, or of a length that the instruction does not take.
    #[error("M9")]
    Property,

    /// A character that cannot be printed, or an abbreviation where none may stand.
    #[error("M10")]
    Character,

    /// A return from the first environment.
    #[error("M11")]
    Return,

    /// A buffer for a line that cannot take one.
    #[error("M12")]
    Buffer,
}
