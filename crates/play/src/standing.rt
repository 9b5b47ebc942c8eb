//! Where a story stands at the end, and why it was stopped.

use messages_explanations::Program;
use session::{Mode, Place, Session};
use std::fmt;
use zcore::Fault;
use zcore_standard::Opcode;

/// Where a story stands. `Display` writes it in words, a fault as `M7: division by zero at 0F31`.
#[derive(Clone, Copy)]
pub struct Standing {
    place: Place,

    /// The address of the instruction at which it stands.
    at: u32,

    /// The opcode there, where the memory has one.
    opcode: Option<Opcode>,

    /// Its name, where the story's version has it.
    name: Option<&'static str>,

    /// Which opcodes the story may use.
    mode: Mode,
}

impl Standing {
    /// Where the story of a session stands that is played in a mode.
    pub fn of(session: &Session, mode: Mode) -> Standing {
        let at = session.program_counter();
        let memory = session.memory();
        let opcode = Opcode::read(memory, at as usize);
        Standing {
            place: session.place(),
            at,
            opcode,
            name: name_in(memory, opcode),
            mode,
        }
    }
}

/// The name of an opcode in the version that a story's first byte states.
fn name_in(story: &[u8], opcode: Option<Opcode>) -> Option<&'static str> {
    let version = story.first()?;
    let row = opcode?.row(*version)?;
    Some(row.name)
}

impl Standing {
    /// What the story waits for: the instruction is that which reads it.
    fn awaited(&self) -> &'static str {
        match self.name {
            Some(name) if name == "read_char" => "waits for a key",
            _ => "waits for a line",
        }
    }
}

impl fmt::Display for Standing {
    fn fmt<W: fmt::Write>(&self, f: &mut fmt::Formatter<W>) -> fmt::Result {
        match self.place {
            Place::Waiting => f.write_str(self.awaited()),
            Place::Quit => f.write_str("has quit"),
            Place::Limit(limit) => write!(f, "stopped by a limit: {limit}"),
            Place::Fault(fault) => write_fault(f, fault, self),
        }
    }
}

/// Writes a machine fault with its cause and the address of the instruction.
fn write_fault<W: fmt::Write>(
    f: &mut fmt::Formatter<W>,
    fault: Fault,
    standing: &Standing,
) -> fmt::Result {
    let at = standing.at;
    match (fault, standing.opcode) {
        (Fault::Opcode, Some(opcode)) => write_opcode(f, opcode, standing),
        _ => match Program::Play.explanations().find(name_of(fault)) {
            Some(explanation) => {
                let title = explanation.title;
                write!(f, "{fault}: {title} at {at:04X}")
            }
            None => write!(f, "{fault} at {at:04X}"),
        },
    }
}

/// The name by which a fault is explained.
fn name_of(fault: Fault) -> &'static str {
    match fault {
        Fault::Opcode => "M1",
        Fault::Code => "M2",
        Fault::Read => "M3",
        Fault::Write => "M4",
        Fault::StackEmpty => "M5",
        Fault::StackFull => "M6",
        Fault::Division => "M7",
        Fault::Object => "M8",
        Fault::Property => "M9",
        Fault::Character => "M10",
        Fault::Return => "M11",
        Fault::Buffer => "M12",
    }
}

/// Writes what is wrong with an opcode.
fn write_opcode<W: fmt::Write>(
    f: &mut fmt::Formatter<W>,
    opcode: Opcode,
    standing: &Standing,
) -> fmt::Result {
    let fault = Fault::Opcode;
    write!(f, "{fault}: opcode {opcode}")?;
    if let Some(name) = standing.name {
        write!(f, " ({name})")?;
    }
    let wrong = match standing.mode {
        Mode::Profile => wrong_in_profile(opcode),
        Mode::Standard(_) => wrong_in_standard(standing.name),
    };
    let at = standing.at;
    write!(f, " at {at:04X} {wrong}")
}

/// What is wrong with an opcode in the profile: it is outside, or has operands that it does not
/// take.
fn wrong_in_profile(opcode: Opcode) -> &'static str {
    match opcode.profile() {
        Some(_) => "has operands that it does not take",
        None => "is outside the profile",
    }
}

/// What is wrong with an opcode of this name with `--standard`: the Standard does not name it, or it
/// has operands that it does not take.
fn wrong_in_standard(name: Option<&str>) -> &'static str {
    match name {
        Some(_) => "has operands that it does not take",
        None => "is not known",
    }
}
