//! What a story is given for the name of a saved game, by what becomes of the file.

ghost use Rattle.std.specs.Prelude.{◌≡◌, ◌∷◌, [], ℕ, List, Some, IfOk};
ghost use Rattle.session_lines.specs.Answers.{IsAnswered};
ghost use Rattle.session_lines.specs.Files.{EndsWithLook, acts_for};
ghost use Rattle.zcore_standard.specs.declared.save_form.Purpose.TheVariants.{Saving, Restoring};

use crate::files::{Files, FilesFault};
use journal::NoMemory;
use std::alloc::{AllocError, AllocFailed, Global};

/// How many bytes of a file are read: one more than a save file has at most.
const MOST_BYTES: usize = 1_048_577;

/// What a story is given where a file was written or read.
const DONE: u8 = 0;

/// What it is given where a line is no name.
pub const NO_NAME: u8 = 1;

/// What it is given where something else has the name.
pub const OTHER_FILE: u8 = 2;

/// What it is given where a file was not written.
pub const NOT_WRITTEN: u8 = 3;

/// What it is given where there is no file to read.
const NO_FILE: u8 = 4;

/// Why a story is given nothing for a name.
#[derive(Clone, Copy, Debug, PartialEq, Eq)]
pub enum GivenFault {
    /// Memory was refused: the line is not taken.
    Memory,

    /// What the story is to be given cannot be kept, or was lost: the run ends.
    Unkept,
}

impl From<AllocError> for GivenFault {
    ghost use Rattle.session_lines.specs.declared.answers.GivenFault.TheVariants.{Memory};

    ghost from_gives = { λ _ fault. fault ≡ Memory };

    fn from(_: AllocError) -> GivenFault {
        GivenFault::Memory
    }
}

impl<T: Drop> From<AllocFailed<T>> for GivenFault {
    ghost use Rattle.session_lines.specs.declared.answers.GivenFault.TheVariants.{Memory};

    ghost from_gives = { λ _ fault. fault ≡ Memory };

    fn from(_: AllocFailed<T>) -> GivenFault {
        GivenFault::Memory
    }
}

impl From<NoMemory> for GivenFault {
    ghost use Rattle.session_lines.specs.declared.answers.GivenFault.TheVariants.{Memory};

    ghost from_gives = { λ _ fault. fault ≡ Memory };

    fn from(_: NoMemory) -> GivenFault {
        GivenFault::Memory
    }
}

/// A text of one byte.
///
/// # Errors
///
/// `Memory`.
pub fn numbered(alloc: Global, number: u8) -> Result<Vec<u8>, GivenFault>
    ensures { IfOk result (λ given. given.items ≡ number ∷ []) }
{
    let mut given = Vec::new(alloc);
    given.push(number)?;
    Ok(given)
}

/// Reads a file into what the story is given.
///
/// # Errors
///
/// `Memory`.
pub fn load<F: Files>(alloc: Global, files: &mut F, name: &[u8]) -> Result<Vec<u8>, GivenFault>
    ensures { (file : List ℕ) → IsAnswered (acts_for (Some Restoring) name.now file)
        (F.log files.old) (F.log files.new) result }
{
    let mut given = numbered(alloc, DONE)?;
    let mut bytes = Vec::new(alloc);
    match files.read(name, MOST_BYTES, &mut bytes) {
        Ok(()) => {
            given.extend_from_slice(&bytes)?;
            Ok(given)
        }
        Err(FilesFault::File) => numbered(alloc, NO_FILE),
        Err(FilesFault::Memory) => Err(GivenFault::Memory),
    }
}

/// Writes a file of a name that was looked at just before. What is answered then has its room before.
///
/// # Errors
///
/// `Memory`.
pub fn store<F: Files>(
    alloc: Global,
    files: &mut F,
    name: &[u8],
    file: &[u8],
) -> Result<Vec<u8>, GivenFault>
    requires { EndsWithLook (F.log files.old) name.now }
    ensures { IsAnswered (acts_for (Some Saving) name.now file.now)
        (F.log files.old) (F.log files.new) result }
{
    let given = numbered(alloc, DONE)?;
    match files.write(name, file) {
        Ok(()) => Ok(given),
        Err(FilesFault::File) => numbered(alloc, NOT_WRITTEN),
        Err(FilesFault::Memory) => Err(GivenFault::Memory),
    }
}
