//! Why a Blorb file has no story that can be played.

use thiserror::Error;

/// Why no story is found in a Blorb file. `Display` writes the name of the cause.
#[derive(Clone, Copy, Debug, PartialEq, Eq, Error)]
pub enum BlorbFault {
    /// The form is not whole or above 64 MB, its index is not as long as it says, or the program's
    /// chunk is not between the end of the index and that of the form.
    #[error("Z10")]
    Damaged,

    /// The index lists no resource of usage `Exec`.
    #[error("Z11")]
    NoProgram,

    /// The chunk of the first one is not `ZCOD`: its program is for another machine than the
    /// Z-machine.
    #[error("Z12")]
    OtherProgram,
}
