//! Why a session is not opened.

use machine::LoadFault;
use machine_standard::StandardFault;
use thiserror::Error;

/// Why a session is not opened. `Display` writes the number alone.
#[derive(Clone, Copy, Debug, PartialEq, Eq, Error)]
pub enum OpenFault {
    /// The story is not loaded.
    #[error("{0}")]
    Load(LoadFault),

    /// The story is not loaded to be played by the whole Standard.
    #[error("{0}")]
    Standard(StandardFault),

    /// Memory was refused while the opening ran or the session was made.
    #[error("S3")]
    Memory,
}
