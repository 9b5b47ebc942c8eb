//! Why a table is not written, and why it is not read.

ghost use Rattle.std.specs.Prelude.{◌≡◌};
ghost use Rattle.tables.specs.declared.fault.TableFault.TheVariants.{Memory};

use std::alloc::{AllocError, AllocFailed};
use thiserror::Error;

/// Why a table is not written. `Display` writes the number alone.
#[derive(Clone, Copy, Debug, PartialEq, Eq, Error)]
pub enum TableFault {
    /// A short name is longer than 255 words of Z-text, the most that its length byte can tell.
    #[error("B1")]
    NameTooLong,

    /// The table would pass address 65,536.
    #[error("B2")]
    TooLarge,

    /// A growth of memory was refused.
    #[error("B3")]
    Memory,
}

/// Why an object is not read.
#[derive(Clone, Copy, Debug, PartialEq, Eq, Error)]
pub enum TableRead {
    /// The object's number is 0, or its entry lies outside the story.
    #[error("no such object")]
    Object,

    /// The object's property table or its property list leaves the story.
    #[error("properties outside the story")]
    Outside,
}

impl From<AllocError> for TableFault {
    ghost from_gives = { λ _ e. e ≡ Memory };

    fn from(_e: AllocError) -> TableFault {
        TableFault::Memory
    }
}

impl<T: Drop> From<AllocFailed<T>> for TableFault {
    ghost from_gives = { λ _ e. e ≡ Memory };

    fn from(_e: AllocFailed<T>) -> TableFault {
        TableFault::Memory
    }
}
