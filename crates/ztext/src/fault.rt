//! Why a text is refused.

ghost use Rattle.std.specs.Prelude.{◌≡◌};
ghost use Rattle.ztext.specs.declared.fault.TextFault.TheVariants.{Memory};

use std::alloc::{AllocError, AllocFailed};
use thiserror::Error;

/// Why a text is refused. `Display` writes the number alone.
#[derive(Clone, Copy, Debug, PartialEq, Eq, Error)]
pub enum TextFault {
    /// A character outside 13 and 32 to 126; in Z-text an escape may name 0 too, which prints
    /// nothing.
    #[error("Z1")]
    Character,

    /// No word of the text, up to the end of the story, has its top bit set, or the address after
    /// it has more than 32 bits.
    #[error("Z2")]
    End,

    /// An abbreviation inside an abbreviation, or in a story without a table of them.
    #[error("Z3")]
    Abbreviation,

    /// A growth of memory was refused.
    #[error("Z9")]
    Memory,
}

impl From<AllocError> for TextFault {
    ghost from_gives = { λ _ e. e ≡ Memory };

    fn from(_e: AllocError) -> TextFault {
        TextFault::Memory
    }
}

impl<T: Drop> From<AllocFailed<T>> for TextFault {
    ghost from_gives = { λ _ e. e ≡ Memory };

    fn from(_e: AllocFailed<T>) -> TextFault {
        TextFault::Memory
    }
}
