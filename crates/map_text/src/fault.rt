//! Why a map is refused.

ghost use Rattle.std.specs.Prelude.{◌≡◌};
ghost use Rattle.map_text.specs.declared.fault.MapFault.TheVariants.{Memory};

use std::alloc::{AllocError, AllocFailed};
use thiserror::Error;

/// Why a text is not taken as the map of a story.
#[derive(Clone, Copy, Debug, PartialEq, Eq, Error)]
pub enum MapFault {
    /// It does not begin as a map.
    #[error("it is no map")]
    NoMap,

    /// It is of another story.
    #[error("it is the map of another story")]
    OtherStory,

    /// A line is no row, or its address is below that of the row above it.
    #[error("its line {0} is malformed")]
    Line(usize),

    /// A growth of memory was refused.
    #[error("there is no memory for it")]
    Memory,
}

impl From<AllocError> for MapFault {
    ghost from_gives = { λ _ e. e ≡ Memory };

    fn from(_: AllocError) -> MapFault {
        MapFault::Memory
    }
}

impl<T: Drop> From<AllocFailed<T>> for MapFault {
    ghost from_gives = { λ _ e. e ≡ Memory };

    fn from(_: AllocFailed<T>) -> MapFault {
        MapFault::Memory
    }
}
