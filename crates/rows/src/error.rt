//! Why a row cannot be read.

use std::alloc::{AllocError, AllocFailed};
use thiserror::Error;

/// Why a line of rows cannot be read.
#[derive(Clone, Copy, Debug, Error)]
pub enum RowError {
    /// Memory was refused.
    #[error("no memory")]
    Memory,

    /// The line's first word is none that a row has.
    #[error("no such word")]
    Word,

    /// What stands in place of a number is none, or is too great.
    #[error("no number")]
    Number,

    /// The row's story is not loaded or opened.
    #[error("no story to play")]
    Story,

    /// A `\` that begins nothing.
    #[error("a \\ that begins nothing")]
    Escape,
}

impl From<AllocError> for RowError {
    fn from(_: AllocError) -> RowError {
        RowError::Memory
    }
}

impl<T: Drop> From<AllocFailed<T>> for RowError {
    fn from(_: AllocFailed<T>) -> RowError {
        RowError::Memory
    }
}
