//! Why a running source stops.

/// Why a running source stops: each cause prints its own line.
#[derive(Clone, Copy, Debug, PartialEq, Eq)]
pub enum Cause {
    DivisionByZero,
    NotAnObject,
    IndexOutOfRange,
    NoSuchProperty,
    PropertyOfManyWords,
    ObjectInsideItself,
    NotACharacter,
    BufferTooSmall,
}
