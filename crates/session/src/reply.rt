//! What a session replies to a line.

/// The reply to a line. All but `Taken` leave the session as it was.
#[derive(Clone, Copy)]
pub enum Reply<'a> {
    /// The line was taken, and its turn printed this text.
    Taken(&'a [u8]),

    /// The line is no line for the story: it has more than 1,000 bytes, or one that is not from 32
    /// to 126, or, by the whole Standard, it is not UTF-8 or has a character that the story has not.
    Refused,

    /// The story does not wait for a line: it has quit or was stopped.
    Over,

    /// Memory was refused, and the line was not taken.
    NoMemory,
}
