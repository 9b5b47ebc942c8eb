//! Streams that go to a table in memory.

/// An open memory stream (Z-Machine Standards Document 1.1, section 7.1.2).
#[derive(Clone, Copy, Debug, Default, PartialEq, Eq)]
pub struct Stream {
    /// The address of the table to which its text goes when it is closed.
    pub table: u16,

    /// How many bytes the turn had printed when it was opened.
    pub from: u32,
}

/// A character of UTF-8 below 65,536, as far as it has been read.
#[derive(Clone, Copy, Debug, PartialEq, Eq)]
pub struct Begun {
    /// The bits of its bytes up to here.
    pub bits: u32,

    /// How many more bytes it has.
    pub more: u8,
}
