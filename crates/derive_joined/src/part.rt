//! Parts of a source of several files.

/// Bytes of a file.
#[derive(Clone, Copy)]
pub struct Run {
    /// The number of the file, from 0.
    pub file: usize,

    /// The offset of the first byte.
    pub begin: usize,

    /// How many bytes there are.
    pub length: usize,
}

/// A part of a source.
#[derive(Clone, Copy)]
pub enum Part {
    /// Bytes that stay.
    Bytes(Run),

    /// A directive `Include`, by the text that names the file, quotes included.
    Asked(Run),
}
