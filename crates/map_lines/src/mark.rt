//! Where the code of a line begins.

/// Where items begin that are of a line.
#[derive(Clone, Copy)]
pub struct Mark {
    /// How many items there are since the mark before it, or since the first item.
    pub items: usize,

    pub line: usize,
}
