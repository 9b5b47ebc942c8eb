//! A row of a map.

/// Where code of a line begins: the code from this address on, up to that of the next row, is of this
/// line of this routine.
#[derive(Clone, Copy)]
pub struct Row<'a> {
    /// The address in the story, below 1,048,576.
    pub address: u32,

    /// The routine's name, as its definition has it.
    pub routine: &'a [u8],

    /// The line of the source.
    pub line: usize,
}
