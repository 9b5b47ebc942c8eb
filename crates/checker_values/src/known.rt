//! What is known of a value before a story runs.

/// What is known of a value before a story runs.
#[derive(Clone, Copy)]
pub enum Known {
    Number(u16),

    /// The key of a dictionary word. Its number rests on where the dictionary stands.
    Key(u64),
}
