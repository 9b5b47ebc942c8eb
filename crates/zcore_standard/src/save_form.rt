//! How versions write `save`, and what a story that waits for the name of a saved game is asked for.

/// How a version writes `save`, and how that gives its answer (Z-Machine Standards Document 1.1,
/// section 15). Before the answer come the same bytes in each story of the version.
#[derive(Clone, Copy, PartialEq, Eq)]
pub enum SaveForm {
    /// Versions 1 to 3: 0OP 5, with a branch.
    Branch,

    /// Version 4: 0OP 5, with a variable for the result.
    Result,

    /// From version 5 on: EXT 0 without operands, with a variable for the result.
    Extended,
}

/// For what a story asks for the name of a saved game.
#[derive(Clone, Copy, PartialEq, Eq)]
pub enum Purpose {
    /// `save`
    Saving,

    /// `restore`
    Restoring,
}
