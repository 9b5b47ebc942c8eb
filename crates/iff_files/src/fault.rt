//! Why a save file is refused.

use thiserror::Error;

/// Why a save file is refused. The first reason in this order is returned. `Display` writes it in
/// words.
#[derive(Clone, Copy, Debug, PartialEq, Eq, Error)]
pub enum SaveFault {
    /// It is not a save file, it is longer than 1,048,576 bytes, it lacks one of its three parts,
    /// or a length passes its end.
    #[error("the file is damaged")]
    Damaged,

    /// Its release number, serial number or checksum is not that of this story.
    #[error("the file is of another story")]
    OtherStory,

    /// Its memory has not the size of this story's, or ends within a run.
    #[error("its memory does not fit")]
    WrongMemory,

    /// Its frames are cut short or cannot be frames of this story, there are more than 1,001, or
    /// they have more than 65,536 words.
    #[error("its stacks do not fit")]
    WrongStacks,
}
