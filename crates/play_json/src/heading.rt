//! What a story of versions 1 to 3 tells of its player.

use crate::memory::{byte_at, word_at};

/// Where the header has the address of the global variables (Z-Machine Standards Document 1.1,
/// section 11.1).
const GLOBALS: usize = 0x0C;

/// What the status line of a story of versions 1 to 3 tells, from its first global variables (sections
/// 8.2.2 and 8.2.3). Later versions draw a line of their own.
#[derive(Clone, Copy)]
pub enum Heading {
    /// Nothing: it is of a later version.
    Nothing,

    /// The object where the player is, the score, and the number of turns.
    Score(u16, i32, u16),

    /// The object where the player is, the hours and the minutes.
    Time(u16, u16, u16),
}

impl Heading {
    /// What is told with this memory. Only in version 3 it can be the time: by bit 1 of the header's first
    /// flags.
    pub fn read(memory: &[u8]) -> Heading {
        let version = byte_at(memory, 0);
        let globals = usize::from(word_at(memory, GLOBALS));
        let location = word_at(memory, globals);
        let first = word_at(memory, globals + 2);
        let second = word_at(memory, globals + 4);
        if version > 3 {
            Heading::Nothing
        } else if version == 3 && byte_at(memory, 1) / 2 % 2 == 1 {
            Heading::Time(location, first, second)
        } else {
            Heading::Score(location, signed(first), second)
        }
    }
}

/// A word as a signed number (section 2.2).
fn signed(word: u16) -> i32 {
    if word < 0x8000 {
        i32::from(word)
    } else {
        i32::from(word) - 65_536
    }
}
