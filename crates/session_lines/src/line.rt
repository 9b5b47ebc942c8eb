//! A line of input that is not yet whole.

ghost use Rattle.std.specs.Prelude.{◌≡◌, ℕ, [], ◌∷◌, ◌++◌, ◌≤◌, List};
ghost use Rattle.session_lines.specs.Kept.{IsKept};
ghost use Rattle.session_lines.specs.Standing.{longest_line};

use crate::typable::LONGEST_LINE;

/// The bytes of a line so far, or the knowledge that there are more than a line for the story can
/// have.
#[derive(Drop)]
pub struct Line {
    pub bytes: [u8; LONGEST_LINE],
    pub len: usize,
    pub more: bool,
}

impl Line {
    /// No byte so far.
    pub fn new() -> Line
        ensures kept { IsKept result [] }
        ensures within { result.len ≤ longest_line }
    {
        Line {
            bytes: [0; LONGEST_LINE],
            len: 0,
            more: false,
        }
    }

    /// Begins an empty line.
    pub fn clear(&mut self)
        ensures kept { IsKept self.new [] }
        ensures within { self.new.len ≤ longest_line }
    {
        self.len = 0;
        self.more = false;
    }

    /// Adds a byte. Of a byte past the thousandth it is only kept that it was there.
    pub fn push(&mut self, byte: u8)
        requires { self.old.len ≤ longest_line }
        ensures kept { (full : List ℕ) → IsKept self.old full
            → IsKept self.new (full ++ byte ∷ []) }
        ensures within { self.new.len ≤ longest_line }
    {
        if self.len < LONGEST_LINE {
            self.bytes[self.len] = byte;
            self.len += 1;
        } else {
            self.more = true;
        }
    }
}
