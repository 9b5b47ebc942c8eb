//! The line and the text of a turn, one behind the other.

ghost use Rattle.std.specs.Prelude.{◌≡◌, []};
ghost use Rattle.session_lines.specs.Written.{text_of};

use crate::kept_bytes::KeptBytes;

/// A line, and behind it what the turn of that line printed.
#[derive(Drop)]
pub struct Written {
    /// The line, and then the text.
    pub bytes: KeptBytes,

    /// How many bytes the line has.
    pub line: usize,
}

impl Written {
    /// An empty line, whose turn printed nothing. It takes no memory.
    pub fn none() -> Written
        ensures { text_of result ≡ [] }
    {
        Written {
            bytes: KeptBytes::none(),
            line: 0,
        }
    }

    /// What the turn printed.
    pub fn text(&self) -> &[u8]
        ensures { result.now ≡ text_of self.now }
    {
        let bytes = self.bytes.as_slice();
        if self.line < bytes.len() {
            &bytes[self.line..]
        } else {
            &[]
        }
    }
}
