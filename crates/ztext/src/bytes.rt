//! Words of a story.

ghost use Rattle.std.specs.Prelude.{◌≡◌, ◌+◌, ◌<◌, ℕ, length};
ghost use Rattle.ztext.specs.Bytes.{word_at};

use byteorder::{BigEndian, ByteOrder};

/// The most abbreviations of a story (Standards document 1.1, section 3.3).
pub const MOST_ABBREVIATIONS: usize = 96;

/// The word at an address, its high byte first.
pub fn read_word(story: &[u8], at: usize) -> u16
    requires { at + 1 < length story.now }
    ensures { result ≡ word_at story.now at }
{
    BigEndian::read_u16(&story[at..])
}
