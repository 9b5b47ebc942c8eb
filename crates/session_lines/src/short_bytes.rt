//! A few bytes in place.

ghost use Rattle.std.specs.Prelude.{◌≡◌, ◌≤◌, [], length};
ghost use Rattle.session_lines.specs.ShortBytes.{short_bytes};

use std::marker::Model;

/// How many bytes are kept in place at most: a turn that prints a few words requests no memory.
pub(crate) const SHORT: usize = 16;

/// At most 16 bytes. They take no memory.
#[derive(Drop)]
pub(crate) struct ShortBytes {
    /// The bytes, and what fills the places after them.
    places: [u8; SHORT],

    count: usize,
}

impl Model for ShortBytes {
    ghost use Rattle.std.specs.Prelude.{◌≡◌, ◌≤◌, ℕ, List, length, take};
    ghost use Rattle.session_lines.specs.ShortBytes.{short_bytes};

    ghost Value = { List ℕ };

    ghost view = { λ b. take b.count b.places };

    ghost invariant = { λ b. (b.count ≤ short_bytes) × (length b.places ≡ short_bytes) };
}

impl ShortBytes {
    pub(crate) fn none() -> ShortBytes
        ensures { result ≡ [] }
    {
        ShortBytes {
            places: [0; SHORT],
            count: 0,
        }
    }

    pub(crate) fn of(bytes: &[u8]) -> ShortBytes
        requires { length bytes.now ≤ short_bytes }
        ensures { result ≡ bytes.now }
    {
        let mut places = [0; SHORT];
        places[..bytes.len()].copy_from_slice(bytes);
        ShortBytes {
            places,
            count: bytes.len(),
        }
    }

    pub(crate) fn as_slice(&self) -> &[u8]
        ensures { result.now ≡ self.now }
    {
        &self.places[..self.count]
    }
}
