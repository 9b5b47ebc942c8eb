//! Bytes that are kept as they are: a few in place, more of them in memory.

ghost use Rattle.std.specs.Prelude.{◌≡◌, [], IfOk};

use crate::short_bytes::{SHORT, ShortBytes};
use std::alloc::{AllocError, Global};
use std::marker::Model;

/// Where the bytes are stored.
#[derive(Drop)]
enum Stored {
    Short(ShortBytes),
    Long(Vec<u8>),
}

/// Bytes that stay as they are.
#[derive(Drop)]
pub struct KeptBytes {
    stored: Stored,
}

impl Model for KeptBytes {
    ghost use Rattle.std.specs.Prelude.{ℕ, List};

    ghost Value = { List ℕ };

    ghost use Rattle.session_lines.specs.KeptBytes.{bytes_of};

    ghost view = { λ k. bytes_of k.stored };
}

impl KeptBytes {
    /// No byte. It takes no memory.
    pub fn none() -> KeptBytes
        ensures { result ≡ [] }
    {
        KeptBytes {
            stored: Stored::Short(ShortBytes::none()),
        }
    }

    /// A copy of these bytes. Of 16 or fewer it takes no memory.
    ///
    /// # Errors
    ///
    /// Memory was refused.
    pub fn of(alloc: Global, bytes: &[u8]) -> Result<KeptBytes, AllocError>
        ensures { IfOk result (λ kept. kept ≡ bytes.now) }
    {
        if bytes.len() <= SHORT {
            return Ok(KeptBytes {
                stored: Stored::Short(ShortBytes::of(bytes)),
            });
        }
        let mut long = Vec::with_capacity(alloc, bytes.len())?;
        long.extend_from_slice(bytes)?;
        Ok(KeptBytes {
            stored: Stored::Long(long),
        })
    }

    /// The bytes.
    pub fn as_slice(&self) -> &[u8]
        ensures { result.now ≡ self.now }
    {
        match &self.stored {
            Stored::Short(short) => short.as_slice(),
            Stored::Long(long) => long.as_slice(),
        }
    }
}
