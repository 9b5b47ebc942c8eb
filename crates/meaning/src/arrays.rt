//! What arrays begin with.

use std::alloc::Global;

/// The bytes that the arrays of a program begin with, one array after another in order of
/// definition.
#[derive(Drop)]
pub struct Arrays {
    pub bytes: Vec<u8>,

    /// How many bytes each array has.
    pub sizes: Vec<usize>,
}

impl Arrays {
    ghost use Rattle.std.specs.Prelude.{◌≡◌, []};

    /// No arrays.
    pub fn none(alloc: Global) -> Arrays
        ensures bytes { result.bytes.items ≡ [] }
        ensures sizes { result.sizes.items ≡ [] }
    {
        Arrays {
            bytes: Vec::new(alloc),
            sizes: Vec::new(alloc),
        }
    }
}
