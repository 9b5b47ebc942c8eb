//! What a writer was given, as contracts see it.

ghost use Rattle.std.specs.Prelude.{◌≡◌, ◌++◌, List, ℕ, []};
ghost use Rattle.std.specs.Borrow.{ftrue};

use std::marker::{Model, PhantomData};

/// The bytes that a writer was given. Only contracts see them: it takes no memory, and does nothing.
#[derive(Drop)]
pub struct Told {
    marker: PhantomData<u8>,

    /// The bytes.
    pub ghost bytes: { List ℕ },
}

impl Model for Told {
    ghost also_owns = { λ _. ftrue };
}

impl Told {
    /// No bytes.
    pub fn new() -> Told
        ensures { result.bytes ≡ [] }
    {
        Told {
            marker: PhantomData,
        }
    }

    /// Adds bytes.
    pub fn add(&mut self, _bytes: &[u8])
        ensures { self.new.bytes ≡ self.old.bytes ++ _bytes.now }
    {}
}
