//! Constants that are known.

ghost use Rattle.std.specs.Prelude.{◌≡◌, IfOk, OnOk};
ghost use Rattle.derive_constants.specs.Held.{known_of};
ghost use Rattle.derive_constants.specs.Values as spec;

use derive_tokens::Names;
use std::alloc::{AllocError, Global};

/// A constant of the source that is known.
#[derive(Clone, Copy)]
pub struct Constant<'a> {
    pub name: &'a [u8],
    pub value: u16,
}

/// The constants that are known: their names in small letters, and their numbers in the same order.
#[derive(Drop)]
pub struct Known {
    pub names: Names,
    pub numbers: Vec<u16>,
}

impl Known {
    /// No constant is known.
    pub fn new(alloc: Global) -> Known
        ensures { known_of result ≡ spec.nothing_known }
    {
        Known {
            names: Names::new(alloc),
            numbers: Vec::new(alloc),
        }
    }

    /// The number of the constant of a name, in small letters or in capitals.
    ///
    /// # Errors
    ///
    /// `AllocError` where memory is refused.
    pub fn number(&self, alloc: Global, name: &[u8]) -> Result<Option<u16>, AllocError>
        ensures { IfOk result (λ number. number ≡ spec.number_of (known_of self.now) name.now) }
    {
        let small = name.to_ascii_lowercase(alloc)?;
        match self.names.place(&small) {
            Some(place) => Ok(self.numbers.get(place).copied()),
            None => Ok(None),
        }
    }

    /// Notes a constant, whose name is in small letters. The first of a name counts.
    ///
    /// # Errors
    ///
    /// `AllocError` where memory is refused.
    pub fn add(&mut self, name: Vec<u8>, number: u16) -> Result<(), AllocError>
        ensures { OnOk result (known_of self.new
            ≡ spec.with_number (known_of self.old) name.items number) }
    {
        if self.names.has(&name) {
            return Ok(());
        }
        self.names.add(name)?;
        self.numbers.push(number)?;
        Ok(())
    }
}
