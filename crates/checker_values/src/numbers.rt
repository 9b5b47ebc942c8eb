//! The numbers of dictionary words.

ghost use Rattle.std.specs.List.Sorted.{IsStrictlyIncreasing};

use crate::known::Known;
use crate::words::number_in;
use std::alloc::Global;

/// The keys of a source's dictionary words, each once and ascending, and where the dictionary
/// stands.
#[derive(Drop)]
pub struct Numbers {
    pub keys: Vec<u64>,
    pub dictionary: usize,
    ghost ascending: { IsStrictlyIncreasing keys.items },
}

impl Numbers {
    ghost use Rattle.std.specs.Prelude.{◌≡◌, []};
    ghost use Rattle.checker_values.specs.Keys.{value_of_known};
    ghost use Rattle.checker_values.specs.Scope.{number_at};

    /// No keys.
    pub fn none(alloc: Global) -> Numbers
        ensures { result.keys.items ≡ [] }
    {
        Numbers {
            keys: Vec::new(alloc),
            dictionary: 0,
        }
    }

    /// The number of a key: the address of its entry in the dictionary, and 0 where it has none.
    pub fn number(&self, key: u64) -> u16
        ensures { result ≡ number_at self.now key }
    {
        number_in(&self.keys, self.dictionary, key)
    }

    /// The value of what is known of it.
    pub fn value(&self, known: Known) -> u16
        ensures { result ≡ value_of_known (number_at self.now) known }
    {
        match known {
            Known::Number(number) => number,
            Known::Key(key) => self.number(key),
        }
    }
}
