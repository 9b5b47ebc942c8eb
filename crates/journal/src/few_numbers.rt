//! A few numbers in place.

ghost use Rattle.std.specs.Prelude.{◌≡◌, ◌<◌, ◌≤◌, ◌++◌, ◌∷◌, [], length};
ghost use Rattle.journal.specs.Pages.{numbers_in_place};

use std::marker::Model;

/// How many numbers of pages stand in place: a turn that reads a line and prints keeps four pages,
/// and one that changes a global variable besides five.
pub(crate) const IN_PLACE: usize = 6;

/// At most six numbers, in order. They take no memory.
#[derive(Drop)]
pub(crate) struct FewNumbers {
    /// The numbers, and what fills the places behind them.
    places: [u32; IN_PLACE],

    count: usize,
}

impl Model for FewNumbers {
    ghost use Rattle.std.specs.Prelude.{◌≡◌, ◌≤◌, ℕ, List, length, take};
    ghost use Rattle.journal.specs.Pages.{numbers_in_place};

    ghost Value = { List ℕ };

    ghost view = { λ f. take f.count f.places };

    ghost invariant = { λ f. (f.count ≤ numbers_in_place) × (length f.places ≡ numbers_in_place) };
}

impl FewNumbers {
    #[inline]
    pub(crate) fn none() -> FewNumbers
        ensures { result ≡ [] }
    {
        FewNumbers {
            places: [0; IN_PLACE],
            count: 0,
        }
    }

    #[inline]
    pub(crate) fn len(&self) -> usize
        ensures count { result ≡ length self.now }
        ensures few { result ≤ numbers_in_place }
    {
        self.count
    }

    #[inline]
    pub(crate) fn as_slice(&self) -> &[u32]
        ensures { result.now ≡ self.now }
    {
        &self.places[..self.count]
    }

    /// Adds a number behind the others.
    #[inline]
    pub(crate) fn push(&mut self, number: u32)
        requires { length self.old < numbers_in_place }
        ensures { self.new ≡ self.old ++ number ∷ [] }
    {
        self.places[self.count] = number;
        self.count += 1;
    }

    #[inline]
    pub(crate) fn clear(&mut self)
        ensures { self.new ≡ [] }
    {
        self.count = 0;
    }
}
