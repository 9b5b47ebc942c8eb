//! Where a text has the characters of the abbreviations that it named so far.

ghost use Rattle.std.specs.Prelude.{◌≡◌, ◌==◌, ◌<◌, ℕ, Some, None, if◌then◌else◌};
ghost use Rattle.ztext.specs.Expansions.{place_of};
ghost use Rattle.ztext.specs.Bytes.{most_abbreviations};

use crate::bytes::MOST_ABBREVIATIONS;

/// Where a text has the characters of an abbreviation, as far as it had room for them.
#[derive(Clone, Copy)]
pub struct Expansion {
    /// The place of the first in the text.
    pub start: usize,
    /// How many the text has.
    pub length: usize,
}

/// Of each abbreviation, where a text has its characters, if it was named so far.
#[derive(Drop)]
pub struct Expansions {
    // apart from the places, since options of them would be half as long again, and are set up for
    // each text that names an abbreviation
    known: [bool; MOST_ABBREVIATIONS],
    places: [Expansion; MOST_ABBREVIATIONS],
}

impl Expansions {
    /// No abbreviation was named.
    pub fn none() -> Expansions
        ensures { (number : ℕ) → place_of result number ≡ None }
    {
        Expansions {
            known: [false; MOST_ABBREVIATIONS],
            places: [Expansion {
                start: 0,
                length: 0,
            }; MOST_ABBREVIATIONS],
        }
    }

    /// Where the text has the characters of an abbreviation, if it was named so far.
    pub fn find(&self, number: usize) -> Option<Expansion>
        requires { number < most_abbreviations }
        ensures { result ≡ place_of self.now number }
    {
        if self.known[number] {
            Some(self.places[number])
        } else {
            None
        }
    }

    /// Notes where the text has the characters of an abbreviation.
    pub fn note(&mut self, number: usize, place: Expansion)
        requires { number < most_abbreviations }
        ensures { (other : ℕ) → place_of self.new other
            ≡ (if other == number then Some place else place_of self.old other) }
    {
        self.known[number] = true;
        self.places[number] = place;
    }
}
