//! What a store has to offer for its writes to be recorded.

ghost use Rattle.std.specs.Prelude.{◌≡◌, ℕ, ◌+◌, ◌*◌, ◌^◌, ◌<◌, ◌≤◌, List, length, slice_set, slice_index};
ghost use Rattle.journal.specs.Pages.{AreWithin, HoldsBytes, put_run, run_of, whole_page, word_pages};

/// A store of numbered cells. Each holds a number from 0 to a bound of its own, at most 65,535.
/// How many cells there are, and their bounds, stay the same under every write. Behind the first
/// `WORD_PAGES` pages each cell holds a byte, so that a page there is kept in half the room.
pub trait Cells {
    /// The values of the cells, in order.
    ghost cells: { Self → List ℕ };

    /// The greatest value that each cell may hold.
    ghost bounds: { Self → ℕ → ℕ };

    /// What the store holds beside its cells, which no write to a cell changes.
    ghost fixed: { Self → List ℕ };

    /// How many cells there are. They are numbered from 0.
    fn len(&self) -> usize
        ensures count { result ≡ length (cells self.now) }
        ensures short { result < 2 ^ 32 }
        ensures bytes { HoldsBytes (bounds self.now) };

    /// The greatest value that cell `i` may hold.
    fn bound(&self, i: usize) -> u16
        requires { i < length (cells self.now) }
        ensures { result ≡ bounds self.now i };

    /// The value of cell `i`.
    fn get(&self, i: usize) -> u16
        requires { i < length (cells self.now) }
        ensures value { result ≡ slice_index (cells self.now) i }
        ensures within { result ≤ bounds self.now i };

    /// Writes `v`, which is within the cell's bound, into cell `i`, and changes nothing else.
    fn put(&mut self, i: usize, v: u16)
        requires cell { i < length (cells self.old) }
        requires within { v ≤ bounds self.old i }
        ensures cells { cells self.new ≡ slice_set (cells self.old) i v }
        ensures bounds { bounds self.new ≡ bounds self.old }
        ensures fixed { fixed self.new ≡ fixed self.old };

    /// Exchanges values with the first cells of a page of bytes, as many as there are values, each
    /// within its cell's bound, and changes nothing else.
    fn exchange_bytes(&mut self, page: usize, values: &mut [u8])
        requires bytes { word_pages ≤ page }
        requires page { length values.old ≤ whole_page }
        requires short { page * whole_page + length values.old < 2 ^ 64 }
        requires cells { page * whole_page + length values.old ≤ length (cells self.old) }
        requires within { AreWithin (bounds self.old) (page * whole_page) values.old }
        ensures cells { cells self.new ≡ put_run (cells self.old) (page * whole_page) values.old }
        ensures values { values.new
            ≡ run_of (cells self.old) (page * whole_page) (length values.old) }
        ensures within { AreWithin (bounds self.old) (page * whole_page) values.new }
        ensures bounds { bounds self.new ≡ bounds self.old }
        ensures fixed { fixed self.new ≡ fixed self.old };

    /// Exchanges values with the first cells of a page that may hold words, as many as there are
    /// values, each within its cell's bound, and changes nothing else.
    fn exchange_words(&mut self, page: usize, values: &mut [u16])
        requires words { page < word_pages }
        requires page { length values.old ≤ whole_page }
        requires short { page * whole_page + length values.old < 2 ^ 64 }
        requires cells { page * whole_page + length values.old ≤ length (cells self.old) }
        requires within { AreWithin (bounds self.old) (page * whole_page) values.old }
        ensures cells { cells self.new ≡ put_run (cells self.old) (page * whole_page) values.old }
        ensures values { values.new
            ≡ run_of (cells self.old) (page * whole_page) (length values.old) }
        ensures within { AreWithin (bounds self.old) (page * whole_page) values.new }
        ensures bounds { bounds self.new ≡ bounds self.old }
        ensures fixed { fixed self.new ≡ fixed self.old };

    /// Tells the store of a place, of which it may remember what saves time when it is met again. What
    /// the store holds stays the same.
    fn learn(&mut self, _place: usize)
        ensures { self.new ≡ self.old }
    {}

    /// Tells the store of code at an address, in a routine of so many locals, which it may decode.
    /// What the store holds stays the same.
    fn learn_code(&mut self, _at: usize, _locals: u8)
        ensures { self.new ≡ self.old }
    {}

    /// Tells the store of a unit of decoded code that leads to code which it may decode. What the
    /// store holds stays the same.
    fn follow_code(&mut self, _unit: usize)
        ensures { self.new ≡ self.old }
    {}
}
