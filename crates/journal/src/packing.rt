//! How a record holds the values of a page: a byte for each cell of a page of bytes, and two for
//! each cell of any other page.

ghost use Rattle.std.specs.Prelude.{◌≡◌, ℕ, ◌*◌, ◌+◌, ◌<◌, ◌≤◌, length, slice_index, take};
ghost use Rattle.journal.specs.Pages.{packed_len, page_values, whole_page, word_at, word_pages};
ghost use Rattle.journal.specs.Stores.{IsPageWithin};

use crate::cells::Cells;
use crate::record::cell_of;

/// How many cells a whole page has. Page n of a store is its cells 64n to 64n + 63, as far as they
/// exist.
pub const PAGE: usize = 64;

/// How many pages of a store may hold words. In all pages behind them each cell holds a byte.
pub const WORD_PAGES: usize = 1_134;

/// How many bytes a record holds for a page at most.
pub(crate) const PAGE_BYTES: usize = 2 * PAGE;

/// How many bytes a record holds for a page of which the store has so many cells.
#[inline(always)]
pub(crate) fn packed_size(page: usize, size: usize) -> usize
    requires { size ≤ whole_page }
    ensures { result ≡ packed_len page size }
{
    if page < WORD_PAGES { 2 * size } else { size }
}

/// Writes the words of the first cells of a page to the front of an array, two bytes for each. The
/// loop ends by `!=`: where the compiler knows that the offsets are below `PAGE`, it drops the
/// remainder in `cell_of` before it has used it.
#[inline(always)]
pub(crate) fn read_words<C: Cells>(store: &C, page: usize, count: usize, row: &mut [u8; 2 * PAGE])
    requires cells { page * whole_page + count ≤ length (C.cells store.now) }
    requires page { count ≤ whole_page }
    ensures read { (k : ℕ) → k < count
        → word_at row.new k ≡ slice_index (C.cells store.now) (page * whole_page + k) }
    ensures within { IsPageWithin C.Cells store.now page count }
{
    let _len = store.len();
    let mut offset = 0;
    'offsets: while offset != count {
        let word = store.get(cell_of(page, offset));
        row[2 * offset] = (word % 256) as u8;
        row[2 * offset + 1] = (word / 256) as u8;
        offset += 1;
    }
}

/// Writes the first cells of a page of bytes to the front of an array. The loop ends by `!=`: see
/// `read_words`.
#[inline(always)]
pub(crate) fn read_bytes<C: Cells>(store: &C, page: usize, count: usize, row: &mut [u8; PAGE])
    requires bytes { word_pages ≤ page }
    requires cells { page * whole_page + count ≤ length (C.cells store.now) }
    requires page { count ≤ whole_page }
    ensures read { take count row.new ≡ page_values (C.cells store.now) page count }
    ensures within { IsPageWithin C.Cells store.now page count }
{
    let _len = store.len();
    let mut offset = 0;
    'offsets: while offset != count {
        row[offset] = store.get(cell_of(page, offset)) as u8;
        offset += 1;
    }
}

/// The word that two bytes stand for. They are a slice of their own, so that the compiler sees that
/// they lie one behind the other, and reads both at once.
#[inline(always)]
fn word_in(pair: &[u8]) -> u16
    requires { length pair.now ≡ 2 }
    ensures { result ≡ word_at pair.now 0 }
{
    pair[0] as u16 + pair[1] as u16 * 256
}

/// Writes the first words that bytes stand for to the front of an array. What is after them stays.
#[inline(always)]
pub(crate) fn unpack(packed: &[u8], count: usize, words: &mut [u16; PAGE])
    requires packed { length packed.now ≡ count * 2 }
    requires page { count ≤ whole_page }
    ensures front { (k : ℕ) → k < count → slice_index words.new k ≡ word_at packed.now k }
    ensures after { (k : ℕ) → count ≤ k → slice_index words.new k ≡ slice_index words.old k }
{
    let mut offset = 0;
    'offsets: while offset != count {
        let at = 2 * offset;
        words[offset] = word_in(&packed[at..at + 2]);
        offset += 1;
    }
}

/// Writes the bytes that stand for the first words of an array.
#[inline(always)]
pub(crate) fn pack(words: &[u16; PAGE], count: usize, packed: &mut [u8])
    requires packed { length packed.old ≡ count * 2 }
    requires page { count ≤ whole_page }
    ensures { (k : ℕ) → k < count → word_at packed.new k ≡ slice_index words.now k }
{
    let mut offset = 0;
    'offsets: while offset != count {
        let word = words[offset];
        packed[2 * offset] = (word % 256) as u8;
        packed[2 * offset + 1] = (word / 256) as u8;
        offset += 1;
    }
}
