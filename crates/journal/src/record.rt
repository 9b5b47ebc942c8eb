//! What a turn overwrote, and the swaps that take a turn back and do it again.

ghost use Rattle.std.specs.Prelude.{◌≡◌, ◌+◌, ◌*◌, ◌^◌, ◌<◌, ◌≤◌, ℕ, length};
ghost use Rattle.std.specs.List.{All};
ghost use Rattle.journal.specs.Swap.{back, forward};
ghost use Rattle.journal.specs.Pages.{IsPaged, cells_of, entries_of, packed_len, page_entries, page_len, page_unpacked, whole_page, word_pages, words_of};
ghost use Rattle.journal.specs.Stores.{FitsIn, GoesBack, GoesForward, swapped};

use crate::cells::Cells;
use crate::packing::{PAGE, WORD_PAGES, pack, packed_size, unpack};
use crate::page_list::PageList;
use std::marker::Model;

/// What a turn overwrote: whole pages of a store, as they were when the turn began.
/// `swap_back` takes the turn back, and `swap_forward` then does it again.
#[derive(Drop)]
pub struct Record {
    /// How many cells the store has that it was made of.
    len: usize,

    /// The pages, in the order in which they were first written. No page stands twice.
    pages: PageList,

    /// The pages' values, one page behind the other: of a page of bytes a byte for each cell, of
    /// any other two, the low one first.
    packed: Vec<u8>,
}

impl Model for Record {
    ghost use Rattle.std.specs.Prelude.{List, ℕ};
    ghost use Rattle.journal.specs.Pages.{IsPaged, entries_of};

    ghost Value = { List (ℕ × ℕ) };

    ghost view = { λ r. entries_of r.len r.pages r.packed.items };

    ghost invariant = { λ r. IsPaged r.len r.pages r.packed.items };
}

impl Record {
    /// A record of these pages of a store of `len` cells, with their values.
    pub(crate) fn of(len: usize, pages: PageList, packed: Vec<u8>) -> Record
        requires { IsPaged len pages packed.items }
        ensures { result ≡ entries_of len pages packed.items }
    {
        Record { len, pages, packed }
    }

    /// How many cells it holds the values of: 64 for each page that the turn wrote to, and fewer
    /// for a short last page. It is 0 for a turn with no write.
    pub fn cells(&self) -> usize
        ensures { result ≡ length self.now }
    {
        cell_count(self.len, self.pages.as_slice())
    }
}

/// Takes a turn back: exchanges the turn's values with the store's, from the last to the first. The
/// turn's record then holds what the store held, so that `swap_forward` undoes this. It takes no
/// memory and always succeeds.
pub fn swap_back<C: Cells>(store: &mut C, turn: &mut Record)
    requires { FitsIn C.Cells store.old turn.old }
    ensures cells { GoesBack C.Cells store.old store.new turn.old }
    ensures record { turn.new ≡ (back (C.cells store.old) turn.old).entries }
    ensures fits { FitsIn C.Cells store.new turn.new }
    ensures inverse { forward (C.cells store.new) turn.new ≡ swapped C.Cells store.old turn.old }
    ensures length { length (C.cells store.new) ≡ length (C.cells store.old) }
    ensures bounds { C.bounds store.new ≡ C.bounds store.old }
    ensures fixed { C.fixed store.new ≡ C.fixed store.old }
{
    go_back(store, turn.len, turn.pages.as_slice(), &mut turn.packed);
}

/// Does a turn again that was taken back: exchanges the turn's values with the store's, from the
/// first to the last. The turn's record then holds what the store held, so that `swap_back` undoes
/// this. It takes no memory and always succeeds.
pub fn swap_forward<C: Cells>(store: &mut C, turn: &mut Record)
    requires { FitsIn C.Cells store.old turn.old }
    ensures cells { GoesForward C.Cells store.old store.new turn.old }
    ensures record { turn.new ≡ (forward (C.cells store.old) turn.old).entries }
    ensures fits { FitsIn C.Cells store.new turn.new }
    ensures inverse { back (C.cells store.new) turn.new ≡ swapped C.Cells store.old turn.old }
    ensures length { length (C.cells store.new) ≡ length (C.cells store.old) }
    ensures bounds { C.bounds store.new ≡ C.bounds store.old }
    ensures fixed { C.fixed store.new ≡ C.fixed store.old }
{
    go_forward(store, turn.len, turn.pages.as_slice(), &mut turn.packed);
}

/// How many cells pages have, in a store of `len` cells.
fn cell_count(len: usize, pages: &[u32]) -> usize
    requires named { All (λ p. p * whole_page < len) pages.now }
    requires within { length (cells_of len pages.now) ≤ len }
    ensures { result ≡ length (cells_of len pages.now) }
{
    let mut count = 0;
    for slot in 0..pages.len() {
        count += page_size(len, pages[slot] as usize);
    }
    count
}

/// How many cells a page has, in a store of `len` cells.
pub(crate) fn page_size(len: usize, page: usize) -> usize
    requires { page * whole_page < len }
    ensures result { result ≡ page_len len page }
    ensures within { page * whole_page + result ≤ len }
    ensures page { result ≤ whole_page }
{
    let left = len - page * PAGE;
    if left < PAGE { left } else { PAGE }
}

/// The cell at an offset in a page. The remainder is the offset itself: by it the compiler sees
/// that cells which differ in the offset alone are of one page, so that what a store asks of the
/// page is asked once for all of them.
#[inline(always)]
pub(crate) fn cell_of(page: usize, offset: usize) -> usize
    requires offset { offset < whole_page }
    requires within { page * whole_page + offset < 2 ^ 64 }
    ensures { result ≡ page * whole_page + offset }
{
    page * PAGE + offset % PAGE
}

/// Exchanges the values of a page of bytes with those of its first cells, all at once. No cell of a
/// page stands twice, so that it is the same from the last to the first as from the first to the
/// last.
#[inline(always)]
fn exchange_bytes<C: Cells>(store: &mut C, page: usize, values: &mut [u8])
    requires bytes { word_pages ≤ page }
    requires page { length values.old ≤ whole_page }
    requires within { page * whole_page + length values.old < 2 ^ 64 }
    requires cells { page * whole_page + length values.old ≤ length (C.cells store.old) }
    requires fits { FitsIn C.Cells store.old (page_entries page values.old) }
    ensures back { GoesBack C.Cells store.old store.new (page_entries page values.old) }
    ensures back_entries { page_entries page values.new
        ≡ (back (C.cells store.old) (page_entries page values.old)).entries }
    ensures forward { GoesForward C.Cells store.old store.new (page_entries page values.old) }
    ensures forward_entries { page_entries page values.new
        ≡ (forward (C.cells store.old) (page_entries page values.old)).entries }
    ensures size { length values.new ≡ length values.old }
    ensures fits { FitsIn C.Cells store.new (page_entries page values.new) }
    ensures length { length (C.cells store.new) ≡ length (C.cells store.old) }
    ensures bounds { C.bounds store.new ≡ C.bounds store.old }
    ensures fixed { C.fixed store.new ≡ C.fixed store.old }
{
    store.exchange_bytes(page, values);
}

/// Exchanges the values of a page of words with those of its first cells, all at once: so they are
/// unpacked, and packed again.
#[inline(always)]
fn exchange_words<C: Cells>(store: &mut C, page: usize, size: usize, packed: &mut [u8])
    requires words { page < word_pages }
    requires packed { length packed.old ≡ size * 2 }
    requires page { size ≤ whole_page }
    requires within { page * whole_page + size < 2 ^ 64 }
    requires cells { page * whole_page + size ≤ length (C.cells store.old) }
    requires fits { FitsIn C.Cells store.old (page_entries page (words_of size packed.old)) }
    ensures back { GoesBack C.Cells store.old store.new
        (page_entries page (words_of size packed.old)) }
    ensures back_entries { page_entries page (words_of size packed.new)
        ≡ (back (C.cells store.old) (page_entries page (words_of size packed.old))).entries }
    ensures forward { GoesForward C.Cells store.old store.new
        (page_entries page (words_of size packed.old)) }
    ensures forward_entries { page_entries page (words_of size packed.new)
        ≡ (forward (C.cells store.old) (page_entries page (words_of size packed.old))).entries }
    ensures size { length packed.new ≡ length packed.old }
    ensures fits { FitsIn C.Cells store.new (page_entries page (words_of size packed.new)) }
    ensures length { length (C.cells store.new) ≡ length (C.cells store.old) }
    ensures bounds { C.bounds store.new ≡ C.bounds store.old }
    ensures fixed { C.fixed store.new ≡ C.fixed store.old }
{
    let mut words = [0; PAGE];
    unpack(packed, size, &mut words);
    store.exchange_words(page, &mut words[..size]);
    pack(&words, size, packed);
}

/// Exchanges the values of a page, as a record holds them, with those of its first cells.
#[inline(always)]
fn exchange_page<C: Cells>(store: &mut C, page: usize, size: usize, packed: &mut [u8])
    requires page { size ≤ whole_page }
    requires packed { length packed.old ≡ packed_len page size }
    requires within { page * whole_page + size < 2 ^ 64 }
    requires cells { page * whole_page + size ≤ length (C.cells store.old) }
    requires fits { FitsIn C.Cells store.old
        (page_entries page (page_unpacked page size packed.old)) }
    ensures back { GoesBack C.Cells store.old store.new
        (page_entries page (page_unpacked page size packed.old)) }
    ensures back_entries { page_entries page (page_unpacked page size packed.new) ≡ (back
        (C.cells store.old) (page_entries page (page_unpacked page size packed.old))).entries }
    ensures forward { GoesForward C.Cells store.old store.new
        (page_entries page (page_unpacked page size packed.old)) }
    ensures forward_entries { page_entries page (page_unpacked page size packed.new) ≡ (forward
        (C.cells store.old) (page_entries page (page_unpacked page size packed.old))).entries }
    ensures size { length packed.new ≡ length packed.old }
    ensures fits { FitsIn C.Cells store.new
        (page_entries page (page_unpacked page size packed.new)) }
    ensures length { length (C.cells store.new) ≡ length (C.cells store.old) }
    ensures bounds { C.bounds store.new ≡ C.bounds store.old }
    ensures fixed { C.fixed store.new ≡ C.fixed store.old }
{
    if page < WORD_PAGES {
        exchange_words(store, page, size, packed);
    } else {
        exchange_bytes(store, page, packed);
    }
}

/// `swap_back` on the parts of a record.
pub(crate) fn go_back<C: Cells>(store: &mut C, len: usize, pages: &[u32], packed: &mut Vec<u8>)
    requires paged { IsPaged len pages.now packed.old.items }
    requires fits { FitsIn C.Cells store.old (entries_of len pages.now packed.old.items) }
    ensures cells { GoesBack C.Cells store.old store.new
        (entries_of len pages.now packed.old.items) }
    ensures entries { entries_of len pages.now packed.new.items
        ≡ (back (C.cells store.old) (entries_of len pages.now packed.old.items)).entries }
    ensures paged { IsPaged len pages.now packed.new.items }
    ensures fits { FitsIn C.Cells store.new (entries_of len pages.now packed.new.items) }
    ensures length { length (C.cells store.new) ≡ length (C.cells store.old) }
    ensures bounds { C.bounds store.new ≡ C.bounds store.old }
    ensures fixed { C.fixed store.new ≡ C.fixed store.old }
{
    let mut at = packed.len();
    let mut slot = pages.len();
    'pages: while slot > 0 {
        slot -= 1;
        let page = pages[slot] as usize;
        let size = page_size(len, page);
        let width = packed_size(page, size);
        at -= width;
        exchange_page(store, page, size, &mut packed[at..at + width]);
    }
}

/// `swap_forward` on the parts of a record.
fn go_forward<C: Cells>(store: &mut C, len: usize, pages: &[u32], packed: &mut Vec<u8>)
    requires paged { IsPaged len pages.now packed.old.items }
    requires fits { FitsIn C.Cells store.old (entries_of len pages.now packed.old.items) }
    ensures cells { GoesForward C.Cells store.old store.new
        (entries_of len pages.now packed.old.items) }
    ensures entries { entries_of len pages.now packed.new.items
        ≡ (forward (C.cells store.old) (entries_of len pages.now packed.old.items)).entries }
    ensures paged { IsPaged len pages.now packed.new.items }
    ensures fits { FitsIn C.Cells store.new (entries_of len pages.now packed.new.items) }
    ensures length { length (C.cells store.new) ≡ length (C.cells store.old) }
    ensures bounds { C.bounds store.new ≡ C.bounds store.old }
    ensures fixed { C.fixed store.new ≡ C.fixed store.old }
{
    let mut at = 0;
    'pages: for slot in 0..pages.len() {
        let page = pages[slot] as usize;
        let size = page_size(len, page);
        let width = packed_size(page, size);
        exchange_page(store, page, size, &mut packed[at..at + width]);
        at += width;
    }
}
