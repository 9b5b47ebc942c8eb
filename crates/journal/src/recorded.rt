//! A store whose writes are recorded by pages, turn by turn.

ghost use Rattle.std.specs.Prelude.{◌≡◌, ◌≢◌, ◌+◌, ◌*◌, ◌/◌, ◌^◌, ◌<◌, ◌≤◌, true, false, [], ◌∷◌, ◌++◌, map, length, take, AllPairs, Bool, List, slice_index, slice_set, OnOk, OnErr, IsOk};
ghost use Rattle.std.specs.Borrow.{sem, Lends};
ghost use Rattle.journal.specs.contracts.recorded.Recorded.{the_row};
ghost use Rattle.journal.specs.Recording.{IsNothingKept};
ghost use Rattle.journal.specs.Swap.{back, entry_cells, entry_values};
ghost use Rattle.journal.specs.Pages.{IsAdded, IsMarked, WritesKept, keeps, page_values, with_page, whole_page};
ghost use Rattle.journal.specs.Stores.{FitsIn, IsPageWithin, Writes, begun, kept_cells};

use crate::cells::Cells;
use crate::overwrites::Overwrites;
use crate::packing::{PAGE, PAGE_BYTES, WORD_PAGES, read_bytes, read_words};
use crate::page_flags::PageFlags;
use crate::page_list::PageList;
use crate::record::{Record, go_back, page_size};
use std::alloc::{AllocError, Global};
use std::marker::Model;
use std::mem;
use thiserror::Error;

/// There was no memory to keep one more page. `Recorded::put` has then given the turn up.
#[derive(Clone, Copy, Debug, PartialEq, Eq, Error)]
#[error("J1")]
pub struct NoMemory;

/// For how many bytes there is room when a turn keeps its first page: the values of four pages of
/// words, or of eight of bytes. Few turns keep less.
const FIRST_ROOM: usize = 4 * PAGE_BYTES;

/// A store whose writes are recorded, turn by turn. Before the first write of a turn to a page, the
/// whole page is kept as it was when the turn began. A turn is ended by `close`, which hands out
/// what was kept, or given up by `abandon`, which puts it back. The next turn begins at once.
#[derive(Drop)]
pub struct Recorded<C: Cells> {
    /// Of each page, whether it is kept. They come first, so that their address is that of the whole:
    /// a loop that tests them often needs no CPU register for it.
    flags: PageFlags,

    store: C,

    /// The kept pages, in the order in which they were first written.
    pages: PageList,

    /// The kept pages' values, one page behind the other, as a record holds them.
    packed: Vec<u8>,

    /// Where the vectors of the next turn come from.
    alloc: Global,
}

impl<C: Cells> Model for Recorded<C> {
    ghost use Rattle.std.specs.Prelude.{length};
    ghost use Rattle.journal.specs.Recording.{Recording, recording_code};
    ghost use Rattle.journal.specs.Swap.{back};
    ghost use Rattle.journal.specs.Pages.{IsHeld, entries_of};

    ghost Value = { Recording C };

    ghost coded = { recording_code C.code };

    ghost view = { λ r. record {
      store = r.store;
      beginning = (back (C.cells r.store)
          (entries_of (length (C.cells r.store)) r.pages r.packed.items)).cells;
      kept = r.pages;
    } };

    ghost invariant = { λ r. IsHeld (length (C.cells r.store)) (C.bounds r.store)
        r.flags r.pages r.packed.items };
}

impl<C: Cells> Recorded<C> {
    /// Records writes to a store from now on: the first turn begins, with nothing kept.
    /// It takes no memory.
    pub fn new(alloc: Global, store: C) -> Recorded<C>
        ensures { result ≡ begun C.Cells store }
    {
        Recorded {
            store,
            flags: PageFlags::new(alloc),
            pages: PageList::new(),
            packed: Vec::new(alloc),
            alloc,
        }
    }

    /// The store as it is now.
    pub fn store(&self) -> &C
        ensures { result.now ≡ self.now.store }
    {
        &self.store
    }

    /// Writes `v`, which is within the cell's bound, into cell `i`, and keeps the cell's page first
    /// if the turn has not kept it yet. A page that is kept takes no more memory.
    ///
    /// # Errors
    /// `NoMemory` if there is no memory to keep the page, and never where the page is kept already.
    /// The turn is then given up, as by `abandon`: its earlier writes are undone too.
    #[inline]
    pub fn put(&mut self, i: usize, v: u16) -> Result<(), NoMemory>
        requires cell { i < length (C.cells self.old.store) }
        requires within { v ≤ C.bounds self.old.store i }
        ensures cells { OnOk result (Writes C.Cells self.old.store self.new.store i v) }
        ensures kept { OnOk result (self.new.kept ≡ with_page self.old.kept (i / whole_page)) }
        ensures sure { keeps self.old.kept (i / whole_page) ≡ true → IsOk result }
        ensures beginning { OnOk result (self.new.beginning ≡ self.old.beginning) }
        ensures abandoned { OnErr result ((C.cells self.new.store ≡ self.old.beginning)
            × (self.new.beginning ≡ self.old.beginning) × IsNothingKept self.new) }
        ensures length { length (C.cells self.new.store) ≡ length (C.cells self.old.store) }
        ensures bounds { C.bounds self.new.store ≡ C.bounds self.old.store }
        ensures fixed { C.fixed self.new.store ≡ C.fixed self.old.store }
    {
        let page = i / PAGE;
        if !self.is_kept(page) && self.keep(page).is_err() {
            self.abandon();
            return Err(NoMemory);
        }
        self.store.put(i, v);
        Ok(())
    }

    /// Whether the turn keeps a page: `put` then takes no memory there. Page
    /// n has the cells from `PAGE` times n on.
    #[inline(always)]
    pub fn is_kept(&self, page: usize) -> bool
        ensures { result ≡ keeps self.now.kept page }
    {
        self.flags.is_set(page)
    }

    /// Lends the store to a run of writes that go only to cells of pages that the turn keeps. After it the
    /// turn is as if each of them had been a `put`. It takes no memory.
    #[inline(always)]
    pub fn lend<W: Overwrites<C>>(&mut self, run: &mut W)
        requires { (flags : List Bool) → IsMarked flags self.old.kept
            → W.asks run.old self.old.store flags }
        ensures does { (flags : List Bool) × IsMarked flags self.old.kept
            × W.does run.old self.old.store flags run.new self.new.store }
        ensures only { WritesKept (keeps self.old.kept) (C.cells self.old.store)
            (C.cells self.new.store) }
        ensures kept { self.new.kept ≡ self.old.kept }
        ensures beginning { self.new.beginning ≡ self.old.beginning }
        ensures bounds { C.bounds self.new.store ≡ C.bounds self.old.store }
        ensures fixed { C.fixed self.new.store ≡ C.fixed self.old.store }
    {
        run.overwrite(&mut self.store, &self.flags);
    }

    /// Tells the store of a place, of which it may remember what saves time when it is met again.
    /// Nothing is written and nothing kept.
    pub fn learn(&mut self, place: usize)
        ensures { self.new ≡ self.old }
    {
        self.store.learn(place);
    }

    /// Tells the store of code at an address, in a routine of so many locals, which it may decode.
    /// Nothing is written and nothing kept.
    pub fn learn_code(&mut self, at: usize, locals: u8)
        ensures { self.new ≡ self.old }
    {
        self.store.learn_code(at, locals);
    }

    /// Tells the store of a unit of decoded code that leads to code which it may decode. Nothing is
    /// written and nothing kept.
    pub fn follow_code(&mut self, unit: usize)
        ensures { self.new ≡ self.old }
    {
        self.store.follow_code(unit);
    }

    /// Keeps a page that is not kept yet. At `Err` nothing has changed.
    #[cold]
    #[inline(never)]
    fn keep(&mut self, page: usize) -> Result<(), AllocError>
        requires page { page * whole_page < length (C.cells self.old.store) }
        requires new { keeps self.old.kept page ≡ false }
        ensures ok { OnOk result (self.new ≡ record {
          store = self.old.store;
          beginning = self.old.beginning;
          kept = self.old.kept ++ page ∷ [];
        }) }
        ensures err { OnErr result (self.new ≡ self.old) }
    {
        let len = self.store.len();
        self.flags.cover(page, len / PAGE + 1)?;
        let at = self.packed.len();
        copy_page(&self.store, page, page_size(len, page), &mut self.packed)?;
        if self.pages.push(self.alloc, page as u32).is_err() {
            self.packed.truncate(at);
            return Err(AllocError);
        }
        self.flags.set(page, true);
        Ok(())
    }

    /// Ends the turn, and hands out what it overwrote. The next turn begins, with nothing kept.
    /// It takes no memory, and time by the pages that are kept.
    #[inline]
    pub fn close(&mut self) -> Record
        ensures back { (back (C.cells self.old.store) result).cells ≡ self.old.beginning }
        ensures fits { FitsIn C.Cells self.old.store result }
        ensures cells { entry_cells result ≡ kept_cells C.Cells self.old }
        ensures values { entry_values result
            ≡ map (slice_index self.old.beginning) (kept_cells C.Cells self.old) }
        ensures distinct { AllPairs (λ a b. a ≢ b) (entry_cells result) }
        ensures kept { length result ≡ length (kept_cells C.Cells self.old) }
        ensures bound { length result ≤ length (C.cells self.old.store) }
        ensures new { self.new ≡ begun C.Cells self.old.store }
    {
        let alloc = self.alloc;
        let len = self.store.len();
        unmark(&mut self.flags, self.pages.as_slice());
        let pages = mem::replace(&mut self.pages, PageList::new());
        let packed = mem::replace(&mut self.packed, Vec::new(alloc));
        Record::of(len, pages, packed)
    }

    /// Gives the turn up: the store is again as it was when the turn began, and nothing is kept.
    /// It takes no memory, and time by the pages that were kept.
    #[cold]
    #[inline(never)]
    pub fn abandon(&mut self)
        ensures cells { C.cells self.new.store ≡ self.old.beginning }
        ensures beginning { self.new.beginning ≡ self.old.beginning }
        ensures kept { IsNothingKept self.new }
        ensures length { length (C.cells self.new.store) ≡ length (C.cells self.old.store) }
        ensures bounds { C.bounds self.new.store ≡ C.bounds self.old.store }
        ensures fixed { C.fixed self.new.store ≡ C.fixed self.old.store }
    {
        let len = self.store.len();
        let pages = self.pages.as_slice();
        go_back(&mut self.store, len, pages, &mut self.packed);
        unmark(&mut self.flags, pages);
        self.pages.clear();
        self.packed.clear();
    }

    /// The store itself, for writes that are not recorded, as those of a swap. It asks that nothing
    /// is kept. Once the borrow is over, a turn begins at what the store is then.
    pub fn store_mut(&mut self) -> &mut C
        requires { IsNothingKept self.old }
        ensures* writes_back { sem 𝓛 (Lends (the_row C.row C.Cells) C.row self.entry result
            (λ w. begun C.Cells w)) }
        ensures value { result.now ≡ self.old.store }
    {
        &mut self.store
    }
}

/// Appends the values of the first cells of a page, as a record holds them. At `Err` nothing is
/// appended. All pages but the last are whole: of these the compiler knows how much it copies, and
/// needs no call for it.
fn copy_page<C: Cells>(
    store: &C,
    page: usize,
    count: usize,
    packed: &mut Vec<u8>,
) -> Result<(), AllocError>
    requires cells { page * whole_page + count ≤ length (C.cells store.now) }
    requires page { count ≤ whole_page }
    ensures ok { OnOk result (IsAdded page packed.old.items packed.new.items
        (page_values (C.cells store.now) page count)) }
    ensures within { OnOk result (IsPageWithin C.Cells store.now page count) }
    ensures err { OnErr result (packed.new.items ≡ packed.old.items) }
{
    if packed.is_empty() {
        packed.reserve(FIRST_ROOM)?;
    }
    if count == PAGE {
        copy_cells(store, page, PAGE, packed)
    } else {
        copy_cells(store, page, count, packed)
    }
}

/// The same, with no room beyond what is needed. The values are gathered in an array first, since a
/// loop that writes to a vector behind a reference takes twice the time.
#[inline(always)]
fn copy_cells<C: Cells>(
    store: &C,
    page: usize,
    count: usize,
    packed: &mut Vec<u8>,
) -> Result<(), AllocError>
    requires cells { page * whole_page + count ≤ length (C.cells store.now) }
    requires page { count ≤ whole_page }
    ensures ok { OnOk result (IsAdded page packed.old.items packed.new.items
        (page_values (C.cells store.now) page count)) }
    ensures within { OnOk result (IsPageWithin C.Cells store.now page count) }
    ensures err { OnErr result (packed.new.items ≡ packed.old.items) }
{
    if page < WORD_PAGES {
        let mut row = [0; 2 * PAGE];
        read_words(store, page, count, &mut row);
        packed.extend_from_slice(&row[..2 * count])
    } else {
        let mut row = [0; PAGE];
        read_bytes(store, page, count, &mut row);
        packed.extend_from_slice(&row[..count])
    }
}

/// Clears the flags of the pages, which are all that are set.
fn unmark(flags: &mut PageFlags, pages: &[u32])
    requires { IsMarked flags.old pages.now }
    ensures { IsMarked flags.new [] }
{
    for i in 0..pages.len() {
        flags.set(pages[i] as usize, false);
    }
}
