//! Which pages a turn keeps, a flag for each.

ghost use Rattle.std.specs.Prelude.{◌≡◌, ℕ, ◌<◌, false, length, slice_set, slice_index_or, OnOk};
ghost use Rattle.journal.specs.Pages.{IsMarkedAs};

use std::alloc::{AllocError, Global};
use std::marker::Model;

/// For how many pages flags are in place: in a store of the Z-machine those of frames, of the stack
/// and of dynamic memory, and of what an address of a global may name behind it. Where the compiler
/// knows that a page is one of them, it need not ask for a length.
const IN_PLACE: usize = 2_176;

/// Of each page, whether it is kept. Pages behind the last flag are not kept.
#[derive(Drop)]
pub struct PageFlags {
    /// The flags of the first pages.
    first: [bool; IN_PLACE],

    /// Those of the pages behind them. They never get fewer.
    more: Vec<bool>,
}

impl Model for PageFlags {
    ghost use Rattle.std.specs.Prelude.{◌≡◌, ◌++◌, Bool, List, length};
    ghost use Rattle.journal.specs.Pages.{pages_in_place};

    ghost Value = { List Bool };

    ghost view = { λ f. f.first ++ f.more.items };

    ghost invariant = { λ f. length f.first ≡ pages_in_place };
}

impl PageFlags {
    /// Flags of which none is set. It takes no memory.
    pub fn new(alloc: Global) -> PageFlags
        ensures { (p : ℕ) → slice_index_or result p false ≡ false }
    {
        PageFlags {
            first: [false; IN_PLACE],
            more: Vec::new(alloc),
        }
    }

    /// Whether a page's flag is set.
    #[inline(always)]
    pub fn is_set(&self, page: usize) -> bool
        ensures { result ≡ slice_index_or self.now page false }
    {
        if page < IN_PLACE {
            return self.first[page];
        }
        page - IN_PLACE < self.more.len() && self.more[page - IN_PLACE]
    }

    /// Makes room for the flag of a page among so many, all flags being as they were.
    ///
    /// # Errors
    ///
    /// Memory was refused: nothing has changed.
    pub(crate) fn cover(&mut self, page: usize, count: usize) -> Result<(), AllocError>
        requires { page < count }
        ensures same { IsMarkedAs self.old self.new }
        ensures room { OnOk result (page < length self.new) }
    {
        if IN_PLACE <= page && self.more.len() <= page - IN_PLACE {
            self.more.resize(count - IN_PLACE, false)?;
        }
        Ok(())
    }

    /// Sets a page's flag, or clears it.
    pub(crate) fn set(&mut self, page: usize, kept: bool)
        requires { page < length self.old }
        ensures { self.new ≡ slice_set self.old page kept }
    {
        if page < IN_PLACE {
            self.first[page] = kept;
        } else {
            self.more[page - IN_PLACE] = kept;
        }
    }
}
