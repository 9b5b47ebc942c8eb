//! What writes to a store in place.

ghost use Rattle.std.specs.Prelude.{◌≡◌, Bool, List};
ghost use Rattle.journal.specs.Pages.{WritesKept, is_flagged};

use crate::cells::Cells;
use crate::page_flags::PageFlags;

/// A run of writes to the cells of a store, straight to where they are: only to cells of pages that the
/// turn keeps, so that no write needs a record. `Recorded::lend` lends it the store.
pub trait Overwrites<C: Cells> {
    /// What the run asks of itself, the store and the flags of the kept pages when it begins.
    ghost asks: { Self → C → List Bool → Type 0 };

    /// What it does: from the run and the store as they were, with these flags, to what they are then.
    ghost does: { Self → C → List Bool → Self → C → Type 0 };

    /// Runs. A page whose flag is not set keeps its values.
    fn overwrite(&mut self, store: &mut C, kept: &PageFlags)
        requires { asks self.old store.old kept.now }
        ensures kept { WritesKept (is_flagged kept.now) (C.cells store.old) (C.cells store.new) }
        ensures bounds { C.bounds store.new ≡ C.bounds store.old }
        ensures fixed { C.fixed store.new ≡ C.fixed store.old }
        ensures does { does self.old store.old kept.now self.new store.new };
}
