//! A store of numbered cells whose writes are recorded, so that a turn of writes can be given up
//! while it lasts, and taken back and done again after it has ended.
#![tactic(auto)]

mod cells;
mod few_numbers;
mod overwrites;
mod packing;
mod page_flags;
mod page_list;
mod record;
mod recorded;

pub use cells::Cells;
pub use overwrites::Overwrites;
pub use packing::{PAGE, WORD_PAGES};
pub use page_flags::PageFlags;
pub use record::{Record, swap_back, swap_forward};
pub use recorded::{NoMemory, Recorded};
