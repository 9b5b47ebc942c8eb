//! What a story file says and holds, found without running it.
#![tactic(auto)]

mod beginning;
mod columns;
mod contents;
mod edition;
mod facts;
mod measures;
mod misplaced;
mod mode;
mod reach;
mod refusal;
mod successors;
mod survey;
mod sweep;
mod tables;
mod unplayed;
mod verdict;

pub use beginning::Beginning;
pub use columns::Columns;
pub use contents::Contents;
pub use edition::Edition;
pub use facts::{Facts, Serial};
pub use measures::Measures;
pub use misplaced::{Misplaced, Table, first_misplaced};
pub use mode::Mode;
pub use refusal::{Refusal, older_refusal_at, profile_refusal_at, standard_refusal_at};
pub use survey::{Brief, Survey};
pub use tables::{ObjectTable, most_abbreviations, object_table};
pub use unplayed::Unplayed;
pub use verdict::Verdict;
