//! The text of a map: which story addresses belong to which routine and line.
#![tactic(auto)]

mod beginning;
mod fault;
mod reading;
mod row;
mod search;
mod writing;

pub use beginning::{hash_of, heading, word_in};
pub use fault::MapFault;
pub use reading::read_map;
pub use row::Row;
pub use search::row_at;
pub use writing::{put_row, put_rows};
