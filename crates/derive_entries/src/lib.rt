//! Arrays of an extended source as values, and entries of what is no array's name.
#![tactic(auto)]

mod arrays;
mod entries;
mod operands;
mod statements;

pub use arrays::{add_in_room, arrays_of, is_arrow, number_at};
pub use entries::entered;
pub use statements::places_of;
