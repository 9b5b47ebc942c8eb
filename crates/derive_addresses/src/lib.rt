//! Addresses of properties as values.
#![tactic(auto)]

mod addresses;
mod made;
mod objects;
mod places;
mod properties;
mod routines;
mod words;

pub use places::{Placed, placed_in, put_places_made, settled};
pub use routines::put_words_made;
pub use words::words_of;
