//! The command line of the player.

mod arguments;
mod endings;
mod taking;
mod words;

pub use endings::extensions;
pub use taking::{Format, place_of, take_files, take_format};
pub use words::{Asked, Given, Words, words_of};
