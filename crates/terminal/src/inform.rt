//! The command line of the compiler.

mod arguments;
mod words;

pub use arguments::command;
pub use words::{Asked, Words, folders_of, words_of};
