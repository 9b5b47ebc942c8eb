//! Story files: checked programs are laid out and written.
#![tactic(auto)]

mod below;
mod header;
mod high;
mod links;
mod objects;
mod packed;
mod words;
mod write;

pub use packed::greatest_length;
pub use write::{write_story, write_story_within};
