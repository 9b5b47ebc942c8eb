//! Loading a file to play it by the whole Standard: its header, the characters of its ZSCII codes and
//! its own alphabets.
#![tactic(auto)]

mod loading;
mod options;
mod placing;
mod zscii;

pub use loading::{LoadedStory, is_played, length_unit, load};
pub use options::{Capabilities, StandardOptions};
pub use zscii::{characters_of, own_alphabets_of};
