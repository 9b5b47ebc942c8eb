//! The picture of the upper window: what a story draws there during a turn.
#![tactic(auto)]

mod characters;
mod lines;
mod marks;
mod picture;
mod redrawing;
mod styles;
mod texts;

pub use lines::{Line, Shown, line_of, shown_in};
pub use marks::put_marked;
pub use picture::Picture;
pub use styles::Styles;
