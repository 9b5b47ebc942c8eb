//! A game on a terminal's screen: the upper window above, the text below it.
#![tactic(auto)]

mod after;
mod asking;
mod drawn;
mod keyboard;
mod marked;
mod screen;
mod sequences;
mod shared;
mod shown;
mod size;
mod status;
mod upper;

pub use asking::Asking;
pub use drawn::{Drawn, OVER};
pub use keyboard::Keyboard;
pub use screen::Screen;
pub use shared::Shared;
pub use size::Size;
pub use upper::most_rows;
