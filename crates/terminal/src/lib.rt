//! What both programs take from the command line and write on a terminal.
#![tactic(auto)]

mod breaking;
mod defaults;
pub mod inform;
mod keys;
mod marks;
mod one_line;
mod parts;
mod passing;
pub mod play;
mod told;
mod wrapped;

pub use breaking::break_lines;
pub use keys::without_keys;
pub use marks::mark_length;
pub use one_line::{Lines, OneLine};
pub use passing::pass_on;
pub use told::Told;
pub use wrapped::Wrapped;
