//! What the opcodes do that the Standard has and the profile has not, over the primitives of a
//! running story.
#![tactic(auto)]

mod beginning;
mod dice;
mod flow;
mod reads;
mod screen;
mod shifts;
mod streams;
mod unicode;
mod zscii;

pub use beginning::restart;
pub use dice::random;
pub use flow::{catch, throw};
pub use reads::begin_read;
pub use screen::{Cursor, cursor_of, font_of, get_cursor, indent_of};
pub use shifts::{shifted, shifted_with_sign};
pub use streams::{cut_to_heard, heard_length, output_stream};
pub use unicode::{abilities, print_unicode};
