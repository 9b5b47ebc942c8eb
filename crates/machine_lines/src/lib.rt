//! A line that a running story waits for, and its words: the tests of its buffers, and what is
//! written to them.
#![tactic(auto)]

mod bytes;
mod line;
mod parse;

pub use bytes::{fill, fill_counted};
pub use line::{give_line, lower_case, test_parse_buffer, test_text_buffer, wait};
pub use parse::separators;
