//! The files of a source as they were written, and where in them what is said of a compiled source is.
#![tactic(auto)]

mod asking;
mod files;
mod gathering;
mod lines;
mod paths;
mod placing;
mod sizes;

pub use asking::path_of;
pub use files::{FileLine, Files, Written};
pub use gathering::{Gathering, Untaken, Wanted, has_include};
pub use lines::{LineIn, line_in};
pub use placing::{Places, Told};
pub use sizes::{file_of_temporaries, in_plain_words};
