//! Lines in stories of versions 1 to 4: `sread`, the line that is then given, and the dictionary, whose
//! keys have four bytes up to version 3.
#![tactic(auto)]

mod forms;
mod given;
mod keys;
mod locks;
mod search;
mod slots;
mod typed;
mod waiting;

pub use given::give_line;
pub use waiting::wait_for_line;
