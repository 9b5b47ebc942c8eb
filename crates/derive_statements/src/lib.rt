//! Statements and expressions of an extended source: what their forms stand for.
#![tactic(auto)]

mod file_names;
mod lists;
mod loops;
mod own_main;
mod prints;
mod quiet;

pub use file_names::{FileNames, names_of};
pub use lists::{
    at_statement, deeper, ends_statement, introduced, is_before_header, is_in_header, listed,
};
pub use loops::looped;
pub use own_main::{has_locals, main_apart};
pub use prints::printed;
