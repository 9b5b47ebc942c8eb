//! Which line the code of a story is of: where the code of each statement begins.
#![tactic(auto)]

mod counts;
mod cursor;
mod headings;
mod mark;
mod passing;
mod program;
mod routine;
mod silence;
mod simple;
mod statements;
mod tests_of_cases;

pub use program::map_of;
