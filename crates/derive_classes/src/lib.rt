//! Classes of an extended source: what objects get of them.
#![tactic(auto)]

mod classes;
mod cutting;
mod directives;
mod heads;
mod merged;
mod parts;
mod pass;
mod properties;

pub use parts::{Mode, Row};
pub use pass::classed;
