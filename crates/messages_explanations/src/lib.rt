//! What the compiler's faults and the player's answers mean, in full words.
#![tactic(auto)]

mod explanation;
mod limits_of_sources;
mod machine_faults;
mod program;
mod sessions;
mod stories;
mod tokens;
mod uses_of_names;

pub use crate::explanation::{Example, Explanation};
pub use crate::program::{Explanations, Program};
