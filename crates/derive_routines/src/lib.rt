//! Routines that are made at the end of a derived file.
#![tactic(auto)]

mod arities;
mod made;
mod search;
mod texts;

pub use arities::arities_of;
pub use made::{Asked, put_made};
pub use search::{Arm, RoutineName, Search, put_search};
pub use texts::put;
