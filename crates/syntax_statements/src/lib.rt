//! Statements: their trees, and what reads those that contain no others and makes the others.
#![tactic(auto)]

mod conditions;
mod effects;
mod giving;
mod headings;
mod kinds;
mod objectloop;
mod part_tree;
pub mod parts;
mod printing;
mod simple;
mod tree;
mod values;

pub use conditions::enclosed_condition;
pub use effects::has_effect;
pub use giving::flags;
pub use headings::enclosed_heading;
pub use objectloop::enclosed_loop;
pub use part_tree::{Heading, Literal, Loop, PrintItem, Range};
pub use printing::items;
pub use tree::{SimpleStatement, Statement};
pub use values::{begins_case, begins_value, known_value, ranges};
