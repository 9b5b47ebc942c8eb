//! Directives: their trees, and the parser that reads one.
#![tactic(auto)]

mod arrays;
mod directives;
mod memory;
mod names;
mod nested;
mod objects;
mod parts;
mod routines;
mod texts;
mod tree;
mod weight;

pub use directives::directive;
pub use nested::statements;
pub use texts::abbreviate;
pub use tree::{Array, ArrayKind, ArrayValue, Directive, Object, Property, Routine, Text};
pub use weight::weight_of;
