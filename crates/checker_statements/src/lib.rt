//! The rules of statements and of their parts, and what these resolve to.
#![tactic(auto)]

mod array_rules;
mod buffer_rules;
mod case_rules;
mod defaults;
mod defined_twice;
mod guards;
mod heading_rules;
mod listed;
mod loop_rules;
mod object_rules;
mod simple_rules;
mod standing;
mod statement_rules;
mod table_bytes;

pub use array_rules::array;
pub use defaults::all_defaults;
pub use defined_twice::definition_rule;
pub use heading_rules::{fits_in, room_after};
pub use listed::listed_objects_size;
pub use object_rules::object;
pub use standing::{parents, place};
pub use statement_rules::all_statements;
pub use table_bytes::bytes_of_arrays;
