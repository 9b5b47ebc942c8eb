//! Expressions: the parser that reads them.
#![tactic(auto)]

mod laws;
mod operators;
mod parser;
pub mod parts;
mod reading;
mod single;

pub use laws::{reads_conditions, reads_the_grammar};
pub use operators::{
    Operators, begins_expression, comparing, containing, equating, operator, prefixes,
    relating_word, stepping,
};
pub use parser::{condition, expression};
pub use reading::{array, expect_name, name_of, property_name};
