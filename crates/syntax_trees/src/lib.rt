//! Trees of expressions, names, and what parsers share: why tokens are not read, which token comes
//! next, and what is taken from the front of those that are still to be read.
#![tactic(auto)]

mod error;
pub mod memory;
mod parser;
mod tokens;
mod tree;

pub use error::{Fault, ParseError, Parsed};
pub use parser::{Parser, expect, expect_word, pass};
pub use tokens::{fault_at, is_sign, is_word, open, peek, position, skip};
pub use tree::{
    Binary, Comparison, Containment, Equality, Expression, Name, ObjectTest, Prefix, Relative,
    Step, Width,
};
