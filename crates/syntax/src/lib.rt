//! Whole programs: their trees, and the parser that reads them.
#![tactic(auto)]

mod entries;
mod laws;
mod program;
mod tree;
mod unfit;
mod words;

pub use laws::{printable_trees, weighed_routines};
pub use program::{one_tree, parse, parse_placed};
pub use syntax_directives::{
    Array, ArrayKind, ArrayValue, Directive, Object, Property, Routine, Text,
};
pub use syntax_lexer::{Kind, PlacedFault, Position, Sign, SourceFault, Token, Word, lex};
pub use syntax_statements::{Heading, Literal, PrintItem, Range, Statement};
pub use syntax_trees::{
    Binary, Comparison, Containment, Equality, Expression, Name, ObjectTest, Prefix, Relative,
    Step, Width,
};
pub use tree::{Program, discard, leave_to_system};
pub use unfit::first_unfit;
