//! Tokens of a source, and the faults by which a source is refused.
#![tactic(auto)]

mod bytes;
mod fault;
mod laws;
mod names;
mod numbers;
mod quoted;
mod scan;
mod signs;
mod source;
mod token;

pub use bytes::{from, front};
pub use fault::{
    BAD_ABBREVIATION, BAD_ARRAY, BAD_NUMBER, BAD_TEXT, BREAK_OUTSIDE, DEFINED_TWICE,
    EXPRESSION_TOO_LARGE, NAME_TOO_LONG, NESTED_TOO_DEEP, NO_MEMORY, NO_PROPER_MAIN,
    NOT_ASSIGNABLE, NOT_IN_GRAMMAR, PlacedFault, ROUTINE_TOO_LARGE, STORY_TOO_LARGE, STRAY_BYTE,
    SourceFault, TABLES_TOO_LARGE, TOO_MANY, TOO_MANY_ARGUMENTS, UNKNOWN_NAME, WRONG_KIND,
};
pub use laws::printable_tokens;
pub use source::{lex, lex_placed, one_outcome, token_length};
pub use token::{Kind, Position, Sign, Token, Word};
