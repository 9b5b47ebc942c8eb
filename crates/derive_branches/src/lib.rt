//! Conditional compilation of an extended source.
#![tactic(auto)]

mod branch;
mod brancher;
mod conditions;
mod kept;
mod program;
mod tokens;

pub use program::branched;
