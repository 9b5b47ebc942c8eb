//! Trees of programs.

use std::mem::forget;
use syntax_directives::{Directive, Text};
use syntax_lexer::Position;

/// A program.
#[derive(Drop)]
pub struct Program<'a> {
    pub directives: Vec<Directive<'a>>,

    /// The texts of all `abbreviate`, in order.
    pub abbreviations: Vec<Text<'a>>,

    /// The end of the source.
    pub end: Position,

    /// 32 for each token but the end, and 3 for each byte between the quotes of a text.
    pub weight: u128,

    /// The dictionary words, in order, each as often as it stands.
    pub words: Vec<&'a [u8]>,
}

/// Gives back the memory of a program that is not needed any more. A crate that drops a program in a
/// function of its own proves anew what becomes of each kind of its parts: hand it over here instead.
pub fn discard(program: Program<'_>) {
    drop(program);
}

/// Leaves the memory of a program to the system, which takes it back when the process ends.
pub fn leave_to_system(program: Program<'_>) {
    forget(program);
}
