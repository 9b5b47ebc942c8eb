//! Texts of versions 1 and 2, in which an alphabet can be locked: their alphabets, and the opcodes that
//! print them.
#![tactic(auto)]

mod alphabets;
mod letters;
mod printing;
mod reading;

pub use alphabets::alphabets_in;
pub use printing::{print_address, print_inline, print_return};
