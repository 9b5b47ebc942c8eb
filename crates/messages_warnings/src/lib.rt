//! Warnings about a program: what is right by the rules, and is likely a mistake.
#![tactic(auto)]

mod bodies;
mod calls;
mod conditions;
mod letters;
mod loops;
mod marks;
mod meanings;
mod numbers;
mod routines;
mod sentences;
mod statements;
mod unreached;
mod unused;
mod uses;
mod warnings;

pub use marks::{Concern, Warning};
pub use sentences::warning_lines;
pub use warnings::warnings_of;
