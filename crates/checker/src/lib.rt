//! The rules of directives and whole programs, and what a program resolves to.
#![tactic(auto)]

mod abbreviation_rules;
mod check_program;
mod directive_rules;
mod laws;
mod main_rules;

pub use check_program::{NextBreach, check, check_placed, discard, leave_to_system, next_breach};
pub use laws::{accepted_programs, printable_programs, words_are_numbered};
pub use meaning::Checked;
