//! The styles of a turn's text along its steps.
#![tactic(auto)]

mod before;
mod restyling;

pub use before::{Before, before_step};
pub use restyling::restyle;
