//! Operands of an extended source: alternatives after `or`, and steps of what is no variable.
#![tactic(auto)]

mod alternatives;
mod quiet;
mod steps;
mod targets;

pub use alternatives::{chosen, keys_of};
pub use steps::stepped;
