//! Sums of an extended source, and the alternatives after them.
#![tactic(auto)]

mod counting;
mod looking;
mod sums;

pub use counting::{Count, Part, count_of, key};
pub use looking::operator_of;
pub use sums::{ends_sum, is_operator, is_or, precedes_sum, takes_names, takes_sums};
