//! Computed constants of an extended source.
#![tactic(auto)]

mod arithmetic;
mod buffer;
mod constant;
mod cutting;
mod entries;
mod group;
mod parts;
mod pending;
mod program;
mod putting;
mod reading;

pub use constant::{Constant, Known};
pub use program::constants;
pub use reading::value_in;
