//! A step of the Standard's machine. An operation that the profile does not have is found by its opcode,
//! decoded and done; all others are steps of the profile, object 0 aside.
#![tactic(auto)]

mod drawing;
mod effects;
mod kinds;
mod named;
mod opcodes;
mod perform;
mod reading;
mod saving;
mod step;

pub use drawing::{can_wait, looks};
pub use named::named_at;
pub use opcodes::operation_at;
pub use step::step_any;
