//! A step of an opcode that a version performs otherwise than versions 5 and 8.
#![tactic(auto)]

mod line;
mod objects;
mod perform;
mod reading;
mod step;
mod texts;

pub use line::put_status_line;
pub use step::step_version;
