//! A step of an instruction that the profile knows, as the Standard's machine does it: the profile's
//! step, but operations on objects take object 0, bits of Flags 2 can be changed, some slips are
//! forgiven, and any ZSCII code is printed.
#![tactic(auto)]

mod flags;
mod forgiving;
mod nothing;
mod perform;
mod step;

pub use nothing::{concerns_nothing, perform_on_nothing};
pub use step::step_known;
