//! The machine: loads a story, and plays it turn by turn.
#![tactic(auto)]

mod load;
mod slow_bytes;
mod turn;

pub use load::LoadFault;
pub use machine_frames::Store;
pub use turn::{Machine, end, go_quickly, keep_stack};
pub use zcore::{Fault, Limit, Place};
