//! Expressions of an extended source: calls by value, messages, `random` and kin.
#![tactic(auto)]

mod calls;
mod depth;
mod heads;
mod quiet;
mod roles;

pub use calls::{called, messages_of};
pub use depth::depth_fault;
pub use heads::heads_of;
pub use roles::{Calling, Role, is_callee, is_cast, is_in_body, is_kin, routine_of};
