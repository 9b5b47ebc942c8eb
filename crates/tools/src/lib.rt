//! Both ends in one call, and the types that a caller of it meets.
#![tactic(auto)]

mod extended;
mod pair;
mod standard;

pub use extended::{extend_and_run, extend_and_run_within};
pub use machine::LoadFault;
pub use pair::{PairFault, compile_and_run, compile_and_run_within};
pub use session::{OpenFault, Place, Session, StandardOptions};
pub use session_run::{RunFault, status};
pub use standard::{compile_and_run_by_standard, compile_and_run_by_standard_within};
pub use story::Limit;
pub use syntax_lexer::SourceFault;
pub use zcore::Version;
