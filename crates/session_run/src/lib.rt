//! The loop over the lines of a reader: what a session replies to each goes to a writer.
#![tactic(auto)]

mod answering;
mod fault;
mod hearing;
mod naming;
mod running;

pub use fault::RunFault;
pub use naming::given_for;
pub use running::{run, run_telling};
pub use session_lines::{Files, FilesFault, NoFiles, status};
