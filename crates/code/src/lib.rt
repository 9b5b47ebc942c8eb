//! The code of routines: the bytes that do their items.
#![tactic(auto)]

mod backward;
mod dictionary;
mod entries;
mod fault;
mod item;
mod kind;
mod laws;
mod lines;
mod objects;
mod routine;
mod settled;
mod sizes;
mod table_laws;

pub use code_drafts::{Addresses, BranchUse, Form, Sizes};
pub use dictionary::write_dictionary;
pub use fault::CodeFault;
pub use laws::code_plays;
pub use objects::write_objects;
pub use routine::{Code, Disposal, Scratch, discard, dispose, routine_code, routine_code_with};
pub use sizes::program_sizes;
pub use table_laws::opcodes_do_as_objects_do;
