//! From an extended source to the source of the profile that it stands for.
#![tactic(auto)]

mod origins;
mod own_names;
mod passes;
mod plain;
mod sentence;
mod source;

pub use origins::{Origins, Site};
pub use passes::passed;
pub use plain::plain_name;
pub use sentence::{plain_sentence, with_plain_names};
pub use source::extended;
