//! The small entries of objects in versions 1 to 3: where their parts are (Z-Machine Standards Document 1.1, section
//! 12.3.1).
#![tactic(auto)]

mod entries;
mod named;

pub use entries::{attribute_place, has_entry, link_place, properties_place};
pub use named::named_from;
