//! What opcodes do in versions 1 to 4 that they do otherwise in version 5: objects with small entries.
#![tactic(auto)]

mod attributes;
mod calls;
mod links;
mod moves;
mod objects;
mod printing;
mod properties;

pub use attributes::{clear_attribute, set_attribute, test_attribute};
pub use calls::call_older;
pub use moves::{insert_object, remove_object};
pub use objects::{get_child, get_parent, get_sibling, jump_if_in};
pub use printing::{print_object, print_packed};
pub use properties::{
    get_next_property, get_property, get_property_address, get_property_length, put_property,
};
