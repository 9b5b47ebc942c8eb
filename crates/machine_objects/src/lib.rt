//! What opcodes do with objects: their attributes, their links, their properties and their names.
#![tactic(auto)]

mod attributes;
mod links;
mod moves;
mod objects;
mod properties;

pub use attributes::{attribute_bit, clear_attribute, set_attribute, test_attribute};
pub use links::{named_from, test_object};
pub use moves::{insert_object, remove_object};
pub use objects::{get_child, get_parent, get_sibling, jump_if_in, print_object, property_table};
pub use properties::{
    address_of, default_place, get_next_property, get_property, get_property_address,
    get_property_length, put_property, read_word_at, size_before, tested_property, write_word_at,
};
