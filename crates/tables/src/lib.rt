//! The tables of a story: its dictionary and its objects, as they are read, and lines cut into
//! words.
#![tactic(auto)]

mod cutting;
mod dictionary;
mod entries;
mod fault;
mod laws;
pub mod layout;
mod link;
mod properties;
mod row;
mod unordered;
mod words;

pub use cutting::cut_line;
pub use dictionary::lookup;
pub use entries::{
    attribute_place, child, has_attribute, has_entry, is_set, link_place, parent, properties_place,
    sibling,
};
pub use fault::{TableFault, TableRead};
pub use laws::{keys_are_numbered_by_rank, lines_are_cut_one_way, properties_are_read};
pub use link::Link;
pub use properties::{
    ListedProperty, Standing, long_size, property, property_count, search_list, stands_at,
};
pub use row::ObjectRow;
pub use unordered::{find_entry, is_dictionary};
pub use words::{Word, Words};
