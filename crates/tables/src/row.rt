//! What is written for an object.

/// An object as it is written. Its number is the place of its row, from 1.
#[derive(Drop)]
pub struct ObjectRow {
    /// The 48 attributes, of which attribute 0 is the top bit of the first byte.
    pub attributes: [u8; 6],

    /// The object that it stands in, 0 for none.
    pub parent: u16,

    /// The next object that stands in the same, 0 for none.
    pub sibling: u16,

    /// The first object that stands in it, 0 for none.
    pub child: u16,

    /// The characters of the short name, each 13 or 32 to 126.
    pub name: Vec<u8>,

    /// The properties in the order of the list: of each its number and its words.
    pub properties: Vec<(u8, Vec<u16>)>,
}
