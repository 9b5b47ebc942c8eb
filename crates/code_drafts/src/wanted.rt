//! What is wanted of an expression.

use crate::item::Destination;

/// What is wanted of an expression.
#[derive(Clone, Copy)]
pub enum Wanted {
    /// Its word.
    Word(Destination),

    /// A branch where it is true, or where it is not, to where so many items are left.
    Branch(bool, usize),
}
