//! What a file says of the names and the dictionary words in it.

use crate::numbers::Numbers;
use crate::table::Table;

/// The names of a file, and the numbers of its words.
#[derive(Drop)]
pub struct File {
    pub table: Table,
    pub numbers: Numbers,
}
