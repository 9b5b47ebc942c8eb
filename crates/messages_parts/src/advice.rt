//! What is wrong at a token that does not fit.

use crate::feature::Feature;
use crate::rules::Want;

/// What is wrong at a token that does not fit.
#[derive(Clone, Copy)]
pub enum Advice {
    /// What is called so is not in this language.
    Absent(&'static str, &'static Feature),

    /// The token of a number is a word that is not in this language.
    Word(usize, &'static Feature),

    /// What to write, or to leave out.
    Do(&'static str),

    /// What is wanted in the place of a name.
    Want(Want),
}
