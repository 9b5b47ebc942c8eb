//! Derived tokens: tokens of the profile that know the place of their origin, and how they are
//! written again.
#![tactic(auto)]

mod laws;
mod names;
mod own;
mod piece;
mod putting;
mod questions;
mod spelling;
mod writing;

pub use laws::reads_back;
pub use names::{
    Names, SmallName, is_called, is_name, name_of, note_name, small_name, small_name_in,
};
pub use own::own_name;
pub use piece::{Piece, PieceKind, refused};
pub use putting::{
    after, front, put_all, put_first, put_kind, put_numbered, put_piece, put_pieces,
};
pub use questions::{is_named, is_same_name, is_sign, is_word};
pub use writing::{put_number, put_spelled, put_written};
