//! The header of a story file, and the definitions of the machine that runs it.
#![tactic(auto)]

mod header;
mod instruction;
mod laws;
pub mod layout;
mod next;
mod operations;
mod place;
mod standard_state;

pub use header::{Dictionary, Header, HeaderFault, Version};
pub use instruction::{Branch, Operand, Operation};
pub use laws::{every_turn_ends, instructions_decode};
pub use next::Next;
pub use operations::{OpcodeRow, OperandCount};
pub use place::{Fault, Limit, Place};
pub use standard_state::StandardState;
// texts, by the names under which the crates above know them
pub use ztext::{
    Abbreviations, MOST_ABBREVIATIONS, TextFault, append_front, decode_front, decode_text,
    encode_text, encode_with, spelling_length, word_key, words_for,
};
