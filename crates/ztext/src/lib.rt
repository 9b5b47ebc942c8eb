//! Z-characters: how characters are spelled by them, words of three of them, and what they print.
#![tactic(auto)]

mod abbreviations;
mod alphabets;
mod bytes;
mod characters;
mod decoding;
mod expansions;
mod fault;
mod reading;
mod text;
mod words;

pub use abbreviations::{Abbreviations, encode_with};
pub use alphabets::{
    ZCharacters, is_printable, put_spelled, spelled, spelling_length, spelling_of,
};
pub use bytes::{MOST_ABBREVIATIONS, read_word};
pub use expansions::{Expansion, Expansions};
pub use fault::TextFault;
pub use reading::{Named, put_plain};
pub use text::{append_front, decode_front, decode_text, encode_text, word_key};
pub use words::{bytes_from, key_bytes, packed, pad, word_count, words_for};
