//! The opcodes of the Standard that work on words, `tokenise` and `encode_text`, those that wait for
//! the player, `aread` and `read_char`, and the lines that are typed: which can be given, and small
//! letters.
#![tactic(auto)]

mod encode;
mod form;
mod given;
mod key;
mod lines;
mod parsing;
mod search;
mod slots;
mod small;
mod typed;
mod waiting;
mod writable;

pub use encode::encode_text;
pub use form::{nine_characters, packed, place_in, put_characters, word_bytes};
pub use given::{give_typed, stop_waiting};
pub use key::key_of_line;
pub use lines::{can_be_typed, put_small_letters};
pub use parsing::{has_slots, tokenise};
pub use search::entry_with_form;
pub use slots::put_four;
pub use waiting::{wait_for_key, wait_for_line};
pub use writable::are_writable;
