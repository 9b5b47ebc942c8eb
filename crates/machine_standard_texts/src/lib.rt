//! Opcodes that print texts and characters, where any ZSCII code may stand: what the profile prints
//! is printed by its own functions, and what it refuses by M10 as the Standard says. Beside them, the
//! ZSCII codes of characters, and the fuel of opcodes that touch many bytes.
#![tactic(auto)]

mod characters;
mod codes;
mod fuel;
mod pieces;
mod printing;
mod reading;
mod words;

pub use characters::{Halt, extra_character, is_ascii, is_printed, put_next};
pub use codes::{has_zscii, with_codes, zscii_of};
pub use fuel::spend_for;
pub use printing::{
    finish, print_address, print_any_address, print_character, print_code, print_inline,
    print_object, print_packed, print_return, print_transcript, unread,
};
pub use words::{bytes_from, word_count, z_character};
