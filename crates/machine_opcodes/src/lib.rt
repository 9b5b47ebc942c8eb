//! What opcodes do, but those on objects: operations on the values of their operands, over the
//! primitives of a running story.
#![tactic(auto)]

mod arithmetic;
mod calls;
mod jumps;
mod lines;
mod memory;
mod numbers;
mod printing;
mod transcript;
mod variables;

pub use arithmetic::{
    NEGATIVE, divide, equals_any, give_result, magnitude, modulo, quotient, remainder, signed_less,
};
pub use calls::{call, call_packed, give_back, return_popped, unpacked};
pub use jumps::{branch_on, branch_target, check_argument_count, jump, test_branch};
pub use lines::read;
pub use machine_decoding::Ending;
pub use memory::{load_byte, load_word, store_byte, store_word, word_address};
pub use numbers::signed_digits;
pub use printing::{
    print_address, print_character, print_characters, print_inline, print_number, print_packed,
    print_return,
};
pub use transcript::print;
pub use variables::{
    decrement, decrement_check, increment, increment_check, load, pull, push_word, store_variable,
};
