//! One step of the machine: an instruction is decoded, its operands are read, and it has its
//! effect.
#![tactic(auto)]

pub mod first_bytes;
mod instruction;
mod perform;

pub use instruction::{operand_values, step};
pub use machine_decoding::{
    LARGE, OMITTED, OPERANDS, SMALL, TYPES, VARIABLE, byte_operand, far_jump, long_form,
    no_operand_form, read_byte, read_each, read_types, several_operand_form, short_form,
    two_operand_form,
};
pub use perform::{
    condition_of, perform_many, perform_none, perform_one, perform_several, perform_two, word_of,
};
