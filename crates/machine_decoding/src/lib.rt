//! Decoding of instructions, by the table of opcodes.
#![tactic(auto)]

mod decode;
mod ending;
pub mod first_bytes;
mod instruction;

pub use decode::{
    BRANCH_ON_TRUE, LARGE, OFFSETS, OMITTED, ONE_BYTE_BRANCH, OPERANDS, SMALL, TYPES, VARIABLE,
    byte_operand, far_jump, long_form, no_operand_form, read_byte, read_each, read_types,
    several_operand_form, short_form, two_operand_form,
};
pub use ending::Ending;
pub use instruction::{Instruction, NO_INSTRUCTION, Operands, decode_instruction, decode_into};
