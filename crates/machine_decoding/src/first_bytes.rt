//! The first byte of an instruction: its form, the count by which its opcode is numbered, and the
//! opcode's number; in long form the types of its operands too (Z-Machine Standards Document 1.1,
//! sections 4.3, 4.4 and 14).

/// From this byte on an instruction is in short form, with an operand (1OP); below it in long form
/// (2OP).
pub const SHORT_FORM: u8 = 0x80;

/// From this byte on it is in short form, without an operand (0OP).
pub const SHORT_FORM_0OP: u8 = 0xB0;

/// From this byte on it is in variable form, with an opcode of two operands (2OP).
pub const VARIABLE_FORM: u8 = 0xC0;

/// From this byte on it is in variable form, with an opcode of any number of operands (VAR).
pub const VARIABLE_FORM_VAR: u8 = 0xE0;

/// In long form the bit that is set where the first operand is a variable, and not a small constant
/// (section 4.4.2).
pub const FIRST_IS_VARIABLE: u8 = 0x40;

/// That of the second operand.
pub const SECOND_IS_VARIABLE: u8 = 0x20;

/// In long and variable form opcodes are numbered below this, in the bottom five bits (sections
/// 4.3.2 and 4.3.3).
pub const OPCODE_NUMBERS: u8 = 0x20;

/// In short form they are numbered below this, in the bottom four bits, and the type of the operand
/// is in the two bits above (section 4.3.1).
pub const SHORT_OPCODE_NUMBERS: u8 = 0x10;

/// A jump by a large constant. It ends each round of a loop, so it is done without a look at
/// tables.
pub const JUMP_LARGE: u8 = 0x8C;
