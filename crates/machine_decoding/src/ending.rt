//! What follows the operands of an instruction.

use zcore::Branch;

/// What follows the operands of an instruction (Z-Machine Standards Document 1.1, section 4).
#[derive(Clone, Copy, Debug)]
pub struct Ending {
    /// The variable for the result, where the operation stores one.
    pub result: Option<u8>,

    /// The branch, where the operation branches.
    pub branch: Option<Branch>,

    /// The address after the instruction.
    pub after: u32,
}
