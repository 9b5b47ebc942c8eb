//! Tests of operands, and faults.

ghost use Rattle.std.specs.Prelude.{◌≡◌, ◌<◌, OnOk};
ghost use Rattle.code_drafts.specs.Code.{as_operand};
ghost use Rattle.code_instructions.specs.Instructions.{tested_between};
ghost use Rattle.code_drafts.specs.Instructions as basic;
ghost use Rattle.code_instructions.specs.Instructions as spec;
ghost use Rattle.code_drafts.specs.Addresses as places;
ghost use Rattle.code_drafts.specs.Bytes.{AddsCode};
ghost use Rattle.code_drafts.specs.Written.{addresses_of};

use code_drafts::{
    Addresses, FIRST, Operands, branching, constant, fault_address, in_place, print_fault, pull,
    put_all, quit,
};
use meaning::Cause;
use std::alloc::AllocError;
use zcore::{Operand, Operation};

/// Words from this one on are negative as signed numbers.
pub const FIRST_NEGATIVE: u16 = 0x8000;

/// The text of a fault is printed, and the story ends.
pub fn put_fail(
    bytes: &mut Vec<u8>,
    addresses: &Addresses<'_>,
    cause: Cause,
) -> Result<(), AllocError>
    ensures { OnOk result (AddsCode bytes.old bytes.new
        (basic.fail (places.fault_address (addresses_of addresses.now) cause))) }
{
    put_all(
        bytes,
        &[print_fault(fault_address(addresses, cause)), quit()],
    )
}

/// How far a branch leads to after a comparison with a constant.
pub fn offset_over_comparison(number: u16) -> u8
    ensures { result ≡ spec.offset_over_comparison number }
{
    if number < 256 { 6 } else { 8 }
}

/// A word in a variable is tested: where it is not, as a signed number, from one number on and
/// below another, the text of a fault is printed, and the story ends.
pub fn put_tested_between(
    bytes: &mut Vec<u8>,
    addresses: &Addresses<'_>,
    cause: Cause,
    low: u8,
    end: u16,
    variable: u8,
) -> Result<(), AllocError>
    ensures { OnOk result (AddsCode bytes.old bytes.new
        (tested_between (addresses_of addresses.now) cause low end variable)) }
{
    let word = Operand::Variable(variable);
    let before = Operands::Two(word, Operand::Small(low));
    let below = Operands::Two(word, constant(end));
    put_all(
        bytes,
        &[
            branching(
                Operation::JumpIfLess,
                before,
                true,
                offset_over_comparison(end),
            ),
            branching(Operation::JumpIfLess, below, true, 6),
            print_fault(fault_address(addresses, cause)),
            quit(),
        ],
    )
}

/// An operand that is pushed goes to the compiler's variable of a number.
pub fn put_pulled(
    bytes: &mut Vec<u8>,
    temporary: u8,
    operand: code_drafts::Operand,
) -> Result<(), AllocError>
    requires { temporary < 8 }
    ensures { OnOk result (AddsCode bytes.old bytes.new
        (basic.pulled_into temporary (as_operand operand))) }
{
    match operand {
        code_drafts::Operand::Pushed => put_all(bytes, &[pull(FIRST + temporary)]),
        _ => put_all(bytes, &[]),
    }
}

/// What stands then for the operand.
pub fn word_in(temporary: u8, operand: code_drafts::Operand) -> Operand
    requires { temporary < 8 }
    ensures { result ≡ basic.word_in temporary (as_operand operand) }
{
    match operand {
        code_drafts::Operand::Pushed => Operand::Variable(FIRST + temporary),
        _ => in_place(operand),
    }
}
