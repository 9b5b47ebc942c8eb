//! The opcodes of operations, and how operands are counted in them (Z-Machine Standards Document
//! 1.1, sections 4 and 14).

ghost use Rattle.std.specs.Prelude.{◌≡◌, ◌<◌, ◌≤◌, ◌+◌, drop, slice_index, OnOk};
ghost use Rattle.zcore.specs.Operations.{count_of, number_of, has_more_types};
ghost use Rattle.zcore.specs.InstructionBytes.{types_to_write, two_bytes, one_bytes, opcode_bytes, variable_bytes};
ghost use Rattle.zcore.specs.InstructionBytes as views;
ghost use Rattle.code_drafts.specs.Bytes.{Adds};

use std::alloc::AllocError;
use zcore::{Operand, OperandCount, Operation};

/// The type of an operand.
fn type_of(operand: Operand) -> u8
    ensures value { result ≡ views.type_of operand }
    ensures small { result < 3 }
{
    match operand {
        Operand::Large(_) => 0,
        Operand::Small(_) => 1,
        Operand::Variable(_) => 2,
    }
}

/// The type of the operand of an index, 3 where there is none.
#[tactic(auto, using(crate::proofs::Types::type_within, crate::proofs::Types::type_past))]
fn type_at(operands: &[Operand], index: usize) -> u8
    requires { index < 8 }
    ensures value { result ≡ slice_index (types_to_write operands.now) index }
    ensures small { result < 4 }
{
    match operands.get(index) {
        Some(operand) => type_of(*operand),
        None => 3,
    }
}

/// The byte of the types of four operands.
fn types_byte(operands: &[Operand], from: usize) -> u8
    requires { from ≤ 4 }
    ensures { result ≡ views.types_byte (drop from (types_to_write operands.now)) }
{
    64 * type_at(operands, from)
        + 16 * type_at(operands, from + 1)
        + 4 * type_at(operands, from + 2)
        + type_at(operands, from + 3)
}

/// An opcode in variable form, and its operands' types.
fn put_variable_form(
    bytes: &mut Vec<u8>,
    first: u8,
    more: bool,
    operands: &[Operand],
) -> Result<(), AllocError>
    ensures { OnOk result (Adds bytes.old bytes.new (variable_bytes first more operands.now)) }
{
    bytes.push(first)?;
    bytes.push(types_byte(operands, 0))?;
    if more {
        bytes.push(types_byte(operands, 4))?;
    }
    Ok(())
}

/// An opcode of two operands, in long form where neither is a large constant.
fn put_two(bytes: &mut Vec<u8>, number: u8, operands: &[Operand]) -> Result<(), AllocError>
    requires { number < 32 }
    ensures { OnOk result (Adds bytes.old bytes.new (two_bytes number operands.now)) }
{
    if let [first, second] = operands {
        let first = type_of(*first);
        let second = type_of(*second);
        if first != 0 && second != 0 {
            bytes.push(64 * (first - 1) + 32 * (second - 1) + number)?;
            return Ok(());
        }
    }
    put_variable_form(bytes, 192 + number, false, operands)
}

/// An opcode of one operand, in short form.
fn put_one(bytes: &mut Vec<u8>, number: u8, operands: &[Operand]) -> Result<(), AllocError>
    requires { number < 32 }
    ensures { OnOk result (Adds bytes.old bytes.new (one_bytes number operands.now)) }
{
    if let [operand] = operands {
        bytes.push(128 + 16 * type_of(*operand) + number)?;
    }
    Ok(())
}

/// The opcode of an operation, with what says the types of these operands.
pub fn put_opcode(
    bytes: &mut Vec<u8>,
    operation: Operation,
    operands: &[Operand],
) -> Result<(), AllocError>
    ensures { OnOk result (Adds bytes.old bytes.new
        (opcode_bytes (count_of operation) (number_of operation) (has_more_types operation)
        operands.now)) }
{
    let number = operation.number();
    match operation.operand_count() {
        OperandCount::Two => put_two(bytes, number, operands)?,
        OperandCount::One => put_one(bytes, number, operands)?,
        OperandCount::Zero => bytes.push(176 + number)?,
        OperandCount::Several => {
            let more = operation.has_more_types();
            put_variable_form(bytes, 224 + number, more, operands)?;
        }
    }
    Ok(())
}
