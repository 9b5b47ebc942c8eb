//! Operators on words.

ghost use Rattle.std.specs.Prelude.{◌∷◌, OnOk};
ghost use Rattle.zcore.specs.declared.instruction.Operation.TheVariants.{Div};
ghost use Rattle.code_drafts.specs.Items as source_items;
ghost use Rattle.code_drafts.specs.Code.{as_operand, as_destination};
ghost use Rattle.code_drafts.specs.Bytes.{AddsCode};
ghost use Rattle.code_drafts.specs.Written.{addresses_of, instruction_of};
ghost use Rattle.code_instructions.specs.Instructions.{prefix_code, arithmetic, commuting, divided, divided_by};
ghost use Rattle.code_instructions.specs.Instructions.{binary_code, with_aside, aside_code};
ghost use Rattle.code_instructions.specs.Instructions.{first_equal_code, also_equal_code};
ghost use Rattle.code_instructions.specs.Instructions.{flag};

use code_drafts::{
    ASIDE, Addresses, Destination, FIRST, Instruction, Operands, SECOND, THIRD, branching,
    constant, copy, fault_address, giving, in_place, name_second, plain, print_fault, pull, push,
    put_all, put_instruction, put_takes, quit, result_in, variable_number,
};
use meaning::Cause;
use std::alloc::AllocError;
use syntax_trees::{Binary, Prefix};
use zcore::{Operand, Operation};

/// An operator before a word; `~~`, which turns a branch, is none.
pub fn put_prefix(
    bytes: &mut Vec<u8>,
    operator: Prefix,
    operand: code_drafts::Operand,
    destination: Destination,
) -> Result<(), AllocError>
    ensures { OnOk result (AddsCode bytes.old bytes.new
        (prefix_code operator (as_operand operand) (as_destination destination))) }
{
    let word = in_place(operand);
    let result = result_in(destination);
    match operator {
        Prefix::Minus => {
            let operands = Operands::Two(Operand::Small(0), word);
            put_all(bytes, &[giving(Operation::Sub, operands, result)])
        }
        Prefix::Complement => {
            put_all(
                bytes,
                &[giving(Operation::Not, Operands::One(word), result)],
            )
        }
        Prefix::Not => Ok(()),
    }
}

/// An operation on two words that has no test.
fn put_arithmetic(
    bytes: &mut Vec<u8>,
    operation: Operation,
    left: code_drafts::Operand,
    right: code_drafts::Operand,
    destination: Destination,
) -> Result<(), AllocError>
    ensures { OnOk result (AddsCode bytes.old bytes.new
        (arithmetic operation (as_operand left) (as_operand right) (as_destination destination))) }
{
    put_takes(bytes, &[left, right])?;
    let operands = [in_place(left), name_second(left, right)];
    put_instruction(
        bytes,
        operation,
        &operands,
        Some(result_in(destination)),
        None,
    )?;
    Ok(())
}

/// An operation on two words of which it does not matter which stands first: where both are pushed,
/// they are taken as they stand.
fn put_commuting(
    bytes: &mut Vec<u8>,
    operation: Operation,
    left: code_drafts::Operand,
    right: code_drafts::Operand,
    destination: Destination,
) -> Result<(), AllocError>
    ensures { OnOk result (AddsCode bytes.old bytes.new
        (commuting operation (as_operand left) (as_operand right) (as_destination destination))) }
{
    match left {
        code_drafts::Operand::Pushed => match right {
            code_drafts::Operand::Pushed => {
                let operands = Operands::Two(in_place(left), in_place(right));
                put_all(
                    bytes,
                    &[giving(operation, operands, result_in(destination))],
                )
            }
            code_drafts::Operand::Number(_) | code_drafts::Operand::Variable(_) => {
                put_arithmetic(bytes, operation, left, right, destination)
            }
        },
        code_drafts::Operand::Number(_) | code_drafts::Operand::Variable(_) => {
            put_arithmetic(bytes, operation, left, right, destination)
        }
    }
}

/// A division by the word of a variable, or the text of the fault that it is 0, and the story ends.
fn put_divided_by(
    bytes: &mut Vec<u8>,
    addresses: &Addresses<'_>,
    operation: Operation,
    left: code_drafts::Operand,
    variable: u8,
    destination: Destination,
) -> Result<(), AllocError>
    ensures { OnOk result (AddsCode bytes.old bytes.new
        (divided_by (addresses_of addresses.now) operation (as_operand left) variable
        (as_destination destination))) }
{
    let right = Operand::Variable(variable);
    let over = branching(Operation::JumpIfZero, Operands::One(right), false, 6);
    let text = print_fault(fault_address(addresses, Cause::DivisionByZero));
    let operands = Operands::Two(in_place(left), right);
    let quotient = giving(operation, operands, result_in(destination));
    put_all(bytes, &[over, text, quit(), quotient])
}

/// A division by a number, which is not tested; by 0 it is the fault.
fn put_divided_by_number(
    bytes: &mut Vec<u8>,
    addresses: &Addresses<'_>,
    operation: Operation,
    left: code_drafts::Operand,
    number: u16,
    destination: Destination,
) -> Result<(), AllocError>
    ensures { OnOk result (AddsCode bytes.old bytes.new
        (divided (addresses_of addresses.now) operation (as_operand left)
        (source_items.number number) (as_destination destination))) }
{
    if number == 0 {
        put_all(
            bytes,
            &[
                print_fault(fault_address(addresses, Cause::DivisionByZero)),
                quit(),
            ],
        )
    } else {
        let operands = Operands::Two(in_place(left), constant(number));
        put_all(
            bytes,
            &[giving(operation, operands, result_in(destination))],
        )
    }
}

/// A division.
#[tactic(auto, using(code_drafts::proofs::Chains::all_joined))]
fn put_division(
    bytes: &mut Vec<u8>,
    addresses: &Addresses<'_>,
    operation: Operation,
    left: code_drafts::Operand,
    right: code_drafts::Operand,
    destination: Destination,
) -> Result<(), AllocError>
    ensures { OnOk result (AddsCode bytes.old bytes.new
        (divided (addresses_of addresses.now) operation (as_operand left) (as_operand right)
        (as_destination destination))) }
{
    match right {
        code_drafts::Operand::Pushed => {
            put_all(bytes, &[pull(FIRST)])?;
            put_divided_by(bytes, addresses, operation, left, FIRST, destination)
        }
        code_drafts::Operand::Number(number) => {
            put_divided_by_number(bytes, addresses, operation, left, number, destination)
        }
        code_drafts::Operand::Variable(variable) => {
            let number = variable_number(variable);
            put_divided_by(bytes, addresses, operation, left, number, destination)
        }
    }
}

/// An operator between two words; `&&` and `||`, which are branches, are none.
pub fn put_binary(
    bytes: &mut Vec<u8>,
    addresses: &Addresses<'_>,
    operator: Binary,
    words: (code_drafts::Operand, code_drafts::Operand),
    destination: Destination,
) -> Result<(), AllocError>
    ensures { OnOk result (AddsCode bytes.old bytes.new
        (binary_code (addresses_of addresses.now) operator (as_operand words.0) (as_operand words.1)
        (as_destination destination))) }
{
    let (left, right) = words;
    let operation = match operator {
        Binary::AndAlso | Binary::OrElse => return Ok(()),
        Binary::Divide => {
            return put_division(bytes, addresses, Operation::Div, left, right, destination);
        }
        Binary::Remainder => {
            return put_division(bytes, addresses, Operation::Mod, left, right, destination);
        }
        Binary::Subtract => {
            return put_arithmetic(bytes, Operation::Sub, left, right, destination);
        }
        Binary::Add => Operation::Add,
        Binary::Multiply => Operation::Mul,
        Binary::And => Operation::And,
        Binary::Or => Operation::Or,
    };
    put_commuting(bytes, operation, left, right, destination)
}

/// An operation that has no test, with the word that was put aside as its right operand.
fn put_untested(
    bytes: &mut Vec<u8>,
    operation: Operation,
    left: code_drafts::Operand,
    destination: Destination,
) -> Result<(), AllocError>
    ensures { OnOk result (AddsCode bytes.old bytes.new
        (with_aside operation (as_operand left) (as_destination destination))) }
{
    let operands = Operands::Two(in_place(left), Operand::Variable(ASIDE));
    put_all(
        bytes,
        &[giving(operation, operands, result_in(destination))],
    )
}

/// An operator between a word and the one that was put aside; `&&` and `||`, which are branches,
/// are none.
pub fn put_with_aside(
    bytes: &mut Vec<u8>,
    addresses: &Addresses<'_>,
    operator: Binary,
    left: code_drafts::Operand,
    destination: Destination,
) -> Result<(), AllocError>
    ensures { OnOk result (AddsCode bytes.old bytes.new
        (aside_code (addresses_of addresses.now) operator (as_operand left)
        (as_destination destination))) }
{
    let operation = match operator {
        Binary::AndAlso | Binary::OrElse => return Ok(()),
        Binary::Divide => {
            return put_divided_by(bytes, addresses, Operation::Div, left, ASIDE, destination);
        }
        Binary::Remainder => {
            return put_divided_by(bytes, addresses, Operation::Mod, left, ASIDE, destination);
        }
        Binary::Subtract => Operation::Sub,
        Binary::Add => Operation::Add,
        Binary::Multiply => Operation::Mul,
        Binary::And => Operation::And,
        Binary::Or => Operation::Or,
    };
    put_untested(bytes, operation, left, destination)
}

/// A branch over 6 bytes, and 1 or 0 that is pushed.
#[tactic(auto, using(code_drafts::proofs::Chains::all_joined))]
fn put_flag(bytes: &mut Vec<u8>, branch: Instruction) -> Result<(), AllocError>
    ensures { OnOk result (AddsCode bytes.old bytes.new (instruction_of branch ∷ flag)) }
{
    let jump = plain(Operation::Jump, Operands::One(Operand::Large(5)));
    put_all(
        bytes,
        &[
            branch,
            push(Operand::Small(0)),
            jump,
            push(Operand::Small(1)),
        ],
    )
}

/// Of several right sides, the first: the left side stays below.
#[tactic(auto, using(code_drafts::proofs::Chains::all_joined))]
pub fn put_first_equal(bytes: &mut Vec<u8>) -> Result<(), AllocError>
    ensures { OnOk result (AddsCode bytes.old bytes.new first_equal_code) }
{
    put_all(bytes, &[pull(FIRST), copy(SECOND)])?;
    let operands = Operands::Two(Operand::Variable(SECOND), Operand::Variable(FIRST));
    put_flag(bytes, branching(Operation::JumpIfEqual, operands, true, 8))
}

/// Of several right sides, a later one: the left side stays below.
#[tactic(auto, using(code_drafts::proofs::Chains::all_joined))]
pub fn put_also_equal(bytes: &mut Vec<u8>) -> Result<(), AllocError>
    ensures { OnOk result (AddsCode bytes.old bytes.new also_equal_code) }
{
    let operands = Operands::Two(Operand::Variable(THIRD), Operand::Variable(FIRST));
    let equal = branching(Operation::JumpIfEqual, operands, true, 11);
    put_all(bytes, &[pull(FIRST), pull(SECOND), copy(THIRD), equal])?;
    let flagged = Operands::One(Operand::Variable(SECOND));
    put_flag(bytes, branching(Operation::JumpIfZero, flagged, false, 8))
}
