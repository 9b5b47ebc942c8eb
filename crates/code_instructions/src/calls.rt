//! Calls of routines, and returns.

ghost use Rattle.std.specs.Prelude.{◌≡◌, if◌then◌else◌, [], ◌∷◌, take, IfOk, OnOk};
ghost use Rattle.code_drafts.specs.Items as source_items;
ghost use Rattle.code_drafts.specs.Code.{as_operand, as_operands, as_destination};
ghost use Rattle.code_instructions.specs.Instructions.{call_code, return_code};
ghost use Rattle.code_drafts.specs.Instructions as basic;
ghost use Rattle.code_instructions.specs.Instructions as spec;
ghost use Rattle.code_drafts.specs.Bytes.{AddsCode};
ghost use Rattle.code_drafts.specs.Written.{instruction_of};
ghost use Rattle.meaning.specs.Limits.{most_arguments};

use code_drafts::{
    ASIDE, Destination, Instruction, Operands, constant, is_any_pushed, plain, put_all,
    put_instruction, put_named, put_takes, variable_number,
};
use meaning::Variable;
use meaning::limits::MOST_ARGUMENTS;
use std::alloc::{AllocError, Global};
use zcore::{Operand, Operation};

/// The shortest call with so many arguments (Z-Machine Standards Document 1.1, section 15,
/// `call_1s` and others): without arguments it has no byte of types, with up to three it has one,
/// with more two.
fn call_operation(count: usize, destination: Destination) -> Operation
    ensures { result ≡ spec.call_operation count (as_destination destination) }
{
    match destination {
        Destination::Nowhere => {
            if count == 0 {
                Operation::Call1n
            } else if count == 1 {
                Operation::Call2n
            } else if count <= 3 {
                Operation::CallVn
            } else {
                Operation::CallVn2
            }
        }
        _ => {
            if count == 0 {
                Operation::Call1s
            } else if count == 1 {
                Operation::Call2s
            } else if count <= 3 {
                Operation::CallVs
            } else {
                Operation::CallVs2
            }
        }
    }
}

/// The variable for the result of a call, where there is one.
fn call_result(destination: Destination) -> Option<u8>
    ensures { result ≡ spec.call_result (as_destination destination) }
{
    match destination {
        Destination::Push => Some(0),
        Destination::Into(variable) => Some(variable_number(variable)),
        Destination::Aside => Some(ASIDE),
        Destination::Nowhere => None,
    }
}

/// A call of the routine at a packed address, with at most seven arguments.
#[tactic(auto, using(code_drafts::proofs::Chains::one_joined))]
pub fn put_call(
    bytes: &mut Vec<u8>,
    alloc: Global,
    address: u16,
    operands: &[code_drafts::Operand],
    destination: Destination,
) -> Result<(), AllocError>
    ensures { OnOk result (AddsCode bytes.old bytes.new
        (call_code address (take most_arguments (as_operands operands.now))
        (as_destination destination))) }
{
    let operands = &operands[..operands.len().min(MOST_ARGUMENTS)];
    put_takes(bytes, operands)?;
    let mut named = Vec::new(alloc);
    named.push(Operand::Large(address))?;
    put_named(&mut named, operands)?;
    let operation = call_operation(operands.len(), destination);
    put_instruction(bytes, operation, &named, call_result(destination), None)?;
    Ok(())
}

/// The global that would stand in the variable of the word that is put aside. No program has one of
/// this number.
const ASIDE_GLOBAL: usize = 239;

/// An operand that was put aside, if it is pushed.
fn read_aside(operand: code_drafts::Operand) -> code_drafts::Operand
    ensures { as_operand result ≡ spec.read_aside (as_operand operand) }
{
    match operand {
        code_drafts::Operand::Pushed => {
            code_drafts::Operand::Variable(Variable::Global(ASIDE_GLOBAL))
        }
        code_drafts::Operand::Number(number) => code_drafts::Operand::Number(number),
        code_drafts::Operand::Variable(variable) => code_drafts::Operand::Variable(variable),
    }
}

/// An operand, where one after it is pushed, or none is.
fn name_aside(operand: code_drafts::Operand, after: bool) -> code_drafts::Operand
    ensures { as_operand result
        ≡ (if after then as_operand operand else spec.read_aside (as_operand operand)) }
{
    if after { operand } else { read_aside(operand) }
}

/// Operands of which the last that is pushed was put aside.
fn with_last_aside(
    alloc: Global,
    operands: &[code_drafts::Operand],
) -> Result<Vec<code_drafts::Operand>, AllocError>
    ensures { IfOk result (λ v. as_operands v.items
        ≡ spec.with_last_aside (as_operands operands.now)) }
{
    let mut named = Vec::new(alloc);
    for number in 0..operands.len() {
        let after = is_any_pushed(&operands[number + 1..]);
        named.push(name_aside(operands[number], after))?;
    }
    Ok(named)
}

/// A call whose last pushed argument was put aside.
pub fn put_call_aside(
    bytes: &mut Vec<u8>,
    alloc: Global,
    address: u16,
    operands: &[code_drafts::Operand],
    destination: Destination,
) -> Result<(), AllocError>
    ensures { OnOk result (AddsCode bytes.old bytes.new
        (call_code address (take most_arguments (spec.with_last_aside (as_operands operands.now)))
        (as_destination destination))) }
{
    let named = with_last_aside(alloc, operands)?;
    put_call(bytes, alloc, address, &named, destination)
}

/// The instruction that returns a number.
fn number_returned(number: u16) -> Instruction
    ensures { instruction_of result ≡ return_code (source_items.number number) }
{
    match number {
        1 => plain(Operation::ReturnTrue, Operands::Zero),
        0 => plain(Operation::ReturnFalse, Operands::Zero),
        _ => plain(Operation::Return, Operands::One(constant(number))),
    }
}

/// A word is returned.
pub fn put_return(bytes: &mut Vec<u8>, operand: code_drafts::Operand) -> Result<(), AllocError>
    ensures { OnOk result (AddsCode bytes.old bytes.new (return_code (as_operand operand) ∷ [])) }
{
    let returned = match operand {
        code_drafts::Operand::Pushed => plain(Operation::ReturnPopped, Operands::Zero),
        code_drafts::Operand::Number(number) => number_returned(number),
        code_drafts::Operand::Variable(variable) => {
            let word = Operand::Variable(variable_number(variable));
            plain(Operation::Return, Operands::One(word))
        }
    };
    put_all(bytes, &[returned])
}
