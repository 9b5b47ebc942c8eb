//! Words that are moved, kept and stepped.

ghost use Rattle.std.specs.Prelude.{◌≡◌, [], ◌∷◌, OnOk};
ghost use Rattle.code_drafts.specs.Code.{as_operand, as_destination};
ghost use Rattle.code_drafts.specs.Instructions.{number_of};
ghost use Rattle.code_drafts.specs.Instructions as basic;
ghost use Rattle.code_drafts.specs.Bytes.{AddsCode};
ghost use Rattle.code_drafts.specs.Written.{instruction_of};
ghost use Rattle.code_instructions.specs.Instructions.{move_to, move_code, step_code, stepping, step_operation};

use code_drafts::{
    ASIDE, Destination, FIRST, Instruction, Operands, copy, in_place, plain, pull, push, put_all,
    store, variable_number,
};
use meaning::Variable;
use std::alloc::AllocError;
use syntax_trees::Step;
use zcore::{Operand, Operation};

/// A word goes to the variable of a number.
fn move_to(operand: code_drafts::Operand, variable: u8) -> Instruction
    ensures { instruction_of result ≡ move_to (as_operand operand) variable }
{
    match operand {
        code_drafts::Operand::Pushed => pull(variable),
        _ => store(variable, in_place(operand)),
    }
}

/// A word goes to a destination.
pub fn put_move(
    bytes: &mut Vec<u8>,
    operand: code_drafts::Operand,
    destination: Destination,
) -> Result<(), AllocError>
    ensures { OnOk result (AddsCode bytes.old bytes.new
        (move_code (as_operand operand) (as_destination destination) ∷ [])) }
{
    match destination {
        Destination::Push => put_all(bytes, &[push(in_place(operand))]),
        Destination::Into(variable) => {
            put_all(bytes, &[move_to(operand, variable_number(variable))])
        }
        Destination::Aside => put_all(bytes, &[move_to(operand, ASIDE)]),
        Destination::Nowhere => put_all(bytes, &[store(FIRST, in_place(operand))]),
    }
}

/// The topmost word goes to a variable, and stays.
pub fn put_keep(bytes: &mut Vec<u8>, variable: Variable) -> Result<(), AllocError>
    ensures { OnOk result (AddsCode bytes.old bytes.new (basic.copy (number_of variable) ∷ [])) }
{
    put_all(bytes, &[copy(variable_number(variable))])
}

/// The instruction that steps a variable.
fn operation_of(step: Step) -> Operation
    ensures { result ≡ step_operation step }
{
    match step {
        Step::Increment => Operation::Increment,
        Step::Decrement => Operation::Decrement,
    }
}

/// A variable is stepped, and its new word goes to a destination.
pub fn put_step(
    bytes: &mut Vec<u8>,
    step: Step,
    variable: Variable,
    destination: Destination,
) -> Result<(), AllocError>
    ensures { OnOk result (AddsCode bytes.old bytes.new
        (step_code step variable (as_destination destination))) }
{
    let number = variable_number(variable);
    let stepped = plain(operation_of(step), Operands::One(Operand::Small(number)));
    let word = Operand::Variable(number);
    match destination {
        Destination::Push => put_all(bytes, &[stepped, push(word)]),
        Destination::Into(other) => {
            put_all(bytes, &[stepped, store(variable_number(other), word)])
        }
        Destination::Aside => put_all(bytes, &[stepped, store(ASIDE, word)]),
        Destination::Nowhere => put_all(bytes, &[stepped]),
    }
}
