//! Items on objects: their tests, the tree, attributes and names.

ghost use Rattle.std.specs.Prelude.{◌≡◌, ◌<◌, ◌+◌, ◌++◌, [], ◌∷◌, map, OnOk};
ghost use Rattle.zcore.specs.declared.instruction.Operand.TheVariants.{Small};
ghost use Rattle.meaning.specs.declared.cause.Cause.TheVariants.{NotAnObject};
ghost use Rattle.code_drafts.specs.Code.{as_operand, as_destination};
ghost use Rattle.code_drafts.specs.Instructions.{pulled_into};
ghost use Rattle.code_drafts.specs.Instructions as basic;
ghost use Rattle.code_drafts.specs.Bytes.{AddsCode};
ghost use Rattle.code_drafts.specs.Written.{addresses_of, instruction_of};
ghost use Rattle.code_instructions.specs.Instructions.{tested_between};
ghost use Rattle.code_instructions.specs.ObjectCode.{at_object, tests_in};
ghost use Rattle.code_instructions.specs.ObjectCode as spec;
ghost use Rattle.code_instructions.specs.Written.{objects_in, found_in};

use crate::jumps::put_labelled;
use crate::tested::{FIRST_NEGATIVE, put_fail, put_pulled, put_tested_between, word_in};
use code_drafts::{
    Addresses, Destination, FIRST, Instruction, Operands, ShortBranch, Sizes, giving, plain,
    put_all, result_in, variable_number,
};
use meaning::Cause;
use std::alloc::AllocError;
use syntax_trees::Relative;
use zcore::{Operand, Operation};

/// How many objects a program has. No program that breaks no rule of the language has 32,768.
pub fn objects_of(sizes: &Sizes<'_>) -> u16
    ensures value { result ≡ objects_in sizes.now }
    ensures few { result < 32768 }
{
    (sizes.objects % 32768) as u16
}

/// Whether a number is that of an object.
fn is_object(objects: u16, number: u16) -> bool
    requires { objects < 32768 }
    ensures { result ≡ spec.is_object objects number }
{
    number < FIRST_NEGATIVE && (1 <= number && number < objects + 1)
}

/// An object in a variable is tested: where it is none, the text of the fault is printed, and the
/// story ends.
fn put_tested_object(
    bytes: &mut Vec<u8>,
    addresses: &Addresses<'_>,
    objects: u16,
    variable: u8,
) -> Result<(), AllocError>
    requires { objects < 32768 }
    ensures { OnOk result (AddsCode bytes.old bytes.new
        (tested_between (addresses_of addresses.now) NotAnObject 1 (objects + 1) variable)) }
{
    put_tested_between(
        bytes,
        addresses,
        Cause::NotAnObject,
        1,
        objects + 1,
        variable,
    )
}

/// The tests of an object; a pushed one is in the compiler's variable of a number.
fn put_object_tests(
    bytes: &mut Vec<u8>,
    addresses: &Addresses<'_>,
    objects: u16,
    temporary: u8,
    operand: code_drafts::Operand,
) -> Result<(), AllocError>
    requires few { objects < 32768 }
    requires variable { temporary < 8 }
    ensures { OnOk result (AddsCode bytes.old bytes.new
        (tests_in temporary (addresses_of addresses.now) NotAnObject 1 (objects + 1)
        (as_operand operand))) }
{
    match operand {
        code_drafts::Operand::Pushed => put_tested_object(
            bytes,
            addresses,
            objects,
            FIRST + temporary,
        ),
        code_drafts::Operand::Number(number) => {
            if is_object(objects, number) {
                put_all(bytes, &[])
            } else {
                put_fail(bytes, addresses, Cause::NotAnObject)
            }
        }
        code_drafts::Operand::Variable(variable) => {
            put_tested_object(bytes, addresses, objects, variable_number(variable))
        }
    }
}

/// What stands for an object after its tests; none for a number that is none.
fn find_object(objects: u16, temporary: u8, operand: code_drafts::Operand) -> Option<Operand>
    requires few { objects < 32768 }
    requires variable { temporary < 8 }
    ensures { result ≡ found_in temporary 1 (objects + 1) (as_operand operand) }
{
    match operand {
        code_drafts::Operand::Number(number) => {
            if is_object(objects, number) {
                Some(word_in(temporary, operand))
            } else {
                None
            }
        }
        _ => Some(word_in(temporary, operand)),
    }
}

/// The tests of an object of a program of these sizes; a pushed one is in the compiler's variable
/// of a number.
pub fn put_tests(
    bytes: &mut Vec<u8>,
    addresses: &Addresses<'_>,
    sizes: &Sizes<'_>,
    temporary: u8,
    operand: code_drafts::Operand,
) -> Result<(), AllocError>
    requires { temporary < 8 }
    ensures { OnOk result (AddsCode bytes.old bytes.new
        (tests_in temporary (addresses_of addresses.now) NotAnObject 1 (objects_in sizes.now + 1)
        (as_operand operand))) }
{
    put_object_tests(bytes, addresses, objects_of(sizes), temporary, operand)
}

/// What stands for an object after its tests; nothing is done after the fault of a number that is
/// none.
pub fn found(sizes: &Sizes<'_>, temporary: u8, operand: code_drafts::Operand) -> Option<Operand>
    requires { temporary < 8 }
    ensures { result ≡ found_in temporary 1 (objects_in sizes.now + 1) (as_operand operand) }
{
    find_object(objects_of(sizes), temporary, operand)
}

/// An object is taken from the stack, where it is pushed, and tested.
#[tactic(auto, using(code_drafts::proofs::Chains::all_joined))]
pub fn put_object(
    bytes: &mut Vec<u8>,
    addresses: &Addresses<'_>,
    sizes: &Sizes<'_>,
    operand: code_drafts::Operand,
) -> Result<(), AllocError>
    ensures { OnOk result (AddsCode bytes.old bytes.new
        (pulled_into 0 (as_operand operand)
        ++ tests_in 0 (addresses_of addresses.now) NotAnObject 1 (objects_in sizes.now + 1)
        (as_operand operand))) }
{
    put_pulled(bytes, 0, operand)?;
    put_tests(bytes, addresses, sizes, 0, operand)
}

/// The instruction that tells the parent, the first child or the sibling of an object.
fn relative_of(relative: Relative, object: Operand, variable: u8) -> Instruction
    ensures { instruction_of result ≡ spec.relative_of relative object variable }
{
    let operands = Operands::One(object);
    let operation = match relative {
        Relative::Parent => return giving(Operation::GetParent, operands, variable),
        Relative::Child => Operation::GetChild,
        Relative::Sibling => Operation::GetSibling,
    };
    let next = ShortBranch {
        when: true,
        offset: 2,
    };
    Instruction {
        operation,
        operands,
        result: Some(variable),
        branch: Some(next),
    }
}

/// The parent, the first child or the sibling of an object.
pub fn put_relative(
    bytes: &mut Vec<u8>,
    addresses: &Addresses<'_>,
    sizes: &Sizes<'_>,
    relative: Relative,
    operand: code_drafts::Operand,
    destination: Destination,
) -> Result<(), AllocError>
    ensures { OnOk result (AddsCode bytes.old bytes.new
        (spec.relative_code (addresses_of addresses.now) (objects_in sizes.now) relative
        (as_operand operand) (as_destination destination))) }
{
    put_object(bytes, addresses, sizes, operand)?;
    if let Some(object) = found(sizes, 0, operand) {
        let told = relative_of(relative, object, result_in(destination));
        put_all(bytes, &[told])?;
    }
    Ok(())
}

/// An instruction on an object alone.
pub fn put_on_object(
    bytes: &mut Vec<u8>,
    addresses: &Addresses<'_>,
    sizes: &Sizes<'_>,
    operation: Operation,
    operand: code_drafts::Operand,
) -> Result<(), AllocError>
    ensures { OnOk result (AddsCode bytes.old bytes.new
        (at_object (addresses_of addresses.now) (objects_in sizes.now) (as_operand operand)
        (λ x. basic.plain operation (x ∷ []) ∷ []))) }
{
    put_object(bytes, addresses, sizes, operand)?;
    if let Some(object) = found(sizes, 0, operand) {
        put_all(bytes, &[plain(operation, Operands::One(object))])?;
    }
    Ok(())
}

/// The instruction that gives an object an attribute, or takes it from the object.
fn changing(object: Operand, change: (bool, usize)) -> Instruction
    ensures { instruction_of result ≡ spec.changing object change }
{
    let (has, attribute) = change;
    let operation = if has {
        Operation::SetAttribute
    } else {
        Operation::ClearAttribute
    };
    let number = Operand::Small((attribute % 256) as u8);
    plain(operation, Operands::Two(object, number))
}

/// An object gets attributes, or is without them, in order.
fn put_changes(
    bytes: &mut Vec<u8>,
    object: Operand,
    changes: &[(bool, usize)],
) -> Result<(), AllocError>
    ensures { OnOk result (AddsCode bytes.old bytes.new (map (spec.changing object) changes.now)) }
{
    for change in changes {
        put_all(bytes, &[changing(object, *change)])?;
    }
    Ok(())
}

/// An object gets attributes, or is without them, in order.
pub fn put_give(
    bytes: &mut Vec<u8>,
    addresses: &Addresses<'_>,
    sizes: &Sizes<'_>,
    operand: code_drafts::Operand,
    changes: &[(bool, usize)],
) -> Result<(), AllocError>
    ensures { OnOk result (AddsCode bytes.old bytes.new
        (spec.give_code (addresses_of addresses.now) (objects_in sizes.now) (as_operand operand)
        changes.now)) }
{
    put_object(bytes, addresses, sizes, operand)?;
    if let Some(object) = found(sizes, 0, operand) {
        put_changes(bytes, object, changes)?;
    }
    Ok(())
}

/// A branch by whether the parent of an object is another word: the object and that word, which is
/// above it where both are pushed.
pub fn put_is_in(
    bytes: &mut Vec<u8>,
    addresses: &Addresses<'_>,
    sizes: &Sizes<'_>,
    words: (code_drafts::Operand, code_drafts::Operand),
    when: bool,
    offset: usize,
) -> Result<(), AllocError>
    ensures { OnOk result (AddsCode bytes.old bytes.new
        (spec.is_in_code (addresses_of addresses.now) (objects_in sizes.now) (as_operand words.0)
        (as_operand words.1) when offset)) }
{
    let (object, other) = words;
    put_pulled(bytes, 1, other)?;
    put_object(bytes, addresses, sizes, object)?;
    let operands = [word_in(0, object), word_in(1, other)];
    put_labelled(bytes, Operation::JumpIfIn, &operands, when, offset)
}

/// A branch by whether an object has the attribute of a number.
pub fn put_has(
    bytes: &mut Vec<u8>,
    addresses: &Addresses<'_>,
    sizes: &Sizes<'_>,
    operand: code_drafts::Operand,
    attribute: u8,
    when: bool,
    offset: usize,
) -> Result<(), AllocError>
    ensures { OnOk result (AddsCode bytes.old bytes.new
        (spec.has_code (addresses_of addresses.now) (objects_in sizes.now) (as_operand operand)
        attribute when offset)) }
{
    put_object(bytes, addresses, sizes, operand)?;
    let operands = [word_in(0, operand), Operand::Small(attribute)];
    put_labelled(bytes, Operation::TestAttribute, &operands, when, offset)
}
