//! Objects that go from one to another, and objects one after another.

ghost use Rattle.std.specs.Prelude.{◌≡◌, ◌<◌, ◌+◌, ◌++◌, [], ◌∷◌, OnOk};
ghost use Rattle.zcore.specs.declared.instruction.Operand.TheVariants as words;
ghost use Rattle.zcore.specs.declared.instruction.Operation.TheVariants.{InsertObject};
ghost use Rattle.code_drafts.specs.Code.{as_operand};
ghost use Rattle.code_drafts.specs.Instructions as basic;
ghost use Rattle.code_drafts.specs.Bytes.{AddsCode};
ghost use Rattle.code_drafts.specs.Written.{addresses_of, instruction_of};
ghost use Rattle.code_instructions.specs.ObjectCode as spec;
ghost use Rattle.code_instructions.specs.Written.{objects_in};

use crate::objects::{found, objects_of, put_object, put_tests};
use crate::tested::{offset_over_comparison, put_pulled};
use code_drafts::{
    Addresses, FOURTH, Instruction, Operands, Sizes, THIRD, branching, constant, fault_address,
    giving, plain, print_fault, put_all, quit, store, variable_number,
};
use meaning::{Cause, Variable};
use std::alloc::AllocError;
use zcore::{Operand, Operation};

/// The offset of a jump that leads back to the fourth instruction before it, by 13 bytes.
const BACK_TO_TEST: u16 = 65525;

/// From an object up to its parents: where one is that which is to go into the object, the text of
/// the fault is printed, and the story ends.
fn put_climbing(
    bytes: &mut Vec<u8>,
    addresses: &Addresses<'_>,
    into: Operand,
) -> Result<(), AllocError>
    ensures { OnOk result (AddsCode bytes.old bytes.new
        (spec.climbing (addresses_of addresses.now) into)) }
{
    let place = Operand::Variable(FOURTH);
    let same = Operands::Two(place, Operand::Variable(THIRD));
    let back = Operands::One(Operand::Large(BACK_TO_TEST));
    put_all(
        bytes,
        &[
            store(FOURTH, into),
            branching(Operation::JumpIfEqual, same, true, 11),
            giving(Operation::GetParent, Operands::One(place), FOURTH),
            branching(Operation::JumpIfZero, Operands::One(place), true, 9),
            plain(Operation::Jump, back),
            print_fault(fault_address(addresses, Cause::ObjectInsideItself)),
            quit(),
        ],
    )
}

/// The object in a variable of the compiler goes into another that is tested.
#[tactic(auto, using(code_drafts::proofs::Chains::all_joined))]
fn put_moved(
    bytes: &mut Vec<u8>,
    addresses: &Addresses<'_>,
    into: Operand,
) -> Result<(), AllocError>
    ensures { OnOk result (AddsCode bytes.old bytes.new
        (spec.climbing (addresses_of addresses.now) into
        ++ basic.plain InsertObject (words.Variable (basic.temporary 2) ∷ into ∷ []) ∷ [])) }
{
    put_climbing(bytes, addresses, into)?;
    let operands = Operands::Two(Operand::Variable(THIRD), into);
    put_all(bytes, &[plain(Operation::InsertObject, operands)])
}

/// An object that is to go goes to a variable of the compiler.
fn put_kept(bytes: &mut Vec<u8>, object: Operand) -> Result<(), AllocError>
    ensures { OnOk result (AddsCode bytes.old bytes.new
        (basic.store (basic.temporary 2) object ∷ [])) }
{
    put_all(bytes, &[store(THIRD, object)])
}

/// An object that is tested goes into another.
fn put_moved_object(
    bytes: &mut Vec<u8>,
    addresses: &Addresses<'_>,
    sizes: &Sizes<'_>,
    object: Operand,
    into: code_drafts::Operand,
) -> Result<(), AllocError>
    ensures { OnOk result (AddsCode bytes.old bytes.new
        (spec.moved_into (addresses_of addresses.now) (objects_in sizes.now) object
        (as_operand into))) }
{
    put_kept(bytes, object)?;
    put_tests(bytes, addresses, sizes, 1, into)?;
    if let Some(into) = found(sizes, 1, into) {
        put_moved(bytes, addresses, into)?;
    }
    Ok(())
}

/// An object goes into another: the first into the second.
pub fn put_move_object(
    bytes: &mut Vec<u8>,
    addresses: &Addresses<'_>,
    sizes: &Sizes<'_>,
    operand: code_drafts::Operand,
    into: code_drafts::Operand,
) -> Result<(), AllocError>
    ensures { OnOk result (AddsCode bytes.old bytes.new
        (spec.move_object_code (addresses_of addresses.now) (objects_in sizes.now)
        (as_operand operand) (as_operand into))) }
{
    put_pulled(bytes, 1, into)?;
    put_object(bytes, addresses, sizes, operand)?;
    if let Some(object) = found(sizes, 0, operand) {
        put_moved_object(bytes, addresses, sizes, object, into)?;
    }
    Ok(())
}

/// A jump by an offset.
fn jump_by(offset: u16) -> Instruction
    ensures { instruction_of result ≡ spec.jump_by offset }
{
    plain(Operation::Jump, Operands::One(Operand::Large(offset)))
}

/// A variable gets object 1, or the jump is made where there is none.
pub fn put_first_object(
    bytes: &mut Vec<u8>,
    sizes: &Sizes<'_>,
    variable: Variable,
    offset: usize,
) -> Result<(), AllocError>
    ensures { OnOk result (AddsCode bytes.old bytes.new
        (spec.first_object_code (objects_in sizes.now) variable offset)) }
{
    if objects_of(sizes) == 0 {
        put_all(bytes, &[jump_by((offset % 65536) as u16)])
    } else {
        put_all(
            bytes,
            &[store(variable_number(variable), Operand::Small(1))],
        )
    }
}

/// A variable gets the next object, or the jump is made where there is none.
pub fn put_next_object(
    bytes: &mut Vec<u8>,
    sizes: &Sizes<'_>,
    variable: Variable,
    offset: usize,
) -> Result<(), AllocError>
    ensures { OnOk result (AddsCode bytes.old bytes.new
        (spec.next_object_code (objects_in sizes.now) variable offset)) }
{
    let objects = objects_of(sizes);
    let number = variable_number(variable);
    let word = Operand::Variable(number);
    let none = Operands::Two(word, Operand::Small(1));
    let below = Operands::Two(word, constant(objects));
    let over = ((offset % 65536 + 2) % 65536) as u16;
    put_all(
        bytes,
        &[
            branching(
                Operation::JumpIfLess,
                none,
                true,
                offset_over_comparison(objects),
            ),
            branching(Operation::JumpIfLess, below, true, 5),
            jump_by(over),
            plain(Operation::Increment, Operands::One(Operand::Small(number))),
        ],
    )
}
