//! Items on the properties of objects.

ghost use Rattle.std.specs.Prelude.{◌≡◌, ◌<◌, [], ◌∷◌, OnOk};
ghost use Rattle.zcore.specs.declared.instruction.Operand.TheVariants.{Variable};
ghost use Rattle.zcore.specs.declared.instruction.Operation.TheVariants.{LoadWord, StoreWord};
ghost use Rattle.code_drafts.specs.Code.{as_operand, as_destination};
ghost use Rattle.code_drafts.specs.Instructions as basic;
ghost use Rattle.code_drafts.specs.Bytes.{AddsCode};
ghost use Rattle.code_drafts.specs.Written.{addresses_of, instruction_of};
ghost use Rattle.code_instructions.specs.ObjectCode as spec;
ghost use Rattle.code_instructions.specs.Written.{objects_in, single_in};

use crate::jumps::put_labelled;
use crate::objects::{found, put_object};
use crate::tested::{put_pulled, word_in};
use code_drafts::{
    ASIDE, Addresses, Destination, FIRST, FOURTH, Instruction, Operands, SECOND, Sizes, THIRD,
    branching, fault_address, giving, has_one_word, plain, print_fault, push, put_all, quit,
    result_in, store, variable_number,
};
use meaning::Cause;
use std::alloc::AllocError;
use zcore::{Operand, Operation};

/// Where the words of an object's property stand, 0 where the object does not provide it.
fn property_address(object: Operand, property: u8, variable: u8) -> Instruction
    ensures { instruction_of result ≡ spec.property_address object property variable }
{
    let operands = Operands::Two(object, Operand::Small(property));
    giving(Operation::GetPropertyAddress, operands, variable)
}

/// How many bytes the words have that stand where a variable says.
fn length_at(place: u8, variable: u8) -> Instruction
    ensures { instruction_of result ≡ spec.length_at place variable }
{
    let operands = Operands::One(Operand::Variable(place));
    giving(Operation::GetPropertyLength, operands, variable)
}

/// A branch where the word of a variable is 0, or is not.
fn branching_zero(variable: u8, when: bool, offset: u8) -> Instruction
    ensures { instruction_of result ≡ spec.branching_zero variable when offset }
{
    let operands = Operands::One(Operand::Variable(variable));
    branching(Operation::JumpIfZero, operands, when, offset)
}

/// A branch over a fault where a variable says that words have two bytes.
fn branching_single(variable: u8) -> Instruction
    ensures { instruction_of result ≡ spec.branching_single variable }
{
    let operands = Operands::Two(Operand::Variable(variable), Operand::Small(2));
    branching(Operation::JumpIfEqual, operands, true, 6)
}

/// A branch by whether an object provides the property of a number.
pub fn put_provides(
    bytes: &mut Vec<u8>,
    addresses: &Addresses<'_>,
    sizes: &Sizes<'_>,
    operand: code_drafts::Operand,
    property: u8,
    when: bool,
    offset: usize,
) -> Result<(), AllocError>
    ensures { OnOk result (AddsCode bytes.old bytes.new
        (spec.provides_code (addresses_of addresses.now) (objects_in sizes.now) (as_operand operand)
        property when offset)) }
{
    put_object(bytes, addresses, sizes, operand)?;
    put_all(
        bytes,
        &[property_address(word_in(0, operand), property, FIRST)],
    )?;
    let operands = [Operand::Variable(FIRST)];
    put_labelled(bytes, Operation::JumpIfZero, &operands, !when, offset)
}

/// The word of a property that has one, or its default. It is not tested where it has one word
/// wherever it is provided.
fn put_value(
    bytes: &mut Vec<u8>,
    addresses: &Addresses<'_>,
    single: bool,
    object: Operand,
    property: u8,
    destination: Destination,
) -> Result<(), AllocError>
    ensures { OnOk result (AddsCode bytes.old bytes.new
        (spec.property_value (addresses_of addresses.now) single object property
        (basic.result_in (as_destination destination)))) }
{
    let operands = Operands::Two(object, Operand::Small(property));
    let read = giving(Operation::GetProperty, operands, result_in(destination));
    if single {
        return put_all(bytes, &[read]);
    }
    put_all(
        bytes,
        &[
            property_address(object, property, SECOND),
            branching_zero(SECOND, true, 13),
            length_at(SECOND, SECOND),
            branching_single(SECOND),
            print_fault(fault_address(addresses, Cause::PropertyOfManyWords)),
            quit(),
            read,
        ],
    )
}

/// The word of an object's property.
pub fn put_property(
    bytes: &mut Vec<u8>,
    addresses: &Addresses<'_>,
    sizes: &Sizes<'_>,
    operand: code_drafts::Operand,
    property: u8,
    destination: Destination,
) -> Result<(), AllocError>
    ensures { OnOk result (AddsCode bytes.old bytes.new
        (spec.property_code (addresses_of addresses.now) (objects_in sizes.now)
        (single_in sizes.now property) (as_operand operand) property (as_destination destination))) }
{
    put_object(bytes, addresses, sizes, operand)?;
    if let Some(object) = found(sizes, 0, operand) {
        let single = has_one_word(sizes, property);
        put_value(bytes, addresses, single, object, property, destination)?;
    }
    Ok(())
}

/// How many bytes an object's property has.
pub fn put_property_size(
    bytes: &mut Vec<u8>,
    addresses: &Addresses<'_>,
    sizes: &Sizes<'_>,
    operand: code_drafts::Operand,
    property: u8,
    destination: Destination,
) -> Result<(), AllocError>
    ensures { OnOk result (AddsCode bytes.old bytes.new
        (spec.property_size_code (addresses_of addresses.now) (objects_in sizes.now)
        (as_operand operand) property (as_destination destination))) }
{
    put_object(bytes, addresses, sizes, operand)?;
    if let Some(object) = found(sizes, 0, operand) {
        let address = property_address(object, property, SECOND);
        let length = length_at(SECOND, result_in(destination));
        put_all(bytes, &[address, length])?;
    }
    Ok(())
}

/// Where the words of an object's property stand goes to a variable of the compiler. Where the
/// object does not provide it, the text of the fault is printed, and the story ends.
fn put_provided(
    bytes: &mut Vec<u8>,
    addresses: &Addresses<'_>,
    object: Operand,
    property: u8,
) -> Result<(), AllocError>
    ensures { OnOk result (AddsCode bytes.old bytes.new
        (spec.provided (addresses_of addresses.now) object property)) }
{
    put_all(
        bytes,
        &[
            property_address(object, property, THIRD),
            branching_zero(THIRD, false, 6),
            print_fault(fault_address(addresses, Cause::NoSuchProperty)),
            quit(),
        ],
    )
}

/// There is one word, or the text of the fault is printed, and the story ends. It is not tested
/// where there is one wherever the property is provided.
fn put_tested_single(
    bytes: &mut Vec<u8>,
    addresses: &Addresses<'_>,
    single: bool,
) -> Result<(), AllocError>
    ensures { OnOk result (AddsCode bytes.old bytes.new
        (spec.tested_single (addresses_of addresses.now) single)) }
{
    if single {
        return put_all(bytes, &[]);
    }
    put_all(
        bytes,
        &[
            length_at(THIRD, FOURTH),
            branching_single(FOURTH),
            print_fault(fault_address(addresses, Cause::PropertyOfManyWords)),
            quit(),
        ],
    )
}

/// How far a branch leads to after a comparison of an operand with a variable.
fn offset_over_operand(operand: Operand) -> u8
    ensures { result ≡ spec.offset_over_operand operand }
{
    match operand {
        Operand::Large(_) => 8,
        _ => 6,
    }
}

/// An index is one of a word, or the text of the fault is printed, and the story ends.
fn put_tested_word(
    bytes: &mut Vec<u8>,
    addresses: &Addresses<'_>,
    index: Operand,
) -> Result<(), AllocError>
    ensures { OnOk result (AddsCode bytes.old bytes.new
        (spec.tested_word (addresses_of addresses.now) index)) }
{
    let count = Operand::Variable(FOURTH);
    let halved = Operands::Two(count, Operand::Small(2));
    let before = Operands::Two(index, Operand::Small(0));
    let below = Operands::Two(index, count);
    put_all(
        bytes,
        &[
            length_at(THIRD, FOURTH),
            giving(Operation::Div, halved, FOURTH),
            branching(
                Operation::JumpIfLess,
                before,
                true,
                offset_over_operand(index),
            ),
            branching(Operation::JumpIfLess, below, true, 6),
            print_fault(fault_address(addresses, Cause::IndexOutOfRange)),
            quit(),
        ],
    )
}

/// A word at an index is read, which is tested.
#[tactic(auto, using(code_drafts::proofs::Chains::three_joined))]
fn put_word(
    bytes: &mut Vec<u8>,
    addresses: &Addresses<'_>,
    object: Operand,
    property: u8,
    index: Operand,
    destination: Destination,
) -> Result<(), AllocError>
    ensures { OnOk result (AddsCode bytes.old bytes.new
        (spec.loaded_at (addresses_of addresses.now) object property index
        (basic.result_in (as_destination destination)))) }
{
    put_provided(bytes, addresses, object, property)?;
    put_tested_word(bytes, addresses, index)?;
    let operands = Operands::Two(Operand::Variable(THIRD), index);
    put_all(
        bytes,
        &[giving(Operation::LoadWord, operands, result_in(destination))],
    )
}

/// A word of an object's property: object and index.
pub fn put_property_word(
    bytes: &mut Vec<u8>,
    addresses: &Addresses<'_>,
    sizes: &Sizes<'_>,
    property: u8,
    words: (code_drafts::Operand, code_drafts::Operand),
    destination: Destination,
) -> Result<(), AllocError>
    ensures { OnOk result (AddsCode bytes.old bytes.new
        (spec.property_word_code (addresses_of addresses.now) (objects_in sizes.now) property
        (as_operand words.0) (as_operand words.1) (as_destination destination))) }
{
    let (operand, index) = words;
    put_pulled(bytes, 1, index)?;
    put_object(bytes, addresses, sizes, operand)?;
    if let Some(object) = found(sizes, 0, operand) {
        let index = word_in(1, index);
        put_word(bytes, addresses, object, property, index, destination)?;
    }
    Ok(())
}

/// A word is written at an index, and goes on.
fn put_stored(
    bytes: &mut Vec<u8>,
    index: Operand,
    word: Operand,
    destination: Destination,
) -> Result<(), AllocError>
    ensures { OnOk result (AddsCode bytes.old bytes.new
        (basic.plain StoreWord (Variable (basic.temporary 2) ∷ index ∷ word ∷ []) ∷ spec.passed_on
        (as_destination destination) word)) }
{
    let operands = Operands::Three(Operand::Variable(THIRD), index, word);
    let written = plain(Operation::StoreWord, operands);
    match destination {
        Destination::Push => put_all(bytes, &[written, push(word)]),
        Destination::Into(variable) => {
            put_all(bytes, &[written, store(variable_number(variable), word)])
        }
        Destination::Aside => put_all(bytes, &[written, store(ASIDE, word)]),
        Destination::Nowhere => put_all(bytes, &[written]),
    }
}

/// A word is written to the one word of a property, and goes on.
#[tactic(auto, using(code_drafts::proofs::Chains::three_joined))]
fn put_assigned(
    bytes: &mut Vec<u8>,
    addresses: &Addresses<'_>,
    single: bool,
    object: Operand,
    property: u8,
    word: Operand,
    destination: Destination,
) -> Result<(), AllocError>
    ensures { OnOk result (AddsCode bytes.old bytes.new
        (spec.assigned_single (addresses_of addresses.now) single object property word
        (as_destination destination))) }
{
    put_provided(bytes, addresses, object, property)?;
    put_tested_single(bytes, addresses, single)?;
    put_stored(bytes, Operand::Small(0), word, destination)
}

/// A word is assigned to an object's property, and goes on: object and word.
pub fn put_assign_property(
    bytes: &mut Vec<u8>,
    addresses: &Addresses<'_>,
    sizes: &Sizes<'_>,
    property: u8,
    words: (code_drafts::Operand, code_drafts::Operand),
    destination: Destination,
) -> Result<(), AllocError>
    ensures { OnOk result (AddsCode bytes.old bytes.new
        (spec.assign_property_code (addresses_of addresses.now) (objects_in sizes.now)
        (single_in sizes.now property) property (as_operand words.0) (as_operand words.1)
        (as_destination destination))) }
{
    let (operand, word) = words;
    put_pulled(bytes, 1, word)?;
    put_object(bytes, addresses, sizes, operand)?;
    if let Some(object) = found(sizes, 0, operand) {
        let word = word_in(1, word);
        let single = has_one_word(sizes, property);
        put_assigned(
            bytes,
            addresses,
            single,
            object,
            property,
            word,
            destination,
        )?;
    }
    Ok(())
}

/// A word is written at an index of a property, which is tested, and goes on: index and word.
#[tactic(auto, using(code_drafts::proofs::Chains::three_joined))]
fn put_assigned_word(
    bytes: &mut Vec<u8>,
    addresses: &Addresses<'_>,
    object: Operand,
    property: u8,
    words: (Operand, Operand),
    destination: Destination,
) -> Result<(), AllocError>
    ensures { OnOk result (AddsCode bytes.old bytes.new
        (spec.assigned_at (addresses_of addresses.now) object property words.0 words.1
        (as_destination destination))) }
{
    put_provided(bytes, addresses, object, property)?;
    put_tested_word(bytes, addresses, words.0)?;
    put_stored(bytes, words.0, words.1, destination)
}

/// A word is assigned to a word of an object's property, and goes on: object, index and word.
pub fn put_assign_property_word(
    bytes: &mut Vec<u8>,
    addresses: &Addresses<'_>,
    sizes: &Sizes<'_>,
    property: u8,
    words: (
        code_drafts::Operand,
        code_drafts::Operand,
        code_drafts::Operand,
    ),
    destination: Destination,
) -> Result<(), AllocError>
    ensures { OnOk result (AddsCode bytes.old bytes.new
        (spec.assign_property_word_code (addresses_of addresses.now) (objects_in sizes.now) property
        (as_operand words.0) (as_operand words.1) (as_operand words.2)
        (as_destination destination))) }
{
    let (operand, index, word) = words;
    put_pulled(bytes, 1, word)?;
    put_pulled(bytes, 4, index)?;
    put_object(bytes, addresses, sizes, operand)?;
    if let Some(object) = found(sizes, 0, operand) {
        let at = (word_in(4, index), word_in(1, word));
        put_assigned_word(bytes, addresses, object, property, at, destination)?;
    }
    Ok(())
}
