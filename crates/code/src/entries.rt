//! Entries of arrays.

ghost use Rattle.std.specs.Prelude.{◌≡◌, ◌++◌, ◌%◌, [], ◌∷◌, slice_index, OnOk};
ghost use Rattle.zcore.specs.declared.instruction.Operand.TheVariants.{Large, Variable};
ghost use Rattle.meaning.specs.declared.cause.Cause.TheVariants.{IndexOutOfRange};
ghost use Rattle.code_drafts.specs.Items as source_items;
ghost use Rattle.code_drafts.specs.Code.{as_operand, as_destination};
ghost use Rattle.code_drafts.specs.Instructions as basic;
ghost use Rattle.code_drafts.specs.Bytes.{AddsCode};
ghost use Rattle.code_drafts.specs.Written.{addresses_of};
ghost use Rattle.code_instructions.specs.ObjectCode.{passed_on};
ghost use Rattle.code.specs.ItemCode.{tested_index, at_index, entry_code, assign_entry_code};
ghost use Rattle.code.specs.ItemCode.{entry_aside_code, assign_entry_aside_code};
ghost use Rattle.code.specs.ItemCode as spec;

use code_drafts::{
    ASIDE, Addresses, Destination, FIRST, Operands, SECOND, Sizes, array_address, constant, giving,
    in_place, plain, pull, push, put_all, result_in, store, variable_number,
};
use code_instructions::{FIRST_NEGATIVE, put_fail, put_tested_between};
use meaning::Cause;
use std::alloc::AllocError;
use syntax_trees::Width;
use zcore::{Operand, Operation};

/// An array in a story, as entries of a width.
#[derive(Clone, Copy)]
pub struct Array {
    pub width: Width,

    /// How many bytes it has.
    pub size: u16,

    pub address: u16,
}

/// The array of a number. No program that breaks no rule of the language has one of 65,536 bytes.
pub fn array_of(sizes: &Sizes<'_>, addresses: &Addresses<'_>, width: Width, number: usize) -> Array
    ensures width { result.width ≡ width }
    ensures size { result.size ≡ slice_index sizes.now.arrays.now number % 65536 }
    ensures address { result.address ≡ slice_index addresses.now.arrays.now number }
{
    let size = match sizes.arrays.get(number) {
        Some(size) => (*size % 65536) as u16,
        None => 0,
    };
    let address = array_address(addresses, number);
    Array {
        width,
        size,
        address,
    }
}

/// How many entries an array has.
fn entries_in(array: Array) -> u16
    ensures { result ≡ spec.entries_in array.width array.size }
{
    match array.width {
        Width::Byte => array.size,
        Width::Word => array.size / 2,
    }
}

/// Whether an index, as a signed number, is one of so many entries.
fn is_entry(count: u16, index: u16) -> bool
    ensures { result ≡ spec.is_entry count index }
{
    index < FIRST_NEGATIVE && index < count
}

/// The instruction that reads an entry.
fn load_operation(width: Width) -> Operation
    ensures { result ≡ spec.load_operation width }
{
    match width {
        Width::Byte => Operation::LoadByte,
        Width::Word => Operation::LoadWord,
    }
}

/// The instruction that writes an entry.
fn store_operation(width: Width) -> Operation
    ensures { result ≡ spec.store_operation width }
{
    match width {
        Width::Byte => Operation::StoreByte,
        Width::Word => Operation::StoreWord,
    }
}

/// An index in a variable is tested: where it is none of so many entries, the text of the fault is
/// printed, and the story ends.
fn put_tested_index(
    bytes: &mut Vec<u8>,
    addresses: &Addresses<'_>,
    count: u16,
    variable: u8,
) -> Result<(), AllocError>
    ensures { OnOk result (AddsCode bytes.old bytes.new
        (tested_index (addresses_of addresses.now) count variable)) }
{
    put_tested_between(bytes, addresses, Cause::IndexOutOfRange, 0, count, variable)
}

/// An entry is read at an index that it has.
fn put_load(
    bytes: &mut Vec<u8>,
    array: Array,
    index: Operand,
    destination: Destination,
) -> Result<(), AllocError>
    ensures { OnOk result (AddsCode bytes.old bytes.new
        (basic.giving (spec.load_operation array.width) (Large array.address ∷ index ∷ [])
        (basic.result_in (as_destination destination)) ∷ [])) }
{
    let operands = Operands::Two(Operand::Large(array.address), index);
    let operation = load_operation(array.width);
    put_all(
        bytes,
        &[giving(operation, operands, result_in(destination))],
    )
}

/// An entry at an index in a variable.
#[tactic(auto, using(code_drafts::proofs::Chains::all_joined))]
fn put_tested_entry(
    bytes: &mut Vec<u8>,
    addresses: &Addresses<'_>,
    array: Array,
    variable: u8,
    destination: Destination,
) -> Result<(), AllocError>
    ensures { OnOk result (AddsCode bytes.old bytes.new
        (tested_index (addresses_of addresses.now) (spec.entries_in array.width array.size) variable
        ++ basic.giving (spec.load_operation array.width)
        (Large array.address ∷ Variable variable ∷ [])
        (basic.result_in (as_destination destination)) ∷ [])) }
{
    put_tested_index(bytes, addresses, entries_in(array), variable)?;
    put_load(bytes, array, Operand::Variable(variable), destination)
}

/// An entry at a number, which is not tested; at one that is no index it is the fault.
fn put_entry_at(
    bytes: &mut Vec<u8>,
    addresses: &Addresses<'_>,
    array: Array,
    index: u16,
    destination: Destination,
) -> Result<(), AllocError>
    ensures { OnOk result (AddsCode bytes.old bytes.new
        (entry_code (addresses_of addresses.now) array.width array.size array.address
        (source_items.number index) (as_destination destination))) }
{
    if is_entry(entries_in(array), index) {
        put_load(bytes, array, constant(index), destination)
    } else {
        put_fail(bytes, addresses, Cause::IndexOutOfRange)
    }
}

/// An entry of an array.
#[tactic(auto, using(code_drafts::proofs::Chains::all_joined))]
pub fn put_entry(
    bytes: &mut Vec<u8>,
    addresses: &Addresses<'_>,
    array: Array,
    index: code_drafts::Operand,
    destination: Destination,
) -> Result<(), AllocError>
    ensures { OnOk result (AddsCode bytes.old bytes.new
        (entry_code (addresses_of addresses.now) array.width array.size array.address
        (as_operand index) (as_destination destination))) }
{
    match index {
        code_drafts::Operand::Pushed => {
            put_all(bytes, &[pull(FIRST)])?;
            put_tested_entry(bytes, addresses, array, FIRST, destination)
        }
        code_drafts::Operand::Number(number) => {
            put_entry_at(bytes, addresses, array, number, destination)
        }
        code_drafts::Operand::Variable(variable) => {
            let number = variable_number(variable);
            put_tested_entry(bytes, addresses, array, number, destination)
        }
    }
}

/// An entry of an array, at an index that was put aside.
pub fn put_entry_aside(
    bytes: &mut Vec<u8>,
    addresses: &Addresses<'_>,
    array: Array,
    destination: Destination,
) -> Result<(), AllocError>
    ensures { OnOk result (AddsCode bytes.old bytes.new
        (entry_aside_code (addresses_of addresses.now) array.width array.size array.address
        (as_destination destination))) }
{
    put_tested_entry(bytes, addresses, array, ASIDE, destination)
}

/// A word is written to the entry at an index that it has, and goes on.
fn put_store(
    bytes: &mut Vec<u8>,
    array: Array,
    index: Operand,
    word: Operand,
    destination: Destination,
) -> Result<(), AllocError>
    ensures { OnOk result (AddsCode bytes.old bytes.new
        (basic.plain (spec.store_operation array.width) (Large array.address ∷ index ∷ word ∷ []) ∷
        passed_on (as_destination destination) word)) }
{
    let operands = Operands::Three(Operand::Large(array.address), index, word);
    let written = plain(store_operation(array.width), operands);
    match destination {
        Destination::Push => put_all(bytes, &[written, push(word)]),
        Destination::Into(variable) => {
            put_all(bytes, &[written, store(variable_number(variable), word)])
        }
        Destination::Aside => put_all(bytes, &[written, store(ASIDE, word)]),
        Destination::Nowhere => put_all(bytes, &[written]),
    }
}

/// A word is assigned to the entry at an index in a variable.
#[tactic(auto, using(code_drafts::proofs::Chains::all_joined))]
fn put_tested_store(
    bytes: &mut Vec<u8>,
    addresses: &Addresses<'_>,
    array: Array,
    variable: u8,
    word: Operand,
    destination: Destination,
) -> Result<(), AllocError>
    ensures { OnOk result (AddsCode bytes.old bytes.new
        (tested_index (addresses_of addresses.now) (spec.entries_in array.width array.size) variable
        ++ basic.plain (spec.store_operation array.width)
        (Large array.address ∷ Variable variable ∷ word ∷ []) ∷ passed_on
        (as_destination destination) word)) }
{
    put_tested_index(bytes, addresses, entries_in(array), variable)?;
    put_store(bytes, array, Operand::Variable(variable), word, destination)
}

/// A word is assigned to the entry at a number, which is not tested; at one that is no index it is
/// the fault.
fn put_store_at(
    bytes: &mut Vec<u8>,
    addresses: &Addresses<'_>,
    array: Array,
    index: u16,
    word: Operand,
    destination: Destination,
) -> Result<(), AllocError>
    ensures { OnOk result (AddsCode bytes.old bytes.new
        (at_index (addresses_of addresses.now) (spec.entries_in array.width array.size)
        (source_items.number index) (λ i. basic.plain (spec.store_operation array.width)
        (Large array.address ∷ i ∷ word ∷ []) ∷ passed_on (as_destination destination) word))) }
{
    if is_entry(entries_in(array), index) {
        put_store(bytes, array, constant(index), word, destination)
    } else {
        put_fail(bytes, addresses, Cause::IndexOutOfRange)
    }
}

/// A word that stands in an instruction is assigned to an entry, and goes on.
#[tactic(auto, using(code_drafts::proofs::Chains::all_joined))]
fn put_assigned(
    bytes: &mut Vec<u8>,
    addresses: &Addresses<'_>,
    array: Array,
    index: code_drafts::Operand,
    word: Operand,
    destination: Destination,
) -> Result<(), AllocError>
    ensures { OnOk result (AddsCode bytes.old bytes.new
        (at_index (addresses_of addresses.now) (spec.entries_in array.width array.size)
        (as_operand index) (λ i. basic.plain (spec.store_operation array.width)
        (Large array.address ∷ i ∷ word ∷ []) ∷ passed_on (as_destination destination) word))) }
{
    match index {
        code_drafts::Operand::Pushed => {
            put_all(bytes, &[pull(FIRST)])?;
            put_tested_store(bytes, addresses, array, FIRST, word, destination)
        }
        code_drafts::Operand::Number(number) => {
            put_store_at(bytes, addresses, array, number, word, destination)
        }
        code_drafts::Operand::Variable(variable) => {
            let number = variable_number(variable);
            put_tested_store(bytes, addresses, array, number, word, destination)
        }
    }
}

/// A word is assigned to an entry of an array, and goes on. A pushed one is above a pushed index:
/// it is taken first.
#[tactic(auto, using(code_drafts::proofs::Chains::all_joined))]
pub fn put_assign_entry(
    bytes: &mut Vec<u8>,
    addresses: &Addresses<'_>,
    array: Array,
    index: code_drafts::Operand,
    word: code_drafts::Operand,
    destination: Destination,
) -> Result<(), AllocError>
    ensures { OnOk result (AddsCode bytes.old bytes.new
        (assign_entry_code (addresses_of addresses.now) array.width array.size array.address
        (as_operand index) (as_operand word) (as_destination destination))) }
{
    match word {
        code_drafts::Operand::Pushed => {
            put_all(bytes, &[pull(SECOND)])?;
            let taken = Operand::Variable(SECOND);
            put_assigned(bytes, addresses, array, index, taken, destination)
        }
        _ => put_assigned(bytes, addresses, array, index, in_place(word), destination),
    }
}

/// The same, where the last of index and word that is pushed was put aside.
pub fn put_assign_entry_aside(
    bytes: &mut Vec<u8>,
    addresses: &Addresses<'_>,
    array: Array,
    index: code_drafts::Operand,
    word: code_drafts::Operand,
    destination: Destination,
) -> Result<(), AllocError>
    ensures { OnOk result (AddsCode bytes.old bytes.new
        (assign_entry_aside_code (addresses_of addresses.now) array.width array.size array.address
        (as_operand index) (as_operand word) (as_destination destination))) }
{
    match word {
        code_drafts::Operand::Pushed => {
            let aside = Operand::Variable(ASIDE);
            put_assigned(bytes, addresses, array, index, aside, destination)
        }
        _ => put_tested_store(bytes, addresses, array, ASIDE, in_place(word), destination),
    }
}
