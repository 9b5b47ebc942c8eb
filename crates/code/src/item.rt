//! The instructions of an item.

ghost use Rattle.std.specs.Prelude.{◌≡◌, ◌%◌, [], ◌∷◌, slice_index, OnOk};
ghost use Rattle.zcore.specs.declared.instruction.Operation.TheVariants.{PrintNumber};
ghost use Rattle.code_drafts.specs.Code.{item_of, as_operand};
ghost use Rattle.code_drafts.specs.Instructions as basic;
ghost use Rattle.code_drafts.specs.Bytes.{Adds, AddsCode};
ghost use Rattle.code_drafts.specs.Written.{addresses_of, sizes_in};
ghost use Rattle.code.specs.declared.kind.Kind.TheVariants.{Words, Printing, Tree, Properties};
ghost use Rattle.code.specs.declared.kind.Kind.TheVariants.{ByObject, Flow};
ghost use Rattle.code.specs.ItemCode as spec;
ghost use Rattle.code.specs.ItemBytes.{item_bytes};
ghost use Rattle.code.specs.Kinds.{kind_of};

use crate::entries::{
    array_of, put_assign_entry, put_assign_entry_aside, put_entry, put_entry_aside,
};
use crate::kind::{Kind, kind_of};
use crate::lines::put_read;
use code_drafts::{
    Addresses, Item, Operands, Sizes, in_place, plain, pull, put_all, routine_address,
};
use code_instructions::{
    put_also_equal, put_assign_property, put_assign_property_word, put_binary, put_branch,
    put_branch_back, put_call, put_call_aside, put_case, put_character, put_first_equal,
    put_first_object, put_give, put_has, put_is_in, put_jump, put_keep, put_move, put_move_object,
    put_next_object, put_on_object, put_prefix, put_property, put_property_size, put_property_word,
    put_provides, put_relative, put_return, put_step, put_text, put_with_aside,
};
use std::alloc::{AllocError, Global};
use syntax_trees::Width;
use zcore::Operation;

/// An instruction with no operand.
fn put_bare(bytes: &mut Vec<u8>, operation: Operation) -> Result<(), AllocError>
    ensures { OnOk result (AddsCode bytes.old bytes.new (basic.plain operation [] ∷ [])) }
{
    put_all(bytes, &[plain(operation, Operands::Zero)])
}

/// The word below the topmost one goes.
fn put_drop_below(bytes: &mut Vec<u8>) -> Result<(), AllocError>
    ensures { OnOk result (AddsCode bytes.old bytes.new (basic.pull 0 ∷ [])) }
{
    put_all(bytes, &[pull(0)])
}

/// A word is printed as a signed number.
fn put_print_number(bytes: &mut Vec<u8>, operand: code_drafts::Operand) -> Result<(), AllocError>
    ensures { OnOk result (AddsCode bytes.old bytes.new
        (basic.plain PrintNumber (basic.in_place (as_operand operand) ∷ []) ∷ [])) }
{
    let operands = Operands::One(in_place(operand));
    put_all(bytes, &[plain(Operation::PrintNumber, operands)])
}

/// The next line goes to the arrays of two numbers: its letters to the first, its words to the
/// second.
fn put_read_line(
    bytes: &mut Vec<u8>,
    sizes: &Sizes<'_>,
    addresses: &Addresses<'_>,
    text: usize,
    parse: usize,
) -> Result<(), AllocError>
    ensures { OnOk result (AddsCode bytes.old bytes.new
        (spec.read_code (addresses_of addresses.now) (slice_index sizes.now.arrays.now text % 65536)
        (slice_index addresses.now.arrays.now text) (slice_index sizes.now.arrays.now parse % 65536)
        (slice_index addresses.now.arrays.now parse))) }
{
    let letters = array_of(sizes, addresses, Width::Byte, text);
    let words = array_of(sizes, addresses, Width::Byte, parse);
    put_read(bytes, addresses, letters, words)
}

/// The number of an attribute or a property, in a byte.
fn in_byte(number: usize) -> u8
    ensures { result ≡ number % 256 }
{
    (number % 256) as u8
}

/// The bytes of an item that prints.
#[tactic(auto, using(crate::proofs::ItemParts::no_text))]
fn put_printed(
    bytes: &mut Vec<u8>,
    alloc: Global,
    sizes: &Sizes<'_>,
    addresses: &Addresses<'_>,
    offset: usize,
    item: &Item<'_>,
) -> Result<(), AllocError>
    requires { kind_of (item_of item.now) ≡ Printing }
    ensures { OnOk result (Adds bytes.old bytes.new
        (item_bytes (sizes_in sizes.now) (addresses_of addresses.now) offset (item_of item.now))) }
{
    match item {
        Item::PrintText(text) => put_text(bytes, alloc, sizes.abbreviations, text)?,
        Item::PrintCharacter(operand) => put_character(bytes, addresses, *operand)?,
        Item::PrintNumber(operand) => put_print_number(bytes, *operand)?,
        Item::PrintName(operand) => {
            put_on_object(bytes, addresses, sizes, Operation::PrintObject, *operand)?
        }
        Item::NewLine => put_bare(bytes, Operation::NewLine)?,
        _ => (),
    }
    Ok(())
}

/// The bytes of an item on words.
#[tactic(auto, using(crate::proofs::ItemParts::no_text))]
fn put_words(
    bytes: &mut Vec<u8>,
    sizes: &Sizes<'_>,
    addresses: &Addresses<'_>,
    offset: usize,
    item: &Item<'_>,
) -> Result<(), AllocError>
    requires { kind_of (item_of item.now) ≡ Words }
    ensures { OnOk result (Adds bytes.old bytes.new
        (item_bytes (sizes_in sizes.now) (addresses_of addresses.now) offset (item_of item.now))) }
{
    match item {
        Item::Move(operand, destination) => put_move(bytes, *operand, *destination)?,
        Item::Prefix(operator, operand, destination) => {
            put_prefix(bytes, *operator, *operand, *destination)?
        }
        Item::Operate(operator, left, right, destination) => {
            let words = (*left, *right);
            put_binary(bytes, addresses, *operator, words, *destination)?
        }
        Item::OperateAside(operator, left, destination) => {
            put_with_aside(bytes, addresses, *operator, *left, *destination)?
        }
        Item::Step(step, variable, destination) => put_step(bytes, *step, *variable, *destination)?,
        Item::Entry(width, number, index, destination) => {
            let array = array_of(sizes, addresses, *width, *number);
            put_entry(bytes, addresses, array, *index, *destination)?
        }
        Item::EntryAside(width, number, destination) => {
            let array = array_of(sizes, addresses, *width, *number);
            put_entry_aside(bytes, addresses, array, *destination)?
        }
        Item::AssignEntry(width, number, index, word, destination) => {
            let array = array_of(sizes, addresses, *width, *number);
            put_assign_entry(bytes, addresses, array, *index, *word, *destination)?
        }
        Item::AssignEntryAside(width, number, index, word, destination) => {
            let array = array_of(sizes, addresses, *width, *number);
            put_assign_entry_aside(bytes, addresses, array, *index, *word, *destination)?
        }
        Item::Keep(variable) => put_keep(bytes, *variable)?,
        Item::FirstEqual => put_first_equal(bytes)?,
        Item::AlsoEqual => put_also_equal(bytes)?,
        Item::DropBelow => put_drop_below(bytes)?,
        _ => (),
    }
    Ok(())
}

/// The bytes of an item on words of a property.
#[tactic(auto, using(crate::proofs::ItemParts::no_text))]
fn put_on_property(
    bytes: &mut Vec<u8>,
    sizes: &Sizes<'_>,
    addresses: &Addresses<'_>,
    offset: usize,
    item: &Item<'_>,
) -> Result<(), AllocError>
    requires { kind_of (item_of item.now) ≡ Properties }
    ensures { OnOk result (Adds bytes.old bytes.new
        (item_bytes (sizes_in sizes.now) (addresses_of addresses.now) offset (item_of item.now))) }
{
    match item {
        Item::Property(object, number, destination) => {
            let number = in_byte(*number);
            put_property(bytes, addresses, sizes, *object, number, *destination)?
        }
        Item::PropertySize(object, number, destination) => {
            let number = in_byte(*number);
            put_property_size(bytes, addresses, sizes, *object, number, *destination)?
        }
        Item::PropertyWord(number, object, index, destination) => {
            let words = (*object, *index);
            let number = in_byte(*number);
            put_property_word(bytes, addresses, sizes, number, words, *destination)?
        }
        Item::AssignProperty(number, object, word, destination) => {
            let words = (*object, *word);
            let number = in_byte(*number);
            put_assign_property(bytes, addresses, sizes, number, words, *destination)?
        }
        Item::AssignPropertyWord(number, object, index, word, destination) => {
            let words = (*object, *index, *word);
            let number = in_byte(*number);
            put_assign_property_word(bytes, addresses, sizes, number, words, *destination)?
        }
        _ => (),
    }
    Ok(())
}

/// The bytes of an item that tells of an object's relatives, or changes an object.
#[tactic(auto, using(crate::proofs::ItemParts::no_text))]
fn put_on_tree(
    bytes: &mut Vec<u8>,
    sizes: &Sizes<'_>,
    addresses: &Addresses<'_>,
    offset: usize,
    item: &Item<'_>,
) -> Result<(), AllocError>
    requires { kind_of (item_of item.now) ≡ Tree }
    ensures { OnOk result (Adds bytes.old bytes.new
        (item_bytes (sizes_in sizes.now) (addresses_of addresses.now) offset (item_of item.now))) }
{
    match item {
        Item::Relative(relative, object, destination) => {
            put_relative(bytes, addresses, sizes, *relative, *object, *destination)?
        }
        Item::Give(object, changes) => put_give(bytes, addresses, sizes, *object, changes)?,
        Item::MoveObject(object, into) => {
            put_move_object(bytes, addresses, sizes, *object, *into)?
        }
        Item::RemoveObject(object) => {
            put_on_object(bytes, addresses, sizes, Operation::RemoveObject, *object)?
        }
        _ => (),
    }
    Ok(())
}

/// The bytes of an item that branches or jumps by objects.
#[tactic(auto, using(crate::proofs::ItemParts::no_text))]
fn put_by_object(
    bytes: &mut Vec<u8>,
    sizes: &Sizes<'_>,
    addresses: &Addresses<'_>,
    offset: usize,
    item: &Item<'_>,
) -> Result<(), AllocError>
    requires { kind_of (item_of item.now) ≡ ByObject }
    ensures { OnOk result (Adds bytes.old bytes.new
        (item_bytes (sizes_in sizes.now) (addresses_of addresses.now) offset (item_of item.now))) }
{
    match item {
        Item::IsIn(object, other, when, _) => {
            let words = (*object, *other);
            put_is_in(bytes, addresses, sizes, words, *when, offset)?
        }
        Item::Has(object, attribute, when, _) => {
            let number = in_byte(*attribute);
            put_has(bytes, addresses, sizes, *object, number, *when, offset)?
        }
        Item::Provides(object, property, when, _) => {
            let number = in_byte(*property);
            put_provides(bytes, addresses, sizes, *object, number, *when, offset)?
        }
        Item::FirstObject(variable, _) => put_first_object(bytes, sizes, *variable, offset)?,
        Item::NextObject(variable, _) => put_next_object(bytes, sizes, *variable, offset)?,
        _ => (),
    }
    Ok(())
}

/// The bytes of an item that tells where the story goes on.
#[tactic(auto, using(crate::proofs::ItemParts::no_text))]
fn put_flow(
    bytes: &mut Vec<u8>,
    alloc: Global,
    sizes: &Sizes<'_>,
    addresses: &Addresses<'_>,
    offset: usize,
    item: &Item<'_>,
) -> Result<(), AllocError>
    requires { kind_of (item_of item.now) ≡ Flow }
    ensures { OnOk result (Adds bytes.old bytes.new
        (item_bytes (sizes_in sizes.now) (addresses_of addresses.now) offset (item_of item.now))) }
{
    match item {
        Item::Read(text, parse) => put_read_line(bytes, sizes, addresses, *text, *parse)?,
        Item::Quit => put_bare(bytes, Operation::Quit)?,
        Item::Branch(test, operands, when, _) => {
            put_branch(bytes, alloc, *test, operands, *when, offset)?
        }
        Item::Case(test, numbers, when, _) => {
            put_case(bytes, alloc, *test, numbers, *when, offset)?
        }
        Item::Jump(_) | Item::Back(_) => put_jump(bytes, (offset % 65536) as u16)?,
        Item::BranchBack(test, operands, when, _) => {
            put_branch_back(bytes, alloc, *test, operands, *when, offset)?
        }
        Item::Call(routine, operands, destination) => {
            let address = routine_address(addresses, *routine);
            put_call(bytes, alloc, address, operands, *destination)?
        }
        Item::CallAside(routine, operands, destination) => {
            let address = routine_address(addresses, *routine);
            put_call_aside(bytes, alloc, address, operands, *destination)?
        }
        Item::Return(operand) => put_return(bytes, *operand)?,
        _ => (),
    }
    Ok(())
}

/// The bytes of an item of a program of these sizes, whose branch or jump has this offset.
pub fn put_item(
    bytes: &mut Vec<u8>,
    alloc: Global,
    sizes: &Sizes<'_>,
    addresses: &Addresses<'_>,
    offset: usize,
    item: &Item<'_>,
) -> Result<(), AllocError>
    ensures { OnOk result (Adds bytes.old bytes.new
        (item_bytes (sizes_in sizes.now) (addresses_of addresses.now) offset (item_of item.now))) }
{
    match kind_of(item) {
        Kind::Words => put_words(bytes, sizes, addresses, offset, item),
        Kind::Printing => put_printed(bytes, alloc, sizes, addresses, offset, item),
        Kind::Tree => put_on_tree(bytes, sizes, addresses, offset, item),
        Kind::Properties => put_on_property(bytes, sizes, addresses, offset, item),
        Kind::ByObject => put_by_object(bytes, sizes, addresses, offset, item),
        Kind::Flow => put_flow(bytes, alloc, sizes, addresses, offset, item),
    }
}
