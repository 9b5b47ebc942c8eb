//! Slips of stories that players in use forgive: attributes past the greatest, and values of properties of
//! more than two bytes (Z-Machine Standards Document 1.1, sections 12.3 and 15).

ghost use Rattle.std.specs.Prelude.{◌≡◌, ◌≤◌, option_map};
ghost use Rattle.zcore.specs.Layout.{longest_story};
ghost use Rattle.zcore_standard.specs.Forgiving as definitions;
ghost use Rattle.tables.specs.Standing.{listed_of};
ghost use Rattle.machine_frames.specs.States.{IsStoreOf};
ghost use Rattle.machine_frames.specs.Went.{Went};

use crate::nothing::value_of;
use journal::Recorded;
use machine_frames::{End, Store, read_byte, write_byte};
use machine_objects::{default_place, read_word_at, test_object, tested_property, write_word_at};
use machine_opcodes::{Ending, branch_on, give_result};
use tables::ListedProperty;
use zcore::layout::ATTRIBUTE_COUNT;
use zcore::{Branch, Fault, Header, Next, Operation, Place};

/// Whether an operation on these values is one with which a slip can be forgiven.
pub(crate) fn may_be_forgiven(operation: Operation, values: &[u16]) -> bool
    ensures { result ≡ definitions.may_be_forgiven operation values.now }
{
    match operation {
        Operation::TestAttribute | Operation::SetAttribute | Operation::ClearAttribute => {
            ATTRIBUTE_COUNT <= value_of(values, 1)
        }
        Operation::GetProperty | Operation::PutProperty => true,
        _ => false,
    }
}

/// Does such an operation.
///
/// # Errors
///
/// M8 where there is no such object. Of a property M9 where the number is no property's, and in
/// `put_prop` where the object has it not; M3 where it cannot be read, M4 where it cannot be written.
/// Then the faults of the result, or of the branch. `End::Memory` where memory was refused: the turn
/// is given up.
pub(crate) fn perform_forgiving(
    header: &Header,
    store: &mut Recorded<Store>,
    here: Next,
    operation: Operation,
    values: &[u16],
    ending: Ending,
) -> Result<Next, End>
    requires store { IsStoreOf header.now store.old.store }
    requires after { ending.after ≤ longest_story }
    ensures { Went result store.old store.new (definitions.perform_forgiving operation here
        ending.after ending.result ending.branch values.now) }
{
    let after = ending.after;
    let object = value_of(values, 0);
    match operation {
        Operation::TestAttribute => {
            test_no_attribute(header, store, here, after, ending.branch, object)
        }
        Operation::GetProperty => {
            let number = value_of(values, 1);
            get_any_property(header, store, here, after, ending.result, object, number)
        }
        Operation::PutProperty => {
            let number = value_of(values, 1);
            put_any_property(
                header,
                store,
                here,
                after,
                object,
                number,
                value_of(values, 2),
            )
        }
        _ => change_no_attribute(header, store, here, after, object),
    }
}

/// Does not branch, or branches where it branches on false: an attribute past the greatest is clear.
/// M8, then the faults of the branch.
fn test_no_attribute(
    header: &Header,
    store: &mut Recorded<Store>,
    here: Next,
    after: u32,
    branch: Option<Branch>,
    object: u16,
) -> Result<Next, End>
    requires store { IsStoreOf header.now store.old.store }
    requires after { after ≤ longest_story }
    ensures { Went result store.old store.new
        (definitions.test_no_attribute here after branch object) }
{
    test_object(header, store, object)?;
    branch_on(header, store, here, after, branch, false)
}

/// Goes on: an attribute past the greatest stays clear. M8.
fn change_no_attribute(
    header: &Header,
    store: &Recorded<Store>,
    here: Next,
    after: u32,
    object: u16,
) -> Result<Next, End>
    requires { IsStoreOf header.now store.now.store }
    ensures { Went result store.now store.now (definitions.change_no_attribute here after object) }
{
    test_object(header, store, object)?;
    Ok(Next {
        program_counter: after,
        fuel: here.fuel,
    })
}

/// The value of a property, or the default of one that is not there; of more than two bytes the first
/// word. M3.
fn first_word(
    header: &Header,
    store: &Recorded<Store>,
    number: u16,
    found: Option<ListedProperty>,
) -> Result<u16, End>
    requires store { IsStoreOf header.now store.now.store }
    requires some { 1 ≤ number }
    ensures { Went result store.now store.now
        (definitions.first_word number (option_map listed_of found)) }
{
    match found {
        None => read_word_at(store, default_place(header, number)),
        Some(property) => match property.size {
            1 => {
                let byte = read_byte(store, property.address)?;
                Ok(byte as u16)
            }
            _ => read_word_at(store, property.address),
        },
    }
}

/// The value of an object's property, or its default: `get_prop`.
fn get_any_property(
    header: &Header,
    store: &mut Recorded<Store>,
    here: Next,
    after: u32,
    result_variable: Option<u8>,
    object: u16,
    number: u16,
) -> Result<Next, End>
    requires { IsStoreOf header.now store.old.store }
    ensures { Went result store.old store.new
        (definitions.get_any_property here after result_variable object number) }
{
    let found = tested_property(header, store, object, number)?;
    let word = first_word(header, store, number, found)?;
    give_result(header, store, here, after, result_variable, word)
}

/// Writes a property, of one byte the low byte, and of more than two bytes the first word. M9 where it
/// is not there, M4.
fn write_first_word(
    header: &Header,
    store: &mut Recorded<Store>,
    found: Option<ListedProperty>,
    word: u16,
) -> Result<(), End>
    requires { IsStoreOf header.now store.old.store }
    ensures { Went result store.old store.new
        (definitions.write_first_word (option_map listed_of found) word) }
{
    match found {
        None => Err(End::Stop(Place::Fault(Fault::Property))),
        Some(property) => match property.size {
            1 => write_byte(header, store, property.address, (word % 256) as u8),
            _ => write_word_at(header, store, property.address, word),
        },
    }
}

/// Writes an object's property: `put_prop`.
fn put_any_property(
    header: &Header,
    store: &mut Recorded<Store>,
    here: Next,
    after: u32,
    object: u16,
    number: u16,
    word: u16,
) -> Result<Next, End>
    requires { IsStoreOf header.now store.old.store }
    ensures { Went result store.old store.new
        (definitions.put_any_property here after object number word) }
{
    let found = tested_property(header, store, object, number)?;
    write_first_word(header, store, found, word)?;
    Ok(Next {
        program_counter: after,
        fuel: here.fuel,
    })
}
