//! Opcodes on the attributes of objects (Z-Machine Standards Document 1.1, sections 12.3.2 and 15).

ghost use Rattle.std.specs.Prelude.{◌≡◌, ◌<◌, ◌≤◌, OnOk};
ghost use Rattle.zcore.specs.Layout.{longest_story};
ghost use Rattle.zcore.specs.Objects.{attribute_bit, test_attribute_number, tested_attributes, write_attributes, test_attribute, set_attribute, clear_attribute};
ghost use Rattle.machine_opcodes.specs.Says.{Says};
ghost use Rattle.machine_frames.specs.States.{IsStoreOf};
ghost use Rattle.machine_frames.specs.Went.{Went};

use crate::links::test_object;
use journal::Recorded;
use machine_frames::{End, Store, read_byte, write_byte};
use machine_opcodes::branch_on;
use tables::{attribute_place, is_set};
use zcore::layout::ATTRIBUTE_COUNT;
use zcore::{Branch, Fault, Header, Next, Place};

/// Tests whether an attribute has such a number. M8.
#[inline]
fn test_attribute_number(attribute: u16) -> Result<(), End>
    ensures says { Says result (test_attribute_number attribute) }
    ensures byte { OnOk result (attribute < 48) }
{
    if attribute >= ATTRIBUTE_COUNT {
        return Err(End::Stop(Place::Fault(Fault::Object)));
    }
    Ok(())
}

/// The bit of an attribute in its byte.
#[inline]
pub fn attribute_bit(attribute: u16) -> u8
    ensures { result ≡ attribute_bit attribute }
{
    1 << (7 - attribute % 8)
}

/// The byte in which an object has an attribute, where both are there. M8.
#[inline]
fn tested_attributes(
    header: &Header,
    store: &Recorded<Store>,
    object: u16,
    attribute: u16,
) -> Result<u8, End>
    requires { IsStoreOf header.now store.now.store }
    ensures went { Went result store.now store.now (tested_attributes object attribute) }
    ensures byte { OnOk result (attribute < 48) }
{
    test_object(header, store, object)?;
    test_attribute_number(attribute)?;
    read_byte(
        store,
        attribute_place(header.defaults, object, attribute as u8),
    )
}

/// Writes the byte in which an object has an attribute.
#[inline]
fn write_attributes(
    header: &Header,
    store: &mut Recorded<Store>,
    object: u16,
    attribute: u16,
    byte: u8,
) -> Result<(), End>
    requires store { IsStoreOf header.now store.old.store }
    requires few { attribute < 48 }
    ensures { Went result store.old store.new (write_attributes object attribute byte) }
{
    write_byte(
        header,
        store,
        attribute_place(header.defaults, object, attribute as u8),
        byte,
    )
}

/// Branches where an object has an attribute: `test_attr`.
///
/// # Errors
///
/// M8 where there is no such object or attribute, then the faults of the branch. `End::Memory`
/// where memory was refused: the turn is given up.
#[inline]
pub fn test_attribute(
    header: &Header,
    store: &mut Recorded<Store>,
    here: Next,
    after: u32,
    branch: Option<Branch>,
    object: u16,
    attribute: u16,
) -> Result<Next, End>
    requires store { IsStoreOf header.now store.old.store }
    requires after { after ≤ longest_story }
    ensures { Went result store.old store.new (test_attribute here after branch object attribute) }
{
    let byte = tested_attributes(header, store, object, attribute)?;
    let holds = is_set(byte, attribute as u8);
    branch_on(header, store, here, after, branch, holds)
}

/// Gives an object an attribute: `set_attr`.
///
/// # Errors
///
/// M8 where there is no such object or attribute. `End::Memory` where memory was refused: the turn
/// is given up.
#[inline]
pub fn set_attribute(
    header: &Header,
    store: &mut Recorded<Store>,
    here: Next,
    after: u32,
    object: u16,
    attribute: u16,
) -> Result<Next, End>
    requires { IsStoreOf header.now store.old.store }
    ensures { Went result store.old store.new (set_attribute here after object attribute) }
{
    let byte = tested_attributes(header, store, object, attribute)?;
    let set = byte | attribute_bit(attribute);
    write_attributes(header, store, object, attribute, set)?;
    Ok(Next {
        program_counter: after,
        fuel: here.fuel,
    })
}

/// Takes an attribute from an object: `clear_attr`.
///
/// # Errors
///
/// M8 where there is no such object or attribute. `End::Memory` where memory was refused: the turn
/// is given up.
#[inline]
pub fn clear_attribute(
    header: &Header,
    store: &mut Recorded<Store>,
    here: Next,
    after: u32,
    object: u16,
    attribute: u16,
) -> Result<Next, End>
    requires { IsStoreOf header.now store.old.store }
    ensures { Went result store.old store.new (clear_attribute here after object attribute) }
{
    let byte = tested_attributes(header, store, object, attribute)?;
    let cleared = byte & !attribute_bit(attribute);
    write_attributes(header, store, object, attribute, cleared)?;
    Ok(Next {
        program_counter: after,
        fuel: here.fuel,
    })
}
