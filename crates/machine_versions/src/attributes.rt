//! Opcodes on the attributes of objects (Z-Machine Standards Document 1.1, sections 12.3.1 and 15). An
//! attribute past the last is clear, and is not set.

ghost use Rattle.std.specs.Prelude.{◌≡◌, ◌≤◌};
ghost use Rattle.zcore.specs.Layout.{longest_story};
ghost use Rattle.machine_frames.specs.States.{IsStoreOf};
ghost use Rattle.machine_frames.specs.Went.{Went};
ghost use Rattle.zcore_versions.specs.SmallObjects as definitions;

use crate::links::test_object;
use journal::Recorded;
use machine_frames::{End, Store, read_byte, write_byte};
use machine_objects::attribute_bit;
use machine_opcodes::branch_on;
use machine_small_entries::attribute_place;
use tables::is_set;
use zcore::{Branch, Header, Next};

/// How many attributes an object has.
const ATTRIBUTE_COUNT: u16 = 32;

/// Reads the byte in which an object has an attribute, 0 for one past the last.
fn read_attributes(
    header: &Header,
    store: &Recorded<Store>,
    object: u16,
    attribute: u16,
) -> Result<u8, End>
    requires { IsStoreOf header.now store.now.store }
    ensures { Went result store.now store.now (definitions.read_attributes object attribute) }
{
    if ATTRIBUTE_COUNT <= attribute {
        return Ok(0);
    }
    read_byte(store, attribute_place(header.defaults, object, attribute))
}

/// The same, where the object is one. M8.
fn tested_attributes(
    header: &Header,
    store: &Recorded<Store>,
    object: u16,
    attribute: u16,
) -> Result<u8, End>
    requires { IsStoreOf header.now store.now.store }
    ensures { Went result store.now store.now (definitions.tested_attributes object attribute) }
{
    test_object(header, store, object)?;
    read_attributes(header, store, object, attribute)
}

/// Writes the byte in which an object has an attribute; none for one past the last.
fn write_attributes(
    header: &Header,
    store: &mut Recorded<Store>,
    object: u16,
    attribute: u16,
    byte: u8,
) -> Result<(), End>
    requires { IsStoreOf header.now store.old.store }
    ensures { Went result store.old store.new (definitions.write_attributes object attribute byte) }
{
    if ATTRIBUTE_COUNT <= attribute {
        return Ok(());
    }
    write_byte(
        header,
        store,
        attribute_place(header.defaults, object, attribute),
        byte,
    )
}

/// Branches where an object has an attribute: `test_attr`.
///
/// # Errors
///
/// M8 where there is no such object, then the faults of the branch. `End::Memory` where memory was
/// refused: the turn is given up.
pub fn test_attribute(
    header: &Header,
    store: &mut Recorded<Store>,
    here: Next,
    after: u32,
    branch: Option<Branch>,
    object: u16,
    attribute: u16,
) -> Result<Next, End>
    requires store { IsStoreOf header.now store.old.store }
    requires after { after ≤ longest_story }
    ensures { Went result store.old store.new
        (definitions.test_attribute here after branch object attribute) }
{
    let byte = tested_attributes(header, store, object, attribute)?;
    let holds = is_set(byte, (attribute % 8) as u8);
    branch_on(header, store, here, after, branch, holds)
}

/// Gives an object an attribute: `set_attr`.
///
/// # Errors
///
/// M8 where there is no such object. `End::Memory` where memory was refused: the turn is given up.
pub fn set_attribute(
    header: &Header,
    store: &mut Recorded<Store>,
    here: Next,
    after: u32,
    object: u16,
    attribute: u16,
) -> Result<Next, End>
    requires { IsStoreOf header.now store.old.store }
    ensures { Went result store.old store.new
        (definitions.set_attribute here after object attribute) }
{
    let byte = tested_attributes(header, store, object, attribute)?;
    let set = byte | attribute_bit(attribute);
    write_attributes(header, store, object, attribute, set)?;
    Ok(Next {
        program_counter: after,
        fuel: here.fuel,
    })
}

/// Takes an attribute from an object: `clear_attr`.
///
/// # Errors
///
/// M8 where there is no such object. `End::Memory` where memory was refused: the turn is given up.
pub fn clear_attribute(
    header: &Header,
    store: &mut Recorded<Store>,
    here: Next,
    after: u32,
    object: u16,
    attribute: u16,
) -> Result<Next, End>
    requires { IsStoreOf header.now store.old.store }
    ensures { Went result store.old store.new
        (definitions.clear_attribute here after object attribute) }
{
    let byte = tested_attributes(header, store, object, attribute)?;
    let cleared = byte & !attribute_bit(attribute);
    write_attributes(header, store, object, attribute, cleared)?;
    Ok(Next {
        program_counter: after,
        fuel: here.fuel,
    })
}
