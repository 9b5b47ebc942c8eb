//! Opcodes that take objects out of others and put them into others (Z-Machine Standards Document
//! 1.1, section 15).

ghost use Rattle.std.specs.Prelude.{◌≡◌, ◌≤◌};
ghost use Rattle.machine_frames.specs.States.{IsStoreOf};
ghost use Rattle.machine_frames.specs.Went.{Went};
ghost use Rattle.zcore_versions.specs.SmallObjects as definitions;

use crate::links::{read_link, test_object, test_removal, write_link};
use journal::Recorded;
use machine_frames::{End, Store, write_byte};
use tables::Link;
use zcore::{Header, Next};

/// Takes an object out of its parent, if it has one: the link that named it names its sibling.
fn unlink(
    header: &Header,
    store: &mut Recorded<Store>,
    link: Option<usize>,
    object: u16,
) -> Result<(), End>
    requires { IsStoreOf header.now store.old.store }
    ensures { Went result store.old store.new (definitions.unlink link object) }
{
    match link {
        None => Ok(()),
        Some(at) => {
            let sibling = read_link(header, store, Link::Sibling(object))?;
            write_byte(header, store, at, sibling)?;
            write_link(header, store, Link::Parent(object), 0)?;
            write_link(header, store, Link::Sibling(object), 0)
        }
    }
}

/// Makes an object that is in none the first child of another.
fn link_first(
    header: &Header,
    store: &mut Recorded<Store>,
    object: u16,
    into: u16,
) -> Result<(), End>
    requires store { IsStoreOf header.now store.old.store }
    requires object { object ≤ 255 }
    requires into { into ≤ 255 }
    ensures { Went result store.old store.new (definitions.link_first object into) }
{
    let child = read_link(header, store, Link::Child(into))?;
    write_link(header, store, Link::Sibling(object), child)?;
    write_link(header, store, Link::Parent(object), into as u8)?;
    write_link(header, store, Link::Child(into), object as u8)
}

/// Takes an object out of its parent: `remove_obj`. Nothing is written where it has none.
///
/// # Errors
///
/// M8 where it is no object, and where its parent is none or its links do not reach the object.
/// `End::Memory` where memory was refused: the turn is given up.
pub fn remove_object(
    header: &Header,
    store: &mut Recorded<Store>,
    here: Next,
    after: u32,
    object: u16,
) -> Result<Next, End>
    requires { IsStoreOf header.now store.old.store }
    ensures { Went result store.old store.new (definitions.remove_object here after object) }
{
    let link = test_removal(header, store, object)?;
    unlink(header, store, link, object)?;
    Ok(Next {
        program_counter: after,
        fuel: here.fuel,
    })
}

/// Makes an object the first child of another: `insert_obj`.
///
/// # Errors
///
/// M8 where one of them is no object, and where the parent of the first is none or its links do not
/// reach the object. `End::Memory` where memory was refused: the turn is given up.
pub fn insert_object(
    header: &Header,
    store: &mut Recorded<Store>,
    here: Next,
    after: u32,
    object: u16,
    into: u16,
) -> Result<Next, End>
    requires { IsStoreOf header.now store.old.store }
    ensures { Went result store.old store.new (definitions.insert_object here after object into) }
{
    let link = test_removal(header, store, object)?;
    test_object(header, store, into)?;
    unlink(header, store, link, object)?;
    link_first(header, store, object, into)?;
    Ok(Next {
        program_counter: after,
        fuel: here.fuel,
    })
}
