//! Tests and links of objects with small entries (Z-Machine Standards Document 1.1, section 12.3.1).

ghost use Rattle.std.specs.Prelude.{◌≤◌, OnOk};
ghost use Rattle.machine_frames.specs.States.{IsStoreOf};
ghost use Rattle.machine_frames.specs.Went.{Went};
ghost use Rattle.tables.specs.Links.{as_link};
ghost use Rattle.zcore_versions.specs.SmallObjects as definitions;

use journal::Recorded;
use machine_frames::{End, Store, read_byte, write_byte};
use machine_small_entries::{has_entry, link_place, named_from};
use tables::Link;
use zcore::{Fault, Header, Place};

/// Tests whether a number is an object's, whose entry is in dynamic memory. M8.
pub(crate) fn test_object(header: &Header, store: &Recorded<Store>, object: u16) -> Result<(), End>
    requires { IsStoreOf header.now store.now.store }
    ensures tested { Went result store.now store.now (definitions.test_object object) }
    ensures byte { OnOk result (object ≤ 255) }
{
    if !has_entry(header.defaults, header.static_base as usize, object) {
        return Err(End::Stop(Place::Fault(Fault::Object)));
    }
    Ok(())
}

/// Reads a link of an object.
pub(crate) fn read_link(header: &Header, store: &Recorded<Store>, link: Link) -> Result<u8, End>
    requires { IsStoreOf header.now store.now.store }
    ensures { Went result store.now store.now (definitions.read_link (as_link link)) }
{
    read_byte(store, link_place(header.defaults, link))
}

/// Writes a link of an object.
pub(crate) fn write_link(
    header: &Header,
    store: &mut Recorded<Store>,
    link: Link,
    object: u8,
) -> Result<(), End>
    requires { IsStoreOf header.now store.old.store }
    ensures { Went result store.old store.new (definitions.write_link (as_link link) object) }
{
    write_byte(header, store, link_place(header.defaults, link), object)
}

/// The place of the link that names an object with this parent, none where the parent is 0. M8
/// where the parent is no object, or its child link and the sibling links after it do not reach
/// the object.
fn test_link(
    header: &Header,
    store: &Recorded<Store>,
    object: u16,
    parent: u8,
) -> Result<Option<usize>, End>
    requires { IsStoreOf header.now store.now.store }
    ensures { Went result store.now store.now (definitions.test_link object parent) }
{
    if parent == 0 {
        return Ok(None);
    }
    let end = header.static_base as usize;
    let parent = parent as u16;
    if !has_entry(header.defaults, end, parent) {
        return Err(End::Stop(Place::Fault(Fault::Object)));
    }
    let child = link_place(header.defaults, Link::Child(parent));
    match named_from(store.store().memory(), header.defaults, end, object, child) {
        Some(at) => Ok(Some(at)),
        None => Err(End::Stop(Place::Fault(Fault::Object))),
    }
}

/// Tests whether an object can be taken out of its parent: the place of the link that names it, if
/// it has a parent. M8.
pub(crate) fn test_removal(
    header: &Header,
    store: &Recorded<Store>,
    object: u16,
) -> Result<Option<usize>, End>
    requires { IsStoreOf header.now store.now.store }
    ensures tested { Went result store.now store.now (definitions.test_removal object) }
    ensures byte { OnOk result (object ≤ 255) }
{
    test_object(header, store, object)?;
    let parent = read_link(header, store, Link::Parent(object))?;
    test_link(header, store, object, parent)
}
