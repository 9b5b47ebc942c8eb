//! Parts of the opcodes on objects: tests, and the links of objects (Z-Machine Standards Document
//! 1.1, section 12.3).

ghost use Rattle.std.specs.Prelude.{◌≡◌, ◌<◌, ◌≤◌, ◌+◌, length, OnOk, IfOk, IfSome};
ghost use Rattle.ztext.specs.Bytes.{word_at};
ghost use Rattle.zcore.specs.Entries.{owner, named_from};
ghost use Rattle.zcore.specs.Objects.{test_object, read_link, write_link, test_link, test_removal};
ghost use Rattle.machine_objects.specs.Tested.{IsTested};
ghost use Rattle.machine_frames.specs.States.{IsStoreOf};
ghost use Rattle.machine_frames.specs.Went.{Went};
ghost use Rattle.tables.specs.Links.{as_link};

use journal::Recorded;
use machine_frames::{End, Store, read_word, write_word};
use tables::{Link, has_entry, link_place};
use zcore::{Fault, Header, Place};

/// More entries than these do not fit below 65,536: sibling links that find no end within as many
/// lead in a circle.
const MOST_ENTRIES: u16 = 4_681;

/// Tests whether a number is an object's, whose entry lies in dynamic memory.
///
/// # Errors
///
/// M8 where it is none.
#[inline]
pub fn test_object(header: &Header, store: &Recorded<Store>, object: u16) -> Result<(), End>
    requires { IsStoreOf header.now store.now.store }
    ensures tested { Went result store.now store.now (test_object object) }
    ensures entry { OnOk result (IsTested header.now object) }
{
    if !has_entry(header.defaults, header.static_base as usize, object) {
        return Err(End::Stop(Place::Fault(Fault::Object)));
    }
    Ok(())
}

/// Reads a link of an object that was tested.
#[inline]
pub(crate) fn read_link(header: &Header, store: &Recorded<Store>, link: Link) -> Result<u16, End>
    requires store { IsStoreOf header.now store.now.store }
    requires entry { IsTested header.now (owner (as_link link)) }
    ensures { Went result store.now store.now (read_link (as_link link)) }
{
    read_word(store, link_place(header.defaults, link))
}

/// Writes a link of an object that was tested.
#[inline]
pub(crate) fn write_link(
    header: &Header,
    store: &mut Recorded<Store>,
    link: Link,
    object: u16,
) -> Result<(), End>
    requires store { IsStoreOf header.now store.old.store }
    requires entry { IsTested header.now (owner (as_link link)) }
    ensures { Went result store.old store.new (write_link (as_link link) object) }
{
    write_word(header, store, link_place(header.defaults, link), object)
}

/// The word at a place, its high byte first.
#[inline]
fn word(memory: &[u8], at: usize) -> u16
    requires { at + 1 < length memory.now }
    ensures { result ≡ word_at memory.now at }
{
    memory[at] as u16 * 256 + memory[at + 1] as u16
}

/// The place of the link that names an object, looked for from a place on along sibling links.
pub fn named_from(memory: &[u8], table: u16, end: usize, object: u16, from: usize) -> Option<usize>
    requires end { end ≤ length memory.now }
    requires from { from + 1 < end }
    ensures same { result ≡ named_from memory.now table end object from 4681 }
    ensures inside { IfSome result (λ at. at + 1 < end) }
{
    let mut at = from;
    for step in 0..MOST_ENTRIES {
        let named = word(memory, at);
        if named == object {
            return Some(at);
        }
        if !has_entry(table, end, named) {
            return None;
        }
        at = link_place(table, Link::Sibling(named));
    }
    None
}

/// The place of the link that names an object with this parent, none where the parent is 0. M8
/// where the parent is no object, or its child link and the sibling links behind it do not reach
/// the object.
#[inline]
fn test_link(
    header: &Header,
    store: &Recorded<Store>,
    object: u16,
    parent: u16,
) -> Result<Option<usize>, End>
    requires { IsStoreOf header.now store.now.store }
    ensures went { Went result store.now store.now (test_link object parent) }
    ensures inside { IfOk result (λ link. IfSome link (λ at. at + 1 < header.now.static_base)) }
{
    if parent == 0 {
        return Ok(None);
    }
    let end = header.static_base as usize;
    if !has_entry(header.defaults, end, parent) {
        return Err(End::Stop(Place::Fault(Fault::Object)));
    }
    let child = link_place(header.defaults, Link::Child(parent));
    match named_from(store.store().memory(), header.defaults, end, object, child) {
        Some(at) => Ok(Some(at)),
        None => Err(End::Stop(Place::Fault(Fault::Object))),
    }
}

/// Tests whether an object can be taken out of its parent: the place of the link that names it, if
/// it has a parent. M8.
pub(crate) fn test_removal(
    header: &Header,
    store: &Recorded<Store>,
    object: u16,
) -> Result<Option<usize>, End>
    requires { IsStoreOf header.now store.now.store }
    ensures tested { Went result store.now store.now (test_removal object) }
    ensures entry { OnOk result (IsTested header.now object) }
    ensures inside { IfOk result (λ link. IfSome link (λ at. at + 1 < header.now.static_base)) }
{
    test_object(header, store, object)?;
    let parent = read_link(header, store, Link::Parent(object))?;
    test_link(header, store, object, parent)
}
