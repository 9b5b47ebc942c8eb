//! Opcodes that ask of objects (Z-Machine Standards Document 1.1, sections 12 and 15).

ghost use Rattle.std.specs.Prelude.{◌≡◌, ◌≤◌, drop};
ghost use Rattle.zcore.specs.Layout.{longest_story};
ghost use Rattle.zcore.specs.Objects.{jump_if_in, get_parent, give_object, get_sibling, get_child, property_table, print_object};
ghost use Rattle.machine_opcodes.specs.Printed.{HasBegun, Grew};
ghost use Rattle.machine_objects.specs.Tested.{IsTested};
ghost use Rattle.machine_frames.specs.States.{IsStoreOf};
ghost use Rattle.machine_frames.specs.Went.{Went, Told};

use crate::links::{read_link, test_object};
use journal::Recorded;
use machine_frames::{End, Store, read_byte, read_word, store_result, test_result};
use machine_opcodes::{branch_on, give_result, print_address, test_branch};
use tables::{Link, properties_place};
use zcore::{Branch, Header, Next};

/// Branches where an object stands in another: `jin`. The other may be any word.
///
/// # Errors
///
/// M8 where the first is no object, then the faults of the branch. `End::Memory` where memory was
/// refused: the turn is given up.
#[inline]
pub fn jump_if_in(
    header: &Header,
    store: &mut Recorded<Store>,
    here: Next,
    after: u32,
    branch: Option<Branch>,
    object: u16,
    other: u16,
) -> Result<Next, End>
    requires store { IsStoreOf header.now store.old.store }
    requires after { after ≤ longest_story }
    ensures { Went result store.old store.new (jump_if_in here after branch object other) }
{
    test_object(header, store, object)?;
    let parent = read_link(header, store, Link::Parent(object))?;
    branch_on(header, store, here, after, branch, parent == other)
}

/// The object that an object stands in: `get_parent`.
///
/// # Errors
///
/// M8 where it is no object, then M6 and M4 of the result. `End::Memory` where memory was refused:
/// the turn is given up.
#[inline]
pub fn get_parent(
    header: &Header,
    store: &mut Recorded<Store>,
    here: Next,
    after: u32,
    result_variable: Option<u8>,
    object: u16,
) -> Result<Next, End>
    requires { IsStoreOf header.now store.old.store }
    ensures { Went result store.old store.new (get_parent here after result_variable object) }
{
    test_object(header, store, object)?;
    let parent = read_link(header, store, Link::Parent(object))?;
    give_result(header, store, here, after, result_variable, parent)
}

/// Stores an object's number or 0, and branches where it is not 0. Both are tested first: M6 and M4
/// of the result, M2 of the target, or M11, M6, M4, M2 of a return.
#[inline]
fn give_object(
    header: &Header,
    store: &mut Recorded<Store>,
    here: Next,
    after: u32,
    result_variable: Option<u8>,
    branch: Option<Branch>,
    object: u16,
) -> Result<Next, End>
    requires store { IsStoreOf header.now store.old.store }
    requires after { after ≤ longest_story }
    ensures { Went result store.old store.new
        (give_object here after result_variable branch object) }
{
    let holds = 1 <= object;
    test_result(store, result_variable)?;
    test_branch(store, after, branch, holds)?;
    store_result(header, store, result_variable, object)?;
    branch_on(header, store, here, after, branch, holds)
}

/// The next object that stands in the same as an object: `get_sibling`, which branches where there
/// is one.
///
/// # Errors
///
/// M8 where it is no object, then M6 and M4 of the result, then the faults of the branch, before
/// anything is stored. `End::Memory` where memory was refused: the turn is given up.
#[inline]
pub fn get_sibling(
    header: &Header,
    store: &mut Recorded<Store>,
    here: Next,
    after: u32,
    result_variable: Option<u8>,
    branch: Option<Branch>,
    object: u16,
) -> Result<Next, End>
    requires store { IsStoreOf header.now store.old.store }
    requires after { after ≤ longest_story }
    ensures { Went result store.old store.new
        (get_sibling here after result_variable branch object) }
{
    test_object(header, store, object)?;
    let sibling = read_link(header, store, Link::Sibling(object))?;
    give_object(header, store, here, after, result_variable, branch, sibling)
}

/// The first object that stands in an object: `get_child`, which branches where there is one.
///
/// # Errors
///
/// M8 where it is no object, then M6 and M4 of the result, then the faults of the branch, before
/// anything is stored. `End::Memory` where memory was refused: the turn is given up.
#[inline]
pub fn get_child(
    header: &Header,
    store: &mut Recorded<Store>,
    here: Next,
    after: u32,
    result_variable: Option<u8>,
    branch: Option<Branch>,
    object: u16,
) -> Result<Next, End>
    requires store { IsStoreOf header.now store.old.store }
    requires after { after ≤ longest_story }
    ensures { Went result store.old store.new (get_child here after result_variable branch object) }
{
    test_object(header, store, object)?;
    let child = read_link(header, store, Link::Child(object))?;
    give_object(header, store, here, after, result_variable, branch, child)
}

/// The address of the property table of an object that was tested.
///
/// # Errors
///
/// M3 where the entry is not in readable memory.
#[inline]
pub fn property_table(header: &Header, store: &Recorded<Store>, object: u16) -> Result<u16, End>
    requires store { IsStoreOf header.now store.now.store }
    requires entry { IsTested header.now object }
    ensures { Went result store.now store.now (property_table object) }
{
    read_word(store, properties_place(header.defaults, object))
}

/// Prints the short name of an object: `print_obj`. Nothing is printed where the name's length is
/// 0.
///
/// # Errors
///
/// M8 where it is no object, M3 where its property table cannot be read or the text runs past the
/// end, M10 where the text holds what no text may, the limit of text. `End::Memory` where memory
/// was refused: the turn is given up.
pub fn print_object(
    header: &Header,
    store: &mut Recorded<Store>,
    text: &mut Vec<u8>,
    start: usize,
    here: Next,
    after: u32,
    object: u16,
) -> Result<Next, End>
    requires store { IsStoreOf header.now store.old.store }
    requires text { HasBegun start text.old.items }
    ensures told { Told result store.old (drop start text.old.items)
        store.new (drop start text.new.items) (print_object here after object) }
    ensures text { Grew start text.old.items text.new.items }
{
    test_object(header, store, object)?;
    let table = property_table(header, store, object)?;
    let words = read_byte(store, table as usize)?;
    if words == 0 {
        return Ok(Next {
            program_counter: after,
            fuel: here.fuel,
        });
    }
    print_address(store, text, start, here, after, table as u32 + 1)
}
