//! Opcodes that ask of objects with small entries (Z-Machine Standards Document 1.1, sections 12.3.1 and
//! 15).

ghost use Rattle.std.specs.Prelude.{◌≡◌, ◌≤◌};
ghost use Rattle.zcore.specs.Layout.{longest_story};
ghost use Rattle.zcore.specs.Objects.{give_object};
ghost use Rattle.machine_frames.specs.States.{IsStoreOf};
ghost use Rattle.machine_frames.specs.Went.{Went};
ghost use Rattle.zcore_versions.specs.SmallObjects as definitions;

use crate::links::{read_link, test_object};
use journal::Recorded;
use machine_frames::{End, Store, store_result, test_result};
use machine_opcodes::{branch_on, give_result, test_branch};
use tables::Link;
use zcore::{Branch, Header, Next};

/// Branches where an object is in another: `jin`. The other may be any word.
///
/// # Errors
///
/// M8 where the first is no object, then the faults of the branch. `End::Memory` where memory was
/// refused: the turn is given up.
pub fn jump_if_in(
    header: &Header,
    store: &mut Recorded<Store>,
    here: Next,
    after: u32,
    branch: Option<Branch>,
    object: u16,
    other: u16,
) -> Result<Next, End>
    requires store { IsStoreOf header.now store.old.store }
    requires after { after ≤ longest_story }
    ensures { Went result store.old store.new
        (definitions.jump_if_in here after branch object other) }
{
    test_object(header, store, object)?;
    let parent = read_link(header, store, Link::Parent(object))?;
    branch_on(header, store, here, after, branch, parent as u16 == other)
}

/// The object that an object is in: `get_parent`.
///
/// # Errors
///
/// M8 where it is no object, then M6 and M4 of the result. `End::Memory` where memory was refused:
/// the turn is given up.
pub fn get_parent(
    header: &Header,
    store: &mut Recorded<Store>,
    here: Next,
    after: u32,
    result_variable: Option<u8>,
    object: u16,
) -> Result<Next, End>
    requires { IsStoreOf header.now store.old.store }
    ensures { Went result store.old store.new
        (definitions.get_parent here after result_variable object) }
{
    test_object(header, store, object)?;
    let parent = read_link(header, store, Link::Parent(object))?;
    give_result(header, store, here, after, result_variable, parent as u16)
}

/// Stores an object's number or 0, and branches where it is not 0. Both are tested first: M6 and M4
/// of the result, M2 of the target, or M11, M6, M4, M2 of a return.
fn give_object(
    header: &Header,
    store: &mut Recorded<Store>,
    here: Next,
    after: u32,
    result_variable: Option<u8>,
    branch: Option<Branch>,
    object: u16,
) -> Result<Next, End>
    requires store { IsStoreOf header.now store.old.store }
    requires after { after ≤ longest_story }
    ensures { Went result store.old store.new
        (give_object here after result_variable branch object) }
{
    let holds = 1 <= object;
    test_result(store, result_variable)?;
    test_branch(store, after, branch, holds)?;
    store_result(header, store, result_variable, object)?;
    branch_on(header, store, here, after, branch, holds)
}

/// The next object that is in the same one: `get_sibling`, which branches where there
/// is one.
///
/// # Errors
///
/// M8 where it is no object, then M6 and M4 of the result, then the faults of the branch, before
/// anything is stored. `End::Memory` where memory was refused: the turn is given up.
pub fn get_sibling(
    header: &Header,
    store: &mut Recorded<Store>,
    here: Next,
    after: u32,
    result_variable: Option<u8>,
    branch: Option<Branch>,
    object: u16,
) -> Result<Next, End>
    requires store { IsStoreOf header.now store.old.store }
    requires after { after ≤ longest_story }
    ensures { Went result store.old store.new
        (definitions.get_sibling here after result_variable branch object) }
{
    test_object(header, store, object)?;
    let sibling = read_link(header, store, Link::Sibling(object))?;
    give_object(
        header,
        store,
        here,
        after,
        result_variable,
        branch,
        sibling as u16,
    )
}

/// The first object that is in an object: `get_child`, which branches where there is one.
///
/// # Errors
///
/// M8 where it is no object, then M6 and M4 of the result, then the faults of the branch, before
/// anything is stored. `End::Memory` where memory was refused: the turn is given up.
pub fn get_child(
    header: &Header,
    store: &mut Recorded<Store>,
    here: Next,
    after: u32,
    result_variable: Option<u8>,
    branch: Option<Branch>,
    object: u16,
) -> Result<Next, End>
    requires store { IsStoreOf header.now store.old.store }
    requires after { after ≤ longest_story }
    ensures { Went result store.old store.new
        (definitions.get_child here after result_variable branch object) }
{
    test_object(header, store, object)?;
    let child = read_link(header, store, Link::Child(object))?;
    give_object(
        header,
        store,
        here,
        after,
        result_variable,
        branch,
        child as u16,
    )
}
