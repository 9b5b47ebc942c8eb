//! Operations on object 0, which is no object: what they answer is 0 or false, and nothing changes
//! (Z-Machine Standards Document 1.1, section 12.3).

ghost use Rattle.std.specs.Prelude.{◌≡◌, ◌≤◌, true, slice_index};
ghost use Rattle.zcore.specs.Layout.{longest_story};
ghost use Rattle.zcore.specs.Objects.{give_object};
ghost use Rattle.zcore_standard.specs.Nothing as definitions;
ghost use Rattle.machine_frames.specs.States.{IsStoreOf};
ghost use Rattle.machine_frames.specs.Went.{Went};

use journal::Recorded;
use machine_frames::{End, Store, store_result, test_result};
use machine_objects::remove_object;
use machine_opcodes::{Ending, branch_on, give_result, test_branch};
use zcore::{Branch, Header, Next, Operation};

/// The number that stands for no object.
const NOTHING: u16 = 0;

/// The value of an operand, 0 where there is none.
pub(crate) fn value_of(values: &[u16], place: usize) -> u16
    ensures { result ≡ slice_index values.now place }
{
    if place < values.len() {
        values[place]
    } else {
        0
    }
}

/// Whether the first operand of an operation is an object.
fn is_on_object(operation: Operation) -> bool
    ensures { result ≡ definitions.is_on_object operation }
{
    match operation {
        Operation::JumpIfIn
        | Operation::TestAttribute
        | Operation::SetAttribute
        | Operation::ClearAttribute
        | Operation::InsertObject
        | Operation::GetProperty
        | Operation::GetPropertyAddress
        | Operation::GetNextProperty
        | Operation::GetSibling
        | Operation::GetChild
        | Operation::GetParent
        | Operation::RemoveObject
        | Operation::PrintObject
        | Operation::PutProperty => true,
        _ => false,
    }
}

/// Whether the second operand of an operation is an object too.
fn is_into_object(operation: Operation) -> bool
    ensures { result ≡ definitions.is_into_object operation }
{
    match operation {
        Operation::InsertObject => true,
        _ => false,
    }
}

/// Whether an operation on these values is one on object 0.
pub fn concerns_nothing(operation: Operation, values: &[u16]) -> bool
    ensures { result ≡ definitions.concerns_nothing operation values.now }
{
    (is_on_object(operation) && value_of(values, 0) == NOTHING)
        || (is_into_object(operation) && value_of(values, 1) == NOTHING)
}

/// Does an operation on object 0.
///
/// # Errors
///
/// M6 and M4 of the result, then the faults of the branch; those of `remove_object` where an object
/// goes into object 0. `End::Memory` where memory was refused: the turn is given up.
pub fn perform_on_nothing(
    header: &Header,
    store: &mut Recorded<Store>,
    here: Next,
    operation: Operation,
    values: &[u16],
    ending: Ending,
) -> Result<Next, End>
    requires store { IsStoreOf header.now store.old.store }
    requires after { ending.after ≤ longest_story }
    ensures { Went result store.old store.new (definitions.perform_on_nothing operation here
        ending.after ending.result ending.branch values.now) }
{
    let after = ending.after;
    match operation {
        Operation::JumpIfIn => {
            let holds = value_of(values, 1) == NOTHING;
            branch_on(header, store, here, after, ending.branch, holds)
        }
        Operation::TestAttribute => branch_on(header, store, here, after, ending.branch, false),
        Operation::InsertObject => insert_nothing(header, store, here, after, value_of(values, 0)),
        Operation::GetProperty
        | Operation::GetPropertyAddress
        | Operation::GetNextProperty
        | Operation::GetParent => give_result(header, store, here, after, ending.result, NOTHING),
        Operation::GetSibling | Operation::GetChild => {
            give_nothing(header, store, here, after, ending.result, ending.branch)
        }
        _ => Ok(Next {
            program_counter: after,
            fuel: here.fuel,
        }),
    }
}

/// Takes an object out of the one that it is in: `insert_obj` into object 0.
fn insert_nothing(
    header: &Header,
    store: &mut Recorded<Store>,
    here: Next,
    after: u32,
    object: u16,
) -> Result<Next, End>
    requires { IsStoreOf header.now store.old.store }
    ensures { Went result store.old store.new (definitions.insert_nothing here after object) }
{
    if object == NOTHING {
        return Ok(Next {
            program_counter: after,
            fuel: here.fuel,
        });
    }
    remove_object(header, store, here, after, object)
}

/// Stores object 0, for which no branch holds. Both are tested first.
fn give_nothing(
    header: &Header,
    store: &mut Recorded<Store>,
    here: Next,
    after: u32,
    result_variable: Option<u8>,
    branch: Option<Branch>,
) -> Result<Next, End>
    requires store { IsStoreOf header.now store.old.store }
    requires after { after ≤ longest_story }
    ensures { Went result store.old store.new (give_object here after result_variable branch 0) }
{
    test_result(store, result_variable)?;
    test_branch(store, after, branch, false)?;
    store_result(header, store, result_variable, NOTHING)?;
    branch_on(header, store, here, after, branch, false)
}
