//! Opcodes on objects with small entries, by their operations (Z-Machine Standards Document 1.1, section
//! 15).

ghost use Rattle.std.specs.Prelude.{◌≡◌, ◌≤◌, true, slice_index};
ghost use Rattle.zcore.specs.Layout.{longest_story};
ghost use Rattle.machine_frames.specs.States.{IsStoreOf};
ghost use Rattle.machine_frames.specs.Went.{Went};
ghost use Rattle.zcore_versions.specs.Performing as definitions;
ghost use Rattle.zcore_versions.specs.Versions as versions;
ghost use Rattle.machine_versions_steps.specs.Kinds.{is_on_small_object, take_out};

use journal::Recorded;
use machine_frames::{End, Store};
use machine_opcodes::Ending;
use machine_standard_objects::perform_on_nothing;
use machine_versions as small;
use zcore::{Header, Next, Operation};

/// The value of an operand, 0 where there is none.
pub(crate) fn value_of(values: &[u16], place: usize) -> u16
    ensures { result ≡ slice_index values.now place }
{
    if place < values.len() {
        values[place]
    } else {
        0
    }
}

/// Does an operation on an object, or on a property of one.
pub(crate) fn perform_on_object(
    header: &Header,
    store: &mut Recorded<Store>,
    here: Next,
    operation: Operation,
    values: &[u16],
    ending: Ending,
) -> Result<Next, End>
    requires store { IsStoreOf header.now store.old.store }
    requires object { is_on_small_object operation ≡ true }
    requires after { ending.after ≤ longest_story }
    ensures { (story : versions.Story) → Went result store.old store.new (definitions.perform_other story
        operation here ending.after ending.result ending.branch values.now) }
{
    let after = ending.after;
    let result = ending.result;
    let branch = ending.branch;
    let x = value_of(values, 0);
    let y = value_of(values, 1);
    match operation {
        Operation::JumpIfIn => small::jump_if_in(header, store, here, after, branch, x, y),
        Operation::TestAttribute => small::test_attribute(header, store, here, after, branch, x, y),
        Operation::SetAttribute => small::set_attribute(header, store, here, after, x, y),
        Operation::ClearAttribute => small::clear_attribute(header, store, here, after, x, y),
        Operation::InsertObject => small::insert_object(header, store, here, after, x, y),
        Operation::RemoveObject => small::remove_object(header, store, here, after, x),
        Operation::GetParent => small::get_parent(header, store, here, after, result, x),
        Operation::GetSibling => small::get_sibling(header, store, here, after, result, branch, x),
        Operation::GetChild => small::get_child(header, store, here, after, result, branch, x),
        Operation::GetProperty => small::get_property(header, store, here, after, result, x, y),
        Operation::GetPropertyAddress => {
            small::get_property_address(header, store, here, after, result, x, y)
        }
        Operation::GetNextProperty => {
            small::get_next_property(header, store, here, after, result, x, y)
        }
        Operation::GetPropertyLength => {
            small::get_property_length(header, store, here, after, result, x)
        }
        Operation::PutProperty => {
            small::put_property(header, store, here, after, x, y, value_of(values, 2))
        }
        _ => unreachable!(),
    }
}

/// Does an operation on object 0, which is no object.
pub(crate) fn perform_on_none(
    header: &Header,
    store: &mut Recorded<Store>,
    here: Next,
    operation: Operation,
    values: &[u16],
    ending: Ending,
) -> Result<Next, End>
    requires store { IsStoreOf header.now store.old.store }
    requires after { ending.after ≤ longest_story }
    ensures { Went result store.old store.new (definitions.perform_on_none operation here
        ending.after ending.result ending.branch values.now) }
{
    match operation {
        Operation::InsertObject => {
            take_out(header, store, here, ending.after, value_of(values, 0))
        }
        _ => perform_on_nothing(header, store, here, operation, values, ending),
    }
}

/// Takes an object out of the one that it is in: `insert_obj` into object 0.
fn take_out(
    header: &Header,
    store: &mut Recorded<Store>,
    here: Next,
    after: u32,
    object: u16,
) -> Result<Next, End>
    requires { IsStoreOf header.now store.old.store }
    ensures { Went result store.old store.new (take_out here after object) }
{
    if object == 0 {
        return Ok(Next {
            program_counter: after,
            fuel: here.fuel,
        });
    }
    small::remove_object(header, store, here, after, object)
}
