//! What a known instruction does with the values of its operands: what it does in the profile, on
//! object 0, to Flags 2, where it forgives a slip, or where it prints what the profile does not.

ghost use Rattle.std.specs.Prelude.{◌≡◌, ◌≤◌, [], ◌∷◌, None, length};
ghost use Rattle.zcore.specs.Layout.{longest_story};
ghost use Rattle.zcore.specs.Operations.{count_of, least_operands, most_operands};
ghost use Rattle.zcore.specs.declared.operations.OperandCount.TheVariants as counts;
ghost use Rattle.zcore_standard.specs.Loaded as loading;
ghost use Rattle.zcore_standard.specs.Nothing as definitions;
ghost use Rattle.machine_frames.specs.States.{IsStoreOf};
ghost use Rattle.machine_frames.specs.Went.{Went};
ghost use Rattle.machine_opcodes.specs.Printed.{HasBegun, Grew, ToldFrom};

use crate::flags::{concerns_flags, perform_on_flags};
use crate::forgiving::{may_be_forgiven, perform_forgiving};
use crate::nothing::{concerns_nothing, perform_on_nothing};
use journal::Recorded;
use machine_frames::{End, Store};
use machine_opcodes::Ending;
use machine_standard_texts::{
    print_address, print_character, print_inline, print_object, print_packed, print_return,
};
use machine_steps::{
    OPERANDS, perform_many, perform_none, perform_one, perform_several, perform_two,
};
use zcore::{Header, Next, Operation};
use zcore_standard::Loaded;

/// Does an operation on two values.
pub(crate) fn two(
    header: &Header,
    store: &mut Recorded<Store>,
    here: Next,
    operation: Operation,
    x: u16,
    y: u16,
    ending: Ending,
) -> Result<Next, End>
    requires store { IsStoreOf header.now store.old.store }
    requires count { count_of operation ≡ counts.Two }
    requires after { ending.after ≤ longest_story }
    ensures { (loaded : loading.Loaded) → Went result store.old store.new
        (definitions.perform_known loaded operation here ending.after ending.result ending.branch (x ∷ y ∷ [])) }
{
    if concerns_nothing(operation, &[x, y]) {
        return perform_on_nothing(header, store, here, operation, &[x, y], ending);
    }
    if may_be_forgiven(operation, &[x, y]) {
        return perform_forgiving(header, store, here, operation, &[x, y], ending);
    }
    perform_two(header, store, here, operation, x, y, ending)
}

/// Does an operation with an opcode of two operands on two values or, where it compares, on up to
/// four.
pub(crate) fn many(
    header: &Header,
    store: &mut Recorded<Store>,
    here: Next,
    operation: Operation,
    values: &[u16],
    ending: Ending,
) -> Result<Next, End>
    requires store { IsStoreOf header.now store.old.store }
    requires count { count_of operation ≡ counts.Two }
    requires enough { 2 ≤ length values.now }
    requires few { length values.now ≤ most_operands operation }
    requires after { ending.after ≤ longest_story }
    ensures { (loaded : loading.Loaded) → Went result store.old store.new
        (definitions.perform_known loaded operation here ending.after ending.result ending.branch values.now) }
{
    if concerns_nothing(operation, values) {
        return perform_on_nothing(header, store, here, operation, values, ending);
    }
    if may_be_forgiven(operation, values) {
        return perform_forgiving(header, store, here, operation, values, ending);
    }
    perform_many(header, store, here, operation, values, ending)
}

/// Does an operation on one value.
pub(crate) fn one(
    header: &Header,
    store: &mut Recorded<Store>,
    text: &mut Vec<u8>,
    start: usize,
    loaded: &Loaded,
    here: Next,
    operation: Operation,
    x: u16,
    ending: Ending,
) -> Result<Next, End>
    requires store { IsStoreOf header.now store.old.store }
    requires text { HasBegun start text.old.items }
    requires count { count_of operation ≡ counts.One }
    requires after { ending.after ≤ longest_story }
    ensures told { ToldFrom start result store.old text.old.items store.new text.new.items
        (definitions.perform_known loaded.now operation here ending.after ending.result ending.branch
        (x ∷ [])) }
    ensures text { Grew start text.old.items text.new.items }
{
    if concerns_nothing(operation, &[x]) {
        return perform_on_nothing(header, store, here, operation, &[x], ending);
    }
    let after = ending.after;
    match operation {
        Operation::PrintAddress => {
            print_address(store, text, start, loaded, here, after, x as u32)
        }
        Operation::PrintPacked => {
            print_packed(header, store, text, start, loaded, here, after, x)
        }
        Operation::PrintObject => {
            print_object(header, store, text, start, loaded, here, after, x)
        }
        _ => perform_one(header, store, text, start, here, operation, x, ending),
    }
}

/// Does an operation with an opcode of any number of operands.
pub(crate) fn several(
    header: &Header,
    store: &mut Recorded<Store>,
    text: &mut Vec<u8>,
    start: usize,
    loaded: &Loaded,
    here: Next,
    operation: Operation,
    values: &[u16],
    ending: Ending,
) -> Result<Next, End>
    requires store { IsStoreOf header.now store.old.store }
    requires text { HasBegun start text.old.items }
    requires count { count_of operation ≡ counts.Several }
    requires enough { least_operands operation ≤ length values.now }
    requires some { 1 ≤ length values.now }
    requires few { length values.now ≤ OPERANDS }
    requires after { ending.after ≤ longest_story }
    ensures told { ToldFrom start result store.old text.old.items store.new text.new.items
        (definitions.perform_known loaded.now operation here ending.after ending.result ending.branch
        values.now) }
    ensures text { Grew start text.old.items text.new.items }
{
    if concerns_nothing(operation, values) {
        return perform_on_nothing(header, store, here, operation, values, ending);
    }
    if concerns_flags(operation, values) {
        return perform_on_flags(store, here, operation, values, ending.after);
    }
    if may_be_forgiven(operation, values) {
        return perform_forgiving(header, store, here, operation, values, ending);
    }
    match operation {
        Operation::PrintCharacter => {
            print_character(store, text, start, loaded, here, ending.after, values[0])
        }
        _ => perform_several(header, store, text, start, here, operation, values, ending),
    }
}

/// Does an operation without operands.
pub(crate) fn none(
    header: &Header,
    store: &mut Recorded<Store>,
    text: &mut Vec<u8>,
    start: usize,
    loaded: &Loaded,
    here: Next,
    operation: Operation,
    after: u32,
) -> Result<Next, End>
    requires store { IsStoreOf header.now store.old.store }
    requires text { HasBegun start text.old.items }
    requires count { count_of operation ≡ counts.Zero }
    ensures told { ToldFrom start result store.old text.old.items store.new text.new.items
        (definitions.perform_known loaded.now operation here after None None []) }
    ensures text { Grew start text.old.items text.new.items }
{
    match operation {
        Operation::Print => print_inline(store, text, start, loaded, here, after),
        Operation::PrintReturn => print_return(header, store, text, start, loaded, here, after),
        _ => perform_none(header, store, text, start, here, operation, after),
    }
}
