//! Expressions as items.
//!
//! What writes a kind of expression is no part of `put_value` in machine code: what walks a tree then
//! takes stack for the kinds on its way alone, and not for all kinds at each step.

ghost use Rattle.std.specs.Prelude.{OnOk};
ghost use Rattle.meaning.specs.Resolved.{call, prefixed, assign, entry, relative};
ghost use Rattle.meaning.specs.Resolved.{assign_entry};
ghost use Rattle.meaning.specs.Views.{value_of};
ghost use Rattle.code_drafts.specs.Writing.{values_in, WritesValue};
ghost use Rattle.code_items.specs.ValueWriting.{WritesOperand, WritesPlaced, WritesOperands};
ghost use Rattle.code_items.specs.ValueWriting.{WritesArguments};
ghost use Rattle.code_items.specs.ValueWriting.{WritesAssignedEntry};

use crate::objects::{
    put_assign_property, put_assign_property_word, put_contained, put_has, put_property,
    put_property_size, put_property_word, put_provides, put_relative,
};
use crate::value_operations::{put_chain, put_compare, put_equal};
use code_drafts::{
    Destination, Draft, Item, Operand, Wanted, alone, are_more_pushed, argument_place,
    assign_entry_item, before, call_item, entry_item, index_place, is_pushed_or_later, left_of,
    push_operands, put, put_number, put_read, put_step_after, put_step_before, put_truth, put_word,
};
use meaning::{Value, Variable};
use std::alloc::AllocError;
use syntax_trees::{Prefix, Relative, Width};

/// The items of an expression, which do what is wanted of it.
#[cycle(values)]
pub fn put_value<'a>(draft: &mut Draft<'a>, value: &Value, wanted: Wanted) -> Result<(), AllocError>
    ensures { OnOk result (WritesValue draft.old draft.new wanted (value_of value.now)) }
{
    match value {
        Value::Number(number) => put_number(draft, *number, wanted),
        Value::Read(variable) => put_read(draft, *variable, wanted),
        Value::Call(routine, arguments) => put_call(draft, arguments, *routine, wanted),
        Value::Prefixed(prefix, operand) => put_prefixed(draft, operand, *prefix, wanted),
        Value::StepBefore(step, variable) => put_step_before(draft, *variable, *step, wanted),
        Value::StepAfter(variable, step) => put_step_after(draft, *variable, *step, wanted),
        Value::Chain(first, operator, second, links) => {
            put_chain(draft, first, *operator, second, links, wanted)
        }
        Value::Compare(left, test, right) => put_compare(draft, left, right, *test, wanted),
        Value::Equal(left, test, right, more) => put_equal(draft, left, right, more, *test, wanted),
        Value::Assign(variable, value) => put_assigned(draft, value, *variable, wanted),
        Value::Entry(width, array, index) => put_entry(draft, index, *width, *array, wanted),
        Value::AssignEntry(width, array, index, value) => {
            put_assign_entry(draft, index, value, *width, *array, wanted)
        }
        Value::Relative(relative, object) => put_relative(draft, object, *relative, wanted),
        Value::Contained(left, test, right) => put_contained(draft, left, right, *test, wanted),
        Value::Has(positive, object, number) => put_has(draft, object, *positive, *number, wanted),
        Value::Provides(object, number) => put_provides(draft, object, *number, wanted),
        Value::Property(object, number, others) => {
            put_property(draft, object, *number, others, wanted)
        }
        Value::PropertySize(object, number) => put_property_size(draft, object, *number, wanted),
        Value::PropertyWord(object, number, index) => {
            put_property_word(draft, object, index, *number, wanted)
        }
        Value::AssignProperty(object, number, value) => {
            put_assign_property(draft, object, value, *number, wanted)
        }
        Value::AssignPropertyWord(object, number, index, value) => {
            put_assign_property_word(draft, object, index, value, *number, wanted)
        }
    }
}

/// What pushes the word of an operand; none where it stands in place.
#[cycle(values)]
pub fn put_operand<'a>(
    draft: &mut Draft<'a>,
    value: &Value,
    operand: Operand,
) -> Result<(), AllocError>
    ensures { OnOk result (WritesOperand draft.old draft.new operand value.now) }
{
    match operand {
        Operand::Pushed => put_value(draft, value, Wanted::Word(Destination::Push)),
        Operand::Number(_) | Operand::Variable(_) => Ok(()),
    }
}

/// What puts an operand where it goes; none where it stands in place.
#[cycle(values)]
pub(crate) fn put_right<'a>(
    draft: &mut Draft<'a>,
    value: &Value,
    operand: Operand,
    place: Destination,
) -> Result<(), AllocError>
    ensures { OnOk result (WritesPlaced draft.old draft.new operand place value.now) }
{
    match operand {
        Operand::Pushed => put_value(draft, value, Wanted::Word(place)),
        Operand::Number(_) | Operand::Variable(_) => Ok(()),
    }
}

/// What pushes the operands of a list, from left to right.
#[cycle(values)]
#[inline(never)]
pub(crate) fn put_operands<'a>(draft: &mut Draft<'a>, values: &[Value]) -> Result<(), AllocError>
    ensures { OnOk result (WritesOperands draft.old draft.new values.now) }
{
    for done in 0..values.len() {
        let number = values.len() - 1 - done;
        let value = &values[number];
        let operand = before(value, &values[number + 1..]);
        let Ok(()) = put_operand(draft, value, operand) else {
            return Err(AllocError);
        };
    }
    Ok(())
}

/// What puts the arguments of a call where it finds them, from left to right.
#[cycle(values)]
#[inline(never)]
fn put_arguments<'a>(
    draft: &mut Draft<'a>,
    values: &[Value],
    several: bool,
) -> Result<(), AllocError>
    ensures { OnOk result (WritesArguments draft.old draft.new values.now several) }
{
    let mut after = false;
    for done in 0..values.len() {
        let number = values.len() - 1 - done;
        let value = &values[number];
        let operand = before(value, &values[number + 1..]);
        let place = argument_place(several, after);
        let Ok(()) = put_right(draft, value, operand, place) else {
            return Err(AllocError);
        };
        after = is_pushed_or_later(operand, after);
    }
    Ok(())
}

#[cycle(values)]
#[inline(never)]
fn put_call<'a>(
    draft: &mut Draft<'a>,
    arguments: &[Value],
    routine: usize,
    wanted: Wanted,
) -> Result<(), AllocError>
    ensures { OnOk result (WritesValue draft.old draft.new wanted
        (call routine (values_in arguments.now))) }
{
    let Ok(destination) = put_word(draft, wanted) else {
        return Err(AllocError);
    };
    let mut operands = Vec::new(draft.alloc);
    let Ok(()) = push_operands(&mut operands, arguments) else {
        return Err(AllocError);
    };
    let several = are_more_pushed(&operands);
    let Ok(()) = put(draft, call_item(routine, operands, several, destination)) else {
        return Err(AllocError);
    };
    put_arguments(draft, arguments, several)
}

#[cycle(values)]
#[inline(never)]
fn put_prefixed<'a>(
    draft: &mut Draft<'a>,
    value: &Value,
    prefix: Prefix,
    wanted: Wanted,
) -> Result<(), AllocError>
    ensures { OnOk result (WritesValue draft.old draft.new wanted
        (prefixed prefix (value_of value.now))) }
{
    match prefix {
        Prefix::Not => {
            let Ok((when, left)) = put_truth(draft, wanted) else {
                return Err(AllocError);
            };
            put_value(draft, value, Wanted::Branch(!when, left))
        }
        _ => {
            let Ok(destination) = put_word(draft, wanted) else {
                return Err(AllocError);
            };
            let operand = alone(value);
            let Ok(()) = put(draft, Item::Prefix(prefix, operand, destination)) else {
                return Err(AllocError);
            };
            put_operand(draft, value, operand)
        }
    }
}

#[cycle(values)]
#[inline(never)]
fn put_assigned<'a>(
    draft: &mut Draft<'a>,
    value: &Value,
    variable: Variable,
    wanted: Wanted,
) -> Result<(), AllocError>
    ensures { OnOk result (WritesValue draft.old draft.new wanted
        (assign variable (value_of value.now))) }
{
    let Ok(destination) = put_word(draft, wanted) else {
        return Err(AllocError);
    };
    match destination {
        Destination::Nowhere => {
            put_value(draft, value, Wanted::Word(Destination::Into(variable)))
        }
        Destination::Push => {
            let Ok(()) = put(draft, Item::Keep(variable)) else {
                return Err(AllocError);
            };
            put_value(draft, value, Wanted::Word(Destination::Push))
        }
        Destination::Into(other) => {
            let Ok(()) = put(draft, Item::Move(Operand::Pushed, Destination::Into(other))) else {
                return Err(AllocError);
            };
            let Ok(()) = put(draft, Item::Keep(variable)) else {
                return Err(AllocError);
            };
            put_value(draft, value, Wanted::Word(Destination::Push))
        }
        Destination::Aside => {
            let Ok(()) = put(draft, Item::Move(Operand::Pushed, Destination::Aside)) else {
                return Err(AllocError);
            };
            let Ok(()) = put(draft, Item::Keep(variable)) else {
                return Err(AllocError);
            };
            put_value(draft, value, Wanted::Word(Destination::Push))
        }
    }
}

/// An entry of an array.
#[cycle(values)]
#[inline(never)]
fn put_entry<'a>(
    draft: &mut Draft<'a>,
    index: &Value,
    width: Width,
    array: usize,
    wanted: Wanted,
) -> Result<(), AllocError>
    ensures { OnOk result (WritesValue draft.old draft.new wanted
        (entry width array (value_of index.now))) }
{
    let Ok(destination) = put_word(draft, wanted) else {
        return Err(AllocError);
    };
    let operand = alone(index);
    let Ok(()) = put(draft, entry_item(width, array, operand, destination)) else {
        return Err(AllocError);
    };
    put_right(draft, index, operand, Destination::Aside)
}

/// An entry that is assigned.
#[cycle(values)]
#[inline(never)]
fn put_assign_entry<'a>(
    draft: &mut Draft<'a>,
    index: &Value,
    value: &Value,
    width: Width,
    array: usize,
    wanted: Wanted,
) -> Result<(), AllocError>
    ensures { OnOk result (WritesValue draft.old draft.new wanted
        (assign_entry width array (value_of index.now) (value_of value.now))) }
{
    let left = left_of(index, value);
    let Ok(()) = put_assigned_entry(draft, value, width, array, left, wanted) else {
        return Err(AllocError);
    };
    let place = index_place(alone(value));
    put_right(draft, index, left, place)
}

/// An entry that is assigned, where the operand for its index is known.
#[cycle(values)]
#[inline(never)]
fn put_assigned_entry<'a>(
    draft: &mut Draft<'a>,
    value: &Value,
    width: Width,
    array: usize,
    index: Operand,
    wanted: Wanted,
) -> Result<(), AllocError>
    ensures { OnOk result (WritesAssignedEntry draft.old draft.new
        wanted width array index value.now) }
{
    let Ok(destination) = put_word(draft, wanted) else {
        return Err(AllocError);
    };
    let operand = alone(value);
    let Ok(()) = put(
        draft,
        assign_entry_item(width, array, index, operand, destination),
    ) else {
        return Err(AllocError);
    };
    put_right(draft, value, operand, Destination::Aside)
}
