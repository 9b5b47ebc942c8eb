//! What acts on objects and properties, as items.

ghost use Rattle.std.specs.Prelude.{IfOk, OnOk};
ghost use Rattle.meaning.specs.Resolved.{relative, has, provides, property};
ghost use Rattle.meaning.specs.Resolved.{property_size, contained, property_word};
ghost use Rattle.meaning.specs.Resolved.{assign_property, assign_property_word};
ghost use Rattle.meaning.specs.Views.{propertied, value_of};
ghost use Rattle.code_drafts.specs.Writing.{WritesValue};
ghost use Rattle.code_items.specs.ValueWriting.{WritesContained, WritesPropertyWord};
ghost use Rattle.code_items.specs.ValueWriting.{WritesAssignedProperty, WritesAssignedWord};
ghost use Rattle.code_items.specs.ValueWriting.{WritesProperties};

use crate::value::put_operand;
use code_drafts::{
    Destination, Draft, Item, Operand, Wanted, alone, containment_when, first_of, has_when,
    left_of, put, put_truth, put_word,
};
use meaning::Value;
use std::alloc::AllocError;
use syntax_trees::{Containment, Relative};

/// The parent, the first child or the sibling of an object.
#[cycle(values)]
#[inline(never)]
pub(crate) fn put_relative<'a>(
    draft: &mut Draft<'a>,
    object: &Value,
    relation: Relative,
    wanted: Wanted,
) -> Result<(), AllocError>
    ensures { OnOk result (WritesValue draft.old draft.new wanted
        (relative relation (value_of object.now))) }
{
    let Ok(destination) = put_word(draft, wanted) else {
        return Err(AllocError);
    };
    let operand = alone(object);
    let Ok(()) = put(draft, Item::Relative(relation, operand, destination)) else {
        return Err(AllocError);
    };
    put_operand(draft, object, operand)
}

/// Whether an object stands in another, or whether it does not.
#[cycle(values)]
#[inline(never)]
pub(crate) fn put_contained<'a>(
    draft: &mut Draft<'a>,
    object: &Value,
    parent: &Value,
    containment: Containment,
    wanted: Wanted,
) -> Result<(), AllocError>
    ensures { OnOk result (WritesValue draft.old draft.new wanted
        (contained containment (value_of object.now) (value_of parent.now))) }
{
    let left = left_of(object, parent);
    let Ok(()) = put_containment(draft, parent, containment, left, wanted) else {
        return Err(AllocError);
    };
    put_operand(draft, object, left)
}

/// `in` or `notin` and the word at its right, where the operand for the object is known.
#[cycle(values)]
#[inline(never)]
fn put_containment<'a>(
    draft: &mut Draft<'a>,
    parent: &Value,
    containment: Containment,
    object: Operand,
    wanted: Wanted,
) -> Result<(), AllocError>
    ensures { OnOk result (WritesContained draft.old draft.new
        wanted containment object parent.now) }
{
    let Ok((when, target)) = put_truth(draft, wanted) else {
        return Err(AllocError);
    };
    let operand = alone(parent);
    let when = containment_when(containment, when);
    let Ok(()) = put(draft, Item::IsIn(object, operand, when, target)) else {
        return Err(AllocError);
    };
    put_operand(draft, parent, operand)
}

/// Whether an object has an attribute.
#[cycle(values)]
#[inline(never)]
pub(crate) fn put_has<'a>(
    draft: &mut Draft<'a>,
    object: &Value,
    positive: bool,
    attribute: usize,
    wanted: Wanted,
) -> Result<(), AllocError>
    ensures { OnOk result (WritesValue draft.old draft.new wanted
        (has positive (value_of object.now) attribute)) }
{
    let Ok((when, target)) = put_truth(draft, wanted) else {
        return Err(AllocError);
    };
    let operand = alone(object);
    let when = has_when(positive, when);
    let Ok(()) = put(draft, Item::Has(operand, attribute, when, target)) else {
        return Err(AllocError);
    };
    put_operand(draft, object, operand)
}

/// Whether an object provides a property.
#[cycle(values)]
#[inline(never)]
pub(crate) fn put_provides<'a>(
    draft: &mut Draft<'a>,
    object: &Value,
    property: usize,
    wanted: Wanted,
) -> Result<(), AllocError>
    ensures { OnOk result (WritesValue draft.old draft.new wanted
        (provides (value_of object.now) property)) }
{
    let Ok((when, target)) = put_truth(draft, wanted) else {
        return Err(AllocError);
    };
    let operand = alone(object);
    let Ok(()) = put(draft, Item::Provides(operand, property, when, target)) else {
        return Err(AllocError);
    };
    put_operand(draft, object, operand)
}

/// The word of a property, or of the last of several of which each is one of the word before it.
/// They are written from the last one to the object.
#[cycle(values)]
#[inline(never)]
pub(crate) fn put_property<'a>(
    draft: &mut Draft<'a>,
    object: &Value,
    number: usize,
    others: &[usize],
    wanted: Wanted,
) -> Result<(), AllocError>
    ensures { OnOk result (WritesValue draft.old draft.new wanted
        (propertied (property (value_of object.now) number) others.now)) }
{
    let Ok(wanted) = put_properties(draft, others, wanted) else {
        return Err(AllocError);
    };
    let Ok(destination) = put_word(draft, wanted) else {
        return Err(AllocError);
    };
    let operand = alone(object);
    let Ok(()) = put(draft, Item::Property(operand, number, destination)) else {
        return Err(AllocError);
    };
    put_operand(draft, object, operand)
}

/// Properties of which each is one of the word before it, from the last one on: what is then wanted
/// of what stands before them.
#[inline(never)]
fn put_properties(
    draft: &mut Draft<'_>,
    numbers: &[usize],
    wanted: Wanted,
) -> Result<Wanted, AllocError>
    ensures { IfOk result (λ rest. WritesProperties draft.old draft.new wanted rest numbers.now) }
{
    let mut wanted = wanted;
    for done in 0..numbers.len() {
        let number = numbers[numbers.len() - 1 - done];
        let Ok(destination) = put_word(draft, wanted) else {
            return Err(AllocError);
        };
        let Ok(()) = put(draft, Item::Property(Operand::Pushed, number, destination)) else {
            return Err(AllocError);
        };
        wanted = Wanted::Word(Destination::Push);
    }
    Ok(wanted)
}

/// How many bytes a property has.
#[cycle(values)]
#[inline(never)]
pub(crate) fn put_property_size<'a>(
    draft: &mut Draft<'a>,
    object: &Value,
    number: usize,
    wanted: Wanted,
) -> Result<(), AllocError>
    ensures { OnOk result (WritesValue draft.old draft.new wanted
        (property_size (value_of object.now) number)) }
{
    let Ok(destination) = put_word(draft, wanted) else {
        return Err(AllocError);
    };
    let operand = alone(object);
    let Ok(()) = put(draft, Item::PropertySize(operand, number, destination)) else {
        return Err(AllocError);
    };
    put_operand(draft, object, operand)
}

/// A word of a property.
#[cycle(values)]
#[inline(never)]
pub(crate) fn put_property_word<'a>(
    draft: &mut Draft<'a>,
    object: &Value,
    index: &Value,
    number: usize,
    wanted: Wanted,
) -> Result<(), AllocError>
    ensures { OnOk result (WritesValue draft.old draft.new wanted
        (property_word (value_of object.now) number (value_of index.now))) }
{
    let left = left_of(object, index);
    let Ok(()) = put_indexed_property(draft, index, number, left, wanted) else {
        return Err(AllocError);
    };
    put_operand(draft, object, left)
}

/// A word of a property, where the operand for the object is known.
#[cycle(values)]
#[inline(never)]
fn put_indexed_property<'a>(
    draft: &mut Draft<'a>,
    index: &Value,
    number: usize,
    object: Operand,
    wanted: Wanted,
) -> Result<(), AllocError>
    ensures { OnOk result (WritesPropertyWord draft.old draft.new wanted number object index.now) }
{
    let Ok(destination) = put_word(draft, wanted) else {
        return Err(AllocError);
    };
    let operand = alone(index);
    let Ok(()) = put(
        draft,
        Item::PropertyWord(number, object, operand, destination),
    ) else {
        return Err(AllocError);
    };
    put_operand(draft, index, operand)
}

/// A property that is assigned.
#[cycle(values)]
#[inline(never)]
pub(crate) fn put_assign_property<'a>(
    draft: &mut Draft<'a>,
    object: &Value,
    value: &Value,
    number: usize,
    wanted: Wanted,
) -> Result<(), AllocError>
    ensures { OnOk result (WritesValue draft.old draft.new wanted
        (assign_property (value_of object.now) number (value_of value.now))) }
{
    let left = left_of(object, value);
    let Ok(()) = put_assigned_property(draft, value, number, left, wanted) else {
        return Err(AllocError);
    };
    put_operand(draft, object, left)
}

/// A property that is assigned, where the operand for the object is known.
#[cycle(values)]
#[inline(never)]
fn put_assigned_property<'a>(
    draft: &mut Draft<'a>,
    value: &Value,
    number: usize,
    object: Operand,
    wanted: Wanted,
) -> Result<(), AllocError>
    ensures { OnOk result (WritesAssignedProperty draft.old draft.new
        wanted number object value.now) }
{
    let Ok(destination) = put_word(draft, wanted) else {
        return Err(AllocError);
    };
    let operand = alone(value);
    let Ok(()) = put(
        draft,
        Item::AssignProperty(number, object, operand, destination),
    ) else {
        return Err(AllocError);
    };
    put_operand(draft, value, operand)
}

/// A word of a property that is assigned.
#[cycle(values)]
#[inline(never)]
pub(crate) fn put_assign_property_word<'a>(
    draft: &mut Draft<'a>,
    object: &Value,
    index: &Value,
    value: &Value,
    number: usize,
    wanted: Wanted,
) -> Result<(), AllocError>
    ensures { OnOk result (WritesValue draft.old draft.new wanted
        (assign_property_word (value_of object.now) number (value_of index.now)
        (value_of value.now))) }
{
    let first = first_of(object, index, value);
    let second = left_of(index, value);
    let Ok(()) = put_assigned_word(draft, value, number, (first, second), wanted) else {
        return Err(AllocError);
    };
    let Ok(()) = put_operand(draft, index, second) else {
        return Err(AllocError);
    };
    put_operand(draft, object, first)
}

/// A word of a property that is assigned, where the operands for the object and the index are
/// known.
#[cycle(values)]
#[inline(never)]
fn put_assigned_word<'a>(
    draft: &mut Draft<'a>,
    value: &Value,
    number: usize,
    places: (Operand, Operand),
    wanted: Wanted,
) -> Result<(), AllocError>
    ensures { OnOk result (WritesAssignedWord draft.old draft.new
        wanted number places.0 places.1 value.now) }
{
    let Ok(destination) = put_word(draft, wanted) else {
        return Err(AllocError);
    };
    let operand = alone(value);
    let Ok(()) = put(
        draft,
        Item::AssignPropertyWord(number, places.0, places.1, operand, destination),
    ) else {
        return Err(AllocError);
    };
    put_operand(draft, value, operand)
}
