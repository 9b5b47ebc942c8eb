//! Expressions: the rules that they can break, and what they resolve to.
//!
//! What an expression resolves to goes on in a box, and what walks one kind of expression is no part
//! of `boxed_expression` in machine code: a walk over a tree then takes little stack for each kind
//! on its way, and none for others.

ghost use Rattle.std.specs.Prelude.{◌≡◌, ◌++◌, [], ◌∷◌, if◌then◌else◌, IfOk, map};
ghost use Rattle.std.specs.Option.{option_map};
ghost use Rattle.syntax_trees.specs.Tree as trees;
ghost use Rattle.syntax_trees.specs.Views.{expression_tree, name_tree, trees_of, propertied, link, chained};
ghost use Rattle.meaning.specs.Views.{value_of};
ghost use Rattle.meaning.specs.Views as views;
ghost use Rattle.meaning.specs.Resolved as meant;
ghost use Rattle.checker_values.specs.Breaches.{at};
ghost use Rattle.checker_values.specs.Noted.{noted};
ghost use Rattle.checker_values.specs.Keys.{key_of_word};
ghost use Rattle.checker_values.specs.Scope.{look_in, number_at, seen_in};
ghost use Rattle.checker_values.specs.Names as names;
ghost use Rattle.checker_values.specs.Expressions.{tested_breaches, tested_for, assigned};
ghost use Rattle.checker_values.specs.Expressions.{target_breaches, value_of_binding};
ghost use Rattle.checker_values.specs.Walk.{IsResolved, GivesValue, GivesBoxed, AreResolved, AreLinks};
ghost use Rattle.checker_values.specs.Walk.{IsRoutine, IsArray, IsProperty, AreProperties};
ghost use Rattle.checker_values.specs.Walk.{IsTarget, IsAssigned, IsWalked, value_link};

use crate::binding::Binding;
use crate::memory::in_box;
use crate::name_rules::{array, attribute, named, property, routine, target_of, value};
use crate::noting::{Tally, note};
use crate::table::Scope;
use crate::words::key_of_word;
use meaning::{Value, Variable};
use std::alloc::{AllocError, Global};
use syntax_lexer::{NOT_ASSIGNABLE, Position};
use syntax_trees::{
    Binary, Comparison, Containment, Equality, Expression, Name, ObjectTest, Prefix, Relative,
    Step, Width,
};

/// The name that an expression is, parentheses apart.
pub fn name_of<'a>(e: &Expression<'a>) -> Option<Name<'a>>
    ensures { option_map name_tree result ≡ names.name_of (expression_tree e.now) }
{
    match e {
        Expression::Named(name) => Some(*name),
        Expression::Parenthesised(inside) => name_of(inside),
        Expression::Constant(_) => None,
        Expression::Word(_) => None,
        Expression::Call(_, _) => None,
        Expression::Index(_, _, _) => None,
        Expression::RelativeOf(_, _) => None,
        Expression::Property(_, _, _) => None,
        Expression::PropertyLength(_, _) => None,
        Expression::PropertyEntry(_, _, _) => None,
        Expression::Prefixed(_, _) => None,
        Expression::StepBefore(_, _, _) => None,
        Expression::StepAfter(_, _, _) => None,
        Expression::Chain(_, _, _, _) => None,
        Expression::Compare(_, _, _) => None,
        Expression::Equal(_, _, _, _) => None,
        Expression::Contained(_, _, _) => None,
        Expression::Tested(_, _, _) => None,
        Expression::Assign(_, _, _) => None,
    }
}

// Whether an expression is an entry of an array, a property or a word of a property, parentheses
// apart.
fn is_place(e: &Expression<'_>) -> bool
    ensures { result ≡ names.is_place (expression_tree e.now) }
{
    match e {
        Expression::Index(_, _, _) => true,
        Expression::Property(_, _, _) => true,
        Expression::PropertyEntry(_, _, _) => true,
        Expression::Parenthesised(inside) => is_place(inside),
        Expression::Named(_) => false,
        Expression::Constant(_) => false,
        Expression::Word(_) => false,
        Expression::Call(_, _) => false,
        Expression::RelativeOf(_, _) => false,
        Expression::PropertyLength(_, _) => false,
        Expression::Prefixed(_, _) => false,
        Expression::StepBefore(_, _, _) => false,
        Expression::StepAfter(_, _, _) => false,
        Expression::Chain(_, _, _, _) => false,
        Expression::Compare(_, _, _) => false,
        Expression::Equal(_, _, _, _) => false,
        Expression::Contained(_, _, _) => false,
        Expression::Tested(_, _, _) => false,
        Expression::Assign(_, _, _) => false,
    }
}

// What is assigned to and is no name, by whether it may be assigned to.
#[tactic(auto, using(crate::proofs::Noted::noted_none))]
fn not_place(place: bool, operator: Position, tally: &mut Tally)
    ensures { tally.new ≡ noted tally.old (if place then [] else at operator 26) }
{
    if !place {
        note(tally, NOT_ASSIGNABLE, operator);
    }
}

// An assignment to the last of the properties of an object, which is one of the word of those
// before it.
fn assigned_property(
    right: Box<Value>,
    alloc: Global,
    object: Box<Value>,
    first: usize,
    mut others: Vec<usize>,
) -> Result<Value, AllocError>
    ensures { IfOk result (λ v. value_of v
        ≡ assigned (views.propertied (meant.property (value_of object.value) first) others.items)
        (value_of right.value)) }
{
    match others.pop() {
        None => Ok(Value::AssignProperty(object, first, right)),
        Some(last) => {
            let before = Box::new(alloc, Value::Property(object, first, others))?;
            Ok(Value::AssignProperty(before, last, right))
        }
    }
}

// An assignment to what the left side was resolved to; where that is no place, any will do.
fn assignment(left: Value, right: Box<Value>, alloc: Global) -> Result<Value, AllocError>
    ensures { IfOk result (λ v. value_of v ≡ assigned (value_of left) (value_of right.value)) }
{
    match left {
        Value::Read(variable) => Ok(Value::Assign(variable, right)),
        Value::Entry(width, array, index) => Ok(Value::AssignEntry(width, array, index, right)),
        Value::Property(object, first, others) => {
            assigned_property(right, alloc, object, first, others)
        }
        Value::PropertyWord(object, number, index) => {
            Ok(Value::AssignPropertyWord(object, number, index, right))
        }
        Value::Number(_) => Ok(Value::Assign(Variable::Local(0), right)),
        Value::Call(_, _) => Ok(Value::Assign(Variable::Local(0), right)),
        Value::Prefixed(_, _) => Ok(Value::Assign(Variable::Local(0), right)),
        Value::StepBefore(_, _) => Ok(Value::Assign(Variable::Local(0), right)),
        Value::StepAfter(_, _) => Ok(Value::Assign(Variable::Local(0), right)),
        Value::Chain(_, _, _, _) => Ok(Value::Assign(Variable::Local(0), right)),
        Value::Compare(_, _, _) => Ok(Value::Assign(Variable::Local(0), right)),
        Value::Equal(_, _, _, _) => Ok(Value::Assign(Variable::Local(0), right)),
        Value::Assign(_, _) => Ok(Value::Assign(Variable::Local(0), right)),
        Value::AssignEntry(_, _, _, _) => Ok(Value::Assign(Variable::Local(0), right)),
        Value::Relative(_, _) => Ok(Value::Assign(Variable::Local(0), right)),
        Value::Contained(_, _, _) => Ok(Value::Assign(Variable::Local(0), right)),
        Value::Has(_, _, _) => Ok(Value::Assign(Variable::Local(0), right)),
        Value::Provides(_, _) => Ok(Value::Assign(Variable::Local(0), right)),
        Value::PropertySize(_, _) => Ok(Value::Assign(Variable::Local(0), right)),
        Value::AssignProperty(_, _, _) => Ok(Value::Assign(Variable::Local(0), right)),
        Value::AssignPropertyWord(_, _, _, _) => Ok(Value::Assign(Variable::Local(0), right)),
    }
}

// One more of several.
#[inline(never)]
fn add(found: &mut Vec<Value>, next: Box<Value>) -> Result<(), AllocError>
    ensures { IfOk result (λ _. found.new.items ≡ found.old.items ++ next.value ∷ []) }
{
    found.push(Box::into_inner(next))?;
    Ok(())
}

// One more operator and operand in a chain.
#[inline(never)]
fn add_link(
    links: &mut Vec<(Binary, Value)>,
    operator: Binary,
    operand: Box<Value>,
) -> Result<(), AllocError>
    ensures { IfOk result (λ _. links.new.items
        ≡ links.old.items ++ (operator, operand.value) ∷ []) }
{
    links.push((operator, Box::into_inner(operand)))?;
    Ok(())
}

// What an object is tested for, by a name there that stands for this.
#[tactic(auto, using(crate::proofs::Noted::noted_none))]
fn tested_value(
    name: Name<'_>,
    object: Box<Value>,
    test: ObjectTest,
    found: Option<Binding>,
    tally: &mut Tally,
) -> Value
    ensures value { value_of result ≡ tested_for test (value_of object.value) found }
    ensures breaches { tally.new ≡ noted tally.old
        (tested_breaches test name.entry.position found) }
{
    match test {
        ObjectTest::Has => Value::Has(true, object, attribute(name, found, tally)),
        ObjectTest::HasNot => Value::Has(false, object, attribute(name, found, tally)),
        ObjectTest::Provides => Value::Provides(object, property(name, found, tally)),
    }
}

// A number as an expression.
#[inline(never)]
fn constant(number: u16, alloc: Global) -> Result<Box<Value>, AllocError>
    ensures { IfOk result (λ v. value_of v.value ≡ meant.number number) }
{
    in_box(Value::Number(number), alloc)
}

// A dictionary word as an expression.
#[inline(never)]
fn word(text: &[u8], alloc: Global, scope: &Scope<'_>) -> Result<Box<Value>, AllocError>
    ensures { IfOk result (λ v. value_of v.value
        ≡ meant.number (number_at scope.now.file.now.numbers (key_of_word text.now))) }
{
    in_box(
        Value::Number(scope.file.numbers.number(key_of_word(text))),
        alloc,
    )
}

// A name as an expression.
#[inline(never)]
fn named_value(name: &Name<'_>, scope: &Scope<'_>, tally: &mut Tally) -> Value
    ensures { IsResolved (seen_in scope.now) (trees.named (name_tree name.now))
        tally.old tally.new (value_of result) }
{
    let found = scope.look(name.text);
    value(*name, &scope.file.numbers, found, tally)
}

// The same, in a box.
#[inline(never)]
fn boxed_name(
    name: &Name<'_>,
    alloc: Global,
    scope: &Scope<'_>,
    tally: &mut Tally,
) -> Result<Box<Value>, AllocError>
    ensures { GivesBoxed (seen_in scope.now) result tally.old tally.new
        (trees.named (name_tree name.now)) }
{
    in_box(named_value(name, scope, tally), alloc)
}

// The number of the routine that a name stands for, which is called with so many arguments.
#[inline(never)]
fn routine_of(name: &Name<'_>, given: usize, scope: &Scope<'_>, tally: &mut Tally) -> usize
    ensures { IsRoutine (seen_in scope.now) (name_tree name.now) given
        tally.old tally.new result }
{
    routine(*name, given, scope.look(name.text), tally)
}

// The number of the array that a name stands for.
#[inline(never)]
fn array_of(name: &Name<'_>, scope: &Scope<'_>, tally: &mut Tally) -> usize
    ensures { IsArray (seen_in scope.now) (name_tree name.now) tally.old tally.new result }
{
    array(*name, scope.look(name.text), tally)
}

// The number of the property that a name stands for.
#[inline(never)]
fn property_of(name: &Name<'_>, scope: &Scope<'_>, tally: &mut Tally) -> usize
    ensures { IsProperty (seen_in scope.now) name.now tally.old tally.new result }
{
    property(*name, scope.look(name.text), tally)
}

// The numbers of the properties after the first.
#[inline(never)]
fn property_numbers(
    others: &[Name<'_>],
    alloc: Global,
    scope: &Scope<'_>,
    tally: &mut Tally,
) -> Result<Vec<usize>, AllocError>
    ensures { IfOk result (λ numbers. AreProperties (seen_in scope.now) others.now
        tally.old tally.new numbers.items) }
{
    let mut numbers = Vec::new(alloc);
    for name in others {
        let number = property_of(name, scope, tally);
        numbers.push(number)?;
    }
    Ok(numbers)
}

/// Resolves the names of an expression, and notes the rules that it breaks. What most statements and
/// lists hold, an assignment, a name or a number, is made without a box.
///
/// # Errors
///
/// `AllocError` where memory is refused.
#[inline(never)]
pub fn expression(
    e: &Expression<'_>,
    alloc: Global,
    scope: &Scope<'_>,
    tally: &mut Tally,
) -> Result<Value, AllocError>
    ensures { GivesValue (seen_in scope.now) result tally.old tally.new (expression_tree e.now) }
{
    match e {
        Expression::Constant(number) => Ok(Value::Number(*number)),
        Expression::Word(text) => Ok(Value::Number(scope.file.numbers.number(key_of_word(text)))),
        Expression::Named(name) => Ok(named_value(name, scope, tally)),
        Expression::Assign(left, at, right) => assign(left, right, alloc, scope, *at, tally),
        _ => {
            let Ok(found) = boxed_expression(e, alloc, scope, tally) else {
                return Err(AllocError);
            };
            Ok(Box::into_inner(found))
        }
    }
}

/// The same, in a box.
///
/// # Errors
///
/// `AllocError` where memory is refused.
#[cycle(expression)]
pub fn boxed_expression(
    e: &Expression<'_>,
    alloc: Global,
    scope: &Scope<'_>,
    tally: &mut Tally,
) -> Result<Box<Value>, AllocError>
    ensures { GivesBoxed (seen_in scope.now) result tally.old tally.new (expression_tree e.now) }
{
    match e {
        Expression::Constant(number) => constant(*number, alloc),
        Expression::Word(text) => word(text, alloc, scope),
        Expression::Named(name) => boxed_name(name, alloc, scope, tally),
        Expression::Call(name, given) => call(given, name, alloc, scope, tally),
        Expression::Index(name, width, inside) => index(inside, name, alloc, scope, *width, tally),
        Expression::Parenthesised(inside) => boxed_expression(inside, alloc, scope, tally),
        Expression::RelativeOf(which, object) => relative_of(object, alloc, scope, *which, tally),
        Expression::Property(object, name, others) => {
            properties(object, name, others, alloc, scope, tally)
        }
        Expression::PropertyLength(object, name) => length_of(object, name, alloc, scope, tally),
        Expression::PropertyEntry(object, name, index) => {
            property_entry(object, name, index, alloc, scope, tally)
        }
        Expression::Prefixed(prefix, operand) => prefixed(operand, alloc, scope, *prefix, tally),
        Expression::StepBefore(step, position, operand) => {
            step_before(operand, alloc, scope, *step, *position, tally)
        }
        Expression::StepAfter(operand, step, position) => {
            step_after(operand, alloc, scope, *step, *position, tally)
        }
        Expression::Chain(first, operator, second, links) => {
            chain(links, first, second, alloc, scope, *operator, tally)
        }
        Expression::Compare(left, comparison, right) => {
            compare(left, right, alloc, scope, *comparison, tally)
        }
        Expression::Equal(left, equality, right, others) => {
            equal(others, left, right, alloc, scope, *equality, tally)
        }
        Expression::Contained(left, containment, right) => {
            contained(left, right, alloc, scope, *containment, tally)
        }
        Expression::Tested(object, test, name) => tested(object, name, alloc, scope, *test, tally),
        Expression::Assign(left, at, right) => {
            boxed_assignment(left, right, alloc, scope, *at, tally)
        }
    }
}

#[cycle(expression)]
#[inline(never)]
fn all_expressions(
    given: &[Expression<'_>],
    alloc: Global,
    scope: &Scope<'_>,
    tally: &mut Tally,
) -> Result<Vec<Value>, AllocError>
    ensures { IfOk result (λ v. AreResolved (seen_in scope.now) given.now
        tally.old tally.new (map value_of v.items)) }
{
    let mut found = Vec::with_capacity(alloc, given.len())?;
    for e in given {
        let Ok(resolved) = boxed_expression(e, alloc, scope, tally) else {
            return Err(AllocError);
        };
        add(&mut found, resolved)?;
    }
    Ok(found)
}

// The operators and operands that follow in a chain.
#[cycle(expression)]
#[inline(never)]
fn chain_links(
    links: &[(Binary, Expression<'_>)],
    alloc: Global,
    scope: &Scope<'_>,
    tally: &mut Tally,
) -> Result<Vec<(Binary, Value)>, AllocError>
    ensures { IfOk result (λ v. AreLinks (seen_in scope.now) links.now
        tally.old tally.new (map value_link v.items)) }
{
    let mut found = Vec::with_capacity(alloc, links.len())?;
    for link in links {
        let Ok(operand) = boxed_expression(&link.1, alloc, scope, tally) else {
            return Err(AllocError);
        };
        add_link(&mut found, link.0, operand)?;
    }
    Ok(found)
}

// What is stepped, by an operator at this position.
#[cycle(expression)]
#[inline(never)]
fn variable(
    e: &Expression<'_>,
    alloc: Global,
    scope: &Scope<'_>,
    operator: Position,
    tally: &mut Tally,
) -> Result<Variable, AllocError>
    ensures { IfOk result (λ x. IsTarget (seen_in scope.now) operator (expression_tree e.now)
        tally.old tally.new x) }
{
    match name_of(e) {
        Some(name) => Ok(target_of(name, operator, scope.look(name.text), tally)),
        None => {
            drop(boxed_expression(e, alloc, scope, tally)?);
            note(tally, NOT_ASSIGNABLE, operator);
            Ok(Variable::Local(0))
        }
    }
}

#[cycle(expression)]
#[inline(never)]
fn call(
    given: &[Expression<'_>],
    name: &Name<'_>,
    alloc: Global,
    scope: &Scope<'_>,
    tally: &mut Tally,
) -> Result<Box<Value>, AllocError>
    ensures { GivesBoxed (seen_in scope.now) result tally.old tally.new
        (trees.call (name_tree name.now) (trees_of (map expression_tree given.now))) }
{
    let number = routine_of(name, given.len(), scope, tally);
    let Ok(given) = all_expressions(given, alloc, scope, tally) else {
        return Err(AllocError);
    };
    in_box(Value::Call(number, given), alloc)
}

#[cycle(expression)]
#[inline(never)]
fn index(
    operand: &Expression<'_>,
    name: &Name<'_>,
    alloc: Global,
    scope: &Scope<'_>,
    width: Width,
    tally: &mut Tally,
) -> Result<Box<Value>, AllocError>
    ensures { GivesBoxed (seen_in scope.now) result tally.old tally.new
        (trees.index (name_tree name.now) width (expression_tree operand.now)) }
{
    let number = array_of(name, scope, tally);
    let Ok(operand) = boxed_expression(operand, alloc, scope, tally) else {
        return Err(AllocError);
    };
    in_box(Value::Entry(width, number, operand), alloc)
}

#[cycle(expression)]
#[inline(never)]
fn relative_of(
    object: &Expression<'_>,
    alloc: Global,
    scope: &Scope<'_>,
    relative: Relative,
    tally: &mut Tally,
) -> Result<Box<Value>, AllocError>
    ensures { GivesBoxed (seen_in scope.now) result tally.old tally.new
        (trees.relative_of relative (expression_tree object.now)) }
{
    let Ok(object) = boxed_expression(object, alloc, scope, tally) else {
        return Err(AllocError);
    };
    in_box(Value::Relative(relative, object), alloc)
}

#[cycle(expression)]
#[inline(never)]
fn properties(
    object: &Expression<'_>,
    name: &Name<'_>,
    others: &[Name<'_>],
    alloc: Global,
    scope: &Scope<'_>,
    tally: &mut Tally,
) -> Result<Box<Value>, AllocError>
    ensures { GivesBoxed (seen_in scope.now) result tally.old tally.new
        (propertied (trees.property (expression_tree object.now) (name_tree name.now))
        others.now) }
{
    let Ok(object) = boxed_expression(object, alloc, scope, tally) else {
        return Err(AllocError);
    };
    let number = property_of(name, scope, tally);
    let Ok(others) = property_numbers(others, alloc, scope, tally) else {
        return Err(AllocError);
    };
    in_box(Value::Property(object, number, others), alloc)
}

#[cycle(expression)]
#[inline(never)]
fn length_of(
    object: &Expression<'_>,
    name: &Name<'_>,
    alloc: Global,
    scope: &Scope<'_>,
    tally: &mut Tally,
) -> Result<Box<Value>, AllocError>
    ensures { GivesBoxed (seen_in scope.now) result tally.old tally.new
        (trees.property_length (expression_tree object.now) (name_tree name.now)) }
{
    let Ok(object) = boxed_expression(object, alloc, scope, tally) else {
        return Err(AllocError);
    };
    let number = property_of(name, scope, tally);
    in_box(Value::PropertySize(object, number), alloc)
}

#[cycle(expression)]
#[inline(never)]
fn property_entry(
    object: &Expression<'_>,
    name: &Name<'_>,
    index: &Expression<'_>,
    alloc: Global,
    scope: &Scope<'_>,
    tally: &mut Tally,
) -> Result<Box<Value>, AllocError>
    ensures { GivesBoxed (seen_in scope.now) result tally.old tally.new
        (trees.property_entry (expression_tree object.now) (name_tree name.now)
        (expression_tree index.now)) }
{
    let Ok(object) = boxed_expression(object, alloc, scope, tally) else {
        return Err(AllocError);
    };
    let number = property_of(name, scope, tally);
    let Ok(index) = boxed_expression(index, alloc, scope, tally) else {
        return Err(AllocError);
    };
    in_box(Value::PropertyWord(object, number, index), alloc)
}

#[cycle(expression)]
#[inline(never)]
fn prefixed(
    operand: &Expression<'_>,
    alloc: Global,
    scope: &Scope<'_>,
    prefix: Prefix,
    tally: &mut Tally,
) -> Result<Box<Value>, AllocError>
    ensures { GivesBoxed (seen_in scope.now) result tally.old tally.new
        (trees.prefixed prefix (expression_tree operand.now)) }
{
    let Ok(operand) = boxed_expression(operand, alloc, scope, tally) else {
        return Err(AllocError);
    };
    in_box(Value::Prefixed(prefix, operand), alloc)
}

#[cycle(expression)]
#[inline(never)]
fn step_before(
    operand: &Expression<'_>,
    alloc: Global,
    scope: &Scope<'_>,
    step: Step,
    position: Position,
    tally: &mut Tally,
) -> Result<Box<Value>, AllocError>
    ensures { GivesBoxed (seen_in scope.now) result tally.old tally.new
        (trees.step_before step position (expression_tree operand.now)) }
{
    let Ok(variable) = variable(operand, alloc, scope, position, tally) else {
        return Err(AllocError);
    };
    in_box(Value::StepBefore(step, variable), alloc)
}

#[cycle(expression)]
#[inline(never)]
fn step_after(
    operand: &Expression<'_>,
    alloc: Global,
    scope: &Scope<'_>,
    step: Step,
    position: Position,
    tally: &mut Tally,
) -> Result<Box<Value>, AllocError>
    ensures { GivesBoxed (seen_in scope.now) result tally.old tally.new
        (trees.step_after (expression_tree operand.now) step position) }
{
    let Ok(variable) = variable(operand, alloc, scope, position, tally) else {
        return Err(AllocError);
    };
    in_box(Value::StepAfter(variable, step), alloc)
}

#[cycle(expression)]
#[inline(never)]
fn chain(
    links: &[(Binary, Expression<'_>)],
    first: &Expression<'_>,
    second: &Expression<'_>,
    alloc: Global,
    scope: &Scope<'_>,
    operator: Binary,
    tally: &mut Tally,
) -> Result<Box<Value>, AllocError>
    ensures { GivesBoxed (seen_in scope.now) result tally.old tally.new
        (chained
        (trees.binary operator (expression_tree first.now) (expression_tree second.now))
        (map link links.now)) }
{
    let Ok(first) = boxed_expression(first, alloc, scope, tally) else {
        return Err(AllocError);
    };
    let Ok(second) = boxed_expression(second, alloc, scope, tally) else {
        return Err(AllocError);
    };
    let Ok(links) = chain_links(links, alloc, scope, tally) else {
        return Err(AllocError);
    };
    in_box(Value::Chain(first, operator, second, links), alloc)
}

#[cycle(expression)]
#[inline(never)]
fn compare(
    left: &Expression<'_>,
    right: &Expression<'_>,
    alloc: Global,
    scope: &Scope<'_>,
    comparison: Comparison,
    tally: &mut Tally,
) -> Result<Box<Value>, AllocError>
    ensures { GivesBoxed (seen_in scope.now) result tally.old tally.new
        (trees.compare comparison (expression_tree left.now) (expression_tree right.now)) }
{
    let Ok(left) = boxed_expression(left, alloc, scope, tally) else {
        return Err(AllocError);
    };
    let Ok(right) = boxed_expression(right, alloc, scope, tally) else {
        return Err(AllocError);
    };
    in_box(Value::Compare(left, comparison, right), alloc)
}

#[cycle(expression)]
#[inline(never)]
fn equal(
    others: &[Expression<'_>],
    left: &Expression<'_>,
    right: &Expression<'_>,
    alloc: Global,
    scope: &Scope<'_>,
    equality: Equality,
    tally: &mut Tally,
) -> Result<Box<Value>, AllocError>
    ensures { GivesBoxed (seen_in scope.now) result tally.old tally.new
        (trees.equal equality (expression_tree left.now)
        (trees.more (expression_tree right.now) (trees_of (map expression_tree others.now)))) }
{
    let Ok(left) = boxed_expression(left, alloc, scope, tally) else {
        return Err(AllocError);
    };
    let Ok(right) = boxed_expression(right, alloc, scope, tally) else {
        return Err(AllocError);
    };
    let Ok(others) = all_expressions(others, alloc, scope, tally) else {
        return Err(AllocError);
    };
    in_box(Value::Equal(left, equality, right, others), alloc)
}

#[cycle(expression)]
#[inline(never)]
fn contained(
    left: &Expression<'_>,
    right: &Expression<'_>,
    alloc: Global,
    scope: &Scope<'_>,
    containment: Containment,
    tally: &mut Tally,
) -> Result<Box<Value>, AllocError>
    ensures { GivesBoxed (seen_in scope.now) result tally.old tally.new
        (trees.contained containment (expression_tree left.now) (expression_tree right.now)) }
{
    let Ok(left) = boxed_expression(left, alloc, scope, tally) else {
        return Err(AllocError);
    };
    let Ok(right) = boxed_expression(right, alloc, scope, tally) else {
        return Err(AllocError);
    };
    in_box(Value::Contained(left, containment, right), alloc)
}

#[cycle(expression)]
#[inline(never)]
fn tested(
    object: &Expression<'_>,
    name: &Name<'_>,
    alloc: Global,
    scope: &Scope<'_>,
    test: ObjectTest,
    tally: &mut Tally,
) -> Result<Box<Value>, AllocError>
    ensures { GivesBoxed (seen_in scope.now) result tally.old tally.new
        (trees.tested test (expression_tree object.now) (name_tree name.now)) }
{
    let Ok(object) = boxed_expression(object, alloc, scope, tally) else {
        return Err(AllocError);
    };
    let found = scope.look(name.text);
    in_box(tested_value(*name, object, test, found, tally), alloc)
}

// A name as the left side of an assignment, whose operator stands at this position.
fn left_name(name: Name<'_>, scope: &Scope<'_>, operator: Position, tally: &mut Tally) -> Value
    ensures { IsWalked
        (target_breaches name.entry.position operator (look_in scope.now name.entry.text.now))
        tally.old tally.new (value_of result)
        (value_of_binding (number_at scope.now.file.now.numbers)
        (look_in scope.now name.entry.text.now)) }
{
    let found = scope.look(name.text);
    target_of(name, operator, found, tally);
    named(&scope.file.numbers, found)
}

// The left side of an assignment, whose operator stands at this position.
#[cycle(expression)]
fn left_side(
    e: &Expression<'_>,
    alloc: Global,
    scope: &Scope<'_>,
    operator: Position,
    tally: &mut Tally,
) -> Result<Value, AllocError>
    ensures { IfOk result (λ v. IsAssigned (seen_in scope.now) operator (expression_tree e.now)
        tally.old tally.new (value_of v)) }
{
    match name_of(e) {
        Some(name) => Ok(left_name(name, scope, operator, tally)),
        None => {
            let left = boxed_expression(e, alloc, scope, tally)?;
            not_place(is_place(e), operator, tally);
            Ok(Box::into_inner(left))
        }
    }
}

#[cycle(expression)]
#[inline(never)]
fn assign(
    left: &Expression<'_>,
    right: &Expression<'_>,
    alloc: Global,
    scope: &Scope<'_>,
    position: Position,
    tally: &mut Tally,
) -> Result<Value, AllocError>
    ensures { GivesValue (seen_in scope.now) result tally.old tally.new
        (trees.assign (expression_tree left.now) position (expression_tree right.now)) }
{
    let Ok(left) = left_side(left, alloc, scope, position, tally) else {
        return Err(AllocError);
    };
    let Ok(right) = boxed_expression(right, alloc, scope, tally) else {
        drop(left);
        return Err(AllocError);
    };
    assignment(left, right, alloc)
}

// The same, in a box.
#[cycle(expression)]
#[inline(never)]
fn boxed_assignment(
    left: &Expression<'_>,
    right: &Expression<'_>,
    alloc: Global,
    scope: &Scope<'_>,
    position: Position,
    tally: &mut Tally,
) -> Result<Box<Value>, AllocError>
    ensures { GivesBoxed (seen_in scope.now) result tally.old tally.new
        (trees.assign (expression_tree left.now) position (expression_tree right.now)) }
{
    let Ok(value) = assign(left, right, alloc, scope, position, tally) else {
        return Err(AllocError);
    };
    in_box(value, alloc)
}
