//! Names: the rules that they can break by what they are used for, and what they resolve to.

ghost use Rattle.std.specs.Prelude.{◌≡◌, ◌++◌, if◌then◌else◌};
ghost use Rattle.meaning.specs.Views.{value_of};
ghost use Rattle.checker_values.specs.Breaches.{at};
ghost use Rattle.checker_values.specs.Noted.{noted};
ghost use Rattle.checker_values.specs.Scope.{number_at};
ghost use Rattle.checker_values.specs.Expressions.{value_breaches, argument_breaches, call_breaches};
ghost use Rattle.checker_values.specs.Expressions.{array_name_breaches, attribute_breaches};
ghost use Rattle.checker_values.specs.Expressions.{property_breaches, target_breaches};
ghost use Rattle.checker_values.specs.Expressions.{value_of_binding, variable_of_binding};
ghost use Rattle.checker_values.specs.Expressions.{routine_of_binding, array_of_binding};
ghost use Rattle.checker_values.specs.Expressions.{attribute_of_binding, property_of_binding};
ghost use Rattle.syntax_lexer.specs.FaultNumbers.{not_assignable, wrong_kind};

use crate::binding::Binding;
use crate::names::or_zero;
use crate::noting::{Tally, note};
use crate::numbers::Numbers;
use meaning::limits::MOST_ARGUMENTS;
use meaning::{Value, Variable};
use syntax_lexer::{
    NOT_ASSIGNABLE, Position, TOO_MANY, TOO_MANY_ARGUMENTS, UNKNOWN_NAME, WRONG_KIND,
};
use syntax_trees::Name;

/// What a name is as a value; any number will do where it is none.
pub fn named(numbers: &Numbers, found: Option<Binding>) -> Value
    ensures { value_of result ≡ value_of_binding (number_at numbers.now) found }
{
    match found {
        Some(Binding::Constant(known)) => Value::Number(numbers.value(or_zero(known))),
        Some(Binding::Global(number)) => Value::Read(Variable::Global(number)),
        Some(Binding::Object(number)) => Value::Number((number % 65_536) as u16),
        Some(Binding::Local(number)) => Value::Read(Variable::Local(number)),
        _ => Value::Number(0),
    }
}

#[tactic(auto, using(crate::proofs::Noted::noted_none))]
fn value_rules(position: Position, found: Option<Binding>, tally: &mut Tally)
    ensures { tally.new ≡ noted tally.old (value_breaches position found) }
{
    match found {
        None => note(tally, UNKNOWN_NAME, position),
        Some(Binding::Constant(_)) => {}
        Some(Binding::Global(_)) => {}
        Some(Binding::Object(_)) => {}
        Some(Binding::Local(_)) => {}
        Some(_) => note(tally, WRONG_KIND, position),
    }
}

/// A name as a value.
pub fn value(name: Name<'_>, numbers: &Numbers, found: Option<Binding>, tally: &mut Tally) -> Value
    ensures value { value_of result ≡ value_of_binding (number_at numbers.now) found }
    ensures breaches { tally.new ≡ noted tally.old (value_breaches name.entry.position found) }
{
    value_rules(name.position, found, tally);
    named(numbers, found)
}

#[tactic(auto, using(crate::proofs::Noted::noted_none, crate::proofs::Noted::noted_append))]
fn arguments(position: Position, given: usize, locals: usize, tally: &mut Tally)
    ensures { tally.new ≡ noted tally.old (argument_breaches position given locals) }
{
    if given > MOST_ARGUMENTS {
        note(tally, TOO_MANY, position);
    }
    if given > locals {
        note(tally, TOO_MANY_ARGUMENTS, position);
    }
}

// A name of another kind than is asked for; any number will do for it.
#[tactic(auto, using(crate::proofs::Noted::noted_none))]
fn wrong_kind(position: Position, tally: &mut Tally) -> usize
    ensures value { result ≡ 0 }
    ensures breaches { tally.new ≡ noted tally.old (at position wrong_kind) }
{
    note(tally, WRONG_KIND, position);
    0
}

/// A name that is called with so many arguments.
#[tactic(auto, using(crate::proofs::Noted::noted_none))]
pub fn routine(name: Name<'_>, given: usize, found: Option<Binding>, tally: &mut Tally) -> usize
    ensures value { result ≡ routine_of_binding found }
    ensures breaches { tally.new ≡ noted tally.old (call_breaches name.entry.position given found) }
{
    match found {
        None => {
            note(tally, UNKNOWN_NAME, name.position);
            0
        }
        Some(Binding::Routine(number, locals)) => {
            arguments(name.position, given, locals, tally);
            number
        }
        Some(_) => wrong_kind(name.position, tally),
    }
}

/// A name before `->` or `-->`.
#[tactic(auto, using(crate::proofs::Noted::noted_none))]
pub fn array(name: Name<'_>, found: Option<Binding>, tally: &mut Tally) -> usize
    ensures value { result ≡ array_of_binding found }
    ensures breaches { tally.new ≡ noted tally.old (array_name_breaches name.entry.position found) }
{
    match found {
        None => {
            note(tally, UNKNOWN_NAME, name.position);
            0
        }
        Some(Binding::Array(number, _)) => number,
        Some(_) => wrong_kind(name.position, tally),
    }
}

#[tactic(auto, using(crate::proofs::Noted::noted_append))]
fn no_target(position: Position, operator: Position, tally: &mut Tally)
    ensures { tally.new ≡ noted tally.old (at position wrong_kind ++ at operator not_assignable) }
{
    note(tally, WRONG_KIND, position);
    note(tally, NOT_ASSIGNABLE, operator);
}

/// A name that is assigned to or stepped.
#[tactic(auto, using(crate::proofs::Noted::noted_none, crate::proofs::Noted::noted_append))]
pub fn target_of(
    name: Name<'_>,
    operator: Position,
    found: Option<Binding>,
    tally: &mut Tally,
) -> Variable
    ensures value { result ≡ variable_of_binding found }
    ensures breaches { tally.new ≡ noted tally.old
        (target_breaches name.entry.position operator found) }
{
    match found {
        None => note(tally, UNKNOWN_NAME, name.position),
        Some(Binding::Global(number)) => return Variable::Global(number),
        Some(Binding::Local(number)) => return Variable::Local(number),
        Some(Binding::Constant(_)) => note(tally, NOT_ASSIGNABLE, operator),
        Some(Binding::Object(_)) => note(tally, NOT_ASSIGNABLE, operator),
        Some(_) => no_target(name.position, operator, tally),
    }
    Variable::Local(0)
}

/// A name after `has` or `hasnt`, or in a `give`.
#[tactic(auto, using(crate::proofs::Noted::noted_none))]
pub fn attribute(name: Name<'_>, found: Option<Binding>, tally: &mut Tally) -> usize
    ensures value { result ≡ attribute_of_binding found }
    ensures breaches { tally.new ≡ noted tally.old (attribute_breaches name.entry.position found) }
{
    match found {
        None => {
            note(tally, UNKNOWN_NAME, name.position);
            0
        }
        Some(Binding::Attribute(number)) => number,
        Some(_) => wrong_kind(name.position, tally),
    }
}

/// A name after `.`, `.#`, `.&` or `provides`.
#[tactic(auto, using(crate::proofs::Noted::noted_none))]
pub fn property(name: Name<'_>, found: Option<Binding>, tally: &mut Tally) -> usize
    ensures value { result ≡ property_of_binding found }
    ensures breaches { tally.new ≡ noted tally.old (property_breaches name.entry.position found) }
{
    match found {
        None => {
            note(tally, UNKNOWN_NAME, name.position);
            0
        }
        Some(Binding::Property(number)) => number,
        Some(_) => wrong_kind(name.position, tally),
    }
}
