//! Which operands stand in place.

ghost use Rattle.std.specs.Prelude.{◌≡◌, ◌&&◌, ◌||◌, true, false, map, nat_lt, OnOk};
ghost use Rattle.meaning.specs.Resolved.{none, more};
ghost use Rattle.meaning.specs.Views.{value_of};
ghost use Rattle.meaning.specs.Accepted.{count_of};
ghost use Rattle.meaning.specs.Meaning.{with_prefix};
ghost use Rattle.code_drafts.specs.Items as items;
ghost use Rattle.code_drafts.specs.Code.{as_operand, as_operands};
ghost use Rattle.code_drafts.specs.Writing.{change_links, last_operator, link_of, values_in, more_in};
ghost use Rattle.code_drafts.specs.Writing.{left_side, right_side, AddsOperands, AddsAlone};

use crate::item::Operand;
use crate::parts::is_logical;
use meaning::{Value, Variable};
use std::alloc::AllocError;
use syntax_trees::{Binary, Prefix};

fn is_same(left: Variable, right: Variable) -> bool
    ensures { result ≡ items.is_same left right }
{
    match (left, right) {
        (Variable::Local(left), Variable::Local(right)) => left == right,
        (Variable::Global(left), Variable::Global(right)) => left == right,
        _ => false,
    }
}

fn is_global(variable: Variable) -> bool
    ensures { result ≡ items.is_global variable }
{
    match variable {
        Variable::Local(_) => false,
        Variable::Global(_) => true,
    }
}

fn any_of(first: bool, second: bool, after: bool) -> bool
    ensures { result ≡ ((first || second) || after) }
{
    first || second || after
}

/// Whether the evaluation of an expression may change a variable.
#[cycle(changes)]
fn changes(variable: Variable, value: &Value) -> bool
    ensures { result ≡ items.changes variable (value_of value.now) }
{
    match value {
        Value::Number(_) | Value::Read(_) => false,
        Value::Call(_, arguments) => is_global(variable) || change(variable, arguments),
        Value::Prefixed(_, operand) => changes(variable, operand),
        Value::StepBefore(_, stepped) => is_same(variable, *stepped),
        Value::StepAfter(stepped, _) => is_same(variable, *stepped),
        Value::Chain(first, _, second, links) => {
            let first = changes(variable, first);
            let second = changes(variable, second);
            let after = links_change(variable, links);
            any_of(first, second, after)
        }
        Value::Compare(left, _, right) => changes(variable, left) || changes(variable, right),
        Value::Equal(left, _, right, others) => {
            changes(variable, left) || changes(variable, right) || change(variable, others)
        }
        Value::Assign(assigned, value) => {
            is_same(variable, *assigned) || changes(variable, value)
        }
        Value::Entry(_, _, index) => changes(variable, index),
        Value::AssignEntry(_, _, index, value) => {
            changes(variable, index) || changes(variable, value)
        }
        Value::Relative(_, object) => changes(variable, object),
        Value::Contained(left, _, right) => changes(variable, left) || changes(variable, right),
        Value::Has(_, object, _) => changes(variable, object),
        Value::Provides(object, _) => changes(variable, object),
        Value::Property(object, _, _) => changes(variable, object),
        Value::PropertySize(object, _) => changes(variable, object),
        Value::PropertyWord(object, _, index) => {
            changes(variable, object) || changes(variable, index)
        }
        Value::AssignProperty(object, _, value) => {
            changes(variable, object) || changes(variable, value)
        }
        Value::AssignPropertyWord(object, _, index, value) => {
            changes(variable, object) || changes(variable, index) || changes(variable, value)
        }
    }
}

/// Whether the evaluation of one of several may.
#[cycle(changes)]
fn change(variable: Variable, values: &[Value]) -> bool
    ensures { result ≡ items.change variable (values_in values.now) }
{
    for value in values {
        if changes(variable, value) {
            return true;
        }
    }
    false
}

#[cycle(changes)]
fn links_change(variable: Variable, links: &[(Binary, Value)]) -> bool
    ensures { result ≡ change_links variable (map link_of links.now) }
{
    for (_, operand) in links {
        if changes(variable, operand) {
            return true;
        }
    }
    false
}

/// The number that an operator before a number makes of it.
fn with_prefix(prefix: Prefix, number: u16) -> u16
    ensures { result ≡ with_prefix prefix number }
{
    match prefix {
        Prefix::Minus => ((65536 - number as u32) % 65536) as u16,
        Prefix::Complement => 65535 - number,
        Prefix::Not => { if number == 0 { 1 } else { 0 } }
    }
}

/// The operand for an operator before an operand: before a number it makes another number.
fn prefix_operand(prefix: Prefix, operand: Operand) -> Operand
    ensures { as_operand result ≡ items.prefix_operand prefix (as_operand operand) }
{
    match operand {
        Operand::Number(number) => Operand::Number(with_prefix(prefix, number)),
        Operand::Pushed | Operand::Variable(_) => Operand::Pushed,
    }
}

/// The operand for an expression after which none is evaluated.
pub fn alone(value: &Value) -> Operand
    ensures { as_operand result ≡ items.alone (value_of value.now) }
{
    match value {
        Value::Number(number) => Operand::Number(*number),
        Value::Read(variable) => Operand::Variable(*variable),
        Value::Chain(..) => Operand::Pushed,
        Value::Property(..) => Operand::Pushed,
        Value::Prefixed(prefix, operand) => prefix_operand(*prefix, alone(operand)),
        Value::Call(..)
        | Value::StepBefore(..)
        | Value::StepAfter(..)
        | Value::Compare(..)
        | Value::Equal(..)
        | Value::Assign(..)
        | Value::Entry(..)
        | Value::AssignEntry(..)
        | Value::Relative(..)
        | Value::Contained(..)
        | Value::Has(..)
        | Value::Provides(..)
        | Value::PropertySize(..)
        | Value::PropertyWord(..)
        | Value::AssignProperty(..)
        | Value::AssignPropertyWord(..) => Operand::Pushed,
    }
}

/// The operand for an expression that is evaluated before others. A variable stands in place if
/// those do not change it.
#[tactic(auto, using(crate::proofs::SideOperands::before_pushed, crate::proofs::SideOperands::before_number, crate::proofs::SideOperands::before_changed, crate::proofs::SideOperands::before_kept))]
pub fn before(value: &Value, later: &[Value]) -> Operand
    ensures { as_operand result ≡ items.operand_of (value_of value.now) (values_in later.now) }
{
    match alone(value) {
        Operand::Pushed => Operand::Pushed,
        Operand::Number(number) => Operand::Number(number),
        Operand::Variable(variable) => {
            if change(variable, later) {
                Operand::Pushed
            } else {
                Operand::Variable(variable)
            }
        }
    }
}

/// Whether the evaluation of an expression, or of one of several after it, may change a variable.
fn next_changes(variable: Variable, next: &Value, later: &[Value]) -> bool
    ensures { result ≡ items.change variable (more_in next.now later.now) }
{
    changes(variable, next) || change(variable, later)
}

/// Whether the evaluation of one of two may.
fn either_changes(variable: Variable, first: &Value, second: &Value) -> bool
    ensures { result ≡ items.change variable
        (more (value_of first.now) (more (value_of second.now) none)) }
{
    changes(variable, first) || changes(variable, second)
}

/// The operand for an expression that is evaluated before another and then others.
#[tactic(auto, using(crate::proofs::SideOperands::before_pushed, crate::proofs::SideOperands::before_number, crate::proofs::SideOperands::before_changed, crate::proofs::SideOperands::before_kept))]
fn before_more(value: &Value, next: &Value, later: &[Value]) -> Operand
    ensures { as_operand result
        ≡ items.operand_of (value_of value.now) (more_in next.now later.now) }
{
    match alone(value) {
        Operand::Pushed => Operand::Pushed,
        Operand::Number(number) => Operand::Number(number),
        Operand::Variable(variable) => {
            if next_changes(variable, next, later) {
                Operand::Pushed
            } else {
                Operand::Variable(variable)
            }
        }
    }
}

/// The operand for the left one of two expressions.
pub fn left_of(left: &Value, right: &Value) -> Operand
    ensures { as_operand result ≡ items.left_of (value_of left.now) (value_of right.now) }
{
    before_more(left, right, &[])
}

/// The operand for the first one of three expressions.
#[tactic(auto, using(crate::proofs::SideOperands::before_pushed, crate::proofs::SideOperands::before_number, crate::proofs::SideOperands::before_changed, crate::proofs::SideOperands::before_kept))]
pub fn first_of(first: &Value, second: &Value, third: &Value) -> Operand
    ensures { as_operand result
        ≡ items.first_of (value_of first.now) (value_of second.now) (value_of third.now) }
{
    match alone(first) {
        Operand::Pushed => Operand::Pushed,
        Operand::Number(number) => Operand::Number(number),
        Operand::Variable(variable) => {
            if either_changes(variable, second, third) {
                Operand::Pushed
            } else {
                Operand::Variable(variable)
            }
        }
    }
}

/// With how many words one instruction compares another.
pub const MOST_COMPARED: usize = 3;

/// The operands for the left side of `==` or `~=` and for its first right side. Where there are too
/// many right sides for one instruction, and not all stand in place, each is compared by itself, on
/// the stack.
#[tactic(auto, using(crate::proofs::InPlace::left_few, crate::proofs::InPlace::right_few, crate::proofs::InPlace::left_placed, crate::proofs::InPlace::right_placed, crate::proofs::InPlace::left_each, crate::proofs::InPlace::right_each))]
pub fn side_operands(left: &Value, right: &Value, others: &[Value]) -> (Operand, Operand)
    ensures left { as_operand result.0 ≡ left_side left.now right.now others.now }
    ensures right { as_operand result.1 ≡ right_side left.now right.now others.now }
{
    if are_few(others) {
        return (before_more(left, right, others), before(right, others));
    }
    if !stand_in_place(left, right, others) {
        return (Operand::Pushed, Operand::Pushed);
    }
    (alone(left), alone(right))
}

/// Whether the left side of `==` or `~=` and all right sides stand in place.
fn stand_in_place(left: &Value, right: &Value, others: &[Value]) -> bool
    ensures { result ≡ (items.is_in_place (value_of left.now)
        && items.all_in_place (more_in right.now others.now)) }
{
    is_in_place(left) && is_in_place(right) && all_in_place(others)
}

/// Whether an expression stands in place, where none is evaluated after it.
fn is_in_place(value: &Value) -> bool
    ensures { result ≡ items.is_in_place (value_of value.now) }
{
    !is_pushed(alone(value))
}

/// Whether an operand is pushed.
pub fn is_pushed(operand: Operand) -> bool
    ensures { result ≡ items.if_pushed (as_operand operand) true false }
{
    match operand {
        Operand::Pushed => true,
        Operand::Number(_) | Operand::Variable(_) => false,
    }
}

/// Whether one of some operands is pushed.
pub fn is_any_pushed(operands: &[Operand]) -> bool
    ensures { result ≡ items.is_any_pushed (as_operands operands.now) }
{
    for operand in operands {
        if is_pushed(*operand) {
            return true;
        }
    }
    false
}

/// Whether more than one is.
pub fn are_more_pushed(operands: &[Operand]) -> bool
    ensures { result ≡ items.are_more_pushed (as_operands operands.now) }
{
    for number in 0..operands.len() {
        if is_pushed(operands[number]) {
            return is_any_pushed(&operands[number + 1..]);
        }
    }
    false
}

fn all_in_place(values: &[Value]) -> bool
    ensures { result ≡ items.all_in_place (values_in values.now) }
{
    for value in values {
        if !is_in_place(value) {
            return false;
        }
    }
    true
}

/// Whether one instruction compares with the first right side and these others.
#[tactic(auto, using(crate::proofs::Trees::few_counted))]
pub fn are_few(others: &[Value]) -> bool
    ensures { result ≡ nat_lt (count_of (values_in others.now)) 3 }
{
    others.len() < MOST_COMPARED
}

/// Whether a condition is decided by one test of words, its last item.
pub fn is_one_test(value: &Value) -> bool
    ensures { result ≡ items.is_one_test (value_of value.now) }
{
    match value {
        Value::Prefixed(Prefix::Not, operand) => is_one_test(operand),
        Value::Chain(_, operator, _, links) => !is_logical(last_operator(*operator, links)),
        Value::Equal(_, _, _, others) => are_few(others),
        Value::Property(..) => true,
        Value::Number(..) | Value::Contained(..) | Value::Has(..) | Value::Provides(..) => false,
        Value::Read(..)
        | Value::Call(..)
        | Value::Prefixed(..)
        | Value::StepBefore(..)
        | Value::StepAfter(..)
        | Value::Compare(..)
        | Value::Assign(..)
        | Value::Entry(..)
        | Value::AssignEntry(..)
        | Value::Relative(..)
        | Value::PropertySize(..)
        | Value::PropertyWord(..)
        | Value::AssignProperty(..)
        | Value::AssignPropertyWord(..) => true,
    }
}

/// The operator of a chain that is done last.
fn last_operator(operator: Binary, links: &[(Binary, Value)]) -> Binary
    ensures { result ≡ last_operator operator (map link_of links.now) }
{
    match links.last() {
        None => operator,
        Some(link) => link.0,
    }
}

/// Operands for expressions that are evaluated one after another, after other operands.
pub fn push_operands(operands: &mut Vec<Operand>, values: &[Value]) -> Result<(), AllocError>
    ensures { OnOk result (AddsOperands operands.old.items operands.new.items values.now) }
{
    for number in 0..values.len() {
        operands.push(before(&values[number], &values[number + 1..]))?;
    }
    Ok(())
}

/// Operands for expressions that stand in place, after other operands.
#[tactic(auto, using(crate::proofs::InPlace::alone_next, crate::proofs::InPlace::alones_end))]
pub fn push_alone(operands: &mut Vec<Operand>, values: &[Value]) -> Result<(), AllocError>
    ensures { OnOk result (AddsAlone operands.old.items operands.new.items values.now) }
{
    for number in 0..values.len() {
        operands.push(alone(&values[number]))?;
    }
    Ok(())
}
