//! Operands of items in instructions.

ghost use Rattle.std.specs.Prelude.{◌≡◌, ◌≤◌, ◌++◌, [], ◌∷◌, length, OnOk};
ghost use Rattle.code_drafts.specs.Code.{as_operand, as_operands, as_destination};
ghost use Rattle.code_drafts.specs.Instructions.{number_of};
ghost use Rattle.code_drafts.specs.Instructions as spec;
ghost use Rattle.code_drafts.specs.Bytes.{AddsCode};
ghost use Rattle.code_drafts.specs.Written.{named_when};
ghost use Rattle.meaning.specs.Limits.{most_arguments};

use crate::instruction::{ASIDE, FIRST, TOP, pull, put_all};
use crate::item::Destination;
use meaning::Variable;
use std::alloc::AllocError;
use zcore::Operand;

/// A number as an operand, in one byte where it fits.
pub fn constant(number: u16) -> Operand
    ensures { result ≡ spec.constant number }
{
    if number < 256 {
        Operand::Small(number as u8)
    } else {
        Operand::Large(number)
    }
}

/// The number of a variable in instructions: locals from 1 on, globals from 16 on (Z-Machine
/// Standards Document 1.1, section 4.2.2). A program that breaks no rule of the language has none
/// that a byte does not hold.
pub fn variable_number(variable: Variable) -> u8
    ensures { result ≡ number_of variable }
{
    match variable {
        Variable::Local(index) => ((1 + index % 256) % 256) as u8,
        Variable::Global(index) => ((16 + index % 256) % 256) as u8,
    }
}

/// An operand of an item alone, which is on the top of the stack where it is pushed.
pub fn in_place(operand: crate::item::Operand) -> Operand
    ensures { result ≡ spec.in_place (as_operand operand) }
{
    match operand {
        crate::item::Operand::Pushed => TOP,
        crate::item::Operand::Number(number) => constant(number),
        crate::item::Operand::Variable(variable) => Operand::Variable(variable_number(variable)),
    }
}

/// The variable for the result of an instruction, 0 where it is pushed; a word that is put aside or
/// goes nowhere goes to one of the compiler's.
pub fn result_in(destination: Destination) -> u8
    ensures { result ≡ spec.result_in (as_destination destination) }
{
    match destination {
        Destination::Push => 0,
        Destination::Into(variable) => variable_number(variable),
        Destination::Aside => ASIDE,
        Destination::Nowhere => FIRST,
    }
}

/// 1 for an operand that is pushed, and else 0.
fn pushed_one(operand: crate::item::Operand) -> u8
    ensures value { result ≡ spec.pushed_count (as_operand operand ∷ []) }
    ensures few { result ≤ 1 }
{
    match operand {
        crate::item::Operand::Pushed => 1,
        _ => 0,
    }
}

/// How many of some operands are pushed.
fn pushed_count(operands: &[crate::item::Operand]) -> u8
    requires { length operands.now ≤ most_arguments }
    ensures value { result ≡ spec.pushed_count (as_operands operands.now) }
    ensures few { result ≤ most_arguments }
{
    let mut count = 0;
    for operand in operands {
        count += pushed_one(*operand);
    }
    count
}

/// So many words go to the compiler's variables, the topmost to the last.
fn put_pulls(bytes: &mut Vec<u8>, count: u8) -> Result<(), AllocError>
    requires { count ≤ most_arguments }
    ensures { OnOk result (AddsCode bytes.old bytes.new (spec.take_words count)) }
{
    let mut left = count;
    while left > 0 {
        left -= 1;
        put_all(bytes, &[pull(FIRST + left)])?;
    }
    Ok(())
}

/// Of the operands that are pushed, all but the first go to the compiler's variables.
pub fn put_takes(bytes: &mut Vec<u8>, operands: &[crate::item::Operand]) -> Result<(), AllocError>
    requires { length operands.now ≤ most_arguments }
    ensures { OnOk result (AddsCode bytes.old bytes.new (spec.takes (as_operands operands.now))) }
{
    let count = pushed_count(operands);
    put_pulls(bytes, count.saturating_sub(1))
}

/// An operand of several, where so many before it are pushed.
fn named(operand: crate::item::Operand, pushed: u8) -> Operand
    requires { pushed ≤ most_arguments }
    ensures { result ∷ [] ≡ named_when pushed (as_operand operand ∷ []) }
{
    match operand {
        crate::item::Operand::Pushed => {
            if pushed == 0 {
                TOP
            } else {
                Operand::Variable(FIRST + pushed - 1)
            }
        }
        _ => in_place(operand),
    }
}

/// The second of two operands, whose first is named in place.
pub fn name_second(first: crate::item::Operand, second: crate::item::Operand) -> Operand
    ensures { spec.in_place (as_operand first) ∷ result ∷ []
        ≡ spec.operands (as_operand first ∷ as_operand second ∷ []) }
{
    named(second, pushed_one(first))
}

/// Operands are named in an instruction whose pushed ones, but the first, were taken.
pub fn put_named(
    named_before: &mut Vec<Operand>,
    operands: &[crate::item::Operand],
) -> Result<(), AllocError>
    requires { length operands.now ≤ most_arguments }
    ensures { OnOk result (named_before.new.items
        ≡ named_before.old.items ++ spec.operands (as_operands operands.now)) }
{
    let mut pushed = 0;
    for operand in operands {
        named_before.push(named(*operand, pushed))?;
        pushed += pushed_one(*operand);
    }
    Ok(())
}
