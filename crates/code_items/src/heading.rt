//! The parts of a `for`.

ghost use Rattle.std.specs.Prelude.{◌-◌, OnOk};
ghost use Rattle.std.specs.Option.{option_map};
ghost use Rattle.meaning.specs.Views.{boxed_value};
ghost use Rattle.code_items.specs.Statements.{once_items, test_items};
ghost use Rattle.code_drafts.specs.Writing.{Writes};

use crate::value::put_value;
use code_drafts::{Destination, Draft, Wanted};
use meaning::Value;
use std::alloc::AllocError;

/// A part whose word goes nowhere, if it is there.
pub fn put_once(draft: &mut Draft<'_>, part: &Option<Box<Value>>) -> Result<(), AllocError>
    ensures { OnOk result (Writes draft.old draft.new
        (λ n at. once_items at (option_map boxed_value part.now))) }
{
    match part {
        None => Ok(()),
        Some(value) => put_value(draft, value, Wanted::Word(Destination::Nowhere)),
    }
}

/// The test, if it is there: where it does not hold it leads to where so many items are left.
pub fn put_test(
    draft: &mut Draft<'_>,
    test: &Option<Box<Value>>,
    end: usize,
) -> Result<(), AllocError>
    ensures { OnOk result (Writes draft.old draft.new
        (λ n at. test_items at (option_map boxed_value test.now) (n - end))) }
{
    match test {
        None => Ok(()),
        Some(value) => put_value(draft, value, Wanted::Branch(false, end)),
    }
}
