//! Routines as items.

ghost use Rattle.std.specs.Prelude.{◌≡◌, IfOk};
ghost use Rattle.meaning.specs.Views.{routine_of};
ghost use Rattle.code_items.specs.Statements as statements;
ghost use Rattle.code_drafts.specs.Code.{items_of};

use crate::exits::Exits;
use crate::statement::put_statements;
use code_drafts::{Draft, Item, Operand, into_items, item_count, put};
use meaning::CheckedRoutine;
use std::alloc::{AllocError, Global};

/// The items of a routine: those of its statements, and then it returns true.
///
/// # Errors
///
/// `AllocError` where memory is refused.
pub fn routine_items<'a>(
    alloc: Global,
    routine: &CheckedRoutine<'a>,
) -> Result<Vec<Item<'a>>, AllocError>
    ensures { IfOk result (λ code. items_of code.items
        ≡ statements.routine_items (routine_of routine.now)) }
{
    let items = Vec::new(alloc);
    let mut draft = Draft { alloc, items };
    let Ok(()) = put(&mut draft, Item::Return(Operand::Number(1))) else {
        return Err(AllocError);
    };
    let end = item_count(&draft);
    let outside = Exits {
        breaks: end,
        continues: end,
    };
    let Ok(()) = put_statements(&mut draft, outside, &routine.body) else {
        return Err(AllocError);
    };
    Ok(into_items(draft))
}
