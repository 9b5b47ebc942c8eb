//! How many items expressions have: these are written, as for the story, and counted.

use code::discard;
use code_drafts::{Draft, Operand, Wanted, item_count};
use code_items::{put_operand, put_value};
use meaning::Value;
use std::alloc::{AllocError, Global};

/// How many items an expression has of which something is wanted.
pub fn value_count(alloc: Global, value: &Value, wanted: Wanted) -> Result<usize, AllocError> {
    let items = Vec::new(alloc);
    let mut draft = Draft { alloc, items };
    let put = put_value(&mut draft, value, wanted);
    let count = item_count(&draft);
    discard(draft.items);
    put?;
    Ok(count)
}

/// How many items push an operand, if it is pushed.
pub fn operand_count(alloc: Global, value: &Value, operand: Operand) -> Result<usize, AllocError> {
    let items = Vec::new(alloc);
    let mut draft = Draft { alloc, items };
    let put = put_operand(&mut draft, value, operand);
    let count = item_count(&draft);
    discard(draft.items);
    put?;
    Ok(count)
}
