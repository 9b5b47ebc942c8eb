//! Boxes of values, and room for them in rows. What is here knows nothing of their types, so its
//! proof has no part of a tree in it.
//!
//! # Errors
//!
//! `Memory`: a growth is refused. The value is dropped.

ghost use Rattle.std.specs.Prelude.{◌≡◌, ◌<◌, IfErr, IfOk, [], ◌∷◌, ◌++◌, vec_capacity, vec_len};

use crate::error::{ParseError, Parsed};
use std::alloc::Global;

/// The value in a box.
pub fn in_box<T: Drop>(alloc: Global, value: T) -> Parsed<Box<T>>
    ensures ok { IfOk result (λ x. x.value ≡ value) }
    ensures err { IfErr result (λ e. e ≡ ParseError.Memory) }
{
    match Box::new(alloc, value) {
        Ok(value) => Ok(value),
        Err(refused) => Err(ParseError::from(refused)),
    }
}

/// Room for one more value in a row. Most rows are of one: such a row has no more room than that
/// takes, and a first `push` would ask for several places.
///
/// The value is made after this, in its place: a value that is there before is copied on its way.
pub fn make_room<T>(row: &mut Vec<T>) -> Parsed<()>
    ensures items { row.new.items ≡ row.old.items }
    ensures ok { IfOk result (λ _. vec_len row.new < vec_capacity row.new) }
    ensures err { IfErr result (λ e. e ≡ ParseError.Memory) }
{
    if row.is_empty() {
        row.reserve_exact(1)?;
    }
    row.reserve(1)?;
    Ok(())
}

/// The value at the end of a row.
pub fn push<T: Drop>(row: &mut Vec<T>, value: T) -> Parsed<()>
    ensures ok { IfOk result (λ _. row.new.items ≡ row.old.items ++ value ∷ []) }
    ensures stays { IfErr result (λ _. row.new.items ≡ row.old.items) }
    ensures err { IfErr result (λ e. e ≡ ParseError.Memory) }
{
    match make_room(row) {
        Ok(()) => {
            row.push_reserved(value);
            Ok(())
        }
        Err(e) => {
            drop(value);
            Err(e)
        }
    }
}

/// The value in the box at the end of a row.
pub fn push_boxed<T: Drop>(row: &mut Vec<T>, next: Box<T>) -> Parsed<()>
    ensures ok { IfOk result (λ _. row.new.items ≡ row.old.items ++ next.value ∷ []) }
    ensures stays { IfErr result (λ _. row.new.items ≡ row.old.items) }
    ensures err { IfErr result (λ e. e ≡ ParseError.Memory) }
{
    match make_room(row) {
        Ok(()) => {
            row.push_reserved(Box::into_inner(next));
            Ok(())
        }
        Err(e) => {
            drop(next);
            Err(e)
        }
    }
}
