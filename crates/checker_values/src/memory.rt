//! Boxes of values. What is here knows nothing of their types, so its proof has no part of a tree in
//! it.

ghost use Rattle.std.specs.Prelude.{◌≡◌, IfOk};

use std::alloc::{AllocError, Global};

/// The value in a box.
///
/// # Errors
///
/// `AllocError` where memory is refused. The value is dropped.
#[inline(never)]
pub fn in_box<T: Drop>(value: T, alloc: Global) -> Result<Box<T>, AllocError>
    ensures { IfOk result (λ x. x.value ≡ value) }
{
    Ok(Box::new(alloc, value)?)
}
