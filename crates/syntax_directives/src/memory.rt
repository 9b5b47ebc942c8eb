//! Rows of values. What is here knows nothing of their types, so its proof has no part of a tree in
//! it.

ghost use Rattle.std.specs.Prelude.{◌≡◌, IfErr, IfOk, [], ◌∷◌, ◌++◌};

use syntax_trees::{ParseError, Parsed};

/// The value at the end of the row.
///
/// # Errors
///
/// `Memory`: a growth is refused. The row stays as it was, and the value is dropped.
pub fn push<T: Drop>(row: &mut Vec<T>, next: T) -> Parsed<()>
    ensures ok { IfOk result (λ _. row.new.items ≡ row.old.items ++ next ∷ []) }
    ensures err { IfErr result (λ e. e ≡ ParseError.Memory) }
    ensures stays { IfErr result (λ _. row.new.items ≡ row.old.items) }
{
    row.push(next)?;
    Ok(())
}

/// The row without the room in which it grew, so one of some dozens takes no more than what is in
/// it.
pub fn as_kept<T>(row: Vec<T>) -> Vec<T>
    ensures { result.items ≡ row.items }
{
    let mut found = row;
    found.shrink_to_fit();
    found
}
