//! Laws of items. The functions do nothing: each carries a law as its contract.

ghost use Rattle.code_items.specs.Laws.{ItemsAreWithin, ItemsFollow};

/// The items of an accepted program do what the program means: with any fuel for each turn and on
/// any lines, the machine of items, from the call of `Main` on, comes to the texts and the end that
/// the meaning tells.
pub fn items_follow()
    ensures { ItemsFollow }
{}

/// What the items of a routine of an accepted program name is there: variables, routines that are
/// called with no more arguments than they take, and the items that jumps lead to. Each test has as
/// many operands as it takes; `~~`, `&&` and `||` are branches.
pub fn items_are_within()
    ensures { ItemsAreWithin }
{}
