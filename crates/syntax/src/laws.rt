//! Laws of programs. The functions do nothing: each carries a law as its contract.

ghost use Rattle.syntax.specs.Laws.{PrintableTrees, WeighedRoutines};

/// Where each byte of the texts among the tokens is a character that prints, 32 to 126, so is each
/// byte of the texts of the program that the tokens are.
pub fn printable_trees()
    ensures { PrintableTrees }
{}

/// A routine weighs 32 for each of its brackets, its name, its two semicolons and its locals, and
/// beside that what its statements weigh, and 32 for each `-` before a value of a range and each
/// `~` before an attribute of `give`.
pub fn weighed_routines()
    ensures { WeighedRoutines }
{}
