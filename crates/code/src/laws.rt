//! Laws of code. Each function carries a law as its contract, and calls those of the laws that it
//! stands on.

ghost use Rattle.code.specs.Laws.{CodePlays};

use code_items::{items_are_within, items_follow};

/// A story that holds an accepted program plays it: where the routines of a program whose texts are
/// printable, the texts of faults, the code that begins the story, the globals, the arrays and the
/// dictionary stand in a story as `HoldsProgram` says, the turns of the machine on that story, with
/// any fuel for each turn and on any lines, print the texts that the program means, and end where
/// it ends, which is no machine fault.
pub fn code_plays()
    ensures { CodePlays }
{
    items_follow();
    items_are_within();
}
