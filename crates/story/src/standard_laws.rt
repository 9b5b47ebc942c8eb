//! A law of compiled stories. The function does nothing: it carries the law as its contract.

ghost use Rattle.story.specs.Played.{StoriesPlayByStandard};

use crate::laws::{code_is_short, stories_hold};
use checker::{accepted_programs, printable_programs};
use code::code_plays;
use syntax::printable_trees;
use zcore_versions::late_versions_are_standard;

/// The file of a compiled story is read by the Standard's player, and on all lines of ASCII the
/// Standard's machine prints what the source means, and ends where that ends.
pub fn stories_play_by_standard()
    ensures { StoriesPlayByStandard }
{
    accepted_programs();
    printable_programs();
    printable_trees();
    code_is_short();
    stories_hold();
    code_plays();
    late_versions_are_standard();
}
