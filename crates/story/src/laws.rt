//! Laws of stories. The functions do nothing: each carries a law as its contract.

ghost use Rattle.syntax_lexer.specs.Printable.{PrintableTokens};
ghost use Rattle.syntax.specs.Laws.{PrintableTrees};
ghost use Rattle.checker.specs.Laws.{AcceptedPrograms, PrintablePrograms};
ghost use Rattle.code.specs.Laws.{CodePlays};
ghost use Rattle.story.specs.CodeSizes.{CodeIsShort, SmallSourcesHaveSmallCode};
ghost use Rattle.story.specs.Laws.{LightStoriesFit, StoriesAreShort, StoriesHold};

use checker::{accepted_programs, printable_programs};
use code::code_plays;
use syntax::{one_tree, printable_trees};
use syntax_lexer::{one_outcome, printable_tokens};

/// The code of a program is no longer than its source weighs, whatever the names of the source
/// stand for, however many objects it has, and whatever its abbreviations are: each routine has at
/// least 7 bytes less than the weight of its tokens, and all routines, with 7 bytes more for each,
/// have at most the weight of the whole source. A token weighs 32, and each byte between the quotes
/// of a text 3 more.
pub fn code_is_short()
    ensures { CodeIsShort }
{}

/// A checked program that `meaning::test_sizes` passes has small code: each routine has at most
/// 31,993 bytes, and all routines, with 7 bytes more for each, have at most 190,000 bytes in
/// version 5 and 450,000 in version 8.
pub fn small_sources_have_small_code()
    ensures { SmallSourcesHaveSmallCode }
{}

/// The story of an accepted program is read, and holds the program at the packed addresses that its
/// calls name, where its code is short enough for jumps, its packed addresses are words and its
/// bytes are bytes.
pub fn stories_hold()
    ensures { StoriesHold }
{}

/// The packed addresses of a story are words where those of all that stands before its routines are
/// words, and its code, with the filling between routines, weighs no more than the source of a
/// story of the version may weigh.
pub fn stories_are_short()
    ensures { StoriesAreShort }
{}

/// A source that is accepted where its weight is limited is accepted too where the length of its
/// story is, and its story has the same bytes; memory may be refused.
pub fn light_stories_fit()
    ensures { LightStoriesFit }
{
    accepted_programs();
    code_is_short();
    one_outcome();
    one_tree();
}

/// The laws by which the story of an accepted source is read, and does what the source means.
pub(crate) fn laws()
    ensures accepted { AcceptedPrograms }
    ensures tokens { PrintableTokens }
    ensures trees { PrintableTrees }
    ensures programs { PrintablePrograms }
    ensures small { SmallSourcesHaveSmallCode }
    ensures hold { StoriesHold }
    ensures plays { CodePlays }
{
    accepted_programs();
    printable_tokens();
    printable_trees();
    printable_programs();
    small_sources_have_small_code();
    stories_hold();
    code_plays();
}
