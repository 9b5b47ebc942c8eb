//! The story of a program that is not too large.

ghost use Rattle.std.specs.Prelude.{◌≡◌, ◌≤◌, IfOk, None, Some, length};
ghost use Rattle.syntax_lexer.specs.FaultNumbers.{routine_too_large, story_too_large};
ghost use Rattle.syntax_lexer.specs.Placed.{at_offset, nowhere};
ghost use Rattle.meaning.specs.Accepted.{IsAccepted};
ghost use Rattle.meaning.specs.CheckedSizes.{checked_size_fault, heavy_place};
ghost use Rattle.meaning.specs.Printable.{HasPrintableTexts};
ghost use Rattle.meaning.specs.Sizes.{fault};
ghost use Rattle.meaning.specs.Views.{program_of};
ghost use Rattle.story_file.specs.Layout.{greatest_length, story_of};
ghost use Rattle.story_file.specs.Written.{FitsTables};
ghost use Rattle.story.specs.Large.{IsStoryWithin};
ghost use Rattle.story.specs.declared.sized.Limit.TheVariants.{Length};

use code::Disposal;
use meaning::limits::GREATEST_ROUTINE_WEIGHT;
use meaning::{Checked, test_sizes_placed};
use std::alloc::{AllocError, Global};
use story_file::{write_story, write_story_within};
use syntax_lexer::{PlacedFault, Position, ROUTINE_TOO_LARGE, STORY_TOO_LARGE, SourceFault};
use zcore::Version;

/// What limits a source as a whole.
#[derive(Clone, Copy)]
pub enum Limit {
    /// Its weight: 190,000 in version 5 and 450,000 in version 8. What weighs no more has a story
    /// that packed addresses reach.
    Weight,

    /// The length of its story, as far as packed addresses reach: 262,140 bytes in version 5 and
    /// 524,280 in version 8.
    Length,
}

/// The position of the name of the first routine that weighs too much.
fn first_heavy(checked: &Checked<'_>) -> Option<Position>
    ensures { result ≡ heavy_place checked.now }
{
    for number in 0..checked.routines() {
        let routine = checked.routine(number);
        if routine.weight > GREATEST_ROUTINE_WEIGHT {
            return Some(routine.name.position);
        }
    }
    None
}

/// The fault of a routine whose name is there.
fn heavy_routine(name: Position) -> PlacedFault
    ensures { result ≡ at_offset name.offset (fault routine_too_large name.line) }
{
    PlacedFault {
        fault: SourceFault {
            number: ROUTINE_TOO_LARGE,
            line: name.line,
        },
        offset: Some(name.offset),
    }
}

/// The story of a program that weighs too much, by this fault; or why it is too large nevertheless.
fn heavy_story(
    alloc: Global,
    checked: &Checked<'_>,
    version: Version,
    by_weight: PlacedFault,
    disposal: Disposal,
) -> Result<Result<Vec<u8>, PlacedFault>, AllocError>
    requires tables { FitsTables (program_of checked.now) }
    requires weight { by_weight ≡ nowhere (fault story_too_large 0) }
    ensures { IfOk result (IsStoryWithin Length version checked.now) }
{
    if let Some(name) = first_heavy(checked) {
        return Ok(Err(heavy_routine(name)));
    }
    match write_story_within(alloc, checked, version, disposal)? {
        Some(story) => Ok(Ok(story)),
        None => Ok(Err(by_weight)),
    }
}

/// The story of a program, as [`story_within`] makes it. The memory of the code of its routines is given
/// back, or left.
pub(crate) fn story_by(
    alloc: Global,
    checked: &Checked<'_>,
    version: Version,
    limit: Limit,
    disposal: Disposal,
) -> Result<Result<Vec<u8>, PlacedFault>, AllocError>
    requires accepted { IsAccepted (program_of checked.now) }
    requires printable { HasPrintableTexts (program_of checked.now) }
    requires light { checked_size_fault checked.now version ≡ None
        → length (story_of version (program_of checked.now)) ≤ greatest_length version }
    ensures { IfOk result (IsStoryWithin limit version checked.now) }
{
    match test_sizes_placed(checked, version) {
        Ok(()) => {
            let story = write_story(alloc, checked, version, disposal)?;
            Ok(Ok(story))
        }
        Err(placed) => match limit {
            Limit::Length if placed.fault.number == STORY_TOO_LARGE => {
                heavy_story(alloc, checked, version, placed, disposal)
            }
            Limit::Weight | Limit::Length => Ok(Err(placed)),
        },
    }
}

/// The story of a program, in a version; or why it is too large, and where that is.
///
/// # Errors
///
/// [`AllocError`] where a growth of memory was refused.
pub fn story_within(
    alloc: Global,
    checked: &Checked<'_>,
    version: Version,
    limit: Limit,
) -> Result<Result<Vec<u8>, PlacedFault>, AllocError>
    requires accepted { IsAccepted (program_of checked.now) }
    requires printable { HasPrintableTexts (program_of checked.now) }
    requires light { checked_size_fault checked.now version ≡ None
        → length (story_of version (program_of checked.now)) ≤ greatest_length version }
    ensures { IfOk result (IsStoryWithin limit version checked.now) }
{
    story_by(alloc, checked, version, limit, Disposal::GivenBack)
}
