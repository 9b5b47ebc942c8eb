//! Which programs are too large.

ghost use Rattle.std.specs.Prelude.{◌≡◌, nat_lt, IfErr};
ghost use Rattle.syntax_lexer.specs.Placed.{nowhere, unplaced};
ghost use Rattle.meaning.specs.Places.{routines_place};
ghost use Rattle.meaning.specs.Views.{program_of};
ghost use Rattle.zcore.specs.Layout.{greatest_word};
ghost use Rattle.meaning.specs.CheckedSizes.{fault_of, checked_size_fault, name_place_of};
ghost use Rattle.meaning.specs.CheckedSizes.{routine_weight, StandsBySize};
ghost use Rattle.meaning.specs.Sizes as spec;

use crate::checked::{Checked, CheckedRoutine};
use crate::limits::{GREATEST_ROUTINE_WEIGHT, GREATEST_WEIGHT_5, GREATEST_WEIGHT_8};
use crate::places::tables_size;
use syntax_lexer::{
    PlacedFault, Position, ROUTINE_TOO_LARGE, STORY_TOO_LARGE, SourceFault, TABLES_TOO_LARGE,
};
use zcore::Version;

/// What a source of a version weighs at most.
pub fn greatest_weight(version: Version) -> u128
    ensures { result ≡ spec.greatest_weight version }
{
    match version {
        Version::V5 => GREATEST_WEIGHT_5,
        Version::V8 => GREATEST_WEIGHT_8,
    }
}

// Whether the parts before the routines pass the last address that a word names.
fn are_tables_large(checked: &Checked<'_>) -> bool
    ensures { result ≡ nat_lt greatest_word (routines_place (program_of checked.now)) }
{
    tables_size(checked) > 65_535
}

// The position of the name of the first routine that weighs too much.
fn first_heavy(routines: &[CheckedRoutine<'_>]) -> Option<Position>
    ensures { result ≡ spec.first_heavy routine_weight name_place_of routines.now }
{
    for routine in routines {
        if routine.weight > GREATEST_ROUTINE_WEIGHT {
            return Some(routine.name.position);
        }
    }
    None
}

// The fault of a source as a whole.
fn whole(number: u8) -> PlacedFault
    ensures { result ≡ nowhere (spec.fault number 0) }
{
    PlacedFault {
        fault: SourceFault { number, line: 0 },
        offset: None,
    }
}

/// Whether a program is small enough to be compiled for a version.
///
/// # Errors
///
/// E30, with line 0, where the parts before the routines pass 65,535 bytes; else E31, with line 0,
/// where the source weighs more than 190,000 in version 5 or 450,000 in version 8; else E32, with
/// the line of its name, at the first routine that weighs more than 32,000.
pub fn test_sizes(checked: &Checked<'_>, version: Version) -> Result<(), SourceFault>
    ensures { fault_of result ≡ checked_size_fault checked.now version }
{
    match test_sizes_placed(checked, version) {
        Ok(()) => Ok(()),
        Err(placed) => Err(placed.fault),
    }
}

/// As [`test_sizes`], with the fault's place.
///
/// # Errors
///
/// Those of [`test_sizes`]. The offset of E32 is that of the routine's name; E30 and E31 have none.
pub fn test_sizes_placed(checked: &Checked<'_>, version: Version) -> Result<(), PlacedFault>
    ensures fault { fault_of (unplaced result) ≡ checked_size_fault checked.now version }
    ensures stands { IfErr result (λ e. StandsBySize e checked.now) }
{
    if are_tables_large(checked) {
        return Err(whole(TABLES_TOO_LARGE));
    }
    if checked.source_weight() > greatest_weight(version) {
        return Err(whole(STORY_TOO_LARGE));
    }
    match first_heavy(checked.in_order()) {
        None => Ok(()),
        Some(position) => Err(PlacedFault {
            fault: SourceFault {
                number: ROUTINE_TOO_LARGE,
                line: position.line,
            },
            offset: Some(position.offset),
        }),
    }
}
