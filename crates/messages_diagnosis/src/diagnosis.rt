//! Why a source is refused, and where.

ghost use Rattle.story.specs.Large.{limits_by};
ghost use Rattle.messages_diagnosis.specs.Diagnosed.{Diagnoses};

use messages_parts::{Diagnosis, located};
use std::alloc::Global;
use story::{Limit, Story, compile_once};
use zcore::Version;

/// The story of a source in a version by a limit, or why the source is refused, and where. It is for a program
/// that compiles one source and ends: the memory of the source's trees is left to the system.
///
/// # Errors
///
/// The fault is that of [`story::compile_once`]; its place is in the line that it names.
pub fn diagnose(
    alloc: Global,
    source: &[u8],
    version: Version,
    limit: Limit,
) -> Result<Story, Diagnosis>
    ensures { Diagnoses (limits_by limit) version source.now result }
{
    match compile_once(alloc, source, version, limit) {
        Ok(story) => Ok(story),
        Err(placed) => Err(located(source, placed)),
    }
}
