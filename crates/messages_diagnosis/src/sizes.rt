//! Sources that are too large as a whole (E30, E31).

use crate::analysis::Analysis;
use crate::measuring::measure;
use crate::table_bytes::MOST_TABLE_BYTES;
use meaning::greatest_weight;
use messages_advice::{Figure, some};
use std::alloc::{AllocError, Global};
use story::Limit;
use story_file::greatest_length;
use syntax_directives::weight_of;
use syntax_lexer::NO_MEMORY;
use zcore::Version;

/// The figures of a source that is too large as a whole: the bytes of its tables, and whether it is
/// a story of version 8.
#[derive(Clone, Copy)]
struct Whole {
    tables: u128,
    is_large_story: bool,
}

/// The figures of a source by a limit. `None` where another rule is broken.
fn figures_of(alloc: Global, source: &[u8], limit: Limit) -> Result<Option<Whole>, AllocError> {
    match measure(alloc, source, Version::V8, limit) {
        Ok(figures) => Ok(Some(Whole {
            tables: figures.table_total,
            is_large_story: figures.story.is_ok(),
        })),
        Err(fault) if fault.number == NO_MEMORY => Err(AllocError),
        Err(_) => Ok(None),
    }
}

/// What is said of version 8 where it has room for a source for which another version has none.
fn but_room(alloc: Global, analysis: &Analysis<'_>) -> Result<&'static str, AllocError> {
    if matches!(analysis.version, Version::V8) {
        return Ok("");
    }
    match figures_of(alloc, analysis.source, analysis.limit) {
        Ok(Some(whole)) if whole.is_large_story => Ok(", but -v 8 has room for it"),
        Ok(_) => Ok(""),
        Err(refused) => Err(refused),
    }
}

/// The number of a version.
fn number_of(version: Version) -> u8 {
    match version {
        Version::V5 => 5,
        Version::V8 => 8,
    }
}

/// What is wrong with a source of that weight, which is too much for its version. To measure it for
/// version 8 takes longer than to compile it, so it is not done where the weight says all.
fn heavy(alloc: Global, analysis: &Analysis<'_>, found: u128) -> Result<String, AllocError> {
    let weight = Figure(found);
    let most = Figure(greatest_weight(analysis.version));
    let number = number_of(analysis.version);
    let but = if found > greatest_weight(Version::V8) {
        ""
    } else {
        but_room(alloc, analysis)?
    };
    format!(in alloc; "the source weighs {weight}; the limit of version {number} is {most}{but}")
}

/// What is wrong with a source whose story is longer than packed addresses of its version reach.
fn long(alloc: Global, analysis: &Analysis<'_>) -> Result<String, AllocError> {
    let most = Figure(greatest_length(analysis.version) as u128);
    let number = number_of(analysis.version);
    let but = but_room(alloc, analysis)?;
    format!(in alloc; "the story has more than {most} bytes, the limit of version {number}{but}")
}

/// What is wrong with a source whose tables are too large.
pub fn large_tables(alloc: Global, source: &[u8]) -> Result<Option<String>, AllocError> {
    match figures_of(alloc, source, Limit::Weight) {
        Ok(Some(whole)) => {
            let (bytes, most) = (Figure(whole.tables), Figure(MOST_TABLE_BYTES));
            some(format!(in alloc;
                "arrays, objects, words and abbreviations have {bytes} bytes; the limit is {most}"
            ))
        }
        Ok(None) => Ok(None),
        Err(refused) => Err(refused),
    }
}

/// What is wrong with a source whose story is too large by its limit.
pub fn too_large(alloc: Global, analysis: &Analysis<'_>) -> Result<Option<String>, AllocError> {
    match (analysis.limit, &analysis.tokens) {
        (Limit::Length, _) => some(long(alloc, analysis)),
        (Limit::Weight, Some(tokens)) => some(heavy(alloc, analysis, weight_of(tokens))),
        (Limit::Weight, None) => Ok(None),
    }
}
