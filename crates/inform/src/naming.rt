//! The name of a story file that is named after its source.

use std::alloc::{AllocError, Global};
use zcore::Version;

/// The name of the story file of a source, in the present folder: `game.z5` for `there/game.inf`.
pub fn named_after(alloc: Global, source: &str, version: Version) -> Result<String, AllocError> {
    let name = match source.rsplit_once('/') {
        Some((_, name)) => name,
        None => source,
    };
    let stem = match name.rsplit_once('.') {
        Some((stem, _)) if !stem.is_empty() => stem,
        _ => name,
    };
    let extension = match version {
        Version::V5 => "z5",
        Version::V8 => "z8",
    };
    format!(in alloc; "{stem}.{extension}")
}
