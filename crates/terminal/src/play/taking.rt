//! Words that are taken out of a command line before it is read.

ghost use Rattle.std.specs.Prelude.{◌<◌, IfSome, length};

use std::alloc::{AllocError, Global};

/// The word after which no option comes.
const END_OF_OPTIONS: &str = "--";

/// The option before the names of files to check.
const CHECK: &str = "--check";

/// How the answers to `--check` are printed.
#[derive(Clone, Copy)]
pub enum Format {
    /// In words for people: a page for one file, a line for each of several.
    Words,

    /// A line of columns for each file, with a tab between two columns.
    Columns,
}

/// Takes `--format tsv` out of the words of a command line that has `--check`, wherever it is before
/// `--`. Says how the answers are printed.
pub fn take_format(given: &mut Vec<String>) -> Format {
    if place_of(given, CHECK).is_none() {
        return Format::Words;
    }
    if let Some(place) = place_of(given, "--format=tsv") {
        given.remove(place);
        return Format::Columns;
    }
    match place_of(given, "--format") {
        Some(place) if place + 1 < given.len() && given[place + 1].as_str() == "tsv" => {
            given.remove(place + 1);
            given.remove(place);
            Format::Columns
        }
        _ => Format::Words,
    }
}

/// Takes the words after `--` out of a command line that has `--check`, and `--` itself. They are names
/// of files, also those that begin with `-`. If `--` follows `--check`, the first of them becomes its
/// value.
///
/// # Errors
///
/// Memory was refused.
pub fn take_files(alloc: Global, given: &mut Vec<String>) -> Result<Vec<String>, AllocError> {
    let Some(check) = place_of(given, CHECK) else {
        return Ok(Vec::new(alloc));
    };
    let Some(end) = place_of(given, END_OF_OPTIONS) else {
        return Ok(Vec::new(alloc));
    };
    if check + 1 == end && end + 1 < given.len() {
        let value = value_of(alloc, given[end + 1].as_str())?;
        given[check] = value;
        given.remove(end + 1);
    }
    let files = given.split_off(end + 1)?;
    given.truncate(end);
    Ok(files)
}

/// The option before the names of files, with the first of them.
fn value_of(alloc: Global, first: &str) -> Result<String, AllocError> {
    format!(in alloc; "{CHECK}={first}")
}

/// The place of a word after the program's name and before what follows `--`.
pub fn place_of(given: &[String], wanted: &str) -> Option<usize>
    ensures { IfSome result (λ place. place < length given.now) }
{
    for place in 1..given.len() {
        let word = given[place].as_str();
        if word == wanted {
            return Some(place);
        }
        if word == END_OF_OPTIONS {
            return None;
        }
    }
    None
}
