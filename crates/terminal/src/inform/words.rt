//! What the words of the compiler's command line ask for.

use crate::defaults::is_chosen;
use clap::{ArgMatches, Command, Error};
use std::alloc::{AllocError, Global};
use zcore::Version;

/// The option that names a folder of files that a source includes.
const INCLUDE: &str = "--include";

/// What the command line asks for.
#[derive(Clone, Copy)]
pub enum Asked<'a> {
    /// To explain the fault of this name, or without one to list all faults.
    Explain(Option<&'a str>),

    /// To compile a source.
    Compile(Words<'a>),

    /// To print how much a source takes.
    Sizes(Words<'a>),

    /// To print what an extended source stands for.
    Derive(Words<'a>),
}

/// What is compiled to what.
#[derive(Clone, Copy)]
pub struct Words<'a> {
    /// The source file's name.
    pub source: &'a str,

    /// The name of the story file to write, if one is named.
    pub story: Option<&'a str>,

    /// Whether the source file is only checked if no story file is named. Otherwise the story file is
    /// named after it.
    pub is_check: bool,

    /// The name of the map to write, if one is written.
    pub map: Option<&'a str>,

    /// The version of the story file.
    pub version: Version,

    /// Whether the source is extended.
    pub is_extended: bool,

    /// All words of the command line.
    pub given: &'a [String],

    /// Whether the length of the story is limited instead of the weight of the source.
    pub large: bool,

    /// Whether to show where a fault is.
    pub show: bool,

    /// Whether to warn of likely mistakes.
    pub warn: bool,
}

/// Reads the words of a command line of a user who sees standard error at a terminal or not; `None` if
/// they name a version other than 5 and 8.
///
/// # Errors
///
/// What `clap` says of words that it refuses, and of those that ask for help or for the version; or
/// that memory was refused.
pub fn words_of<'a>(
    command: Command<'a>,
    given: &'a [String],
    is_seen: bool,
) -> Result<Option<Asked<'a>>, Error> {
    match command.try_get_matches_from(given) {
        Ok(matches) => Ok(asked_in(&matches, given, is_seen)),
        Err(error) => Err(error),
    }
}

/// The folders that the words of a command line name which was read, for files that a source includes.
///
/// # Errors
///
/// Memory was refused.
pub fn folders_of<'a>(alloc: Global, given: &'a [String]) -> Result<Vec<&'a str>, AllocError> {
    let mut folders = Vec::new(alloc);
    let mut is_value = false;
    for word in given {
        let word = word.as_str();
        if word == "--" && !is_value {
            return Ok(folders);
        }
        let named = if is_value {
            Some(word)
        } else {
            folder_in(word)
        };
        is_value = !is_value && word == INCLUDE;
        if let Some(folder) = named {
            folders.push(folder)?;
        }
    }
    Ok(folders)
}

/// The folder that a word names itself.
fn folder_in<'a>(word: &'a str) -> Option<&'a str> {
    word.strip_prefix(INCLUDE)?.strip_prefix('=')
}

/// What a command line asks for; `None` if it names a version other than 5 and 8.
fn asked_in<'a>(matches: &ArgMatches<'a>, given: &'a [String], is_seen: bool) -> Option<Asked<'a>> {
    if matches.contains_id("explain") {
        return Some(Asked::Explain(matches.get_str("explain")));
    }
    let version = match matches.get_one::<u32>("version_number") {
        None | Some(5) => Version::V5,
        Some(8) => Version::V8,
        Some(_) => return None,
    };
    let source = matches.get_str("source").unwrap_or("");
    let show = matches.get_flag("show");
    let warn = matches.get_flag("warn");
    let words = Words {
        source,
        story: matches.get_str("story"),
        is_check: show || warn,
        map: matches.get_str("map"),
        version,
        is_extended: matches.get_flag("extended"),
        given,
        large: matches.get_flag("large"),
        show: is_chosen(show, matches.get_flag("plain"), is_seen),
        warn,
    };
    if matches.get_flag("sizes") {
        Some(Asked::Sizes(words))
    } else if matches.get_flag("derived") {
        Some(Asked::Derive(words))
    } else {
        Some(Asked::Compile(words))
    }
}
