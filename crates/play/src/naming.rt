//! The file of a story that is named without the end of its name.

ghost use Rattle.terminal.specs.Range.{IsInRange};

use session_keeping::Unread;
use std::fs;
use std::io::IsTerminal;
use terminal::play::{Words, extensions};

/// The name of the file of a story, if a user at a terminal names it without its end: the first of those
/// that `extensions` lists of which there is a file. `None` where there is a file of the name itself, or
/// no such file either, or no terminal.
pub fn longer_name(rt: &HostRuntime, name: &str) -> Option<String> {
    if !rt.stdout().is_terminal() || is_file(rt, name) {
        return None;
    }
    for extension in extensions() {
        let longer = format!(in rt.alloc(); "{name}.{extension}").ok()?;
        if is_file(rt, longer.as_str()) {
            return Some(longer);
        }
    }
    None
}

/// What is played if the story's file has this name, or the one that it has, if there is none.
pub fn of_story<'a>(words: Words<'a>, name: &'a Option<String>) -> Words<'a>
    requires { IsInRange words }
    ensures { IsInRange result }
{
    match name {
        Some(story) => Words {
            story: story.as_str(),
            ..words
        },
        None => words,
    }
}

/// Whether there is a file of this name, and not a folder.
fn is_file(rt: &HostRuntime, name: &str) -> bool {
    match fs::metadata(rt, name) {
        Ok(found) => !found.is_dir(),
        Err(error) => !matches!(Unread::of(&error), Unread::Missing),
    }
}
