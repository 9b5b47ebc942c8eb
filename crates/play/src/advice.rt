//! What a user at a terminal is told of a file that is refused: what it is, and what to do.

use crate::unread::cause_of;
use play_terminal::advise;
use session_keeping::Unread;
use std::io::{self, IsTerminal};
use survey::{Beginning, Mode};

/// The answer to a file that is no story of a version that is played.
pub const OTHER_VERSION: &str = "Z5";

/// Says of a story that is refused what it is, and what plays it or what else to do.
pub fn advise_on_story(rt: &HostRuntime, name: &str, beginning: Beginning, mode: Mode) {
    if name != OTHER_VERSION {
        return advise(rt, name, matches!(mode, Mode::Standard));
    }
    if !rt.stderr().is_terminal() {
        return;
    }
    let mend = mend_of_beginning(beginning, mode);
    let _ = match beginning {
        Beginning::Version(version) => match version {
            1..=8 => eprintln!(rt; "play: a story of version {version}; {mend}"),
            _ => eprintln!(rt; "play: no story of the Z-machine; {mend}"),
        },
        _ => eprintln!(rt; "play: {beginning}; {mend}"),
    };
}

/// What to do about a file that begins like this, which is no story that is played in a mode.
fn mend_of_beginning(beginning: Beginning, mode: Mode) -> &'static str {
    match (beginning, mode) {
        (Beginning::Version(1..=4 | 7), Mode::Profile) => "play --standard plays it",
        (Beginning::Blorb, Mode::Profile) => "play --standard plays a story in it",
        (Beginning::Version(1..=8), _) => "frotz plays it",
        (Beginning::Glulx, _) => "glulxe or git plays it",
        (Beginning::Gzip, _) => "gunzip unpacks it",
        (Beginning::Text, _) => "inform compiles a source file",
        _ => "check that it is the file you meant",
    }
}

/// Says why a story cannot be read.
pub fn advise_on_reading(rt: &HostRuntime, name: &str, error: &io::Error) {
    if !rt.stderr().is_terminal() {
        return;
    }
    let _ = match cause_of(rt, name, error) {
        Unread::Failed => return,
        Unread::Missing => {
            eprintln!(rt; "play: there is no such file, also with .z5, .z8, .z3, .zblorb and so on")
        }
        cause => {
            let words = cause.words();
            eprintln!(rt; "play: {words}")
        }
    };
}
