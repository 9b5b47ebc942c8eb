//! The screen on which a story is shown.

use crate::resizing::Resizing;
use screen::{Screen, Size, most_rows};
use std::env;
use std::io::{IsTerminal, Write};
use terminal::play::Words;

/// What is said of a size that is none.
pub const NO_SIZE: &str = "a size is COLUMNSxROWS, from 20x5 to 255x255";

/// The size of a terminal that does not tell its own.
const USUAL: Size = Size {
    columns: 80,
    rows: 24,
};

/// The greatest number of columns and of rows.
const MOST: u32 = 255;

/// The greatest number of rows of which a story is told: 255 mean that the screen has no end (section 8.4.1).
const MOST_TOLD: u8 = 254;

/// Whether the words of a command line have no size of a screen, or one that is allowed.
pub fn are_sized(words: Words<'_>) -> bool {
    match words.screen {
        None | Some("") => true,
        Some(size) => Size::read(size.as_bytes()).is_some(),
    }
}

/// Whether a story that is played as the words of the command line say is drawn on a screen.
pub fn is_drawn(rt: &HostRuntime, words: Words<'_>) -> bool {
    !words.is_json && size_of(rt, &words).is_some()
}

/// How many rows of the upper window are drawn at most, where a story that is played as the words of the command line
/// say is drawn on a screen: the screen may have got another size. In versions 1 to 3 the status line takes one.
pub fn drawn_rows(
    rt: &HostRuntime,
    words: Words<'_>,
    resizing: Option<&Resizing>,
    story: &[u8],
) -> Option<u8> {
    if words.is_json {
        return None;
    }
    let first = size_of(rt, &words)?;
    let size = match resizing {
        Some(resizing) => resizing.size(first),
        None => first,
    };
    let rows = most_rows(size.rows);
    if has_status_line(story) {
        return Some(rows.saturating_sub(1));
    }
    Some(rows)
}

/// The greatest version of which the player draws the status line.
const WITH_STATUS_LINE: u8 = 3;

/// Whether the player draws the status line of a story with this memory.
pub(crate) fn has_status_line(memory: &[u8]) -> bool {
    match memory.first() {
        Some(version) => *version <= WITH_STATUS_LINE,
        None => false,
    }
}

/// Whether marks of text styles are written where a story is played as the words of the command line say: that is
/// asked for, or it is drawn on a screen.
pub fn has_marks(rt: &HostRuntime, words: Words<'_>) -> bool {
    words.styles || is_drawn(rt, words)
}

/// How many columns and rows a story that is played as the words of the command line say is told that its
/// screen has, if it is drawn on one. Of 255 rows it is told one less, since 255 mean that there is no end.
pub fn told_screen(rt: &HostRuntime, words: Words<'_>) -> Option<(u8, u8)> {
    if words.is_json {
        return None;
    }
    Some(told_of(size_of(rt, &words)?))
}

/// How many columns and rows a story is told that its screen of a size has.
pub(crate) fn told_of(size: Size) -> (u8, u8) {
    (size.columns, size.rows.min(MOST_TOLD))
}

/// The size of the screen on which a story is shown, if it is shown on one. By default it is at a terminal
/// that knows more than lines.
pub(crate) fn size_of(rt: &HostRuntime, words: &Words<'_>) -> Option<Size> {
    if !words.has_screen(may_draw(rt, words)) {
        return None;
    }
    match words.screen {
        None | Some("") => Some(told_size(rt).unwrap_or(USUAL)),
        Some(size) => Size::read(size.as_bytes()),
    }
}

/// Whether a story that these words play may be shown on a screen, and the user's terminal has one.
fn may_draw(rt: &HostRuntime, words: &Words<'_>) -> bool {
    let is_allowed = words.seed.is_some() && words.wrap.is_none() && !words.is_json;
    is_allowed && rt.stdin().is_terminal() && rt.stdout().is_terminal() && has_screen(rt)
}

/// Whether the terminal is one that knows more than lines.
fn has_screen(rt: &HostRuntime) -> bool {
    match env::var(rt, "TERM") {
        Ok(name) => !name.as_str().is_empty() && name.as_str() != "dumb",
        Err(_) => false,
    }
}

/// The size that COLUMNS and LINES tell.
fn told_size(rt: &HostRuntime) -> Option<Size> {
    let columns = told_number(rt, "COLUMNS")?;
    let rows = told_number(rt, "LINES")?;
    Size::of(columns, rows)
}

/// The number that a variable of the environment tells, or the greatest one.
fn told_number(rt: &HostRuntime, name: &str) -> Option<u16> {
    let text = env::var(rt, name).ok()?;
    let number = text.as_str().parse::<u32>().ok()?;
    Some(number.min(MOST) as u16)
}

/// Moves the cursor below the last reply.
pub(crate) fn end(rt: &HostRuntime, size: Size) {
    let mut written = Vec::new(rt.alloc());
    if Screen::new(size, false).put_ended(&mut written).is_ok() {
        let _ = rt.stdout().write_all(&written);
        let _ = rt.stdout().flush();
    }
}
