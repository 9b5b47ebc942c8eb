//! The heading of a session's file: the format, the story, and the options.

ghost use Rattle.std.specs.Prelude.{◌≡◌, IfOk, IfSome};
ghost use Rattle.session_keeping.specs.Heading.{IsHeadingOf, heading_bytes};

use crate::lines::{add_line, cut_line};
use std::alloc::{AllocError, Global};

/// The first line: the name of the format, and its version.
const FORMAT: &str = "play session 1";

/// How the first line begins in each version of the format.
const NAME: &[u8] = b"play session ";

/// What the heading of a session's file says, and what follows it.
#[derive(Clone, Copy)]
pub struct Heading<'a> {
    /// The line of the story.
    pub story: &'a [u8],

    /// The line of the options by which it is played.
    pub options: &'a [u8],

    /// The lines of play.
    pub lines: &'a [u8],
}

/// Why a file has no heading of a session.
#[derive(Clone, Copy)]
pub enum HeadingFault {
    /// It does not begin as a session does, or its heading is not whole.
    NoSession,

    /// It is a session in another version of the format.
    OtherFormat,
}

impl HeadingFault {
    /// The same in words.
    pub fn words(self) -> &'static str {
        match self {
            HeadingFault::NoSession => "it is no session",
            HeadingFault::OtherFormat => "it is a session in another format",
        }
    }
}

/// The heading of a session's file.
///
/// # Errors
///
/// Those of [`HeadingFault`].
pub fn heading_in(text: &[u8]) -> Result<Heading<'_>, HeadingFault>
    ensures { IfOk result (IsHeadingOf text.now) }
{
    match parts_of(text) {
        Some(heading) => Ok(heading),
        None if text.starts_with(NAME) && !begins_alike(text) => Err(HeadingFault::OtherFormat),
        None => Err(HeadingFault::NoSession),
    }
}

/// Whether the first line of a text is that of a session.
fn begins_alike(text: &[u8]) -> bool {
    match cut_line(text) {
        Some((format, _)) => format == FORMAT.as_bytes(),
        None => false,
    }
}

/// The parts of a session's file, if it has a whole heading.
fn parts_of(text: &[u8]) -> Option<Heading<'_>>
    ensures { IfSome result (IsHeadingOf text.now) }
{
    let (format, rest) = cut_line(text)?;
    if format != FORMAT.as_bytes() {
        return None;
    }
    let (story, rest) = cut_line(rest)?;
    let (options, lines) = cut_line(rest)?;
    Some(Heading {
        story,
        options,
        lines,
    })
}

/// The heading of a story that is played by these options, each without a new line.
///
/// # Errors
///
/// Memory was refused.
pub fn heading_of(alloc: Global, story: &str, options: &str) -> Result<Vec<u8>, AllocError>
    ensures { IfOk result (λ heading. heading.items ≡ heading_bytes story.now options.now) }
{
    let mut heading = Vec::new(alloc);
    add_line(&mut heading, FORMAT.as_bytes())?;
    add_line(&mut heading, story.as_bytes())?;
    add_line(&mut heading, options.as_bytes())?;
    Ok(heading)
}
