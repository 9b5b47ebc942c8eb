//! The line of a source in which something is at fault, as it is shown.

use crate::bytes::{Bytes, Style, is_plain};
use crate::lines::line_length;
use crate::place::Place;
use std::fmt::{self, Display, Formatter};
use syntax_lexer::{from, front};

/// The most bytes of a line that are shown.
const MOST_SHOWN: usize = 160;

/// How many bytes are shown before the place in a line that is cut.
const SHOWN_BEFORE: usize = 40;

/// A line, in three parts: what stands before the place, what is marked and what stands behind.
/// `Display` writes it and a mark below it, and nothing for a blank line.
#[derive(Clone, Copy)]
pub struct Excerpt<'a> {
    before: &'a [u8],
    marked: &'a [u8],
    behind: &'a [u8],

    /// Whether the line is cut before what is shown, and behind it.
    cut: (bool, bool),
}

// How many blanks and tabs stand at the front.
fn indent(bytes: &[u8]) -> usize {
    let mut length = 0;
    while length < bytes.len() && matches!(bytes[length], b' ' | b'\t') {
        length += 1;
    }
    length
}

impl<'a> Excerpt<'a> {
    /// The line of a place without the blanks at its beginning, cut around the place where it is
    /// long.
    pub fn of(source: &'a [u8], place: Place) -> Self {
        let before = place.column.saturating_sub(1);
        let begin = place.offset.saturating_sub(before);
        let blank = indent(front(from(source, begin), before));
        let before = before.saturating_sub(blank);
        let line = from(source, begin.saturating_add(blank));
        let all = before.saturating_add(line_length(from(line, before)));
        let first = before
            .saturating_sub(SHOWN_BEFORE)
            .min(all.saturating_sub(MOST_SHOWN));
        let before = before.saturating_sub(first);
        let shown = front(from(front(line, all), first), MOST_SHOWN);
        let rest = from(shown, before);
        Excerpt {
            before: front(shown, before),
            marked: front(rest, place.length),
            behind: from(rest, place.length),
            cut: (first > 0, all.saturating_sub(first) > MOST_SHOWN),
        }
    }

    /// The line and the mark in parts.
    fn parts(self) -> [Bytes<'a>; 8] {
        let begin: &[u8] = if self.cut.0 { b"    .." } else { b"    " };
        let blanks: &[u8] = if self.cut.0 { b"  " } else { b"" };
        let end: &[u8] = if self.cut.1 { b"..\n    " } else { b"\n    " };
        let mark: &[u8] = match self.marked {
            [first, ..] if !is_plain(Style::Mark, *first) => b"^~~~",
            _ => b"^",
        };
        [
            Bytes(Style::Text, begin),
            Bytes(Style::Line, self.before),
            Bytes(Style::Line, self.marked),
            Bytes(Style::Line, self.behind),
            Bytes(Style::Text, end),
            Bytes(Style::Text, blanks),
            Bytes(Style::Blanks, self.before),
            Bytes(Style::Text, mark),
        ]
    }
}

impl Display for Excerpt<'_> {
    fn fmt<W: fmt::Write>(&self, f: &mut Formatter<W>) -> fmt::Result {
        if self.before.is_empty() && self.marked.is_empty() && self.behind.is_empty() {
            return Ok(());
        }
        for part in &self.parts() {
            write!(f, "{part}")?;
        }
        writeln!(f, "{}", Bytes(Style::Mark, from(self.marked, 1)))
    }
}
