//! Lines of files in sentences.

use crate::files::Files;
use std::alloc::{AllocError, Global};
use std::fmt::{self, Display, Formatter};
use syntax_lexer::{from, front};
use terminal::OneLine;

/// How a sentence names a line.
const OF_LINES: [&str; 2] = [" in line ", " after line "];

/// A line of a file, as a sentence about a file names it.
#[derive(Clone, Copy)]
pub struct LineIn<'a> {
    pub line: usize,

    /// The file's name, if it is another one.
    pub file: Option<&'a str>,
}

impl Display for LineIn<'_> {
    fn fmt<W: fmt::Write>(&self, f: &mut Formatter<W>) -> fmt::Result {
        let line = self.line;
        match self.file {
            Some(file) => {
                let name = OneLine(file);
                write!(f, "{line} of {name}")
            }
            None => write!(f, "{line}"),
        }
    }
}

/// A line of the source, as a sentence about a file names it.
pub fn line_in(files: &Files, file: usize, line: usize) -> LineIn<'_> {
    let found = files.line(line);
    LineIn {
        line: found.line,
        file: if found.file == file {
            None
        } else {
            Some(files.name(found.file))
        },
    }
}

/// How many digits are at the front of bytes.
fn digits_at(bytes: &[u8]) -> usize {
    let mut count = 0_usize;
    for byte in bytes {
        if !byte.is_ascii_digit() {
            return count;
        }
        count = count.saturating_add(1);
    }
    count
}

/// The number that digits are.
fn number_of(digits: &[u8]) -> usize {
    let mut number = 0_usize;
    for byte in digits {
        number = number
            .saturating_mul(10)
            .saturating_add(usize::from(byte.saturating_sub(b'0')));
    }
    number
}

/// Puts the line that a sentence about a file names here, if it does; how many bytes that are.
fn put_line(
    out: &mut String,
    files: &Files,
    file: usize,
    rest: &[u8],
) -> Result<usize, AllocError> {
    for row in &OF_LINES {
        let before = *row;
        if rest.starts_with(before.as_bytes()) {
            let after = from(rest, before.len());
            let count = digits_at(after);
            let line = line_in(files, file, number_of(front(after, count)));
            let alloc = *out.allocator();
            let shown = format!(in alloc; "{before}{line}")?;
            out.push_str(shown.as_str())?;
            return Ok(before.len().saturating_add(count));
        }
    }
    Ok(0)
}

/// A sentence about a file, with lines of the files in the place of those of the whole source.
///
/// # Errors
///
/// `AllocError` where memory is refused.
pub fn with_written_lines(
    alloc: Global,
    files: &Files,
    file: usize,
    sentence: &str,
) -> Result<String, AllocError> {
    if files.all().len() == 1 {
        return String::from_str(alloc, sentence);
    }
    let bytes = sentence.as_bytes();
    let mut out = String::new(alloc);
    let mut next = 0;
    for at in 0..bytes.len() {
        if at >= next {
            let length = put_line(&mut out, files, file, from(bytes, at))?;
            if length == 0 {
                out.push(char::from(bytes[at]))?;
            }
            next = at.saturating_add(length.max(1));
        }
    }
    Ok(out)
}
