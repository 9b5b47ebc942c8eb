//! Likely mistakes in an accepted source, on standard error.

use crate::compiling::Texts;
use derive::{Origins, with_plain_names};
use inform_places::{Files, LineIn, line_in};
use messages_warnings::warning_lines;
use std::alloc::{AllocError, Global};
use std::fmt::{self, Display, Formatter};
use terminal::OneLine;

/// How a warning names a second line, at its end.
const IN_LINE: &str = " in line ";

/// A warning about the source of a name that was written.
#[derive(Clone, Copy)]
struct Warning<'a> {
    name: &'a str,
    line: usize,
    sentence: &'a str,

    /// The second line that it names.
    second: Option<LineIn<'a>>,
}

impl Display for Warning<'_> {
    fn fmt<W: fmt::Write>(&self, f: &mut Formatter<W>) -> fmt::Result {
        let (name, line, sentence) = (OneLine(self.name), self.line, self.sentence);
        write!(f, "{name}:{line}: {sentence}")?;
        match self.second {
            Some(second) => writeln!(f, "{IN_LINE}{second}"),
            None => writeln!(f),
        }
    }
}

/// What a warning says without the second line that it names, and that line.
fn with_second<'a>(origins: &Origins<'_>, sentence: &'a str) -> (&'a str, Option<usize>) {
    let Some((before, number)) = sentence.rsplit_once(IN_LINE) else {
        return (sentence, None);
    };
    match number.parse::<usize>() {
        Ok(spread) => match origins.line(spread) {
            Some(second) => (before, Some(second)),
            None => (before, None),
        },
        Err(_) => (sentence, None),
    }
}

/// The warning about a spread source that a line is, if it is about a token that was written.
fn warning_in<'a>(origins: &Origins<'_>, files: &'a Files, line: &'a str) -> Option<Warning<'a>> {
    let (number, sentence) = line.strip_prefix(':')?.split_once(": ")?;
    let Ok(spread) = number.parse::<usize>() else {
        return None;
    };
    let first = files.line(origins.line_of_same(spread)?);
    let (sentence, second) = with_second(origins, sentence);
    Some(Warning {
        name: files.name(first.file),
        line: first.line,
        sentence,
        second: match second {
            Some(second) => Some(line_in(files, first.file, second)),
            None => None,
        },
    })
}

/// Says on standard error what is likely a mistake in an extended source.
fn warn_of_extended(
    rt: &HostRuntime,
    files: &Files,
    origins: &Origins<'_>,
) -> Result<(), AllocError> {
    let spread = origins.spread(rt.alloc())?;
    let lines = warning_lines(rt.alloc(), &spread, "")?;
    for line in lines.as_str().lines() {
        let plain = with_plain_names(rt.alloc(), line)?;
        if let Some(warning) = warning_in(origins, files, plain.as_str()) {
            let _ = eprint!(rt; "{warning}");
        }
    }
    Ok(())
}

/// Says on standard error what is likely a mistake in the source of a name.
///
/// # Errors
///
/// `AllocError` where memory is refused; then nothing is said.
pub fn warn(rt: &HostRuntime, name: &str, texts: &Texts) -> Result<(), AllocError> {
    match texts.origins(rt.alloc())? {
        Some(origins) => warn_of_extended(rt, &texts.files, &origins),
        None => {
            let lines = warning_lines(rt.alloc(), texts.compiled(), OneLine(name))?;
            let _ = eprint!(rt; "{lines}");
            Ok(())
        }
    }
}
