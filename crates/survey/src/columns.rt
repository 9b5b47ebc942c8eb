//! A survey as columns of a table.

use crate::edition::Edition;
use crate::facts::Serial;
use crate::measures::Measures;
use crate::mode::Mode;
use crate::survey::{Survey, write_unplayed};
use std::fmt;

/// A survey as seven columns with a tab between two, for programs that read them: `loads`, `needs`,
/// `damaged` or the cause for which it is refused; the opcodes that were found beyond what the machine
/// plays, with a comma between two; the version; the bytes that were read; the release; the serial
/// number; and the sum that the header states. For the whole Standard there are three more: the length
/// that the header states; the bytes without zero bytes that fill the file behind it; and the sum of
/// the story. A column is empty if there is nothing to say.
#[derive(Clone, Copy)]
pub struct Columns<'a>(pub &'a Survey);

impl fmt::Display for Columns<'_> {
    fn fmt<W: fmt::Write>(&self, f: &mut fmt::Formatter<W>) -> fmt::Result {
        let verdict = self.0.verdict();
        write!(f, "{verdict}\t")?;
        if let Ok(contents) = &self.0.found {
            write_unplayed(f, contents)?;
        }
        let size = self.0.size;
        match &self.0.edition {
            Some(edition) => write_edition(f, edition, size)?,
            None => write!(f, "\t\t{size}\t\t\t")?,
        }
        match self.0.mode {
            Mode::Profile => Ok(()),
            Mode::Standard => write_measures(f, &self.0.measures),
        }
    }
}

/// Writes the columns of the stated length, of the bytes that are there, and of their sum.
fn write_measures<W: fmt::Write>(
    f: &mut fmt::Formatter<W>,
    measures: &Option<Measures>,
) -> fmt::Result {
    match measures {
        Some(measures) => {
            let stated = measures.stated_length;
            let length = measures.length;
            let sum = measures.sum;
            write!(f, "\t{stated}\t{length}\t{sum:04X}")
        }
        None => f.write_str("\t\t\t"),
    }
}

/// Writes the columns that the header fills, and the bytes that were read among them.
fn write_edition<W: fmt::Write>(
    f: &mut fmt::Formatter<W>,
    edition: &Edition,
    size: usize,
) -> fmt::Result {
    let version = edition.version;
    let release = edition.release;
    let serial = Serial(edition.serial);
    let sum = edition.sum;
    write!(f, "\t{version}\t{size}\t{release}\t{serial}\t{sum:04X}")
}
