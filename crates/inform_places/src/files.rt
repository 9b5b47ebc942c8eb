//! The files of a source as they were written.

use derive_joined::{Part, Run, Spot, bytes_of, origin, spot_of, text_of};
use std::alloc::{AllocError, Global};
use syntax_lexer::{PlacedFault, SourceFault, front};

/// A line of a file.
#[derive(Clone, Copy)]
pub struct FileLine {
    /// The number of the file, from 0: that of the main one.
    pub file: usize,

    /// The line, from 1.
    pub line: usize,
}

/// A file as it was written.
#[derive(Drop)]
pub struct Written {
    /// The name by which it was opened.
    pub name: String,
    pub bytes: Vec<u8>,

    /// Where it is asked for; `None` for the main file.
    pub asked: Option<FileLine>,
}

impl Written {
    ghost use Rattle.std.specs.Prelude.{◌≡◌, IfOk};

    /// The main file.
    ///
    /// # Errors
    ///
    /// `AllocError` where memory is refused.
    pub fn main(alloc: Global, name: &str, bytes: Vec<u8>) -> Result<Written, AllocError>
        ensures { IfOk result (λ file. file.bytes ≡ bytes) }
    {
        Ok(Written {
            name: String::from_str(alloc, name)?,
            bytes,
            asked: None,
        })
    }
}

/// A source of several files.
#[derive(Drop)]
struct Whole {
    /// The files with their texts on one line each.
    texts: Vec<Vec<u8>>,
    parts: Vec<Part>,

    /// The text of the parts, in which each file stands where it is asked for.
    text: Vec<u8>,

    /// Where each line of it comes from.
    lines: Vec<FileLine>,
}

/// The files of a source.
#[derive(Drop)]
pub struct Files {
    /// The main file, and those that are asked for.
    written: Vec<Written>,

    /// What they are together; `None` where there is one.
    whole: Option<Whole>,
}

/// The line in which an offset is.
pub fn line_of(source: &[u8], offset: usize) -> usize {
    let mut line = 1_usize;
    for byte in front(source, offset) {
        if *byte == b'\n' {
            line = line.saturating_add(1);
        }
    }
    line
}

/// The fault of a number at an offset of a source.
pub fn fault_at(source: &[u8], number: u8, offset: usize) -> SourceFault {
    SourceFault {
        number,
        line: line_of(source, offset),
    }
}

/// Puts where the lines of a run of bytes come from.
fn put_lines(lines: &mut Vec<FileLine>, texts: &[Vec<u8>], run: Run) -> Result<(), AllocError> {
    let file = run.file;
    let mut line = match texts.get(file) {
        Some(text) => line_of(text, run.begin),
        None => 1,
    };
    lines.push(FileLine { file, line })?;
    for byte in bytes_of(texts, run) {
        if *byte == b'\n' {
            line = line.saturating_add(1);
            lines.push(FileLine { file, line })?;
        }
    }
    Ok(())
}

/// Where the lines of the text of parts come from.
fn lines_of(alloc: Global, texts: &[Vec<u8>], parts: &[Part]) -> Result<Vec<FileLine>, AllocError> {
    let mut lines = Vec::new(alloc);
    for part in parts {
        if let Part::Bytes(run) = part {
            put_lines(&mut lines, texts, *run)?;
        }
    }
    Ok(lines)
}

impl Files {
    ghost use Rattle.std.specs.Prelude.{◌≡◌, ◌∷◌, [], IfOk, None};
    ghost use Rattle.derive_joined.specs.Held.{texts_of};
    ghost use Rattle.derive_joined.specs.Texts as joined;
    ghost use Rattle.inform_places.specs.Source as spec;

    /// One file, which asks for none.
    pub fn of_one(written: Vec<Written>) -> Files
        ensures files { result.written ≡ written }
        ensures alone { result.whole ≡ None }
    {
        Files {
            written,
            whole: None,
        }
    }

    /// The main file alone.
    ///
    /// # Errors
    ///
    /// `AllocError` where memory is refused.
    pub fn of_main(alloc: Global, name: &str, bytes: Vec<u8>) -> Result<Files, AllocError>
        ensures files { IfOk result (λ files. spec.all_bytes files ≡ bytes.items ∷ []) }
        ensures source { IfOk result (λ files. spec.source_of files ≡ bytes.items) }
    {
        let mut written = Vec::new(alloc);
        let main = Written::main(alloc, name, bytes)?;
        written.push(main)?;
        Ok(Files::of_one(written))
    }

    /// The files of a source of these parts, which are those of these texts.
    ///
    /// # Errors
    ///
    /// `AllocError` where memory is refused.
    pub fn of_parts(
        alloc: Global,
        written: Vec<Written>,
        texts: Vec<Vec<u8>>,
        parts: Vec<Part>,
    ) -> Result<Files, AllocError>
        ensures files { IfOk result (λ files. files.written ≡ written) }
        ensures source { IfOk result (λ files.
            spec.source_of files ≡ joined.text_of (texts_of texts.items) parts.items) }
    {
        let text = text_of(alloc, &texts, &parts)?;
        let lines = lines_of(alloc, &texts, &parts)?;
        Ok(Files {
            written,
            whole: Some(Whole {
                texts,
                parts,
                text,
                lines,
            }),
        })
    }

    /// All files.
    pub fn all(&self) -> &[Written]
        ensures { result.now ≡ self.now.written.items }
    {
        &self.written
    }

    /// The source that they are together.
    pub fn source(&self) -> &[u8]
        ensures { result.now ≡ spec.source_of self.now }
    {
        match &self.whole {
            Some(whole) => &whole.text,
            None => self.bytes(0),
        }
    }

    /// The name of a file.
    pub fn name(&self, file: usize) -> &str {
        match self.written.get(file) {
            Some(written) => written.name.as_str(),
            None => "",
        }
    }

    /// The bytes of a file.
    pub fn bytes(&self, file: usize) -> &[u8]
        ensures { result.now ≡ spec.bytes_of self.now file }
    {
        match self.written.get(file) {
            Some(written) => &written.bytes,
            None => &[],
        }
    }

    /// Where a line of the source comes from.
    pub fn line(&self, line: usize) -> FileLine {
        let Some(whole) = &self.whole else {
            return FileLine { file: 0, line };
        };
        match whole.lines.get(line.saturating_sub(1)) {
            Some(found) if line > 0 => *found,
            _ => FileLine { file: 0, line },
        }
    }

    /// Where a byte of the source stands.
    ///
    /// # Errors
    ///
    /// `AllocError` where memory is refused.
    pub fn spot(&self, alloc: Global, offset: usize) -> Result<Spot, AllocError> {
        let Some(whole) = &self.whole else {
            return Ok(Spot { file: 0, offset });
        };
        match spot_of(&whole.texts, &whole.parts, offset) {
            Some(spot) => Ok(Spot {
                file: spot.file,
                offset: origin(alloc, self.bytes(spot.file), spot.offset)?,
            }),
            None => Ok(Spot {
                file: 0,
                offset: self.bytes(0).len(),
            }),
        }
    }

    /// Where that ends which ends at an offset of the source.
    ///
    /// # Errors
    ///
    /// `AllocError` where memory is refused.
    pub fn spot_behind(&self, alloc: Global, offset: usize) -> Result<Spot, AllocError> {
        if self.whole.is_none() {
            return Ok(Spot { file: 0, offset });
        }
        let last = self.spot(alloc, offset.saturating_sub(1))?;
        Ok(Spot {
            file: last.file,
            offset: last.offset.saturating_add(1),
        })
    }

    /// The file in which a fault of the source is, and the fault there.
    ///
    /// # Errors
    ///
    /// `AllocError` where memory is refused.
    pub fn placed(
        &self,
        alloc: Global,
        placed: PlacedFault,
    ) -> Result<(usize, PlacedFault), AllocError> {
        let (Some(offset), Some(_)) = (placed.offset, &self.whole) else {
            return Ok((0, placed));
        };
        let spot = self.spot(alloc, offset)?;
        let there = PlacedFault {
            fault: fault_at(self.bytes(spot.file), placed.fault.number, spot.offset),
            offset: Some(spot.offset),
        };
        Ok((spot.file, there))
    }
}
