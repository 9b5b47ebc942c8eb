//! The files of a source, as they are read one after another.

ghost use Rattle.std.specs.Prelude.{IfOk};
ghost use Rattle.derive_joined.specs.Included.{HasParts};

use crate::files::{FileLine, Files, Written, line_of};
use derive_joined::{Part, Run, bytes_of, first_asked, included, joined, parts_of};
use std::alloc::{AllocError, AllocFailed, Global};
use syntax_lexer::{PlacedFault, from, front};

/// How `Include` is spelled, in small letters or in capitals.
const INCLUDE: &[u8] = b"include";

/// Why a file is not taken.
#[derive(Drop)]
pub enum Untaken {
    Memory,

    /// The bytes of the file that was read last are no tokens, by its text with its texts joined.
    Broken(PlacedFault),
}

impl From<AllocError> for Untaken {
    fn from(_: AllocError) -> Untaken {
        Untaken::Memory
    }
}

impl<T: Drop> From<AllocFailed<T>> for Untaken {
    fn from(_: AllocFailed<T>) -> Untaken {
        Untaken::Memory
    }
}

/// A file that is asked for: its name as it is written, and the line that asks.
#[derive(Drop)]
pub struct Wanted {
    pub name: String,
    pub by: FileLine,
}

/// The files that are read.
#[derive(Drop)]
pub struct Gathering {
    pub written: Vec<Written>,
    texts: Vec<Vec<u8>>,
    parts: Vec<Part>,
}

/// Whether bytes begin with the word `Include`.
fn begins_include(bytes: &[u8]) -> bool {
    front(bytes, INCLUDE.len()).eq_ignore_ascii_case(INCLUDE)
}

/// Whether bytes have the word `Include` anywhere.
pub fn has_include(bytes: &[u8]) -> bool {
    for at in 0..bytes.len() {
        if matches!(bytes[at], b'I' | b'i') && begins_include(from(bytes, at)) {
            return true;
        }
    }
    false
}

/// The parts of a file of a number, by its text with its texts joined.
fn parts_in(alloc: Global, number: usize, text: &[u8]) -> Result<Vec<Part>, Untaken>
    ensures { IfOk result (λ parts. HasParts number text.now parts.items) }
{
    match parts_of(alloc, number, text) {
        Ok(parts) => Ok(parts),
        Err(placed) if placed.offset.is_some() => Err(Untaken::Broken(placed)),
        Err(_) => Err(Untaken::Memory),
    }
}

impl Gathering {
    ghost use Rattle.std.specs.Prelude.{◌≡◌, ◌∷◌, ◌++◌, [], IfOk, IfNone, OnOk, None};
    ghost use Rattle.derive_joined.specs.Included as included;
    ghost use Rattle.inform_places.specs.Source as spec;

    /// Nothing is read.
    pub fn new(alloc: Global) -> Gathering
        ensures { spec.IsEmpty result }
    {
        Gathering {
            written: Vec::new(alloc),
            texts: Vec::new(alloc),
            parts: Vec::new(alloc),
        }
    }

    /// The file that is asked for by this text.
    fn wanted(&self, alloc: Global, name: Run) -> Result<Wanted, AllocError> {
        let bytes = bytes_of(&self.texts, name);
        let mut text = String::new(alloc);
        for byte in bytes {
            if *byte != b'"' {
                text.push(char::from(*byte))?;
            }
        }
        let line = match self.texts.get(name.file) {
            Some(text) => line_of(text, name.begin),
            None => 1,
        };
        let file = name.file;
        Ok(Wanted {
            name: text,
            by: FileLine { file, line },
        })
    }

    /// The file that is asked for next; `None` where all are there.
    ///
    /// # Errors
    ///
    /// `AllocError` where memory is refused.
    pub fn next(&self, alloc: Global) -> Result<Option<Wanted>, AllocError>
        ensures { IfOk result (λ wanted.
            IfNone wanted (included.first_asked self.now.parts.items ≡ None)) }
    {
        match first_asked(&self.parts) {
            Some(name) => match self.wanted(alloc, name) {
                Ok(wanted) => Ok(Some(wanted)),
                Err(refusal) => Err(refusal),
            },
            None => Ok(None),
        }
    }

    /// Takes the bytes of a file in the place of the first directive that asks for one.
    ///
    /// # Errors
    ///
    /// The bytes are no tokens, or memory was refused.
    pub fn take(&mut self, alloc: Global, file: Written) -> Result<(), Untaken>
        ensures files { OnOk result
            (self.new.written.items ≡ self.old.written.items ++ file ∷ []) }
        ensures gathered { OnOk result (spec.IsGathered self.old → spec.IsGathered self.new) }
    {
        let text = joined(alloc, &file.bytes)?;
        self.written.push(file)?;
        let parts = parts_in(alloc, self.texts.len(), &text)?;
        self.texts.push(text)?;
        self.parts = included(alloc, &parts, &self.parts)?;
        Ok(())
    }

    /// How many bytes the files have.
    pub fn size(&self) -> usize {
        let mut size = 0_usize;
        for file in &self.written {
            size = size.saturating_add(file.bytes.len());
        }
        size
    }

    /// Begins with the main file.
    ///
    /// # Errors
    ///
    /// The bytes are no tokens, or memory was refused.
    pub fn begin(&mut self, alloc: Global, name: &str, bytes: Vec<u8>) -> Result<(), Untaken>
        requires { spec.IsEmpty self.old }
        ensures files { OnOk result (spec.bytes_gathered self.new ≡ bytes.items ∷ []) }
        ensures gathered { OnOk result (spec.IsGathered self.new) }
    {
        let text = joined(alloc, &bytes)?;
        let main = Written::main(alloc, name, bytes)?;
        self.written.push(main)?;
        self.parts = parts_in(alloc, 0, &text)?;
        self.texts.push(text)?;
        Ok(())
    }

    /// The files, once all are there.
    ///
    /// # Errors
    ///
    /// `AllocError` where memory is refused.
    pub fn finish(self, alloc: Global) -> Result<Files, AllocError>
        requires gathered { spec.IsGathered self }
        requires all_there { included.first_asked self.parts.items ≡ None }
        ensures files { IfOk result (λ files. files.written ≡ self.written) }
        ensures source { IfOk result (λ files.
            spec.IsSourceOf (spec.all_bytes files) (spec.source_of files)) }
    {
        if self.written.len() == 1 {
            return Ok(Files::of_one(self.written));
        }
        Files::of_parts(alloc, self.written, self.texts, self.parts)
    }
}
