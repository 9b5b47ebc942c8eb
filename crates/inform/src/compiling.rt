//! A source as it was written, and what is compiled: where it is extended, the source that it stands for.

ghost use Rattle.std.specs.Prelude.{◌≡◌, IfOk, IsFalse};
ghost use Rattle.inform_places.specs.Source.{source_of};
ghost use Rattle.inform.specs.Files.{AreFiles};

use crate::gathering::gather;
use crate::refusals::{refused, refused_in};
use derive::{Origins, extended};
use derive_joined::joined;
use inform_places::{Files, Places, Written, has_include};
use messages_advice::source_sentence;
use messages_diagnosis::Shown;
use messages_parts::located;
use std::alloc::{AllocError, Global};
use std::process::ExitCode;
use syntax_lexer::{PlacedFault, SourceFault, lex_placed};
use terminal::OneLine;
use terminal::inform::Words;

/// A source as it was written, and what it stands for if it is extended.
#[derive(Drop)]
pub struct Texts {
    pub files: Files,
    derived: Option<Vec<u8>>,
}

impl Texts {
    ghost use Rattle.std.specs.Prelude.{◌≡◌, IfOk};
    ghost use Rattle.inform.specs.Compiled as spec;

    /// The source that words name, whose main file was written so; or else the status with which the
    /// program ends, which has said why it stands for none: if that is asked for, at a terminal in more
    /// words.
    pub fn of(
        rt: &HostRuntime,
        words: Words<'_>,
        written: Vec<u8>,
        is_told: bool,
    ) -> Result<Texts, ExitCode>
        ensures { IfOk result (λ texts.
            spec.Compiles words.entry.is_extended written.items texts) }
    {
        let files = files_of(rt, words, written, is_told)?;
        if !words.is_extended {
            return Ok(Texts {
                files,
                derived: None,
            });
        }
        match extended(rt.alloc(), files.source()) {
            Ok(text) => Ok(Texts {
                files,
                derived: Some(text),
            }),
            Err(placed) => Err(refuse(rt, words, &files, placed)),
        }
    }

    /// What is compiled.
    pub fn compiled(&self) -> &[u8]
        ensures { result.now ≡ spec.compiled_of self.now }
    {
        match &self.derived {
            Some(text) => text,
            None => self.files.source(),
        }
    }

    /// Where what is compiled comes from; `None` where it is what was written.
    ///
    /// # Errors
    ///
    /// `AllocError` where memory is refused.
    pub fn origins(&self, alloc: Global) -> Result<Option<Origins<'_>>, AllocError> {
        match &self.derived {
            Some(text) => match Origins::of(alloc, self.files.source(), text) {
                Ok(origins) => Ok(Some(origins)),
                Err(refusal) => Err(refusal),
            },
            None => Ok(None),
        }
    }

    /// Where faults of what is compiled are in the source that was written.
    ///
    /// # Errors
    ///
    /// `AllocError` where memory is refused.
    pub fn places(&self, alloc: Global) -> Result<Places<'_>, AllocError> {
        match self.origins(alloc) {
            Ok(origins) => Ok(Places {
                files: &self.files,
                origins,
            }),
            Err(refusal) => Err(refusal),
        }
    }
}

/// The files of the source that words name, whose main file was written so.
fn files_of(
    rt: &HostRuntime,
    words: Words<'_>,
    written: Vec<u8>,
    is_told: bool,
) -> Result<Files, ExitCode>
    ensures files { IfOk result (AreFiles written.items) }
    ensures plain { IsFalse words.entry.is_extended
        → IfOk result (λ files. source_of files ≡ written.items) }
{
    if words.is_extended && has_include(&written) {
        return gather(rt, words, written, is_told);
    }
    match Files::of_main(rt.alloc(), words.source, written) {
        Ok(files) => Ok(files),
        Err(refusal) => Err(refused(rt, SourceFault::from(refusal))),
    }
}

/// What is wrong with a source whose bytes are no tokens, once its texts are joined.
fn sentence_of_bytes(alloc: Global, written: &[u8]) -> Result<Option<String>, AllocError> {
    let text = joined(alloc, written)?;
    match lex_placed(alloc, &text) {
        Ok(_) => Ok(None),
        Err(placed) => match placed.offset {
            Some(offset) => source_sentence(alloc, &text, placed.fault.number, offset),
            None => Ok(None),
        },
    }
}

/// What is said of a name that a pass refuses, which stands in a text at an offset.
fn sentence_of_name(text: &[u8], offset: usize) -> &'static str {
    let rest = text.split_at(offset.min(text.len())).1;
    if rest.starts_with(b"x__") || rest.starts_with(b"X__") {
        "names that begin with x__ are the compiler's own"
    } else {
        "no class of this name is defined before it"
    }
}

/// What is said of a fault of a pass, for which an extended source stands for no other.
fn sentence_of(placed: PlacedFault, text: &[u8]) -> &'static str {
    match placed.fault.number {
        2 => "this is no text, or none that may be a dictionary word",
        5 => "more than 100 brackets are open here",
        10 => "Ifdef, Ifndef, Iftrue, Iffalse, Ifnot or Endif does not fit here",
        20 => sentence_of_name(text, placed.offset.unwrap_or(0)),
        24 => "there are too many arguments, or too many texts or routines as values",
        _ => "memory was refused",
    }
}

/// Says why an extended source stands for no other, and where, if that is asked for.
fn refuse(rt: &HostRuntime, words: Words<'_>, files: &Files, placed: PlacedFault) -> ExitCode {
    match files.placed(rt.alloc(), placed) {
        Ok((number, there)) => match files.all().get(number) {
            Some(file) => refuse_bytes(rt, words, file, number, there),
            None => refused(rt, placed.fault),
        },
        Err(refusal) => refused(rt, SourceFault::from(refusal)),
    }
}

/// Says that a fault is in the file of a number, and where, if that is asked for.
pub fn refuse_bytes(
    rt: &HostRuntime,
    words: Words<'_>,
    file: &Written,
    number: usize,
    placed: PlacedFault,
) -> ExitCode {
    let name = file.name.as_str();
    let status = refused_in(rt, name, number, placed.fault);
    if words.show {
        let of_bytes = sentence_of_bytes(rt.alloc(), &file.bytes).unwrap_or(None);
        let shown = Shown {
            source: &file.bytes,
            name: OneLine(name),
            sentence: match &of_bytes {
                Some(sentence) => sentence.as_str(),
                None => sentence_of(placed, &file.bytes),
            },
            diagnosis: located(&file.bytes, placed),
        };
        let _ = eprint!(rt; "{shown}");
    }
    status
}
