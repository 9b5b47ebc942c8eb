//! Reading the files for which an extended source asks.

ghost use Rattle.std.specs.Prelude.{◌≤◌, length, IfOk, OnOk};
ghost use Rattle.inform_places.specs.Source.{IsEmpty};
ghost use Rattle.inform.specs.Files.{AreFiles};
ghost use Rattle.inform.specs.Gathered.{HasAll, TakesOne};

use crate::compiling::refuse_bytes;
use crate::output::is_one_file;
use crate::refusals::refused;
use crate::source::{MOST_BYTES, read_source};
use crate::{misused, tell_cause};
use derive_joined::origin;
use inform_places::{FileLine, Files, Gathering, Untaken, Wanted, Written, path_of};
use std::alloc::AllocError;
use std::fs::File;
use std::io;
use std::process::ExitCode;
use syntax_lexer::{PlacedFault, SourceFault};
use terminal::OneLine;
use terminal::inform::Words;

/// The most files that a source asks for.
const MOST_FILES: usize = 100;

/// How many files, one in another, may ask for one.
const DEEPEST: usize = 16;

/// Why a file that is asked for is not taken.
#[derive(Drop)]
enum Why {
    Unread(io::Error),
    TooLarge,
    Itself,
    TooMany,
    TooDeep,
}

impl Why {
    /// What is said after the line that asks.
    fn words(&self) -> &'static str {
        match self {
            Why::Unread(_) => "",
            Why::TooLarge => ", and with it the source is larger than 67,108,864 bytes",
            Why::Itself => ", which is a part of it",
            Why::TooMany => ", and a source asks for at most 100 files",
            Why::TooDeep => ", and files are at most 16 deep",
        }
    }
}

/// A file that is asked for and not taken.
#[derive(Drop)]
struct Asked {
    path: String,
    by: FileLine,
    why: Why,
}

/// Why the files of a source are not gathered.
#[derive(Drop)]
enum Refusal {
    Untaken(Untaken),
    Asked(Asked),
}

impl From<AllocError> for Refusal {
    fn from(_: AllocError) -> Refusal {
        Refusal::Untaken(Untaken::Memory)
    }
}

impl From<Untaken> for Refusal {
    fn from(why: Untaken) -> Refusal {
        Refusal::Untaken(why)
    }
}

/// Why a file may not be asked for there, by where it would be.
fn excess(rt: &HostRuntime, written: &[Written], path: &str, by: FileLine) -> Option<Why> {
    let mut at = by.file;
    for _ in 0..DEEPEST {
        let file = written.get(at)?;
        if file.name.as_str() == path || is_one_file(rt, file.name.as_str(), path) {
            return Some(Why::Itself);
        }
        at = file.asked?.file;
    }
    Some(Why::TooDeep)
}

/// The bytes of a file that is asked for, or else why it is not taken.
fn read(rt: &HostRuntime, gathering: &Gathering, path: &str, by: FileLine) -> Result<Vec<u8>, Why>
    ensures { IfOk result (λ _. length gathering.now.written.items ≤ 100) }
{
    if gathering.written.len() > MOST_FILES {
        return Err(Why::TooMany);
    }
    if let Some(why) = excess(rt, &gathering.written, path, by) {
        return Err(why);
    }
    match bytes_in(rt, path) {
        Ok(Some(bytes)) => {
            if gathering.size().saturating_add(bytes.len()) <= MOST_BYTES {
                Ok(bytes)
            } else {
                Err(Why::TooLarge)
            }
        }
        Ok(None) => Err(Why::TooLarge),
        Err(error) => Err(Why::Unread(error)),
    }
}

/// Reads a file that is asked for, and takes it.
fn include(
    rt: &HostRuntime,
    words: Words<'_>,
    gathering: &mut Gathering,
    wanted: Wanted,
) -> Result<(), Refusal>
    ensures { OnOk result (TakesOne gathering.old gathering.new) }
{
    let by = wanted.by;
    let path = path_of(rt, words, wanted.name.as_str())?;
    match read(rt, gathering, path.as_str(), by) {
        Ok(bytes) => {
            let file = Written {
                name: path,
                bytes,
                asked: Some(by),
            };
            gathering.take(rt.alloc(), file)?;
            Ok(())
        }
        Err(why) => Err(Refusal::Asked(Asked { path, by, why })),
    }
}

/// Reads all files of a source whose main one has these bytes.
fn read_all(
    rt: &HostRuntime,
    words: Words<'_>,
    gathering: &mut Gathering,
    bytes: Vec<u8>,
) -> Result<(), Refusal>
    requires { IsEmpty gathering.old }
    ensures { OnOk result (HasAll bytes.items gathering.new) }
{
    gathering.begin(rt.alloc(), words.source, bytes)?;
    while let Some(wanted) = gathering.next(rt.alloc())? {
        include(rt, words, gathering, wanted)?;
    }
    Ok(())
}

/// The bytes of a file; `None` where it is too large.
fn bytes_in(rt: &HostRuntime, path: &str) -> io::Result<Option<Vec<u8>>> {
    read_source(rt.alloc(), File::open(rt, path)?)
}

/// Says that a file is not taken that is asked for.
fn tell_asked(rt: &HostRuntime, written: &[Written], asked: &Asked, is_told: bool) -> ExitCode {
    let asker = match written.get(asked.by.file) {
        Some(file) => file.name.as_str(),
        None => "",
    };
    let (path, asker, line) = (OneLine(asked.path.as_str()), OneLine(asker), asked.by.line);
    let more = asked.why.words();
    let status = misused(
        rt,
        format_args!("cannot read {path}: line {line} of {asker} asks for it{more}"),
    );
    if let Why::Unread(error) = &asked.why {
        tell_cause(rt, asked.path.as_str(), error, is_told);
    }
    status
}

/// Says why the bytes of the file that was read last are no tokens.
fn tell_broken(
    rt: &HostRuntime,
    words: Words<'_>,
    written: &[Written],
    placed: PlacedFault,
) -> ExitCode {
    let number = written.len().saturating_sub(1);
    let (Some(file), Some(offset)) = (written.get(number), placed.offset) else {
        return refused(rt, placed.fault);
    };
    match origin(rt.alloc(), &file.bytes, offset) {
        Ok(at) => {
            let there = PlacedFault {
                fault: placed.fault,
                offset: Some(at),
            };
            refuse_bytes(rt, words, file, number, there)
        }
        Err(refusal) => refused(rt, SourceFault::from(refusal)),
    }
}

/// Says why the files of a source are not gathered.
fn tell(
    rt: &HostRuntime,
    words: Words<'_>,
    gathering: &Gathering,
    refusal: &Refusal,
    is_told: bool,
) -> ExitCode {
    match refusal {
        Refusal::Untaken(Untaken::Memory) => refused(rt, SourceFault::from(AllocError)),
        Refusal::Untaken(Untaken::Broken(placed)) => {
            tell_broken(rt, words, &gathering.written, *placed)
        }
        Refusal::Asked(asked) => tell_asked(rt, &gathering.written, asked, is_told),
    }
}

/// The files of an extended source whose main one has these bytes, or else the status with which the
/// program ends, which has said why: if that is asked for, at a terminal in more words.
///
/// # Errors
///
/// The status.
pub fn gather(
    rt: &HostRuntime,
    words: Words<'_>,
    bytes: Vec<u8>,
    is_told: bool,
) -> Result<Files, ExitCode>
    ensures { IfOk result (AreFiles bytes.items) }
{
    let mut gathering = Gathering::new(rt.alloc());
    match read_all(rt, words, &mut gathering, bytes) {
        Ok(()) => match gathering.finish(rt.alloc()) {
            Ok(files) => Ok(files),
            Err(refusal) => Err(refused(rt, SourceFault::from(refusal))),
        },
        Err(refusal) => Err(tell(rt, words, &gathering, &refusal, is_told)),
    }
}
