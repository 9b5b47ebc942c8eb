//! What is in story files, without running them.

use crate::names::FileName;
use crate::unread::{Obstacle, regular_story};
use crate::{UNREADABLE, broken};
use iff_files::BlorbFault;
use messages_explanations::Program;
use session::LoadFault;
use session_keeping::refuse;
use session_run::RunFault;
use std::fmt::Display;
use std::io;
use std::process::ExitCode;
use survey::{Brief, Columns, Mode, Survey, Verdict};
use terminal::play::{Format, place_of};

/// The status of a story that does not load.
const REFUSED: u8 = 1;

/// The status of a story that loads and reaches an opcode that the machine does not play, or not
/// with such operands.
const OUTSIDE: u8 = 6;

/// The status of a story that loads and whose length or sum is not what its header states. That of
/// several files has the bits of each of theirs: 7, for example, if some have status 1 and some 6.
const DAMAGED: u8 = 8;

/// Takes `--standard` out of the words of a command line that has `--check`, wherever it is before
/// `--`. Says for which machine the files are checked.
pub fn take_mode(given: &mut Vec<String>) -> Mode {
    if place_of(given, "--check").is_none() {
        return Mode::Profile;
    }
    match place_of(given, "--standard") {
        Some(place) => {
            given.remove(place);
            Mode::Standard
        }
        None => Mode::Profile,
    }
}

/// Whether a word of a command line before `--` is `--format`, with another word than `take_format` takes or where there
/// is no `--check`.
pub fn has_format(given: &[String]) -> bool {
    for place in 1..given.len() {
        let word = given[place].as_str();
        if word == "--" {
            return false;
        }
        if word == "--format" || word.starts_with("--format=") {
            return true;
        }
    }
    false
}

/// Says the same as `check` of files, and of more that come after them.
pub fn check_all<'a>(
    rt: &HostRuntime,
    mut files: Vec<&'a str>,
    after: &'a [String],
    mode: Mode,
    format: Format,
) -> ExitCode {
    for file in after {
        if files.push(file.as_str()).is_err() {
            return refuse(rt, UNREADABLE);
        }
    }
    check(rt, &files, mode, format)
}

/// Says what is in the file of a name, or whether each of several files loads, a line for each. The
/// status has the bits of each of theirs.
fn check(rt: &HostRuntime, files: &[&str], mode: Mode, format: Format) -> ExitCode {
    match (files, format) {
        ([file], Format::Words) => check_alone(rt, file, mode),
        _ => check_each(rt, files, mode, format),
    }
}

/// The name of a file as a line shows it, so that it can be read back from a table.
fn shown(file: &str, format: Format) -> FileName<'_> {
    FileName {
        word: file,
        is_exact: matches!(format, Format::Columns),
    }
}

/// The columns of a table that tell nothing, from the fifth on.
fn rest(mode: Mode) -> &'static str {
    match mode {
        Mode::Profile => "\t\t\t\t\t",
        Mode::Standard => "\t\t\t\t\t\t\t\t",
    }
}

/// Says what is in a file.
fn check_alone(rt: &HostRuntime, file: &str, mode: Mode) -> ExitCode {
    let story = match regular_story(rt, file, mode) {
        Ok(Ok(story)) => story,
        Ok(Err(fault)) => return refuse_blorb(rt, fault),
        Err(cause) => {
            let name = shown(file, Format::Words);
            return refuse(rt, format_args!("cannot read {name}{cause}"));
        }
    };
    let Ok(survey) = Survey::read(rt.alloc(), story.as_slice(), mode) else {
        return refuse(rt, LoadFault::Memory);
    };
    if rt.print(&survey).is_err() {
        return broken(rt, RunFault::Writing);
    }
    match survey.verdict() {
        Verdict::Refused(fault) => refuse(rt, fault),
        verdict => ExitCode::from(status_of(verdict)),
    }
}

/// Says in a line for each file whether it loads.
fn check_each(rt: &HostRuntime, files: &[&str], mode: Mode, format: Format) -> ExitCode {
    let mut all = 0;
    for file in files {
        match check_in_line(rt, file, mode, format) {
            Ok(status) => all |= status,
            Err(_) => return broken(rt, RunFault::Writing),
        }
    }
    ExitCode::from(all)
}

/// Says in a line whether a file loads, and returns its status.
fn check_in_line(rt: &HostRuntime, file: &str, mode: Mode, format: Format) -> io::Result<u8> {
    let name = shown(file, format);
    let story = match regular_story(rt, file, mode) {
        Ok(Ok(story)) => story,
        Ok(Err(fault)) => return refused(rt, name, mode, format, fault),
        Err(cause) => return unread(rt, name, mode, format, cause),
    };
    let Ok(survey) = Survey::read(rt.alloc(), story.as_slice(), mode) else {
        return refused(rt, name, mode, format, LoadFault::Memory);
    };
    let status = status_of(survey.verdict());
    match print_in_line(rt, name, format, status, &survey) {
        Ok(()) => Ok(status),
        Err(error) => Err(error),
    }
}

/// Says in a line what was found in a file.
fn print_in_line(
    rt: &HostRuntime,
    name: FileName<'_>,
    format: Format,
    status: u8,
    survey: &Survey,
) -> io::Result<()> {
    match format {
        Format::Words => {
            let brief = Brief(survey);
            println!(rt; "{name}: {brief}")
        }
        Format::Columns => {
            let columns = Columns(survey);
            println!(rt; "{name}\t{status}\t{columns}")
        }
    }
}

/// Says in a line why a file is not read, and returns the status. The columns after the cause are
/// empty.
fn unread(
    rt: &HostRuntime,
    name: FileName<'_>,
    mode: Mode,
    format: Format,
    cause: Obstacle,
) -> io::Result<u8> {
    let printed = match format {
        Format::Words => println!(rt; "{name}: cannot be read{cause}"),
        Format::Columns => {
            let words = cause.words();
            let rest = rest(mode);
            println!(rt; "{name}\t{REFUSED}\tcannot be read\t{words}{rest}")
        }
    };
    match printed {
        Ok(()) => Ok(REFUSED),
        Err(error) => Err(error),
    }
}

/// Says in a line why there is no story to look at, and returns the status: a Blorb file has none, or
/// memory was refused.
fn refused<F: Display + Drop>(
    rt: &HostRuntime,
    name: FileName<'_>,
    mode: Mode,
    format: Format,
    fault: F,
) -> io::Result<u8> {
    let printed = match format {
        Format::Words => println!(rt; "{name}: {fault}"),
        Format::Columns => {
            let rest = rest(mode);
            println!(rt; "{name}\t{REFUSED}\t{fault}\t{rest}")
        }
    };
    match printed {
        Ok(()) => Ok(REFUSED),
        Err(error) => Err(error),
    }
}

/// Says why a Blorb file has no story that can be played.
fn refuse_blorb(rt: &HostRuntime, fault: BlorbFault) -> ExitCode {
    if let Some(explanation) = Program::Play.explanations().find(name_of(fault)) {
        let title = explanation.title;
        if println!(rt; "{fault}: {title}").is_err() {
            return broken(rt, RunFault::Writing);
        }
    }
    refuse(rt, fault)
}

/// The name by which it is explained why a Blorb file has no story.
pub fn name_of(fault: BlorbFault) -> &'static str {
    match fault {
        BlorbFault::Damaged => "Z10",
        BlorbFault::NoProgram => "Z11",
        BlorbFault::OtherProgram => "Z12",
    }
}

/// The status of a file by what is said of it.
fn status_of(verdict: Verdict) -> u8 {
    match verdict {
        Verdict::Loads => 0,
        Verdict::Refused(_) => REFUSED,
        Verdict::Needs => OUTSIDE,
        Verdict::Damaged => DAMAGED,
    }
}
