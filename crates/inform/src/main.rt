//! Compiles a source file to a story file, and explains faults.
#![tactic(auto)]

mod compiling;
mod gathering;
mod map;
mod naming;
mod output;
mod part;
mod refusals;
mod source;
mod warnings;

use crate::compiling::Texts;
use crate::map::{in_other_use, is_of_source, other_use, put_map};
use crate::naming::named_after;
use crate::output::{write_to, write_whole};
use crate::refusals::{limit_of, refuse, refuse_in_line, refused};
use crate::source::{cause_of, read_source};
use crate::warnings::warn;
use clap::Error;
use inform_places::{file_of_temporaries, in_plain_words};
use messages_diagnosis::{Figures, diagnose, measure};
use messages_explanations::Program;
use std::alloc::{AllocError, Global};
use std::fmt::Display;
use std::fs::File;
use std::io::IsTerminal;
use std::process::ExitCode;
use std::{env, io};
use syntax_lexer::SourceFault;
use terminal::OneLine;
use terminal::inform::{Asked, Words, command, words_of};

/// The exit status where the words of the command line or the files cannot be used.
const MISUSED: u8 = 2;

fn main(rt: HostRuntime) -> ExitCode {
    let alloc = rt.alloc();
    let given: Vec<String> = match env::args(&rt) {
        Ok(words) => match words.collect(alloc) {
            Ok(words) => words,
            Err(_) => return misused(&rt, "cannot read the command line"),
        },
        Err(_) => return misused(&rt, "cannot read the command line"),
    };
    match asked_of(&rt, given.as_slice()) {
        Ok(asked) => answer(&rt, asked),
        Err(status) => status,
    }
}

/// What the words of the command line ask for, or else the status with which the program ends, which has
/// said why. It is no part of `main`, whose frame is on the stack while a source is compiled.
#[inline(never)]
fn asked_of<'a>(rt: &HostRuntime, given: &'a [String]) -> Result<Option<Asked<'a>>, ExitCode> {
    let is_seen = rt.stderr().is_terminal();
    let Ok(command) = command(rt.alloc(), is_seen) else {
        return Err(misused(rt, "cannot read the command line"));
    };
    match words_of(command, given, is_seen) {
        Ok(asked) => Ok(asked),
        Err(error) => Err(unread(rt, error)),
    }
}

/// Does what the words of the command line ask for.
fn answer(rt: &HostRuntime, asked: Option<Asked<'_>>) -> ExitCode {
    match asked {
        Some(Asked::Compile(words)) => build(rt, words),
        Some(Asked::Explain(name)) => explain(rt, name),
        Some(Asked::Sizes(words)) => show_sizes(rt, words),
        Some(Asked::Derive(words)) => print_derived(rt, words),
        None => misused(rt, "the version after -v is 5 or 8"),
    }
}

/// Prints what is said of words that are refused, or the help or the version that they ask for.
fn unread(rt: &HostRuntime, error: Error) -> ExitCode {
    let status = if error.use_stderr() { MISUSED } else { 0 };
    match error.print(rt) {
        Ok(()) => ExitCode::from(status),
        Err(_) => ExitCode::from(MISUSED),
    }
}

/// Says on standard error what cannot be used.
pub(crate) fn misused<W: Display + Drop>(rt: &HostRuntime, what: W) -> ExitCode {
    let _ = eprintln!(rt; "inform: {what}");
    ExitCode::from(MISUSED)
}

/// Prints the explanation of a fault, or the names of all faults with their titles.
fn explain(rt: &HostRuntime, name: Option<&str>) -> ExitCode {
    let printed = match name {
        None => rt.print(Program::Inform.explanations()),
        Some(name) => match Program::Inform.explanations().find(name) {
            Some(explanation) => rt.print(explanation),
            None => {
                let name = OneLine(name);
                return misused(
                    rt,
                    format_args!("no fault is named {name}: --explain lists all"),
                );
            }
        },
    };
    match printed {
        Ok(()) => ExitCode::SUCCESS,
        Err(_) => misused(rt, "cannot write standard output"),
    }
}

/// The source in a file of this name; `None` where it is too large.
fn source_in(rt: &HostRuntime, name: &str) -> io::Result<Option<Vec<u8>>> {
    read_source(rt.alloc(), File::open(rt, name)?)
}

/// The source that words name, or else the status with which the program ends, which has said why.
fn texts_of(rt: &HostRuntime, words: Words<'_>, is_told: bool) -> Result<Texts, ExitCode> {
    let written = source_of(rt, words.source, is_told)?;
    Texts::of(rt, words, written, is_told)
}

/// The bytes of the source of a name, or else the status with which the program ends, which has said
/// why: at a terminal in more words, if that is asked for.
fn source_of(rt: &HostRuntime, source: &str, is_told: bool) -> Result<Vec<u8>, ExitCode> {
    let name = OneLine(source);
    match source_in(rt, source) {
        Ok(Some(source)) => Ok(source),
        Ok(None) => Err(misused(
            rt,
            format_args!("cannot read {name}: it is larger than 67,108,864 bytes"),
        )),
        Err(error) => {
            let status = misused(rt, format_args!("cannot read {name}"));
            tell_cause(rt, source, &error, is_told);
            Err(status)
        }
    }
}

/// Says at a terminal why the file of a name cannot be read, if that is known and is to be told.
pub(crate) fn tell_cause(rt: &HostRuntime, source: &str, error: &io::Error, is_told: bool) {
    if !is_told || !rt.stderr().is_terminal() {
        return;
    }
    if let Some(cause) = cause_of(rt, source, error) {
        let _ = eprintln!(rt; "inform: {cause}");
    }
}

/// Prints what the source takes, also where it is refused as too large.
fn show_sizes(rt: &HostRuntime, words: Words<'_>) -> ExitCode {
    let texts = match texts_of(rt, words, true) {
        Ok(texts) => texts,
        Err(status) => return status,
    };
    let limit = limit_of(words);
    match measure(rt.alloc(), texts.compiled(), words.version, limit) {
        Ok(figures) => print_figures(rt, words, &texts, figures),
        Err(fault) => refuse_in_line(rt, words, &texts, fault),
    }
}

/// The figures of what is compiled, by names and lines of the source that was written, and the number of
/// the file in which the expression with the most temporaries is.
fn plain_figures<'a>(
    alloc: Global,
    texts: &Texts,
    figures: Figures<'a>,
) -> Result<(Figures<'a>, usize), AllocError> {
    match texts.places(alloc) {
        Ok(places) => {
            let file = file_of_temporaries(alloc, &places, &figures)?;
            let plain = in_plain_words(alloc, &places, figures)?;
            Ok((plain, file))
        }
        Err(refusal) => Err(refusal),
    }
}

/// Prints the file in which the expression with the most temporaries is, unless it is the main one.
fn print_file(rt: &HostRuntime, texts: &Texts, file: usize) -> io::Result<()> {
    if file == 0 {
        return Ok(());
    }
    let name = OneLine(texts.files.name(file));
    rt.print(format_args!("the line of the temporaries is of {name}\n"))
}

/// Prints figures, and says why the source is refused where it is too large.
fn print_figures(
    rt: &HostRuntime,
    words: Words<'_>,
    texts: &Texts,
    figures: Figures<'_>,
) -> ExitCode {
    let (figures, file) = match plain_figures(rt.alloc(), texts, figures) {
        Ok(plain) => plain,
        Err(refusal) => return refused(rt, SourceFault::from(refusal)),
    };
    if rt.print(&figures).is_err() || print_file(rt, texts, file).is_err() {
        return misused(rt, "cannot write standard output");
    }
    match figures.story {
        Ok(_) => ExitCode::SUCCESS,
        Err(fault) => refuse_in_line(rt, words, texts, fault),
    }
}

/// Prints what an extended source stands for.
fn print_derived(rt: &HostRuntime, words: Words<'_>) -> ExitCode {
    let texts = match texts_of(rt, words, words.show) {
        Ok(texts) => texts,
        Err(status) => return status,
    };
    match write_to(rt.stdout(), texts.compiled()) {
        Ok(()) => ExitCode::SUCCESS,
        Err(_) => misused(rt, "cannot write standard output"),
    }
}

/// Compiles the source, and writes the story where no rule is broken.
fn build(rt: &HostRuntime, words: Words<'_>) -> ExitCode {
    let texts = match texts_of(rt, words, words.show) {
        Ok(texts) => texts,
        Err(status) => return status,
    };
    let limit = limit_of(words);
    match diagnose(rt.alloc(), texts.compiled(), words.version, limit) {
        Ok(story) => finish(rt, words, &texts, story.bytes()),
        Err(diagnosis) => refuse(rt, words, &texts, diagnosis),
    }
}

/// Warns of likely mistakes in an accepted source, if that is asked for, and writes the bytes of its
/// story, if a file for it is named.
fn finish(rt: &HostRuntime, words: Words<'_>, texts: &Texts, story: &[u8]) -> ExitCode {
    if words.warn {
        if let Err(refusal) = warn(rt, words.source, texts) {
            return refused(rt, SourceFault::from(refusal));
        }
    }
    match words.story {
        Some(name) => put_both(rt, words, name, texts, story),
        None if words.is_check => ExitCode::SUCCESS,
        None => put_named(rt, words, texts, story),
    }
}

/// Writes the bytes of a story to a file that is named after the source, and says to which.
fn put_named(rt: &HostRuntime, words: Words<'_>, texts: &Texts, story: &[u8]) -> ExitCode {
    let Ok(file) = named_after(rt.alloc(), words.source, words.version) else {
        return refused(rt, SourceFault::from(AllocError));
    };
    match put_or(rt, texts, file.as_str(), story) {
        None => {
            let name = OneLine(file.as_str());
            let _ = eprintln!(rt; "inform: wrote {name}");
            ExitCode::SUCCESS
        }
        Some(status) => status,
    }
}

/// Writes the bytes of a story, and its map, if a file for it is named.
fn put_both(
    rt: &HostRuntime,
    words: Words<'_>,
    file: &str,
    texts: &Texts,
    story: &[u8],
) -> ExitCode {
    let Some(map) = words.map else {
        return put_or(rt, texts, file, story).unwrap_or(ExitCode::SUCCESS);
    };
    if let Some(used_as) = other_use(rt, &texts.files, file, map) {
        return in_other_use(rt, map, used_as);
    }
    match put_or(rt, texts, file, story) {
        None => put_map(rt, words, map, texts, story),
        Some(status) => status,
    }
}

/// Writes the bytes of a story, unless its file is one of the source. The status, if it is not written;
/// then it has said why.
fn put_or(rt: &HostRuntime, texts: &Texts, file: &str, story: &[u8]) -> Option<ExitCode> {
    let name = OneLine(file);
    if is_of_source(rt, &texts.files, file) {
        return Some(misused(rt, format_args!("cannot write {name}: it is the source")));
    }
    match write_whole(rt, file, story) {
        Ok(()) => None,
        Err(_) => Some(misused(rt, format_args!("cannot write {name}"))),
    }
}
