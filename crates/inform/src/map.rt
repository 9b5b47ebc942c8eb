//! Writing the map of a story.

use crate::compiling::Texts;
use crate::misused;
use crate::output::{is_one_file, write_whole};
use crate::refusals::refused;
use derive::{Origins, plain_name};
use inform_places::{FileLine, Files};
use map_lines::map_of;
use map_text::{Row, heading, put_row, read_map};
use std::alloc::{AllocError, Global};
use std::process::ExitCode;
use syntax_lexer::SourceFault;
use terminal::OneLine;
use terminal::inform::Words;
use zcore::Version;

/// Whether a name leads to a file of a source.
pub fn is_of_source(rt: &HostRuntime, files: &Files, name: &str) -> bool {
    for file in files.all() {
        if is_one_file(rt, file.name.as_str(), name) {
            return true;
        }
    }
    false
}

/// What else the file of a map is, the source or the story; `None` if it is neither.
pub fn other_use(rt: &HostRuntime, files: &Files, story: &str, map: &str) -> Option<&'static str> {
    if is_of_source(rt, files, map) {
        Some("source")
    } else if story == map || is_one_file(rt, story, map) {
        Some("story")
    } else {
        None
    }
}

/// Says on standard error that the file of a map has another use.
pub fn in_other_use(rt: &HostRuntime, map: &str, used_as: &str) -> ExitCode {
    let name = OneLine(map);
    misused(rt, format_args!("cannot write {name}: it is the {used_as}"))
}

/// The line that was written of a row of the map of a spread source. That of a routine that is made is
/// the first for which it is made.
fn written_line(origins: &Origins<'_>, files: &Files, row: Row<'_>) -> FileLine {
    match origins.line(row.line) {
        Some(line) => files.line(line),
        None => files.line(origins.line_of(row.routine)),
    }
}

/// Puts a name as one word, and a colon.
fn put_word(out: &mut Vec<u8>, name: &str) -> Result<(), AllocError> {
    let last = match name.rsplit_once('/') {
        Some((_, last)) => last,
        None => name,
    };
    for byte in last.as_bytes() {
        let shown = if byte.is_ascii_graphic() { *byte } else { b'_' };
        out.push(shown)?;
    }
    out.push(b':')?;
    Ok(())
}

/// Puts a row of the map of a spread source, by the name of its routine and its line as they were
/// written. Before the name stands that of the file, if it is not the main one.
fn put_plain_row(
    out: &mut Vec<u8>,
    origins: &Origins<'_>,
    files: &Files,
    row: Row<'_>,
) -> Result<(), AllocError> {
    let written = written_line(origins, files, row);
    let alloc = *out.allocator();
    let mut routine = Vec::new(alloc);
    if written.file > 0 {
        put_word(&mut routine, files.name(written.file))?;
    }
    routine.extend_from_slice(plain_name(row.routine))?;
    put_row(
        out,
        Row {
            address: row.address,
            routine: &routine,
            line: written.line,
        },
    )
}

/// The map of the story of an extended source.
fn extended_map(
    alloc: Global,
    origins: &Origins<'_>,
    files: &Files,
    version: Version,
    story: &[u8],
) -> Result<Vec<u8>, SourceFault> {
    let spread = origins.spread(alloc)?;
    let text = map_of(alloc, &spread, version, story)?;
    let mut plain = heading(alloc, story)?;
    let Ok(rows) = read_map(alloc, &text, &plain) else {
        return Err(SourceFault::from(AllocError));
    };
    for row in &rows {
        put_plain_row(&mut plain, origins, files, *row)?;
    }
    Ok(plain)
}

/// The map of the story of a source.
fn map_in(
    alloc: Global,
    texts: &Texts,
    version: Version,
    story: &[u8],
) -> Result<Vec<u8>, SourceFault> {
    match texts.origins(alloc) {
        Ok(Some(origins)) => extended_map(alloc, &origins, &texts.files, version, story),
        Ok(None) => map_of(alloc, texts.compiled(), version, story),
        Err(refusal) => Err(SourceFault::from(refusal)),
    }
}

/// Writes the map of a story that was written, unless it leads to the same file.
pub fn put_map(
    rt: &HostRuntime,
    words: Words<'_>,
    map: &str,
    texts: &Texts,
    story: &[u8],
) -> ExitCode {
    if is_one_file(rt, words.story.unwrap_or(""), map) {
        return in_other_use(rt, map, "story");
    }
    let text = match map_in(rt.alloc(), texts, words.version, story) {
        Ok(text) => text,
        Err(fault) => return refused(rt, fault),
    };
    match write_whole(rt, map, &text) {
        Ok(()) => ExitCode::SUCCESS,
        Err(_) => misused(rt, format_args!("cannot write {}", OneLine(map))),
    }
}
