//! The lines of play, as a session's file has them.

ghost use Rattle.std.specs.Prelude.{◌≡◌, ◌≤◌, ◌<◌, ◌++◌, ℕ, List, false, length, take, drop, IfOk, OnOk};
ghost use Rattle.std.specs.Io.KnownBytes.{Appends};
ghost use Rattle.session_keeping.specs.Heading.{ended};
ghost use Rattle.session_keeping.specs.Kept as definitions;
ghost use Rattle.session_keeping.specs.Kept.{CutsLine, IsAside, is_passed, kept_lines, passed_line, taken_lines, taken_text, text_of};
ghost use Rattle.session_keeping.specs.Lines.{IsMarked, IsUnmarked, unmarked};

use crate::answers::given_in;
use std::alloc::{AllocError, Global};
use std::io::{self, Write};

/// The mark before a line that was typed.
pub(crate) const TYPED: u8 = b'>';

/// The mark before what a story was given for a name.
pub(crate) const ANSWER: u8 = b'<';

/// The mark, alone on its line, after a line that was not taken for want of memory.
const PASSED: u8 = b'!';

/// The byte that ends a line.
pub(crate) const NEW_LINE: u8 = b'\n';

/// Why lines of play are not read.
#[derive(Clone, Copy)]
pub enum LinesFault {
    /// The line of this number, counted from 1, has no mark that is known.
    Unmarked(usize),

    /// Memory was refused.
    Memory,
}

/// Adds typed bytes to others, with a mark before each line. Says whether a line is begun after them.
///
/// # Errors
///
/// Memory was refused.
pub(crate) fn mark(is_begun: bool, mut typed: &[u8], kept: &mut Vec<u8>) -> Result<bool, AllocError>
    ensures { IfOk result (IsMarked is_begun typed.entry.now kept.old.items kept.new.items) }
{
    let mut is_begun = is_begun;
    while let [byte, rest @ ..] = typed {
        if !is_begun {
            kept.push(TYPED)?;
        }
        kept.push(*byte)?;
        is_begun = *byte != NEW_LINE;
        typed = rest;
    }
    Ok(is_begun)
}

/// The bytes that were typed, out of lines with their marks, without what was given for names.
///
/// # Errors
///
/// Those of [`LinesFault`].
pub fn lines_in(alloc: Global, mut kept: &[u8]) -> Result<Vec<u8>, LinesFault>
    ensures { IsUnmarked (unmarked false kept.entry.now) result }
{
    let mut typed = Vec::new(alloc);
    let mut is_begun = false;
    let mut is_answer = false;
    let mut number: usize = 1;
    while let [byte, rest @ ..] = kept {
        if is_begun {
            if !is_answer && typed.push(*byte).is_err() {
                return Err(LinesFault::Memory);
            }
            is_begun = *byte != NEW_LINE;
            number = number.saturating_add(usize::from(!is_begun));
        } else if *byte == TYPED || *byte == ANSWER {
            is_begun = true;
            is_answer = *byte == ANSWER;
        } else {
            return Err(LinesFault::Unmarked(number));
        }
        kept = rest;
    }
    Ok(typed)
}

/// The first line of a text without its end, and what follows it; `None` where the text has no whole line.
pub(crate) fn cut_line(text: &[u8]) -> Option<(&[u8], &[u8])>
    ensures { CutsLine text.now result }
{
    for at in 0..text.len() {
        if text[at] == NEW_LINE {
            return Some((&text[..at], &text[at + 1..]));
        }
    }
    None
}

/// Whether a line has this mark.
pub(crate) fn has_mark(line: &[u8], mark: u8) -> bool
    ensures { result ≡ definitions.has_mark mark line.now }
{
    match line {
        [] => false,
        [byte, ..] => *byte == mark,
    }
}

/// The lines of whole lines of play that were taken, with their marks, and what the story was given for them.
///
/// # Errors
///
/// Those of [`LinesFault`].
pub(crate) fn taken_in(alloc: Global, mut kept: &[u8]) -> Result<Vec<u8>, LinesFault>
    ensures { IfOk result (λ taken. taken.items ≡ taken_text kept.entry.now) }
{
    let mut taken = Vec::new(alloc);
    let mut aside = 0;
    let mut number: usize = 1;
    while let Some((line, rest)) = cut_line(kept) {
        check_line(alloc, line, number)?;
        match set_aside(&mut taken, aside, line) {
            Ok(begins) => aside = begins,
            Err(_) => return Err(LinesFault::Memory),
        }
        number = number.saturating_add(1);
        kept = rest;
    }
    Ok(taken)
}

/// Looks at the line of a number.
fn check_line(alloc: Global, line: &[u8], number: usize) -> Result<(), LinesFault> {
    if has_mark(line, ANSWER) {
        let _ = given_in(alloc, &line[1..], number)?;
    } else if !has_mark(line, TYPED) && !has_mark(line, PASSED) {
        return Err(LinesFault::Unmarked(number));
    }
    Ok(())
}

/// Adds a line to those that were taken, of which the line that was typed last begins at this place; or drops that
/// line and what follows it, where it was not taken. It answers where the line begins that was typed last now.
fn set_aside(taken: &mut Vec<u8>, aside: usize, line: &[u8]) -> Result<usize, AllocError>
    requires { aside ≤ length taken.old.items }
    ensures { IfOk result (IsAside line.now aside taken.old.items taken.new.items) }
{
    if has_mark(line, PASSED) {
        taken.truncate(aside);
        return Ok(aside);
    }
    let begins = taken.len();
    add_line(taken, line)?;
    Ok(if has_mark(line, TYPED) { begins } else { aside })
}

/// Adds a line and its end.
pub(crate) fn add_line(text: &mut Vec<u8>, line: &[u8]) -> Result<(), AllocError>
    ensures { OnOk result (text.new.items ≡ text.old.items ++ ended line.now) }
{
    text.extend_from_slice(line)?;
    text.push(NEW_LINE)?;
    Ok(())
}

/// Adds the mark of a line that was not taken to the end of a session's file, and flushes it.
///
/// # Errors
///
/// That of the file.
pub fn keep_passed<W: Write>(file: &mut W) -> io::Result<()>
    ensures { OnOk result (Appends (W.contents file.old) (W.contents file.new) passed_line) }
{
    file.write_all(&[PASSED, NEW_LINE])?;
    file.flush()
}

/// How many lines end within bytes.
pub fn count_lines(bytes: &[u8]) -> usize {
    let mut count: usize = 0;
    for byte in bytes {
        if *byte == NEW_LINE {
            count = count.saturating_add(1);
        }
    }
    count
}

/// How many bytes of a text are whole lines: those up to the end of the last of them.
pub fn whole_length(text: &[u8]) -> usize
    ensures { result ≤ length text.now }
{
    for after in 0..text.len() {
        let end = text.len() - after;
        if text[end - 1] == NEW_LINE {
            return end;
        }
    }
    0
}
