//! What a story was given for the names of saved games, as a session's file has it.

ghost use Rattle.std.specs.Prelude.{
  ◌≡◌,
  ◌<◌,
  ◌≤◌,
  ◌+◌,
  ◌++◌,
  ◌∷◌,
  ℕ,
  List,
  Some,
  IfErr,
  IfOk,
  OnOk,
  string_bytes,
};
ghost use Rattle.std.specs.Fmt.{decimal};
ghost use Rattle.std.specs.Io.KnownBytes.{Appends};
ghost use Rattle.session_keeping.specs.Answers as definitions;
ghost use Rattle.session_keeping.specs.Answers.{
  Faults,
  IsRead,
  after_space,
  answer_line,
  answer_text,
  answers_of,
  before_space,
  given_of,
  number_of,
  told,
};
ghost use Rattle.session_keeping.specs.Kept.{kept_lines};
ghost use Rattle.session_keeping.specs.Lines.{IsUnmarked};

use crate::lines::{ANSWER, LinesFault, NEW_LINE, TYPED, cut_line, has_mark};
use base64::DecodeAllocError;
use base64::engine::general_purpose::STANDARD;
use std::alloc::{AllocError, Global};
use std::collections::VecDeque;
use std::io::{self, Write};

/// What is between the number of what was given and the bytes of a file that was read.
const BETWEEN: u8 = b' ';

/// What a story was given for a name.
#[derive(Drop)]
pub struct Answer {
    /// The number of the line that was the name, counted from 1.
    pub line: usize,

    /// What the story was given: a number, and then the bytes of a file that was read.
    pub given: Vec<u8>,
}

/// The answers in whole lines of play with their marks, in order.
///
/// # Errors
///
/// Those of [`LinesFault`].
pub fn answers_in(alloc: Global, mut kept: &[u8]) -> Result<VecDeque<Answer>, LinesFault>
    ensures ok { IfOk result (λ answers.
        answers_of 0 (kept_lines kept.entry.now) ≡ Some (told answers.items)) }
    ensures err { IfErr result (Faults (answers_of 0 (kept_lines kept.entry.now))) }
{
    let mut answers = VecDeque::new(alloc);
    let mut typed: usize = 0;
    let mut number: usize = 1;
    while let Some((line, rest)) = cut_line(kept) {
        match add_answer(alloc, &mut answers, typed, line, number) {
            Ok(count) => typed = count,
            Err(fault) => return Err(fault),
        }
        number = number.saturating_add(1);
        kept = rest;
    }
    Ok(answers)
}

/// Adds the answer that a line is, if it is one, to those before. It answers how many lines were typed up to this
/// one, of which there were so many before.
///
/// # Errors
///
/// Those of [`LinesFault`], by the number of the line.
fn add_answer(
    alloc: Global,
    answers: &mut VecDeque<Answer>,
    typed: usize,
    line: &[u8],
    number: usize,
) -> Result<usize, LinesFault>
    requires { typed < usize.MAX }
    ensures ok { IfOk result (λ count.
        IsRead typed line.now answers.old.items answers.new.items count) }
    ensures count { IfOk result (λ count. count ≤ typed + 1) }
    ensures err { IfErr result (λ fault.
        (lines : List (List ℕ)) → Faults (answers_of typed (line.now ∷ lines)) fault) }
{
    if has_mark(line, TYPED) {
        return Ok(typed + 1);
    }
    if !has_mark(line, ANSWER) {
        return Ok(typed);
    }
    match given_in(alloc, &line[1..], number) {
        Ok(given) => match answers.push_back(Answer { line: typed, given }) {
            Ok(()) => Ok(typed),
            Err(_) => Err(LinesFault::Memory),
        },
        Err(fault) => Err(fault),
    }
}

/// What was given, by its text in the line of this number.
///
/// # Errors
///
/// It is malformed; memory was refused.
pub(crate) fn given_in(alloc: Global, text: &[u8], number: usize) -> Result<Vec<u8>, LinesFault>
    ensures { IsUnmarked (given_of text.now) result }
{
    if text.is_empty() {
        return Ok(Vec::new(alloc));
    }
    let (code, bytes) = cut_text(text);
    let Some(code) = number_in(code) else {
        return Err(LinesFault::Unmarked(number));
    };
    match STANDARD.decode(alloc, bytes) {
        Ok(bytes) => with_code(alloc, code, &bytes),
        Err(DecodeAllocError::OutOfMemory) => Err(LinesFault::Memory),
        Err(DecodeAllocError::DecodeError(_)) => Err(LinesFault::Unmarked(number)),
    }
}

/// What of a text is before its first space, and what is after it.
fn cut_text(text: &[u8]) -> (&[u8], &[u8])
    ensures before { result.0.now ≡ before_space text.now }
    ensures after { result.1.now ≡ after_space text.now }
{
    for at in 0..text.len() {
        if text[at] == BETWEEN {
            return (&text[..at], &text[at + 1..]);
        }
    }
    (text, &[])
}

/// The number below 256 that a text has in decimal digits.
fn number_in(text: &[u8]) -> Option<u8>
    ensures { result ≡ number_of text.now }
{
    if text.is_empty() {
        return None;
    }
    let mut number = 0;
    for byte in text {
        match with_digit(number, *byte) {
            Some(longer) => number = longer,
            None => return None,
        }
    }
    Some(number)
}

/// A number with one digit more, if it is one and the number stays below 256.
fn with_digit(number: u8, digit: u8) -> Option<u8>
    ensures { result ≡ definitions.with_digit number digit }
{
    if digit < b'0' || digit > b'9' {
        return None;
    }
    let longer = 10 * u16::from(number) + u16::from(digit - b'0');
    if longer < 256 {
        Some(longer as u8)
    } else {
        None
    }
}

/// A number, and bytes after it.
fn with_code(alloc: Global, code: u8, bytes: &[u8]) -> Result<Vec<u8>, LinesFault>
    ensures { IsUnmarked (Some (code ∷ bytes.now)) result }
{
    let mut given = Vec::new(alloc);
    if given.push(code).is_err() || given.extend_from_slice(bytes).is_err() {
        return Err(LinesFault::Memory);
    }
    Ok(given)
}

/// Adds what a story is given for a name to the end of a session's file, and flushes it.
///
/// # Errors
///
/// That of the file, or want of memory.
pub fn keep_answer<W: Write>(alloc: Global, file: &mut W, given: &[u8]) -> io::Result<()>
    ensures { OnOk result
        (Appends (W.contents file.old) (W.contents file.new) (answer_line given.now)) }
{
    let line = line_of(alloc, given)?;
    file.write_all(&line)?;
    file.flush()
}

/// The line of what is given for a name, with its mark and its end.
fn line_of(alloc: Global, given: &[u8]) -> Result<Vec<u8>, AllocError>
    ensures { IfOk result (λ line. line.items ≡ answer_line given.now) }
{
    let mut line = Vec::new(alloc);
    line.push(ANSWER)?;
    match given.split_first() {
        Some((number, bytes)) => add_given(alloc, &mut line, *number, bytes)?,
        None => {}
    }
    line.push(NEW_LINE)?;
    Ok(line)
}

/// Adds the text of what is given for a name: its number, and the text of the bytes of a file that was read.
fn add_given(alloc: Global, line: &mut Vec<u8>, number: u8, bytes: &[u8]) -> Result<(), AllocError>
    ensures { OnOk result (line.new.items ≡ line.old.items ++ answer_text (number ∷ bytes.now)) }
{
    let number = number_text(alloc, number)?;
    let bytes = bytes_text(alloc, bytes)?;
    line.extend_from_slice(number.as_bytes())?;
    line.extend_from_slice(bytes.as_bytes())?;
    Ok(())
}

/// A number in decimal digits.
fn number_text(alloc: Global, number: u8) -> Result<String, AllocError>
    ensures { IfOk result (λ text. string_bytes text ≡ decimal number) }
{
    format!(in alloc; "{number}")
}

/// The text of the bytes of a file that was read, after a space; nothing where there are none.
fn bytes_text(alloc: Global, bytes: &[u8]) -> Result<String, AllocError>
    ensures { IfOk result (λ text. string_bytes text ≡ definitions.bytes_text bytes.now) }
{
    if bytes.is_empty() {
        return Ok(String::new(alloc));
    }
    let text = STANDARD.encode(alloc, bytes)?;
    format!(in alloc; " {text}")
}
