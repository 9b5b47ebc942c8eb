//! The words of the command line, of which the names of files need not be UTF-8.

use std::alloc::{AllocError, Global};
use std::env::{Env, FillError};
use std::{fmt, str};
use terminal::{Lines, OneLine};

/// A word that is not UTF-8 begins with this character, which no word of a command line has. In what
/// follows, the same stands before two hexadecimal digits for each byte that is no character.
const MARK: char = '\0';

/// How the path of an open descriptor begins; its number follows.
const DESCRIPTOR: &str = "/dev/fd/";

/// What stands between that path and the name of the file.
const BEFORE_NAME: &str = "//";

/// The bits of the length of the first buffer for a word, and of the last one.
const FIRST_BITS: u32 = 8;

const LAST_BITS: u32 = 31;

/// The words of the command line. One that is not UTF-8 is marked. `None` where memory is refused.
pub fn given_words(rt: &HostRuntime) -> Option<Vec<String>> {
    let mut words = Vec::new(rt.alloc());
    for number in 0..usize::MAX {
        match word_at(rt, number) {
            Ok(Some(word)) => words.push(word).ok()?,
            Ok(None) => break,
            Err(_) => return None,
        }
    }
    Some(words)
}

/// The name of a file on one line. `Display` writes bytes that are no characters as `\xff`, and else
/// what `OneLine` does; or, if it is exact, a backslash twice, a new line, a tab and a carriage return
/// as `\n`, `\t` and `\r`, and each byte of another sign that `OneLine` does not show as it is as
/// `\x1b`: from this all bytes of the name can be read back. Of a word with an open descriptor it is the name.
#[derive(Clone, Copy)]
pub struct FileName<'a> {
    /// The word of the command line, which may be marked.
    pub word: &'a str,

    /// Whether it is to be read back.
    pub is_exact: bool,
}

impl fmt::Display for FileName<'_> {
    fn fmt<W: fmt::Write>(&self, f: &mut fmt::Formatter<W>) -> fmt::Result {
        for sign in shown_part(self.word).chars() {
            match sign {
                MARK => f.write_str("\\x")?,
                _ if self.is_exact => write_exactly(f, sign)?,
                _ => write_plainly(f, sign)?,
            }
        }
        Ok(())
    }
}

/// What of a word is shown as the name of a file.
fn shown_part(word: &str) -> &str {
    match opened(word) {
        Some((_, name)) => name,
        None => word.strip_prefix(MARK).unwrap_or(word),
    }
}

/// Writes a character of a name as `OneLine` does.
fn write_plainly<W: fmt::Write>(f: &mut fmt::Formatter<W>, sign: char) -> fmt::Result {
    let mut buffer = [0; 4];
    let text = OneLine(sign.encode_utf8(&mut buffer));
    write!(f, "{text}")
}

/// Writes a character of a name so that it can be read back.
fn write_exactly<W: fmt::Write>(f: &mut fmt::Formatter<W>, sign: char) -> fmt::Result {
    let mut buffer = [0; 4];
    let text = sign.encode_utf8(&mut buffer);
    match sign {
        '\\' => f.write_str("\\\\"),
        '\n' => f.write_str("\\n"),
        '\t' => f.write_str("\\t"),
        '\r' => f.write_str("\\r"),
        _ if Lines(text).are_plain() => f.write_str(text),
        _ => write_bytes(f, text.as_bytes()),
    }
}

/// Writes bytes by their hexadecimal digits.
fn write_bytes<W: fmt::Write>(f: &mut fmt::Formatter<W>, bytes: &[u8]) -> fmt::Result {
    for byte in bytes {
        write!(f, "\\x{byte:02x}")?;
    }
    Ok(())
}

/// Whether a word of the command line is not UTF-8.
fn is_marked(word: &str) -> bool {
    word.starts_with(MARK)
}

/// The path of an open descriptor and the name of a file, of a word `/dev/fd/N//NAME` that is not UTF-8: a file with
/// such a name is opened by the shell alone, and shown by its name.
fn opened(word: &str) -> Option<(&str, &str)> {
    let (path, name) = word.strip_prefix(MARK)?.split_once(BEFORE_NAME)?;
    match path.strip_prefix(DESCRIPTOR)?.parse::<u32>() {
        Ok(_) => Some((path, name)),
        Err(_) => None,
    }
}

/// The path by which the file of a word is opened; `None` for one that is not UTF-8.
pub fn path_of(word: &str) -> Option<&str> {
    match opened(word) {
        Some((path, _)) => Some(path),
        None if is_marked(word) => None,
        None => Some(word),
    }
}

/// Whether one of several words is not.
pub fn has_marked(words: &[String]) -> bool {
    words.iter().any(|word| is_marked(word.as_str()))
}

/// The word of a number, marked if it is not UTF-8; `None` after the last one.
fn word_at(rt: &HostRuntime, number: usize) -> Result<Option<String>, AllocError> {
    let Some(bytes) = bytes_at(rt, number)? else {
        return Ok(None);
    };
    match str::from_utf8(&bytes) {
        Ok(text) => Ok(Some(String::from_str(rt.alloc(), text)?)),
        Err(_) => Ok(Some(marked(rt.alloc(), &bytes)?)),
    }
}

/// The bytes of the word of a number; `None` after the last one.
fn bytes_at(rt: &HostRuntime, number: usize) -> Result<Option<Vec<u8>>, AllocError> {
    let mut bytes = Vec::new(rt.alloc());
    for bits in FIRST_BITS..LAST_BITS {
        bytes.resize(1_usize << bits, 0)?;
        match rt.arg(number, &mut bytes) {
            Ok(length) => {
                bytes.truncate(length);
                return Ok(Some(bytes));
            }
            Err(FillError::NotPresent) => return Ok(None),
            Err(FillError::TooLong) => {}
        }
    }
    Err(AllocError)
}

/// The mark, and then the bytes of a word: those that are no characters by the mark and two digits.
fn marked(alloc: Global, bytes: &[u8]) -> Result<String, AllocError> {
    let mut word = String::new(alloc);
    word.push(MARK)?;
    for chunk in bytes.utf8_chunks() {
        word.push_str(chunk.valid())?;
        for byte in chunk.invalid() {
            word.push(MARK)?;
            word.push_str(format!(in alloc; "{byte:02x}")?.as_str())?;
        }
    }
    Ok(word)
}
