//! Why no text, no character and no word begins at a quote (E02).

use crate::forms::{Part, absent, some, told};
use crate::runs::{Class, byte_of_line, run_length};
use messages_parts::{ACCENTS, APOSTROPHES};
use std::alloc::{AllocError, Global};
use syntax_lexer::{from, front};

/// What is wrong with a text that is not closed, where so many quotes are before it in its line.
fn unclosed(rest: &[u8], quotes: usize) -> &'static str {
    if quotes > 0 || !has_letter(rest) {
        "this quote is not closed on its line: one is missing here or before it"
    } else {
        "this quote is not closed on its line: write '\"' at the end of the text, or of each part of a long one"
    }
}

/// Whether a letter or a digit is in the line with which some bytes begin.
fn has_letter(bytes: &[u8]) -> bool {
    for byte in bytes {
        if *byte == b'\n' {
            return false;
        }
        if byte.is_ascii_alphanumeric() {
            return true;
        }
    }
    false
}

/// What is wrong with a `\`, before the next byte.
fn backslash(next: Option<u8>) -> &'static str {
    match next {
        Some(b'n') => "'\\' is not allowed in a text: write '^' for a new line",
        Some(b'"') => "'\\' is not allowed in a text: write '~' for a double quote",
        Some(b'\'') => "'\\' is not allowed in a text: write the quote alone",
        Some(b't') => "'\\' is not allowed in a text: write spaces",
        None => "'\\' is not allowed in a text: end the text, and go on with another item",
        Some(_) => "'\\' is not allowed in a text: write '(char) 92' as an item of its own",
    }
}

/// What is wrong with a text, from the byte after its quote on. So many quotes are before it in its
/// line.
fn text(alloc: Global, rest: &[u8], quotes: usize) -> Result<Option<String>, AllocError> {
    let length = run_length(Class::Text, rest);
    let sentence = match byte_of_line(rest, length) {
        None => unclosed(rest, quotes),
        Some(b'"') => return Ok(None),
        Some(b'\\') => backslash(byte_of_line(rest, length.saturating_add(1))),
        Some(b'@') =>
            "'@' is not allowed in a text: write '(char) 64' as an item of its own, or a letter without accents",
        Some(_) => return misplaced(alloc, from(rest, length), "in a text"),
    };
    some(String::from_str(alloc, sentence))
}

/// Whether bytes begin with a quote, a dash or a mark that editors put in the place of one of ASCII.
fn is_typographic(bytes: &[u8]) -> bool {
    matches!(bytes, [0xE2, 0x80 | 0x89, _, ..] | [0x91..=0x97, ..])
}

/// What to write in the place of a byte with which some bytes begin, and which does not print.
fn instead_of_byte(bytes: &[u8], byte: u8) -> &'static str {
    if is_typographic(bytes) {
        "write straight quotes, '-', '..', '<=' or '>='"
    } else if !byte.is_ascii() {
        ACCENTS.instead
    } else if byte == b'\t' {
        "write spaces"
    } else {
        "remove it"
    }
}

/// That the first of some bytes is not allowed in a place.
pub fn misplaced(
    alloc: Global,
    bytes: &[u8],
    place: &'static str,
) -> Result<Option<String>, AllocError> {
    let Some(byte) = bytes.first().copied() else {
        return Ok(None);
    };
    if matches!(byte, b' '..=b'~') {
        let parts = [Part::Letter(byte), Part::Text(place)];
        return some(told(alloc, "'*' is not allowed *: leave it out", &parts));
    }
    let instead = Part::Text(instead_of_byte(bytes, byte));
    let parts = [Part::Number(byte as usize), Part::Text(place), instead];
    some(told(alloc, "byte * is not allowed *: *", &parts))
}

/// Whether two slashes stand side by side.
fn has_two_slashes(bytes: &[u8]) -> bool {
    for at in 1..bytes.len() {
        if bytes[at - 1] == b'/' && bytes[at] == b'/' {
            return true;
        }
    }
    false
}

/// What is wrong with what stands between single quotes, if no other byte than may stand there.
fn content(bytes: &[u8]) -> &'static str {
    let word = match bytes {
        [] => return "there is nothing between the quotes: write a letter or a word",
        [_] => return "'^' alone is not a character: write 94",
        [word @ .., b'/', b'/'] => word,
        _ => bytes,
    };
    if word.is_empty() {
        "there is nothing before the two slashes"
    } else if has_two_slashes(word) {
        "two slashes are allowed only at the end of a word: leave them out"
    } else {
        "a word may not contain a space: write a text in double quotes, or each word in its own"
    }
}

/// Where a character or a word is not closed, and which bytes are before its quote.
fn unclosed_word(before: &[u8]) -> &'static str {
    match before {
        [.., b'n' | b'N'] => {
            "no name has an apostrophe: write 'hasnt' for a test, texts in double quotes, '!' before a comment"
        }
        [.., last] if last.is_ascii_alphanumeric() => {
            "no name has an apostrophe: write 'lamp.size' for a property, texts in double quotes, '!' before a comment"
        }
        _ => "this quote is not closed on its line: write another one at the end of the word",
    }
}

/// Whether a single quote is between two letters or digits in the last line of some bytes, and not
/// in a text: as in `'miner's`.
fn has_apostrophe(bytes: &[u8]) -> bool {
    let mut is_in_text = false;
    let mut is_found = false;
    for at in 2..bytes.len() {
        match bytes[at] {
            b'\n' => {
                is_in_text = false;
                is_found = false;
            }
            b'"' => is_in_text = !is_in_text,
            next => {
                let is_between = bytes[at - 2].is_ascii_alphanumeric()
                    && bytes[at - 1] == b'\''
                    && next.is_ascii_alphanumeric();
                is_found = is_found || is_between && !is_in_text;
            }
        }
    }
    is_found
}

/// What is wrong with a character or a word, from the byte after its quote on.
fn character_or_word(
    alloc: Global,
    rest: &[u8],
    before: &[u8],
) -> Result<Option<String>, AllocError> {
    let length = run_length(Class::Quoted, rest);
    let sentence = match byte_of_line(rest, length) {
        None | Some(b'\'') if has_apostrophe(before) => {
            let what = Part::Text("an apostrophe in a word");
            return some(absent(alloc, what, APOSTROPHES));
        }
        None => unclosed_word(before),
        Some(b'\'') if rest.starts_with(b"''") => {
            "there is nothing between the quotes: write 39 for an apostrophe"
        }
        Some(b'\'') => content(front(rest, length)),
        Some(b'~') if length == 0 => "'~' is not allowed between single quotes: write 126",
        Some(_) => return misplaced(alloc, from(rest, length), "between single quotes"),
    };
    some(String::from_str(alloc, sentence))
}

/// How many double quotes are in the last line of some bytes.
fn quotes_in_line(bytes: &[u8]) -> usize {
    let mut count: usize = 0;
    for byte in bytes {
        if *byte == b'\n' {
            count = 0;
        } else if *byte == b'"' {
            count = count.saturating_add(1);
        }
    }
    count
}

/// What is wrong with what begins with a quote at an offset of a source. `None` where no quote is
/// there.
pub fn quoted(alloc: Global, source: &[u8], offset: usize) -> Result<Option<String>, AllocError> {
    let bytes = from(source, offset);
    let before = front(source, offset);
    let rest = from(bytes, 1);
    match bytes.first().copied() {
        Some(b'"') => text(alloc, rest, quotes_in_line(before)),
        Some(b'\'') => character_or_word(alloc, rest, before),
        _ => Ok(None),
    }
}
