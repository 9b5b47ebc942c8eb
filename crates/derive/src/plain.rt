//! Names that are made, in the words of those who wrote a source.

use syntax_lexer::{from, front};

/// How the names begin that only passes make.
const PREFIX: &str = "x__";

/// Names that are made, without their prefix and the number of a routine, and how they are called.
const PLAIN_NAMES: [(&str, &str); 27] = [
    ("1", "Class"),
    ("2", "Object"),
    ("3", "Routine"),
    ("4", "String"),
    ("send", "message"),
    ("value", "message"),
    ("call", "call"),
    ("string", "(string)"),
    ("address", "(address)"),
    ("t", "text"),
    ("both", "for"),
    ("one", "random"),
    ("seed", "random"),
    ("r", "routine"),
    ("o", "object without a name"),
    ("count", "children"),
    ("last", "youngest"),
    ("before", "elder"),
    ("word", "-->"),
    ("byte", "->"),
    ("set_word", "-->"),
    ("set_byte", "->"),
    ("w", "-->"),
    ("b", "->"),
    ("sw", "-->"),
    ("sb", "->"),
    ("of", ".&"),
];

/// How many bytes at the front are of a name.
pub fn name_length(bytes: &[u8]) -> usize {
    let mut length = 0_usize;
    for byte in bytes {
        if !byte.is_ascii_alphanumeric() && *byte != b'_' {
            return length;
        }
        length = length.saturating_add(1);
    }
    length
}

/// Whether only passes make a name.
pub fn is_made(name: &[u8]) -> bool {
    front(name, PREFIX.len()).eq_ignore_ascii_case(PREFIX.as_bytes())
}

/// How many bytes a name has without the digits at its end.
fn stem_length(name: &[u8]) -> usize {
    let mut length = 0;
    for at in 0..name.len() {
        if !name[at].is_ascii_digit() {
            length = at + 1;
        }
    }
    length
}

/// How a word is called that is a name without its prefix, or also without its number.
fn called(word: &[u8]) -> Option<&'static [u8]> {
    for row in &PLAIN_NAMES {
        if row.0.as_bytes() == word {
            return Some(row.1.as_bytes());
        }
    }
    None
}

/// A name as those know it who wrote a source: one that is made is called by the form for which it is
/// made.
pub fn plain_name(name: &[u8]) -> &[u8] {
    if !is_made(name) {
        return name;
    }
    let word = from(name, PREFIX.len());
    let stem = front(word, stem_length(word));
    match called(word) {
        Some(plain) => plain,
        None => called(stem).unwrap_or(stem),
    }
}
