//! The sentence of a fault of a byte or a token.

use crate::forms::{Part, absent, some, told};
use crate::numbers::number;
use crate::quoted::{misplaced, quoted};
use crate::runs::{Class, run_length};
use messages_parts::{
    CONDITIONS, DIRECTIVE_SIGN, Feature, LIBRARY, OPCODES, habit_at_beginning, is_one_of,
    named_as_directive,
};
use std::alloc::{AllocError, Global};
use syntax_lexer::{BAD_NUMBER, BAD_TEXT, NAME_TOO_LONG, STRAY_BYTE, from, front};

/// The words that begin directives.
const DIRECTIVES: &str = "abbreviate array attribute constant global object property";

/// The word after the sign with which some bytes begin.
fn word_after_sign(bytes: &[u8]) -> &[u8] {
    let rest = from(bytes, 1);
    front(rest, run_length(Class::Name, rest))
}

/// The feature of Inform 6 that begins with a sign, and how it is called.
fn feature_of(bytes: &[u8]) -> Option<(Part<'_>, &'static Feature)> {
    let word = word_after_sign(bytes);
    let (what, feature) = match bytes {
        [b'#', b'#', ..] => ("the number of an action", LIBRARY),
        [b'#', ..] if is_one_of(word, DIRECTIVES) => ("'#' before a directive", DIRECTIVE_SIGN),
        [b'#', ..] if is_one_of(word, "if else") => ("this line", CONDITIONS),
        [b'#', ..] => ("this line", habit_at_beginning(word)?),
        [b'@', next, ..] if next.is_ascii_alphabetic() => ("an opcode", OPCODES),
        _ => return None,
    };
    Some((Part::Text(what), feature))
}

/// What to write in the place of a sign that begins no token.
fn instead_of(sign: u8) -> &'static str {
    match sign {
        b'#' =>
            "a comment begins with '!', a number in hexadecimal with '$'; the bytes of a property are 'lamp.#size'",
        b'?' => "write 'if' and 'else'",
        b'^' =>
            "write it within the quotes of a text, for a new line; for a power, multiply in a loop",
        b'\\' => "write '/' to divide, and '^' in a text for a new line",
        b'`' => "write a quote as in 'word' or \"text\"",
        _ => "remove it",
    }
}

/// The feature of Inform 6 that a sign and the word after it mean, and how it is called: the word, if it
/// is a directive after `#`.
fn absent_at(bytes: &[u8]) -> Option<(Part<'_>, &'static Feature)> {
    let word = word_after_sign(bytes);
    match named_as_directive(word) {
        Some(feature) if bytes.starts_with(b"#") => Some((Part::Quoted(word), feature)),
        _ => feature_of(bytes),
    }
}

/// What is wrong with a byte that begins no token.
fn stray(alloc: Global, bytes: &[u8]) -> Result<Option<String>, AllocError> {
    if let Some((what, feature)) = absent_at(bytes) {
        return some(absent(alloc, what, feature));
    }
    match bytes.first().copied() {
        None => Ok(None),
        Some(byte) if matches!(byte, b' '..=b'~') => {
            let parts = [Part::Letter(byte), Part::Text(instead_of(byte))];
            some(told(alloc, "no token begins with '*': *", &parts))
        }
        Some(_) => misplaced(alloc, bytes, "in a source"),
    }
}

/// What is wrong with a name that is too long.
fn long_name(alloc: Global, bytes: &[u8]) -> Result<String, AllocError> {
    let parts = [Part::Number(run_length(Class::Name, bytes))];
    told(
        alloc,
        "the name has * bytes; the limit is 32: shorten it",
        &parts,
    )
}

/// What is wrong at an offset of a source that breaks a rule of bytes or tokens, by the rule's
/// number: E01 to E04. `None` for another rule, and where no such thing stands there.
///
/// # Errors
///
/// `AllocError` where memory is refused.
pub fn source_sentence(
    alloc: Global,
    source: &[u8],
    rule: u8,
    offset: usize,
) -> Result<Option<String>, AllocError> {
    let bytes = from(source, offset);
    match rule {
        STRAY_BYTE => stray(alloc, bytes),
        BAD_TEXT => quoted(alloc, source, offset),
        BAD_NUMBER => some(number(alloc, bytes)),
        NAME_TOO_LONG => some(long_name(alloc, bytes)),
        _ => Ok(None),
    }
}
