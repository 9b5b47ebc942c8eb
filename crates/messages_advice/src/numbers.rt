//! Why no number begins at a digit or a `$` (E03).

use crate::forms::{Part, told};
use crate::runs::{Class, run_length};
use std::alloc::{AllocError, Global};
use syntax_lexer::{from, front};

/// The class of a number's digits, the length of what stands before them, and their word.
fn digits(bytes: &[u8]) -> (Class, usize, &'static str) {
    match bytes {
        [b'$', b'$', ..] => (Class::Binary, 2, "binary "),
        [b'$', ..] => (Class::Hexadecimal, 1, "hexadecimal "),
        _ => (Class::Decimal, 0, ""),
    }
}

/// What to write for a number that letters, digits or `_` directly follow.
fn instead(number: &[u8], behind: &[u8]) -> &'static str {
    match (number, behind) {
        ([b'0'], [b'x' | b'X', ..]) => "write '$1F' for a hexadecimal number",
        ([b'0'], [b'b' | b'B', ..]) => "write '$$101' for a binary number",
        ([b'$', ..], _) =>
            "a binary number has the digits 0 and 1, a hexadecimal one 0 to 9 and a to f",
        (_, [b'_', ..]) => "write the digits side by side",
        _ => "a name begins with a letter, and a number is written in digits alone",
    }
}

/// What is wrong with the number at the front.
pub fn number(alloc: Global, bytes: &[u8]) -> Result<String, AllocError> {
    let (class, begin, word) = digits(bytes);
    let count = run_length(class, from(bytes, begin));
    let number = front(bytes, begin.saturating_add(count));
    let behind = from(bytes, number.len());
    if count == 0 {
        let parts = [Part::Text(word), Part::Quoted(number)];
        return told(alloc, "no *digit follows *", &parts);
    }
    let next = front(behind, 1);
    if run_length(Class::Name, next) > 0 {
        let instead = Part::Text(instead(number, behind));
        let parts = [Part::Quoted(next), Part::Cut(number), instead];
        return told(alloc, "* directly follows the number *: *", &parts);
    }
    let parts = [Part::Cut(number)];
    told(
        alloc,
        "* is greater than 65,535: write a smaller number",
        &parts,
    )
}
