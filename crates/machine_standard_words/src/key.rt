//! The key that a line is (Z-Machine Standards Document 1.1, sections 3.8 and 15, `read_char`).

ghost use Rattle.std.specs.Prelude.{◌≡◌};
ghost use Rattle.zcore_standard.specs.Input.{codes_typed};
ghost use Rattle.zcore_standard.specs.Reading as definitions;

use crate::lines::first_code;
use zcore::layout::NEW_LINE;

// The ZSCII codes of keys that no line has a character for.
const DELETE: u16 = 8;

const ESCAPE: u16 = 27;

const UP: u16 = 129;

const DOWN: u16 = 130;

const LEFT: u16 = 131;

const RIGHT: u16 = 132;

/// The key that a line is where a key is waited for: one of six that are named, or the code of
/// the line's first character, or, for an empty line, the key that ends a line.
#[tactic(auto, unfolding(zcore_standard::specs::Reading::key_of_line))]
pub fn key_of_line(extra: &[u16], line: &[u8]) -> u16
    ensures { result ≡ definitions.key_of_line extra.now line.now }
{
    if line == b"/key up".as_slice() {
        UP
    } else if line == b"/key down".as_slice() {
        DOWN
    } else if line == b"/key left".as_slice() {
        LEFT
    } else if line == b"/key right".as_slice() {
        RIGHT
    } else if line == b"/key escape".as_slice() {
        ESCAPE
    } else if line == b"/key delete".as_slice() {
        DELETE
    } else {
        first_key(extra, line)
    }
}

/// The code of the first character of a line, or the key that ends a line.
fn first_key(extra: &[u16], line: &[u8]) -> u16
    ensures { result ≡ definitions.first_key (codes_typed extra.now line.now) }
{
    match first_code(extra, line) {
        Some(code) => code as u16,
        None => NEW_LINE as u16,
    }
}
