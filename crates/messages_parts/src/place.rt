//! The place of a fault in its source.

ghost use Rattle.std.specs.Prelude.{◌≡◌, ◌≢◌, ◌≤◌, ◌<◌, ℕ, IfSome, Some, None, length};
ghost use Rattle.syntax_lexer.specs.Placed.{IsInLine};
ghost use Rattle.messages_parts.specs.Lines.{IsPlaceIn};

use crate::lines::{column_behind, line_behind, line_length};
use syntax_lexer::{
    BAD_NUMBER, BAD_TEXT, NAME_TOO_LONG, PlacedFault, STRAY_BYTE, SourceFault, from, front,
    token_length,
};

/// What is at fault: a span of the source within one line.
#[derive(Clone, Copy)]
pub struct Place {
    /// Where it begins, in bytes from the beginning of the source.
    pub offset: usize,

    /// Where it begins in its line, in bytes from 1.
    pub column: usize,

    /// How many bytes it has: at least one for what is there, and none for what is missing there
    /// and at the end of the source.
    pub length: usize,
}

// How many bytes at the front belong to a name or a number, well formed or not.
fn word_length(bytes: &[u8]) -> usize
    ensures { result ≤ length bytes.now }
{
    let mut length = 0;
    while length < bytes.len()
        && (bytes[length].is_ascii_alphanumeric() || matches!(bytes[length], b'_' | b'$'))
    {
        length += 1;
    }
    length
}

// How many bytes a text, a character or a word has that begins a line, well formed or not: up to
// the next of the quotes that opens it, or to the end of the line.
fn quoted_length(line: &[u8]) -> usize
    ensures { result ≤ length line.now }
{
    let mut length = 1;
    while length < line.len() {
        if line[length] == line[0] {
            return length + 1;
        }
        length += 1;
    }
    line.len()
}

// How many bytes are at fault at the front of a line, by the broken rule: at least one, if the line
// has one.
fn span(number: u8, line: &[u8]) -> usize
    ensures within { result ≤ length line.now }
    ensures some { 0 < length line.now → 0 < result }
{
    let length = match number {
        STRAY_BYTE => 1,
        BAD_TEXT => quoted_length(line),
        BAD_NUMBER | NAME_TOO_LONG => word_length(line),
        _ => token_length(line),
    };
    length.max(1).min(line.len())
}

impl Place {
    /// The place between two bytes of a source, at an offset.
    pub fn between(source: &[u8], offset: usize) -> Place
        ensures { result.offset ≡ offset }
    {
        Place {
            offset,
            column: column_behind(front(source, offset)),
            length: 0,
        }
    }
}

/// The place of a fault, if it has one.
pub fn place_of(source: &[u8], placed: PlacedFault) -> Option<Place>
    ensures place { IfSome result (IsPlaceIn source.now placed.fault.line) }
    ensures begins { IfSome result (λ p. placed.offset ≡ Some p.offset) }
    ensures there { (at : ℕ) → placed.offset ≡ Some at → IsInLine source.now placed.fault.line at
        → result ≢ None }
{
    let offset = placed.offset?;
    if offset > source.len() {
        return None;
    }
    place_at(source, offset, placed.fault)
}

// The place at an offset, which is in the line of the fault, and has a byte or is the end.
fn place_at(source: &[u8], offset: usize, fault: SourceFault) -> Option<Place>
    requires { offset ≤ length source.now }
    ensures place { IfSome result (IsPlaceIn source.now fault.line) }
    ensures begins { IfSome result (λ p. p.offset ≡ offset) }
    ensures there { IsInLine source.now fault.line offset → result ≢ None }
{
    let before = front(source, offset);
    let rest = from(source, offset);
    let length = span(fault.number, front(rest, line_length(rest)));
    if line_behind(before) != fault.line {
        return None;
    }
    if length == 0 && !rest.is_empty() {
        return None;
    }
    Some(Place {
        offset,
        column: column_behind(before),
        length,
    })
}
