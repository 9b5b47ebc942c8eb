//! Runs of bytes of one class at the front of some bytes.

ghost use Rattle.std.specs.Prelude.{◌≤◌, length};

/// What bytes a run is of.
#[derive(Clone, Copy)]
pub enum Class {
    /// Bytes that may stand in a text.
    Text,

    /// Bytes that may stand between single quotes.
    Quoted,

    /// Letters, digits and underscores.
    Name,

    Decimal,
    Hexadecimal,
    Binary,
}

fn is_in(class: Class, byte: u8) -> bool {
    match class {
        Class::Text => matches!(byte, b' '..=b'~') && !matches!(byte, b'"' | b'@' | b'\\'),
        Class::Quoted => matches!(byte, b' '..=b'~')
            && !matches!(byte, b'\'' | b'~' | b'@' | b'\\'),
        Class::Name => byte.is_ascii_alphanumeric() || byte == b'_',
        Class::Decimal => byte.is_ascii_digit(),
        Class::Hexadecimal => byte.is_ascii_hexdigit(),
        Class::Binary => matches!(byte, b'0' | b'1'),
    }
}

/// How many bytes at the front are of a class.
pub fn run_length(class: Class, bytes: &[u8]) -> usize
    ensures { result ≤ length bytes.now }
{
    for at in 0..bytes.len() {
        if !is_in(class, bytes[at]) {
            return at;
        }
    }
    bytes.len()
}

/// The byte at a place, if there is one in its line: none at its end, a byte 10 or 13.
pub fn byte_of_line(bytes: &[u8], at: usize) -> Option<u8> {
    match bytes.get(at).copied() {
        Some(b'\n') => None,
        Some(b'\r') => None,
        found => found,
    }
}
