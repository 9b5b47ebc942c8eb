//! Classes of bytes, and the front of a run of bytes.

ghost use Rattle.std.specs.Prelude.{◌≡◌, ◌≤◌, ◌<◌, ◌||◌, ◌==◌, length, take, drop, slice_index};
ghost use Rattle.syntax_lexer.specs.Bytes as spec;
ghost use Rattle.syntax_lexer.specs.Bytes.{run, passes};

/// The base of a number.
#[derive(Clone, Copy)]
pub enum Base {
    Decimal,
    Hexadecimal,
    Binary,
}

/// What bytes a run is of.
#[derive(Clone, Copy)]
pub enum Class {
    /// Bytes of names.
    Name,

    /// Digits of a base.
    Digit(Base),

    /// Bytes between the quotes of a text.
    Text,

    /// Bytes between single quotes.
    Quoted,

    /// Bytes of dictionary words.
    Word,

    /// Bytes of a comment after its `!`.
    Comment,
}

impl Base {
    /// Ten, sixteen or two.
    pub fn value(self) -> u32
        ensures value { result ≡ spec.base_of self }
        ensures within { result ≤ 16 }
    {
        match self {
            Base::Decimal => 10,
            Base::Hexadecimal => 16,
            Base::Binary => 2,
        }
    }
}

/// Whether a byte begins a name.
pub fn is_letter(b: u8) -> bool
    ensures { result ≡ spec.is_letter b }
{
    b.is_ascii_alphabetic() || b == b'_'
}

/// Whether a byte is a decimal digit.
pub fn is_digit(b: u8) -> bool
    ensures { result ≡ spec.is_digit b }
{
    b.is_ascii_digit()
}

/// Whether a byte begins a number.
pub fn begins_number(b: u8) -> bool
    ensures { result ≡ (spec.is_digit b || b == 36) }
{
    is_digit(b) || b == b'$'
}

/// Whether a byte may stand in a name after its first.
pub fn is_name_byte(b: u8) -> bool
    ensures { result ≡ spec.is_name_byte b }
{
    is_letter(b) || is_digit(b)
}

/// Whether a byte stands between tokens.
pub fn is_divider(b: u8) -> bool
    ensures { result ≡ spec.is_divider b }
{
    matches!(b, b' ' | b'\t' | b'\n' | b'\r')
}

/// The value of a digit of any base, and 16 where the byte is none.
pub fn digit_value(b: u8) -> u32
    ensures value { result ≡ spec.digit_value b }
    ensures within { result ≤ 16 }
{
    match b {
        b'0'..=b'9' => u32::from(b - b'0'),
        b'A'..=b'F' => u32::from(b - b'A') + 10,
        b'a'..=b'f' => u32::from(b - b'a') + 10,
        _ => 16,
    }
}

fn is_word_byte(b: u8) -> bool
    ensures { result ≡ spec.is_word_byte b }
{
    b.is_ascii_graphic() && !matches!(b, b'\'' | b'~' | b'@' | b'\\')
}

/// Whether a byte alone between single quotes is a character.
pub fn is_character(b: u8) -> bool
    ensures { result ≡ spec.is_character b }
{
    (b == b' ' || is_word_byte(b)) && b != b'^'
}

fn is_in(class: Class, b: u8) -> bool
    ensures { result ≡ passes class b }
{
    match class {
        Class::Name => is_name_byte(b),
        Class::Digit(base) => digit_value(b) < base.value(),
        Class::Text => (32..=126).contains(&b) && !matches!(b, b'"' | b'@' | b'\\'),
        Class::Quoted => b == b' ' || is_word_byte(b),
        Class::Word => is_word_byte(b),
        Class::Comment => b == b'\t' || b == b'\r' || (32 <= b && b <= 126),
    }
}

/// How many bytes at the front are of a class.
#[tactic(auto, using(crate::proofs::Runs::run_more, crate::proofs::Runs::run_stop, crate::proofs::Runs::run_end))]
pub fn run_length(class: Class, bytes: &[u8]) -> usize
    ensures value { result ≡ run (passes class) bytes.now }
    ensures within { result ≤ length bytes.now }
{
    let mut length = 0;
    while length < bytes.len() && is_in(class, bytes[length]) {
        length += 1;
    }
    length
}

/// The byte at a place, or 0 past the end.
pub fn byte_at(bytes: &[u8], at: usize) -> u8
    ensures value { result ≡ slice_index bytes.now at }
{
    if at < bytes.len() { bytes[at] } else { 0 }
}

/// The bytes from a place on, none if there are no more.
pub fn from(bytes: &[u8], at: usize) -> &[u8]
    ensures { result.now ≡ drop at bytes.now }
{
    bytes.split_at(at.min(bytes.len())).1
}

/// The first `count` bytes, or all if there are no more.
pub fn front(bytes: &[u8], count: usize) -> &[u8]
    ensures { result.now ≡ take count bytes.now }
{
    bytes.split_at(count.min(bytes.len())).0
}
