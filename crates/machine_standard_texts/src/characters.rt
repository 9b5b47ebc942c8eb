//! Characters that are added to the text of a turn, each whole (Z-Machine Standards Document 1.1,
//! section 3.8).

ghost use Rattle.std.specs.Prelude.{◌≡◌, ◌∷◌, ◌++◌, [], drop, OnOk, OnErr, Some, None};
ghost use Rattle.zcore_standard.specs.Characters as definitions;
ghost use Rattle.zcore_standard.specs.Unicode as unicode;
ghost use Rattle.machine_opcodes.specs.Printed.{HasBegun};
ghost use Rattle.machine_standard_texts.specs.Put.{Extends, Prints, PrintsOn};

use std::alloc::AllocError;

/// How many bytes a turn may print.
const TEXT_LIMIT: usize = 65_536;

/// The first ZSCII code that the Unicode table gives a character for.
const FIRST_EXTRA: u16 = 155;

/// What stands in the transcript for a character that is not printed.
const UNKNOWN: u16 = 63;

/// Why printing halts.
#[derive(Clone, Copy)]
pub enum Halt {
    /// The next character passes the limit of text.
    Full,

    /// Memory was refused.
    Memory,
}

/// Whether a code is that of a character of ASCII which prints.
pub fn is_ascii(code: u32) -> bool
    ensures { result ≡ unicode.is_ascii code }
{
    32 <= code && code <= 126
}

/// Whether a code is used in pairs, and is no character by itself.
fn is_surrogate(code: u32) -> bool
    ensures { result ≡ unicode.is_surrogate code }
{
    0xD800 <= code && code < 0xE000
}

/// Whether a Unicode character is printed: it is no control code, no surrogate, and neither $FFFE nor
/// $FFFF nor above.
pub fn is_printed(code: u32) -> bool
    ensures { result ≡ unicode.is_printed code }
{
    is_ascii(code) || (160 <= code && !is_surrogate(code) && code < 0xFFFE)
}

/// The Unicode character of a ZSCII code that is not in ASCII.
pub fn extra_character(characters: &[u16], code: u16) -> u16
    ensures { result ≡ definitions.extra_character characters.now code }
{
    if code < FIRST_EXTRA {
        return UNKNOWN;
    }
    let place = (code - FIRST_EXTRA) as usize;
    if place < characters.len() {
        characters[place]
    } else {
        UNKNOWN
    }
}

/// Adds bytes to a text, where memory is not refused.
fn add(text: &mut Vec<u8>, bytes: &[u8]) -> Result<(), AllocError>
    ensures added { OnOk result (text.new.items ≡ text.old.items ++ bytes.now) }
    ensures same { OnErr result (text.new.items ≡ text.old.items) }
{
    text.extend_from_slice(bytes)
}

/// Adds the bytes of one character, or none of them where they pass the limit of text.
fn put_whole(text: &mut Vec<u8>, start: usize, bytes: &[u8]) -> Option<Halt>
    requires text { HasBegun start text.old.items }
    ensures prints { Prints result (drop start text.old.items) (drop start text.new.items)
        (unicode.print_whole bytes.now) }
    ensures text { Extends start text.old.items text.new.items }
{
    let room = TEXT_LIMIT - (text.len() - start);
    if room < bytes.len() {
        return Some(Halt::Full);
    }
    match add(text, bytes) {
        Ok(()) => None,
        Err(_) => Some(Halt::Memory),
    }
}

/// Adds a Unicode character, or a question mark for one that is not printed.
pub(crate) fn put_unicode(text: &mut Vec<u8>, start: usize, code: u16) -> Option<Halt>
    requires text { HasBegun start text.old.items }
    ensures prints { Prints result (drop start text.old.items) (drop start text.new.items)
        (unicode.print_whole (unicode.transcript_of code)) }
    ensures text { Extends start text.old.items text.new.items }
{
    if !is_printed(code as u32) {
        return put_whole(text, start, b"?");
    }
    if code < 0x80 {
        put_whole(text, start, &[code as u8])
    } else if code < 0x800 {
        let bytes = [(0xC0 + code / 64) as u8, (0x80 + code % 64) as u8];
        put_whole(text, start, &bytes)
    } else {
        let bytes = [
            (0xE0 + code / 4_096) as u8,
            (0x80 + code / 64 % 64) as u8,
            (0x80 + code % 64) as u8,
        ];
        put_whole(text, start, &bytes)
    }
}

/// Adds two spaces.
fn put_two_spaces(text: &mut Vec<u8>, start: usize) -> Option<Halt>
    requires text { HasBegun start text.old.items }
    ensures prints { Prints result (drop start text.old.items) (drop start text.new.items)
        (definitions.print_each ((32 ∷ []) ∷ (32 ∷ []) ∷ [])) }
    ensures text { Extends start text.old.items text.new.items }
{
    match put_whole(text, start, b" ") {
        None => put_whole(text, start, b" "),
        Some(halt) => Some(halt),
    }
}

/// Adds what a ZSCII code prints, where these are the characters of the codes from 155 on.
fn put_code(text: &mut Vec<u8>, start: usize, characters: &[u16], code: u16) -> Option<Halt>
    requires text { HasBegun start text.old.items }
    ensures prints { Prints result (drop start text.old.items) (drop start text.new.items)
        (definitions.print_codes characters.now (code ∷ [])) }
    ensures text { Extends start text.old.items text.new.items }
{
    if is_ascii(code as u32) {
        return put_whole(text, start, &[code as u8]);
    }
    match code {
        0 => None,
        9 => put_whole(text, start, b" "),
        11 => put_two_spaces(text, start),
        13 => put_whole(text, start, b"\n"),
        _ => put_unicode(text, start, extra_character(characters, code)),
    }
}

/// Adds what a ZSCII code prints, unless the codes before it halted.
pub fn put_next(
    text: &mut Vec<u8>,
    start: usize,
    characters: &[u16],
    halted: Option<Halt>,
    code: u16,
) -> Option<Halt>
    requires text { HasBegun start text.old.items }
    ensures prints { PrintsOn characters.now halted result (drop start text.old.items)
        (drop start text.new.items) (code ∷ []) }
    ensures text { Extends start text.old.items text.new.items }
{
    match halted {
        None => put_code(text, start, characters, code),
        Some(halt) => Some(halt),
    }
}
