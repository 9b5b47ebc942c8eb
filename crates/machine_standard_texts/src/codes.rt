//! The ZSCII codes of Unicode characters (Z-Machine Standards Document 1.1, section 3.8).

ghost use Rattle.std.specs.Prelude.{◌≡◌, ◌==◌, take};
ghost use Rattle.std.specs.List.{list_any};
ghost use Rattle.zcore_standard.specs.Streams.{code_among, first_extra, most_extra, zscii_of};
ghost use Rattle.zcore_standard.specs.Unicode.{has_zscii};

use crate::characters::is_ascii;
use zcore::layout::NEW_LINE;

/// The ZSCII code of the first character of a Unicode table.
const FIRST_EXTRA: u8 = 155;

/// How many characters of a Unicode table have a code.
const MOST_EXTRA: usize = 97;

/// The first character that is not ASCII.
const END_OF_ASCII: u32 = 0x80;

/// Those of a Unicode table that have a code.
pub fn with_codes(extra: &[u16]) -> &[u16]
    ensures { result.now ≡ take most_extra extra.now }
{
    &extra[..MOST_EXTRA.min(extra.len())]
}

/// Whether a character has a ZSCII code, where these are the characters of the codes from 155 on.
pub fn has_zscii(characters: &[u16], character: u32) -> bool
    ensures { result ≡ has_zscii characters.now character }
{
    is_ascii(character) || is_among(characters, character)
}

/// Whether a character is one of these.
fn is_among(characters: &[u16], character: u32) -> bool
    ensures { result ≡ list_any (λ candidate. candidate == character) characters.now }
{
    characters
        .iter()
        .any(|candidate| *candidate as u32 == character)
}

/// The ZSCII code of a Unicode character, where these are the characters of the codes from 155 on.
/// One that has none is a question mark.
pub fn zscii_of(extra: &[u16], character: u32) -> u8
    ensures { result ≡ zscii_of extra.now character }
{
    if character == b'\n' as u32 {
        NEW_LINE
    } else if character < END_OF_ASCII {
        character as u8
    } else {
        code_among(extra, character)
    }
}

/// The code of one of these characters, which have the codes from 155 on, or a question mark.
fn code_among(extra: &[u16], character: u32) -> u8
    ensures { result ≡ code_among (take most_extra extra.now) first_extra character }
{
    let count = extra.len().min(MOST_EXTRA);
    for i in 0..count {
        let candidate = extra[i] as u32;
        if candidate == character {
            return FIRST_EXTRA + i as u8;
        }
    }
    b'?'
}
