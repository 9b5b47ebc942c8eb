//! Where a text stands in a story, and its Z-characters (Z-Machine Standards Document 1.1, sections
//! 3.2 and 3.3).

ghost use Rattle.std.specs.Prelude.{◌≡◌, ◌<◌, ◌≤◌, ◌+◌, ◌*◌, ◌/◌, ◌%◌, ◌^◌, length, drop, IfOk};
ghost use Rattle.ztext.specs.Bytes.{most_abbreviations};
ghost use Rattle.ztext.specs.Faults.{GivesText};
ghost use Rattle.ztext.specs.Text.{has_abbreviations};
ghost use Rattle.ztext.specs.TextParts.{words_of, z_character_at, FindsAbbreviation};
ghost use Rattle.ztext.specs.Words as spec;

use zcore::{MOST_ABBREVIATIONS, TextFault};
use ztext::read_word;

/// The word of the header that has the address of the table of abbreviations.
const ABBREVIATIONS_WORD: usize = 24;

/// How long a header is.
const HEADER_LENGTH: usize = 64;

/// From this first byte on a word is the last one of its text.
const LAST_WORD: u8 = 128;

/// The bytes of a story from an address on: none from its end on.
pub fn bytes_from(story: &[u8], at: usize) -> &[u8]
    ensures { result.now ≡ drop at story.now }
{
    if at < story.len() { &story[at..] } else { &[] }
}

/// How many words the text at the front of the bytes has, which stand at an address of the story.
/// The address after the text has 32 bits.
#[tactic(auto, using(ztext::proofs::Packing::words_none, ztext::proofs::Packing::words_more, ztext::proofs::Packing::words_last, ztext::proofs::Packing::words_beyond, ztext::proofs::Packing::words_short))]
pub fn word_count(bytes: &[u8], at: u32) -> Result<usize, TextFault>
    ensures words { GivesText (λ n. (words_of n bytes.now, at + 2 * n)) result
        (spec.unpacked_text at bytes.now) }
    ensures room { IfOk result (λ n. 2 * n ≤ length bytes.now) }
    ensures address { IfOk result (λ n. at + 2 * n < 2 ^ 32) }
{
    for count in 0..bytes.len() / 2 {
        if bytes[2 * count] >= LAST_WORD {
            if at as usize + 2 * count + 2 > u32::MAX as usize {
                return Err(TextFault::End);
            }
            return Ok(count + 1);
        }
    }
    Err(TextFault::End)
}

/// The Z-character at a place of the text at the front of the bytes.
pub fn z_character(bytes: &[u8], place: usize) -> u8
    requires { 2 * (place / 3) + 1 < length bytes.now }
    ensures is { result ≡ z_character_at bytes.now place }
    ensures small { result < 32 }
{
    let high = bytes[2 * (place / 3)];
    let low = bytes[2 * (place / 3) + 1];
    match place % 3 {
        0 => high / 4 % 32,
        1 => high % 4 * 8 + low / 32,
        _ => low % 32,
    }
}

/// Whether a story has a table of abbreviations.
fn has_table(story: &[u8]) -> bool
    ensures { result ≡ has_abbreviations story.now }
{
    if story.len() < HEADER_LENGTH {
        return false;
    }
    let table = read_word(story, ABBREVIATIONS_WORD) as usize;
    table >= 1 && table + 2 * MOST_ABBREVIATIONS <= story.len()
}

/// The address of the text of an abbreviation.
pub(crate) fn abbreviation_address(story: &[u8], number: usize) -> Result<u32, TextFault>
    requires { number < most_abbreviations }
    ensures { FindsAbbreviation story.now number result }
{
    if !has_table(story) {
        return Err(TextFault::Abbreviation);
    }
    let table = read_word(story, ABBREVIATIONS_WORD) as usize;
    Ok(2 * u32::from(read_word(story, table + 2 * number)))
}
