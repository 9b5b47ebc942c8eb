//! The characters of a line (Z-Machine Standards Document 1.1, sections 10.5 and 15).

ghost use Rattle.std.specs.Prelude.{◌≡◌, ◌≤◌, ◌+◌, ◌++◌, ◌∷◌, [], drop, map, take, MatchOption};
ghost use Rattle.std.specs.List.{list_all};
ghost use Rattle.std.specs.Str.{chars};
ghost use Rattle.zcore_standard.specs.Input as definitions;

use crate::small::small;
use machine_standard_texts::{has_zscii, is_printed, with_codes, zscii_of};

/// Whether a story can be given a line, where these are the characters of the ZSCII codes from 155
/// on: the line is UTF-8, and each of its characters is printed and has a code.
pub fn can_be_typed(extra: &[u16], line: &[u8]) -> bool
    ensures { result ≡ definitions.can_be_typed extra.now line.now }
{
    match str::from_utf8(line) {
        Ok(text) => are_typed(extra, text),
        Err(_) => false,
    }
}

/// Whether a character can be typed, where these are the characters of the codes from 155 on: it is
/// printed, and has a code.
fn is_typed(extra: &[u16], character: u32) -> bool
    ensures { result ≡ definitions.is_typed extra.now character }
{
    is_printed(character) && has_zscii(with_codes(extra), character)
}

/// Whether each character of a text can be typed.
fn are_typed(extra: &[u16], text: &str) -> bool
    ensures { result ≡ list_all (definitions.is_typed extra.now) (chars text.now) }
{
    text.chars()
        .all(|character| is_typed(extra, character as u32))
}

/// The text of a line; a line that is not UTF-8 has none.
fn text_of(line: &[u8]) -> &str
    ensures { result.now ≡ definitions.text_typed line.now }
{
    match str::from_utf8(line) {
        Ok(text) => text,
        Err(_) => "",
    }
}

/// The ZSCII code of the first character of a line, if it has one.
pub fn first_code(extra: &[u16], line: &[u8]) -> Option<u8>
    ensures { MatchOption result (definitions.codes_typed extra.now line.now ≡ [])
        (λ code. definitions.codes_typed extra.now line.now
        ≡ code ∷ drop 1 (definitions.codes_typed extra.now line.now)) }
{
    match first_of(text_of(line)) {
        Some(character) => Some(zscii_of(extra, character as u32)),
        None => None,
    }
}

/// The first character of a text, if it has one.
fn first_of(text: &str) -> Option<char>
    ensures { MatchOption result (chars text.now ≡ [])
        (λ character. chars text.now ≡ character ∷ drop 1 (chars text.now)) }
{
    text.chars().next()
}

/// Writes the first characters of a line, at most so many, in small letters and in ZSCII to a row,
/// after so many letters that it has. Answers how many letters it has then.
pub fn put_small_letters(
    extra: &[u16],
    line: &[u8],
    letters: &mut [u8; 255],
    left: usize,
    most: usize,
) -> usize
    requires { left + most ≤ 255 }
    ensures most { result ≤ left + most }
    ensures letters { take result letters.new ≡ take left letters.old
        ++ map (definitions.small extra.now) (take most (definitions.codes_typed extra.now line.now)) }
{
    let mut end = left;
    for character in text_of(line).chars() {
        if end < left + most {
            letters[end] = small(extra, zscii_of(extra, character as u32));
            end += 1;
        }
    }
    end
}
