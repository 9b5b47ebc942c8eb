//! Z-characters in words of two bytes: what a text is packed into, and where it is found in a
//! story.

ghost use Rattle.std.specs.Prelude.{◌≡◌, ◌<◌, ◌≤◌, ◌+◌, ◌*◌, ◌/◌, ◌^◌, ◌++◌, ◌∷◌, ℕ, List, length, drop, slice_index, MatchOption, IfOk, OnOk};
ghost use Rattle.ztext.specs.Alphabets.{spelled};
ghost use Rattle.ztext.specs.Text.{encoded};
ghost use Rattle.ztext.specs.Words as spec;
ghost use Rattle.ztext.specs.Faults.{GivesText};
ghost use Rattle.ztext.specs.TextParts.{AreSmall, words_of, three_at, three_in};

use crate::bytes::read_word;
use crate::fault::TextFault;
use std::alloc::{AllocError, Global};

/// The two bytes of a word. `mark` is 128 in the last word of a text, or else 0.
fn word_bytes(mark: u8, a: u8, b: u8, c: u8) -> [u8; 2]
    requires top { mark ≤ 128 }
    requires first { a < 32 }
    requires second { b < 32 }
    requires third { c < 32 }
    ensures { result ≡ spec.word_of mark a b c }
{
    [mark + a * 4 + b / 8, (b % 8) * 32 + c]
}

fn put_word(bytes: &mut Vec<u8>, more: &[u8], a: u8, b: u8, c: u8) -> Result<(), AllocError>
    requires first { a < 32 }
    requires second { b < 32 }
    requires third { c < 32 }
    ensures { OnOk result (bytes.new.items ≡ bytes.old.items
        ++ spec.word_of (spec.mark more.now) a b c) }
{
    let mark = if more.is_empty() { 128 } else { 0 };
    let [high, low] = word_bytes(mark, a, b, c);
    bytes.push(high)?;
    bytes.push(low)?;
    Ok(())
}

fn take_three(characters: &[u8]) -> Option<(u8, u8, u8, &[u8])>
    ensures { MatchOption result (length characters.now < 3)
        (λ x. characters.now ≡ x.0 ∷ x.1 ∷ x.2 ∷ x.3.now) }
{
    match characters {
        [a, b, c, more @ ..] => Some((*a, *b, *c, more)),
        _ => None,
    }
}

/// The words of whole threes of Z-characters, the last of them marked.
///
/// # Errors
///
/// `AllocError` where a growth of memory was refused.
#[tactic(auto, using(crate::proofs::Packing::packed_step, crate::proofs::Packing::packed_short, crate::proofs::Packing::small_three))]
pub fn packed(alloc: Global, characters: &[u8]) -> Result<Vec<u8>, AllocError>
    requires { AreSmall characters.now }
    ensures { IfOk result (λ v. v.items ≡ spec.packed characters.now) }
{
    let mut bytes = Vec::with_capacity(alloc, characters.len() / 3 * 2)?;
    let mut rest = characters;
    while let Some((a, b, c, more)) = take_three(rest) {
        put_word(&mut bytes, more, a, b, c)?;
        rest = more;
    }
    Ok(bytes)
}

/// The three words of a key's nine Z-characters, the last of them marked.
pub fn key_bytes(key: &[u8; 9]) -> [u8; 6]
    requires { AreSmall key.now }
    ensures { result ≡ spec.packed key.now }
{
    let [a, b] = word_bytes(0, key[0], key[1], key[2]);
    let [c, d] = word_bytes(0, key[3], key[4], key[5]);
    let [e, f] = word_bytes(128, key[6], key[7], key[8]);
    [a, b, c, d, e, f]
}

/// Adds the fives that fill the last word: a text has at least one.
///
/// # Errors
///
/// `AllocError` where a growth of memory was refused.
pub fn pad(characters: &mut Vec<u8>) -> Result<(), AllocError>
    ensures { OnOk result (characters.new.items ≡ spec.padded characters.old.items) }
{
    let missing = if characters.is_empty() {
        3
    } else {
        (3 - characters.len() % 3) % 3
    };
    for _ in 0..missing {
        characters.push(5)?;
    }
    Ok(())
}

/// How many words the Z-text of a text with so many Z-characters has: at least one.
pub fn words_for(characters: u128) -> u128
    requires { characters < 2 ^ 127 }
    ensures words { (text : List ℕ) → length (spelled text) ≡ characters
        → 2 * result ≡ length (encoded text) }
    ensures few { result ≤ characters + 1 }
{
    if characters == 0 {
        1
    } else {
        (characters + 2) / 3
    }
}

/// The bytes of a story from an address on: none from its end on.
pub fn bytes_from(story: &[u8], at: usize) -> &[u8]
    ensures { result.now ≡ drop at story.now }
{
    if at < story.len() { &story[at..] } else { &[] }
}

/// How many words the text at the front of the bytes has, which stand at an address of the story.
/// The address after the text has 32 bits.
///
/// # Errors
///
/// `Z2` where no word up to the end of the bytes has its top bit set, or the address after it has
/// more than 32 bits.
#[tactic(auto, using(crate::proofs::Packing::words_none, crate::proofs::Packing::words_more, crate::proofs::Packing::words_last, crate::proofs::Packing::words_beyond, crate::proofs::Packing::words_short))]
pub fn word_count(bytes: &[u8], at: u32) -> Result<usize, TextFault>
    ensures words { GivesText (λ n. (words_of n bytes.now, at + 2 * n)) result
        (spec.unpacked_text at bytes.now) }
    ensures room { IfOk result (λ n. 2 * n ≤ length bytes.now) }
    ensures address { IfOk result (λ n. at + 2 * n < 2 ^ 32) }
{
    for count in 0..bytes.len() / 2 {
        if bytes[2 * count] >= 128 {
            if at as usize + 2 * count + 2 > u32::MAX as usize {
                return Err(TextFault::End);
            }
            return Ok(count + 1);
        }
    }
    Err(TextFault::End)
}

/// A word, counted from 0, of the text at the front of the bytes.
#[inline(always)]
pub(crate) fn text_word(bytes: &[u8], n: usize) -> u16
    requires { 2 * n + 1 < length bytes.now }
    ensures { three_in result ≡ three_at bytes.now n }
{
    read_word(bytes, 2 * n)
}

/// The three Z-characters of a word.
#[inline(always)]
pub(crate) fn z_characters(word: u16) -> [u8; 3]
    ensures three { result ≡ three_in word }
    ensures small { AreSmall result }
{
    [
        (word / 1024 % 32) as u8,
        (word / 32 % 32) as u8,
        (word % 32) as u8,
    ]
}

/// The Z-character in a column of a word, counted from 0.
#[inline(always)]
pub(crate) fn z_character(word: u16, column: usize) -> u8
    requires column { column < 3 }
    ensures is { result ≡ slice_index (three_in word) column }
    ensures small { result < 32 }
{
    let shifted = match column {
        0 => word / 1024,
        1 => word / 32,
        _ => word,
    };
    (shifted % 32) as u8
}
