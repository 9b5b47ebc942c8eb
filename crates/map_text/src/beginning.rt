//! The two lines with which a map begins.

ghost use Rattle.std.specs.Prelude.{◌≡◌, ◌++◌, slice_index, IfOk, OnOk};
ghost use Rattle.map_text.specs.Heading as spec;

use crate::writing::digit;
use std::alloc::{AllocError, Global};

/// The first line of every map.
pub const FIRST_LINE: &str = "inform map 1\n";

/// How the second line begins.
const SECOND_LINE: &str = "story ";

/// Where a story holds the sum of its bytes (Z-Machine Standards Document 1.1, section 11.1).
const SUM_PLACE: usize = 0x1C;

/// Where the hash of bytes begins: FNV-1a, of 64 bits.
const HASH_START: u64 = 0xCBF2_9CE4_8422_2325;

/// The factor of that hash.
const HASH_FACTOR: u64 = 0x0000_0100_0000_01B3;

/// How many words there are.
const WORDS: u64 = 65_536;

/// What the second word of a hash from the left counts.
const SECOND_WORD: u64 = 0x0000_0001_0000_0000;

/// What its first word counts.
const HIGH_WORD: u64 = 0x0001_0000_0000_0000;

/// The hash of bytes, FNV-1a of 64 bits.
pub fn hash_of(bytes: &[u8]) -> u64
    ensures { result ≡ spec.hash_of bytes.now }
{
    let mut hash = HASH_START;
    for byte in bytes {
        hash = (hash ^ u64::from(*byte)).wrapping_mul(HASH_FACTOR);
    }
    hash
}

/// A byte of a story; 0 if it has none there.
fn byte_at(story: &[u8], at: usize) -> u8
    ensures { result ≡ slice_index story.now at }
{
    match story.get(at) {
        Some(byte) => *byte,
        None => 0,
    }
}

/// A word of a story, its high byte first. Bytes that it has not are 0.
pub fn word_in(story: &[u8], at: usize) -> u16
    ensures { result ≡ spec.word_in story.now at }
{
    u16::from(byte_at(story, at)) * 256 + u16::from(byte_at(story, at.saturating_add(1)))
}

/// The four hexadecimal digits of a word.
fn word_digits(word: u16) -> [u8; 4]
    ensures { result ≡ spec.word_text word }
{
    let number = u32::from(word);
    [
        digit(number / 4_096),
        digit(number / 256),
        digit(number / 16),
        digit(number),
    ]
}

/// Writes the sixteen hexadecimal digits of a hash, its high word first.
fn put_hash(text: &mut Vec<u8>, hash: u64) -> Result<(), AllocError>
    ensures { OnOk result (text.new.items ≡ text.old.items ++ spec.hash_text hash) }
{
    let first = (hash / HIGH_WORD % WORDS) as u16;
    let second = (hash / SECOND_WORD % WORDS) as u16;
    let third = (hash / WORDS % WORDS) as u16;
    let fourth = (hash % WORDS) as u16;
    text.extend_from_slice(&word_digits(first))?;
    text.extend_from_slice(&word_digits(second))?;
    text.extend_from_slice(&word_digits(third))?;
    text.extend_from_slice(&word_digits(fourth))?;
    Ok(())
}

/// The two lines with which the map of a story begins: what it is, and of which story, by the sum in
/// its header and by a hash of all its bytes.
///
/// # Errors
///
/// `AllocError` where memory is refused.
pub fn heading(alloc: Global, story: &[u8]) -> Result<Vec<u8>, AllocError>
    ensures { IfOk result (λ text. text.items ≡ spec.heading_of story.now) }
{
    let sum = word_in(story, SUM_PLACE);
    let hash = hash_of(story);
    let mut text = Vec::new(alloc);
    text.extend_from_slice(FIRST_LINE.as_bytes())?;
    text.extend_from_slice(SECOND_LINE.as_bytes())?;
    text.extend_from_slice(&word_digits(sum))?;
    text.push(b' ')?;
    put_hash(&mut text, hash)?;
    text.push(b'\n')?;
    Ok(text)
}
