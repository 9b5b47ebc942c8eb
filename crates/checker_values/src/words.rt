//! The keys of a source's dictionary words.

ghost use Rattle.std.specs.Prelude.{◌≡◌, ◌≤◌, ◌%◌, ◌^◌, length, map, min, IfOk};
ghost use Rattle.std.specs.List.Sorted.{IsStrictlyIncreasing};
ghost use Rattle.tables.specs.KeyNumbers.{key_number};
ghost use Rattle.zcore.specs.Dictionary.{number_of_key};
ghost use Rattle.checker_values.specs.Keys as spec;

use byteorder::{BigEndian, ByteOrder};
use std::alloc::{AllocError, Global};
use std::collections::BTreeSet;
use tables::layout::{DICTIONARY_ENTRY_LENGTH, DICTIONARY_HEAD_LENGTH};
use zcore::word_key;

const HEAD: u128 = DICTIONARY_HEAD_LENGTH as u128;

const ENTRY: u128 = DICTIONARY_ENTRY_LENGTH as u128;

// No memory holds more words: where each stands takes 16 bytes.
const MOST_WORDS: usize = 1 << 59;

// In a word of a source `^` is an apostrophe.
fn letter_of(byte: u8) -> u8
    ensures { result ≡ spec.letter_of byte }
{
    if byte == b'^' { b'\'' } else { byte }
}

// How many letters of a word count for its key: the first nine, since each has a Z-character at
// least.
fn letters_that_count(word: &[u8]) -> usize
    ensures { result ≡ min 9 (length word.now) }
{
    if word.len() < 9 { word.len() } else { 9 }
}

// The six bytes of a key as a number.
fn number_of(key: &[u8; 6]) -> u64
    ensures { result ≡ number_of_key key.now % 2 ^ 48 }
{
    BigEndian::read_u48(key)
}

/// The key of a word of a source as a number, whose highest byte is the key's first.
pub fn key_of_word(word: &[u8]) -> u64
    ensures { result ≡ spec.key_of_word word.now }
{
    let mut letters = [0; 9];
    let count = letters_that_count(word);
    for i in 0..count {
        letters[i] = letter_of(word[i]);
    }
    number_of(&word_key(&letters[..count]))
}

/// The keys of words, each once and ascending.
///
/// # Errors
///
/// `AllocError` where memory is refused.
pub fn gather(alloc: Global, words: &[&[u8]]) -> Result<Vec<u64>, AllocError>
    ensures keys { IfOk result (λ v. v.items ≡ spec.keys_of (map (λ word. word.now) words.now)) }
    ensures ascending { IfOk result (λ v. IsStrictlyIncreasing v.items) }
    ensures few { IfOk result (λ v. length v.items ≤ 2 ^ 59) }
{
    if words.len() > MOST_WORDS {
        return Err(AllocError);
    }
    let mut set = BTreeSet::new(alloc);
    for word in words {
        set.insert(key_of_word(word))?;
    }
    set.iter().copied().collect(alloc)
}

/// The number of a key in a dictionary of these keys: the address of its entry, and 0 where it has
/// none.
pub fn number_in(keys: &[u64], dictionary: usize, key: u64) -> u16
    requires ascending { IsStrictlyIncreasing keys.now }
    ensures { result ≡ key_number dictionary keys.now key % 65536 }
{
    match keys.binary_search(&key) {
        Ok(rank) => ((dictionary as u128 + HEAD + ENTRY * rank as u128) % 65_536) as u16,
        Err(_) => 0,
    }
}
