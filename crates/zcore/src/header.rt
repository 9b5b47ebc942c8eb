//! The header of a story, and the dictionary that it names.

ghost use Rattle.std.specs.Prelude.{◌≡◌, ℕ, ◌+◌, ◌*◌, ◌%◌, ◌<◌, ◌≤◌, ◌↔◌, IsTrue, MatchOption, length, drop, sum};
ghost use Rattle.zcore.specs.Header.{scale_of, static_end, key_at, HasHeader, IsOfVersion, IsKnownVersion, StatesLength, StatesSum, IsWithin, IsPlaced, AreAscending, IsDictionary, IsDictionaryOf, Reads};

use crate::layout::{
    ABBREVIATIONS_WORD, DEFAULTS_LENGTH, DEFAULTS_WORD, DICTIONARY_WORD, FIRST_INSTRUCTION_WORD,
    GLOBAL_COUNT, GLOBALS_WORD, HEADER_LENGTH, HIGH_MEMORY_WORD, KEY_LENGTH, LENGTH_WORD, READABLE,
    STATIC_BASE_WORD, SUM_WORD,
};
use byteorder::{BigEndian, ByteOrder};
use thiserror::Error;
use ztext::{MOST_ABBREVIATIONS, read_word};

/// Globals are words (section 6.2).
const GLOBALS_LENGTH: usize = 2 * GLOBAL_COUNT;

/// So are addresses of abbreviations (section 3.3).
const ABBREVIATIONS_LENGTH: usize = 2 * MOST_ABBREVIATIONS;

/// An entry of a dictionary begins with a key.
const SHORTEST_ENTRY: u8 = KEY_LENGTH as u8;

/// A version of story files that is read (section 11.1).
#[derive(Clone, Copy, Debug, PartialEq, Eq)]
pub enum Version {
    /// Byte $00 is 5.
    V5,
    /// Byte $00 is 8.
    V8,
}

impl Version {
    /// How many bytes a packed address counts by (section 1.2.3), and the length that the header
    /// states (section 11.1.6).
    pub fn scale(self) -> u32
        ensures { result ≡ scale_of self }
    {
        match self {
            Version::V5 => 4,
            Version::V8 => 8,
        }
    }

    /// The version of a story.
    fn of_story(story: &[u8]) -> Option<Version>
        requires { HasHeader story.now }
        ensures { MatchOption result (¬ IsKnownVersion story.now) (IsOfVersion story.now) }
    {
        match story[0] {
            5 => Some(Version::V5),
            8 => Some(Version::V8),
            _ => None,
        }
    }
}

/// Why a story is not read. Where several causes stand, the first in the order of these variants is
/// answered. Each is displayed as its number alone.
#[derive(Clone, Copy, Debug, PartialEq, Eq, Error)]
pub enum HeaderFault {
    /// The story has fewer than the 64 bytes of a header (section 1.1.1.1).
    #[error("Z4")]
    TooShort,
    /// Byte $00 is neither 5 nor 8 (section 11.1).
    #[error("Z5")]
    UnknownVersion,
    /// Word $1A times the version's scale is not the number of bytes (section 11.1.6).
    #[error("Z7")]
    WrongLength,
    /// Word $1C is not the sum of all bytes from $40 on, modulo 65,536 (section 15, `verify`).
    #[error("Z8")]
    WrongSum,
    /// An address that the header names lies outside the memory where it has to lie (section 1.1),
    /// or at the dictionary's address there is none that can be searched (section 13.2).
    #[error("Z6")]
    WrongAddress,
}

/// What the header of a story says (section 11.1). Each address is one of a byte.
#[derive(Clone, Copy, Debug, PartialEq, Eq)]
pub struct Header {
    /// Byte $00: the version of the story file.
    pub version: Version,
    /// Word $0E: where dynamic memory ends and static memory begins.
    pub static_base: u16,
    /// Word $0C: the address of the 240 words of the global variables.
    pub globals: u16,
    /// Word $0A: the address of the 63 words of the property defaults, with which the object table
    /// begins.
    pub defaults: u16,
    /// Word $18: the address of the 96 words of the abbreviation table, or 0 where the story has
    /// none.
    pub abbreviations: u16,
    /// Word $04: where high memory begins.
    pub high_memory: u16,
    /// Word $06: the address of the instruction with which the story begins.
    pub first_instruction: u16,
    /// What stands at word $08.
    pub dictionary: Dictionary,
}

/// The shape of a story's dictionary (section 13.2).
#[derive(Clone, Copy, Debug, PartialEq, Eq)]
pub struct Dictionary {
    /// The byte address where it begins.
    pub address: u16,
    /// The number of word separators, a byte each, which follow its first byte.
    pub separators: u8,
    /// The bytes of one entry, its six bytes of key included.
    pub entry_length: u8,
    /// The number of entries.
    pub entries: u16,
    /// Whether its entries are whole and in the order of their keys, so that it can be searched by
    /// halving (section 13.5).
    pub is_ordered: bool,
}

impl Header {
    /// The header of a story file of version 5 or 8. It takes no memory.
    ///
    /// # Errors
    ///
    /// The first cause in the order of [`HeaderFault`]'s variants, where one stands.
    pub fn read(story: &[u8]) -> Result<Header, HeaderFault>
        ensures { Reads story.now result }
    {
        if story.len() < HEADER_LENGTH {
            return Err(HeaderFault::TooShort);
        }
        let Some(version) = Version::of_story(story) else {
            return Err(HeaderFault::UnknownVersion);
        };
        if !states_length(story, version) {
            return Err(HeaderFault::WrongLength);
        }
        if !states_sum(story) {
            return Err(HeaderFault::WrongSum);
        }
        if !is_placed(story) {
            return Err(HeaderFault::WrongAddress);
        }
        let Some(dictionary) = Dictionary::read(story, read_word(story, DICTIONARY_WORD)) else {
            return Err(HeaderFault::WrongAddress);
        };
        Ok(Header {
            version,
            static_base: read_word(story, STATIC_BASE_WORD),
            globals: read_word(story, GLOBALS_WORD),
            defaults: read_word(story, DEFAULTS_WORD),
            abbreviations: read_word(story, ABBREVIATIONS_WORD),
            high_memory: read_word(story, HIGH_MEMORY_WORD),
            first_instruction: read_word(story, FIRST_INSTRUCTION_WORD),
            dictionary,
        })
    }
}

/// Whether the story is as long as it says.
fn states_length(story: &[u8], version: Version) -> bool
    requires { HasHeader story.now }
    ensures { IsTrue result ↔ StatesLength story.now version }
{
    usize::from(read_word(story, LENGTH_WORD)) * version.scale() as usize == story.len()
}

/// Whether the bytes after the header have the sum that the story says.
fn states_sum(story: &[u8]) -> bool
    requires { HasHeader story.now }
    ensures { IsTrue result ↔ StatesSum story.now }
{
    read_word(story, SUM_WORD) == sum_from(story, HEADER_LENGTH)
}

/// The sum of the bytes from an address on, modulo 65,536.
fn sum_from(story: &[u8], from: usize) -> u16
    requires { from ≤ length story.now }
    ensures { result ≡ sum (drop from story.now) % 65536 }
{
    let mut total: u16 = 0;
    for byte in &story[from..] {
        total = total.wrapping_add(u16::from(*byte));
    }
    total
}

/// Whether so many bytes at an address begin at the start or after it, and end at the end or before
/// it.
fn is_within(start: usize, end: usize, address: u16, bytes: usize) -> bool
    requires { bytes < 65536 }
    ensures { IsTrue result ↔ IsWithin start end address bytes }
{
    let address = usize::from(address);
    start <= address && address + bytes <= end
}

/// Where dynamic and static memory end at the latest.
fn end_of_static(story: &[u8]) -> usize
    ensures { result ≡ static_end story.now }
{
    story.len().min(READABLE)
}

/// Whether each address that the header names lies in the memory that it belongs to.
fn is_placed(story: &[u8]) -> bool
    requires { HasHeader story.now }
    ensures { IsTrue result ↔ IsPlaced story.now }
{
    let length = story.len();
    let static_base = read_word(story, STATIC_BASE_WORD);
    let base = usize::from(static_base);
    let globals = read_word(story, GLOBALS_WORD);
    let defaults = read_word(story, DEFAULTS_WORD);
    let abbreviations = read_word(story, ABBREVIATIONS_WORD);
    let end = end_of_static(story);
    let first_instruction = read_word(story, FIRST_INSTRUCTION_WORD);
    is_within(HEADER_LENGTH, length, static_base, 0)
        && is_within(HEADER_LENGTH, base, globals, GLOBALS_LENGTH)
        && is_within(HEADER_LENGTH, base, defaults, DEFAULTS_LENGTH)
        && (abbreviations == 0
            || is_within(HEADER_LENGTH, end, abbreviations, ABBREVIATIONS_LENGTH))
        && is_within(base, length, read_word(story, HIGH_MEMORY_WORD), 0)
        && is_within(HEADER_LENGTH, length, first_instruction, 1)
        && static_base <= read_word(story, DICTIONARY_WORD)
}

impl Dictionary {
    /// The dictionary at an address, where there is one that can be searched by halving. It takes no
    /// memory.
    pub fn read(story: &[u8], address: u16) -> Option<Dictionary>
        ensures { MatchOption result (¬ IsDictionary story.now address)
            (λ dictionary. IsDictionary story.now address
            × IsDictionaryOf story.now address dictionary) }
    {
        let end = end_of_static(story);
        let start = usize::from(address);
        if start >= end {
            return None;
        }
        let separators = story[start];
        let lengths = start + 1 + usize::from(separators);
        let first_entry = lengths + 3;
        if first_entry > end {
            return None;
        }
        let entry_length = story[lengths];
        let entries = read_word(story, lengths + 1);
        let bytes = usize::from(entry_length);
        let count = usize::from(entries);
        // Entries of six bytes that end by address 65,536 are too few for a negative count.
        if first_entry + count * bytes <= end
            && entry_length >= SHORTEST_ENTRY
            && are_ascending(story, first_entry, bytes, count)
        {
            Some(Dictionary {
                address,
                separators,
                entry_length,
                entries,
                is_ordered: true,
            })
        } else {
            None
        }
    }
}

/// Whether so many entries, the first at an address and each of so many bytes, have keys each above
/// the one before it.
fn are_ascending(story: &[u8], first: usize, bytes: usize, entries: usize) -> bool
    requires whole { first + entries * bytes ≤ length story.now }
    requires key { 6 ≤ bytes }
    ensures { IsTrue result ↔ AreAscending story.now first bytes entries }
{
    for entry in 1..entries {
        let before = first + (entry - 1) * bytes;
        if read_key(story, before) >= read_key(story, before + bytes) {
            return false;
        }
    }
    true
}

/// The six bytes of the key at an address, as a number.
#[tactic(auto, unfolding(crate::specs::Header::key_at))]
fn read_key(story: &[u8], at: usize) -> u64
    requires { at + 6 ≤ length story.now }
    ensures { result ≡ key_at story.now at }
{
    BigEndian::read_u48(&story[at..])
}
