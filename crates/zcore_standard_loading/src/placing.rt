//! Whether the addresses that a header names lie where they have to.

ghost use Rattle.std.specs.Prelude.{◌≡◌, ◌+◌, ◌*◌, ◌≤◌, ◌↔◌, IsTrue, MatchOption};
ghost use Rattle.zcore.specs.Header.{HasDictionaryHead, HasHeader, IsDictionary, IsDictionaryOf, IsWithin, static_end};
ghost use Rattle.zcore_standard_loading.specs.Loading as definitions;
ghost use Rattle.zcore_standard_loading.specs.Loading.{HasAbbreviations, HasCharacters, IsPlaced, IsTable, IsExtension, IsUnicode};

use zcore::Dictionary;
use zcore::layout::{
    ABBREVIATIONS_WORD, DEFAULTS_LENGTH, DEFAULTS_WORD, DICTIONARY_WORD, FIRST_INSTRUCTION_WORD,
    GLOBAL_COUNT, GLOBALS_WORD, HEADER_LENGTH, READABLE, STATIC_BASE_WORD,
};
use zcore_standard::{extension_of, late_word};
use ztext::{MOST_ABBREVIATIONS, read_word};

/// Globals are words (section 6.2).
const GLOBALS_LENGTH: usize = 2 * GLOBAL_COUNT;

/// So are addresses of abbreviations (section 3.3).
const ABBREVIATIONS_LENGTH: usize = 2 * MOST_ABBREVIATIONS;

/// Version 2 has 32 of them.
const FEWER_ABBREVIATIONS_LENGTH: usize = 64;

/// The defaults of properties up to version 3: 31 words (section 12.2).
const SMALL_DEFAULTS_LENGTH: usize = 62;

/// The word of the extension that is the address of the Unicode table (section 11.1.7).
const UNICODE_TABLE: u16 = 3;

/// The header's word for the address of the story's own alphabets (section 3.5.5).
const ALPHABETS_WORD: usize = 0x34;

/// The three alphabets have 26 letters each, of a byte.
pub(crate) const ALPHABETS_LENGTH: usize = 78;

/// The bytes of the longest extension: a word that counts, and the words.
const LONGEST_EXTENSION: usize = 0x2_0000;

/// Whether so many bytes at an address begin at the start or after it, and end at the end or before
/// it.
fn is_within(start: usize, end: usize, address: u16, bytes: usize) -> bool
    requires { bytes ≤ LONGEST_EXTENSION }
    ensures { IsTrue result ↔ IsWithin start end address bytes }
{
    let address = usize::from(address);
    start <= address && address + bytes <= end
}

/// Whether an address is 0, or so many bytes there lie after the header where instructions can read
/// them.
fn is_table(story: &[u8], address: u16, bytes: usize) -> bool
    requires { bytes ≤ LONGEST_EXTENSION }
    ensures { IsTrue result ↔ IsTable story.now address bytes }
{
    address == 0 || is_within(HEADER_LENGTH, end_of_static(story), address, bytes)
}

/// Where dynamic and static memory end at the latest.
fn end_of_static(story: &[u8]) -> usize
    ensures { result ≡ static_end story.now }
{
    story.len().min(READABLE)
}

/// Whether the extension of the header is whole.
fn has_extension(story: &[u8]) -> bool
    requires { HasHeader story.now }
    ensures { IsTrue result ↔ IsExtension story.now }
{
    let extension = extension_of(story);
    if !is_table(story, extension, 2) {
        return false;
    }
    let words = usize::from(read_word(story, usize::from(extension)));
    is_table(story, extension, 2 + 2 * words)
}

/// The address of the Unicode table, or 0.
pub(crate) fn unicode_table(story: &[u8]) -> u16
    requires header { HasHeader story.now }
    requires extension { IsExtension story.now }
    ensures { result ≡ definitions.unicode_table_of story.now }
{
    let extension = extension_of(story);
    let at = usize::from(extension);
    if 1 <= extension && UNICODE_TABLE <= read_word(story, at) {
        read_word(story, at + 2 * usize::from(UNICODE_TABLE))
    } else {
        0
    }
}

/// Whether the Unicode table is whole.
fn has_unicode(story: &[u8]) -> bool
    requires header { HasHeader story.now }
    requires extension { IsExtension story.now }
    ensures { IsTrue result ↔ IsUnicode story.now }
{
    let table = unicode_table(story);
    if !is_table(story, table, 1) {
        return false;
    }
    let count = usize::from(story[usize::from(table)]);
    is_table(story, table, 1 + 2 * count)
}

/// The address of the story's own alphabets, or 0.
pub(crate) fn alphabet_table(story: &[u8]) -> u16
    requires { HasHeader story.now }
    ensures { result ≡ definitions.alphabet_table_of story.now }
{
    late_word(story, ALPHABETS_WORD)
}

/// Whether the Unicode table is whole, and the table of the story's own alphabets, if it has them.
fn has_characters(story: &[u8]) -> bool
    requires header { HasHeader story.now }
    requires extension { IsExtension story.now }
    ensures { IsTrue result ↔ HasCharacters story.now }
{
    has_unicode(story) && is_table(story, alphabet_table(story), ALPHABETS_LENGTH)
}

/// How many bytes the defaults of properties have.
fn defaults_length(story: &[u8]) -> usize
    requires { HasHeader story.now }
    ensures length { result ≡ definitions.defaults_size_in story.now }
    ensures short { result ≤ DEFAULTS_LENGTH }
{
    if story[0] <= 3 {
        SMALL_DEFAULTS_LENGTH
    } else {
        DEFAULTS_LENGTH
    }
}

/// Whether the table of abbreviations lies where instructions can read it, if the version has one.
fn has_abbreviations(story: &[u8]) -> bool
    requires { HasHeader story.now }
    ensures { IsTrue result ↔ HasAbbreviations story.now }
{
    let table = read_word(story, ABBREVIATIONS_WORD);
    match story[0] {
        1 => true,
        0 | 2 => is_table(story, table, FEWER_ABBREVIATIONS_LENGTH),
        _ => is_table(story, table, ABBREVIATIONS_LENGTH),
    }
}

/// Whether each address that the header names lies in the memory that it belongs to.
pub(crate) fn is_placed(story: &[u8]) -> bool
    requires { HasHeader story.now }
    ensures { IsTrue result ↔ IsPlaced story.now }
{
    let length = story.len();
    let static_base = read_word(story, STATIC_BASE_WORD);
    let base = usize::from(static_base);
    let globals = read_word(story, GLOBALS_WORD);
    let defaults = read_word(story, DEFAULTS_WORD);
    let first_instruction = read_word(story, FIRST_INSTRUCTION_WORD);
    is_within(HEADER_LENGTH, length, static_base, 0)
        && is_within(HEADER_LENGTH, base, globals, GLOBALS_LENGTH)
        && is_within(HEADER_LENGTH, base, defaults, defaults_length(story))
        && has_abbreviations(story)
        && is_within(HEADER_LENGTH, length, first_instruction, 1)
        && static_base <= read_word(story, DICTIONARY_WORD)
        && has_extension(story)
        && has_characters(story)
}

/// The dictionary at an address, where what comes before its entries can be read.
pub(crate) fn read_dictionary(story: &[u8], address: u16) -> Option<Dictionary>
    ensures { MatchOption result (¬ HasDictionaryHead story.now address)
        (λ dictionary. HasDictionaryHead story.now address
        × IsDictionaryOf story.now address dictionary) }
{
    let end = end_of_static(story);
    let start = usize::from(address);
    if start >= end {
        return None;
    }
    let separators = story[start];
    let lengths = start + 1 + usize::from(separators);
    if lengths + 3 > end {
        return None;
    }
    Some(Dictionary {
        address,
        separators,
        entry_length: story[lengths],
        entries: read_word(story, lengths + 1),
        is_ordered: is_ordered(story, address),
    })
}

/// Whether the dictionary at an address can be searched by halving.
fn is_ordered(story: &[u8], address: u16) -> bool
    ensures { IsTrue result ↔ IsDictionary story.now address }
{
    Dictionary::read(story, address).is_some()
}
