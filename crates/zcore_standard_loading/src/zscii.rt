//! The characters of the ZSCII codes from 155 on, and the alphabets.

ghost use Rattle.std.specs.Prelude.{◌≡◌, ◌+◌, ◌*◌, ◌≤◌, length, slice_range, IfOk};
ghost use Rattle.zcore.specs.Header.{HasHeader};
ghost use Rattle.zcore_standard_loading.specs.Loading as definitions;
ghost use Rattle.zcore_standard_loading.specs.Loading.{IsPlaced};
ghost use Rattle.zcore_standard.specs.Unicode.{default_characters};

use crate::placing::{ALPHABETS_LENGTH, alphabet_table, unicode_table};
use std::alloc::{AllocError, Global};
use ztext::read_word;

/// Those of the codes 155 to 223 where a story has no table of its own (section 3.8.5.3).
const DEFAULT_CHARACTERS: [u16; 69] = [
    0xE4, 0xF6, 0xFC, 0xC4, 0xD6, 0xDC, 0xDF, 0xBB, 0xAB, 0xEB, 0xEF, 0xFF, 0xCB, 0xCF, 0xE1, 0xE9,
    0xED, 0xF3, 0xFA, 0xFD, 0xC1, 0xC9, 0xCD, 0xD3, 0xDA, 0xDD, 0xE0, 0xE8, 0xEC, 0xF2, 0xF9, 0xC0,
    0xC8, 0xCC, 0xD2, 0xD9, 0xE2, 0xEA, 0xEE, 0xF4, 0xFB, 0xC2, 0xCA, 0xCE, 0xD4, 0xDB, 0xE5, 0xC5,
    0xF8, 0xD8, 0xE3, 0xF1, 0xF5, 0xC3, 0xD1, 0xD5, 0xE6, 0xC6, 0xE7, 0xC7, 0xFE, 0xF0, 0xDE, 0xD0,
    0xA3, 0x153, 0x152, 0xA1, 0xBF,
];

/// A table gives characters for the codes 155 to 251 at most (section 3.8.5.1).
const MOST_CHARACTERS: u8 = 97;

/// The characters of the ZSCII codes from 155 on, as Unicode: those of the story's table, or else
/// the default ones.
///
/// # Errors
///
/// `AllocError` if memory is refused.
pub fn characters_of(alloc: Global, memory: &[u8]) -> Result<Vec<u16>, AllocError>
    requires header { HasHeader memory.now }
    requires placed { IsPlaced memory.now }
    ensures { IfOk result (λ found. found.items ≡ definitions.characters_of memory.now) }
{
    let table = usize::from(unicode_table(memory));
    if table == 0 {
        return default_list(alloc);
    }
    let count = memory[table].min(MOST_CHARACTERS);
    words_from(alloc, memory, table + 1, usize::from(count))
}

/// The three alphabets of the story's own, of 26 ZSCII codes each, if it has them.
pub fn own_alphabets_of(memory: &[u8]) -> Option<[u8; 78]>
    requires header { HasHeader memory.now }
    requires placed { IsPlaced memory.now }
    ensures { result ≡ definitions.own_alphabets_of memory.now }
{
    let table = alphabet_table(memory) as usize;
    if table == 0 {
        return None;
    }
    Some(alphabets_at(memory, table))
}

/// The alphabets of a table.
fn alphabets_at(memory: &[u8], table: usize) -> [u8; 78]
    requires { table + ALPHABETS_LENGTH ≤ length memory.now }
    ensures { result ≡ slice_range memory.now table (table + ALPHABETS_LENGTH) }
{
    let mut alphabets = [0; ALPHABETS_LENGTH];
    alphabets[..].copy_from_slice(&memory[table..table + ALPHABETS_LENGTH]);
    alphabets
}

/// The default characters.
fn default_list(alloc: Global) -> Result<Vec<u16>, AllocError>
    ensures { IfOk result (λ found. found.items ≡ default_characters) }
{
    let Ok(found) = Vec::from_array(alloc, DEFAULT_CHARACTERS) else {
        return Err(AllocError);
    };
    Ok(found)
}

/// So many words of memory, the first at an address.
fn words_from(alloc: Global, memory: &[u8], at: usize, count: usize) -> Result<Vec<u16>, AllocError>
    requires { at + 2 * count ≤ length memory.now }
    ensures { IfOk result (λ words. words.items ≡ definitions.words_from memory.now at count) }
{
    let mut words = Vec::new(alloc);
    for i in 0..count {
        words.push(read_word(memory, at + 2 * i))?;
    }
    Ok(words)
}
