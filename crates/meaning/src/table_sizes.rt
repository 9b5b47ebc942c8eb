//! How large the tables of objects are. Nothing bounds how much a source lists, so sums of sizes
//! are folded.

ghost use Rattle.std.specs.Prelude.{◌≡◌, ◌+◌, ◌*◌, ◌<◌, ◌≤◌, ◌^◌, ℕ, length, map};
ghost use Rattle.ztext.specs.Alphabets.{spelled};
ghost use Rattle.meaning.specs.Views.{object_of, property_of};
ghost use Rattle.meaning.specs.Places.{total};
ghost use Rattle.meaning.specs.Places as spec;

use crate::checked::CheckedObject;
use zcore::{Abbreviations, spelling_length, words_for};

/// A size up to 65,535 is itself; what a greater one becomes is as well above 65,535, and has the
/// same remainder by 65,536.
#[tactic(auto, using(crate::proofs::Folding::fold_small, crate::proofs::Folding::fold_great))]
pub fn fold(size: u128) -> usize
    ensures size { result ≡ spec.folded size }
    ensures few { result < 131072 }
{
    if size < 65_536 {
        size as usize
    } else {
        65_536 + (size % 65_536) as usize
    }
}

/// The character of the machine for a byte of a text.
pub fn machine_character(byte: u8) -> u8
    ensures { result ≡ spec.machine_character byte }
{
    if byte == b'^' {
        13
    } else if byte == b'~' {
        34
    } else {
        byte
    }
}

/// The Z-characters of a name.
#[tactic(auto, using(crate::proofs::Folding::characters_more))]
fn name_characters(name: &[u8]) -> u128
    ensures many { result ≡ length (spelled (map spec.machine_character name.now)) }
    ensures few { result ≤ 4 * 2 ^ 64 }
{
    let mut count = 0;
    for byte in name {
        count += spelling_length(machine_character(*byte)) as u128;
    }
    count
}

/// The Z-characters of a text in characters of the machine.
#[tactic(auto, using(crate::proofs::Folding::text_characters_more))]
pub fn text_characters(text: &[u8]) -> u128
    ensures many { result ≡ length (spelled text.now) }
    ensures few { result ≤ 4 * 2 ^ 64 }
{
    let mut count = 0;
    for character in text {
        count += spelling_length(*character) as u128;
    }
    count
}

/// The bytes of the Z-text of a text in characters of the machine.
pub fn text_size(text: &[u8]) -> u128
    ensures size { result ≡ spec.text_size text.now }
    ensures few { result ≤ 8 * 2 ^ 64 + 2 }
{
    2 * words_for(text_characters(text))
}

/// The bytes of the Z-texts of texts, one after another, folded.
fn texts_size(texts: &[Vec<u8>]) -> usize
    ensures size { result
        ≡ spec.folded (total (map spec.text_size (map (λ t. t.items) texts.now))) }
    ensures few { result < 131072 }
{
    let mut size = 0;
    for text in texts {
        size = fold(size as u128 + text_size(text));
    }
    size
}

/// The bytes of the Z-texts of abbreviations, one after another, folded.
pub fn abbreviations_size(abbreviations: &Abbreviations) -> usize
    ensures size { result ≡ spec.folded (total (map spec.text_size abbreviations.now)) }
    ensures few { result < 131072 }
{
    texts_size(abbreviations.texts())
}

/// The words of a name in a property table.
pub fn name_words(name: &[u8]) -> u128
    ensures words { result ≡ spec.name_words name.now }
    ensures few { result ≤ 4 * 2 ^ 64 + 1 }
{
    if name.is_empty() {
        0
    } else {
        words_for(name_characters(name))
    }
}

/// The bytes of a property of these words.
fn property_size(words: &[u16]) -> u128
    ensures size { (number : ℕ) → result ≡ spec.property_size (number, words.now) }
    ensures few { result ≤ 2 + 2 * 2 ^ 64 }
{
    let head = if words.len() == 1 { 1 } else { 2 };
    head + 2 * words.len() as u128
}

/// The bytes of all properties of an object, folded.
fn properties_size(properties: &[(u8, Vec<u16>)]) -> usize
    ensures size { result
        ≡ spec.folded (total (map spec.property_size (map property_of properties.now))) }
    ensures few { result < 131072 }
{
    let mut size = 0;
    for property in properties {
        size = fold(size as u128 + property_size(&property.1));
    }
    size
}

/// The bytes of the property table of an object, folded.
pub(crate) fn table_size(object: &CheckedObject<'_>) -> usize
    ensures size { result ≡ spec.folded (spec.table_size (object_of object.now)) }
    ensures few { result < 131072 }
{
    let properties = properties_size(&object.properties);
    fold(2 + 2 * name_words(object.name) + properties as u128)
}
