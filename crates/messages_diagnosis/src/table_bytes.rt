//! How many bytes the tables of a story have that grow with its source.

ghost use Rattle.std.specs.Prelude.{◌≡◌, ◌+◌, ◌*◌, ◌<◌, ◌≤◌, ◌^◌, ℕ, length, map};
ghost use Rattle.std.specs.List.{All};
ghost use Rattle.ztext.specs.Alphabets.{spelled};
ghost use Rattle.ztext.specs.Bytes.{most_abbreviations};
ghost use Rattle.zcore.specs.Layout.{object_entry_size};
ghost use Rattle.meaning.specs.Views.{program_of, object_of, property_of};
ghost use Rattle.meaning.specs.Limits.{most_objects, most_property_words};
ghost use Rattle.meaning.specs.Places.{total};
ghost use Rattle.meaning.specs.Places as places;
ghost use Rattle.messages_diagnosis.specs.Figures.{AreTables, HasFewWords, ObjectHasFewWords};

use meaning::{Checked, CheckedObject, name_words};
use tables::layout::DICTIONARY_ENTRY_LENGTH;
use zcore::layout::OBJECT_ENTRY_LENGTH;
use zcore::{spelling_length, words_for};

/// The bytes of the tables that grow with a source. A story has [`FIXED_LENGTH`] bytes beside them
/// before its routines.
#[derive(Clone, Copy)]
pub struct TableBytes {
    pub arrays: usize,

    /// The entries of objects and their property tables.
    pub objects: u128,

    /// The entries of the dictionary, nine for each key.
    pub words: u128,

    /// The texts of abbreviations, and a byte before the first where its address would be odd.
    pub abbreviations: u128,
}

/// How many bytes of a story stand before its routines and not in these tables: the header, the
/// table of abbreviations, the empty text, the globals, the property defaults, the head of the
/// dictionary, and the code that begins the story.
pub const FIXED_LENGTH: u128 = 875;

/// The most bytes of all tables that grow with a source: what stands before the routines ends at
/// 65,535 at most.
pub const MOST_TABLE_BYTES: u128 = 65_535 - FIXED_LENGTH;

/// The bytes of a property of these words.
fn property_bytes(words: &[u16]) -> u128
    requires { length words.now ≤ most_property_words }
    ensures size { (number : ℕ) → result ≡ places.property_size (number, words.now) }
    ensures few { result ≤ 66 }
{
    let head = if words.len() == 1 { 1 } else { 2 };
    head + 2 * words.len() as u128
}

/// The bytes of all properties of an object.
fn properties_bytes(properties: &[(u8, Vec<u16>)]) -> u128
    requires { All HasFewWords properties.now }
    ensures size { result ≡ total (map places.property_size (map property_of properties.now)) }
    ensures few { result ≤ 66 * 2 ^ 64 }
{
    let mut size = 0;
    for property in properties {
        size += property_bytes(&property.1);
    }
    size
}

/// The bytes of an object's entry and property table.
fn object_bytes(object: &CheckedObject<'_>) -> u128
    requires { ObjectHasFewWords object.now }
    ensures size { result ≡ object_entry_size + places.table_size (object_of object.now) }
    ensures few { result ≤ 75 * 2 ^ 64 }
{
    let properties = properties_bytes(&object.properties);
    OBJECT_ENTRY_LENGTH as u128 + 2 + 2 * name_words(object.name) + properties
}

/// The bytes of the entries of objects and of their property tables.
fn objects_bytes(objects: &[CheckedObject<'_>]) -> u128
    requires words { All ObjectHasFewWords objects.now }
    requires few { length objects.now ≤ most_objects }
    ensures size { result ≡ places.objects_size (map object_of objects.now) }
    ensures few { result ≤ 150000 * 2 ^ 64 }
{
    let mut size = 0;
    for object in objects {
        size += object_bytes(object);
    }
    size
}

/// The Z-characters of a text in characters of the machine.
#[tactic(auto, using(meaning::proofs::Folding::text_characters_more))]
fn text_characters(text: &[u8]) -> u128
    ensures many { result ≡ length (spelled text.now) }
    ensures few { result ≤ 4 * 2 ^ 64 }
{
    let mut count = 0;
    for character in text {
        count += spelling_length(*character) as u128;
    }
    count
}

/// The bytes of the Z-text of a text in characters of the machine.
fn text_bytes(text: &[u8]) -> u128
    ensures size { result ≡ places.text_size text.now }
    ensures few { result ≤ 8 * 2 ^ 64 + 2 }
{
    2 * words_for(text_characters(text))
}

/// The bytes of the Z-texts of texts, one behind another.
fn texts_bytes(texts: &[Vec<u8>]) -> u128
    requires { length texts.now ≤ most_abbreviations }
    ensures size { result ≡ total (map places.text_size (map (λ t. t.items) texts.now)) }
    ensures few { result ≤ 1000 * 2 ^ 64 }
{
    let mut size = 0;
    for text in texts {
        size += text_bytes(text);
    }
    size
}

/// The byte before texts that would begin at an odd address; none where there are no texts.
fn filling(texts: &[Vec<u8>], end: u128) -> u128
    ensures size { result ≡ places.filling_before (map (λ t. t.items) texts.now) end }
    ensures few { result ≤ 1 }
{
    if texts.is_empty() { 0 } else { end % 2 }
}

impl TableBytes {
    ghost use Rattle.std.specs.Prelude.{◌≡◌, ◌<◌, ◌≤◌, ◌^◌, length};
    ghost use Rattle.std.specs.List.{All};
    ghost use Rattle.ztext.specs.Bytes.{most_abbreviations};
    ghost use Rattle.meaning.specs.Views.{program_of};
    ghost use Rattle.meaning.specs.Limits.{most_objects};
    ghost use Rattle.messages_diagnosis.specs.Figures.{AreTables, ObjectHasFewWords, table_total, IsSummable};

    /// Those of a checked program, whatever they are.
    pub fn of(checked: &Checked<'_>) -> TableBytes
        requires words { All ObjectHasFewWords checked.now.objects }
        requires few { length checked.now.objects ≤ most_objects }
        requires short { length checked.now.abbreviations ≤ most_abbreviations }
        ensures tables { AreTables (program_of checked.now) result }
        ensures summable { IsSummable result }
    {
        let arrays = checked.array_bytes().len();
        let objects = objects_bytes(checked.objects());
        let words = DICTIONARY_ENTRY_LENGTH as u128 * checked.keys().len() as u128;
        let texts = checked.abbreviations().texts();
        let end = FIXED_LENGTH - 4 + arrays as u128 + objects + words;
        TableBytes {
            arrays,
            objects,
            words,
            abbreviations: filling(texts, end) + texts_bytes(texts),
        }
    }

    /// All of them.
    pub fn total(&self) -> u128
        requires { IsSummable self.now }
        ensures { result ≡ table_total self.now }
    {
        self.arrays as u128 + self.objects + self.words + self.abbreviations
    }
}
