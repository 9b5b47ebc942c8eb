//! Where the parts of a story stand.

ghost use Rattle.std.specs.Prelude.{◌≡◌, ◌+◌, ◌*◌, ◌<◌, ◌≤◌, ◌^◌, ℕ, length, map};
ghost use Rattle.meaning.specs.Views.{program_of, object_of};
ghost use Rattle.meaning.specs.Places.{folded, places_of, routines_place};
ghost use Rattle.meaning.specs.Places as spec;
ghost use Rattle.tables.specs.KeyNumbers.{entry_size, head_size};

use crate::checked::{Checked, CheckedObject};
use crate::table_sizes::{abbreviations_size, fold, table_size};
use tables::layout::{DICTIONARY_ENTRY_LENGTH, DICTIONARY_HEAD_LENGTH};
use zcore::layout::{DEFAULTS_LENGTH, GLOBAL_COUNT, HEADER_LENGTH, OBJECT_ENTRY_LENGTH};
use ztext::MOST_ABBREVIATIONS;

/// The bytes of the empty text, which abbreviations name that the source has not.
const EMPTY_TEXT_LENGTH: usize = 2;

/// The bytes of the code that begins a story, with which high memory begins. The routines follow it.
pub const START_LENGTH: usize = 4;

/// The addresses of the parts of a story that stand before its routines, and that of the first
/// routine at the earliest.
#[derive(Clone, Copy)]
pub struct Places {
    pub globals: usize,

    /// The property defaults, with which the object table begins.
    pub defaults: usize,

    /// The dictionary, with which static memory begins.
    pub dictionary: usize,

    /// The texts of abbreviations.
    pub texts: usize,

    /// The code that calls `Main`, with which high memory begins.
    pub start: usize,

    pub routines: usize,
}

/// The bytes of the entries of objects and of their property tables, folded.
pub fn objects_size(objects: &[CheckedObject<'_>]) -> usize
    ensures size { result ≡ folded (spec.objects_size (map object_of objects.now)) }
    ensures few { result < 131072 }
{
    let mut size = 0;
    for object in objects {
        size = fold((size + OBJECT_ENTRY_LENGTH + table_size(object)) as u128);
    }
    size
}

/// Where the dictionary stands, after so many bytes of arrays and of objects, folded.
pub fn dictionary_after(arrays: usize, objects: usize) -> usize
    ensures place { result ≡ folded (864 + arrays + objects) }
    ensures few { result < 131072 }
{
    let fixed = HEADER_LENGTH
        + 2 * MOST_ABBREVIATIONS
        + EMPTY_TEXT_LENGTH
        + 2 * GLOBAL_COUNT
        + DEFAULTS_LENGTH;
    fold(fixed as u128 + arrays as u128 + objects as u128)
}

/// Where the texts of abbreviations stand, where the dictionary stands there.
fn texts_after(checked: &Checked<'_>, dictionary: usize) -> usize
    requires { dictionary < 131072 }
    ensures place { (let end = dictionary + (head_size + entry_size * length checked.now.keys) in
        result ≡ end + spec.filling_before checked.now.abbreviations end) }
    ensures few { result < 2 ^ 63 }
{
    let end = dictionary + DICTIONARY_HEAD_LENGTH + DICTIONARY_ENTRY_LENGTH * checked.keys().len();
    if checked.abbreviations().texts().is_empty() {
        end
    } else {
        end + end % 2
    }
}

/// The bytes of all that stands before the routines, folded.
pub fn tables_size(checked: &Checked<'_>) -> usize
    ensures { result ≡ folded (routines_place (program_of checked.now)) }
{
    let objects = objects_size(checked.objects());
    let dictionary = dictionary_after(checked.array_bytes().len(), objects);
    let texts = texts_after(checked, dictionary);
    fold((texts + abbreviations_size(checked.abbreviations()) + START_LENGTH) as u128)
}

/// Where the parts of the story of a program stand.
pub fn part_places(checked: &Checked<'_>) -> Places
    requires { routines_place (program_of checked.now) ≤ 65535 }
    ensures { result ≡ places_of (program_of checked.now) }
{
    let globals = HEADER_LENGTH + 2 * MOST_ABBREVIATIONS + EMPTY_TEXT_LENGTH;
    let arrays = checked.array_bytes().len();
    let dictionary = dictionary_after(arrays, objects_size(checked.objects()));
    let texts = texts_after(checked, dictionary);
    let start = texts + abbreviations_size(checked.abbreviations());
    Places {
        globals,
        defaults: globals + 2 * GLOBAL_COUNT + arrays,
        dictionary,
        texts,
        start,
        routines: start + START_LENGTH,
    }
}
