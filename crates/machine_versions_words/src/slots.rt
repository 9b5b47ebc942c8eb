//! The words of a line as the slots of a parse buffer of versions 1 to 4 (Z-Machine Standards Document
//! 1.1, sections 13.6 and 15, `sread`).

ghost use Rattle.std.specs.Prelude.{◌≡◌, ◌≤◌, ◌+◌, ◌*◌, ◌++◌, true, length, take};
ghost use Rattle.std.specs.List.{flat_map};
ghost use Rattle.zcore.specs.Header.{HasDictionaryHead, IsDictionary, dictionary_of};
ghost use Rattle.zcore.specs.Parsing.{first_words};
ghost use Rattle.zcore_versions.specs.Reading.{slot_bytes};
ghost use Rattle.tables.specs.Placed.{word_of};
ghost use Rattle.zcore_versions.specs.Versions.{versioned};

use crate::search::entry_for;
use machine_lines::separators;
use machine_standard_words::put_four;
use tables::{Word, cut_line};
use zcore::Dictionary;
use zcore_standard::Loaded;
use zcore_versions::StoryVersion;

/// The bytes of as many slots as a parse buffer can have.
pub(crate) const SLOTS_LENGTH: usize = 4 * 255;

/// Writes the slots of the first words of a line, at most so many, and answers how many words they are.
/// It takes no memory.
pub(crate) fn slots(
    loaded: &Loaded,
    version: StoryVersion,
    memory: &[u8],
    dictionary: Dictionary,
    letters: &[u8],
    most: u8,
    bytes: &mut [u8; 1020],
) -> u8
    requires own { dictionary.address ≡ dictionary_of memory.now }
    requires head { HasDictionaryHead memory.now dictionary.address }
    requires ordered { dictionary.is_ordered ≡ true → IsDictionary memory.now dictionary.address }
    requires few { length letters.now ≤ 255 }
    ensures count { result ≡ length (first_words memory.now dictionary.address letters.now most) }
    ensures few { result ≤ most }
    ensures bytes { take (4 * result) bytes.new
        ≡ flat_map (slot_bytes (versioned loaded.now version) memory.now)
        (first_words memory.now dictionary.address letters.now most) }
{
    let mut words = cut_line(letters, separators(memory, dictionary.address));
    let mut count = 0;
    while count < most {
        match words.next() {
            Some(word) => {
                let place = 4 * count as usize;
                put_slot(loaded, version, memory, dictionary, word, bytes, place);
                count += 1;
            }
            None => break,
        }
    }
    count
}

/// Writes the slot of a word to a place of a row.
fn put_slot(
    loaded: &Loaded,
    version: StoryVersion,
    memory: &[u8],
    dictionary: Dictionary,
    word: Word,
    bytes: &mut [u8; 1020],
    place: usize,
)
    requires own { dictionary.address ≡ dictionary_of memory.now }
    requires head { HasDictionaryHead memory.now dictionary.address }
    requires ordered { dictionary.is_ordered ≡ true → IsDictionary memory.now dictionary.address }
    requires room { place + 4 ≤ 1020 }
    requires within { word.place + length word.bytes.now ≤ 255 }
    ensures { take (place + 4) bytes.new ≡ take place bytes.old
        ++ slot_bytes (versioned loaded.now version) memory.now (word_of word.entry) }
{
    let entry = entry_for(
        loaded,
        version,
        memory,
        dictionary.address,
        dictionary.is_ordered,
        word.bytes,
    );
    let length = word.bytes.len() as u8;
    let letter = ((word.place + 1) % 256) as u8;
    put_four(
        bytes,
        place,
        (entry / 256) as u8,
        (entry % 256) as u8,
        length,
        letter,
    );
}
