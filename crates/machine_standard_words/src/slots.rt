//! The words of a text as the slots of a parse buffer (Z-Machine Standards Document 1.1, sections
//! 13.6 and 15, `tokenise`).

ghost use Rattle.std.specs.Prelude.{◌≡◌, ◌≤◌, ◌+◌, ◌*◌, ◌++◌, ◌∷◌, [], true, length, take};
ghost use Rattle.zcore.specs.Header.{HasDictionaryHead, IsDictionary, static_end};
ghost use Rattle.zcore.specs.Parsing.{first_words};
ghost use Rattle.zcore_standard.specs.Words.{slot_bytes, slots_bytes};
ghost use Rattle.zcore_standard.specs.Texts.{alphabets_of};
ghost use Rattle.tables.specs.Placed.{word_of};

use crate::search::entry_with_form;
use machine_lines::separators;
use tables::{Word, cut_line};
use zcore_standard::Loaded;

/// The bytes of as many slots as a parse buffer can have.
pub(crate) const SLOTS_LENGTH: usize = 4 * 255;

/// How words are looked up.
#[derive(Clone, Copy)]
pub(crate) struct Search {
    /// The address of a dictionary, whose head can be read.
    pub(crate) dictionary: u16,
    /// Whether it is known to be in order, and can be searched by halving.
    pub(crate) is_ordered: bool,
    /// Not 0 where a word that is not found leaves its slot as it is.
    pub(crate) flag: u16,
}

/// Writes the slots of the first words of a text, at most so many, and answers how many words they
/// are. `at` is the address of the first slot, whose bytes are read where the flag leaves them. It
/// takes no memory.
pub(crate) fn slots(
    loaded: &Loaded,
    memory: &[u8],
    search: Search,
    letters: &[u8],
    most: u8,
    at: usize,
    bytes: &mut [u8; 1020],
) -> u8
    requires head { HasDictionaryHead memory.now search.dictionary }
    requires ordered { search.is_ordered ≡ true → IsDictionary memory.now search.dictionary }
    requires few { length letters.now ≤ 255 }
    requires room { at + 4 * most ≤ static_end memory.now }
    ensures count { result ≡ length (first_words memory.now search.dictionary letters.now most) }
    ensures few { result ≤ most }
    ensures bytes { take (4 * result) bytes.new
        ≡ slots_bytes (alphabets_of loaded.now) memory.now search.dictionary search.flag
        at (first_words memory.now search.dictionary letters.now most) }
{
    let mut words = cut_line(letters, separators(memory, search.dictionary));
    let mut count = 0;
    while count < most {
        match words.next() {
            Some(word) => {
                let offset = 4 * count as usize;
                put_slot(loaded, memory, search, word, at + offset, bytes, offset);
                count += 1;
            }
            None => break,
        }
    }
    count
}

/// How many words of a text have slots, where there are so many of these.
pub(crate) fn count_words(memory: &[u8], dictionary: u16, letters: &[u8], most: u8) -> u8
    requires { HasDictionaryHead memory.now dictionary }
    ensures { result ≡ length (first_words memory.now dictionary letters.now most) }
{
    let mut words = cut_line(letters, separators(memory, dictionary));
    let mut count = 0;
    while count < most {
        match words.next() {
            Some(_) => count += 1,
            None => break,
        }
    }
    count
}

/// Writes the slot of a word, which is at an address, to a place of a row.
fn put_slot(
    loaded: &Loaded,
    memory: &[u8],
    search: Search,
    word: Word,
    at: usize,
    bytes: &mut [u8; 1020],
    place: usize,
)
    requires ordered { search.is_ordered ≡ true → IsDictionary memory.now search.dictionary }
    requires slot { at + 4 ≤ static_end memory.now }
    requires room { place + 4 ≤ 1020 }
    requires within { word.place + length word.bytes.now ≤ 255 }
    ensures { take (place + 4) bytes.new ≡ take place bytes.old
        ++ slot_bytes (alphabets_of loaded.now) memory.now search.dictionary search.flag at
        (word_of word.entry) }
{
    let entry = entry_with_form(
        loaded,
        memory,
        search.dictionary,
        search.is_ordered,
        word.bytes,
    );
    if entry == 0 && search.flag != 0 {
        put_four(
            bytes,
            place,
            memory[at],
            memory[at + 1],
            memory[at + 2],
            memory[at + 3],
        );
    } else {
        let length = word.bytes.len() as u8;
        let letter = ((word.place + 2) % 256) as u8;
        put_four(
            bytes,
            place,
            (entry / 256) as u8,
            (entry % 256) as u8,
            length,
            letter,
        );
    }
}

/// Writes four bytes to a place of a row.
pub fn put_four(bytes: &mut [u8; 1020], place: usize, a: u8, b: u8, c: u8, d: u8)
    requires { place + 4 ≤ 1020 }
    ensures { take (place + 4) bytes.new ≡ take place bytes.old ++ a ∷ b ∷ c ∷ d ∷ [] }
{
    bytes[place] = a;
    bytes[place + 1] = b;
    bytes[place + 2] = c;
    bytes[place + 3] = d;
}
