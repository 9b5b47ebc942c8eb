//! The words of a line as bytes for a parse buffer (Z-Machine Standards Document 1.1, section
//! 13.6).

ghost use Rattle.std.specs.Prelude.{◌≡◌, ◌≤◌, ◌+◌, ◌*◌, ◌++◌, true, length, take};
ghost use Rattle.zcore.specs.Header.{HasDictionaryHead, IsDictionary};
ghost use Rattle.zcore.specs.Parsing.{separators_of, first_words, word_bytes};
ghost use Rattle.machine_lines.specs.Lines.{words_parsed};
ghost use Rattle.tables.specs.Placed.{word_of};

use tables::{Word, cut_line, find_entry};
use zcore::word_key;

/// The bytes of as many words as a parse buffer can have room for.
pub(crate) const WORDS_LENGTH: usize = 4 * 255;

/// Room for as many words as most stories ask for, Inform's library for 15.
pub(crate) const USUAL_WORDS: u8 = 16;

/// The bytes of these words.
pub(crate) const USUAL_LENGTH: usize = 4 * 16;

/// Writes four bytes for each of the first words of a line, at most so many, and answers how many
/// words they are. A dictionary that is known to be in order is searched by halving. It takes no
/// memory.
pub(crate) fn parse(
    memory: &[u8],
    dictionary: u16,
    is_ordered: bool,
    letters: &[u8],
    most: u8,
    bytes: &mut [u8],
) -> u8
    requires head { HasDictionaryHead memory.now dictionary }
    requires ordered { is_ordered ≡ true → IsDictionary memory.now dictionary }
    requires few { length letters.now ≤ 255 }
    requires room { 4 * most ≤ length bytes.old }
    ensures size { length bytes.new ≡ length bytes.old }
    ensures count { result ≡ length (first_words memory.now dictionary letters.now most) }
    ensures few { result ≤ most }
    ensures bytes { take (4 * result) bytes.new
        ≡ words_parsed memory.now dictionary letters.now most }
{
    let mut words = cut_line(letters, separators(memory, dictionary));
    let mut count = 0;
    while count < most {
        match words.next() {
            Some(word) => {
                put_word(
                    memory,
                    dictionary,
                    is_ordered,
                    word,
                    bytes,
                    4 * count as usize,
                );
                count += 1;
            }
            None => break,
        }
    }
    count
}

/// The bytes that a dictionary names as separators.
pub fn separators(memory: &[u8], dictionary: u16) -> &[u8]
    requires { HasDictionaryHead memory.now dictionary }
    ensures { result.now ≡ separators_of memory.now dictionary }
{
    let start = dictionary as usize + 1;
    &memory[start..start + memory[start - 1] as usize]
}

/// Writes the four bytes of a word.
fn put_word(
    memory: &[u8],
    dictionary: u16,
    is_ordered: bool,
    word: Word,
    bytes: &mut [u8],
    at: usize,
)
    requires ordered { is_ordered ≡ true → IsDictionary memory.now dictionary }
    requires room { at + 4 ≤ length bytes.old }
    requires within { word.place + length word.bytes.now ≤ 255 }
    ensures size { length bytes.new ≡ length bytes.old }
    ensures written { take (at + 4) bytes.new
        ≡ take at bytes.old ++ word_bytes memory.now dictionary (word_of word.entry) }
{
    let entry = find_entry(memory, dictionary, is_ordered, &word_key(word.bytes));
    bytes[at] = (entry / 256) as u8;
    bytes[at + 1] = (entry % 256) as u8;
    bytes[at + 2] = word.bytes.len() as u8;
    bytes[at + 3] = ((word.place + 2) % 256) as u8;
}
