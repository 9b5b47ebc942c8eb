//! The letters and words of a line that is typed (Z-Machine Standards Document 1.1, section 15,
//! `aread`).

ghost use Rattle.std.specs.Prelude.{◌≡◌, ◌≢◌, ◌≤◌, ◌+◌, ◌*◌, true, length, take, slice_index, OnOk, OnErr};
ghost use Rattle.zcore.specs.Layout.{header_size};
ghost use Rattle.zcore_standard.specs.Reading as definitions;
ghost use Rattle.zcore_standard.specs.Texts.{alphabets_of};
ghost use Rattle.machine_frames.specs.Contents.{memory_of};
ghost use Rattle.machine_frames.specs.States.{IsStoreOf};
ghost use Rattle.machine_frames.specs.Went.{GivenUp};
ghost use Rattle.machine_lines.specs.Lines.{Filled, HasRoomForLetters, HasRoomForWords};

use crate::lines::put_small_letters;
use crate::slots::{SLOTS_LENGTH, Search, slots};
use journal::{NoMemory, Recorded};
use machine_frames::Store;
use machine_lines::fill_counted;
use zcore::Header;
use zcore_standard::Loaded;

/// As many letters as a text buffer can have room for.
const MOST_LETTERS: usize = 255;

/// Fills the buffers of a line. The text buffer takes the letters of the line, after those that are
/// left over in it, as far as it has room; the parse buffer takes the words of all these letters, as
/// many as it has slots. Parse buffer 0 is none.
///
/// # Errors
///
/// Memory was refused: the turn is given up.
pub(crate) fn fill_line(
    header: &Header,
    loaded: &Loaded,
    store: &mut Recorded<Store>,
    text: u16,
    parse: u16,
    line: &[u8],
) -> Result<(), NoMemory>
    requires store { IsStoreOf header.now store.old.store }
    requires room { definitions.has_room (memory_of store.old.store) text ≡ true }
    requires slots { definitions.has_slots_or_none (memory_of store.old.store) parse ≡ true }
    ensures filled { OnOk result (Filled store.old store.new
        (definitions.with_line (alphabets_of loaded.now) (memory_of store.old.store) text parse
        (definitions.letters_with loaded.now.characters (memory_of store.old.store) text
        line.now))) }
    ensures given_up { OnErr result (GivenUp store.old store.new) }
{
    let mut letters = [0; MOST_LETTERS];
    let memory = store.store().memory();
    let extra = loaded.characters();
    let count = put_letters(memory, text as usize, extra, line, &mut letters);
    fill_letters(
        header,
        loaded,
        store,
        text as usize,
        parse as usize,
        &letters[..count],
    )
}

/// Writes the letters that a text buffer has after a line to the front of a row, and answers how many
/// they are.
fn put_letters(
    memory: &[u8],
    text: usize,
    extra: &[u16],
    line: &[u8],
    letters: &mut [u8; 255],
) -> usize
    requires within { text + 2 + slice_index memory.now text ≤ length memory.now }
    requires left { slice_index memory.now (text + 1) ≤ slice_index memory.now text }
    ensures few { result ≤ slice_index memory.now text }
    ensures most { result ≤ 255 }
    ensures letters { take result letters.new
        ≡ definitions.letters_with extra.now memory.now text line.now }
{
    let left = memory[text + 1] as usize;
    let most = memory[text] as usize - left;
    put(&memory[text + 2..text + 2 + left], letters);
    put_small_letters(extra, line, letters, left, most)
}

/// Writes bytes to the front of a row.
fn put(bytes: &[u8], letters: &mut [u8; 255])
    requires { length bytes.now ≤ 255 }
    ensures { take (length bytes.now) letters.new ≡ bytes.now }
{
    for (i, byte) in bytes.iter().enumerate() {
        letters[i] = *byte;
    }
}

/// Fills the buffers with letters and their words. Parse buffer 0 is none.
fn fill_letters(
    header: &Header,
    loaded: &Loaded,
    store: &mut Recorded<Store>,
    text: usize,
    parse: usize,
    letters: &[u8],
) -> Result<(), NoMemory>
    requires store { IsStoreOf header.now store.old.store }
    requires few { length letters.now ≤ 255 }
    requires past_header { header_size ≤ text }
    requires room { HasRoomForLetters store.old.store text (length letters.now) }
    requires words_past_header { parse ≢ 0 → header_size ≤ parse }
    requires words_room { HasRoomForWords store.old.store parse }
    ensures filled { OnOk result (Filled store.old store.new
        (definitions.with_line (alphabets_of loaded.now) (memory_of store.old.store) text parse
        letters.now)) }
    ensures given_up { OnErr result (GivenUp store.old store.new) }
{
    if parse == 0 {
        return fill_counted(store, text + 1, letters.len() as u8, letters);
    }
    fill_words(header, loaded, store, text, parse, letters)
}

/// Fills both buffers with letters and their words. The words are found before a byte is written.
fn fill_words(
    header: &Header,
    loaded: &Loaded,
    store: &mut Recorded<Store>,
    text: usize,
    parse: usize,
    letters: &[u8],
) -> Result<(), NoMemory>
    requires store { IsStoreOf header.now store.old.store }
    requires few { length letters.now ≤ 255 }
    requires past_header { header_size ≤ text }
    requires room { HasRoomForLetters store.old.store text (length letters.now) }
    requires given { parse ≢ 0 }
    requires words_past_header { header_size ≤ parse }
    requires words_room { HasRoomForWords store.old.store parse }
    ensures filled { OnOk result (Filled store.old store.new
        (definitions.with_line (alphabets_of loaded.now) (memory_of store.old.store) text parse
        letters.now)) }
    ensures given_up { OnErr result (GivenUp store.old store.new) }
{
    let memory = store.store().memory();
    let search = Search {
        dictionary: header.dictionary.address,
        is_ordered: header.dictionary.is_ordered,
        flag: 0,
    };
    let mut bytes = [0; SLOTS_LENGTH];
    let words = slots(
        loaded,
        memory,
        search,
        letters,
        memory[parse],
        parse + 2,
        &mut bytes,
    );
    fill_counted(store, text + 1, letters.len() as u8, letters)?;
    fill_counted(store, parse + 1, words, &bytes[..4 * words as usize])
}
