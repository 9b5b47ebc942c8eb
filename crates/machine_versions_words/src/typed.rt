//! The letters and words of a line that is typed, in versions 1 to 4 (Z-Machine Standards Document 1.1,
//! section 15, `sread`).

ghost use Rattle.std.specs.Prelude.{◌≡◌, ◌≢◌, ◌≤◌, ◌<◌, ◌+◌, ◌*◌, ◌++◌, ◌∷◌, [], true, length, OnOk, OnErr};
ghost use Rattle.zcore.specs.Header.{static_base_of};
ghost use Rattle.zcore.specs.Layout.{header_size};
ghost use Rattle.zcore_versions.specs.Reading as definitions;
ghost use Rattle.machine_frames.specs.Contents.{memory_of};
ghost use Rattle.machine_frames.specs.States.{IsSound, IsStoreOf};
ghost use Rattle.machine_frames.specs.Went.{GivenUp};
ghost use Rattle.machine_lines.specs.Lines.{Filled, Fills, HasRoomForWords};
ghost use Rattle.zcore_versions.specs.Versions.{versioned};
ghost use Rattle.machine_versions_words.specs.Parts.{line_memory};

use crate::slots::{SLOTS_LENGTH, slots};
use journal::{NoMemory, Recorded};
use machine_frames::Store;
use machine_lines::{fill, fill_counted};
use machine_standard_words::put_small_letters;
use zcore::Header;
use zcore_standard::Loaded;
use zcore_versions::StoryVersion;

/// As many letters as a text buffer can have room for, and one more.
const MOST_LETTERS: usize = 255;

/// Fills the buffers of a line. The text buffer takes the letters of the line, as far as it has room,
/// and a 0 after them; the parse buffer takes the words of these letters, as many as it has slots.
/// Parse buffer 0 is none.
///
/// # Errors
///
/// Memory was refused: the turn is given up.
pub(crate) fn fill_line(
    header: &Header,
    loaded: &Loaded,
    version: StoryVersion,
    store: &mut Recorded<Store>,
    text: u16,
    parse: u16,
    line: &[u8],
) -> Result<(), NoMemory>
    requires store { IsStoreOf header.now store.old.store }
    requires given { text ≢ 0 }
    requires right { definitions.can_take_old (memory_of store.old.store) text parse ≡ true }
    ensures filled { OnOk result (Filled store.old store.new
        (definitions.memory_given (versioned loaded.now version) text parse line.now
        (memory_of store.old.store))) }
    ensures given_up { OnErr result (GivenUp store.old store.new) }
{
    let mut letters = [0; MOST_LETTERS];
    let memory = store.store().memory();
    let most = memory[text as usize] as usize - 1;
    let extra = loaded.characters();
    let count = put_small_letters(extra, line, &mut letters, 0, most);
    fill_letters(
        header,
        loaded,
        version,
        store,
        text as usize,
        parse as usize,
        &letters[..count],
    )
}

/// Fills the buffers with letters and their words. Parse buffer 0 is none.
fn fill_letters(
    header: &Header,
    loaded: &Loaded,
    version: StoryVersion,
    store: &mut Recorded<Store>,
    text: usize,
    parse: usize,
    letters: &[u8],
) -> Result<(), NoMemory>
    requires store { IsStoreOf header.now store.old.store }
    requires few { length letters.now ≤ 255 }
    requires past_header { header_size ≤ text }
    requires room { text + 2 + length letters.now ≤ static_base_of (memory_of store.old.store) }
    requires words_past_header { parse ≢ 0 → header_size ≤ parse }
    requires words_room { HasRoomForWords store.old.store parse }
    ensures filled { OnOk result (Filled store.old store.new
        (line_memory (versioned loaded.now version) text parse letters.now
        (memory_of store.old.store))) }
    ensures given_up { OnErr result (GivenUp store.old store.new) }
{
    if parse == 0 {
        return fill_ended(store, text + 1, letters);
    }
    fill_words(header, loaded, version, store, text, parse, letters)
}

/// Fills both buffers with letters and their words. The words are found before a byte is written.
fn fill_words(
    header: &Header,
    loaded: &Loaded,
    version: StoryVersion,
    store: &mut Recorded<Store>,
    text: usize,
    parse: usize,
    letters: &[u8],
) -> Result<(), NoMemory>
    requires store { IsStoreOf header.now store.old.store }
    requires few { length letters.now ≤ 255 }
    requires past_header { header_size ≤ text }
    requires room { text + 2 + length letters.now ≤ static_base_of (memory_of store.old.store) }
    requires given { parse ≢ 0 }
    requires words_past_header { header_size ≤ parse }
    requires words_room { HasRoomForWords store.old.store parse }
    ensures filled { OnOk result (Filled store.old store.new
        (line_memory (versioned loaded.now version) text parse letters.now
        (memory_of store.old.store))) }
    ensures given_up { OnErr result (GivenUp store.old store.new) }
{
    let memory = store.store().memory();
    let mut bytes = [0; SLOTS_LENGTH];
    let words = slots(
        loaded,
        version,
        memory,
        header.dictionary,
        letters,
        memory[parse],
        &mut bytes,
    );
    fill_ended(store, text + 1, letters)?;
    fill_counted(store, parse + 1, words, &bytes[..4 * words as usize])
}

/// Writes letters, and a 0 after them.
fn fill_ended(store: &mut Recorded<Store>, at: usize, letters: &[u8]) -> Result<(), NoMemory>
    requires sound { IsSound store.old.store }
    requires past_header { header_size ≤ at }
    requires room { at + length letters.now + 1 ≤ static_base_of (memory_of store.old.store) }
    ensures filled { OnOk result (Fills store.old store.new at (letters.now ++ 0 ∷ [])) }
    ensures given_up { OnErr result (GivenUp store.old store.new) }
{
    fill(store, at, letters)?;
    fill(store, at + letters.len(), &[0])
}
