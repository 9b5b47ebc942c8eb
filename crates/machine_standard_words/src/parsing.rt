//! The words of a text in memory (Z-Machine Standards Document 1.1, section 15, `tokenise`).

ghost use Rattle.std.specs.Prelude.{◌≡◌, ◌≤◌, ◌<◌, ◌*◌, true, length, OnOk, OnErr};
ghost use Rattle.zcore.specs.Arithmetic.{magnitude};
ghost use Rattle.zcore.specs.Dictionary as dictionaries;
ghost use Rattle.zcore.specs.Header.{HasDictionaryHead, dictionary_of, entry_length_of, static_base_of};
ghost use Rattle.zcore_standard.specs.Fuel.{spend_for};
ghost use Rattle.zcore_standard.specs.Words as definitions;
ghost use Rattle.zcore_standard.specs.Texts.{alphabets_of};
ghost use Rattle.machine_frames.specs.Contents.{memory_of};
ghost use Rattle.machine_frames.specs.States.{IsStoreOf};
ghost use Rattle.machine_frames.specs.Went.{GivenUp, Went};
ghost use Rattle.machine_lines.specs.Lines.{Filled};
ghost use Rattle.machine_opcodes.specs.Says.{Says};

use crate::slots::{SLOTS_LENGTH, Search, count_words, slots};
use crate::writable::are_writable;
use journal::{NoMemory, Recorded};
use machine_frames::{End, Store};
use machine_lines::fill_counted;
use machine_standard_texts::spend_for;
use tables::is_dictionary;
use zcore::layout::READABLE;
use zcore::{Fault, Header, Next, Place};
use zcore_standard::Loaded;

/// From this number on, the number of entries is negative: they are in no order.
const NO_ORDER: u16 = 32_768;

/// Cuts the letters of a text buffer, up to a byte 0, into words, looks them up, and fills the slots of
/// a parse buffer: `tokenise`. Dictionary 0 is the story's. With the flag (not 0) a word that is not
/// found leaves its slot as it is. Letters are looked up as they are: capitals stay capitals. The
/// search of another dictionary than the story's takes fuel.
///
/// # Errors
///
/// M3 where the letters do not end in readable memory; then M12 where the slots are not in dynamic
/// memory after the header; then M3 where another dictionary than the story's cannot be read; then the
/// limit of fuel. `End::Memory` where memory was refused: the turn is given up.
pub fn tokenise(
    header: &Header,
    loaded: &Loaded,
    store: &mut Recorded<Store>,
    here: Next,
    after: u32,
    text: u16,
    parse: u16,
    dictionary: u16,
    flag: u16,
) -> Result<Next, End>
    requires { IsStoreOf header.now store.old.store }
    ensures { Went result store.old store.new
        (definitions.tokenise (alphabets_of loaded.now) here after text parse dictionary flag) }
{
    let memory = store.store().memory();
    let search = search_for(header, dictionary, flag);
    if !has_letters(memory, text) {
        return Err(End::Stop(Place::Fault(Fault::Read)));
    }
    if !has_slots(memory, header.static_base, parse) {
        return Err(End::Stop(Place::Fault(Fault::Buffer)));
    }
    if !can_be_searched(header, memory, search.dictionary) {
        return Err(End::Stop(Place::Fault(Fault::Read)));
    }
    let fuel = spend_search(header, memory, search.dictionary, text, parse, here.fuel)?;
    fill_slots(header, loaded, store, search, text, parse)?;
    Ok(Next {
        program_counter: after,
        fuel,
    })
}

/// Whether a dictionary is the story's, or can be read.
fn can_be_searched(header: &Header, memory: &[u8], dictionary: u16) -> bool
    requires { header.now.dictionary.address ≡ dictionary_of memory.now }
    ensures { result ≡ definitions.can_be_searched memory.now dictionary }
{
    dictionary == header.dictionary.address || is_dictionary(memory, dictionary)
}

/// The fuel that is left after a search: each word that has a slot is compared with the entries of the
/// dictionary. The story's costs nothing. The limit of fuel.
fn spend_search(
    header: &Header,
    memory: &[u8],
    dictionary: u16,
    text: u16,
    parse: u16,
    fuel: u32,
) -> Result<u32, End>
    requires own { header.now.dictionary.address ≡ dictionary_of memory.now }
    requires letters { definitions.has_letters memory.now text ≡ true }
    requires slots { parse < length memory.now }
    requires dictionary { definitions.can_be_searched memory.now dictionary ≡ true }
    ensures { Says result
        (spend_for (definitions.searched_bytes memory.now text parse dictionary) fuel) }
{
    if dictionary == header.dictionary.address {
        return spend_for(0, fuel);
    }
    let slots = memory[parse as usize];
    let words = count_words(memory, dictionary, text_in(memory, text), slots);
    spend_for(entry_bytes(memory, dictionary) * words as usize, fuel)
}

/// How many bytes the entries of a dictionary have.
fn entry_bytes(memory: &[u8], dictionary: u16) -> usize
    requires { HasDictionaryHead memory.now dictionary }
    ensures same { result ≡ dictionaries.entries_in memory.now dictionary
        * entry_length_of memory.now dictionary }
    ensures few { result ≤ 32768 * 255 }
{
    let start = dictionary as usize;
    let length = start + 1 + memory[start] as usize;
    let count = memory[length + 1] as u16 * 256 + memory[length + 2] as u16;
    magnitude(count) as usize * memory[length] as usize
}

/// How many entries a number states: a negative number is of entries in no order.
fn magnitude(count: u16) -> u16
    ensures same { result ≡ magnitude count }
    ensures few { result ≤ 32768 }
{
    if count < NO_ORDER {
        count
    } else {
        count.wrapping_neg()
    }
}

/// How words are looked up in the dictionary that an operand names: 0 is the story's.
fn search_for(header: &Header, dictionary: u16, flag: u16) -> Search
    ensures dictionary { (memory : _) → header.now.dictionary.address ≡ dictionary_of memory
        → result.dictionary ≡ definitions.dictionary_for memory dictionary }
    ensures own { result.is_ordered ≡ true → result.dictionary ≡ header.now.dictionary.address }
    ensures ordered { result.is_ordered ≡ true → header.now.dictionary.is_ordered ≡ true }
    ensures flag { result.flag ≡ flag }
{
    let own = header.dictionary.address;
    let address = if dictionary == 0 { own } else { dictionary };
    Search {
        dictionary: address,
        is_ordered: address == own && header.dictionary.is_ordered,
        flag,
    }
}

/// Whether the letters of a text buffer end in readable memory.
fn has_letters(memory: &[u8], text: u16) -> bool
    ensures { result ≡ definitions.has_letters memory.now text }
{
    let end = memory.len().min(READABLE);
    let letters = text as usize + 2;
    letters <= end && letters + memory[letters - 1] as usize <= end
}

/// The text of a text buffer that has words: its letters, up to a byte 0.
fn text_in(memory: &[u8], text: u16) -> &[u8]
    requires { definitions.has_letters memory.now text ≡ true }
    ensures letters { result.now ≡ definitions.text_in memory.now text }
    ensures few { length result.now ≤ 255 }
{
    before_zero(letters_in(memory, text))
}

/// The letters before the first byte 0, or all where there is none.
fn before_zero(letters: &[u8]) -> &[u8]
    ensures before { result.now ≡ definitions.before_zero letters.now }
    ensures few { length result.now ≤ length letters.now }
{
    for count in 0..letters.len() {
        if letters[count] == 0 {
            return &letters[..count];
        }
    }
    letters
}

/// The letters of a text buffer.
fn letters_in(memory: &[u8], text: u16) -> &[u8]
    requires { definitions.has_letters memory.now text ≡ true }
    ensures letters { result.now ≡ definitions.letters_in memory.now text }
    ensures few { length result.now ≤ 255 }
{
    let letters = text as usize + 2;
    &memory[letters..letters + memory[letters - 1] as usize]
}

/// Whether the slots of a parse buffer are in dynamic memory after the header, in a story with this
/// static base.
pub fn has_slots(memory: &[u8], static_base: u16, parse: u16) -> bool
    requires base { static_base ≡ static_base_of memory.now }
    requires within { static_base ≤ length memory.now }
    ensures { result ≡ definitions.has_slots memory.now parse }
{
    let at = parse as usize;
    at < static_base as usize && are_writable(static_base, at, 2 + 4 * memory[at] as usize)
}

/// Fills the slots of a parse buffer. The words are found before a byte is written.
fn fill_slots(
    header: &Header,
    loaded: &Loaded,
    store: &mut Recorded<Store>,
    search: Search,
    text: u16,
    parse: u16,
) -> Result<(), NoMemory>
    requires store { IsStoreOf header.now store.old.store }
    requires letters { definitions.has_letters (memory_of store.old.store) text ≡ true }
    requires slots { definitions.has_slots (memory_of store.old.store) parse ≡ true }
    requires head { HasDictionaryHead (memory_of store.old.store) search.dictionary }
    requires own { search.is_ordered ≡ true → search.dictionary ≡ header.now.dictionary.address }
    requires ordered { search.is_ordered ≡ true → header.now.dictionary.is_ordered ≡ true }
    ensures filled { OnOk result (Filled store.old store.new
        (definitions.with_slots (alphabets_of loaded.now) (memory_of store.old.store) text parse
        search.dictionary search.flag)) }
    ensures given_up { OnErr result (GivenUp store.old store.new) }
{
    let memory = store.store().memory();
    let at = parse as usize;
    let mut bytes = [0; SLOTS_LENGTH];
    let words = slots(
        loaded,
        memory,
        search,
        text_in(memory, text),
        memory[at],
        at + 2,
        &mut bytes,
    );
    fill_counted(store, at + 1, words, &bytes[..4 * words as usize])
}
