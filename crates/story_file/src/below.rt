//! What stands between the header of a story and its routines.

ghost use Rattle.std.specs.Prelude.{◌≡◌, ◌≤◌, ◌+◌, true, IfOk, OnOk, length, map, sum};
ghost use Rattle.std.specs.List.{All, concat, flat_map, list_all};
ghost use Rattle.ztext.specs.Bytes.{most_abbreviations};
ghost use Rattle.ztext.specs.Alphabets.{is_printable};
ghost use Rattle.ztext.specs.Text.{encoded};
ghost use Rattle.tables.specs.Dictionary.{entry_bytes};
ghost use Rattle.code.specs.HeldProgram.{start_code};
ghost use Rattle.meaning.specs.Places as places;
ghost use Rattle.zcore.specs.Layout.{global_count, greatest_word};
ghost use Rattle.meaning.specs.Views.{program_of};
ghost use Rattle.story_file.specs.Written.{ObjectsFit, bytes_in, half, table_bytes, encoded_length};
ghost use Rattle.story_file.specs.Layout.{dictionary_bytes, entries_bytes, global_bytes};
ghost use Rattle.story_file.specs.Layout.{key_bytes, low_bytes};
ghost use Rattle.story_file.specs.Layout as layout;
ghost use Rattle.code_drafts.specs.Bytes.{Adds};

use crate::high::add_text;
use crate::objects::put_objects;
use crate::packed::{add_text_sizes, array_addresses};
use crate::words::{put_word, put_words, put_zeros};
use meaning::{Checked, Places};
use std::alloc::{AllocError, Global};
use tables::layout::{DICTIONARY_ENTRY_LENGTH, DICTIONARY_HEAD_LENGTH};
use zcore::layout::GLOBAL_COUNT;
use ztext::MOST_ABBREVIATIONS;

/// The address of the empty text, halved (Z-Machine Standards Document 1.1, section 3.3).
const HALVED_EMPTY_TEXT: u16 = 128;

/// Three Z-characters 5, the last word of a text.
const NO_CHARACTERS: u16 = 0x94A5;

/// `call_1n` with a large constant (section 14).
const CALL: u8 = 0x8F;

/// `quit` (section 14).
const QUIT: u8 = 0xBA;

/// The Z-texts of abbreviations, which use none.
fn z_texts(alloc: Global, abbreviations: &[Vec<u8>]) -> Result<Vec<Vec<u8>>, AllocError>
    requires { All (λ a. list_all is_printable a ≡ true) (map bytes_in abbreviations.now) }
    ensures { IfOk result (λ v.
        map bytes_in v.items ≡ map encoded (map bytes_in abbreviations.now)) }
{
    let mut texts = Vec::new(alloc);
    for abbreviation in abbreviations {
        add_text(alloc, &mut texts, abbreviation)?;
    }
    Ok(texts)
}

/// Addresses, halved.
fn put_halves(bytes: &mut Vec<u8>, addresses: &[u16]) -> Result<(), AllocError>
    ensures { OnOk result (Adds bytes.old bytes.new
        (flat_map layout.word (map half addresses.now))) }
{
    for address in addresses {
        put_word(bytes, *address / 2)?;
    }
    Ok(())
}

/// The table of abbreviations whose Z-texts stand one after another from an address on.
fn put_table(
    alloc: Global,
    bytes: &mut Vec<u8>,
    texts: &[Vec<u8>],
    place: usize,
) -> Result<(), AllocError>
    requires few { length texts.now ≤ most_abbreviations }
    requires placed { place + sum (map encoded_length texts.now) ≤ greatest_word }
    ensures { OnOk result (Adds bytes.old bytes.new
        (table_bytes place (map encoded_length texts.now))) }
{
    let mut sizes = Vec::new(alloc);
    let Ok(()) = add_text_sizes(&mut sizes, texts) else {
        return Err(AllocError);
    };
    let Ok(addresses) = array_addresses(alloc, place, &sizes) else {
        return Err(AllocError);
    };
    let Ok(()) = put_halves(bytes, &addresses) else {
        return Err(AllocError);
    };
    let Ok(()) = put_words(
        bytes,
        &[HALVED_EMPTY_TEXT; MOST_ABBREVIATIONS][texts.len()..],
    ) else {
        return Err(AllocError);
    };
    Ok(())
}

/// The words with which the globals begin, 0 where the source has none.
fn put_globals(bytes: &mut Vec<u8>, globals: &[u16]) -> Result<(), AllocError>
    requires { length globals.now ≤ global_count }
    ensures { OnOk result (Adds bytes.old bytes.new (global_bytes globals.now)) }
{
    let Ok(()) = put_words(bytes, globals) else {
        return Err(AllocError);
    };
    let Ok(()) = put_zeros(bytes, 2 * (GLOBAL_COUNT - globals.len())) else {
        return Err(AllocError);
    };
    Ok(())
}

/// An entry of the dictionary: the six bytes of its key, the highest first, and three of data that
/// are 0.
fn put_entry(bytes: &mut Vec<u8>, key: u64) -> Result<(), AllocError>
    ensures { OnOk result (Adds bytes.old bytes.new (entry_bytes (key_bytes key))) }
{
    bytes.extend_from_slice(&key.to_be_bytes()[2..])?;
    bytes.extend_from_slice(&[0; 3])?;
    Ok(())
}

/// The entries of keys, one after another.
fn put_entries(bytes: &mut Vec<u8>, keys: &[u64]) -> Result<(), AllocError>
    ensures { OnOk result (Adds bytes.old bytes.new (entries_bytes keys.now)) }
{
    for key in keys {
        put_entry(bytes, *key)?;
    }
    Ok(())
}

/// The dictionary of keys, with three separators, whose entries have nine bytes (section 13.2).
fn put_dictionary(bytes: &mut Vec<u8>, keys: &[u64]) -> Result<(), AllocError>
    requires { length keys.now ≤ greatest_word }
    ensures { OnOk result (Adds bytes.old bytes.new (dictionary_bytes keys.now)) }
{
    let Ok(()) = bytes.extend_from_slice(b"\x03.,\"\x09") else {
        return Err(AllocError);
    };
    let Ok(()) = put_word(bytes, keys.len() as u16) else {
        return Err(AllocError);
    };
    let Ok(()) = put_entries(bytes, keys) else {
        return Err(AllocError);
    };
    Ok(())
}

/// How many bytes stand between the dictionary and the texts of abbreviations, which begin at an
/// even address.
fn filling(checked: &Checked<'_>, at: Places) -> usize
    requires at { at ≡ places.places_of (program_of checked.now) }
    requires fits { places.routines_place (program_of checked.now) ≤ greatest_word }
    ensures { result ≡ places.filling_before checked.now.abbreviations
        (places.dictionary_end (program_of checked.now)) }
{
    at.texts
        - (at.dictionary + DICTIONARY_HEAD_LENGTH + DICTIONARY_ENTRY_LENGTH * checked.keys().len())
}

/// Texts, one after another.
fn put_all(bytes: &mut Vec<u8>, texts: &[Vec<u8>]) -> Result<(), AllocError>
    ensures { OnOk result (Adds bytes.old bytes.new (concat (map bytes_in texts.now))) }
{
    for text in texts {
        bytes.extend_from_slice(text)?;
    }
    Ok(())
}

/// The code that calls the routine at a packed address, and then ends the story.
fn put_start(bytes: &mut Vec<u8>, main: u16) -> Result<(), AllocError>
    ensures { OnOk result (Adds bytes.old bytes.new (start_code main)) }
{
    let Ok(()) = bytes.push(CALL) else {
        return Err(AllocError);
    };
    let Ok(()) = put_word(bytes, main) else {
        return Err(AllocError);
    };
    let Ok(()) = bytes.push(QUIT) else {
        return Err(AllocError);
    };
    Ok(())
}

/// Where the arrays stand: after the globals.
pub fn arrays_place(checked: &Checked<'_>, at: Places) -> usize
    requires { at ≡ places.places_of (program_of checked.now) }
    ensures { result ≡ places.arrays_place }
{
    at.globals + 2 * GLOBAL_COUNT
}

/// All that stands between the header and the routines, where these are the places of its parts.
pub fn put_low(
    alloc: Global,
    bytes: &mut Vec<u8>,
    checked: &Checked<'_>,
    at: Places,
    main: u16,
) -> Result<(), AllocError>
    requires at { at ≡ places.places_of (program_of checked.now) }
    requires globals { length checked.now.globals ≤ global_count }
    requires objects { ObjectsFit (program_of checked.now) }
    requires keys { length checked.now.keys ≤ greatest_word }
    requires few { length checked.now.abbreviations ≤ most_abbreviations }
    requires printable { All (λ a. list_all is_printable a ≡ true) checked.now.abbreviations }
    ensures { OnOk result (Adds bytes.old bytes.new (low_bytes (program_of checked.now) main)) }
{
    let Ok(texts) = z_texts(alloc, checked.abbreviations().texts()) else {
        return Err(AllocError);
    };
    let Ok(()) = put_table(alloc, bytes, &texts, at.texts) else {
        return Err(AllocError);
    };
    let Ok(()) = put_word(bytes, NO_CHARACTERS) else {
        return Err(AllocError);
    };
    let Ok(()) = put_globals(bytes, checked.globals()) else {
        return Err(AllocError);
    };
    let Ok(()) = bytes.extend_from_slice(checked.array_bytes()) else {
        return Err(AllocError);
    };
    let Ok(()) = put_objects(alloc, bytes, checked, at) else {
        return Err(AllocError);
    };
    let Ok(()) = put_dictionary(bytes, checked.keys()) else {
        return Err(AllocError);
    };
    let Ok(()) = put_zeros(bytes, filling(checked, at)) else {
        return Err(AllocError);
    };
    let Ok(()) = put_all(bytes, &texts) else {
        return Err(AllocError);
    };
    let Ok(()) = put_start(bytes, main) else {
        return Err(AllocError);
    };
    Ok(())
}
