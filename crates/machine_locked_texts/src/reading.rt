//! Texts of versions 1 and 2 that are read and added to the text of a turn (Z-Machine Standards Document
//! 1.1, sections 3.2 to 3.8).

ghost use Rattle.std.specs.Prelude.{◌≡◌, ◌<◌, ◌≤◌, ◌+◌, ◌*◌, ℕ, List, length, drop, IfOk, IfErr, Ok, Some, None};
ghost use Rattle.ztext.specs.Faults.{FailsText};
ghost use Rattle.ztext.specs.TextParts.{words_of};
ghost use Rattle.zcore_versions.specs.LockedTexts as definitions;
ghost use Rattle.machine_opcodes.specs.Printed.{HasBegun};
ghost use Rattle.machine_standard_texts.specs.Put.{Extends, PrintsOn};
ghost use Rattle.machine_standard_texts.specs.Read.{GivesCodes, GivesText};
ghost use Rattle.machine_locked_texts.specs.Letters.{FindsLocked, IsNamedWithin, ReadsPlain, rest_of, fewer_abbreviations};

use crate::letters::{Piece, piece_of, reading_after, reading_in};
use machine_standard_texts::{Halt, bytes_from, put_next, word_count, z_character};
use zcore::TextFault;
use zcore::layout::{ABBREVIATIONS_WORD, HEADER_LENGTH};
use ztext::read_word;

/// The bytes of the table of abbreviations in version 2: a word for each of 32.
const TABLE_LENGTH: usize = 64;

/// The alphabet that is locked at the beginning of a text.
const FIRST: u8 = 0;

/// An abbreviation that a text names.
#[derive(Clone, Copy)]
pub(crate) struct Named {
    /// Its number, 0 to 31.
    number: usize,
    /// The place of the Z-character after it.
    after: usize,
    /// The alphabet that is locked there.
    lock: u8,
}

/// Adds what Z-characters print from a place on, with an alphabet locked there, up to the next
/// abbreviation, and answers which that is. Where printing halted, the text is read on for its faults,
/// and left out.
fn put_plain(
    text: &mut Vec<u8>,
    start: usize,
    characters: &[u16],
    version: u8,
    halted: &mut Option<Halt>,
    bytes: &[u8],
    words: usize,
    from: usize,
    lock: u8,
) -> Option<Named>
    requires text { HasBegun start text.old.items }
    requires within { 2 * words ≤ length bytes.now }
    requires lock { lock < 3 }
    ensures read { (codes : List ℕ)
        × ReadsPlain version (words_of words bytes.now) from lock result codes
        × PrintsOn characters.now halted.old halted.new (drop start text.old.items)
        (drop start text.new.items) codes }
    ensures named { IsNamedWithin from (3 * words) result }
    ensures text { Extends start text.old.items text.new.items }
{
    let end = 3 * words;
    let mut reading = reading_in(lock);
    let mut place = from;
    'places: while place < end {
        let z = z_character(bytes, place);
        let found = piece_of(version, reading.expected, z);
        reading = reading_after(version, reading, z);
        place += 1;
        match found {
            Piece::Nothing => {}
            Piece::Code(code) => *halted = put_next(text, start, characters, *halted, code),
            Piece::Abbreviation(number) => {
                return Some(Named {
                    number: number as usize,
                    after: place,
                    lock: reading.lock,
                });
            }
        }
    }
    None
}

/// Whether a story names a table of abbreviations.
#[tactic(auto, using(crate::proofs::LockedReading::too_short))]
fn has_table(story: &[u8]) -> bool
    ensures { result ≡ definitions.has_32_abbreviations story.now }
{
    if story.len() < HEADER_LENGTH {
        return false;
    }
    let table = read_word(story, ABBREVIATIONS_WORD) as usize;
    table >= 1 && table + TABLE_LENGTH <= story.len()
}

/// The address of the text of an abbreviation.
fn abbreviation_address(story: &[u8], number: usize) -> Result<u32, TextFault>
    requires { number < fewer_abbreviations }
    ensures { FindsLocked story.now number result }
{
    if !has_table(story) {
        return Err(TextFault::Abbreviation);
    }
    let table = read_word(story, ABBREVIATIONS_WORD) as usize;
    Ok(2 * u32::from(read_word(story, table + 2 * number)))
}

/// Adds what an abbreviation prints, whose text uses none itself.
fn put_abbreviation(
    text: &mut Vec<u8>,
    start: usize,
    characters: &[u16],
    version: u8,
    halted: &mut Option<Halt>,
    story: &[u8],
    number: usize,
) -> Result<(), TextFault>
    requires text { HasBegun start text.old.items }
    requires number { number < fewer_abbreviations }
    ensures read { GivesCodes characters.now halted.old halted.new (drop start text.old.items)
        (drop start text.new.items) result
        (definitions.locked_abbreviation version story.now number) }
    ensures text { Extends start text.old.items text.new.items }
{
    let address = abbreviation_address(story, number)?;
    let bytes = bytes_from(story, address as usize);
    let words = word_count(bytes, address)?;
    match put_plain(
        text, start, characters, version, halted, bytes, words, 0, FIRST,
    ) {
        Some(_) => Err(TextFault::Abbreviation),
        None => Ok(()),
    }
}

/// Adds what an abbreviation prints, and all that is after it in a text.
fn put_rest(
    text: &mut Vec<u8>,
    start: usize,
    characters: &[u16],
    version: u8,
    halted: &mut Option<Halt>,
    story: &[u8],
    bytes: &[u8],
    words: usize,
    first: Named,
) -> Result<(), TextFault>
    requires text { HasBegun start text.old.items }
    requires within { 2 * words ≤ length bytes.now }
    requires number { first.number < fewer_abbreviations }
    requires lock { first.lock < 3 }
    ensures read { GivesCodes characters.now halted.old halted.new (drop start text.old.items)
        (drop start text.new.items) result
        (rest_of version (definitions.locked_abbreviation version story.now)
        (words_of words bytes.now) (Some first)) }
    ensures text { Extends start text.old.items text.new.items }
{
    let mut named = Some(first);
    while let Some(next) = named {
        put_abbreviation(text, start, characters, version, halted, story, next.number)?;
        named = put_plain(
            text, start, characters, version, halted, bytes, words, next.after, next.lock,
        );
    }
    Ok(())
}

/// Adds what the text at an address prints, and answers the address after it.
fn put_parts(
    text: &mut Vec<u8>,
    start: usize,
    characters: &[u16],
    version: u8,
    halted: &mut Option<Halt>,
    story: &[u8],
    at: u32,
) -> Result<u32, TextFault>
    requires text { HasBegun start text.old.items }
    requires begins { halted.old ≡ None }
    ensures read { IfOk result (λ after. GivesText characters.now start text.old.items
        text.new.items (Ok (after, halted.new)) (definitions.locked_codes_at version story.now at)) }
    ensures fails { IfErr result (λ fault. FailsText fault
        (definitions.locked_codes_at version story.now at)) }
    ensures text { Extends start text.old.items text.new.items }
{
    let bytes = bytes_from(story, at as usize);
    let words = word_count(bytes, at)?;
    let after = (at as usize + 2 * words) as u32;
    match put_plain(
        text, start, characters, version, halted, bytes, words, 0, FIRST,
    ) {
        None => Ok(after),
        Some(first) => {
            match put_rest(
                text, start, characters, version, halted, story, bytes, words, first,
            ) {
                Ok(()) => Ok(after),
                Err(fault) => Err(fault),
            }
        }
    }
}

/// Adds what the text at an address prints. Answers the address after it, and where printing halted:
/// a text is read to its end for its faults. One that cannot be read adds nothing.
pub(crate) fn put_text(
    text: &mut Vec<u8>,
    start: usize,
    characters: &[u16],
    version: u8,
    story: &[u8],
    at: u32,
) -> Result<(u32, Option<Halt>), TextFault>
    requires text { HasBegun start text.old.items }
    ensures read { GivesText characters.now start text.old.items text.new.items result
        (definitions.locked_codes_at version story.now at) }
    ensures text { Extends start text.old.items text.new.items }
{
    let end = text.len();
    let mut halted = None;
    match put_parts(text, start, characters, version, &mut halted, story, at) {
        Ok(after) => Ok((after, halted)),
        Err(fault) => {
            text.truncate(end);
            Err(fault)
        }
    }
}
