//! Texts that are read and added to the text of a turn, where any ZSCII code may stand (Z-Machine
//! Standards Document 1.1, sections 3.2 to 3.8).

ghost use Rattle.std.specs.Prelude.{◌≡◌, ◌<◌, ◌≤◌, ◌*◌, ℕ, List, length, drop, IfOk, IfErr, Ok, Some, None};
ghost use Rattle.ztext.specs.Bytes.{most_abbreviations};
ghost use Rattle.ztext.specs.Faults.{FailsText};
ghost use Rattle.ztext.specs.TextParts.{words_of};
ghost use Rattle.zcore_standard.specs.Texts as definitions;
ghost use Rattle.machine_opcodes.specs.Printed.{HasBegun};
ghost use Rattle.machine_standard_texts.specs.Pieces.{IsNamedWithin, ReadsPlain, alphabets_length};
ghost use Rattle.machine_standard_texts.specs.Put.{Extends, PrintsOn};
ghost use Rattle.machine_standard_texts.specs.Read.{GivesCodes, GivesText, rest_of};

use crate::characters::{Halt, put_next};
use crate::pieces::{Piece, State, next, piece_of};
use crate::words::{abbreviation_address, bytes_from, word_count, z_character};
use zcore::TextFault;

/// An abbreviation that a text names.
#[derive(Clone, Copy)]
pub(crate) struct Named {
    /// Its number, 0 to 95.
    number: usize,
    /// The place of the Z-character after it.
    after: usize,
}

/// Adds what Z-characters print from a place on, up to the next abbreviation, and answers which that
/// is. Where printing halted, the text is read on for its faults, and left out.
fn put_plain(
    text: &mut Vec<u8>,
    start: usize,
    characters: &[u16],
    alphabets: &[u8],
    halted: &mut Option<Halt>,
    bytes: &[u8],
    words: usize,
    from: usize,
) -> Option<Named>
    requires text { HasBegun start text.old.items }
    requires alphabets { length alphabets.now ≡ alphabets_length }
    requires within { 2 * words ≤ length bytes.now }
    ensures read { (codes : List ℕ)
        × ReadsPlain alphabets.now (words_of words bytes.now) from result codes
        × PrintsOn characters.now halted.old halted.new (drop start text.old.items)
        (drop start text.new.items) codes }
    ensures named { IsNamedWithin from (3 * words) result }
    ensures text { Extends start text.old.items text.new.items }
{
    let end = 3 * words;
    let mut state = State::Lower;
    let mut place = from;
    'places: while place < end {
        let z = z_character(bytes, place);
        let found = piece_of(alphabets, state, z);
        state = next(state, z);
        place += 1;
        match found {
            Piece::Nothing => {}
            Piece::Code(code) => *halted = put_next(text, start, characters, *halted, code),
            Piece::Abbreviation(number) => {
                return Some(Named {
                    number,
                    after: place,
                });
            }
        }
    }
    None
}

/// Adds what an abbreviation prints, whose text uses none itself.
fn put_abbreviation(
    text: &mut Vec<u8>,
    start: usize,
    characters: &[u16],
    alphabets: &[u8],
    halted: &mut Option<Halt>,
    story: &[u8],
    number: usize,
) -> Result<(), TextFault>
    requires text { HasBegun start text.old.items }
    requires alphabets { length alphabets.now ≡ alphabets_length }
    requires number { number < most_abbreviations }
    ensures read { GivesCodes characters.now halted.old halted.new (drop start text.old.items)
        (drop start text.new.items) result
        (definitions.abbreviation_codes alphabets.now story.now number) }
    ensures text { Extends start text.old.items text.new.items }
{
    let address = abbreviation_address(story, number)?;
    let bytes = bytes_from(story, address as usize);
    let words = word_count(bytes, address)?;
    match put_plain(text, start, characters, alphabets, halted, bytes, words, 0) {
        Some(_) => Err(TextFault::Abbreviation),
        None => Ok(()),
    }
}

/// Adds what an abbreviation prints, and all that is after it in a text.
fn put_rest(
    text: &mut Vec<u8>,
    start: usize,
    characters: &[u16],
    alphabets: &[u8],
    halted: &mut Option<Halt>,
    story: &[u8],
    bytes: &[u8],
    words: usize,
    first: Named,
) -> Result<(), TextFault>
    requires text { HasBegun start text.old.items }
    requires alphabets { length alphabets.now ≡ alphabets_length }
    requires within { 2 * words ≤ length bytes.now }
    requires number { first.number < most_abbreviations }
    ensures read { GivesCodes characters.now halted.old halted.new (drop start text.old.items)
        (drop start text.new.items) result
        (rest_of alphabets.now (definitions.abbreviation_codes alphabets.now story.now)
        (words_of words bytes.now) (Some first)) }
    ensures text { Extends start text.old.items text.new.items }
{
    let mut named = Some(first);
    while let Some(Named { number, after }) = named {
        put_abbreviation(text, start, characters, alphabets, halted, story, number)?;
        named = put_plain(
            text, start, characters, alphabets, halted, bytes, words, after,
        );
    }
    Ok(())
}

/// Adds what the text at an address prints, and answers the address after it.
fn put_parts(
    text: &mut Vec<u8>,
    start: usize,
    characters: &[u16],
    alphabets: &[u8],
    halted: &mut Option<Halt>,
    story: &[u8],
    at: u32,
) -> Result<u32, TextFault>
    requires text { HasBegun start text.old.items }
    requires alphabets { length alphabets.now ≡ alphabets_length }
    requires begins { halted.old ≡ None }
    ensures read { IfOk result (λ after. GivesText characters.now start text.old.items
        text.new.items (Ok (after, halted.new)) (definitions.codes_at alphabets.now story.now at)) }
    ensures fails { IfErr result (λ fault. FailsText fault
        (definitions.codes_at alphabets.now story.now at)) }
    ensures text { Extends start text.old.items text.new.items }
{
    let bytes = bytes_from(story, at as usize);
    let words = word_count(bytes, at)?;
    let after = (at as usize + 2 * words) as u32;
    match put_plain(text, start, characters, alphabets, halted, bytes, words, 0) {
        None => Ok(after),
        Some(first) => {
            match put_rest(
                text, start, characters, alphabets, halted, story, bytes, words, first,
            ) {
                Ok(()) => Ok(after),
                Err(fault) => Err(fault),
            }
        }
    }
}

/// Adds what the text at an address prints. Answers the address after it, and where printing halted:
/// a text is read to its end for its faults. One that cannot be read adds nothing.
pub(crate) fn put_text(
    text: &mut Vec<u8>,
    start: usize,
    characters: &[u16],
    alphabets: &[u8],
    story: &[u8],
    at: u32,
) -> Result<(u32, Option<Halt>), TextFault>
    requires text { HasBegun start text.old.items }
    requires alphabets { length alphabets.now ≡ alphabets_length }
    ensures read { GivesText characters.now start text.old.items text.new.items result
        (definitions.codes_at alphabets.now story.now at) }
    ensures text { Extends start text.old.items text.new.items }
{
    let end = text.len();
    let mut halted = None;
    match put_parts(text, start, characters, alphabets, &mut halted, story, at) {
        Ok(after) => Ok((after, halted)),
        Err(fault) => {
            text.truncate(end);
            Err(fault)
        }
    }
}
