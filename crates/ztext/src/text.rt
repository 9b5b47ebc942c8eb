//! Texts in Z-characters: written, read, and as keys of the dictionary.

ghost use Rattle.std.specs.Prelude.{◌≡◌, ◌<◌, ◌≤◌, ◌^◌, ◌++◌, ℕ, List, true, IfOk, IfErr, length, take};
ghost use Rattle.std.specs.List.{list_all};
ghost use Rattle.ztext.specs.Alphabets.{spelling_of, is_printable};
ghost use Rattle.ztext.specs.Text as spec;
ghost use Rattle.ztext.specs.Faults.{Encodes, HasFault, GivesText};
ghost use Rattle.ztext.specs.Fronts.{front_of, after_text};
ghost use Rattle.ztext.specs.TextParts.{IsFilledKey};

use crate::alphabets::{spelled, spelling_of};
use crate::characters::are_printable;
use crate::decoding::put_text;
use crate::fault::TextFault;
use crate::words::{key_bytes, packed, pad};
use std::alloc::Global;

/// The Z-text of a text, to be laid into a story or shown: whole words of two bytes, at least one,
/// the last of them marked by its top bit (Z-Machine Standards Document 1.1, section 3).
///
/// Each character is spelled by its first place in the three alphabets, or else by an escape; no
/// abbreviation is used.
///
/// # Errors
///
/// `Z1` where a character is not printable, that is not 13 or 32 to 126, which is tested before
/// memory is asked for; `Z9` where a growth of memory was refused. No other fault is answered.
pub fn encode_text(alloc: Global, text: &[u8]) -> Result<Vec<u8>, TextFault>
    ensures encodes { Encodes text.now result }
    ensures again { IfOk result (λ v. spec.IsReadAs v.items text.now) }
{
    if !are_printable(text) {
        return Err(TextFault::Character);
    }
    let mut characters = spelled(alloc, text)?;
    pad(&mut characters)?;
    Ok(packed(alloc, &characters)?)
}

/// The characters of the text at an address of a story, which are 13 or 32 to 126, and the address
/// after the text (Z-Machine Standards Document 1.1, section 3). Any bytes are a story and any
/// address may be asked for.
///
/// An escape or an abbreviation that the end of the text cuts off prints nothing.
///
/// # Errors
///
/// `Z2` where no word up to the end of the story has its top bit set, or the address after it has
/// more than 32 bits; `Z1` where an escape names a code that is no character (a code 0 prints
/// nothing); `Z3` where an abbreviation uses another, or is used in a story without a table of 96;
/// an abbreviation's own text may answer each of them too. `Z9` where a growth of memory was
/// refused. The text is read to its end first, so its own `Z2` goes before `Z1` and `Z3`; of those,
/// and of an abbreviation's, the first in the text is answered.
pub fn decode_text(alloc: Global, story: &[u8], at: u32) -> Result<(Vec<u8>, u32), TextFault>
    ensures text { GivesText (λ x. (x.0.items, x.1)) result (spec.decoded story.now at) }
    ensures cause { IfErr result (HasFault story.now at) }
{
    decode_front(alloc, story, at, usize::MAX)
}

/// The same, but of the characters only the first, `most` at most: a text of abbreviations can have
/// many times as many as its story has bytes. It is read to its end all the same, so its faults and
/// the address after it are those of the whole.
///
/// # Errors
///
/// Those of the whole text.
pub fn decode_front(
    alloc: Global,
    story: &[u8],
    at: u32,
    most: usize,
) -> Result<(Vec<u8>, u32), TextFault>
    ensures text { GivesText (λ x. (x.0.items, x.1)) result
        (front_of most (spec.decoded story.now at)) }
    ensures cause { IfErr result (HasFault story.now at) }
    ensures room { IfOk result (λ x. length x.0.items < 2 ^ 63) }
    ensures printable { (x : List ℕ × ℕ) → spec.decoded story.now at ≡ Ok x
        → list_all is_printable x.0 ≡ true }
{
    let mut text = Vec::new(alloc);
    let after = append_front(&mut text, story, at, most)?;
    Ok((text, after))
}

/// Adds the characters of the text at an address of a story to those that are there, as far as
/// there is room for `most` in all, and answers the address after the text. As `decode_front`, it
/// reads the text to its end all the same.
///
/// # Errors
///
/// Those of the whole text. What was there stands; of the text a part may have been added.
#[inline(always)]
pub fn append_front(
    text: &mut Vec<u8>,
    story: &[u8],
    at: u32,
    most: usize,
) -> Result<u32, TextFault>
    requires { length text.old.items ≤ most }
    ensures text { GivesText (λ after. (text.new.items, after)) result
        (front_of most (after_text text.old.items (spec.decoded story.now at))) }
    ensures cause { IfErr result (HasFault story.now at) }
    ensures stays { take (length text.old.items) text.new.items ≡ text.old.items }
    ensures printable { (x : List ℕ × ℕ) → spec.decoded story.now at ≡ Ok x
        → list_all is_printable x.0 ≡ true }
{
    put_text(text, story, at, most)
}

fn lower_case(c: u8) -> u8
    ensures { result ≡ spec.lower_case c }
{
    if 65 <= c && c <= 90 { c + 32 } else { c }
}

/// Adds the Z-characters of a character to the first `count` of a key, as far as it has room, and
/// answers how many it has then.
fn put_spelling(key: &mut [u8; 9], count: usize, c: u8) -> usize
    requires { count ≤ 9 }
    ensures { (zs : List ℕ) → IsFilledKey zs count key.old
        → IsFilledKey (zs ++ spelling_of c) result key.new }
{
    let mut filled = count;
    for z in spelling_of(c).as_slice() {
        if filled < 9 {
            key[filled] = *z;
            filled += 1;
        }
    }
    filled
}

/// The key of a word in the dictionary: the first nine Z-characters of the word in small letters,
/// filled with fives, in three words (Z-Machine Standards Document 1.1, sections 3.7 and 13.3).
///
/// Words with one key are one word to the player, as `lanterns` and `lanterns1`. Every word has a
/// key, whatever its bytes, and none asks for memory.
pub fn word_key(word: &[u8]) -> [u8; 6]
    ensures { result ≡ spec.key_of word.now }
{
    let mut key = [5; 9];
    let mut count = 0;
    for c in word {
        count = put_spelling(&mut key, count, lower_case(*c));
    }
    key_bytes(&key)
}
