//! The bits of a word, moved (Z-Machine Standards Document 1.1, section 15, `log_shift` and
//! `art_shift`).

ghost use Rattle.std.specs.Prelude.{◌≡◌, ◌≤◌, min};
ghost use Rattle.zcore.specs.Arithmetic.{magnitude};
ghost use Rattle.zcore_standard.specs.Shifts.{shifted, shifted_with_sign};

use machine_opcodes::NEGATIVE;

/// How many bits a word has: where they are moved by more places, none is left.
const BITS: u32 = 16;

/// How many values a word has.
const WORDS: u32 = 65_536;

/// The greatest word.
const GREATEST: u32 = WORDS - 1;

/// By how many places bits are moved, to either side.
fn distance(places: u16) -> u32
    ensures least { result ≡ min (magnitude places) 16 }
    ensures most { result ≤ 16 }
{
    let distance = if places < NEGATIVE {
        places as u32
    } else {
        WORDS - places as u32
    };
    distance.min(BITS)
}

/// A word whose bits are moved by a signed number of places, to the left where it is positive. Bits
/// that leave the word are lost, and zeros come in.
pub fn shifted(word: u16, places: u16) -> u16
    ensures { result ≡ shifted word places }
{
    let by = distance(places);
    if places < NEGATIVE {
        (((word as u32) << by) % WORDS) as u16
    } else {
        ((word as u32) >> by) as u16
    }
}

/// The same for a signed word: from the left its sign comes in.
pub fn shifted_with_sign(word: u16, places: u16) -> u16
    ensures { result ≡ shifted_with_sign word places }
{
    if places < NEGATIVE || word < NEGATIVE {
        return shifted(word, places);
    }
    let by = distance(places);
    (GREATEST - ((GREATEST - word as u32) >> by)) as u16
}
