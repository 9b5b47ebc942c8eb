//! Small letters (the Unicode Standard, section 4.2).

ghost use Rattle.std.specs.Prelude.{◌≡◌, ◌≤◌, IfSome};
ghost use Rattle.std.specs.List.{find, list_any};
ghost use Rattle.ztext.specs.Text as texts;
ghost use Rattle.zcore_standard.specs.Input as definitions;

use machine_lines::lower_case;
use machine_standard_texts::{extra_character, zscii_of};

/// The first ZSCII code that the Unicode table gives a character for.
const FIRST_EXTRA: u8 = 155;

/// Capitals that follow one another: the first, the last, and the small letter of the first.
const CAPITALS: [(u16, u16, u16); 18] = [
    (0xC0, 0xD6, 0xE0),
    (0xD8, 0xDE, 0xF8),
    (0x130, 0x130, 0x69),
    (0x178, 0x178, 0xFF),
    (0x37F, 0x37F, 0x3F3),
    (0x386, 0x386, 0x3AC),
    (0x388, 0x38A, 0x3AD),
    (0x38C, 0x38C, 0x3CC),
    (0x38E, 0x38F, 0x3CD),
    (0x391, 0x3A1, 0x3B1),
    (0x3A3, 0x3AB, 0x3C3),
    (0x3CF, 0x3CF, 0x3D7),
    (0x3F4, 0x3F4, 0x3B8),
    (0x3F9, 0x3F9, 0x3F2),
    (0x3FD, 0x3FF, 0x37B),
    (0x400, 0x40F, 0x450),
    (0x410, 0x42F, 0x430),
    (0x4C0, 0x4C0, 0x4CF),
];

/// The first and the last capital of pairs, of which the next character is the small letter.
const PAIRS: [(u16, u16); 14] = [
    (0x100, 0x12E),
    (0x132, 0x136),
    (0x139, 0x147),
    (0x14A, 0x176),
    (0x179, 0x17D),
    (0x370, 0x372),
    (0x376, 0x376),
    (0x3D8, 0x3EE),
    (0x3F7, 0x3F7),
    (0x3FA, 0x3FA),
    (0x460, 0x480),
    (0x48A, 0x4BE),
    (0x4C1, 0x4CD),
    (0x4D0, 0x4FE),
];

/// The code of the small letter, where a code is that of a capital, and the small letter has one;
/// else the code itself. These are the characters of the codes from 155 on.
#[tactic(auto, unfolding(zcore_standard::specs::Input::small))]
pub(crate) fn small(extra: &[u16], code: u8) -> u8
    ensures { result ≡ definitions.small extra.now code }
{
    if code < FIRST_EXTRA {
        return lower_case(code);
    }
    let character = extra_character(extra, code as u16);
    let found = zscii_of(extra, small_character(character));
    if found == b'?' { code } else { found }
}

/// The small letter of a capital; any other character itself.
#[tactic(auto, unfolding(zcore_standard::specs::Input::small_character))]
fn small_character(character: u16) -> u32
    ensures { result ≡ definitions.small_character character }
{
    if begins_any_pair(character) {
        return character as u32 + 1;
    }
    match row_of(character) {
        Some((first, _, small)) => small as u32 + (character - first) as u32,
        None => character as u32,
    }
}

/// Whether a character is a capital of one of the pairs.
fn begins_any_pair(character: u16) -> bool
    ensures { result ≡ list_any (definitions.begins_pair character) definitions.pairs }
{
    PAIRS.iter().any(|pair| begins_pair(character, pair))
}

/// The row of capitals in which a character is.
fn row_of(character: u16) -> Option<(u16, u16, u16)>
    ensures found { result ≡ find (definitions.is_among character) definitions.capitals }
    ensures among { IfSome result (λ row. row.0 ≤ character) }
{
    CAPITALS
        .iter()
        .copied()
        .find(|row| is_among(character, row))
}

/// Whether a character is a capital of pairs.
fn begins_pair(character: u16, pair: &(u16, u16)) -> bool
    ensures { result ≡ definitions.begins_pair character pair.now }
{
    pair.0 <= character && character <= pair.1 && (character - pair.0) % 2 == 0
}

/// Whether a character is one of some that follow one another.
fn is_among(character: u16, row: &(u16, u16, u16)) -> bool
    ensures { result ≡ definitions.is_among character row.now }
{
    row.0 <= character && character <= row.1
}
