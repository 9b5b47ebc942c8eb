//! Characters, and how they are spelled in Z-characters.

ghost use Rattle.std.specs.Prelude.{◌≡◌, ◌<◌, ◌≤◌, ◌++◌, length, take, IfOk, OnOk, MatchOption, ⊤};
ghost use Rattle.ztext.specs.Alphabets as spec;

use std::alloc::{AllocError, Global};

/// Alphabet A0, from Z-character 6 on.
pub(crate) static LOWER_LETTERS: [u8; 26] = *b"abcdefghijklmnopqrstuvwxyz";

/// Alphabet A1, from Z-character 6 on.
pub(crate) static UPPER_LETTERS: [u8; 26] = *b"ABCDEFGHIJKLMNOPQRSTUVWXYZ";

/// Alphabet A2, from Z-character 8 on: there 6 begins an escape and 7 is a new line.
pub(crate) static PUNCTUATION: [u8; 24] = *b"0123456789.,!?_#'\"/\\-:()";

/// The Z-characters of a character: the first `length` of `characters`.
#[derive(Clone, Copy)]
pub struct ZCharacters {
    characters: [u8; 4],
    length: usize,
    ghost length_fits: { length ≤ 4 },
}

impl ZCharacters {
    /// The Z-characters.
    pub fn as_slice(&self) -> &[u8]
        ensures { result.now ≡ take self.now.length self.now.characters }
    {
        &self.characters[..self.length]
    }
}

/// Whether a character can be printed, as the code of an escape too.
pub fn is_printable(c: u16) -> bool
    ensures { result ≡ spec.is_printable c }
{
    c == 13 || (32 <= c && c <= 126)
}

fn place_in(letters: &[u8], c: u8) -> Option<usize>
    ensures found { result ≡ spec.place_in letters.now c }
    ensures within { MatchOption result ⊤ (λ place. place < length letters.now) }
{
    letters.iter().position(|letter| *letter == c)
}

/// How a character in neither alphabet of letters, no space and no new line, is spelled.
fn sign_spelling(c: u8) -> ZCharacters
    ensures { take result.length result.characters
        ≡ spec.spelling_in_punctuation (spec.place_in spec.punctuation c) c }
{
    match place_in(&PUNCTUATION, c) {
        Some(place) => ZCharacters {
            characters: [5, place as u8 + 8, 5, 5],
            length: 2,
        },
        None => ZCharacters {
            characters: [5, 6, c / 32, c % 32],
            length: 4,
        },
    }
}

/// How a character is spelled, which is in the first alphabet that has it, or else as an escape.
#[tactic(auto, using(crate::proofs::Spelling::space_spelling, crate::proofs::Spelling::lower_spelling, crate::proofs::Spelling::upper_spelling, crate::proofs::Spelling::line_spelling, crate::proofs::Spelling::sign_spelling))]
pub fn spelling_of(c: u8) -> ZCharacters
    ensures { take result.length result.characters ≡ spec.spelling_of c }
{
    if c >= b'a' && c <= b'z' {
        return ZCharacters {
            characters: [c - b'a' + 6, 5, 5, 5],
            length: 1,
        };
    }
    if c == b' ' {
        return ZCharacters {
            characters: [0, 5, 5, 5],
            length: 1,
        };
    }
    if c >= b'A' && c <= b'Z' {
        return ZCharacters {
            characters: [4, c - b'A' + 6, 5, 5],
            length: 2,
        };
    }
    if c == b'\r' {
        return ZCharacters {
            characters: [5, 7, 5, 5],
            length: 2,
        };
    }
    sign_spelling(c)
}

/// How many Z-characters spell a character.
pub fn spelling_length(c: u8) -> usize
    ensures length { result ≡ length (spec.spelling_of c) }
    ensures few { result ≤ 4 }
{
    spelling_of(c).length
}

/// Adds the Z-characters of a character.
///
/// # Errors
///
/// `AllocError` where a growth of memory was refused.
pub fn put_spelled(characters: &mut Vec<u8>, c: u8) -> Result<(), AllocError>
    ensures { OnOk result (characters.new.items ≡ characters.old.items ++ spec.spelling_of c) }
{
    for z in spelling_of(c).as_slice() {
        characters.push(*z)?;
    }
    Ok(())
}

/// The Z-characters of a text.
///
/// # Errors
///
/// `AllocError` where a growth of memory was refused.
pub fn spelled(alloc: Global, text: &[u8]) -> Result<Vec<u8>, AllocError>
    ensures { IfOk result (λ v. v.items ≡ spec.spelled text.now) }
{
    let mut characters = Vec::with_capacity(alloc, text.len() + text.len() / 2)?;
    for c in text {
        put_spelled(&mut characters, *c)?;
    }
    Ok(characters)
}
