//! How a word is spelled in versions 1 and 2, where a Z-character can lock an alphabet (Z-Machine
//! Standards Document 1.1, section 3.7.1).

ghost use Rattle.std.specs.Prelude.{◌≡◌, ◌<◌, ◌≤◌, ◌+◌, ◌++◌, length, take, drop, MatchOption, ⊤};
ghost use Rattle.ztext.specs.TextParts.{AreSmall, filled};
ghost use Rattle.zcore_versions.specs.LockedTexts as definitions;
ghost use Rattle.machine_versions_words.specs.Locks.{changed};

use machine_locked_texts::alphabets_in;
use machine_standard_words::{place_in, put_characters};

/// How many letters each alphabet has.
const LETTERS: usize = 26;

/// The third alphabet, whose letters begin later, and in which an escape begins.
const PUNCTUATION: u8 = 2;

/// The Z-character of the first letter in the other alphabets.
const FIRST_LETTER: u8 = 6;

/// The Z-character that begins an escape.
const ESCAPE: u8 = 6;

/// What fills a key.
const FILLER: u8 = 5;

/// The Z-characters of a character of a word, and the alphabet that is locked after them.
#[derive(Clone, Copy)]
struct ZCharacters {
    /// The first `length` of these.
    characters: [u8; 4],
    length: usize,
    lock: u8,
    ghost length_fits: { length ≤ 4 },
}

/// The Z-character of the first letter in an alphabet.
fn first_letter(version: u8, alphabet: u8) -> u8
    requires { version ≤ 2 }
    ensures first { result ≡ definitions.first_letter version alphabet }
    ensures least { 6 ≤ result }
    ensures few { result ≤ 8 }
{
    if alphabet == PUNCTUATION {
        FIRST_LETTER + version
    } else {
        FIRST_LETTER
    }
}

/// The Z-character of a code in an alphabet, 0 to 2, if it is a letter of it.
fn letter_of(version: u8, alphabet: u8, code: u8) -> Option<u8>
    requires version { version ≤ 2 }
    requires alphabet { alphabet < 3 }
    ensures letter { result ≡ definitions.letter_of version alphabet code }
    ensures small { MatchOption result ⊤ (λ z. z < 32) }
{
    let first = first_letter(version, alphabet);
    let start = LETTERS * alphabet as usize;
    let from = start + (first - FIRST_LETTER) as usize;
    match place_in(&alphabets_in(version)[from..start + LETTERS], code) {
        Some(place) => Some(place as u8 + first),
        None => None,
    }
}

/// The first alphabet that has a code; an escape is in the third.
#[tactic(auto, using(crate::proofs::Locking::first_alphabet, crate::proofs::Locking::second_alphabet, crate::proofs::Locking::third_alphabet))]
fn alphabet_of(version: u8, code: u8) -> u8
    requires { version ≤ 2 }
    ensures alphabet { result ≡ definitions.alphabet_of version code }
    ensures few { result < 3 }
{
    match letter_of(version, 0, code) {
        Some(_) => 0,
        None => match letter_of(version, 1, code) {
            Some(_) => 1,
            None => PUNCTUATION,
        },
    }
}

/// Whether the code at a place of a word is of an alphabet.
fn begins_in(version: u8, alphabet: u8, word: &[u8], place: usize) -> bool
    requires { version ≤ 2 }
    ensures { result ≡ definitions.begins_in version alphabet (drop place word.now) }
{
    if place >= word.len() {
        return false;
    }
    alphabet_of(version, word[place]) == alphabet
}

/// The Z-characters of a code in its alphabet, after one that shifts to this or locks it.
fn spelled(version: u8, alphabet: u8, code: u8, change: Option<u8>, lock: u8) -> ZCharacters
    requires version { version ≤ 2 }
    requires alphabet { alphabet < 3 }
    requires change { MatchOption change ⊤ (λ z. z < 32) }
    ensures spelled { take result.length result.characters ≡ changed change
        (definitions.letter_or_escape (definitions.letter_of version alphabet code) code) }
    ensures small { AreSmall (take result.length result.characters) }
    ensures lock { result.lock ≡ lock }
{
    match letter_of(version, alphabet, code) {
        Some(z) => match change {
            None => ZCharacters {
                characters: [z, FILLER, FILLER, FILLER],
                length: 1,
                lock,
            },
            Some(shift) => ZCharacters {
                characters: [shift, z, FILLER, FILLER],
                length: 2,
                lock,
            },
        },
        None => match change {
            None => ZCharacters {
                characters: [ESCAPE, code / 32, code % 32, FILLER],
                length: 3,
                lock,
            },
            Some(shift) => ZCharacters {
                characters: [shift, ESCAPE, code / 32, code % 32],
                length: 4,
                lock,
            },
        },
    }
}

/// The Z-character that shifts to an alphabet.
fn shift_to(lock: u8, alphabet: u8) -> u8
    requires { lock < 3 }
    ensures shift { result ≡ definitions.shift_to lock alphabet }
    ensures small { result < 32 }
{
    if alphabet == (lock + 1) % 3 { 2 } else { 3 }
}

/// The Z-character that locks an alphabet.
fn lock_to(lock: u8, alphabet: u8) -> u8
    requires { lock < 3 }
    ensures lock { result ≡ definitions.lock_to lock alphabet }
    ensures small { result < 32 }
{
    if alphabet == (lock + 1) % 3 { 4 } else { 5 }
}

/// How the code at a place of a word is spelled where an alphabet is locked. Another alphabet is locked
/// for two codes or more that follow each other.
fn spelling(version: u8, lock: u8, word: &[u8], place: usize) -> ZCharacters
    requires version { version ≤ 2 }
    requires lock { lock < 3 }
    requires place { place < length word.now }
    ensures rest { definitions.spelled_with_locks version lock (drop place word.now)
        ≡ take result.length result.characters
        ++ definitions.spelled_with_locks version result.lock (drop (place + 1) word.now) }
    ensures small { AreSmall (take result.length result.characters) }
    ensures lock { result.lock < 3 }
{
    let code = word[place];
    let alphabet = alphabet_of(version, code);
    if alphabet == lock {
        return spelled(version, alphabet, code, None, lock);
    }
    if begins_in(version, alphabet, word, place + 1) {
        let change = lock_to(lock, alphabet);
        return spelled(version, alphabet, code, Some(change), alphabet);
    }
    let change = shift_to(lock, alphabet);
    spelled(version, alphabet, code, Some(change), lock)
}

/// The first nine Z-characters of a word, filled with fives.
pub(crate) fn locked_characters(version: u8, word: &[u8]) -> [u8; 9]
    requires { version ≤ 2 }
    ensures nine { result ≡ filled (definitions.spelled_with_locks version 0 word.now) }
    ensures small { AreSmall result }
{
    let mut characters = [FILLER; 9];
    let mut count = 0;
    let mut lock = 0;
    for place in 0..word.len() {
        let next = spelling(version, lock, word, place);
        count = put_characters(&mut characters, count, &next.characters[..next.length]);
        lock = next.lock;
    }
    characters
}
