//! What each Z-character of a text comes to, and what is read after it (Z-Machine Standards Document
//! 1.1, sections 3.2 to 3.5).

ghost use Rattle.std.specs.Prelude.{◌≡◌, ◌<◌, ◌≤◌, ◌+◌, ◌-◌, ◌*◌, slice_index, Ok};
ghost use Rattle.zcore_versions.specs.LockedTexts as definitions;
ghost use Rattle.machine_locked_texts.specs.Letters.{Comes, IsRight, IsSmall, expected_of};

use crate::alphabets::{alphabet_after, alphabet_before, alphabets_in};
use zcore::layout::NEW_LINE;

/// How many letters an alphabet has.
const LETTERS: usize = 26;

/// The alphabet in which an escape begins.
const PUNCTUATION: u8 = 2;

/// The Z-characters that lock the alphabet after the one that is locked, and the one before it.
const LOCK_AFTER: u8 = 4;

const LOCK_BEFORE: u8 = 5;

/// The first Z-character that is a letter.
const FIRST_LETTER: u8 = 6;

/// What the next Z-character is.
#[derive(Clone, Copy)]
pub(crate) enum Expected {
    /// A letter of this alphabet, 0 to 2, a shift or a lock.
    Letter(u8),
    /// The high half of an escape's code.
    High,
    /// The low half, after this high half.
    Low(u8),
    /// The number of an abbreviation.
    Number,
}

/// How a text is read on.
#[derive(Clone, Copy)]
pub(crate) struct Reading {
    /// The alphabet that is locked, 0 to 2.
    pub(crate) lock: u8,
    pub(crate) expected: Expected,
}

/// What a Z-character comes to.
#[derive(Clone, Copy)]
pub(crate) enum Piece {
    Nothing,
    /// A ZSCII code.
    Code(u16),
    /// The text of the abbreviation of this number, 0 to 31.
    Abbreviation(u8),
}

/// How a text is read with this alphabet locked, and no shift.
pub(crate) fn reading_in(lock: u8) -> Reading
    requires { lock < 3 }
    ensures lock { result.lock ≡ lock }
    ensures letter { expected_of result.expected ≡ definitions.Letter lock }
    ensures small { IsRight result }
{
    Reading {
        lock,
        expected: Expected::Letter(lock),
    }
}

/// The alphabet that is locked after a Z-character.
fn lock_after(lock: u8, expected: Expected, z: u8) -> u8
    requires { lock < 3 }
    ensures lock { result ≡ definitions.lock_after lock (expected_of expected) z }
    ensures few { result < 3 }
{
    match expected {
        Expected::High | Expected::Low(_) | Expected::Number => lock,
        Expected::Letter(_) => {
            if z == LOCK_AFTER {
                alphabet_after(lock)
            } else if z == LOCK_BEFORE {
                alphabet_before(lock)
            } else {
                lock
            }
        }
    }
}

/// What is expected after a Z-character that can be a letter of an alphabet.
fn expected_after_letter(version: u8, lock: u8, alphabet: u8, z: u8) -> Expected
    requires { lock < 3 }
    ensures expected { expected_of result
        ≡ definitions.expected_after version lock (definitions.Letter alphabet) z }
    ensures small { IsSmall result }
{
    match z {
        1 => match version {
            2 => Expected::Number,
            _ => Expected::Letter(lock),
        },
        2 => Expected::Letter(alphabet_after(lock)),
        3 => Expected::Letter(alphabet_before(lock)),
        6 => match alphabet {
            PUNCTUATION => Expected::High,
            _ => Expected::Letter(lock),
        },
        _ => Expected::Letter(lock),
    }
}

/// What is expected after a Z-character, with the alphabet that is locked then. A shift holds for one
/// Z-character, and is reckoned from the lock.
fn expected_after(version: u8, lock: u8, expected: Expected, z: u8) -> Expected
    requires lock { lock < 3 }
    requires below { z < 32 }
    ensures expected { expected_of result
        ≡ definitions.expected_after version lock (expected_of expected) z }
    ensures small { IsSmall result }
{
    match expected {
        Expected::High => Expected::Low(z),
        Expected::Low(_) | Expected::Number => Expected::Letter(lock),
        Expected::Letter(alphabet) => expected_after_letter(version, lock, alphabet, z),
    }
}

/// How a text is read on after a Z-character.
pub(crate) fn reading_after(version: u8, reading: Reading, z: u8) -> Reading
    requires small { IsRight reading }
    requires below { z < 32 }
    ensures lock { result.lock ≡ definitions.lock_after reading.lock
        (expected_of reading.expected) z }
    ensures expected { expected_of result.expected
        ≡ definitions.expected_after version result.lock (expected_of reading.expected) z }
    ensures small { IsRight result }
{
    let lock = lock_after(reading.lock, reading.expected, z);
    let expected = expected_after(version, lock, reading.expected, z);
    Reading { lock, expected }
}

/// The code of a Z-character that is a letter of an alphabet.
fn letter(version: u8, alphabet: u8, z: u8) -> u16
    requires alphabet { alphabet < 3 }
    requires from { 6 ≤ z }
    requires below { z < 32 }
    ensures { result ≡ slice_index (definitions.alphabets_in version) (26 * alphabet + (z - 6)) }
{
    let place = LETTERS * alphabet as usize + (z - FIRST_LETTER) as usize;
    u16::from(alphabets_in(version)[place])
}

/// What a Z-character comes to that can be a letter of an alphabet. 0 is a space; of the others below
/// the letters 1 is a new line in version 1, and 6 begins an escape in the third alphabet.
#[tactic(auto, using(crate::proofs::LockedReading::sixth_letter, crate::proofs::LockedReading::later_letter))]
fn letter_piece(version: u8, alphabet: u8, z: u8) -> Piece
    requires alphabet { alphabet < 3 }
    requires below { z < 32 }
    ensures { (expand : _)
        → Comes expand (Ok (definitions.letter_codes version alphabet z)) result }
{
    match z {
        0 => Piece::Code(u16::from(b' ')),
        1 => match version {
            1 => Piece::Code(u16::from(NEW_LINE)),
            _ => Piece::Nothing,
        },
        2..=5 => Piece::Nothing,
        6 => match alphabet {
            PUNCTUATION => Piece::Nothing,
            _ => Piece::Code(letter(version, alphabet, z)),
        },
        _ => Piece::Code(letter(version, alphabet, z)),
    }
}

/// What a Z-character comes to.
pub(crate) fn piece_of(version: u8, expected: Expected, z: u8) -> Piece
    requires small { IsSmall expected }
    requires below { z < 32 }
    ensures { (expand : _)
        → Comes expand (definitions.locked_codes version expand (expected_of expected) z) result }
{
    match expected {
        Expected::High => Piece::Nothing,
        Expected::Low(high) => Piece::Code(32 * u16::from(high) + u16::from(z)),
        Expected::Number => Piece::Abbreviation(z),
        Expected::Letter(alphabet) => letter_piece(version, alphabet, z),
    }
}
