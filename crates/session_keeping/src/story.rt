//! The line by which a session's file knows its story.

use sha2::{Digest, Sha256};
use std::alloc::{AllocError, Global};

/// Where the header has the release number, the serial number and the sum, by their first bytes
/// (Z-Machine Standards Document 1.1, section 11.1).
const RELEASE: usize = 0x02;

const SERIAL: usize = 0x12;

const SUM: usize = 0x1C;

/// How many characters a serial number has.
const SERIAL_LENGTH: usize = 6;

/// A line that tells a story from others: release, serial number and sum as its header states them, its
/// length in bytes and their SHA-256. In the serial number, `?` stands for what is no letter or digit.
///
/// # Errors
///
/// Memory was refused.
pub fn story_line(alloc: Global, story: &[u8]) -> Result<String, AllocError> {
    let release = word_at(story, RELEASE);
    let sum = word_at(story, SUM);
    let length = story.len();
    let serial = serial_of(alloc, story)?;
    let digest = hex::encode(alloc, Sha256::digest(story))?;
    format!(in alloc;
        "story release {release} serial {serial} sum {sum:04X} length {length} sha256 {digest}"
    )
}

/// The serial number, as it is shown.
fn serial_of(alloc: Global, story: &[u8]) -> Result<String, AllocError> {
    let mut serial = String::new(alloc);
    for at in SERIAL..SERIAL + SERIAL_LENGTH {
        serial.push(shown(byte_at(story, at)))?;
    }
    Ok(serial)
}

/// A character of a serial number.
fn shown(byte: u8) -> char {
    if byte.is_ascii_alphanumeric() {
        char::from(byte)
    } else {
        '?'
    }
}

/// The byte at an address; 0 after the end.
fn byte_at(story: &[u8], address: usize) -> u8 {
    match story.get(address) {
        Some(byte) => *byte,
        None => 0,
    }
}

/// The word at an address.
fn word_at(story: &[u8], address: usize) -> u16 {
    u16::from(byte_at(story, address)) * 256 + u16::from(byte_at(story, address.saturating_add(1)))
}
