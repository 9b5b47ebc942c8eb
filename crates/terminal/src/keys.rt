//! The sequences that a terminal sends for keys such as the arrows.

ghost use Rattle.std.specs.Prelude.{◌≡◌, IfOk};
ghost use Rattle.terminal.specs.Keys as definitions;
ghost use Rattle.terminal.specs.declared.keys.Reading.TheVariants.{Escape};

use std::alloc::{AllocError, Global};

/// What begins a sequence.
const ESCAPE: u8 = 0x1B;

/// What ends a line.
const NEW_LINE: u8 = b'\n';

/// The first byte that ends the numbers of a sequence.
const FIRST_LETTER: u8 = b'@';

/// Where a byte is read.
#[derive(Clone, Copy)]
enum Reading {
    /// In a text.
    Text,

    /// After ESC.
    Escape,

    /// In the numbers of a sequence.
    Numbers,

    /// As the last byte of a sequence.
    Last,
}

/// What is typed, without the sequences of keys. The ends of lines stay.
///
/// # Errors
///
/// Memory was refused.
pub fn without_keys(alloc: Global, typed: &[u8]) -> Result<Vec<u8>, AllocError>
    ensures { IfOk result (λ text. text.items ≡ definitions.without_keys typed.now) }
{
    let mut text = Vec::new(alloc);
    let mut reading = Reading::Text;
    for byte in typed {
        let before = reading;
        reading = reading_after(before, *byte);
        if !is_kept(before, *byte) {
            continue;
        }
        text.push(*byte)?;
    }
    Ok(text)
}

/// Whether a byte is no part of a sequence.
fn is_kept(reading: Reading, byte: u8) -> bool
    ensures { result ≡ definitions.is_kept reading byte }
{
    match reading {
        Reading::Text => byte != ESCAPE,
        Reading::Escape => byte != ESCAPE && byte != b'[' && byte != b'O',
        Reading::Numbers => byte == NEW_LINE,
        Reading::Last => byte == NEW_LINE,
    }
}

/// Where the next byte is read.
fn reading_after(reading: Reading, byte: u8) -> Reading
    ensures { result ≡ definitions.reading_after reading byte }
{
    if byte == ESCAPE {
        return Reading::Escape;
    }
    after_byte(reading, byte)
}

/// Where the next byte is read after one that is no ESC.
fn after_byte(reading: Reading, byte: u8) -> Reading
    ensures { result ≡ definitions.after_byte reading byte }
{
    match reading {
        Reading::Text => Reading::Text,
        Reading::Escape => after_escape(byte),
        Reading::Numbers => {
            if byte == NEW_LINE || FIRST_LETTER <= byte {
                Reading::Text
            } else {
                Reading::Numbers
            }
        }
        Reading::Last => Reading::Text,
    }
}

/// Where the next byte is read after one that comes after ESC.
fn after_escape(byte: u8) -> Reading
    ensures { result ≡ definitions.after_byte Escape byte }
{
    if byte == b'[' {
        Reading::Numbers
    } else if byte == b'O' {
        Reading::Last
    } else {
        Reading::Text
    }
}
