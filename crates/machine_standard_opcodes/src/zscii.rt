//! From the text of a turn to ZSCII (Z-Machine Standards Document 1.1, section 3.8).

ghost use Rattle.std.specs.Prelude.{◌≡◌, ◌≤◌, ◌++◌, length, take, drop, IfOk, OnOk, OnErr};
ghost use Rattle.zcore_standard.specs.Streams as definitions;
ghost use Rattle.machine_standard_opcodes.specs.Begun.{IsBegun, AddsWhole};

use machine_standard_texts::zscii_of;
use std::alloc::AllocError;
use zcore_standard::Begun;

/// The first byte of UTF-8 that begins a character of two bytes or more.
const TWO_BYTES: u8 = 0x80;

/// The first byte that begins a character of three.
const THREE_BYTES: u8 = 0xE0;

/// How many values a byte has that goes on with a character.
const FURTHER: u8 = 0x40;

/// No character has begun.
const BETWEEN: Begun = Begun { bits: 0, more: 0 };

/// Adds to a text the ZSCII codes of its bytes from one on, where these are the characters of the
/// codes from 155 on. At `Err` memory was refused, and a part of them may stand.
pub(crate) fn add_zscii(text: &mut Vec<u8>, from: usize, extra: &[u16]) -> Result<(), AllocError>
    requires { from ≤ length text.old.items }
    ensures added { OnOk result
        (text.new.items ≡ text.old.items ++ definitions.zscii_in extra.now (drop from text.old.items)) }
    ensures front { take (length text.old.items) text.new.items ≡ text.old.items }
{
    let end = text.len();
    let mut begun = BETWEEN;
    for i in from..end {
        let next = next_byte(begun, text[i]);
        begun = add_whole(text, extra, next)?;
    }
    Ok(())
}

/// How many characters bytes are.
pub(crate) fn count_characters(bytes: &[u8]) -> usize
    ensures same { result ≡ length (definitions.characters_in definitions.between bytes.now) }
    ensures few { result ≤ length bytes.now }
{
    let mut begun = BETWEEN;
    let mut count = 0;
    for i in 0..bytes.len() {
        begun = next_byte(begun, bytes[i]);
        if begun.more == 0 {
            begun = BETWEEN;
            count += 1;
        }
    }
    count
}

/// Adds the code of a character that is whole, and begins another. One that is not whole goes on.
fn add_whole(text: &mut Vec<u8>, extra: &[u16], begun: Begun) -> Result<Begun, AllocError>
    ensures added { IfOk result
        (AddsWhole extra.now begun text.old.items text.new.items) }
    ensures same { OnErr result (text.new.items ≡ text.old.items) }
{
    if begun.more != 0 {
        return Ok(begun);
    }
    text.push(zscii_of(extra, begun.bits))?;
    Ok(BETWEEN)
}

/// A character with its first byte.
fn first_byte(byte: u8) -> Begun
    ensures same { result ≡ definitions.first_byte byte }
    ensures begun { IsBegun result }
{
    if byte < TWO_BYTES {
        Begun {
            bits: byte as u32,
            more: 0,
        }
    } else if byte < THREE_BYTES {
        Begun {
            bits: (byte % 32) as u32,
            more: 1,
        }
    } else {
        Begun {
            bits: (byte % 16) as u32,
            more: 2,
        }
    }
}

/// A character with a byte more.
fn next_byte(begun: Begun, byte: u8) -> Begun
    requires { IsBegun begun }
    ensures same { result ≡ definitions.next_byte begun byte }
    ensures begun { IsBegun result }
{
    if begun.more == 0 {
        return first_byte(byte);
    }
    Begun {
        bits: begun.bits * FURTHER as u32 + (byte % FURTHER) as u32,
        more: begun.more - 1,
    }
}
