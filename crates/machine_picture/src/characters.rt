//! Characters, of the bytes of a text (UTF-8).

ghost use Rattle.std.specs.Prelude.{◌≡◌};
ghost use Rattle.std.specs.List.{prefix_len};
ghost use Rattle.zcore_standard.specs.Streams as definitions;
ghost use Rattle.machine_picture.specs.Begun.{IsBegun};
ghost use Rattle.machine_picture.specs.Drawing.{is_plain};

use zcore_standard::Begun;

/// The first byte of UTF-8 that begins a character of two bytes or more.
const TWO_BYTES: u8 = 0x80;

/// The first byte that begins a character of three.
const THREE_BYTES: u8 = 0xE0;

/// How many values a byte has that goes on with a character.
const FURTHER: u8 = 0x40;

/// No character has begun.
pub(crate) const BETWEEN: Begun = Begun { bits: 0, more: 0 };

/// A character with its first byte.
fn first_byte(byte: u8) -> Begun
    ensures same { result ≡ definitions.first_byte byte }
    ensures begun { IsBegun result }
{
    if byte < TWO_BYTES {
        Begun {
            bits: byte as u32,
            more: 0,
        }
    } else if byte < THREE_BYTES {
        Begun {
            bits: (byte % 32) as u32,
            more: 1,
        }
    } else {
        Begun {
            bits: (byte % 16) as u32,
            more: 2,
        }
    }
}

/// A character with a byte more.
pub(crate) fn next_byte(begun: Begun, byte: u8) -> Begun
    requires { IsBegun begun }
    ensures same { result ≡ definitions.next_byte begun byte }
    ensures begun { IsBegun result }
{
    if begun.more == 0 {
        return first_byte(byte);
    }
    Begun {
        bits: begun.bits * FURTHER as u32 + (byte % FURTHER) as u32,
        more: begun.more - 1,
    }
}

/// How many bytes some begin with that are characters of their own, and no newlines.
pub(crate) fn plain_count(bytes: &[u8]) -> usize
    ensures { result ≡ prefix_len is_plain bytes.now }
{
    bytes
        .iter()
        .take_while(|byte| **byte >= b' ' && **byte < 0x7F)
        .count()
}
