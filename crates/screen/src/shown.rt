//! Texts of a story as they are shown.

ghost use Rattle.std.specs.Prelude.{◌≡◌, IfOk};
ghost use Rattle.screen.specs.Shown.{is_control, is_control_after, shown, shown_byte};

use std::alloc::{AllocError, Global};

/// What a control character of ASCII is shown as.
const QUESTION: u8 = b'?';

/// The first byte in UTF-8 of the control characters from U+0080 to U+009F, and of others.
const FIRST_OF_TWO: u8 = 0xC2;

/// The second byte of what one of these is shown as, U+00BF.
const SECOND_SHOWN: u8 = 0xBF;

/// A text as it is shown: without control characters but new lines.
///
/// # Errors
///
/// Memory was refused.
pub(crate) fn shown(alloc: Global, text: &[u8]) -> Result<Vec<u8>, AllocError>
    ensures { IfOk result (λ bytes. bytes.items ≡ shown text.now) }
{
    let mut bytes = Vec::new(alloc);
    let mut before = 0;
    for byte in text {
        bytes.push(shown_byte(before, *byte))?;
        before = *byte;
    }
    Ok(bytes)
}

/// A byte as it is shown after another.
fn shown_byte(before: u8, byte: u8) -> u8
    ensures { result ≡ shown_byte before byte }
{
    if is_control(byte) {
        QUESTION
    } else if is_control_after(before, byte) {
        SECOND_SHOWN
    } else {
        byte
    }
}

/// Whether a byte is a control character of ASCII but a new line.
fn is_control(byte: u8) -> bool
    ensures { result ≡ is_control byte }
{
    (byte < 32 && byte != b'\n') || byte == 127
}

/// Whether a byte is the second one of a control character.
fn is_control_after(before: u8, byte: u8) -> bool
    ensures { result ≡ is_control_after before byte }
{
    before == FIRST_OF_TWO && 0x80 <= byte && byte < 0xA0
}
