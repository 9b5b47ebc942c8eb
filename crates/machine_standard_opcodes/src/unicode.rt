//! Unicode characters (Z-Machine Standards Document 1.1, sections 3.8.5 and 15, `print_unicode` and
//! `check_unicode`).

ghost use Rattle.std.specs.Prelude.{◌≡◌};
ghost use Rattle.zcore_standard.specs.Unicode as definitions;
ghost use Rattle.machine_frames.specs.States.{IsSound};
ghost use Rattle.machine_opcodes.specs.Printed.{HasBegun, Grew, ToldFrom};

use journal::Recorded;
use machine_frames::{End, Store};
use machine_standard_texts::{has_zscii, is_printed, print_transcript};
use zcore::Next;

/// A character that can be printed and typed.
const PRINTED_AND_TYPED: u16 = 3;

/// A character that can be printed only.
const PRINTED: u16 = 1;

/// What `check_unicode` answers for a character: bit 0, whether it can be printed, and bit 1,
/// whether it can be typed, where these are the characters of the ZSCII codes from 155 on.
pub fn abilities(characters: &[u16], code: u16) -> u16
    ensures { result ≡ definitions.abilities characters.now code }
{
    if has_zscii(characters, code as u32) {
        PRINTED_AND_TYPED
    } else if is_printed(code as u32) {
        PRINTED
    } else {
        0
    }
}

/// Prints a Unicode character, by its bytes in UTF-8: `print_unicode`. One that is not printed is a
/// question mark.
///
/// # Errors
///
/// The limit of text, before a byte is printed. `End::Memory` where memory was refused: the turn is
/// given up.
pub fn print_unicode(
    store: &mut Recorded<Store>,
    text: &mut Vec<u8>,
    start: usize,
    here: Next,
    after: u32,
    code: u16,
) -> Result<Next, End>
    requires sound { IsSound store.old.store }
    requires text { HasBegun start text.old.items }
    ensures told { ToldFrom start result store.old text.old.items store.new text.new.items
        (definitions.print_unicode here after code) }
    ensures text { Grew start text.old.items text.new.items }
{
    print_transcript(store, text, start, code)?;
    Ok(Next {
        program_counter: after,
        fuel: here.fuel,
    })
}
