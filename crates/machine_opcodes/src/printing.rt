//! Opcodes that print (Z-Machine Standards Document 1.1, section 15).

ghost use Rattle.std.specs.Prelude.{◌≡◌, ◌≤◌, ℕ, length};
ghost use Rattle.zcore.specs.Arithmetic.{signed_text};
ghost use Rattle.zcore.specs.Execution.{text_at, print_characters, print_inline, print_return, print_address, print_packed, is_output, print_character};
ghost use Rattle.machine_opcodes.specs.Fronts.{Adds};
ghost use Rattle.machine_opcodes.specs.Printed.{HasBegun, Grew, ToldFrom};
ghost use Rattle.machine_frames.specs.States.{IsSound, IsStoreOf};
ghost use Rattle.ztext.specs.Text.{decoded};
ghost use Rattle.ztext.specs.Faults.{FailsText};
ghost use Rattle.machine_frames.specs.Contents.{memory_of};
ghost use Rattle.machine_frames.specs.Went.{Went};

use crate::calls::{give_back, unpacked};
use crate::numbers::signed_digits;
use crate::transcript::{TEXT_LIMIT, print, print_added};
use journal::Recorded;
use machine_frames::{End, Store, test_return};
use zcore::layout::NEW_LINE;
use zcore::{Fault, Header, Next, Place, TextFault, append_front};

/// Prints characters, and goes on: `new_line` prints 13.
///
/// # Errors
///
/// The limit of text. `End::Memory` where memory was refused: the turn is given up.
#[inline]
pub fn print_characters(
    store: &mut Recorded<Store>,
    text: &mut Vec<u8>,
    start: usize,
    here: Next,
    after: u32,
    characters: &[u8],
) -> Result<Next, End>
    requires sound { IsSound store.old.store }
    requires text { HasBegun start text.old.items }
    ensures told { ToldFrom start result store.old text.old.items store.new text.new.items
        (print_characters here after characters.now) }
    ensures text { Grew start text.old.items text.new.items }
{
    print(store, text, start, characters)?;
    Ok(Next {
        program_counter: after,
        fuel: here.fuel,
    })
}

/// Prints the text that follows the opcode, and goes on after it: `print`.
///
/// # Errors
///
/// M3 where the text runs past the end, M10 where it holds what no text may, the limit of text.
/// `End::Memory` where memory was refused: the turn is given up.
pub fn print_inline(
    store: &mut Recorded<Store>,
    text: &mut Vec<u8>,
    start: usize,
    here: Next,
    after: u32,
) -> Result<Next, End>
    requires sound { IsSound store.old.store }
    requires text { HasBegun start text.old.items }
    ensures told { ToldFrom start result store.old text.old.items store.new text.new.items
        (print_inline here after) }
    ensures text { Grew start text.old.items text.new.items }
{
    let end = text.len();
    let program_counter = add_text(store, text, after)?;
    print_added(text, start, end)?;
    Ok(Next {
        program_counter,
        fuel: here.fuel,
    })
}

/// Prints the text that follows the opcode and a new line, and returns 1: `print_ret`.
///
/// # Errors
///
/// M3 where the text runs past the end, M10 where it holds what no text may, then the faults of a
/// return, the limit of text. `End::Memory` where memory was refused: the turn is given up.
pub fn print_return(
    header: &Header,
    store: &mut Recorded<Store>,
    text: &mut Vec<u8>,
    start: usize,
    here: Next,
    after: u32,
) -> Result<Next, End>
    requires store { IsStoreOf header.now store.old.store }
    requires text { HasBegun start text.old.items }
    ensures told { ToldFrom start result store.old text.old.items store.new text.new.items
        (print_return here after) }
    ensures text { Grew start text.old.items text.new.items }
{
    let end = text.len();
    let _behind = add_text(store, text, after)?;
    match test_return(store) {
        Ok(_) => {}
        Err(e) => {
            text.truncate(end);
            return Err(e);
        }
    }
    print_added(text, start, end)?;
    print(store, text, start, &[NEW_LINE])?;
    give_back(header, store, here.fuel, 1)
}

/// Prints the text at an address: `print_addr`.
///
/// # Errors
///
/// M3 where the text runs past the end, M10 where it holds what no text may, the limit of text.
/// `End::Memory` where memory was refused: the turn is given up.
pub fn print_address(
    store: &mut Recorded<Store>,
    text: &mut Vec<u8>,
    start: usize,
    here: Next,
    after: u32,
    address: u32,
) -> Result<Next, End>
    requires sound { IsSound store.old.store }
    requires text { HasBegun start text.old.items }
    ensures told { ToldFrom start result store.old text.old.items store.new text.new.items
        (print_address here after address) }
    ensures text { Grew start text.old.items text.new.items }
{
    let end = text.len();
    let _behind = add_text(store, text, address)?;
    print_added(text, start, end)?;
    Ok(Next {
        program_counter: after,
        fuel: here.fuel,
    })
}

/// Prints the text at a packed address: `print_paddr`.
///
/// # Errors
///
/// M3 where the text runs past the end, M10 where it holds what no text may, the limit of text.
/// `End::Memory` where memory was refused: the turn is given up.
pub fn print_packed(
    header: &Header,
    store: &mut Recorded<Store>,
    text: &mut Vec<u8>,
    start: usize,
    here: Next,
    after: u32,
    packed: u16,
) -> Result<Next, End>
    requires store { IsStoreOf header.now store.old.store }
    requires text { HasBegun start text.old.items }
    ensures told { ToldFrom start result store.old text.old.items store.new text.new.items
        (print_packed here after packed) }
    ensures text { Grew start text.old.items text.new.items }
{
    let address = unpacked(header, packed);
    print_address(store, text, start, here, after, address)
}

/// Prints a character: `print_char`.
///
/// # Errors
///
/// M10 where it cannot be printed, the limit of text. `End::Memory` where memory was refused: the
/// turn is given up.
#[inline]
pub fn print_character(
    store: &mut Recorded<Store>,
    text: &mut Vec<u8>,
    start: usize,
    here: Next,
    after: u32,
    character: u16,
) -> Result<Next, End>
    requires sound { IsSound store.old.store }
    requires text { HasBegun start text.old.items }
    ensures told { ToldFrom start result store.old text.old.items store.new text.new.items
        (print_character here after character) }
    ensures text { Grew start text.old.items text.new.items }
{
    if !is_output(character) {
        return Err(End::Stop(Place::Fault(Fault::Character)));
    }
    print_characters(store, text, start, here, after, &[character as u8])
}

/// Prints a signed number: `print_num`.
///
/// # Errors
///
/// The limit of text. `End::Memory` where memory was refused: the turn is given up.
pub fn print_number(
    store: &mut Recorded<Store>,
    text: &mut Vec<u8>,
    start: usize,
    here: Next,
    after: u32,
    number: u16,
) -> Result<Next, End>
    requires sound { IsSound store.old.store }
    requires text { HasBegun start text.old.items }
    ensures told { ToldFrom start result store.old text.old.items store.new text.new.items
        (print_characters here after (signed_text number)) }
    ensures text { Grew start text.old.items text.new.items }
{
    let (digits, first) = signed_digits(number);
    print_characters(store, text, start, here, after, &digits[first..])
}

/// Whether a character can be printed (section 3.8): 13 is a new line, and 0 prints nothing.
#[inline]
fn is_output(character: u16) -> bool
    ensures { result ≡ is_output character }
{
    character == 0 || character == 13 || (32 <= character && character <= 126)
}

/// Adds the text at an address to the transcript as it is, to be printed by `print_added`, and
/// answers the address after it. Of a text that is longer than a turn may print, only so many
/// characters are added that it passes the limit: one of long abbreviations can have more than
/// memory holds. One that prints nothing is remembered where its bytes never change, since a turn
/// may come to it without end.
///
/// # Errors
///
/// M3 where it does not end in the story, M10 where it has a character that cannot be printed or an
/// abbreviation within another. `End::Memory` where memory was refused: the turn is given up.
/// Nothing is added then.
fn add_text(store: &mut Recorded<Store>, text: &mut Vec<u8>, address: u32) -> Result<u32, End>
    requires { IsSound store.old.store }
    ensures { Adds result text.old.items text.new.items store.old store.new (text_at address) }
{
    if let Some(after) = store.store().after_silence(address) {
        return Ok(after);
    }
    let end = text.len();
    let most = end + TEXT_LIMIT + 1;
    match append_front(text, store.store().memory(), address, most) {
        Ok(after) => {
            if text.len() == end {
                store.learn(address as usize);
            }
            Ok(after)
        }
        Err(fault) => {
            text.truncate(end);
            Err(unread(store, fault))
        }
    }
}

/// How the turn ends where a text cannot be read: where memory was refused, it is given up.
fn unread(store: &mut Recorded<Store>, fault: TextFault) -> End
    requires { IsSound store.old.store }
    ensures { (address : _) → FailsText fault (decoded (memory_of store.old.store) address)
        → Went (Err result) store.old store.new (text_at address) }
{
    match fault {
        TextFault::End => End::Stop(Place::Fault(Fault::Read)),
        TextFault::Memory => {
            store.abandon();
            End::Memory
        }
        TextFault::Character => End::Stop(Place::Fault(Fault::Character)),
        TextFault::Abbreviation => End::Stop(Place::Fault(Fault::Character)),
    }
}
