//! The opcodes of the profile that print texts and characters, where any ZSCII code may stand
//! (Z-Machine Standards Document 1.1, sections 3.8 and 15).

ghost use Rattle.std.specs.Prelude.{◌≡◌, ◌∷◌, [], ℕ, List, Result, Err, Some};
ghost use Rattle.zcore.specs.Effects.{read_text};
ghost use Rattle.zcore.specs.Execution as profile;
ghost use Rattle.zcore.specs.Objects.{print_object};
ghost use Rattle.zcore.specs.State.{State, Out};
ghost use Rattle.ztext.specs.Faults.{FailsText};
ghost use Rattle.ztext.specs.Reading.{Cause};
ghost use Rattle.zcore_standard.specs.Characters.{print_codes};
ghost use Rattle.zcore_standard.specs.Texts.{alphabets_of};
ghost use Rattle.zcore_standard.specs.Printing as definitions;
ghost use Rattle.zcore_standard.specs.Printing.{by_alphabets};
ghost use Rattle.zcore_standard.specs.Unicode as unicode;
ghost use Rattle.machine_frames.specs.Contents.{memory_of};
ghost use Rattle.machine_frames.specs.States.{IsSound, IsStoreOf};
ghost use Rattle.machine_opcodes.specs.Printed.{HasBegun, Grew, ToldFrom};
ghost use Rattle.machine_frames.specs.Went.{Told, Went};
ghost use Rattle.machine_standard_texts.specs.Put.{Extends, Prints};
ghost use Rattle.machine_standard_texts.specs.Read.{AddsText, ends_refused};

use crate::characters::{Halt, put_next, put_unicode};
use crate::reading::put_text;
use journal::Recorded;
use machine_frames::{End, Store, read_byte, test_return};
use machine_objects as objects;
use machine_objects::{property_table, test_object};
use machine_opcodes as known;
use machine_opcodes::{give_back, unpacked};
use zcore::layout::NEW_LINE;
use zcore::{Fault, Header, Limit, Next, Place, TextFault};
use zcore_standard::Loaded;

/// Whether a turn ends by M10.
fn is_refused(end: &Result<Next, End>) -> bool
    ensures { result ≡ ends_refused end.now }
{
    match end {
        Err(End::Stop(Place::Fault(Fault::Character))) => true,
        _ => false,
    }
}

/// How a turn ends where a text of memory cannot be read: where memory was refused, it is given up.
pub fn unread(store: &mut Recorded<Store>, fault: TextFault) -> End
    requires { IsSound store.old.store }
    ensures { (read : List ℕ → Result (List ℕ × ℕ) Cause)
        → FailsText fault (read (memory_of store.old.store))
        → Went (Err result) store.old store.new (λ s. read_text (read s.memory) s) }
{
    match fault {
        TextFault::End => End::Stop(Place::Fault(Fault::Read)),
        TextFault::Memory => {
            store.abandon();
            End::Memory
        }
        TextFault::Character => End::Stop(Place::Fault(Fault::Character)),
        TextFault::Abbreviation => End::Stop(Place::Fault(Fault::Character)),
    }
}

/// Adds what the text at an address prints. Answers the address after it, and where printing
/// halted. M3 and M10; nothing is added then.
fn add_text(
    store: &mut Recorded<Store>,
    text: &mut Vec<u8>,
    start: usize,
    loaded: &Loaded,
    address: u32,
) -> Result<(u32, Option<Halt>), End>
    requires sound { IsSound store.old.store }
    requires text { HasBegun start text.old.items }
    ensures adds { AddsText loaded.now.characters start text.old.items text.new.items result store.old
        store.new (definitions.any_text_at (alphabets_of loaded.now) address) }
    ensures text { Extends start text.old.items text.new.items }
{
    match put_text(
        text,
        start,
        loaded.characters(),
        loaded.alphabets(),
        store.store().memory(),
        address,
    ) {
        Ok(added) => Ok(added),
        Err(fault) => Err(unread(store, fault)),
    }
}

/// How a turn ends where printing halted: where memory was refused, it is given up.
fn halted_end(store: &mut Recorded<Store>, halt: Halt) -> End
    requires { IsSound store.old.store }
    ensures { (was now : List ℕ) (f : State → Out (Unit {0})) → Prints (Some halt) was now f
        → Told (Err result) store.old was store.new now f }
{
    match halt {
        Halt::Full => End::Stop(Place::Limit(Limit::Text)),
        Halt::Memory => {
            store.abandon();
            End::Memory
        }
    }
}

/// Ends the turn where printing halted.
///
/// # Errors
///
/// The limit of text. `End::Memory` where memory was refused: the turn is given up.
pub fn finish(store: &mut Recorded<Store>, halted: Option<Halt>) -> Result<(), End>
    requires { IsSound store.old.store }
    ensures { (was now : List ℕ) (f : State → Out (Unit {0})) → Prints halted was now f
        → Told result store.old was store.new now f }
{
    match halted {
        None => Ok(()),
        Some(halt) => Err(halted_end(store, halt)),
    }
}

/// Prints a ZSCII code: 0 prints nothing, 9 a space, 11 two, 13 a new line, 32 to 126 ASCII, and
/// from 155 on a code prints its character of these. Any other prints a question mark.
///
/// # Errors
///
/// The limit of text. `End::Memory` where memory was refused: the turn is given up.
pub fn print_code(
    store: &mut Recorded<Store>,
    text: &mut Vec<u8>,
    start: usize,
    characters: &[u16],
    code: u16,
) -> Result<(), End>
    requires sound { IsSound store.old.store }
    requires text { HasBegun start text.old.items }
    ensures told { ToldFrom start result store.old text.old.items store.new text.new.items
        (print_codes characters.now (code ∷ [])) }
    ensures text { Grew start text.old.items text.new.items }
{
    let halted = put_next(text, start, characters, None, code);
    finish(store, halted)
}

/// Prints a Unicode character, by its bytes in UTF-8. One that is not printed is a question mark.
///
/// # Errors
///
/// The limit of text, before a byte is printed. `End::Memory` where memory was refused: the turn is
/// given up.
pub fn print_transcript(
    store: &mut Recorded<Store>,
    text: &mut Vec<u8>,
    start: usize,
    code: u16,
) -> Result<(), End>
    requires sound { IsSound store.old.store }
    requires text { HasBegun start text.old.items }
    ensures told { ToldFrom start result store.old text.old.items store.new text.new.items
        (unicode.print_whole (unicode.transcript_of code)) }
    ensures text { Grew start text.old.items text.new.items }
{
    let halted = put_unicode(text, start, code);
    finish(store, halted)
}

/// Prints a ZSCII code, and goes on.
fn print_any_character(
    store: &mut Recorded<Store>,
    text: &mut Vec<u8>,
    start: usize,
    loaded: &Loaded,
    here: Next,
    after: u32,
    character: u16,
) -> Result<Next, End>
    requires sound { IsSound store.old.store }
    requires text { HasBegun start text.old.items }
    ensures told { ToldFrom start result store.old text.old.items store.new text.new.items
        (definitions.print_any_character loaded.now here after character) }
    ensures text { Grew start text.old.items text.new.items }
{
    print_code(store, text, start, loaded.characters(), character)?;
    Ok(Next {
        program_counter: after,
        fuel: here.fuel,
    })
}

/// Prints the text at an address by the story's alphabets, and goes on.
///
/// # Errors
///
/// M3 where it passes the memory that can be read, M10 where an abbreviation is in another or there
/// are none, the limit of text. `End::Memory` where memory was refused: the turn is given up.
pub fn print_any_address(
    store: &mut Recorded<Store>,
    text: &mut Vec<u8>,
    start: usize,
    loaded: &Loaded,
    here: Next,
    after: u32,
    address: u32,
) -> Result<Next, End>
    requires sound { IsSound store.old.store }
    requires text { HasBegun start text.old.items }
    ensures told { ToldFrom start result store.old text.old.items store.new text.new.items
        (definitions.print_any_address loaded.now here after address) }
    ensures text { Grew start text.old.items text.new.items }
{
    let added = add_text(store, text, start, loaded, address)?;
    finish(store, added.1)?;
    Ok(Next {
        program_counter: after,
        fuel: here.fuel,
    })
}

/// Prints the text that follows the opcode, and goes on after it.
fn print_any_inline(
    store: &mut Recorded<Store>,
    text: &mut Vec<u8>,
    start: usize,
    loaded: &Loaded,
    here: Next,
    after: u32,
) -> Result<Next, End>
    requires sound { IsSound store.old.store }
    requires text { HasBegun start text.old.items }
    ensures told { ToldFrom start result store.old text.old.items store.new text.new.items
        (definitions.print_any_inline loaded.now here after) }
    ensures text { Grew start text.old.items text.new.items }
{
    let added = add_text(store, text, start, loaded, after)?;
    finish(store, added.1)?;
    Ok(Next {
        program_counter: added.0,
        fuel: here.fuel,
    })
}

/// Prints the text that follows the opcode and a new line, and returns 1.
fn print_any_return(
    header: &Header,
    store: &mut Recorded<Store>,
    text: &mut Vec<u8>,
    start: usize,
    loaded: &Loaded,
    here: Next,
    after: u32,
) -> Result<Next, End>
    requires store { IsStoreOf header.now store.old.store }
    requires text { HasBegun start text.old.items }
    ensures told { ToldFrom start result store.old text.old.items store.new text.new.items
        (definitions.print_any_return loaded.now here after) }
    ensures text { Grew start text.old.items text.new.items }
{
    let end = text.len();
    let added = add_text(store, text, start, loaded, after)?;
    match test_return(store) {
        Ok(_) => {}
        Err(e) => {
            text.truncate(end);
            return Err(e);
        }
    }
    let halted = put_next(text, start, loaded.characters(), added.1, NEW_LINE as u16);
    finish(store, halted)?;
    give_back(header, store, here.fuel, 1)
}

/// Prints the short name of an object. Nothing is printed where the name's length is 0.
fn print_any_object(
    header: &Header,
    store: &mut Recorded<Store>,
    text: &mut Vec<u8>,
    start: usize,
    loaded: &Loaded,
    here: Next,
    after: u32,
    object: u16,
) -> Result<Next, End>
    requires store { IsStoreOf header.now store.old.store }
    requires text { HasBegun start text.old.items }
    ensures told { ToldFrom start result store.old text.old.items store.new text.new.items
        (definitions.print_any_object loaded.now here after object) }
    ensures text { Grew start text.old.items text.new.items }
{
    test_object(header, store, object)?;
    let table = property_table(header, store, object)?;
    let words = read_byte(store, table as usize)?;
    if words == 0 {
        return Ok(Next {
            program_counter: after,
            fuel: here.fuel,
        });
    }
    print_any_address(store, text, start, loaded, here, after, table as u32 + 1)
}

/// Prints a character: `print_char`. Any ZSCII code is printed.
///
/// # Errors
///
/// The limit of text. `End::Memory` where memory was refused: the turn is given up.
pub fn print_character(
    store: &mut Recorded<Store>,
    text: &mut Vec<u8>,
    start: usize,
    loaded: &Loaded,
    here: Next,
    after: u32,
    character: u16,
) -> Result<Next, End>
    requires sound { IsSound store.old.store }
    requires text { HasBegun start text.old.items }
    ensures told { ToldFrom start result store.old text.old.items store.new text.new.items
        (by_alphabets loaded.now.own_alphabets (profile.print_character here after character)
        (definitions.print_any_character loaded.now here after character)) }
    ensures text { Grew start text.old.items text.new.items }
{
    if loaded.has_own_alphabets() {
        return print_any_character(store, text, start, loaded, here, after, character);
    }
    let done = known::print_character(store, text, start, here, after, character);
    if !is_refused(&done) {
        return done;
    }
    print_any_character(store, text, start, loaded, here, after, character)
}

/// Prints the text at an address: `print_addr`.
///
/// # Errors
///
/// M3 where the text runs past the end, M10 where it has an abbreviation within another, the limit
/// of text. `End::Memory` where memory was refused: the turn is given up.
pub fn print_address(
    store: &mut Recorded<Store>,
    text: &mut Vec<u8>,
    start: usize,
    loaded: &Loaded,
    here: Next,
    after: u32,
    address: u32,
) -> Result<Next, End>
    requires sound { IsSound store.old.store }
    requires text { HasBegun start text.old.items }
    ensures told { ToldFrom start result store.old text.old.items store.new text.new.items
        (by_alphabets loaded.now.own_alphabets (profile.print_address here after address)
        (definitions.print_any_address loaded.now here after address)) }
    ensures text { Grew start text.old.items text.new.items }
{
    if loaded.has_own_alphabets() {
        return print_any_address(store, text, start, loaded, here, after, address);
    }
    let done = known::print_address(store, text, start, here, after, address);
    if !is_refused(&done) {
        return done;
    }
    print_any_address(store, text, start, loaded, here, after, address)
}

/// Prints the text that follows the opcode, and goes on after it: `print`.
///
/// # Errors
///
/// M3 where the text runs past the end, M10 where it has an abbreviation within another, the limit
/// of text. `End::Memory` where memory was refused: the turn is given up.
pub fn print_inline(
    store: &mut Recorded<Store>,
    text: &mut Vec<u8>,
    start: usize,
    loaded: &Loaded,
    here: Next,
    after: u32,
) -> Result<Next, End>
    requires sound { IsSound store.old.store }
    requires text { HasBegun start text.old.items }
    ensures told { ToldFrom start result store.old text.old.items store.new text.new.items
        (by_alphabets loaded.now.own_alphabets (profile.print_inline here after)
        (definitions.print_any_inline loaded.now here after)) }
    ensures text { Grew start text.old.items text.new.items }
{
    if loaded.has_own_alphabets() {
        return print_any_inline(store, text, start, loaded, here, after);
    }
    let done = known::print_inline(store, text, start, here, after);
    if !is_refused(&done) {
        return done;
    }
    print_any_inline(store, text, start, loaded, here, after)
}

/// Prints the text that follows the opcode and a new line, and returns 1: `print_ret`.
///
/// # Errors
///
/// M3 where the text runs past the end, M10 where it has an abbreviation within another, then the
/// faults of a return, the limit of text. `End::Memory` where memory was refused: the turn is given
/// up.
pub fn print_return(
    header: &Header,
    store: &mut Recorded<Store>,
    text: &mut Vec<u8>,
    start: usize,
    loaded: &Loaded,
    here: Next,
    after: u32,
) -> Result<Next, End>
    requires store { IsStoreOf header.now store.old.store }
    requires text { HasBegun start text.old.items }
    ensures told { ToldFrom start result store.old text.old.items store.new text.new.items
        (by_alphabets loaded.now.own_alphabets (profile.print_return here after)
        (definitions.print_any_return loaded.now here after)) }
    ensures text { Grew start text.old.items text.new.items }
{
    if loaded.has_own_alphabets() {
        return print_any_return(header, store, text, start, loaded, here, after);
    }
    let done = known::print_return(header, store, text, start, here, after);
    if !is_refused(&done) {
        return done;
    }
    print_any_return(header, store, text, start, loaded, here, after)
}

/// Prints the short name of an object: `print_obj`.
///
/// # Errors
///
/// M8 where it is no object, M3 where its property table cannot be read or the text runs past the
/// end, M10 where it has an abbreviation within another, the limit of text. `End::Memory` where
/// memory was refused: the turn is given up.
pub fn print_object(
    header: &Header,
    store: &mut Recorded<Store>,
    text: &mut Vec<u8>,
    start: usize,
    loaded: &Loaded,
    here: Next,
    after: u32,
    object: u16,
) -> Result<Next, End>
    requires store { IsStoreOf header.now store.old.store }
    requires text { HasBegun start text.old.items }
    ensures told { ToldFrom start result store.old text.old.items store.new text.new.items
        (by_alphabets loaded.now.own_alphabets (print_object here after object)
        (definitions.print_any_object loaded.now here after object)) }
    ensures text { Grew start text.old.items text.new.items }
{
    if loaded.has_own_alphabets() {
        return print_any_object(header, store, text, start, loaded, here, after, object);
    }
    let done = objects::print_object(header, store, text, start, here, after, object);
    if !is_refused(&done) {
        return done;
    }
    print_any_object(header, store, text, start, loaded, here, after, object)
}

/// Prints the text at a packed address: `print_paddr`.
///
/// # Errors
///
/// M3 where the text runs past the end, M10 where it has an abbreviation within another, the limit
/// of text. `End::Memory` where memory was refused: the turn is given up.
pub fn print_packed(
    header: &Header,
    store: &mut Recorded<Store>,
    text: &mut Vec<u8>,
    start: usize,
    loaded: &Loaded,
    here: Next,
    after: u32,
    packed: u16,
) -> Result<Next, End>
    requires store { IsStoreOf header.now store.old.store }
    requires text { HasBegun start text.old.items }
    ensures told { ToldFrom start result store.old text.old.items store.new text.new.items
        (by_alphabets loaded.now.own_alphabets (profile.print_packed here after packed)
        (definitions.print_any_packed loaded.now here after packed)) }
    ensures text { Grew start text.old.items text.new.items }
{
    let address = unpacked(header, packed);
    print_address(store, text, start, loaded, here, after, address)
}
