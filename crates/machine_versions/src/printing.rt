//! Opcodes that print texts of a version (Z-Machine Standards Document 1.1, sections 1.2.3, 12.3.1 and
//! 15).

ghost use Rattle.std.specs.Prelude.{◌≤◌};
ghost use Rattle.zcore.specs.Layout.{longest_story};
ghost use Rattle.machine_frames.specs.States.{IsSound, IsStoreOf};
ghost use Rattle.machine_opcodes.specs.Printed.{HasBegun, Grew, ToldFrom};
ghost use Rattle.zcore_versions.specs.Printing as printing;
ghost use Rattle.zcore_versions.specs.SmallObjects as definitions;
ghost use Rattle.zcore_versions.specs.Versions.{text_at, versioned};

use crate::links::test_object;
use crate::properties::table_of;
use journal::Recorded;
use machine_frames::{End, Store, read_byte};
use machine_locked_texts::print_address;
use machine_standard_texts::print_any_address;
use zcore::{Header, Next};
use zcore_standard::Loaded;
use zcore_versions::StoryVersion;

/// Prints the text at an address, and goes on. In versions 1 and 2 it can lock an alphabet.
fn print_text(
    store: &mut Recorded<Store>,
    text: &mut Vec<u8>,
    start: usize,
    loaded: &Loaded,
    version: StoryVersion,
    here: Next,
    after: u32,
    address: u32,
) -> Result<Next, End>
    requires sound { IsSound store.old.store }
    requires text { HasBegun start text.old.items }
    ensures told { ToldFrom start result store.old text.old.items store.new text.new.items
        (printing.print_text (versioned loaded.now version) here after address) }
    ensures text { Grew start text.old.items text.new.items }
{
    if version.locks_alphabets() {
        return print_address(store, text, start, loaded, version, here, after, address);
    }
    print_any_address(store, text, start, loaded, here, after, address)
}

/// Prints the text at a packed address: `print_paddr`.
///
/// # Errors
///
/// M3 where the text passes the memory that can be read, M10 where an abbreviation is in another or
/// there are none, the limit of text. `End::Memory` where memory was refused: the turn is given up.
pub fn print_packed(
    store: &mut Recorded<Store>,
    text: &mut Vec<u8>,
    start: usize,
    loaded: &Loaded,
    version: StoryVersion,
    here: Next,
    after: u32,
    packed: u16,
) -> Result<Next, End>
    requires sound { IsSound store.old.store }
    requires text { HasBegun start text.old.items }
    requires offset { version.text_offset ≤ longest_story }
    ensures told { ToldFrom start result store.old text.old.items store.new text.new.items
        (printing.print_text (versioned loaded.now version) here after (text_at version packed)) }
    ensures text { Grew start text.old.items text.new.items }
{
    let address = version.scale() * packed as u32 + version.text_offset;
    print_text(store, text, start, loaded, version, here, after, address)
}

/// Prints the short name of an object with a small entry: `print_obj`. Nothing is printed where the
/// name's length is 0.
///
/// # Errors
///
/// M8 where it is no object, M3 where its property table cannot be read, then those of its name.
/// `End::Memory` where memory was refused: the turn is given up.
pub fn print_object(
    header: &Header,
    store: &mut Recorded<Store>,
    text: &mut Vec<u8>,
    start: usize,
    loaded: &Loaded,
    version: StoryVersion,
    here: Next,
    after: u32,
    object: u16,
) -> Result<Next, End>
    requires store { IsStoreOf header.now store.old.store }
    requires text { HasBegun start text.old.items }
    ensures told { ToldFrom start result store.old text.old.items store.new text.new.items
        (definitions.print_object (versioned loaded.now version) here after object) }
    ensures text { Grew start text.old.items text.new.items }
{
    test_object(header, store, object)?;
    let table = table_of(header, store, object)?;
    let words = read_byte(store, table as usize)?;
    if words == 0 {
        return Ok(Next {
            program_counter: after,
            fuel: here.fuel,
        });
    }
    let name = table as u32 + 1;
    print_text(store, text, start, loaded, version, here, after, name)
}
