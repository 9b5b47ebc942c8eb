//! The status line (Z-Machine Standards Document 1.1, section 8.2).

ghost use Rattle.std.specs.Prelude.{◌≡◌, ◌≤◌, ◌++◌, [], OnOk};
ghost use Rattle.journal.specs.Recording.{IsNothingKept};
ghost use Rattle.machine_frames.specs.Contents.{memory_of};
ghost use Rattle.machine_frames.specs.States.{state_of, IsStoreOf};
ghost use Rattle.zcore.specs.Arithmetic.{signed_text};
ghost use Rattle.zcore_versions.specs.StatusLine as definitions;
ghost use Rattle.zcore_versions.specs.Versions.{versioned};

use crate::texts::{fill, join_lines, put};
use journal::{NoMemory, Recorded};
use machine_frames::{End, Store, global_address};
use machine_opcodes::signed_digits;
use machine_versions::print_object;
use zcore::{Header, Next};
use zcore_standard::Loaded;
use zcore_versions::StoryVersion;

/// The variable with the number of the object whose name is shown.
const PLACE: u8 = 16;

/// The variable with the score, or the hours.
const SCORE: u8 = 17;

/// The variable with the number of moves, or the minutes.
const MOVES: u8 = 18;

/// Where the score or the time begins, in characters.
const SECOND_COLUMN: usize = 50;

/// Where the number of moves begins.
const THIRD_COLUMN: usize = 66;

/// The version whose Flags 1 tell by bit 1 whether a time is shown.
const WITH_TIME: u8 = 3;

/// Puts the status line of the state between two turns into an empty text. From version 4 on there is
/// none. The store stays as it is.
///
/// # Errors
///
/// Memory was refused.
pub fn put_status_line(
    header: &Header,
    loaded: &Loaded,
    version: StoryVersion,
    store: &mut Recorded<Store>,
    text: &mut Vec<u8>,
) -> Result<(), NoMemory>
    requires store { IsStoreOf header.now store.old.store }
    requires idle { IsNothingKept store.old }
    requires begun { store.old.beginning ≡ store.old.store.cells }
    requires empty { text.old.items ≡ [] }
    ensures line { OnOk result (text.new.items
        ≡ definitions.status_line (versioned loaded.now version) (state_of store.old.store [])) }
    ensures same { store.new ≡ store.old }
{
    if !version.is_small() {
        return Ok(());
    }
    put_place(header, loaded, version, store, text)?;
    if shows_time(header, version, store) {
        put_time(header, store, text)
    } else {
        put_score(header, store, text)
    }
}

/// Puts a space and the name of the place into an empty text, and fills it up to the second column.
fn put_place(
    header: &Header,
    loaded: &Loaded,
    version: StoryVersion,
    store: &mut Recorded<Store>,
    text: &mut Vec<u8>,
) -> Result<(), NoMemory>
    requires store { IsStoreOf header.now store.old.store }
    requires idle { IsNothingKept store.old }
    requires begun { store.old.beginning ≡ store.old.store.cells }
    requires empty { text.old.items ≡ [] }
    ensures place { OnOk result (text.new.items
        ≡ definitions.place_shown (versioned loaded.now version) (state_of store.old.store [])) }
    ensures same { store.new ≡ store.old }
{
    put(text, b" ")?;
    let object = global(header, store, PLACE);
    put_name(header, loaded, version, store, text, object)?;
    fill(text, SECOND_COLUMN)
}

/// Adds an object's short name to a text, on one line. Nothing is added where there is no such object,
/// or its name cannot be read.
fn put_name(
    header: &Header,
    loaded: &Loaded,
    version: StoryVersion,
    store: &mut Recorded<Store>,
    text: &mut Vec<u8>,
    object: u16,
) -> Result<(), NoMemory>
    requires store { IsStoreOf header.now store.old.store }
    requires idle { IsNothingKept store.old }
    requires begun { store.old.beginning ≡ store.old.store.cells }
    ensures name { OnOk result (text.new.items ≡ text.old.items ++ definitions.on_one_line
        (definitions.short_name (versioned loaded.now version) (state_of store.old.store []) object)) }
    ensures same { store.new ≡ store.old }
{
    let start = text.len();
    let nowhere = Next {
        program_counter: 0,
        fuel: 0,
    };
    let printed = print_object(
        header, store, text, start, loaded, version, nowhere, 0, object,
    );
    // what was printed was no part of a turn
    store.abandon();
    match printed {
        Ok(_) => {
            join_lines(text, start);
            Ok(())
        }
        Err(End::Stop(_)) => {
            text.truncate(start);
            Ok(())
        }
        Err(End::Memory) => Err(NoMemory),
    }
}

/// Adds the score and the number of moves.
fn put_score(header: &Header, store: &Recorded<Store>, text: &mut Vec<u8>) -> Result<(), NoMemory>
    requires { IsStoreOf header.now store.now.store }
    ensures { OnOk result (text.new.items
        ≡ definitions.with_score (memory_of store.now.store) text.old.items) }
{
    put(text, b"Score: ")?;
    put_number(text, global(header, store, SCORE))?;
    fill(text, THIRD_COLUMN)?;
    put(text, b"Moves: ")?;
    put_number(text, global(header, store, MOVES))
}

/// Adds the time of day.
fn put_time(header: &Header, store: &Recorded<Store>, text: &mut Vec<u8>) -> Result<(), NoMemory>
    requires { IsStoreOf header.now store.now.store }
    ensures { OnOk result (text.new.items
        ≡ definitions.with_time (memory_of store.now.store) text.old.items) }
{
    put(text, b"Time: ")?;
    put_number(text, global(header, store, SCORE))?;
    put(text, b":")?;
    put_minutes(text, global(header, store, MOVES))
}

/// Adds minutes, in two digits at least.
fn put_minutes(text: &mut Vec<u8>, minutes: u16) -> Result<(), NoMemory>
    ensures { OnOk result (text.new.items ≡ text.old.items ++ definitions.minutes_text minutes) }
{
    if minutes >= 10 {
        return put_number(text, minutes);
    }
    put(text, b"0")?;
    put_number(text, minutes)
}

/// Adds a signed number.
fn put_number(text: &mut Vec<u8>, number: u16) -> Result<(), NoMemory>
    ensures { OnOk result (text.new.items ≡ text.old.items ++ signed_text number) }
{
    let (digits, first) = signed_digits(number);
    put(text, &digits[first..])
}

/// The value of a global, a variable from 16 on.
fn global(header: &Header, store: &Recorded<Store>, variable: u8) -> u16
    requires store { IsStoreOf header.now store.now.store }
    requires variable { 16 ≤ variable }
    ensures { result ≡ definitions.global_in (memory_of store.now.store) variable }
{
    let at = global_address(header, variable);
    let memory = store.store().memory();
    memory[at] as u16 * 256 + memory[at + 1] as u16
}

/// Whether the story shows a time in place of score and moves.
fn shows_time(header: &Header, version: StoryVersion, store: &Recorded<Store>) -> bool
    requires { IsStoreOf header.now store.now.store }
    ensures { result ≡ definitions.shows_time version (memory_of store.now.store) }
{
    version.number == WITH_TIME && store.store().memory()[1] / 2 % 2 == 1
}
