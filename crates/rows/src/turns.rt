//! Turns that the machine's own calls play: what they leave in memory, and their records.

ghost use Rattle.std.specs.Prelude.{◌≡◌};
ghost use Rattle.zcore.specs.declared.place.Place.TheVariants as places;
ghost use Rattle.machine_frames.specs.Playing.{IsWaiting};
ghost use Rattle.machine_frames.specs.States.{IsStoreOf};

use crate::names::{
    Machine, Place, Recorded, RowError, Setting, Shown, Store, number_in, swap_back, written_bytes,
};

/// Plays a story's opening by the machine's own calls, and adds what `memory` or `record` asks with a
/// text. No other function holds the machine's store, so that its end is proved once.
pub fn put_by_hand(
    shown: &mut Shown,
    setting: &Setting,
    story: &[u8],
    word: &str,
    text: &str,
) -> Result<(), RowError> {
    match Machine::load(setting.alloc, story.to_vec(setting.alloc)?) {
        Ok((machine, store)) => {
            let mut store = Recorded::new(setting.alloc, store);
            let mut told = Vec::new(setting.alloc);
            match machine.turn(None, setting.fuel, &mut store, &mut told) {
                Ok(_) if word == "memory" => put_memory(shown, &mut store, story, text),
                Ok(place) => put_record(shown, setting, &mut store, &machine, place, text),
                Err(_) => Err(RowError::Memory),
            }
        }
        Err(_) => Err(RowError::Story),
    }
}

/// Adds the bytes that a text names, and whether memory is the story when the turn is taken back.
fn put_memory(
    shown: &mut Shown,
    store: &mut Recorded<Store>,
    story: &[u8],
    text: &str,
) -> Result<(), RowError> {
    let (first, count) = text.split_once(' ').ok_or(RowError::Number)?;
    let (first, count) = (number_in(first)?, number_in(count)?);
    let memory = store.store().memory();
    let (_, rest) = memory.split_at_checked(first).ok_or(RowError::Number)?;
    let (part, _) = rest.split_at_checked(count).ok_or(RowError::Number)?;
    shown.hexadecimal_line(part);
    let mut record = store.close();
    swap_back(store.store_mut(), &mut record);
    shown.text(if store.store().memory() == story {
        "taken back: as before\n"
    } else {
        "taken back: otherwise\n"
    });
    Ok(())
}

/// Plays the turn of a written line after the opening, and adds how many cells its record holds.
fn put_record(
    shown: &mut Shown,
    setting: &Setting,
    store: &mut Recorded<Store>,
    machine: &Machine,
    place: Place,
    text: &str,
) -> Result<(), RowError>
    requires store { IsStoreOf machine.now.header store.old.store }
    requires waits { place ≡ places.Waiting → IsWaiting store.old.store }
{
    let Place::Waiting = place else {
        return Err(RowError::Story);
    };
    store.close();
    let line = written_bytes(setting.alloc, text)?;
    let mut told = Vec::new(setting.alloc);
    match machine.turn(Some(line.as_slice()), setting.fuel, store, &mut told) {
        Ok(_) => {
            shown.text("closed by hand: ");
            shown.display(&store.close().cells());
            shown.text(" cells; ");
            Ok(())
        }
        Err(_) => Err(RowError::Memory),
    }
}
