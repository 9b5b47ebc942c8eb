//! Cells whose writes are recorded.

ghost use Rattle.std.specs.Prelude.{◌≡◌, ◌≤◌, ℕ, List, [], length, nat_lt, if◌then◌else◌};

use crate::names::{
    Call, Cells, PAGE, Recorded, RowError, Shown, WORD_PAGES, number_in, parted, swap_back,
    swap_forward, written_bytes,
};
use std::alloc::{AllocError, Global};
use std::marker::Model;

/// A store has more cells than are shown where it has more than so many.
const SHOWN: usize = 8;

/// How many cells may hold words.
const MOST: usize = WORD_PAGES * PAGE;

/// Words in memory.
#[derive(Drop)]
pub struct Words {
    /// No more than may hold words.
    values: Vec<u16>,
}

impl Model for Words {
    ghost use Rattle.std.specs.Prelude.{◌≤◌, List, ℕ, length};

    ghost Value = { List ℕ };

    ghost view = { λ s. s.values.items };

    ghost invariant = { λ s. length s.values.items ≤ 72576 };
}

impl Cells for Words {
    ghost cells = { λ s. s };

    ghost bounds = { λ _ i. if nat_lt i 72576 then 65535 else 255 };

    ghost fixed = { λ _. [] };

    fn len(&self) -> usize {
        self.values.len()
    }

    fn bound(&self, i: usize) -> u16 {
        if i < MOST { u16::MAX } else { 255 }
    }

    fn get(&self, i: usize) -> u16 {
        self.values[i]
    }

    fn put(&mut self, i: usize, v: u16) {
        self.values[i] = v;
    }

    fn exchange_bytes(&mut self, _page: usize, _values: &mut [u8]) {
        // So few cells have no page of bytes: there is no value to exchange.
        let _len = self.values.len();
    }

    fn exchange_words(&mut self, page: usize, values: &mut [u16]) {
        let at = page * PAGE;
        self.values[at..at + values.len()].swap_with_slice(values);
    }
}

/// Records what steps do with the words of a text, and adds what comes of it. `number` becomes that
/// of the latest step.
pub fn put_recorded(
    shown: &mut Shown,
    alloc: Global,
    text: &str,
    steps: &[Call],
    number: &mut u64,
) -> Result<(), RowError> {
    let mut turn = Recorded::new(alloc, words_in(alloc, text)?);
    put_steps(shown, &mut turn, steps, number)
}

/// Takes steps with words, and adds what comes of it. `number` becomes that of the latest.
fn put_steps(
    shown: &mut Shown,
    turn: &mut Recorded<Words>,
    steps: &[Call],
    number: &mut u64,
) -> Result<(), RowError> {
    for step in steps {
        *number = step.number;
        let (word, text) = parted(step.line.as_str());
        match word {
            "write" => write(turn, text)?,
            "close" => put_closed(shown, turn),
            "abandon" => {
                turn.abandon();
                put_values(shown, "abandoned: ", turn.store());
                shown.text("\n");
            }
            _ => return Err(RowError::Word),
        }
    }
    Ok(())
}

/// The words that a text writes.
fn words_in(alloc: Global, text: &str) -> Result<Words, RowError> {
    let written = written_bytes(alloc, text)?;
    let values = values_in(alloc, &written)?;
    if values.len() > MOST {
        return Err(RowError::Number);
    }
    Ok(Words { values })
}

/// The numbers that bytes write, with spaces between them.
fn values_in(alloc: Global, written: &[u8]) -> Result<Vec<u16>, AllocError> {
    let mut values = Vec::new(alloc);
    let mut value = 0u16;
    for byte in written {
        if *byte == b' ' {
            values.push(value)?;
            value = 0;
        } else {
            value = value.wrapping_mul(10).wrapping_add(u16::from(*byte & 15));
        }
    }
    values.push(value)?;
    Ok(values)
}

/// Writes a value into a cell, which a text names.
fn write(turn: &mut Recorded<Words>, text: &str) -> Result<(), RowError> {
    let (cell, value) = text.split_once(' ').ok_or(RowError::Number)?;
    let cell = number_in(cell)?;
    let value = u16::try_from(number_in(value)?).ok();
    let value = value.ok_or(RowError::Number)?;
    let store = turn.store();
    if cell >= store.len() || value > store.bound(cell) {
        return Err(RowError::Number);
    }
    turn.put(cell, value).ok().ok_or(RowError::Memory)
}

/// Ends the turn, and adds its record's size and the cells; then with it taken back and done again.
fn put_closed(shown: &mut Shown, turn: &mut Recorded<Words>) {
    let mut record = turn.close();
    shown.display(&record.cells());
    shown.text(" cells");
    put_values(shown, ": ", turn.store());
    swap_back(turn.store_mut(), &mut record);
    put_values(shown, "; back: ", turn.store());
    swap_forward(turn.store_mut(), &mut record);
    put_values(shown, "; forward: ", turn.store());
    shown.text("\n");
}

/// Adds what the cells hold, where they are few.
fn put_values(shown: &mut Shown, front: &str, words: &Words) {
    if words.values.len() > SHOWN {
        return;
    }
    let mut front = front;
    for value in words.values.iter() {
        shown.text(front);
        shown.display(value);
        front = " ";
    }
}
