//! Which routine and line a story is in, by the map of its addresses.

use crate::standing::Standing;
use map_text::{MapFault, Row, heading, read_map, row_at};
use session::{Mode, Place, Session};
use session_keeping::{read_whole, refuse};
use std::alloc::Global;
use std::fmt;
use std::process::ExitCode;
use terminal::OneLine;

/// The first byte of the instruction that prints the text at a packed address, `print_paddr` of a
/// large constant (Z-Machine Standards Document 1.1, section 14). Two bytes follow it.
const PRINT_TEXT: u8 = 0x8D;

/// How many bytes that instruction has.
const PRINT_LENGTH: usize = 3;

/// The Z-characters with which the text of a runtime fault begins: a new line and `[Fault: `. Small
/// letters and spaces follow, which are its words, then `]` and a new line.
const FAULT: &[u8] = &[5, 7, 5, 6, 2, 27, 4, 11, 6, 26, 17, 25, 5, 29, 0];

/// The Z-character that is a space (Z-Machine Standards Document 1.1, section 3.5.1).
const SPACE: u8 = 0;

/// The first of the Z-characters that are small letters (section 3.5.3).
const LETTER_A: u8 = 6;

/// The most Z-characters of such a text that are looked at.
const MOST_LOOKED_AT: usize = 80;

/// Byte $00 of a story of version 5.
const VERSION_5: u8 = 5;

/// Where a story stands, and in which routine and line. `Display` writes it in words:
/// `[Fault: index out of range] in Take, line 305`.
#[derive(Drop)]
pub struct Placed<'a> {
    standing: Standing,

    /// The words of the runtime fault that ended the story, if one did.
    fault: Option<Vec<u8>>,

    /// The row of the map to which the instruction belongs.
    row: Option<Row<'a>>,
}

impl<'a> Placed<'a> {
    /// Where the story of a session stands, by the rows of its map.
    pub fn of(alloc: Global, session: &Session, mode: Mode, rows: &[Row<'a>]) -> Placed<'a> {
        let at = session.program_counter();
        let row = row_at(rows, at);
        let fault = match row {
            Some(row) if row.address != at => fault_words(alloc, session),
            _ => None,
        };
        Placed {
            standing: Standing::of(session, mode),
            fault,
            row,
        }
    }
}

impl fmt::Display for Placed<'_> {
    fn fmt<W: fmt::Write>(&self, f: &mut fmt::Formatter<W>) -> fmt::Result {
        match &self.fault {
            Some(words) => {
                f.write_str("[Fault: ")?;
                write_bytes(f, words)?;
                f.write_str("]")?;
            }
            None => {
                let standing = self.standing;
                write!(f, "{standing}")?;
            }
        }
        if let Some(row) = self.row {
            let line = row.line;
            f.write_str(" in ")?;
            write_bytes(f, row.routine)?;
            write!(f, ", line {line}")?;
        }
        Ok(())
    }
}

/// Writes bytes as characters.
fn write_bytes<W: fmt::Write>(f: &mut fmt::Formatter<W>, bytes: &[u8]) -> fmt::Result {
    for byte in bytes {
        f.write_char(*byte as char)?;
    }
    Ok(())
}

/// The words of the runtime fault whose text was printed just before the story quit; `None` if it did
/// not quit by one. A statement `quit` begins a row of the map, so it is not asked about here.
fn fault_words(alloc: Global, session: &Session) -> Option<Vec<u8>> {
    if session.place() != Place::Quit {
        return None;
    }
    let memory = session.memory();
    let address = text_before(memory, session.program_counter() as usize)? as usize;
    if begins_with(memory, address, FAULT) {
        words_after(alloc, memory, address, FAULT.len())
    } else {
        None
    }
}

/// Whether the text at an address begins with these Z-characters.
fn begins_with(memory: &[u8], address: usize, wanted: &[u8]) -> bool {
    for number in 0..wanted.len() {
        match z_character(memory, address, number) {
            Some(found) if found == wanted[number] => {}
            _ => return false,
        }
    }
    true
}

/// The small letters and spaces of the text at an address from a Z-character on. It is read here, and
/// not by `ztext`, whose reader is compiled into the printing of texts while that alone calls it.
fn words_after(alloc: Global, memory: &[u8], address: usize, first: usize) -> Option<Vec<u8>> {
    let mut words = Vec::new(alloc);
    for number in first..MOST_LOOKED_AT {
        let character = z_character(memory, address, number)?;
        let shown = if character == SPACE {
            b' '
        } else if character >= LETTER_A {
            (character - LETTER_A).saturating_add(b'a')
        } else {
            return Some(words);
        };
        if words.push(shown).is_err() {
            return None;
        }
    }
    Some(words)
}

/// A Z-character of the text at an address, by its number: a word has three, each of five bits
/// (section 3.2). `None` after the end of memory.
fn z_character(memory: &[u8], address: usize, number: usize) -> Option<u8> {
    let word = address.saturating_add((number / 3).saturating_mul(2));
    let high = *memory.get(word)?;
    let low = *memory.get(word.saturating_add(1))?;
    Some(match number % 3 {
        0 => high / 4 % 32,
        1 => (high % 4).saturating_mul(8).saturating_add(low / 32),
        _ => low % 32,
    })
}

/// The address of the text that the instruction before an address prints, if it prints one.
fn text_before(memory: &[u8], at: usize) -> Option<u32> {
    let version = *memory.get(0)?;
    let printing = at.checked_sub(PRINT_LENGTH)?;
    let first = *memory.get(printing)?;
    let high = *memory.get(printing.saturating_add(1))?;
    let low = *memory.get(printing.saturating_add(2))?;
    if first != PRINT_TEXT {
        return None;
    }
    let scale = if version == VERSION_5 { 4 } else { 8 };
    Some((u32::from(high) * 256 + u32::from(low)) * scale)
}

/// The text of the map in a file of this name, or else the status with which the program ends, which
/// has said why.
pub fn map_in(rt: &HostRuntime, name: &str) -> Result<Vec<u8>, ExitCode> {
    let shown = OneLine(name);
    match read_whole(rt, name) {
        Ok(Some(text)) => Ok(text),
        Ok(None) => Err(refuse(
            rt,
            format_args!("cannot read {shown}: it is larger than 67,108,864 bytes"),
        )),
        Err(_) => Err(refuse(rt, format_args!("cannot read {shown}"))),
    }
}

/// The rows of the map of a story.
fn read_rows<'a>(alloc: Global, text: &'a [u8], story: &[u8]) -> Result<Vec<Row<'a>>, MapFault> {
    let lines = heading(alloc, story)?;
    read_map(alloc, text, &lines)
}

/// The rows of the map of a story that is in a file of this name, or else the status with which the
/// program ends, which has said why.
pub fn rows_in<'a>(
    rt: &HostRuntime,
    name: &str,
    text: &'a [u8],
    story: &[u8],
) -> Result<Vec<Row<'a>>, ExitCode> {
    match read_rows(rt.alloc(), text, story) {
        Ok(rows) => Ok(rows),
        Err(fault) => Err(refuse(rt, format_args!("cannot use {}: {fault}", OneLine(name)))),
    }
}
