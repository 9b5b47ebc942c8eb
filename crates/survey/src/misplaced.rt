//! Which address of a header is wrong.

ghost use Rattle.std.specs.Prelude.{◌≡◌, ◌≤◌, ◌↔◌, IfSome, IsTrue};
ghost use Rattle.zcore.specs.Header.{HasHeader, IsWithin, abbreviations_of};
ghost use Rattle.survey.specs.Misplaced.{abbreviations_place, first_in, first_misplaced, lies, place_of};

use std::fmt;
use zcore::layout::{
    ABBREVIATIONS_WORD, DEFAULTS_LENGTH, DEFAULTS_WORD, DICTIONARY_WORD, FIRST_INSTRUCTION_WORD,
    GLOBAL_COUNT, GLOBALS_WORD, HEADER_LENGTH, HIGH_MEMORY_WORD, READABLE, STATIC_BASE_WORD,
};
use ztext::{MOST_ABBREVIATIONS, read_word};

/// What an address of the header names.
#[derive(Clone, Copy)]
pub enum Table {
    /// Where static memory begins.
    StaticBase,

    /// The globals.
    Globals,

    /// The property defaults, with which the object table begins.
    Objects,

    /// The table of abbreviations.
    Abbreviations,

    /// Where high memory begins.
    HighMemory,

    /// Where the story begins.
    FirstInstruction,

    /// The dictionary.
    Dictionary,
}

/// An address of the header that lies outside the memory where it has to lie (Z-Machine Standards
/// Document 1.1, section 1.1). `Display` writes it with its figures.
#[derive(Clone, Copy)]
pub struct Misplaced {
    /// What it names.
    pub table: Table,

    /// The address.
    pub address: u16,

    /// How many bytes stand there at least.
    pub bytes: usize,

    /// Where they may begin.
    pub start: usize,

    /// Where they must end.
    pub end: usize,
}

impl fmt::Display for Table {
    fn fmt<W: fmt::Write>(&self, f: &mut fmt::Formatter<W>) -> fmt::Result {
        f.write_str(match self {
            Table::StaticBase => "static base",
            Table::Globals => "globals",
            Table::Objects => "object table",
            Table::Abbreviations => "abbreviations",
            Table::HighMemory => "high memory",
            Table::FirstInstruction => "first instruction",
            Table::Dictionary => "dictionary",
        })
    }
}

impl fmt::Display for Misplaced {
    fn fmt<W: fmt::Write>(&self, f: &mut fmt::Formatter<W>) -> fmt::Result {
        let table = self.table;
        let address = self.address;
        let bytes = self.bytes;
        let start = self.start;
        let end = self.end;
        write!(f, "{table} at {address:04X}, of at least {bytes} bytes: ")?;
        write!(f, "it has to lie from {start:04X} to {end:04X}")
    }
}

/// What the header names, in the order in which it is tested.
const TABLES: [Table; 7] = [
    Table::StaticBase,
    Table::Globals,
    Table::Objects,
    Table::Abbreviations,
    Table::HighMemory,
    Table::FirstInstruction,
    Table::Dictionary,
];

/// The first address of the header of a file that is misplaced, in the order in which a header is
/// tested; none where there is no header.
pub fn first_misplaced(file: &[u8]) -> Option<Misplaced>
    ensures first { result ≡ first_misplaced file.now }
    ensures misplaced { IfSome result (λ m. ¬ IsWithin m.start m.end m.address m.bytes) }
{
    if file.len() < HEADER_LENGTH {
        None
    } else {
        find_in(file, &TABLES)
    }
}

/// The first of several tables that is misplaced.
fn find_in(story: &[u8], tables: &[Table]) -> Option<Misplaced>
    requires { HasHeader story.now }
    ensures first { result ≡ first_in story.now tables.now }
    ensures misplaced { IfSome result (λ m. ¬ IsWithin m.start m.end m.address m.bytes) }
{
    let Some((table, others)) = tables.split_first() else {
        return None;
    };
    let place = place_of(story, *table);
    if lies(&place) {
        find_in(story, others)
    } else {
        Some(place)
    }
}

/// Where a table lies, and where it has to lie.
fn place_of(story: &[u8], table: Table) -> Misplaced
    requires { HasHeader story.now }
    ensures place { result ≡ place_of story.now table }
    ensures few { result.bytes ≤ 480 }
{
    let base = usize::from(read_word(story, STATIC_BASE_WORD));
    let length = story.len();
    let readable = length.min(READABLE);
    let (word, bytes, start, end) = match table {
        Table::StaticBase => (STATIC_BASE_WORD, 0, HEADER_LENGTH, length),
        Table::Globals => (GLOBALS_WORD, 2 * GLOBAL_COUNT, HEADER_LENGTH, base),
        Table::Objects => (DEFAULTS_WORD, DEFAULTS_LENGTH, HEADER_LENGTH, base),
        Table::Abbreviations => return abbreviations(story),
        Table::HighMemory => (HIGH_MEMORY_WORD, 0, base, length),
        Table::FirstInstruction => (FIRST_INSTRUCTION_WORD, 1, HEADER_LENGTH, length),
        Table::Dictionary => (DICTIONARY_WORD, 1, base, readable),
    };
    Misplaced {
        table,
        address: read_word(story, word),
        bytes,
        start,
        end,
    }
}

/// The table of abbreviations. Address 0 stands for none, which lies anywhere.
fn abbreviations(story: &[u8]) -> Misplaced
    requires { HasHeader story.now }
    ensures place { result ≡ abbreviations_place story.now (abbreviations_of story.now) }
    ensures few { result.bytes ≤ 480 }
{
    let address = read_word(story, ABBREVIATIONS_WORD);
    let (bytes, start) = if address == 0 {
        (0, 0)
    } else {
        (2 * MOST_ABBREVIATIONS, HEADER_LENGTH)
    };
    Misplaced {
        table: Table::Abbreviations,
        address,
        bytes,
        start,
        end: story.len().min(READABLE),
    }
}

/// Whether a table lies where it has to lie.
fn lies(place: &Misplaced) -> bool
    requires { place.now.bytes ≤ 480 }
    ensures value { result ≡ lies place.now }
    ensures within { IsTrue result ↔ IsWithin place.now.start place.now.end place.now.address place.now.bytes }
{
    let address = usize::from(place.address);
    place.start <= address && address + place.bytes <= place.end
}
