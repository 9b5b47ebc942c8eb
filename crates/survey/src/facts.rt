//! What the header of a file says.

ghost use Rattle.std.specs.Prelude.{◌≡◌, ◌%◌, ◌≤◌, IfSome, IfNone, true, length, take, drop, sum};
ghost use Rattle.zcore.specs.Header.{HasHeader};
ghost use Rattle.zcore.specs.Layout.{header_size};
ghost use Rattle.zcore_standard.specs.Extension.{number_of};
ghost use Rattle.zcore_standard_loading.specs.Loading as loading;
ghost use Rattle.survey.specs.Facts.{IsFactsOf};

use std::fmt;
use zcore::layout::{
    ABBREVIATIONS_WORD, DEFAULTS_WORD, DICTIONARY_WORD, FIRST_INSTRUCTION_WORD, GLOBALS_WORD,
    HEADER_LENGTH, HIGH_MEMORY_WORD, LENGTH_WORD, STATIC_BASE_WORD, SUM_WORD,
};
use zcore_standard_loading::{is_played, length_unit};
use ztext::read_word;

/// Where the release number stands (Z-Machine Standards Document 1.1, section 11.1).
pub(crate) const RELEASE_WORD: usize = 0x02;

/// Where the six bytes of the serial number begin.
const SERIAL: usize = 0x12;

/// What the header of a file of version 1 to 5, 7 or 8 says, whether or not it is so (section 11.1).
/// `Display` writes a line for each.
#[derive(Clone, Copy)]
pub struct Facts {
    /// Byte $00.
    pub version: u8,

    /// Word $1A times the version's unit: how many bytes the story has.
    pub stated_length: usize,

    /// Word $1C: the sum of the bytes after the header, modulo 65,536.
    pub stated_sum: u16,

    /// That sum as it is.
    pub sum: u16,

    /// Word $02: the release number.
    pub release: u16,

    /// The six bytes from $12 on, which most compilers fill with a date.
    pub serial: [u8; 6],

    /// Word $04: where high memory begins.
    pub high_memory: u16,

    /// Word $06: where the story begins.
    pub first_instruction: u16,

    /// Word $08: the dictionary.
    pub dictionary: u16,

    /// Word $0A: the object table.
    pub objects: u16,

    /// Word $0C: the globals.
    pub globals: u16,

    /// Word $0E: where static memory begins.
    pub static_base: u16,

    /// Word $18: the table of abbreviations, or 0.
    pub abbreviations: u16,
}

/// The bytes of a serial number. `Display` writes a full stop for each that does not print.
#[derive(Clone, Copy)]
pub struct Serial(pub [u8; 6]);

impl fmt::Display for Serial {
    fn fmt<W: fmt::Write>(&self, f: &mut fmt::Formatter<W>) -> fmt::Result {
        for byte in &self.0 {
            let sign = match byte {
                b' '..=b'~' => char::from(*byte),
                _ => '.',
            };
            f.write_char(sign)?;
        }
        Ok(())
    }
}

impl fmt::Display for Facts {
    fn fmt<W: fmt::Write>(&self, f: &mut fmt::Formatter<W>) -> fmt::Result {
        write_edition(f, self)?;
        let sum = self.sum;
        let stated = self.stated_sum;
        writeln!(f, "sum {sum:04X}, stated {stated:04X}")?;
        write_places(f, self)
    }
}

/// Writes the lines of the version, and of the release with the serial number.
fn write_edition<W: fmt::Write>(f: &mut fmt::Formatter<W>, facts: &Facts) -> fmt::Result {
    let version = facts.version;
    let release = facts.release;
    let serial = Serial(facts.serial);
    writeln!(f, "version {version}")?;
    writeln!(f, "release {release}, serial number {serial}")
}

/// Writes a line for each address of the header.
fn write_places<W: fmt::Write>(f: &mut fmt::Formatter<W>, facts: &Facts) -> fmt::Result {
    let places = [
        ("high memory", facts.high_memory),
        ("first instruction", facts.first_instruction),
        ("dictionary", facts.dictionary),
        ("object table", facts.objects),
        ("globals", facts.globals),
        ("static base", facts.static_base),
        ("abbreviations", facts.abbreviations),
    ];
    for place in &places {
        let (what, address) = *place;
        writeln!(f, "{what} at {address:04X}")?;
    }
    Ok(())
}

impl Facts {
    /// What the header of a file says, where the file has one of version 1 to 5, 7 or 8.
    pub fn read(story: &[u8]) -> Option<Facts>
        ensures facts { IfSome result (IsFactsOf story.now) }
        ensures none { IfNone result
            (¬ (HasHeader story.now × (loading.is_played (number_of story.now) ≡ true))) }
    {
        if story.len() < HEADER_LENGTH || !is_played(story[0]) {
            return None;
        }
        Some(Facts {
            version: story[0],
            stated_length: usize::from(read_word(story, LENGTH_WORD)) * length_unit(story[0]),
            stated_sum: read_word(story, SUM_WORD),
            sum: sum_from(story, HEADER_LENGTH),
            release: read_word(story, RELEASE_WORD),
            serial: serial_of(story),
            high_memory: read_word(story, HIGH_MEMORY_WORD),
            first_instruction: read_word(story, FIRST_INSTRUCTION_WORD),
            dictionary: read_word(story, DICTIONARY_WORD),
            objects: read_word(story, DEFAULTS_WORD),
            globals: read_word(story, GLOBALS_WORD),
            static_base: read_word(story, STATIC_BASE_WORD),
            abbreviations: read_word(story, ABBREVIATIONS_WORD),
        })
    }
}

/// The serial number.
pub(crate) fn serial_of(story: &[u8]) -> [u8; 6]
    requires { header_size ≤ length story.now }
    ensures { result ≡ take 6 (drop 0x12 story.now) }
{
    [
        story[SERIAL],
        story[SERIAL + 1],
        story[SERIAL + 2],
        story[SERIAL + 3],
        story[SERIAL + 4],
        story[SERIAL + 5],
    ]
}

/// The sum of the bytes from an address on, modulo 65,536 (section 15, `verify`).
pub(crate) fn sum_from(story: &[u8], from: usize) -> u16
    requires { from ≤ length story.now }
    ensures { result ≡ sum (drop from story.now) % 65536 }
{
    let mut total: u16 = 0;
    for byte in &story[from..] {
        total = total.wrapping_add(u16::from(*byte));
    }
    total
}
