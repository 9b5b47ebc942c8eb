//! The tables of a version.

ghost use Rattle.std.specs.Prelude.{◌+◌, ◌≤◌};

use zcore::layout::{DEFAULTS_LENGTH, OBJECT_ENTRY_LENGTH};
use ztext::MOST_ABBREVIATIONS;

/// The sizes of an object table, in bytes.
#[derive(Clone, Copy)]
pub struct ObjectTable {
    /// The defaults of properties.
    pub defaults: usize,

    /// An object's entry.
    pub entry: usize,

    /// What comes before the address of its properties there.
    pub properties: usize,
}

/// Up to version 3 (Z-Machine Standards Document 1.1, section 12.3.1).
const SMALL: ObjectTable = ObjectTable {
    defaults: 62,
    entry: 9,
    properties: 7,
};

/// From version 4 on (section 12.3.2).
const LARGE: ObjectTable = ObjectTable {
    defaults: DEFAULTS_LENGTH,
    entry: OBJECT_ENTRY_LENGTH,
    properties: 12,
};

/// The sizes of a version's object table.
pub fn object_table(version: u8) -> ObjectTable
    ensures inside { result.properties + 2 ≤ result.entry }
    ensures entry { result.entry ≤ 14 }
    ensures defaults { result.defaults ≤ 126 }
{
    if version <= 3 { SMALL } else { LARGE }
}

/// How many abbreviations a version has at most (section 3.3).
pub fn most_abbreviations(version: u8) -> usize
    ensures { result ≤ 96 }
{
    match version {
        0 | 1 => 0,
        2 => 32,
        _ => MOST_ABBREVIATIONS,
    }
}
