//! Which edition of which version a story is.

ghost use Rattle.std.specs.Prelude.{IfSome, IfNone};
ghost use Rattle.survey.specs.Editions.{HasEdition, IsEditionOf};

use crate::facts::{RELEASE_WORD, serial_of};
use zcore::layout::{HEADER_LENGTH, SUM_WORD};
use ztext::read_word;

/// The last version of story files.
const LAST_VERSION: u8 = 8;

/// What the header of a story of any version says of its edition (Z-Machine Standards Document 1.1,
/// section 11.1).
#[derive(Clone, Copy)]
pub struct Edition {
    /// Byte $00, from 1 to 8.
    pub version: u8,

    /// Word $02: the release number.
    pub release: u16,

    /// The six bytes from $12 on: the serial number.
    pub serial: [u8; 6],

    /// Word $1C: the stated sum.
    pub sum: u16,
}

impl Edition {
    /// The edition of a file, where it has the header of a story.
    pub fn read(file: &[u8]) -> Option<Edition>
        ensures edition { IfSome result (IsEditionOf file.now) }
        ensures none { IfNone result (¬ HasEdition file.now) }
    {
        if file.len() < HEADER_LENGTH || file[0] < 1 || LAST_VERSION < file[0] {
            return None;
        }
        Some(Edition {
            version: file[0],
            release: read_word(file, RELEASE_WORD),
            serial: serial_of(file),
            sum: read_word(file, SUM_WORD),
        })
    }
}
