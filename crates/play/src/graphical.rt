//! Stories of the version whose games draw pictures.

use survey::Mode;
use zcore::layout::HEADER_LENGTH;

/// Byte $00 of a story of version 6 (Z-Machine Standards Document 1.1, section 11.1).
const GRAPHICAL: u8 = 6;

/// Why a story with a header is refused with `--standard`, if it is of version 6.
pub fn refused_as_graphical(story: &[u8], mode: Mode) -> Option<&'static str> {
    match mode {
        Mode::Standard if HEADER_LENGTH <= story.len() && story[0] == GRAPHICAL => {
            Some("Z5: version 6, the graphical one, is not played")
        }
        _ => None,
    }
}
