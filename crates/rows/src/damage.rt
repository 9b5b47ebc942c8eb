//! Stories of which a byte is changed.

use crate::names::{RowError, Setting, Shown};
use crate::sessions::put_session;
use crate::stories::{mend_sum, put_at};

/// Plays a story with each byte made 0, 255 and one greater, with its sum as it is and mended. Adds
/// how many stories these were, and each that ended with another status than 0, 1, 3 and 4.
pub fn put_damaged(shown: &mut Shown, setting: &Setting, story: &[u8]) -> Result<(), RowError> {
    let mut count = 0u64;
    for place in 0..story.len() {
        for value in [0, 255, story[place].wrapping_add(1)] {
            for mends in [false, true] {
                put_changed(shown, setting, story, place, value, mends)?;
                count = count.wrapping_add(1);
            }
        }
    }
    shown.display(&count);
    shown.text(" stories\n");
    Ok(())
}

/// Plays a story with a byte changed and, where that is asked, its sum mended. Adds its status where
/// that is none of the player's for a story.
fn put_changed(
    shown: &mut Shown,
    setting: &Setting,
    story: &[u8],
    place: usize,
    value: u8,
    mends: bool,
) -> Result<(), RowError> {
    let mut changed = story.to_vec(setting.alloc)?;
    put_at(&mut changed, place, &[value])?;
    if mends {
        mend_sum(&mut changed)?;
    }
    let mut unseen = Shown::new(setting.alloc);
    let mut number = 0u64;
    let end = put_session(&mut unseen, setting, &changed, &[], &mut number)?;
    if !matches!(end, 0 | 1 | 3 | 4) {
        shown.text("byte ");
        shown.display(&place);
        shown.text(", value ");
        shown.display(&value);
        shown.text(": status ");
        shown.display_line(&end);
    }
    Ok(())
}
