//! Texts in Z-characters.

use crate::names::{
    RowError, Shown, decode_text, encode_text, encode_with, small, word_key, written_bytes,
};
use std::alloc::Global;

/// Adds the Z-text of a written text, or the fault.
pub fn put_encoded(shown: &mut Shown, alloc: Global, text: &str) -> Result<(), RowError> {
    let characters = written_bytes(alloc, text)?;
    match encode_text(alloc, &characters) {
        Ok(bytes) => shown.hexadecimal_line(&bytes),
        Err(fault) => shown.display_line(&fault),
    }
    Ok(())
}

/// Adds the Z-text of a written text that uses the abbreviation before it and a `/`, or the fault.
pub fn put_shortened(shown: &mut Shown, alloc: Global, text: &str) -> Result<(), RowError> {
    let (abbreviation, text) = text.split_once('/').ok_or(RowError::Word)?;
    let abbreviation = written_bytes(alloc, abbreviation)?;
    if abbreviation.is_empty() {
        return Err(RowError::Word);
    }
    let characters = written_bytes(alloc, text)?;
    match encode_with(alloc, &characters, &[abbreviation.as_slice()]) {
        Ok(bytes) => shown.hexadecimal_line(&bytes),
        Err(fault) => shown.display_line(&fault),
    }
    Ok(())
}

/// Adds the text at the address that is named and the address after it, or the fault.
pub fn put_decoded(
    shown: &mut Shown,
    alloc: Global,
    story: &[u8],
    address: &str,
) -> Result<(), RowError> {
    match decode_text(alloc, story, small(address)?) {
        Ok((text, after)) => {
            shown.lines(&text);
            shown.text("up to ");
            shown.display_line(&after);
        }
        Err(fault) => shown.display_line(&fault),
    }
    Ok(())
}

/// Adds the key of a written word.
pub fn put_key(shown: &mut Shown, alloc: Global, word: &str) -> Result<(), RowError> {
    let letters = written_bytes(alloc, word)?;
    shown.hexadecimal_line(&word_key(&letters));
    Ok(())
}
