//! Texts of a line that has columns.

ghost use Rattle.std.specs.Prelude.{◌≡◌, ◌≤◌, ◌++◌, length, take, drop, OnOk};
ghost use Rattle.std.specs.List.{count_by};
ghost use Rattle.zcore_standard.specs.Windows.{begins_character};
ghost use Rattle.zcore_versions.specs.StatusLine as definitions;

use journal::NoMemory;

/// Adds bytes to a text.
///
/// # Errors
///
/// Memory was refused.
pub(crate) fn put(text: &mut Vec<u8>, bytes: &[u8]) -> Result<(), NoMemory>
    ensures { OnOk result (text.new.items ≡ text.old.items ++ bytes.now) }
{
    match text.extend_from_slice(bytes) {
        Ok(()) => Ok(()),
        Err(_) => Err(NoMemory),
    }
}

/// Fills a text up with spaces to so many characters; with one space at least.
///
/// # Errors
///
/// Memory was refused.
pub(crate) fn fill(text: &mut Vec<u8>, width: usize) -> Result<(), NoMemory>
    requires { width ≤ 255 }
    ensures { OnOk result (text.new.items ≡ definitions.filled width text.old.items) }
{
    let spaces = spaces_after(text, width);
    match text.resize(text.len() + spaces, b' ') {
        Ok(()) => Ok(()),
        Err(_) => Err(NoMemory),
    }
}

/// How many spaces fill a text up to so many characters; one at least.
fn spaces_after(text: &[u8], width: usize) -> usize
    requires { width ≤ 255 }
    ensures same { result ≡ definitions.spaces_after text.now width }
    ensures few { result ≤ 255 }
{
    let taken = count_characters(text);
    if taken < width { width - taken } else { 1 }
}

/// How many characters a text has.
fn count_characters(text: &[u8]) -> usize
    ensures { result ≡ count_by begins_character text.now }
{
    let mut count = 0;
    for byte in text {
        if begins_character(*byte) {
            count += 1;
        }
    }
    count
}

/// Whether a byte of UTF-8 begins a character.
fn begins_character(byte: u8) -> bool
    ensures { result ≡ begins_character byte }
{
    byte < 0x80 || 0xC0 <= byte
}

/// Makes each new line of a text a space, from a place on.
pub(crate) fn join_lines(text: &mut Vec<u8>, start: usize)
    requires { start ≤ length text.old.items }
    ensures { text.new.items
        ≡ take start text.old.items ++ definitions.on_one_line (drop start text.old.items) }
{
    join(&mut text[start..]);
}

/// Makes each new line a space.
fn join(bytes: &mut [u8])
    ensures { bytes.new ≡ definitions.on_one_line bytes.old }
{
    for i in 0..bytes.len() {
        bytes[i] = joined(bytes[i]);
    }
}

/// A new line as a space.
fn joined(byte: u8) -> u8
    ensures { result ≡ definitions.joined byte }
{
    if byte == b'\n' { b' ' } else { byte }
}
