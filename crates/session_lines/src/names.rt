//! Names of saved games.

ghost use Rattle.std.specs.Prelude.{◌≡◌, IfOk};
ghost use Rattle.session_lines.specs.Names as definitions;

use std::alloc::{AllocError, Global};

/// How long a name is at most.
const MOST_LETTERS: usize = 60;

/// How each file of a saved game ends.
const ENDING: &[u8] = b".qzl";

/// Whether a line is a name: it has 1 to 60 letters, digits, hyphens, underscores and dots, and does not
/// begin with a dot.
pub fn is_name(line: &[u8]) -> bool
    ensures { result ≡ definitions.is_name line.now }
{
    if line.is_empty() {
        return false;
    }
    let is_short = line.len() <= MOST_LETTERS;
    let is_shown = line[0] != b'.';
    let is_plain = are_name_bytes(line);
    is_short && is_shown && is_plain
}

/// Whether a name may have each byte of a line.
fn are_name_bytes(line: &[u8]) -> bool
    ensures { result ≡ definitions.are_name_bytes line.now }
{
    line.iter().all(|byte| is_name_byte(*byte))
}

/// Whether a name may have a byte.
fn is_name_byte(byte: u8) -> bool
    ensures { result ≡ definitions.is_name_byte byte }
{
    let is_capital = b'A' <= byte && byte <= b'Z';
    let is_small = b'a' <= byte && byte <= b'z';
    let is_digit = b'0' <= byte && byte <= b'9';
    let is_mark = byte == b'-' || byte == b'_' || byte == b'.';
    is_capital || is_small || is_digit || is_mark
}

/// The name of the file of a saved game: `.qzl` is added unless it is there.
///
/// # Errors
///
/// Memory was refused.
pub fn file_name(alloc: Global, name: &[u8]) -> Result<Vec<u8>, AllocError>
    ensures { IfOk result (λ file. file.items ≡ definitions.file_name name.now) }
{
    let mut file = Vec::new(alloc);
    file.extend_from_slice(name)?;
    if !name.ends_with(ENDING) {
        file.extend_from_slice(ENDING)?;
    }
    Ok(file)
}
