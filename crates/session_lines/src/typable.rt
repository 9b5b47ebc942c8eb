//! Lines that a story can be given.

ghost use Rattle.std.specs.Prelude.{◌≡◌, nat_le, length};
ghost use Rattle.std.specs.List.{list_all};
ghost use Rattle.session_lines.specs.Standing.{is_typable, is_typable_byte, longest_line};

/// The longest line that a story is given, in bytes.
pub const LONGEST_LINE: usize = 1_000;

/// Whether a line can be given to a story in the profile: it has at most 1,000 bytes, each from 32 to 126.
pub fn is_typable(line: &[u8]) -> bool
    ensures { result ≡ is_typable line.now }
{
    let short = is_short(line);
    let plain = are_plain(line);
    short && plain
}

/// Whether a line has at most 1,000 bytes.
pub fn is_short(line: &[u8]) -> bool
    ensures { result ≡ nat_le (length line.now) longest_line }
{
    line.len() <= LONGEST_LINE
}

/// Whether each byte is from 32 to 126.
fn are_plain(line: &[u8]) -> bool
    ensures { result ≡ list_all is_typable_byte line.now }
{
    line.iter().all(|byte| 32 <= *byte && *byte <= 126)
}
