//! The lines of a text.

ghost use Rattle.std.specs.Prelude.{◌≡◌, ◌≤◌, ◌++◌, length, take, replicate};
ghost use Rattle.std.specs.List.{count_by};
ghost use Rattle.zcore_standard.specs.Windows as definitions;

/// How many bytes of a text come before the spaces at its end.
pub(crate) fn bare_length(text: &[u8]) -> usize
    ensures bare { take result text.now ≡ definitions.without_spaces text.now }
    ensures within { result ≤ length text.now }
{
    let mut end = text.len();
    while 0 < end && text[end - 1] == b' ' {
        end -= 1;
    }
    end
}

/// How many newlines have to be added to a text for its last line to be empty: none or one.
pub fn missing_lines(text: &[u8]) -> usize
    ensures lines { definitions.with_new_line text.now ≡ text.now ++ replicate result 10 }
    ensures few { result ≤ 1 }
{
    if text.len() == 0 {
        return 0;
    }
    if text[text.len() - 1] == b'\n' { 0 } else { 1 }
}

/// How many characters the last line of a text has.
pub(crate) fn width(text: &[u8]) -> usize
    ensures same { result ≡ definitions.width text.now }
    ensures within { result ≤ length text.now }
{
    let mut count = 0;
    let mut begin = text.len();
    while 0 < begin && text[begin - 1] != b'\n' {
        begin -= 1;
        if begins_character(text[begin]) {
            count += 1;
        }
    }
    count
}

/// Whether a byte of UTF-8 begins a character.
fn begins_character(byte: u8) -> bool
    ensures { result ≡ definitions.begins_character byte }
{
    byte < 0x80 || 0xC0 <= byte
}

/// How many newlines a text has.
pub(crate) fn count_new_lines(text: &[u8]) -> usize
    ensures { result ≡ count_by definitions.is_new_line text.now }
{
    let mut count = 0;
    for byte in text {
        if *byte == b'\n' {
            count += 1;
        }
    }
    count
}
