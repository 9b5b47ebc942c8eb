//! Lines, columns and parts of a source.

ghost use Rattle.std.specs.Prelude.{◌≡◌, ◌≢◌, ◌≤◌, ◌<◌, ◌+◌, false, length, slice_index, take};
ghost use Rattle.std.specs.List.{All};
ghost use Rattle.syntax_lexer.specs.Bytes.{is_divider};
ghost use Rattle.syntax_lexer.specs.Placed.{line_behind};
ghost use Rattle.messages_parts.specs.Lines.{column_behind};

/// The line behind some bytes, which begin in line 1.
pub fn line_behind(bytes: &[u8]) -> usize
    ensures { result ≡ line_behind 1 bytes.now }
{
    let mut line = 1;
    for byte in bytes {
        if *byte == b'\n' {
            line += 1;
        }
    }
    line
}

/// The column behind some bytes, which begin in column 1.
pub fn column_behind(bytes: &[u8]) -> usize
    ensures { result ≡ column_behind 1 bytes.now }
{
    let mut column = 1;
    for byte in bytes {
        if *byte == b'\n' {
            column = 1;
        } else {
            column += 1;
        }
    }
    column
}

/// How many bytes stand before the first byte that ends a line, 10 or 13.
pub fn line_length(bytes: &[u8]) -> usize
    ensures within { result ≤ length bytes.now }
    ensures one_line { All (λ b. b ≢ 10) (take result bytes.now) }
    ensures some { 0 < length bytes.now → is_divider (slice_index bytes.now 0) ≡ false → 0 < result }
{
    let mut length = 0;
    while length < bytes.len() && bytes[length] != b'\n' && bytes[length] != b'\r' {
        length += 1;
    }
    length
}
