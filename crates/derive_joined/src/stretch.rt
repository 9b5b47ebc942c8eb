//! How many bytes at the front stay as they are.

ghost use Rattle.std.specs.Prelude.{◌≡◌, ◌<◌, ◌≤◌, ◌+◌, ℕ, drop, length, true};
ghost use Rattle.derive_joined.specs.declared.mode.Mode.{Mode};
ghost use Rattle.derive_joined.specs.Joiners as spec;

// Whether a byte of code is written, and code follows.
#[inline(always)]
fn stays_in_code(byte: u8) -> bool
    ensures { result ≡ true → spec.Keeps (spec.inside Mode.Code 0) byte }
{
    !matches!(byte, b'!' | b'"' | b'#' | b'\'' | b'.')
}

// Whether a byte of a comment does not end it.
#[inline(always)]
fn stays_in_comment(byte: u8) -> bool
    ensures { result ≡ true → spec.Keeps (spec.inside Mode.Comment 0) byte }
{
    byte != b'\n'
}

// Whether a byte of a text is written, and the text goes on.
#[inline(always)]
fn stays_in_text(byte: u8) -> bool
    ensures { result ≡ true → spec.Writes byte }
{
    !matches!(byte, b'"' | b'\n' | b'^' | b' ' | b'\t' | b'\r')
}

/// How many bytes of code stay as they are.
pub fn code_length(bytes: &[u8]) -> usize
    ensures within { result ≤ length bytes.now }
    ensures stays { spec.Stays (spec.inside Mode.Code 0) bytes.now result }
{
    let mut at = 0;
    while at < bytes.len() && stays_in_code(bytes[at]) {
        at += 1;
    }
    at
}

/// How many bytes of a comment stay as they are.
pub fn comment_length(bytes: &[u8]) -> usize
    ensures within { result ≤ length bytes.now }
    ensures stays { spec.Stays (spec.inside Mode.Comment 0) bytes.now result }
{
    let mut at = 0;
    while at < bytes.len() && stays_in_comment(bytes[at]) {
        at += 1;
    }
    at
}

// How many bytes of a text stay as they are together: a blank only with a byte after it that is none.
#[inline(always)]
fn text_step(bytes: &[u8], at: usize) -> usize
    requires { at < length bytes.now }
    ensures within { at + result ≤ length bytes.now }
    ensures stays { (ends : ℕ)
        → spec.Stays (spec.inside Mode.Text ends) (drop at bytes.now) result }
{
    if stays_in_text(bytes[at]) {
        return 1;
    }
    if bytes[at] == b' ' && at + 1 < bytes.len() && stays_in_text(bytes[at + 1]) {
        return 2;
    }
    0
}

/// How many bytes of a text stay as they are.
pub fn text_length(bytes: &[u8]) -> usize
    ensures within { result ≤ length bytes.now }
    ensures stays { (ends : ℕ) → spec.Stays (spec.inside Mode.Text ends) bytes.now result }
{
    let mut at = 0;
    while at < bytes.len() {
        let count = text_step(bytes, at);
        if count == 0 {
            return at;
        }
        at += count;
    }
    at
}
