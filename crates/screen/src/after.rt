//! What comes after a place of a text.

ghost use Rattle.std.specs.Prelude.{◌≡◌, ◌+◌, drop};

/// What comes after the byte at a place of a text; nothing if there is no such byte.
pub(crate) fn after(text: &[u8], place: usize) -> &[u8]
    ensures { result.now ≡ drop (place + 1) text.now }
{
    if place < text.len() {
        &text[place + 1..]
    } else {
        &[]
    }
}
