//! Marks of text styles: control sequences (ECMA-48, SGR) that say how a terminal shows what follows.

ghost use Rattle.std.specs.Prelude.{◌≤◌, length};

/// How a mark begins: plain.
const BEGINNING: &[u8] = b"\x1b[0";

/// What ends it.
const END: &[u8] = b"m";

/// How many bytes the mark of styles has with which a text begins: plain, and then in this order reverse, bold,
/// italic and fixed pitch, as they are in the style. 0 if it begins with none.
pub fn mark_length(text: &[u8]) -> usize
    ensures { result ≤ length text.now }
{
    let Some(style) = text.strip_prefix(BEGINNING) else {
        return 0;
    };
    let style = after(style, b";7");
    let style = after(style, b";1");
    let style = after(style, b";3");
    let style = after(style, b";50");
    match style.strip_prefix(END) {
        Some(rest) => text.len() - rest.len(),
        None => 0,
    }
}

/// What comes after a part of a mark, if a text begins with it; else all of the text.
fn after<'a>(text: &'a [u8], part: &[u8]) -> &'a [u8]
    ensures { length result.now ≤ length text.now }
{
    match text.strip_prefix(part) {
        Some(rest) => rest,
        None => text,
    }
}
