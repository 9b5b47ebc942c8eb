//! Text with marks where its style changes: sequences of a terminal (ECMA-48, SGR).

ghost use Rattle.std.specs.Prelude.{◌≡◌, ◌≤◌, ◌++◌, true, false, slice_index_or, OnOk};
ghost use Rattle.machine_picture.specs.Marks as definitions;

use std::alloc::AllocError;

/// The style without reverse, bold, italic and fixed pitch.
const PLAIN: u8 = 0;

/// Adds a text to another, with a mark before each byte whose style differs from that of the byte before it, and one
/// at the end if it does not end plain. Bytes that have no style are plain.
///
/// # Errors
///
/// Memory was refused. A part may be added then.
pub fn put_marked(out: &mut Vec<u8>, text: &[u8], each: &[u8]) -> Result<(), AllocError>
    ensures marked { OnOk result (out.new.items ≡ out.old.items ++ definitions.marked text.now each.now) }
    ensures text { definitions.is_free text.now ≡ true
        → definitions.without_marks false (definitions.marked text.now each.now) ≡ text.now }
{
    let mut before = PLAIN;
    for i in 0..text.len() {
        let style = style_at(each, i);
        put_change(out, before, style)?;
        out.push(text[i])?;
        before = style;
    }
    put_change(out, before, PLAIN)?;
    Ok(())
}

/// The style of a byte.
fn style_at(each: &[u8], at: usize) -> u8
    ensures { result ≡ slice_index_or each.now at 0 }
{
    if at < each.len() { each[at] } else { PLAIN }
}

/// Adds a mark to a text where a style differs from the one before.
fn put_change(out: &mut Vec<u8>, before: u8, now: u8) -> Result<(), AllocError>
    ensures { OnOk result (out.new.items ≡ out.old.items ++ definitions.changed before now) }
{
    if now == before {
        return Ok(());
    }
    put_mark(out, now)
}

/// Adds the mark of a style to a text.
fn put_mark(out: &mut Vec<u8>, style: u8) -> Result<(), AllocError>
    ensures { OnOk result (out.new.items ≡ out.old.items ++ definitions.mark style) }
{
    out.extend_from_slice(b"\x1B[0")?;
    put_part(out, style, 1, b";7")?;
    put_part(out, style, 2, b";1")?;
    put_part(out, style, 4, b";3")?;
    put_part(out, style, 8, b";50")?;
    out.extend_from_slice(b"m")?;
    Ok(())
}

/// Adds a part of a mark, where the style has the bit with this value.
fn put_part(out: &mut Vec<u8>, style: u8, value: u8, part: &[u8]) -> Result<(), AllocError>
    requires { 1 ≤ value }
    ensures { OnOk result (out.new.items ≡ out.old.items ++ definitions.part value part.now style) }
{
    if style / value % 2 != 1 {
        return Ok(());
    }
    out.extend_from_slice(part)
}
