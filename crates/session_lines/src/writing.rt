//! Writing a text whole.

ghost use Rattle.session_lines.specs.Wrote.{WroteText};

use std::io::Write;

/// A write or a flush failed, or a write took no byte.
#[derive(Clone, Copy, Debug)]
pub struct WriteFailed;

/// Writes all of a text. A write that takes no byte is a failure like another.
pub fn put<W: Write>(writer: &mut W, text: &[u8]) -> Result<(), WriteFailed>
    ensures { WroteText (W.contents writer.old) (W.contents writer.new) text.now result }
{
    let mut rest = text;
    while !rest.is_empty() {
        match writer.write(rest) {
            Ok(0) => return Err(WriteFailed),
            Ok(n) => rest = &rest[n..],
            Err(_) => return Err(WriteFailed),
        }
    }
    Ok(())
}

/// Writes all of a text and flushes.
pub fn tell<W: Write>(writer: &mut W, text: &[u8]) -> Result<(), WriteFailed>
    ensures { WroteText (W.contents writer.old) (W.contents writer.new) text.now result }
{
    put(writer, text)?;
    match writer.flush() {
        Ok(()) => Ok(()),
        Err(_) => Err(WriteFailed),
    }
}
