//! A reader that asks for the status line after each line.

ghost use Rattle.std.specs.Prelude.{◌≡◌, ◌≤◌, MatchResult, Option, ℕ, List, false, length};
ghost use Rattle.std.specs.Io.KnownBytes.{Keeps};
ghost use Rattle.screen.specs.Asked.{GivesByte, left_to_give, question};
ghost use Rattle.screen.specs.Shown.{new_line};

use std::io::{self, Read};

/// The end of a line, and the line that asks for the status line.
const QUESTION: [u8; 9] = *b"\n/status\n";

/// What ends a line.
const NEW_LINE: u8 = b'\n';

/// A reader of the lines of another that asks for the status line before the first and after each of
/// them. A last line without its end is ended. It reads bytes one by one.
#[derive(Drop)]
pub struct Asking<R> {
    reader: R,

    /// How many bytes of the question were given on.
    asked: usize,

    /// Whether a line is begun.
    is_begun: bool,
}

impl<R: Read> Asking<R> {
    /// What a reader gives, with the question before it.
    pub fn new(reader: R) -> Asking<R>
        ensures reader { result.reader ≡ reader }
        ensures asked { result.asked ≡ 1 }
        ensures begun { result.is_begun ≡ false }
    {
        Asking {
            reader,
            asked: 1,
            is_begun: false,
        }
    }

    /// The next byte; nothing at the end.
    fn next(&mut self) -> io::Result<Option<u8>>
        ensures { MatchResult result
            (GivesByte (left_to_give self.old.asked self.old.is_begun (R.remaining self.old.reader))
            (left_to_give self.new.asked self.new.is_begun (R.remaining self.new.reader)))
            (λ _. Keeps (left_to_give self.old.asked self.old.is_begun (R.remaining self.old.reader))
            (left_to_give self.new.asked self.new.is_begun (R.remaining self.new.reader))) }
    {
        if self.asked < QUESTION.len() {
            let byte = QUESTION[self.asked];
            self.asked += 1;
            return Ok(Some(byte));
        }
        let typed = next_of(&mut self.reader)?;
        Ok(self.after(typed))
    }

    /// The next byte where this one was typed, or nothing more.
    fn after(&mut self, typed: Option<u8>) -> Option<u8>
        requires { length question ≤ self.old.asked }
        ensures reader { self.new.reader ≡ self.old.reader }
        ensures byte { (old new : Option (List ℕ)) → GivesByte old new typed
            → GivesByte (left_to_give self.old.asked self.old.is_begun old)
            (left_to_give self.new.asked self.new.is_begun new) result }
    {
        match typed {
            Some(byte) => {
                if byte == NEW_LINE {
                    return Some(self.end_line());
                }
                self.is_begun = true;
                Some(byte)
            }
            None => {
                if self.is_begun {
                    Some(self.end_line())
                } else {
                    None
                }
            }
        }
    }

    /// Ends a line; the rest of the question follows.
    fn end_line(&mut self) -> u8
        ensures reader { self.new.reader ≡ self.old.reader }
        ensures asked { self.new.asked ≡ 1 }
        ensures begun { self.new.is_begun ≡ false }
        ensures byte { result ≡ new_line }
    {
        self.is_begun = false;
        self.asked = 1;
        NEW_LINE
    }
}

/// The next byte of a reader; nothing at its end.
fn next_of<R: Read>(reader: &mut R) -> io::Result<Option<u8>>
    ensures { MatchResult result (GivesByte (R.remaining reader.old) (R.remaining reader.new))
        (λ _. Keeps (R.remaining reader.old) (R.remaining reader.new)) }
{
    let mut byte = [0u8; 1];
    let count = reader.read(&mut byte)?;
    if count == 0 {
        return Ok(None);
    }
    Ok(Some(byte[0]))
}

impl<R: Read> Read for Asking<R> {
    ghost remaining = { λ asking. left_to_give asking.asked asking.is_begun (R.remaining asking.reader) };

    fn read(&mut self, buf: &mut [u8]) -> io::Result<usize> {
        if buf.is_empty() {
            return Ok(0);
        }
        match self.next()? {
            Some(byte) => {
                buf[0] = byte;
                Ok(1)
            }
            None => Ok(0),
        }
    }
}
