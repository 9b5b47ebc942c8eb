//! One byte after another.

ghost use Rattle.std.specs.Prelude.{◌≡◌, ◌<◌, ◌≤◌, ◌+◌, ◌^◌, ◌∷◌, ◌++◌, [], OnOk};
ghost use Rattle.std.specs.Prelude.{length, replicate, IfOk};
ghost use Rattle.derive_joined.specs.declared.mode.Mode.{Mode};
ghost use Rattle.derive_joined.specs.Joined as spec;
ghost use Rattle.derive_joined.specs.Joiners.{Advances, Joins, Stays, state_of};

use crate::directive::begins_directive;
use crate::mode::Mode;
use crate::stretch::{code_length, comment_length, text_length};
use std::alloc::{AllocError, Global};
use syntax_lexer::{from, front};

/// A source that is joined up to a byte.
#[derive(Drop)]
pub struct Joiner {
    /// Where the byte stands.
    pub mode: Mode,

    /// What is still to be written before the next byte of a text.
    pub held: Vec<u8>,

    /// The line ends of the text.
    pub ends: usize,

    /// What is written.
    pub text: Vec<u8>,
}

// What follows a byte of code.
fn after_code(byte: u8) -> Mode
    ensures { result ≡ spec.after_code byte }
{
    match byte {
        b'!' => Mode::Comment,
        b'"' => Mode::Text,
        b'\'' => Mode::Quote,
        b'.' => Mode::Dot,
        _ => Mode::Code,
    }
}

fn is_blank(byte: u8) -> bool
    ensures { result ≡ spec.is_blank byte }
{
    matches!(byte, b' ' | b'\t' | b'\r')
}

// So many line ends.
fn put_line_ends(text: &mut Vec<u8>, count: usize) -> Result<(), AllocError>
    ensures { OnOk result (text.new.items ≡ text.old.items ++ replicate count 10) }
{
    for _ in 0..count {
        text.push(b'\n')?;
    }
    Ok(())
}

impl Joiner {
    /// Nothing is joined yet.
    pub fn new(alloc: Global) -> Joiner
        ensures state { state_of result ≡ spec.outside Mode.Code }
        ensures nothing { result.text.items ≡ [] }
    {
        Joiner {
            mode: Mode::Code,
            held: Vec::new(alloc),
            ends: 0,
            text: Vec::new(alloc),
        }
    }

    // A byte outside of texts.
    fn put_outside(&mut self, byte: u8, mode: Mode) -> Result<(), AllocError>
        ensures writes { OnOk result (self.new.text.items ≡ self.old.text.items ++ byte ∷ []) }
        ensures moves { OnOk result (state_of self.new ≡ spec.outside mode) }
    {
        self.text.push(byte)?;
        self.held.clear();
        self.ends = 0;
        self.mode = mode;
        Ok(())
    }

    // The closing quote of a text, and its line ends.
    fn close(&mut self) -> Result<(), AllocError>
        ensures writes { OnOk result (self.new.text.items ≡ self.old.text.items
            ++ self.old.held.items ++ 34 ∷ replicate self.old.ends 10) }
        ensures moves { OnOk result (state_of self.new ≡ spec.outside Mode.Code) }
    {
        self.text.extend_from_slice(&self.held)?;
        self.text.push(b'"')?;
        put_line_ends(&mut self.text, self.ends)?;
        self.held.clear();
        self.ends = 0;
        self.mode = Mode::Code;
        Ok(())
    }

    // A line end in a text.
    fn break_line(&mut self) -> Result<(), AllocError>
        requires { self.now.ends + 1 < 2 ^ 64 }
        ensures text { OnOk result (self.new.text.items ≡ self.old.text.items) }
        ensures held { OnOk result
            (self.new.held.items ≡ spec.held_at_end self.old.mode self.old.held.items) }
        ensures mode { OnOk result (self.new.mode ≡ Mode.Broken) }
        ensures ends { OnOk result (self.new.ends ≡ self.old.ends + 1) }
    {
        match self.mode {
            Mode::Broken => {}
            Mode::Caret => self.held.clear(),
            _ => {
                self.held.clear();
                self.held.push(b' ')?;
            }
        }
        self.mode = Mode::Broken;
        self.ends += 1;
        Ok(())
    }

    // A blank in a text.
    fn hold(&mut self, byte: u8) -> Result<(), AllocError>
        ensures text { OnOk result (self.new.text.items ≡ self.old.text.items) }
        ensures held { OnOk result (self.new.held.items
            ≡ spec.held_at_blank self.old.mode self.old.held.items byte) }
        ensures mode { OnOk result (self.new.mode ≡ self.old.mode) }
        ensures ends { OnOk result (self.new.ends ≡ self.old.ends) }
    {
        match self.mode {
            Mode::Broken => Ok(()),
            _ => Ok(self.held.push(byte)?),
        }
    }

    // Another byte of a text.
    fn put_inside(&mut self, byte: u8) -> Result<(), AllocError>
        ensures writes { OnOk result (self.new.text.items
            ≡ self.old.text.items ++ self.old.held.items ++ byte ∷ []) }
        ensures held { OnOk result (self.new.held.items ≡ []) }
        ensures mode { OnOk result (self.new.mode ≡ spec.after_inside byte) }
        ensures ends { OnOk result (self.new.ends ≡ self.old.ends) }
    {
        self.text.extend_from_slice(&self.held)?;
        self.text.push(byte)?;
        self.held.clear();
        self.mode = if byte == b'^' {
            Mode::Caret
        } else {
            Mode::Text
        };
        Ok(())
    }

    // A byte between double quotes.
    fn take_inside(&mut self, byte: u8) -> Result<(), AllocError>
        requires { self.now.ends + 1 < 2 ^ 64 }
        ensures writes { OnOk result (self.new.text.items
            ≡ self.old.text.items ++ (spec.text_step (state_of self.old) byte).0) }
        ensures moves { OnOk result (state_of self.new
            ≡ (spec.text_step (state_of self.old) byte).1) }
        ensures grows { OnOk result (self.new.ends ≤ self.old.ends + 1) }
    {
        match byte {
            b'"' => self.close(),
            b'\n' => self.break_line(),
            _ if is_blank(byte) => self.hold(byte),
            _ => self.put_inside(byte),
        }
    }

    /// Joins one byte more, before these.
    ///
    /// # Errors
    ///
    /// `AllocError` where memory is refused.
    pub fn take(&mut self, byte: u8, rest: &[u8]) -> Result<(), AllocError>
        requires { self.now.ends + 1 < 2 ^ 64 }
        ensures joins { OnOk result (Joins self.old self.new byte rest.now) }
        ensures grows { OnOk result (self.new.ends ≤ self.old.ends + 1) }
    {
        match self.mode {
            Mode::Code if byte == b'#' && begins_directive(rest) => {
                self.put_outside(b' ', Mode::Code)
            }
            Mode::Code | Mode::Dot => self.put_outside(byte, after_code(byte)),
            Mode::Comment if byte == b'\n' => self.put_outside(byte, Mode::Code),
            Mode::Comment => self.put_outside(byte, Mode::Comment),
            Mode::Quote if byte == b'\n' || byte == b'\'' => self.put_outside(byte, Mode::Code),
            Mode::Quote => self.put_outside(byte, Mode::Quote),
            _ => self.take_inside(byte),
        }
    }

    // How many of these bytes stay as they are.
    #[inline]
    fn staying(&self, bytes: &[u8]) -> usize
        ensures within { result ≤ length bytes.now }
        ensures stays { Stays (state_of self.now) bytes.now result }
    {
        match self.mode {
            Mode::Code => code_length(bytes),
            Mode::Comment => comment_length(bytes),
            Mode::Text if self.held.is_empty() => text_length(bytes),
            _ => 0,
        }
    }

    /// Joins bytes at the front of these: what stays as it is, and a byte after it. How many they
    /// are.
    ///
    /// # Errors
    ///
    /// `AllocError` where memory is refused.
    pub fn advance(&mut self, bytes: &[u8]) -> Result<usize, AllocError>
        requires some { 0 < length bytes.now }
        requires room { self.now.ends + length bytes.now < 2 ^ 64 }
        ensures { IfOk result (Advances self.old self.new bytes.now) }
    {
        let count = self.staying(bytes);
        self.text.extend_from_slice(front(bytes, count))?;
        if count == bytes.len() {
            return Ok(count);
        }
        self.take(bytes[count], from(bytes, count + 1))?;
        Ok(count + 1)
    }
}
