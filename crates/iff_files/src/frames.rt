//! Frames as bytes (Quetzal 1.4, section 4).

ghost use Rattle.std.specs.Prelude.{◌≡◌, ◌≤◌, ◌<◌, ◌*◌, ◌^◌, ◌++◌, nat_lt, slice_index, if◌then◌else◌, true, false, length};
ghost use Rattle.std.specs.Prelude.{OnOk, MatchOption};
ghost use Rattle.iff_files.specs.Frames.{flags_of, frame_bytes, head_bytes, head_of, is_frame, main_frame, masks, place_in};
ghost use Rattle.iff_files.specs.Frames.{most_arguments, most_locals, size_of, variable_of, words, words_from, words_of};

use std::alloc::AllocError;

/// How many bytes a frame has before its words.
const HEAD: usize = 8;

/// The flag of a frame whose result is thrown away.
const NO_RESULT: u8 = 16;

/// What the first bytes of a frame say.
#[derive(Clone, Copy)]
pub struct FrameHead {
    /// Where its caller goes on.
    pub return_address: u32,

    /// How many locals it has.
    pub locals: u8,

    /// The variable for its result.
    pub variable: Option<u8>,

    /// How many arguments the call gave.
    pub arguments: u8,

    /// How many words its stack has.
    pub words: u16,
}

impl FrameHead {
    /// How many words the frame has: locals and stack.
    pub fn word_count(&self) -> usize
        ensures { result ≡ words_of self.now }
    {
        self.locals as usize + self.words as usize
    }

    /// How many bytes the frame has.
    pub fn size(&self) -> usize
        ensures { result ≡ size_of self.now }
    {
        HEAD + self.word_count() * 2
    }
}

/// Appends the frame of the main code, which is the first one. It has a stack, and neither locals
/// nor a caller.
///
/// # Errors
///
/// Memory was refused.
pub fn put_main(out: &mut Vec<u8>, stack: &[u16]) -> Result<(), AllocError>
    requires { length stack.now < 2 ^ 16 }
    ensures { OnOk result (out.new.items ≡ out.old.items ++ frame_bytes (main_frame stack.now)) }
{
    let head = FrameHead {
        return_address: 0,
        locals: 0,
        variable: Some(0),
        arguments: 0,
        words: stack.len() as u16,
    };
    put_frame(out, head, &[], stack)
}

/// Appends the frame of a call. Those of older calls come before it.
///
/// # Errors
///
/// Memory was refused.
pub fn put_frame(
    out: &mut Vec<u8>,
    head: FrameHead,
    locals: &[u16],
    stack: &[u16],
) -> Result<(), AllocError>
    requires return_address { head.return_address < 2 ^ 24 }
    requires arguments { head.arguments ≤ most_arguments }
    requires locals { length locals.now ≡ head.locals }
    requires few { head.locals ≤ most_locals }
    requires words { length stack.now ≡ head.words }
    ensures { OnOk result (out.new.items ≡ out.old.items ++ frame_bytes (record {
      locals = locals.now;
      stack = stack.now;
      arguments = head.arguments;
      return_address = head.return_address;
      result = head.variable;
    })) }
{
    put_head(out, head)?;
    put_words(out, locals)?;
    put_words(out, stack)?;
    Ok(())
}

/// Appends the first eight bytes of a frame.
fn put_head(out: &mut Vec<u8>, head: FrameHead) -> Result<(), AllocError>
    requires return_address { head.return_address < 2 ^ 24 }
    requires arguments { head.arguments ≤ most_arguments }
    requires few { head.locals ≤ most_locals }
    ensures { OnOk result (out.new.items ≡ out.old.items ++ head_bytes head) }
{
    let high = (head.return_address / 256 / 256) as u8;
    let middle = (head.return_address / 256 % 256) as u8;
    let low = (head.return_address % 256) as u8;
    let words_high = (head.words / 256) as u8;
    let words_low = (head.words % 256) as u8;
    out.extend_from_slice(&[
        high,
        middle,
        low,
        flags(head.variable, head.locals),
        variable(head.variable),
        mask(head.arguments),
        words_high,
        words_low,
    ])?;
    Ok(())
}

/// The number of locals, and 16 more if the result is thrown away.
fn flags(variable: Option<u8>, locals: u8) -> u8
    requires { locals ≤ most_locals }
    ensures { result ≡ flags_of variable locals }
{
    match variable {
        Some(_) => locals,
        None => NO_RESULT + locals,
    }
}

/// The byte that names the variable for the result.
fn variable(variable: Option<u8>) -> u8
    ensures { result ≡ variable_of variable }
{
    match variable {
        Some(variable) => variable,
        None => 0,
    }
}

const MASKS: [u8; 8] = [0, 1, 3, 7, 15, 31, 63, 127];

/// A bit for each argument.
fn mask(arguments: u8) -> u8
    requires { arguments ≤ most_arguments }
    ensures { result ≡ slice_index masks arguments }
{
    MASKS[arguments as usize]
}

/// Appends words. Room for all of them is asked for once.
fn put_words(out: &mut Vec<u8>, values: &[u16]) -> Result<(), AllocError>
    requires { length values.now < 2 ^ 16 }
    ensures { OnOk result (out.new.items ≡ out.old.items ++ words values.now) }
{
    out.reserve(2 * values.len())?;
    for word in values {
        out.push_reserved((*word / 256) as u8);
        out.push_reserved((*word % 256) as u8);
    }
    Ok(())
}

/// What the first bytes of a frame say, if bytes begin with a whole frame of a story of this size
/// that has no more words than `most`.
pub fn read_head(bytes: &[u8], size: u32, most: usize) -> Option<FrameHead>
    ensures { MatchOption result (is_frame size most bytes.now ≡ false)
        (λ head. (is_frame size most bytes.now ≡ true) × (head ≡ head_of bytes.now)) }
{
    if bytes.len() < HEAD {
        return None;
    }
    let head = head_at(bytes);
    if bytes[3] >= 32 {
        return None;
    }
    if head.arguments >= 8 {
        return None;
    }
    if head.return_address >= size {
        return None;
    }
    if head.word_count() > most {
        return None;
    }
    if head.size() > bytes.len() {
        return None;
    }
    Some(head)
}

/// The same, of any eight bytes.
fn head_at(bytes: &[u8]) -> FrameHead
    requires { HEAD ≤ length bytes.now }
    ensures { result ≡ head_of bytes.now }
{
    FrameHead {
        return_address: (bytes[0] as u32 * 256 + bytes[1] as u32) * 256 + bytes[2] as u32,
        locals: bytes[3] % 16,
        variable: variable_in(bytes[3], bytes[4]),
        arguments: arguments_in(bytes[5]),
        words: bytes[6] as u16 * 256 + bytes[7] as u16,
    }
}

/// The variable for the result, unless that is thrown away.
fn variable_in(flags: u8, variable: u8) -> Option<u8>
    ensures { result ≡ (if nat_lt flags 16 then Some variable else None) }
{
    if flags < NO_RESULT {
        Some(variable)
    } else {
        None
    }
}

/// How many arguments a mask tells; 8 for what is no mask.
fn arguments_in(mask: u8) -> u8
    ensures { result ≡ place_in masks mask }
{
    match mask {
        0 => 0,
        1 => 1,
        3 => 2,
        7 => 3,
        15 => 4,
        31 => 5,
        63 => 6,
        127 => 7,
        _ => 8,
    }
}

/// Appends the words that bytes begin with, of which there are `count`.
///
/// # Errors
///
/// Memory was refused.
pub fn read_words(bytes: &[u8], count: usize, out: &mut Vec<u16>) -> Result<(), AllocError>
    requires { count * 2 ≤ length bytes.now }
    ensures { OnOk result (out.new.items ≡ out.old.items ++ words_from count bytes.now) }
{
    for i in 0..count {
        out.push(bytes[2 * i] as u16 * 256 + bytes[2 * i + 1] as u16)?;
    }
    Ok(())
}
