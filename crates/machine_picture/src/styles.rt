//! The styles of a turn's text.

ghost use Rattle.std.specs.Prelude.{◌≡◌, ◌≤◌, ◌++◌, if◌then◌else◌, List, ℕ, drop, length, replicate, take, IfOk, IfSome, OnOk, Some};
ghost use Rattle.zcore_standard.specs.declared.windows.Upper as upper;
ghost use Rattle.machine_picture.specs.Represented.{IsLine, IsWithin, is_same, left_in, left_of, styles_of};
ghost use Rattle.machine_picture.specs.Styles as definitions;

use crate::lines::{Drawn, Line, NO_PART, Part, Shown, new_lines_after, row_of};
use std::alloc::{AllocError, Global};
use zcore_standard::Upper;

/// The style without reverse, bold, italic and fixed pitch.
const PLAIN: u8 = 0;

/// The style of a fixed pitch.
const FIXED: u8 = 8;

/// How many styles there are.
const STYLES: u16 = 16;

/// The first version whose stories can ask for a fixed pitch (Z-Machine Standards Document 1.1, section 11.1).
const FIRST_ASKING: u8 = 3;

/// The second byte of Flags 2 in the header.
const FLAGS_2_LOW: usize = 17;

/// The style that a story has chosen, and that of each byte of the turn's text. A style is the sum of 1 for
/// reverse, 2 for bold, 4 for italic and 8 for a fixed pitch.
#[derive(Drop)]
pub struct Styles {
    /// The one that the story has chosen.
    pub(crate) style: u8,

    /// That of each byte of the turn's text.
    pub(crate) each: Vec<u8>,

    /// The part of that text in which a read has shown the upper window.
    pub(crate) part: Part,
}

impl Styles {
    /// The styles of no text, with this one chosen.
    pub fn new(alloc: Global, style: u8) -> Styles
        ensures { styles_of result ≡ definitions.begun style 0 }
    {
        Styles {
            style,
            each: Vec::new(alloc),
            part: NO_PART,
        }
    }

    /// Another turn begins, of which the player has printed so many bytes already. The style lasts.
    ///
    /// # Errors
    ///
    /// Memory was refused.
    pub fn begin(&mut self, long: usize) -> Result<(), AllocError>
        ensures { OnOk result (styles_of self.new ≡ definitions.begun (styles_of self.old).style long) }
    {
        self.part = NO_PART;
        self.each.clear();
        self.each.resize(long, PLAIN)
    }

    /// The style that the story has chosen.
    pub fn style(&self) -> u8
        ensures { result ≡ (styles_of self.now).style }
    {
        self.style
    }

    /// The style of each byte.
    pub fn each(&self) -> &[u8]
        ensures { result.now ≡ (styles_of self.now).each }
    {
        self.each.as_slice()
    }

    /// The text, or the styles of its bytes, without the part in which a read has shown the upper window.
    ///
    /// # Errors
    ///
    /// Memory was refused.
    pub fn without_window(&self, alloc: Global, bytes: &[u8]) -> Result<Vec<u8>, AllocError>
        ensures { IfOk result (λ rest. rest.items
            ≡ definitions.without_part (styles_of self.now).part bytes.now) }
    {
        let Part { from, to } = self.part;
        let mut rest = Vec::from_slice(alloc, &bytes[..from.min(bytes.len())])?;
        rest.extend_from_slice(&bytes[to.min(bytes.len())..])?;
        Ok(rest)
    }

    /// Does what `set_text_style` does with a value.
    pub fn choose(&mut self, value: u16)
        ensures { styles_of self.new
            ≡ record (styles_of self.old) { style = definitions.chosen value (styles_of self.old).style } }
    {
        if value == 0 {
            self.style = PLAIN;
            return;
        }
        self.style |= (value % STYLES) as u8;
    }

    /// The style with which a story prints whose memory is this.
    pub fn printed(&self, version: u8, memory: &[u8]) -> u8
        requires { 18 ≤ length memory.now }
        ensures { result ≡ definitions.printed version memory.now (styles_of self.now).style }
    {
        if version < FIRST_ASKING || memory[FLAGS_2_LOW] / 2 % 2 != 1 {
            return self.style;
        }
        self.style | FIXED
    }

    /// The text is so long now: it was cut, or what was added has this style.
    ///
    /// # Errors
    ///
    /// Memory was refused.
    pub fn become_as_long(&mut self, count: usize, style: u8) -> Result<(), AllocError>
        ensures { OnOk result (styles_of self.new
            ≡ record (styles_of self.old) { each = definitions.as_long count style (styles_of self.old).each }) }
    {
        self.each.resize(count, style)
    }

    /// The text is cut after so many bytes, if there are more.
    pub fn cut(&mut self, count: usize)
        ensures { styles_of self.new
            ≡ record (styles_of self.old) { each = take count (styles_of self.old).each } }
    {
        self.each.truncate(count);
    }

    /// The story begins again: `restart`.
    pub fn restart(&mut self)
        ensures { styles_of self.new ≡ record (styles_of self.old) { style = definitions.plain } }
    {
        self.style = PLAIN;
    }

    /// The cursor of the upper window was in this line of the text. The window is this now, and the text of the
    /// turn this one: where the cursor has gone to another line, the spaces at the end of its line were cut.
    pub fn move_on(&mut self, line: &Line, to: Option<Upper>, text: &[u8])
        ensures { (upper : upper.Upper) → (was : List ℕ) → IsLine upper was line.now
            → styles_of self.new ≡ record (styles_of self.old) {
              each = definitions.left_by (Some upper) was to text.now (styles_of self.old).each;
            } }
    {
        match to {
            None => {}
            Some(to) => {
                let new_lines = new_lines_after(line.bare, text);
                self.leave(line, row_of(to, text), new_lines);
            }
        }
    }

    /// The cursor has gone from a line to this row, where so many newlines were put after the line.
    fn leave(&mut self, line: &Line, row: usize, new_lines: usize)
        ensures { styles_of self.new ≡ record (styles_of self.old) {
          each = if is_same line.now row new_lines then (styles_of self.old).each
              else take line.now.bare (styles_of self.old).each;
        } }
    {
        if line.row == row && new_lines == 0 {
            return;
        }
        self.cut(line.bare);
    }

    /// A read has shown this of the text, which is so long then: what the player has added is plain.
    ///
    /// # Errors
    ///
    /// Memory was refused.
    pub fn wait(&mut self, shown: &Shown, long: usize) -> Result<(), AllocError>
        requires kept { shown.now.kept ≤ length (styles_of self.old).each }
        requires within { IfSome shown.now.window (IsWithin shown.now.kept) }
        ensures { OnOk result (styles_of self.new ≡ record (styles_of self.old) {
          each = definitions.as_long long definitions.plain (left_of shown.now (styles_of self.old).each);
          part = shown.now.part;
        }) }
    {
        self.part = shown.part;
        self.cut(shown.kept);
        self.show_window(shown.window)?;
        self.become_as_long(long, PLAIN)
    }

    /// A read shows this of the upper window, if it shows it.
    ///
    /// # Errors
    ///
    /// Memory was refused.
    fn show_window(&mut self, window: Option<Drawn>) -> Result<(), AllocError>
        requires { IfSome window (IsWithin (length (styles_of self.old).each)) }
        ensures { OnOk result (styles_of self.new
            ≡ record (styles_of self.old) { each = left_in window (styles_of self.old).each }) }
    {
        match window {
            None => Ok(()),
            Some(drawn) => {
                self.each.truncate(drawn.from + drawn.bare);
                put_plain(&mut self.each, drawn.from, drawn.new_lines)
            }
        }
    }
}

/// Puts the styles of newlines into others: none or one.
fn put_plain(each: &mut Vec<u8>, at: usize, lines: usize) -> Result<(), AllocError>
    requires at { at ≤ length each.old.items }
    requires few { lines ≤ 1 }
    ensures { OnOk result (each.new.items
        ≡ take at each.old.items ++ (replicate lines definitions.plain ++ drop at each.old.items)) }
{
    if lines == 0 {
        return Ok(());
    }
    match each.insert(at, PLAIN) {
        Ok(()) => Ok(()),
        Err(_) => Err(AllocError),
    }
}
