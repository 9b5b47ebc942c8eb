//! A writer that draws the replies of a game on a terminal.

ghost use Rattle.std.specs.Prelude.{◌≡◌, [], IfSome, IsNone, IsSome, OnOk, Some, vec_items};
ghost use Rattle.std.specs.Io.KnownBytes.{Keeps};
ghost use Rattle.std.specs.Option.{option_map};
ghost use Rattle.screen.specs.Drawn.{Drew, keeps_window, rows_in, window_after};
ghost use Rattle.screen.specs.Replies.{AddsText, window_part};
ghost use Rattle.screen.specs.Shown.{shown};
ghost use Rattle.screen.specs.Status.{window_for};

use crate::screen::Screen;
use crate::shared::Shared;
use std::alloc::{AllocError, Global};
use std::io::{self, Write};
use std::snapshot::Snapshot;
use terminal::{Told, pass_on};

/// A writer that draws replies on a terminal. It is given by turns the text of a reply and the answer to
/// `/status` after it, each up to a flush.
#[derive(Drop)]
pub struct Drawn<'a, W: Write> {
    writer: W,
    alloc: Global,
    screen: Screen,

    /// What was written since the last flush.
    gathered: Vec<u8>,

    /// The last line of a text whose upper window is not drawn yet.
    prompt: Option<Vec<u8>>,

    /// What was drawn and is still to be passed on.
    drawn: Vec<u8>,

    /// The text of the upper window.
    window: Vec<u8>,

    shared: &'a Shared<'a>,

    /// The writer as it was before.
    before: Snapshot<W>,

    /// All that was written.
    told: Told,

    ghost drew: { ∥ Drew screen.size screen.upper (option_map vec_items prompt) (W.contents before.value)
        (W.contents writer) drawn.items told.bytes gathered.items ∥₁ },
}

impl<'a, W: Write> Drawn<'a, W> {
    /// A writer that draws on a terminal, to which another writes. The upper window begins with the status line
    /// of versions 1 to 3 or has none.
    pub fn new(alloc: Global, writer: W, shared: &'a Shared<'a>, has_line: bool) -> Drawn<'a, W>
        ensures writer { result.writer ≡ writer }
        ensures before { result.before.value ≡ writer }
        ensures told { result.told.bytes ≡ [] }
    {
        let before = Snapshot::of(&writer);
        Drawn {
            writer,
            alloc,
            screen: Screen::new(shared.size.get(), has_line),
            gathered: Vec::new(alloc),
            prompt: None,
            drawn: Vec::new(alloc),
            window: Vec::new(alloc),
            shared,
            before,
            told: Told::new(),
        }
    }

    /// The screen, of a size that the user has asked for. A terminal that has another size has moved its rows, so
    /// that none of them is deleted.
    fn resized(&self) -> Screen {
        let size = self.shared.size.get();
        if size == self.screen.size() {
            self.screen
        } else {
            self.screen.resized(size)
        }
    }

    /// Draws what was gathered: a text, or the answer to `/status` after it.
    fn draw(&mut self) -> io::Result<()>
        requires { self.old.drawn.items ≡ [] }
        ensures told { self.new.told.bytes ≡ self.old.told.bytes }
        ensures gathered { OnOk result (self.new.gathered.items ≡ []) }
    {
        if self.prompt.is_none() {
            self.draw_text()
        } else {
            self.draw_window()
        }
    }

    /// Draws the text that was gathered but its last line, the prompt.
    fn draw_text(&mut self) -> io::Result<()>
        requires prompt { IsNone self.old.prompt }
        requires drawn { self.old.drawn.items ≡ [] }
        ensures told { self.new.told.bytes ≡ self.old.told.bytes }
        ensures gathered { OnOk result (self.new.gathered.items ≡ []) }
        ensures drawn { OnOk result (IfSome (option_map vec_items self.new.prompt)
            (AddsText self.new.screen.size self.new.screen.upper self.old.gathered.items [] self.new.drawn.items)) }
    {
        let screen = self.resized();
        let mut drawn = Vec::new(self.alloc);
        let prompt = screen.put_text(self.alloc, &self.gathered, &mut drawn)?;
        self.screen = screen;
        self.drawn = drawn;
        self.prompt = Some(prompt);
        self.gathered.clear();
        Ok(())
    }

    /// Draws the upper window by the answer to `/status` that was gathered, and the prompt.
    fn draw_window(&mut self) -> io::Result<()>
        requires prompt { IsSome self.old.prompt }
        requires drawn { self.old.drawn.items ≡ [] }
        ensures told { self.new.told.bytes ≡ self.old.told.bytes }
        ensures gathered { OnOk result (self.new.gathered.items ≡ []) }
        ensures window { OnOk result (self.new.window.items
            ≡ window_after self.old.window.items self.old.gathered.items) }
        ensures drawn { OnOk result (IfSome (option_map vec_items self.old.prompt) (λ prompt.
            self.new.drawn.items ≡ window_part self.old.screen.size self.old.screen.upper
            (shown (window_for self.old.screen.has_line self.old.screen.size.columns
            self.new.window.items)) prompt)) }
    {
        self.shared.is_over.set(self.gathered.as_slice() == OVER);
        take_window(&self.gathered, &mut self.window)?;
        let mut screen = self.screen;
        let mut drawn = Vec::new(self.alloc);
        screen.put_window(
            self.alloc,
            &self.window,
            last_line(&self.prompt),
            &mut drawn,
        )?;
        self.screen = screen;
        self.drawn = drawn;
        self.prompt = None;
        self.gathered.clear();
        Ok(())
    }
}

impl<W: Write> Write for Drawn<'_, W> {
    ghost contents = { λ drawn. Some drawn.told.bytes };

    fn write(&mut self, buf: &[u8]) -> io::Result<usize> {
        self.gathered.extend_from_slice(buf)?;
        self.told.add(buf);
        Ok(buf.len())
    }

    /// Draws what was gathered, and passes it on.
    fn flush(&mut self) -> io::Result<()>
        ensures bytes { Keeps (Some self.old.told.bytes) (Some self.new.told.bytes) }
        ensures drawn { OnOk result (self.new.gathered.items ≡ []) }
        ensures passed { OnOk result (self.new.drawn.items ≡ []) }
    {
        pass_on(&mut self.writer, &mut self.drawn)?;
        self.draw()?;
        pass_on(&mut self.writer, &mut self.drawn)?;
        self.writer.flush()
    }
}

/// The answer to `/status` after the end of a story.
pub const OVER: &[u8] = b"[The story is over.]\n";

/// The answer for which there was no memory.
const NO_MEMORY: &[u8] = b"[No memory: line not taken.]\n";

/// The answer where nothing is drawn.
const NOTHING: &[u8] = b"[No status line.]\n";

/// The last line of a text whose upper window is not drawn yet.
fn last_line(prompt: &Option<Vec<u8>>) -> &[u8]
    requires { IsSome prompt.now }
    ensures { option_map vec_items prompt.now ≡ Some result.now }
{
    match prompt {
        Some(line) => line.as_slice(),
        None => &[],
    }
}

/// Takes the text of the upper window from the answer to `/status`, if that has it.
fn take_window(answer: &[u8], window: &mut Vec<u8>) -> Result<(), AllocError>
    ensures { OnOk result (window.new.items ≡ window_after window.old.items answer.now) }
{
    if keeps_window(answer) {
        return Ok(());
    }
    window.clear();
    window.extend_from_slice(rows_in(answer))?;
    Ok(())
}

/// Whether the upper window stays as it is.
fn keeps_window(answer: &[u8]) -> bool
    ensures { result ≡ keeps_window answer.now }
{
    answer == OVER || answer == NO_MEMORY
}

/// The rows in an answer, without the new line after them.
fn rows_in(answer: &[u8]) -> &[u8]
    ensures { result.now ≡ rows_in answer.now }
{
    if answer == NOTHING || answer.is_empty() {
        &[]
    } else {
        &answer[..answer.len() - 1]
    }
}
