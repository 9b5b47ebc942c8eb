//! What a user at a terminal is told beside the transcript.

ghost use Rattle.std.specs.Prelude.{◌≡◌, ◌-◌};
ghost use Rattle.std.specs.Io.{WritesAtMost};
ghost use Rattle.std.specs.Io.KnownBytes.{Keeps, WriteAppends};
ghost use Rattle.session_keeping.specs.Later.{later_contents, replies_left};

use crate::advice::{LINE_REFUSED, NAME_ASKED, NO_MEMORY, advise_on_turn};
use crate::answers::{Latest, asks_name, last_line};
use crate::keys::Keys;
use crate::named::Named;
use crate::shown::show;
use crate::turns::Turns;
use session_keeping::Later;
use std::cell::Cell;
use std::io::{self, IsTerminal, Write};
use std::mem;
use terminal::OneLine;
use terminal::play::Words;

/// What ends a status line, which is written by itself: the story did not write that line.
const LINE_END: &[u8] = b"\n";

/// What a user is told of a runtime fault.
const LINE_OF_FAULT: &str =
    "play: --why --map FILE names the line, by the map that inform --map FILE writes";

/// What a user of a screen is told after the end of the story, where the prompt was.
const LEAVE: &str = "play: the story is over: /undo takes that back, an empty line leaves ";

/// The same, where there is nothing to take back.
const ONLY_LEAVE: &str = "play: the story is over: an empty line leaves ";

/// A writer of the transcript, for a user at a terminal. It tells the user more, on standard error;
/// the transcript is the same. After the first runtime fault it says how to find its line. If the
/// input is at a terminal, it says after the first answer that the story is over how to end it. After
/// another notice or a status line it shows the prompt at which the story waits again, if the
/// transcript is at a terminal too. If the transcript is at a terminal, it says the first time of each
/// machine fault, limit and refusal what it means and what to do. Where the user types the names of saved
/// games, it shows which one is offered, and says what became of the files. Of replies that are dropped
/// the user is told nothing. On a screen every second flush ends the answer to `/status`, which is no part of the
/// transcript: only after it the prompt is shown again.
#[derive(Drop)]
pub(crate) struct Transcript<'a, W> {
    writer: Later<W>,
    teller: Teller<'a>,
}

impl<'a, W: Write> Transcript<'a, W> {
    /// The transcript that a writer is given, of a story that is played as the words of the command line
    /// say, and drawn on a screen, whose keyboard finds the prompt there, or not.
    pub(crate) fn new(
        rt: &'a HostRuntime,
        writer: Later<W>,
        words: &Words<'_>,
        drawn: Option<&'a Cell<Option<Vec<u8>>>>,
        named: Option<&'a Named<'a>>,
        keys: &'a Keys<'a>,
    ) -> Transcript<'a, W>
        ensures { result.writer ≡ writer }
    {
        let teller = Teller::new(rt, words, drawn, named, keys);
        Transcript { writer, teller }
    }
}

impl<W: Write> Write for Transcript<'_, W> {
    ghost contents = { λ transcript. later_contents W.contents transcript.writer };

    fn write(&mut self, buf: &[u8]) -> io::Result<usize>
        ensures bound { WritesAtMost result buf.now }
        ensures bytes { WriteAppends (later_contents W.contents self.old.writer)
            (later_contents W.contents self.new.writer) result buf.now }
        ensures left { replies_left self.new.writer ≡ replies_left self.old.writer }
    {
        self.teller.hear(buf);
        self.writer.write(buf)
    }

    fn flush(&mut self) -> io::Result<()>
        ensures bytes { Keeps (later_contents W.contents self.old.writer)
            (later_contents W.contents self.new.writer) }
        ensures left { replies_left self.new.writer ≡ replies_left self.old.writer - 1 }
    {
        self.teller.keep_prompt();
        let is_dropped = self.writer.is_silent();
        self.teller.begin_window(is_dropped);
        self.writer.flush()?;
        self.teller.end_text(is_dropped);
        Ok(())
    }
}

/// What a text is that is written, after a line that was begun or not.
fn latest_of(text: &[u8], is_begun: bool) -> Latest {
    if is_begun && text == LINE_END {
        Latest::Notice
    } else {
        Latest::of(text)
    }
}

/// What tells the user more than the transcript.
#[derive(Drop)]
struct Teller<'a> {
    rt: &'a HostRuntime,

    /// Whether the user has not been told how to end the input yet.
    is_waiting: bool,

    /// Whether the user sees the transcript at a terminal.
    is_seen: bool,

    /// Whether the user types at a terminal, too.
    is_shown: bool,

    /// Whether the user has not been told how to find the line of a runtime fault yet.
    is_unmapped: bool,

    /// Whether the story may use every opcode of the Standard.
    is_standard: bool,

    /// What the user has been told the meaning of.
    told: Vec<&'static str>,

    /// What was written last.
    latest: Latest,

    /// The turns that can be taken back.
    turns: Turns,

    /// The prompts of the turns that can be taken back, each the last line of what the story wrote in its
    /// turn, that of the present the last. Where there was no memory for one, another is shown in its place.
    prompts: Vec<Vec<u8>>,

    /// The last line of what was written since the last flush, if the story wrote it.
    line: Vec<u8>,

    /// Where a screen's keyboard finds the prompt, if the transcript is drawn on a screen.
    drawn: Option<&'a Cell<Option<Vec<u8>>>>,

    /// What is told of names of saved games, if the user types some.
    named: Option<&'a Named<'a>>,

    /// What is told of keys.
    keys: &'a Keys<'a>,

    /// Whether what is written now is the answer to `/status` that draws it.
    is_window: bool,

    /// Whether the prompt is shown again after that answer.
    is_due: bool,
}

impl<'a> Teller<'a> {
    /// What tells the user of a story that is played as these words say, and drawn on a screen or not.
    fn new(
        rt: &'a HostRuntime,
        words: &Words<'_>,
        drawn: Option<&'a Cell<Option<Vec<u8>>>>,
        named: Option<&'a Named<'a>>,
        keys: &'a Keys<'a>,
    ) -> Teller<'a> {
        let is_typed = rt.stdin().is_terminal();
        let is_seen = rt.stdout().is_terminal();
        Teller {
            rt,
            is_waiting: is_typed,
            is_seen,
            is_shown: is_typed && is_seen,
            is_unmapped: words.map.is_none() && (is_typed || is_seen),
            is_standard: words.seed.is_some(),
            told: Vec::new(rt.alloc()),
            latest: Latest::Story,
            turns: Turns::new(words.keep),
            prompts: Vec::new(rt.alloc()),
            line: Vec::new(rt.alloc()),
            drawn,
            named,
            keys,
            is_window: false,
            is_due: false,
        }
    }

    /// Hears what is written.
    fn hear(&mut self, text: &[u8]) {
        if self.is_window {
            self.latest = Latest::of(text);
        } else if self.is_waiting || self.is_seen || self.is_unmapped {
            self.note(text);
        }
    }

    /// Says how keys are typed, if the user is to be told, before a screen is drawn by the answer to `/status`.
    fn begin_window(&self, is_dropped: bool) {
        if self.is_window && !is_dropped {
            self.keys.tell();
        }
    }

    /// Notes the end of what is written, which is dropped or not: the user is told what it asks for.
    fn end_text(&mut self, is_dropped: bool) {
        if let Some(named) = self.named {
            named.note(asks_name(self.present_prompt()));
        }
        if !is_dropped {
            if self.is_window {
                self.end_window();
            } else {
                self.tell();
            }
        }
        if self.drawn.is_none() {
            self.tell_prompt();
        }
        self.latest = Latest::Story;
        self.is_window = self.drawn.is_some() && !self.is_window;
    }

    /// Notes what is written.
    fn note(&mut self, text: &[u8]) {
        self.latest = latest_of(text, self.line.len() > 0);
        self.line.clear();
        if self.is_shown && self.latest.is_of_story() {
            let _ = self.line.extend_from_slice(last_line(text));
        }
    }

    /// Keeps the prompt of a new turn, and drops that of one that was taken back.
    fn keep_prompt(&mut self) {
        if self.is_window {
            return;
        }
        match self.latest {
            Latest::Undone => self.drop_prompt(),
            latest if latest.is_of_story() => self.add_prompt(),
            _ => {}
        }
        self.line.clear();
    }

    /// Drops the prompt of a turn that was taken back.
    fn drop_prompt(&mut self) {
        self.turns.take();
        drop(self.prompts.pop());
    }

    /// Keeps the prompt of a new turn, if it is shown again.
    fn add_prompt(&mut self) {
        self.turns.add();
        if self.is_shown {
            let line = mem::replace(&mut self.line, Vec::new(self.rt.alloc()));
            let _ = self.prompts.push(line);
        }
    }

    /// The prompt of the present; empty where there is none.
    fn present_prompt(&self) -> &[u8] {
        match self.prompts.last() {
            Some(prompt) => prompt,
            None => &[],
        }
    }

    /// Tells the user what the latest text asks for.
    fn tell(&mut self) {
        match self.latest {
            Latest::Story => self.tell_saved(),
            Latest::Name => self.explain_names(),
            Latest::Stopped(name) => self.explain(name),
            Latest::Fault => {
                if self.is_unmapped {
                    self.is_unmapped = false;
                    let _ = eprintln!(self.rt; "{LINE_OF_FAULT}");
                }
            }
            Latest::Over => {
                if self.is_waiting && self.drawn.is_none() {
                    self.is_waiting = false;
                    let _ = eprintln!(self.rt; "play: ctrl-D ends the input");
                }
            }
            Latest::Undone | Latest::Notice => self.show_prompt(),
            Latest::Refused => {
                self.explain(LINE_REFUSED);
                self.show_prompt();
            }
            Latest::NoMemory => {
                self.explain(NO_MEMORY);
                self.show_prompt();
            }
        }
    }

    /// Shows the prompt at which the story waits; on a screen, after its upper window is drawn.
    fn show_prompt(&mut self) {
        if self.drawn.is_some() && !self.is_window {
            self.is_due = true;
        } else if self.is_shown {
            let _ = show(
                self.rt.alloc(),
                &mut self.rt.stderr(),
                self.present_prompt(),
            );
            self.show_offer();
        }
    }

    /// Shows behind the prompt which name of a saved game is offered, if the story asks for one.
    fn show_offer(&self) {
        let mut offer = Vec::new(self.rt.alloc());
        if let Some(named) = self.named {
            named.add_offer(&mut offer);
        }
        let _ = self.rt.stderr().write_all(&offer);
    }

    /// Notes the end of the answer to `/status` that draws the screen: the prompt is shown again that is due, and
    /// after the end of the story it is said how to leave.
    fn end_window(&mut self) {
        self.tell_prompt();
        if self.is_shown && matches!(self.latest, Latest::Over) {
            let leave = self.leave();
            let _ = eprint!(self.rt; "{leave}");
        } else if self.is_due {
            self.show_prompt();
        } else {
            self.show_offer();
        }
        self.is_due = false;
    }

    /// Tells the reader of what is typed which prompt it shows again after a notice of its own, if the user sees that.
    fn tell_prompt(&self) {
        if !self.is_shown {
            return;
        }
        let (cell, text) = match self.drawn {
            Some(drawn) => (drawn, self.prompt()),
            None => (&self.keys.prompt, self.present_prompt()),
        };
        let mut prompt = Vec::new(self.rt.alloc());
        if show(self.rt.alloc(), &mut prompt, text).is_ok() {
            if let Some(named) = self.named {
                named.add_offer(&mut prompt);
            }
            cell.set(Some(prompt));
        }
    }

    /// The prompt at which the story waits, or what is shown in its place after the end of the story.
    fn prompt(&self) -> &[u8] {
        if matches!(self.latest, Latest::Over) {
            self.leave().as_bytes()
        } else {
            self.present_prompt()
        }
    }

    /// What is said on a screen after the end of the story.
    fn leave(&self) -> &'static str {
        if self.turns.can_undo() {
            LEAVE
        } else {
            ONLY_LEAVE
        }
    }

    /// Says how a saved game is named, if the user has not been told that before, and asks for the name again; and which
    /// name is offered. A screen has not asked yet.
    fn explain_names(&mut self) {
        if self.named.is_none() || !self.is_shown {
            return;
        }
        if self.drawn.is_some() {
            self.explain(NAME_ASKED);
            return;
        }
        if self.is_told(NAME_ASKED) {
            self.show_offer();
            return;
        }
        let _ = eprintln!(self.rt);
        self.explain(NAME_ASKED);
        self.show_prompt();
    }

    /// Says where the game is that was saved last, and the one that was set aside for it, if the user is to be told; and
    /// shows the prompt again. A screen has not shown it yet.
    fn tell_saved(&mut self) {
        let Some(named) = self.named else {
            return;
        };
        let (saved, older) = named.news();
        if saved.is_none() && older.is_none() {
            return;
        }
        if self.drawn.is_none() && !self.present_prompt().is_empty() {
            let _ = eprintln!(self.rt);
        }
        self.say("the game is in", &saved);
        self.say("the older game of this name is now", &older);
        if self.drawn.is_none() {
            self.show_prompt();
        }
    }

    /// Says something of a file, if it is there.
    fn say(&self, what: &str, name: &Option<String>) {
        if let Some(name) = name {
            let shown = OneLine(name.as_str());
            let _ = eprintln!(self.rt; "play: {what} {shown}");
        }
    }

    /// Whether the user has been told what an answer means.
    fn is_told(&self, name: &str) -> bool {
        for told in &self.told {
            if *told == name {
                return true;
            }
        }
        false
    }

    /// Says once what an answer means and what to do, if the user sees the transcript at a terminal.
    fn explain(&mut self, name: &'static str) {
        if !self.is_seen || self.is_told(name) {
            return;
        }
        let _ = self.told.push(name);
        advise_on_turn(self.rt, name, self.is_standard, self.turns.can_undo());
    }
}
