//! Keys and commands that a user at a terminal types.

ghost use Rattle.std.specs.Prelude.{◌≡◌, ◌≤◌, length};

use std::alloc::AllocError;
use std::cell::Cell;
use std::io::{self, IsTerminal, Read, Write};
use terminal::play::Words;
use terminal::without_keys;

/// What is said at the first wait for a key.
const KEY_AWAITED: &str =
    "play: type a key and Enter; arrows: /key up, /key down, /key left, /key right";

/// What is said of a line that begins like a command and is none.
const UNKNOWN: &str = "play: no such command; there are /undo, /redo";

/// How a command of the player begins.
const COMMAND: u8 = b'/';

/// What a terminal sends for keys, and the lines that stand for them where the story waits for a key.
const KEYS: [(&[u8], &[u8]); 9] = [
    (b"\x1b[A\n", b"/key up\n"),
    (b"\x1b[B\n", b"/key down\n"),
    (b"\x1b[C\n", b"/key right\n"),
    (b"\x1b[D\n", b"/key left\n"),
    (b"\x1bOA\n", b"/key up\n"),
    (b"\x1bOB\n", b"/key down\n"),
    (b"\x1bOC\n", b"/key right\n"),
    (b"\x1bOD\n", b"/key left\n"),
    (b"\x1b\n", b"/key escape\n"),
];

/// What the run of a session, the reader of a terminal and what tells its user more tell each other of keys.
#[derive(Drop)]
pub(crate) struct Keys<'a> {
    rt: &'a HostRuntime,

    /// Whether lines are typed at a terminal.
    is_typed: bool,

    /// Whether their user sees the transcript there, too.
    is_shown: bool,

    /// Whether the story may use every opcode of the Standard.
    is_standard: bool,

    /// Whether the story is drawn on a screen.
    is_drawn: bool,

    /// Whether the story waits for a key.
    pub(crate) is_awaited: Cell<bool>,

    /// Whether the user has not been told yet how keys are typed.
    is_new: Cell<bool>,

    /// The prompt at which the user sees the story wait, if that is not drawn on a screen.
    pub(crate) prompt: Cell<Option<Vec<u8>>>,
}

impl<'a> Keys<'a> {
    /// What is told of keys in a story that is played as these words say, and drawn on a screen or not.
    pub(crate) fn new(rt: &'a HostRuntime, words: &Words<'_>, is_drawn: bool) -> Keys<'a> {
        let is_typed = rt.stdin().is_terminal();
        Keys {
            rt,
            is_typed,
            is_shown: is_typed && rt.stdout().is_terminal(),
            is_standard: words.seed.is_some(),
            is_drawn,
            is_awaited: Cell::new(false),
            is_new: Cell::new(true),
            prompt: Cell::new(None),
        }
    }

    /// Whether the user is to be told now how keys are typed: once, where the story waits for one.
    fn is_due(&self) -> bool {
        self.is_shown && self.is_awaited.get() && self.is_new.replace(false)
    }

    /// Says how keys are typed, if the user is to be told, in a row of a screen of its own.
    pub(crate) fn tell(&self) {
        if self.is_due() {
            let _ = eprintln!(self.rt; "{KEY_AWAITED}");
        }
    }

    /// The same after a prompt of a transcript that is not drawn on a screen, which is shown again.
    fn tell_after_prompt(&self) {
        if self.is_drawn || !self.is_due() {
            return;
        }
        let prompt = self.prompt.replace(None);
        if let Some(prompt) = &prompt {
            if !prompt.is_empty() {
                let _ = eprintln!(self.rt);
            }
        }
        self.prompt.set(prompt);
        let _ = eprintln!(self.rt; "{KEY_AWAITED}");
        show_prompt(self.rt, &self.prompt);
    }

    /// Takes the sequences of keys out of what was typed, the first bytes, as many as this number; where the story
    /// waits for a key, a line stands for that of an arrow or of Escape. It answers how many bytes there are now.
    fn take_keys(&self, room: &mut [u8], count: usize) -> usize
        requires { count ≤ length room.old }
        ensures same { length room.new ≡ length room.old }
        ensures within { result ≤ length room.new }
    {
        let Ok(line) = self.line_for(&room[..count]) else {
            return count;
        };
        if line.len() <= room.len() {
            put(&line, room)
        } else {
            count
        }
    }

    /// What a typed line is without the sequences of keys.
    fn line_for(&self, typed: &[u8]) -> Result<Vec<u8>, AllocError> {
        let alloc = self.rt.alloc();
        if self.is_awaited.get() {
            for key in &KEYS {
                if typed == key.0 {
                    return Vec::from_slice(alloc, key.1);
                }
            }
        }
        without_keys(alloc, typed)
    }

    /// Whether a typed line begins like a command of the player and is none, where the story waits for a line. One byte
    /// alone is a line for the story.
    fn is_unknown(&self, typed: &[u8]) -> bool {
        if !self.is_shown || self.is_awaited.get() {
            return false;
        }
        match typed.strip_suffix(b"\n") {
            Some(line) => is_worded(line) && !self.is_command(line),
            None => false,
        }
    }

    /// Whether a line is a command.
    fn is_command(&self, line: &[u8]) -> bool {
        let is_turn = line == b"/undo".as_slice() || line == b"/redo".as_slice();
        let is_status = self.is_standard && line == b"/status".as_slice();
        is_turn || is_status || (self.is_drawn && line.starts_with(b"/screen "))
    }

    /// Says that there is no such command, and which there are.
    fn refuse(&self) {
        let _ = if self.is_drawn {
            eprintln!(self.rt; "{UNKNOWN}, /status, /screen COLUMNSxROWS")
        } else if self.is_standard {
            eprintln!(self.rt; "{UNKNOWN}, /status")
        } else {
            eprintln!(self.rt; "{UNKNOWN}")
        };
    }
}

/// Whether a line begins like a command, and has more.
fn is_worded(line: &[u8]) -> bool {
    line.len() > 1 && line[0] == COMMAND
}

/// Shows again the prompt that a cell has.
fn show_prompt(rt: &HostRuntime, cell: &Cell<Option<Vec<u8>>>) {
    if let Some(prompt) = cell.replace(None) {
        let _ = rt.stderr().write_all(&prompt);
        cell.set(Some(prompt));
    }
}

/// Puts a line at the beginning of bytes, and says how many bytes it has.
fn put(line: &[u8], room: &mut [u8]) -> usize
    requires { length line.now ≤ length room.old }
    ensures same { length room.new ≡ length room.old }
    ensures within { result ≤ length room.new }
{
    let count = line.len();
    room[..count].copy_from_slice(line);
    count
}

/// A reader of lines that are typed at a terminal, each of them in a read of its own. It takes the sequences of keys out
/// of them, and answers lines that begin like a command and are none: the story is not given these. Before the first
/// wait for a key it says how keys are typed. Lines that are not typed at a terminal are given on as they are.
#[derive(Drop)]
pub(crate) struct TypedKeys<'a, R> {
    reader: R,
    keys: &'a Keys<'a>,

    /// The prompt at which the user sees the story wait.
    prompt: &'a Cell<Option<Vec<u8>>>,
}

impl<'a, R: Read> TypedKeys<'a, R> {
    /// The lines of a reader.
    pub(crate) fn new(
        reader: R,
        keys: &'a Keys<'a>,
        prompt: &'a Cell<Option<Vec<u8>>>,
    ) -> TypedKeys<'a, R> {
        TypedKeys {
            reader,
            keys,
            prompt,
        }
    }
}

impl<R: Read> Read for TypedKeys<'_, R> {
    fn read(&mut self, buf: &mut [u8]) -> io::Result<usize> {
        for _ in 0..u64::MAX {
            self.keys.tell_after_prompt();
            let count = self.reader.read(buf)?;
            if count == 0 || !self.keys.is_typed {
                return Ok(count);
            }
            let count = self.keys.take_keys(buf, count);
            if self.keys.is_unknown(&buf[..count]) {
                self.keys.refuse();
                show_prompt(self.keys.rt, self.prompt);
            } else if count > 0 {
                return Ok(count);
            }
        }
        Ok(0)
    }
}
