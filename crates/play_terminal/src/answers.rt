//! What was written of a transcript, as a user at a terminal is told more of it.

use messages_explanations::Program;
use std::str;
use terminal::mark_length;

/// What the player answers that the story does not know of.
const NOTICES: [(&[u8], Latest); 7] = [
    (b"[The story is over.]\n", Latest::Over),
    (b"[Undone.]\n", Latest::Undone),
    (b"[Nothing to undo.]\n", Latest::Notice),
    (b"[Nothing to redo.]\n", Latest::Notice),
    (b"[Line refused.]\n", Latest::Refused),
    (b"[No status line.]\n", Latest::Notice),
    (b"[No memory: line not taken.]\n", Latest::NoMemory),
];

/// How the text of a runtime fault begins, after which the story quits.
const FAULT: &[u8] = b"[Fault: ";

/// How the text of a machine fault begins; the name of the fault follows.
const MACHINE_FAULT: &[u8] = b"[Machine fault: ";

/// How the texts of faults and limits end.
const END: &[u8] = b"]\n";

/// The texts of limits, and by which names they are explained.
const LIMITS: [(&[u8], &str); 3] = [
    (b"[Limit: turn too long", "limit-turn"),
    (b"[Limit: calls too deep", "limit-calls"),
    (b"[Limit: text too long", "limit-text"),
];

/// What the player asks where the story saves or restores a game.
const NAME_PROMPT: &[u8] = b"Name of the saved game: ";

/// What was written last.
#[derive(Clone, Copy)]
pub enum Latest {
    /// What the story wrote.
    Story,

    /// The same, and the player asks for the name of a saved game.
    Name,

    /// The same, with a runtime fault at its end.
    Fault,

    /// The same, and by what it was stopped: a machine fault or a limit, by the name of its explanation.
    Stopped(&'static str),

    /// That the story is over.
    Over,

    /// That a turn was taken back.
    Undone,

    /// That a line was refused.
    Refused,

    /// That a line was not taken for want of memory.
    NoMemory,

    /// Another notice after which the story waits as before.
    Notice,
}

impl Latest {
    /// What a text is that is written.
    pub fn of(text: &[u8]) -> Latest {
        for known in &NOTICES {
            if text == known.0 {
                return known.1;
            }
        }
        match text.strip_suffix(END) {
            Some(text) => of_line(last_line(text)),
            None if asks_name(last_line(text)) => Latest::Name,
            None => Latest::Story,
        }
    }

    /// Whether the story wrote it.
    pub fn is_of_story(self) -> bool {
        matches!(
            self,
            Latest::Story | Latest::Name | Latest::Fault | Latest::Stopped(_)
        )
    }
}

/// Whether the last line of a text asks for the name of a saved game.
pub fn asks_name(line: &[u8]) -> bool {
    without_mark(line) == NAME_PROMPT
}

/// What a text of the story is by its last line, of which the end was cut off.
fn of_line(line: &[u8]) -> Latest {
    let line = without_mark(line);
    if line.starts_with(FAULT) {
        return Latest::Fault;
    }
    for limit in &LIMITS {
        if line == limit.0 {
            return Latest::Stopped(limit.1);
        }
    }
    match machine_fault(line) {
        Some(name) => Latest::Stopped(name),
        None => Latest::Story,
    }
}

/// A line of the player without the mark that ends a style of the story before it.
fn without_mark(line: &[u8]) -> &[u8] {
    &line[mark_length(line)..]
}

/// The name of a machine fault, if a line has one.
fn machine_fault(line: &[u8]) -> Option<&'static str> {
    let name = str::from_utf8(line.strip_prefix(MACHINE_FAULT)?).ok()?;
    let explanation = Program::Play.explanations().find(name)?;
    Some(explanation.name)
}

/// What of a text is after its last new line.
pub fn last_line(text: &[u8]) -> &[u8] {
    for after in 0..text.len() {
        let place = text.len() - after;
        if text[place - 1] == b'\n' {
            return &text[place..];
        }
    }
    text
}
