//! What is typed at a terminal with a screen.

use crate::shared::Shared;
use crate::size::Size;
use std::fs::{self, File};
use std::io::{self, Read, Write};

/// How a line begins that asks for a size.
const RESIZE: &[u8] = b"/screen ";

/// The line that ends the input after the end of a story.
const EMPTY: &[u8] = b"\n";

/// What is typed at a terminal, without the lines that are for its screen: `/screen COLUMNSxROWS` sets the
/// size of the next replies, and so does the file that tells it, after each line since which that has
/// changed. After the end of the story an empty line ends the input. Each read gives a line.
#[derive(Drop)]
pub struct Keyboard<'a, R> {
    rt: &'a HostRuntime,
    reader: R,
    shared: &'a Shared<'a>,

    /// The size that the file told last.
    told: Option<Size>,
}

impl<'a, R: Read> Keyboard<'a, R> {
    /// What a reader gives.
    pub fn new(rt: &'a HostRuntime, reader: R, shared: &'a Shared<'a>) -> Keyboard<'a, R> {
        Keyboard {
            rt,
            reader,
            shared,
            told: None,
        }
    }

    /// Takes the size that the file tells, if that has changed.
    fn take_size(&mut self) {
        let Some(name) = self.shared.size_file else {
            return;
        };
        let told = size_in_file(self.rt, name);
        if told == self.told {
            return;
        }
        self.told = told;
        if let Some(size) = told {
            self.shared.size.set(size);
        }
    }

    /// Does what a line asks that is for the screen. Says whether it is one.
    fn obey(&self, typed: &[u8]) -> bool {
        let Some(line) = typed.strip_suffix(b"\n") else {
            return false;
        };
        let Some(size) = line.strip_prefix(RESIZE) else {
            return false;
        };
        match Size::read(size) {
            Some(size) => {
                self.shared.size.set(size);
                let Size { columns, rows } = size;
                let _ = eprintln!(self.rt; "play: the next reply is drawn at {columns}x{rows}");
            }
            None => {
                let _ = eprintln!(self.rt; "play: a size is COLUMNSxROWS, from 20x5 to 255x255");
            }
        }
        self.show_prompt();
        true
    }

    /// Shows the prompt again, after a notice.
    fn show_prompt(&self) {
        if let Some(prompt) = self.shared.prompt.replace(None) {
            let _ = self.rt.stderr().write_all(&prompt);
            self.shared.prompt.set(Some(prompt));
        }
    }
}

/// How many bytes of a file are read that tells a size: more than it has.
const LONGEST: usize = 16;

/// The size that a file tells; `None` where there is no such file, or it holds anything else.
fn size_in_file(rt: &HostRuntime, name: &str) -> Option<Size> {
    let metadata = fs::metadata(rt, name).ok()?;
    if !metadata.is_file() {
        return None;
    }
    let mut file = File::open(rt, name).ok()?;
    let mut text = [0u8; LONGEST];
    match file.read(&mut text) {
        Ok(count) => Size::told(&text[..count]),
        Err(_) => None,
    }
}

impl<R: Read> Read for Keyboard<'_, R> {
    fn read(&mut self, buf: &mut [u8]) -> io::Result<usize> {
        for _ in 0..u64::MAX {
            let count = self.reader.read(buf)?;
            self.take_size();
            let typed = &buf[..count];
            if typed == EMPTY && self.shared.is_over.get() {
                return Ok(0);
            }
            if !self.obey(typed) {
                return Ok(count);
            }
        }
        Ok(0)
    }
}
