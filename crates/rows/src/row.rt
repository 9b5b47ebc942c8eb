//! One row.

use crate::damage::put_damaged;
use crate::journals::put_recorded;
use crate::names::{Call, RowError, Setting, Shown, number_in, parted};
use crate::sessions::put_session;
use crate::sources::put_compiled;
use crate::stories::{Definition, bytes_in, mend, put_at, put_text_at};
use crate::texts::{put_decoded, put_encoded, put_key, put_shortened};
use crate::turns::put_by_hand;
use std::alloc::Global;

/// A row whose lines are being read.
#[derive(Drop)]
pub struct Row {
    setting: Setting,

    /// The story, as far as it is made byte by byte.
    story: Vec<u8>,

    /// The calls of a session, or the words and the steps with them.
    calls: Vec<Call>,

    /// What is shown of the row: its title, and what came of it.
    shown: Shown,

    /// Whether something came of it already.
    has_outcome: bool,
}

impl Row {
    /// A row of which no line was read.
    pub fn new(alloc: Global) -> Row {
        Row {
            setting: Setting::new(alloc),
            story: Vec::new(alloc),
            calls: Vec::new(alloc),
            shown: Shown::new(alloc),
            has_outcome: false,
        }
    }

    /// Takes the line with a number: its first word says what the text after it is.
    pub fn take(
        &mut self,
        definitions: &mut Vec<Definition>,
        line: &str,
        number: u64,
    ) -> Result<(), RowError> {
        let (word, text) = parted(line);
        match word {
            "#" => Ok(()),
            "--" => {
                self.shown.text("-- ");
                self.shown.text(text);
                self.shown.text("\n");
                Ok(())
            }
            "put" => put_text_at(&mut self.story, self.setting.alloc, text),
            "cut" => {
                self.story.truncate(number_in(text)?);
                Ok(())
            }
            "mend" => mend(&mut self.story),
            "define" => self.define(definitions, text),
            _ if self.setting.takes(word, text)? => Ok(()),
            _ => {
                for definition in definitions.iter() {
                    if definition.name.as_str() == word {
                        return self.begin(definition, text);
                    }
                }
                self.has_outcome = true;
                self.act(line, number, word, text)
            }
        }
    }

    /// Gives the story a name, with the place where rows put their bytes.
    fn define(&mut self, definitions: &mut Vec<Definition>, text: &str) -> Result<(), RowError> {
        let (name, place) = text.split_once(' ').ok_or(RowError::Number)?;
        let place = number_in(place)?;
        let story = self.story.to_vec(self.setting.alloc)?;
        let name = String::from_str(self.setting.alloc, name)?;
        definitions.push(Definition { name, place, story })?;
        self.has_outcome = true;
        Ok(())
    }

    /// Begins with a story that has a name, and with the bytes of a text in it.
    fn begin(&mut self, definition: &Definition, text: &str) -> Result<(), RowError> {
        self.story.clear();
        self.story.extend_from_slice(&definition.story)?;
        let bytes = bytes_in(self.setting.alloc, text)?;
        put_at(&mut self.story, definition.place, &bytes)?;
        mend(&mut self.story)
    }

    /// Does what a line says. Calls of a session, and steps with words, wait for the row's end.
    fn act(&mut self, line: &str, number: u64, word: &str, text: &str) -> Result<(), RowError> {
        let shown = &mut self.shown;
        let alloc = self.setting.alloc;
        match word {
            "encode" => put_encoded(shown, alloc, text),
            "shorten" => put_shortened(shown, alloc, text),
            "decode" => put_decoded(shown, alloc, &self.story, text),
            "key" => put_key(shown, alloc, text),
            "memory" => put_by_hand(shown, &self.setting, &self.story, word, text),
            "record" => {
                put_by_hand(shown, &self.setting, &self.story, word, text)?;
                let line = String::from_str(alloc, line)?;
                let calls = vec![in alloc; Call { number, line }]?;
                let mut latest = number;
                put_session(shown, &self.setting, &self.story, &calls, &mut latest)?;
                Ok(())
            }
            "damage" => put_damaged(shown, &self.setting, &self.story),
            _ if is_call(word) => {
                let line = String::from_str(alloc, line)?;
                self.calls.push(Call { number, line })?;
                Ok(())
            }
            _ => Err(RowError::Word),
        }
    }

    /// What the row shows, once all its lines are read. `number` becomes that of the latest call.
    pub fn outcome(&mut self, number: &mut u64) -> Result<&[u8], RowError> {
        self.play(number)?;
        if !self.shown.is_empty() {
            self.shown.text("\n");
        }
        self.shown.taken()
    }

    /// Makes the calls of a session, or takes the steps with words. A row of which nothing came is
    /// played: its story; where it has a title and no story, that of its source.
    fn play(&mut self, number: &mut u64) -> Result<(), RowError> {
        let shown = &mut self.shown;
        let setting = &self.setting;
        let is_played = !self.has_outcome && !self.story.is_empty();
        if let Some((first, steps)) = self.calls.as_slice().split_first() {
            *number = first.number;
            let (word, text) = parted(first.line.as_str());
            if word == "words" {
                return put_recorded(shown, setting.alloc, text, steps, number);
            }
        }
        if is_played || !self.calls.is_empty() {
            put_session(shown, setting, &self.story, &self.calls, number)?;
        } else if !self.has_outcome && !shown.is_empty() {
            put_compiled(shown, setting);
        }
        Ok(())
    }
}

/// Whether a word calls a session, or begins with words or takes a step with them.
fn is_call(word: &str) -> bool {
    matches!(
        word,
        "reply" | "undo" | "redo" | "status" | "cells" | "words" | "write" | "close" | "abandon"
    )
}
