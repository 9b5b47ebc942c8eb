//! Saved games of a session, what its story was given for their names, and its transcript.

ghost use Rattle.std.specs.Prelude.{Some};

use crate::folder::{Folder, check_folder};
use crate::named::Named;
use crate::stop::Lost;
use session_keeping::{Answer, Progress, Script, check_script, keep_answer, keep_passed};
use session_lines::{Files, FilesFault, Log, Note};
use std::alloc::Global;
use std::cell::Cell;
use std::collections::VecDeque;
use std::fs::File;
use std::process::ExitCode;
use terminal::play::Words;

/// Refuses a folder of saved games and a file of the transcript that the command line names, where they cannot be
/// used.
///
/// # Errors
///
/// The status with which the program ends, which has said why.
pub fn check_files(rt: &HostRuntime, words: Words<'_>) -> Result<(), ExitCode> {
    if let Some(folder) = words.saves {
        check_folder(rt, folder)?;
    }
    match words.transcript {
        Some(file) => check_script(rt, file, &words),
        None => Ok(()),
    }
}

/// Where the games of a session are saved, and where its story's transcript goes.
#[derive(Drop)]
pub(crate) struct Saves<'a> {
    alloc: Global,

    /// The folder; none where the story can save nothing.
    folder: Option<Folder<'a>>,

    /// The file of the transcript; none where the story can write none.
    script: Option<Script<'a>>,

    /// Where the session is kept, if it is.
    kept: Option<Answers<'a>>,

    /// What was done to files.
    log: Log,
}

/// What the story of a session that is kept was given for names.
#[derive(Drop)]
pub(crate) struct Answers<'a> {
    /// The session's file.
    pub file: &'a File,

    /// What it was given before, in order.
    pub before: VecDeque<Answer>,

    /// How many lines were typed before.
    pub lines: usize,

    /// How far the session has come.
    pub progress: &'a Progress,

    /// The line that is not as it was, if one is not.
    pub lost: &'a Cell<Option<Lost>>,

    /// Whether the line that is being answered is a name that was not taken before, by a session's file without a
    /// mark of that.
    pub is_passed: Cell<bool>,

    /// Whether an answer or a mark could not be kept, or an answer not be given again for want of memory.
    pub is_broken: &'a Cell<bool>,
}

impl<'a> Saves<'a> {
    /// The saved games in a folder, if there is one, and the transcript in a file, of a session that is kept or not, and
    /// where a user types names or none does.
    pub(crate) fn new(
        rt: &'a HostRuntime,
        folder: Option<&'a str>,
        named: Option<&'a Named<'a>>,
        script: Option<Script<'a>>,
        kept: Option<Answers<'a>>,
    ) -> Saves<'a> {
        let folder = match folder {
            Some(name) => Some(Folder::new(rt, name, named)),
            None => None,
        };
        Saves {
            alloc: rt.alloc(),
            folder,
            script,
            kept,
            log: Log::new(),
        }
    }

    /// Without a folder and a transcript, of a session that is kept and played again: no file is written.
    pub(crate) fn of_answers(rt: &'a HostRuntime, answers: Answers<'a>) -> Saves<'a> {
        Saves {
            alloc: rt.alloc(),
            folder: None,
            script: None,
            kept: Some(answers),
            log: Log::new(),
        }
    }

    /// Whether the lines of a session that goes on are being played again: then all was written before.
    fn is_again(&self) -> bool {
        match &self.kept {
            Some(kept) => !kept.progress.is_over.get(),
            None => false,
        }
    }
}

impl Answers<'_> {
    /// Adds what the story was given for the line that is being answered, if it was answered before. A line that
    /// has no answer, and after which others were typed, was not taken for want of memory, and is not taken again.
    fn recall(&mut self, given: &mut Vec<u8>) -> Result<bool, FilesFault> {
        if self.progress.is_over.get() {
            return Ok(false);
        }
        let line = self.progress.lines.get();
        let next = match self.before.front() {
            Some(answer) => answer.line,
            None => self.lines,
        };
        if line < next {
            self.is_passed.set(true);
            return Err(FilesFault::Memory);
        }
        match self.before.pop_front() {
            Some(answer) => self.give(answer, line, given),
            None => Err(self.lose(line)),
        }
    }

    /// Adds what the story was given for a line, which must be this one.
    fn give(&self, answer: Answer, line: usize, given: &mut Vec<u8>) -> Result<bool, FilesFault> {
        if answer.line != line {
            return Err(self.lose(line));
        }
        if given.extend_from_slice(&answer.given).is_err() {
            self.is_broken.set(true);
            return Err(FilesFault::File);
        }
        Ok(true)
    }

    /// Notes that the answer to a line is lost.
    fn lose(&self, line: usize) -> FilesFault {
        let is_last = line == self.lines;
        self.lost.set(Some(Lost::Answer { line, is_last }));
        FilesFault::File
    }

    /// Keeps the mark of the line that is being answered, which is not taken for want of memory. A line that was taken
    /// before has none, and the run ends; but for a name that was not taken before.
    fn pass(&self) -> Result<(), FilesFault> {
        if self.progress.is_over.get() {
            let mut file = self.file;
            return match keep_passed(&mut file) {
                Ok(()) => Ok(()),
                Err(_) => {
                    self.is_broken.set(true);
                    Err(FilesFault::File)
                }
            };
        }
        if self.is_passed.replace(false) {
            return Ok(());
        }
        let line = self.progress.lines.get();
        self.lost.set(Some(Lost::Line(line)));
        Err(FilesFault::File)
    }
}

impl Files for Saves<'_> {
    ghost log = { λ saves. Some saves.log.acts };

    fn recorded(&mut self, given: &mut Vec<u8>) -> Result<bool, FilesFault> {
        let Some(kept) = &mut self.kept else {
            return Ok(false);
        };
        if !kept.recall(given)? {
            return Ok(false);
        }
        self.log = self.log.then(&Note::Recalled(given.as_slice()));
        Ok(true)
    }

    fn keep(&mut self, given: &[u8]) -> Result<(), FilesFault> {
        let Some(kept) = &self.kept else {
            return Ok(());
        };
        let mut file = kept.file;
        match keep_answer(self.alloc, &mut file, given) {
            Ok(()) => Ok(()),
            Err(_) => {
                kept.is_broken.set(true);
                Err(FilesFault::File)
            }
        }
    }

    fn look(&mut self, name: &[u8], most: usize, head: &mut Vec<u8>) -> Result<bool, FilesFault> {
        match self.folder {
            Some(folder) => folder.look(name, most, head, &mut self.log),
            None => Err(FilesFault::File),
        }
    }

    fn read(&mut self, name: &[u8], most: usize, bytes: &mut Vec<u8>) -> Result<(), FilesFault> {
        match self.folder {
            Some(folder) => folder.read(name, most, bytes, &mut self.log),
            None => Err(FilesFault::File),
        }
    }

    fn write(&mut self, name: &[u8], bytes: &[u8]) -> Result<(), FilesFault> {
        match self.folder {
            Some(folder) => folder.write(name, bytes, &mut self.log),
            None => Err(FilesFault::File),
        }
    }

    fn script(&mut self, bytes: &[u8]) {
        self.log = self.log.then(&Note::Scripted(bytes));
        if self.is_again() {
            return;
        }
        if let Some(script) = &mut self.script {
            script.add(bytes);
        }
    }

    fn pass(&mut self) -> Result<(), FilesFault> {
        match &self.kept {
            Some(kept) => kept.pass(),
            None => Ok(()),
        }
    }
}
