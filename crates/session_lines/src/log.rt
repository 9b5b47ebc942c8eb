//! A log of what was done to files, which only proofs read.

ghost use Rattle.std.specs.Prelude.{◌≡◌, ◌++◌, List, [], ◌∷◌};
ghost use Rattle.std.specs.Borrow.{ftrue};
ghost use Rattle.session_lines.specs.Files.{FileAct};
ghost use Rattle.session_lines.specs.Logged.{acts_code};

use std::marker::Model;

/// A log of what was done to files. It has no bytes, and nothing is done where an act is noted: that each note stands
/// beside the call that it tells of has to be read.
#[derive(Drop)]
pub struct Log {
    pub ghost acts: { List FileAct } by { acts_code },
}

impl Model for Log {
    ghost also_owns = { λ _. ftrue };
}

/// What is noted of files.
#[derive(Clone, Copy, Drop)]
pub enum Note<'a> {
    /// What has a name was looked at: whether anything has it, and the first bytes of a plain file.
    Looked(&'a [u8], bool, &'a [u8]),

    /// A file of a name was written with these bytes.
    Wrote(&'a [u8], &'a [u8]),

    /// These bytes of a file of a name were read.
    Read(&'a [u8], &'a [u8]),

    /// This was given for a name again, as in an earlier run.
    Recalled(&'a [u8]),

    /// These bytes were given to the transcript of the story.
    Scripted(&'a [u8]),
}

impl Log {
    ghost use Rattle.session_lines.specs.Noted.{act_of};

    /// A log without acts.
    pub fn new() -> Log
        ensures { result.acts ≡ [] }
    {
        Log {}
    }

    /// The log with an act more.
    pub fn then(&self, _note: &Note<'_>) -> Log
        ensures { result.acts ≡ self.now.acts ++ act_of _note.now ∷ [] }
    {
        Log {}
    }
}
