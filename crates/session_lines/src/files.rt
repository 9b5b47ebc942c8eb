//! Files of saved games, and the transcript of a story.

ghost use Rattle.std.specs.Prelude.{◌≡◌, ◌∷◌, [], List, Option, None, IfOk, OnOk, OnErr};
ghost use Rattle.session_lines.specs.Files as acts;
ghost use Rattle.session_lines.specs.Files.{EndsWithLook, FileAct, Logs, recalled_if, seen_by};

/// Why a file is not written, or not read.
#[derive(Clone, Copy, Debug, PartialEq, Eq)]
pub enum FilesFault {
    /// There is no such file, or it cannot be read or written.
    File,

    /// Memory was refused.
    Memory,
}

/// Where the files of saved games are. Names have letters, digits, hyphens, underscores and dots, do not
/// begin with a dot, and end with `.qzl`.
pub trait Files {
    // What was looked at, written and read, the first first, where that is known.
    ghost log: { Self → Option (List FileAct) };

    /// What was given for the present name in an earlier run, added to an empty text: then no file is
    /// looked at. It answers false where there was none.
    ///
    /// # Errors
    ///
    /// `File` where it was lost: the run ends then. `Memory`: memory was refused, and the line is not taken.
    fn recorded(&mut self, given: &mut Vec<u8>) -> Result<bool, FilesFault>
        ensures ok { IfOk result (λ is_known.
            Logs (log self.old) (log self.new) (recalled_if is_known given.new.items)) }
        ensures err { OnErr result (log self.new ≡ log self.old) };

    /// Keeps what is given for a name, before the story is given it.
    ///
    /// # Errors
    ///
    /// It cannot be kept: the run ends then.
    fn keep(&mut self, given: &[u8]) -> Result<(), FilesFault>
        ensures { log self.new ≡ log self.old };

    /// Whether anything has a name. The first bytes of a plain file are added to an empty text, at most
    /// so many.
    ///
    /// # Errors
    ///
    /// It cannot be looked at; memory was refused.
    fn look(&mut self, name: &[u8], most: usize, head: &mut Vec<u8>) -> Result<bool, FilesFault>
        ensures ok { IfOk result (λ is_there.
            Logs (log self.old) (log self.new) (acts.looked name.now (seen_by is_there head.new.items) ∷ [])) }
        ensures err { OnErr result (log self.new ≡ log self.old) };

    /// Adds the bytes of a plain file to an empty text, at most so many.
    ///
    /// # Errors
    ///
    /// There is no plain file of this name, or it cannot be read; memory was refused.
    fn read(&mut self, name: &[u8], most: usize, bytes: &mut Vec<u8>) -> Result<(), FilesFault>
        ensures ok { OnOk result
            (Logs (log self.old) (log self.new) (acts.read name.now bytes.new.items ∷ [])) }
        ensures err { OnErr result (log self.new ≡ log self.old) };

    /// Writes a file under a name of its own, and then gives it this name, so that an older file is whole
    /// or replaced. What has the name is looked at before.
    ///
    /// # Errors
    ///
    /// It cannot be written: an older file is as it was.
    fn write(&mut self, name: &[u8], bytes: &[u8]) -> Result<(), FilesFault>
        requires { EndsWithLook (log self.old) name.now }
        ensures ok { OnOk result
            (Logs (log self.old) (log self.new) (acts.wrote name.now bytes.now ∷ [])) }
        ensures err { OnErr result (log self.new ≡ log self.old) };

    /// Adds bytes to the transcript of the story, which is stream 2. It only ever grows. Where they cannot be
    /// written, the user is told so, and the play goes on.
    fn script(&mut self, bytes: &[u8])
        ensures { Logs (log self.old) (log self.new) (acts.scripted bytes.now ∷ []) };

    /// Notes that the line which is being answered is not taken for want of memory, before the user is told so.
    ///
    /// # Errors
    ///
    /// That cannot be kept, or the line was taken in an earlier run: the run ends then.
    fn pass(&mut self) -> Result<(), FilesFault>
        ensures { log self.new ≡ log self.old }
    {
        Ok(())
    }
}

/// No files: for programs that have none. Nothing is asked of it where the story has no save files and no
/// transcript.
#[derive(Clone, Copy, Debug)]
pub struct NoFiles;

impl Files for NoFiles {
    ghost log = { λ f. None };

    fn recorded(&mut self, _given: &mut Vec<u8>) -> Result<bool, FilesFault> {
        Ok(false)
    }

    fn keep(&mut self, _given: &[u8]) -> Result<(), FilesFault> {
        Ok(())
    }

    fn look(
        &mut self,
        _name: &[u8],
        _most: usize,
        _head: &mut Vec<u8>,
    ) -> Result<bool, FilesFault> {
        Ok(false)
    }

    fn read(&mut self, _name: &[u8], _most: usize, _bytes: &mut Vec<u8>) -> Result<(), FilesFault> {
        Err(FilesFault::File)
    }

    fn write(&mut self, _name: &[u8], _bytes: &[u8]) -> Result<(), FilesFault> {
        Err(FilesFault::File)
    }

    fn script(&mut self, _bytes: &[u8]) {}
}
