//! The states that a story keeps.

ghost use Rattle.std.specs.Prelude.{◌≡◌, ◌≤◌, ◌∷◌, [], drop, length, map, IfOk, OnOk, OnErr, MatchOption};
ghost use Rattle.zcore_standard.specs.Keeping as definitions;
ghost use Rattle.zcore_standard.specs.Keeping.{newest, with_newest, without_newest};

use std::alloc::{AllocError, Global};
use std::marker::Model;
use std::rc::Rc;

/// How many states a story keeps at most.
const MOST: usize = 100;

/// How many bytes their files have at most together, but for a single file that is greater.
const MOST_BYTES: usize = 524_288;

/// The states that a story keeps by `save_undo` (Z-Machine Standards Document 1.1, section 15), as
/// save files, the newest last. Copies share the files.
#[derive(Drop)]
pub struct KeptStates {
    files: Vec<Rc<Vec<u8>>>,

    /// Where files and lists of them come from.
    alloc: Global,
}

impl Model for KeptStates {
    ghost use Rattle.std.specs.Prelude.{List, ℕ, map};

    ghost Value = { List (List ℕ) };

    ghost view = { λ k. map (λ rc. rc.value.items) k.files.items };
}

impl KeptStates {
    /// No state. It takes no memory.
    pub fn none(alloc: Global) -> KeptStates
        ensures { result ≡ [] }
    {
        KeptStates {
            files: Vec::new(alloc),
            alloc,
        }
    }

    /// Where the file of a state that is kept here comes from.
    pub fn alloc(&self) -> Global {
        self.alloc
    }

    /// The same states. The files are not copied.
    ///
    /// # Errors
    ///
    /// Memory was refused.
    pub fn share(&self) -> Result<KeptStates, AllocError>
        ensures { IfOk result (λ copy. copy ≡ self.now) }
    {
        let files = share_files(self.alloc, self.files.as_slice())?;
        Ok(KeptStates {
            files,
            alloc: self.alloc,
        })
    }

    /// Keeps one state more. Where there is no room for it, the oldest go until there is: there are at
    /// most 100 states, with files of at most 524,288 bytes together, or one that is greater alone.
    ///
    /// # Errors
    ///
    /// Memory was refused, and nothing is changed.
    pub fn push(&mut self, file: Vec<u8>) -> Result<(), AllocError>
        ensures ok { OnOk result (self.new ≡ with_newest file.items self.old) }
        ensures err { OnErr result (self.new ≡ self.old) }
    {
        let too_old = count_too_old(self.files.as_slice(), file.len());
        let Ok(file) = Rc::new(self.alloc, file) else {
            return Err(AllocError);
        };
        self.files.push(file)?;
        drop_oldest(&mut self.files, too_old);
        Ok(())
    }

    /// The newest state, if one is kept.
    pub fn newest(&self) -> Option<&[u8]>
        ensures { MatchOption result (newest self.now ≡ [])
            (λ file. newest self.now ≡ file.now ∷ []) }
    {
        match self.files.as_slice().last() {
            Some(file) => Some(file.as_slice()),
            None => None,
        }
    }

    /// Keeps the newest state no longer.
    pub fn drop_newest(&mut self)
        ensures { self.new ≡ without_newest self.old }
    {
        drop(self.files.pop());
    }
}

/// The same files, which are not copied.
fn share_files(alloc: Global, files: &[Rc<Vec<u8>>]) -> Result<Vec<Rc<Vec<u8>>>, AllocError>
    ensures { IfOk result (λ copies. map (λ rc. rc.value.items) copies.items
        ≡ map (λ rc. rc.value.items) files.now) }
{
    let mut copies = Vec::new(alloc);
    copies.reserve(files.len())?;
    for file in files {
        copies.push(file.clone()?)?;
    }
    Ok(copies)
}

/// How many of the oldest files have to go, so that there is room for one of so many bytes.
fn count_too_old(files: &[Rc<Vec<u8>>], bytes: usize) -> usize
    ensures few { result ≤ length files.now }
    ensures left { drop result (map (λ rc. rc.value.items) files.now)
        ≡ definitions.room_for bytes (map (λ rc. rc.value.items) files.now) }
{
    for count in 0..files.len() {
        if has_room(&files[count..], bytes) {
            return count;
        }
    }
    files.len()
}

/// Whether a file of so many bytes can be kept beside others.
fn has_room(files: &[Rc<Vec<u8>>], bytes: usize) -> bool
    ensures { result ≡ definitions.has_room bytes (map (λ rc. rc.value.items) files.now) }
{
    if files.len() >= MOST || bytes > MOST_BYTES {
        return false;
    }
    let mut room = MOST_BYTES - bytes;
    for file in files {
        let length = file.len();
        if length > room {
            return false;
        }
        room -= length;
    }
    true
}

/// The oldest files go, so many of them.
fn drop_oldest(files: &mut Vec<Rc<Vec<u8>>>, count: usize)
    requires { count ≤ length files.old.items }
    ensures { files.new.items ≡ drop count files.old.items }
{
    for _ in 0..count {
        drop(files.remove(0));
    }
}
