//! What a story that asks for the name of a saved game is given for a line.

ghost use Rattle.std.specs.Prelude.{◌≡◌, Some};
ghost use Rattle.session.specs.Files.{file_on};
ghost use Rattle.session.specs.Game.{InEach, asked_for_on};
ghost use Rattle.session.specs.Given.{is_own_with};
ghost use Rattle.session_run.specs.Acts.{is_own_on};
ghost use Rattle.session_run.specs.Given.{IsAnsweredFor, IsGiven, MayWrite};
ghost use Rattle.session_lines.specs.Answers.{IsAnswered};
ghost use Rattle.session_lines.specs.Files.{acts_for, may_be_written, seen_by};
ghost use Rattle.session_lines.specs.Names as definitions;
ghost use Rattle.zcore_standard.specs.declared.save_form.Purpose.TheVariants.{Saving};

use session::Session;
use session_lines::{
    Files, FilesFault, GivenFault, NO_NAME, NOT_WRITTEN, OTHER_FILE, file_name, is_name, load,
    numbered, store,
};
use std::alloc::Global;
use zcore_standard::Purpose;

/// How many bytes tell whether a file is a save file of the story.
const HEAD: usize = 30;

/// What a story that asks for a name is given for a line. What the outside answers is kept before.
///
/// # Errors
///
/// Those of [`GivenFault`]. A file may have been written even then.
pub fn given_for<F: Files>(
    alloc: Global,
    session: &Session,
    files: &mut F,
    purpose: Purpose,
    line: &[u8],
) -> Result<Vec<u8>, GivenFault>
    requires { InEach session.now (λ game s. asked_for_on game s.done ≡ Some purpose) }
    ensures { InEach session.now (λ game s.
        IsGiven game s.done line.now (F.log files.old) (F.log files.new) result) }
{
    let mut given = Vec::new(alloc);
    if line.is_empty() {
        return Ok(given);
    }
    if !is_name(line) {
        given.push(NO_NAME)?;
        return Ok(given);
    }
    match files.recorded(&mut given) {
        Ok(true) => Ok(given),
        Ok(false) => given_by(alloc, session, files, purpose, line),
        Err(FilesFault::File) => Err(GivenFault::Unkept),
        Err(FilesFault::Memory) => Err(GivenFault::Memory),
    }
}

/// What files answer for a name, which is kept then.
fn given_by<F: Files>(
    alloc: Global,
    session: &Session,
    files: &mut F,
    purpose: Purpose,
    line: &[u8],
) -> Result<Vec<u8>, GivenFault>
    requires { InEach session.now (λ game s. asked_for_on game s.done ≡ Some purpose) }
    ensures { InEach session.now (λ game s.
        IsAnsweredFor (is_own_on game)
        (acts_for (Some purpose) (definitions.file_name line.now) (file_on game s.done))
        (F.log files.old) (F.log files.new) result) }
{
    let name = file_name(alloc, line)?;
    let given = answer_with(alloc, session, files, purpose, &name)?;
    match files.keep(&given) {
        Ok(()) => Ok(given),
        Err(_) => Err(GivenFault::Unkept),
    }
}

/// What files answer for the name of one.
fn answer_with<F: Files>(
    alloc: Global,
    session: &Session,
    files: &mut F,
    purpose: Purpose,
    name: &[u8],
) -> Result<Vec<u8>, GivenFault>
    requires { InEach session.now (λ game s. asked_for_on game s.done ≡ Some purpose) }
    ensures { InEach session.now (λ game s.
        IsAnsweredFor (is_own_on game) (acts_for (Some purpose) name.now (file_on game s.done))
        (F.log files.old) (F.log files.new) result) }
{
    match purpose {
        Purpose::Saving => save(alloc, session, files, name),
        Purpose::Restoring => load(alloc, files, name),
    }
}

/// Writes the file of the present state, where nothing has the name, or only a save file of the story. Where
/// "success" cannot be answered nothing is written: whatever the story is given, that is its fault.
fn save<F: Files>(
    alloc: Global,
    session: &Session,
    files: &mut F,
    name: &[u8],
) -> Result<Vec<u8>, GivenFault>
    requires { InEach session.now (λ game s. asked_for_on game s.done ≡ Some Saving) }
    ensures { InEach session.now (λ game s.
        IsAnsweredFor (is_own_on game) (acts_for (Some Saving) name.now (file_on game s.done))
        (F.log files.old) (F.log files.new) result) }
{
    if !session.can_succeed()? {
        return numbered(alloc, NOT_WRITTEN);
    }
    let mut head = Vec::new(alloc);
    match files.look(name, HEAD, &mut head) {
        Ok(is_there) => {
            if !may_write(session, is_there, &head) {
                return numbered(alloc, OTHER_FILE);
            }
            write_present(alloc, session, files, name)
        }
        Err(FilesFault::File) => numbered(alloc, NOT_WRITTEN),
        Err(FilesFault::Memory) => Err(GivenFault::Memory),
    }
}

/// Whether a file may be written, where a look found nothing, or something with these first bytes.
fn may_write(session: &Session, is_there: bool, head: &[u8]) -> bool
    ensures { result ≡ may_be_written (is_own_with session.now.loaded) (seen_by is_there head.now) }
{
    !is_there || session.is_own_save(head)
}

/// Writes the file of the present state, if a file can tell it, over nothing or over a save file of the story.
fn write_present<F: Files>(
    alloc: Global,
    session: &Session,
    files: &mut F,
    name: &[u8],
) -> Result<Vec<u8>, GivenFault>
    requires asked { InEach session.now (λ game s. asked_for_on game s.done ≡ Some Saving) }
    requires looked { MayWrite (is_own_with session.now.loaded) (F.log files.old) name.now }
    ensures { InEach session.now (λ game s.
        IsAnswered (acts_for (Some Saving) name.now (file_on game s.done)) (F.log files.old) (F.log files.new) result) }
{
    match session.saved_game()? {
        Some(file) => store(alloc, files, name, &file),
        None => numbered(alloc, NOT_WRITTEN),
    }
}
