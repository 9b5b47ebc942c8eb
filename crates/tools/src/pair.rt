//! Both ends in one call: a source is compiled, and its story is played.

ghost use Rattle.std.specs.Prelude.{◌≡◌};
ghost use Rattle.story.specs.Large.{limits_by};
ghost use Rattle.tools.specs.Headline.{Pairs, PairsBy};

use session::{Mode, OpenFault, Session};
use session_run::{NoFiles, RunFault, run};
use std::alloc::Global;
use std::io::{Read, Write};
use story::{Limit, compile_placed};
use syntax_lexer::SourceFault;
use thiserror::Error;
use zcore::Version;

/// Why a source was not compiled, its story not opened, or its lines not played to the end.
#[derive(Clone, Copy, Debug, PartialEq, Eq, Error)]
pub enum PairFault {
    /// The source is refused; nothing was read or written.
    #[error("{0}")]
    Source(SourceFault),

    /// Memory was refused while the story was opened; nothing was read or written.
    #[error("{0}")]
    Open(OpenFault),

    /// Reading or writing failed.
    #[error("{0}")]
    Run(RunFault),
}

/// Compiles a source for a version, opens its story with so many units of fuel for each turn, and
/// plays the lines of a reader, as `run` does. At most `keep` turns can be taken back, or all where
/// it is `None`. The weight of the source is limited.
///
/// What is written is the transcript that the source's meaning gives, run afresh on the lines that
/// stand at each reply; and the session that is handed out has the whole states of the machine on
/// these lines, after each undo and each redo too.
///
/// # Errors
///
/// [`PairFault::Source`] where the source is refused, with its fault. [`PairFault::Open`] where
/// memory is refused while the story is loaded or its opening runs. Nothing is read or written
/// then. [`PairFault::Run`] where a read or a write fails, as `run` says.
pub fn compile_and_run<R: Read, W: Write>(
    alloc: Global,
    source: &[u8],
    version: Version,
    fuel: u32,
    keep: Option<u32>,
    reader: &mut R,
    writer: &mut W,
) -> Result<Session, PairFault>
    ensures { Pairs source.now version fuel keep (record {
      unread_before = R.remaining reader.old;
      unread_after = R.remaining reader.new;
      held_before = W.contents writer.old;
      held_after = W.contents writer.new;
    }) result }
{
    compile_and_run_within(
        alloc,
        source,
        version,
        Limit::Weight,
        fuel,
        keep,
        reader,
        writer,
    )
}

/// As [`compile_and_run`], where the weight of the source or the length of its story is limited.
///
/// # Errors
///
/// Those of [`compile_and_run`].
pub fn compile_and_run_within<R: Read, W: Write>(
    alloc: Global,
    source: &[u8],
    version: Version,
    limit: Limit,
    fuel: u32,
    keep: Option<u32>,
    reader: &mut R,
    writer: &mut W,
) -> Result<Session, PairFault>
    ensures { PairsBy (limits_by limit) source.now version fuel keep (record {
      unread_before = R.remaining reader.old;
      unread_after = R.remaining reader.new;
      held_before = W.contents writer.old;
      held_after = W.contents writer.new;
    }) result }
{
    let story = match compile_placed(alloc, source, version, limit) {
        Ok(story) => story,
        Err(placed) => return Err(PairFault::Source(placed.fault)),
    };
    let bytes = story.into_bytes();
    let mut session = match Session::open_with(alloc, bytes, Mode::Profile, fuel, keep) {
        Ok(session) => session,
        Err(fault) => return Err(PairFault::Open(fault)),
    };
    match run(reader, writer, &mut NoFiles, &mut session) {
        Ok(_place) => Ok(session),
        Err(fault) => {
            session.close();
            Err(PairFault::Run(fault))
        }
    }
}
