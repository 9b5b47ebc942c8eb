//! Both ends in one call, where the Standard's machine plays the story.

ghost use Rattle.std.specs.Prelude.{◌<◌};
ghost use Rattle.std.specs.List.{All};
ghost use Rattle.story.specs.Large.{limits_by};
ghost use Rattle.zcore_standard_loading.specs.Capabilities.{HasByteSize};
ghost use Rattle.tools.specs.Standard.{PairsStandard, PairsStandardBy};

use crate::pair::PairFault;
use session::{Capabilities, Mode, Session, StandardOptions};
use session_run::{NoFiles, run};
use std::alloc::Global;
use std::io::{Read, Write};
use story::{Limit, compile_placed, stories_play_by_standard};
use zcore::Version;

// The bytes of a story are bytes.
fn are_bytes(bytes: &Vec<u8>)
    ensures { All (λ b. b < 256) bytes.now.items }
{}

// So are the numbers of a screen's columns and rows.
fn are_bytes_of_screen(shown: Capabilities)
    ensures { HasByteSize shown }
{}

/// As [`compile_and_run`](crate::compile_and_run), but the Standard's machine plays the story, as
/// `play --standard` does, with no save files at hand. The weight of the source is limited.
///
/// What is written is what that machine tells. For lines of ASCII it is, apart from the replies to
/// `/status`, the transcript that the source's meaning gives on the other lines, after each undo and
/// each redo too.
///
/// # Errors
///
/// Those of [`compile_and_run`](crate::compile_and_run).
pub fn compile_and_run_by_standard<R: Read, W: Write>(
    alloc: Global,
    source: &[u8],
    version: Version,
    options: StandardOptions,
    fuel: u32,
    keep: Option<u32>,
    reader: &mut R,
    writer: &mut W,
) -> Result<Session, PairFault>
    ensures { PairsStandard options source.now version fuel keep (record {
      unread_before = R.remaining reader.old;
      unread_after = R.remaining reader.new;
      held_before = W.contents writer.old;
      held_after = W.contents writer.new;
    }) result }
{
    compile_and_run_by_standard_within(
        alloc,
        source,
        version,
        Limit::Weight,
        options,
        fuel,
        keep,
        reader,
        writer,
    )
}

/// As [`compile_and_run_by_standard`], where the weight of the source or the length of its story is
/// limited.
///
/// # Errors
///
/// Those of [`compile_and_run`](crate::compile_and_run).
pub fn compile_and_run_by_standard_within<R: Read, W: Write>(
    alloc: Global,
    source: &[u8],
    version: Version,
    limit: Limit,
    options: StandardOptions,
    fuel: u32,
    keep: Option<u32>,
    reader: &mut R,
    writer: &mut W,
) -> Result<Session, PairFault>
    ensures { PairsStandardBy (limits_by limit) options source.now version fuel keep (record {
      unread_before = R.remaining reader.old;
      unread_after = R.remaining reader.new;
      held_before = W.contents writer.old;
      held_after = W.contents writer.new;
    }) result }
{
    stories_play_by_standard();
    let story = match compile_placed(alloc, source, version, limit) {
        Ok(story) => story,
        Err(placed) => return Err(PairFault::Source(placed.fault)),
    };
    let bytes = story.into_bytes();
    are_bytes(&bytes);
    are_bytes_of_screen(options.capabilities);
    let mut session = match Session::open_with(alloc, bytes, Mode::Standard(options), fuel, keep) {
        Ok(session) => session,
        Err(fault) => return Err(PairFault::Open(fault)),
    };
    match run(reader, writer, &mut NoFiles, &mut session) {
        Ok(_place) => Ok(session),
        Err(fault) => {
            session.close();
            Err(PairFault::Run(fault))
        }
    }
}
