//! Both ends in one call, for an extended source.

ghost use Rattle.story.specs.Large.{limits_by};
ghost use Rattle.tools.specs.Extended.{PairsExtended, PairsExtendedBy};

use crate::pair::{PairFault, compile_and_run_within};
use derive::extended;
use session::Session;
use std::alloc::Global;
use std::io::{Read, Write};
use story::Limit;
use zcore::Version;

/// As [`compile_and_run`](crate::compile_and_run), of an extended source: the source is compiled that
/// it stands for. The weight of that source is limited.
///
/// # Errors
///
/// [`PairFault::Source`] also where it stands for none, with the fault of the extended source; and
/// those of [`compile_and_run`](crate::compile_and_run).
pub fn extend_and_run<R: Read, W: Write>(
    alloc: Global,
    source: &[u8],
    version: Version,
    fuel: u32,
    keep: Option<u32>,
    reader: &mut R,
    writer: &mut W,
) -> Result<Session, PairFault>
    ensures { PairsExtended source.now version fuel keep (record {
      unread_before = R.remaining reader.old;
      unread_after = R.remaining reader.new;
      held_before = W.contents writer.old;
      held_after = W.contents writer.new;
    }) result }
{
    extend_and_run_within(
        alloc,
        source,
        version,
        Limit::Weight,
        fuel,
        keep,
        reader,
        writer,
    )
}

/// As [`extend_and_run`], where the weight of the source that is compiled or the length of its story
/// is limited.
///
/// # Errors
///
/// Those of [`extend_and_run`].
pub fn extend_and_run_within<R: Read, W: Write>(
    alloc: Global,
    source: &[u8],
    version: Version,
    limit: Limit,
    fuel: u32,
    keep: Option<u32>,
    reader: &mut R,
    writer: &mut W,
) -> Result<Session, PairFault>
    ensures { PairsExtendedBy (limits_by limit) source.now version fuel keep (record {
      unread_before = R.remaining reader.old;
      unread_after = R.remaining reader.new;
      held_before = W.contents writer.old;
      held_after = W.contents writer.new;
    }) result }
{
    match extended(alloc, source) {
        Ok(text) => {
            compile_and_run_within(alloc, &text, version, limit, fuel, keep, reader, writer)
        }
        Err(placed) => Err(PairFault::Source(placed.fault)),
    }
}
