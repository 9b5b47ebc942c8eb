//! Reading a story file.

ghost use Rattle.std.specs.Prelude.{◌≡◌, ◌<◌, ◌≤◌, IfOk, IfSome, length, take};
ghost use Rattle.iff_files.specs.Stories.{unpacked};
ghost use Rattle.zcore.specs.Layout.{longest_story};
ghost use Rattle.play.specs.Filling.{without_filling};
ghost use Rattle.play.specs.Reading.{IsPlayed, most_read};

use crate::filling::drop_filling;
use iff_files::{BlorbFault, MOST_BYTES, is_blorb, unpack};
use std::alloc::Global;
use std::fs::File;
use std::io::{self, Read};
use survey::Mode;
use zcore::layout::LONGEST_STORY;

/// The most bytes of filling behind it: one fewer than a block.
const LONGEST_FILLING: u64 = 511;

/// As many bytes of a file are read: one more than a story and its filling have. No story is as
/// long, and no multiple of 512 either, so that nothing of them is taken for filling: a file of
/// which that much is read is refused.
const MOST_READ: u64 = LONGEST_STORY as u64 + LONGEST_FILLING + 1;

/// The story in a file of this name, or why a Blorb file has none. Only the Standard's machine plays
/// stories in Blorb files.
pub fn story_in(
    rt: &HostRuntime,
    name: &str,
    mode: Mode,
) -> io::Result<Result<Vec<u8>, BlorbFault>> {
    let file = File::open(rt, name)?;
    match mode {
        Mode::Standard => read_unpacked(rt.alloc(), file),
        Mode::Profile => Ok(Ok(read_story(rt.alloc(), file)?)),
    }
}

/// Reads a story, and drops the filling behind it. What stands behind the first 524,792 bytes of a
/// file is not read. Of so long a file more is left than a story has: like the whole file it is
/// refused, by its version or its length.
///
/// # Errors
///
/// The error by which the reader fails, or want of memory.
pub fn read_story<R: Read + Drop>(alloc: Global, file: R) -> io::Result<Vec<u8>>
    ensures story { IfOk result (λ story. IfSome (R.remaining file)
        (λ bytes. story.items ≡ without_filling (take most_read bytes))) }
    ensures cut { IfOk result (λ story. IfSome (R.remaining file)
        (λ bytes. most_read ≤ length bytes → longest_story < length story.items)) }
{
    let mut story = Vec::new(alloc);
    file.take(MOST_READ).read_to_end(&mut story)?;
    drop_filling(&mut story);
    Ok(story)
}

/// Reads the story of a Blorb file, or of another file as `read_story` does. What stands behind the
/// first 67,108,864 bytes of a file is not read: no form that is taken has more.
///
/// # Errors
///
/// The error by which the reader fails, or want of memory. Of a Blorb file, why it has no story.
pub fn read_unpacked<R: Read + Drop>(
    alloc: Global,
    file: R,
) -> io::Result<Result<Vec<u8>, BlorbFault>>
    ensures { IfOk result
        (λ played. IfSome (R.remaining file) (λ bytes. IsPlayed (unpacked bytes) played)) }
{
    let mut packed = Vec::new(alloc);
    file.take(MOST_BYTES as u64).read_to_end(&mut packed)?;
    story_of(alloc, packed)
}

/// The story in the bytes of a file, without the filling behind it. Only out of a Blorb file is it
/// copied.
fn story_of(alloc: Global, file: Vec<u8>) -> io::Result<Result<Vec<u8>, BlorbFault>>
    ensures { IfOk result (IsPlayed (unpacked file.items)) }
{
    if !is_blorb(&file) {
        return Ok(Ok(cut(file)));
    }
    unpacked_copy(alloc, &file)
}

/// A copy of the story in a file, or why a Blorb file has none.
fn unpacked_copy(alloc: Global, file: &[u8]) -> io::Result<Result<Vec<u8>, BlorbFault>>
    ensures { IfOk result (IsPlayed (unpacked file.now)) }
{
    match unpack(file) {
        Ok(bytes) => Ok(Ok(copy_of(alloc, bytes)?)),
        Err(fault) => Ok(Err(fault)),
    }
}

/// A copy of a story, as far as one is read, without the filling behind it.
fn copy_of(alloc: Global, bytes: &[u8]) -> io::Result<Vec<u8>>
    ensures { IfOk result (λ story. story.items ≡ without_filling (take most_read bytes.now)) }
{
    let mut story = Vec::new(alloc);
    story.extend_from_slice(first(bytes))?;
    drop_filling(&mut story);
    Ok(story)
}

/// A story cut down to what is played of it: as far as one is read, without the filling behind it.
fn cut(mut story: Vec<u8>) -> Vec<u8>
    ensures { result.items ≡ without_filling (take most_read story.items) }
{
    story.truncate(MOST_READ as usize);
    drop_filling(&mut story);
    story
}

/// The first bytes of a story, as many as are read.
fn first(bytes: &[u8]) -> &[u8]
    ensures { result.now ≡ take most_read bytes.now }
{
    if bytes.len() <= MOST_READ as usize {
        bytes
    } else {
        &bytes[..MOST_READ as usize]
    }
}
