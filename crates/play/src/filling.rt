//! Zero bytes behind a story.

ghost use Rattle.std.specs.Prelude.{◌≡◌, ◌≤◌, length};
ghost use Rattle.std.specs.List.{list_all};
ghost use Rattle.play.specs.Filling.{is_zero, is_filled, stated_length, story_length, without_filling};
ghost use Rattle.zcore.specs.Layout.{header_size};

use byteorder::{BigEndian, ByteOrder};
use zcore::Version;
use zcore::layout::{HEADER_LENGTH, LENGTH_WORD};

/// Inform 6 fills its story files to a multiple of so many bytes.
const BLOCK: usize = 512;

/// Drops the zero bytes with which Inform 6 fills a story file, behind the length that the story
/// states: they are fewer than 512, all are 0, and the file's length is a multiple of 512. Any
/// other file stays as it is.
pub fn drop_filling(file: &mut Vec<u8>)
    ensures { file.new.items ≡ without_filling file.old.items }
{
    let length = story_length(file.as_slice());
    file.truncate(length);
}

/// How many bytes of a file are a story, and not filling behind it.
fn story_length(file: &[u8]) -> usize
    ensures { result ≡ story_length file.now }
{
    match stated_length(file) {
        Some(stated) if is_filled(file, stated) => stated,
        _ => file.len(),
    }
}

/// The length that a story states, where it is of a known version.
fn stated_length(file: &[u8]) -> Option<usize>
    ensures { result ≡ stated_length file.now }
{
    if file.len() < HEADER_LENGTH {
        return None;
    }
    let version = match file[0] {
        5 => Version::V5,
        8 => Version::V8,
        _ => return None,
    };
    Some(BigEndian::read_u16(&file[LENGTH_WORD..]) as usize * version.scale() as usize)
}

/// Whether what stands behind so many bytes fills a file.
fn is_filled(file: &[u8], stated: usize) -> bool
    ensures { result ≡ is_filled file.now stated }
{
    let whole = file.len() % BLOCK == 0;
    if !whole || file.len() < stated || stated + BLOCK <= file.len() {
        return false;
    }
    are_zeros(&file[stated..])
}

/// Whether all bytes are 0.
fn are_zeros(bytes: &[u8]) -> bool
    ensures { result ≡ list_all is_zero bytes.now }
{
    bytes.iter().all(|byte| *byte == 0)
}
