//! The header of a story (Z-Machine Standards Document 1.1, section 11.1).

ghost use Rattle.std.specs.Prelude.{◌≡◌, ◌≤◌, ◌+◌, ◌/◌, ◌%◌, ◌++◌, OnOk, drop, length, sum};
ghost use Rattle.zcore.specs.Header.{scale_of, version_number};
ghost use Rattle.zcore.specs.Layout.{header_size};
ghost use Rattle.story_file.specs.Layout.{greatest_length, header_of};
ghost use Rattle.story_file.specs.Written.{AreWords};
ghost use Rattle.code_drafts.specs.Bytes.{Adds};

use crate::words::{put_words, put_zeros};
use meaning::Places;
use std::alloc::{AllocError, Global};
use zcore::Version;
use zcore::layout::HEADER_LENGTH;

/// The number of the release.
const RELEASE: u16 = 1;

/// The table of abbreviations.
const ABBREVIATIONS_ADDRESS: u16 = HEADER_LENGTH as u16;

/// Zero bytes at the end of the header.
const UNUSED: usize = 34;

/// The byte that tells a version.
fn number_of(version: Version) -> u8
    ensures { result ≡ version_number version }
{
    match version {
        Version::V5 => 5,
        Version::V8 => 8,
    }
}

/// The sum of bytes, modulo 65,536.
fn sum_of(bytes: &[u8]) -> u16
    ensures { result ≡ sum bytes.now % 65536 }
{
    let mut total: u16 = 0;
    for byte in bytes {
        total = total.wrapping_add(u16::from(*byte));
    }
    total
}

/// How long a story with these bytes after its header is, in the unit of its version.
fn stated_length(version: Version, body: &[u8]) -> u16
    requires { header_size + length body.now ≤ greatest_length version }
    ensures { result ≡ (header_size + length body.now) / scale_of version }
{
    ((HEADER_LENGTH + body.len()) / version.scale() as usize) as u16
}

/// The header of a story with these bytes after it, whose parts stand at these places.
fn put_header(
    story: &mut Vec<u8>,
    version: Version,
    places: Places,
    body: &[u8],
) -> Result<(), AllocError>
    requires words { AreWords places }
    requires length { header_size + length body.now ≤ greatest_length version }
    ensures { OnOk result (Adds story.old story.new (header_of version places body.now)) }
{
    let start = places.start as u16;
    let dictionary = places.dictionary as u16;
    let Ok(()) = story.push(number_of(version)) else {
        return Err(AllocError);
    };
    let Ok(()) = story.push(0) else {
        return Err(AllocError);
    };
    let Ok(()) = put_words(
        story,
        &[
            RELEASE,
            start,
            start,
            dictionary,
            places.defaults as u16,
            places.globals as u16,
            dictionary,
            0,
        ],
    ) else {
        return Err(AllocError);
    };
    let Ok(()) = story.extend_from_slice(b"000000") else {
        return Err(AllocError);
    };
    let Ok(()) = put_words(
        story,
        &[
            ABBREVIATIONS_ADDRESS,
            stated_length(version, body),
            sum_of(body),
        ],
    ) else {
        return Err(AllocError);
    };
    let Ok(()) = put_zeros(story, UNUSED) else {
        return Err(AllocError);
    };
    Ok(())
}

/// Keeps the first bytes of a story for its header.
pub fn keep_header(story: &mut Vec<u8>) -> Result<(), AllocError>
    ensures { OnOk result (length story.new.items ≡ length story.old.items + header_size) }
{
    put_zeros(story, HEADER_LENGTH)
}

/// Writes a header over the first bytes of a story.
fn overwrite(story: &mut [u8], header: &[u8])
    requires { length header.now ≤ length story.old }
    ensures { story.new ≡ header.now ++ drop (length header.now) story.old }
{
    story[..header.len()].copy_from_slice(header);
}

/// Writes the header into the bytes that were kept for it: its sum is that of all bytes after them.
pub fn fill_header(
    alloc: Global,
    story: &mut Vec<u8>,
    version: Version,
    places: Places,
) -> Result<(), AllocError>
    requires words { AreWords places }
    requires kept { header_size ≤ length story.old.items }
    requires length { length story.old.items ≤ greatest_length version }
    ensures { OnOk result (story.new.items
        ≡ header_of version places (drop header_size story.old.items) ++ drop header_size story.old.items) }
{
    let mut header = Vec::new(alloc);
    let Ok(()) = put_header(&mut header, version, places, &story[HEADER_LENGTH..]) else {
        return Err(AllocError);
    };
    overwrite(story, &header);
    Ok(())
}
