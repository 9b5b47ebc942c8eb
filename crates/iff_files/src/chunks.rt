//! Chunks of a file (Quetzal 1.4, section 8).

ghost use Rattle.std.specs.Prelude.{◌≡◌, ◌≤◌, ◌<◌, ◌+◌, ◌%◌, ◌++◌, ◌^◌, ℕ, List, [], ◌∷◌, Option, Some, length, drop};
ghost use Rattle.std.specs.Prelude.{if◌then◌else◌, OnOk};
ghost use Rattle.iff_files.specs.Chunks.{chunk, four, holds, part_in, stated};
ghost use Rattle.iff_files.specs.Steps.{first_found, now_of};

use std::alloc::AllocError;

/// How many bytes the name and the length of a chunk have.
const HEAD: usize = 8;

/// What a save file has to hold. Other chunks are skipped.
#[derive(Clone, Copy)]
pub enum Part {
    /// Which story it is of, and where that goes on.
    Header,

    /// Dynamic memory, as it is or as its differences from the story's.
    Memory,

    /// The frames of the routines that run.
    Frames,
}

/// Appends a chunk.
pub(crate) fn put_chunk(out: &mut Vec<u8>, name: &[u8], contents: &[u8]) -> Result<(), AllocError>
    requires { length contents.now < 2 ^ 32 }
    ensures { OnOk result (out.new.items ≡ out.old.items ++ chunk name.now contents.now) }
{
    let size = contents.len();
    out.extend_from_slice(name)?;
    put_four(out, size as u32)?;
    out.extend_from_slice(contents)?;
    put_padding(out, size % 2 == 1)?;
    Ok(())
}

/// How many bytes a chunk has, given how many its contents have.
pub(crate) fn chunk_size(contents: usize) -> usize
    requires { contents < 2 ^ 32 }
    ensures { result ≡ HEAD + contents + contents % 2 }
{
    HEAD + contents + contents % 2
}

/// Appends a number in four bytes, the high one first.
pub(crate) fn put_four(out: &mut Vec<u8>, number: u32) -> Result<(), AllocError>
    ensures { OnOk result (out.new.items ≡ out.old.items ++ four number) }
{
    let first = (number / 256 / 256 / 256) as u8;
    let second = (number / 256 / 256 % 256) as u8;
    let third = (number / 256 % 256) as u8;
    let fourth = (number % 256) as u8;
    out.extend_from_slice(&[first, second, third, fourth])?;
    Ok(())
}

fn put_padding(out: &mut Vec<u8>, is_odd: bool) -> Result<(), AllocError>
    ensures { OnOk result (out.new.items ≡ out.old.items ++ (if is_odd then 0 ∷ [] else [])) }
{
    if is_odd {
        out.push(0)?;
    }
    Ok(())
}

/// The first chunk that holds a part, if no chunk is cut short.
pub(crate) fn find_part(bytes: &[u8], part: Part) -> Option<&[u8]>
    ensures { part_in part bytes.now ≡ now_of result }
{
    let mut found = None;
    let mut rest = bytes;
    while rest.len() >= HEAD {
        let size = stated_size(rest);
        if size > rest.len() - HEAD {
            return None;
        }
        found = first_of(found, &rest[..HEAD + size], part);
        rest = bytes_after(rest, HEAD + size + size % 2);
    }
    found
}

/// The one that was found before, or else a chunk if it holds the part.
fn first_of<'f>(found: Option<&'f [u8]>, chunk: &'f [u8], part: Part) -> Option<&'f [u8]>
    ensures { (later : Option (List ℕ)) → first_found result later
        ≡ first_found found.entry (if holds part chunk.now then Some chunk.now else later) }
{
    match found {
        Some(first) => Some(first),
        None => {
            if is_of(chunk, part) {
                Some(chunk)
            } else {
                None
            }
        }
    }
}

/// Whether a chunk holds a part.
fn is_of(chunk: &[u8], part: Part) -> bool
    ensures { result ≡ holds part chunk.now }
{
    match part {
        Part::Header => chunk.starts_with(b"IFhd"),
        Part::Memory => chunk.starts_with(b"CMem") || chunk.starts_with(b"UMem"),
        Part::Frames => chunk.starts_with(b"Stks"),
    }
}

/// What comes after a number of bytes.
pub(crate) fn bytes_after(bytes: &[u8], count: usize) -> &[u8]
    ensures { result.now ≡ drop count bytes.now }
{
    if count < bytes.len() {
        &bytes[count..]
    } else {
        &[]
    }
}

/// The length that a chunk states for its contents.
pub(crate) fn stated_size(bytes: &[u8]) -> usize
    requires { HEAD ≤ length bytes.now }
    ensures size { result ≡ stated bytes.now }
    ensures short { result < 2 ^ 32 }
{
    let size = ((bytes[4] as u32 * 256 + bytes[5] as u32) * 256 + bytes[6] as u32) * 256
        + bytes[7] as u32;
    size as usize
}
