//! A save file that is read.

ghost use Rattle.std.specs.Prelude.{◌≡◌, ◌≤◌, ◌<◌, ◌^◌, None, Some, length, if◌then◌else◌, IfOk};
ghost use Rattle.iff_files.specs.SaveFiles.{IsReadAs, form_in, header_in, header_size, is_save_of, memory_in, parts_in, saved_in};
ghost use Rattle.iff_files.specs.Steps.{now_of, parts_of};

use crate::chunks::{Part, bytes_after, find_part, stated_size};
use crate::differences::unpack;
use crate::fault::SaveFault;
use crate::stacks::are_stacks;
use crate::writing::identity_of;

/// How long a file is at most.
const LONGEST_FILE: usize = 1_048_576;

/// How many bytes a chunk has before its contents.
const HEAD: usize = 8;

/// How many bytes the contents of `IFhd` have at least.
const HEADER: usize = 13;

/// What a save file says, besides memory.
#[derive(Clone, Copy)]
pub struct Save<'f> {
    /// The address where the story goes on, as `SaveState` has it, in three bytes. Nothing else is
    /// known of it.
    pub program_counter: u32,

    /// The frame of the main code, and those of the calls, the oldest first. `read_head` and
    /// `read_words` read them.
    pub stacks: &'f [u8],
}

/// The parts of a save file.
#[derive(Clone, Copy)]
struct Parts<'f> {
    /// The contents of the chunk that tells the story.
    header: &'f [u8],

    /// The chunk of memory.
    memory: &'f [u8],

    /// The contents of the chunk of frames.
    frames: &'f [u8],
}

/// Reads a save file. `memory` is the dynamic memory that the story file has, and becomes the saved
/// one; after an error it may be anything. `size` is the length of the story file. It takes time
/// linear in the file and in memory, and no memory of its own.
///
/// # Errors
///
/// Why the file is refused.
pub fn read_save<'f>(memory: &mut [u8], size: u32, bytes: &'f [u8]) -> Result<Save<'f>, SaveFault>
    requires { header_size ≤ length memory.old }
    ensures read { IsReadAs (saved_in memory.old size bytes.now) size memory.new result }
    ensures counter { IfOk result (λ save. save.program_counter < 2 ^ 24) }
{
    let Some(parts) = find_parts(bytes) else {
        return Err(SaveFault::Damaged);
    };
    let program_counter = match read_header(memory, parts.header) {
        Ok(program_counter) => program_counter,
        Err(fault) => return Err(fault),
    };
    if !put_memory(memory, parts.memory) {
        return Err(SaveFault::WrongMemory);
    }
    if !are_stacks(parts.frames, size) {
        return Err(SaveFault::WrongStacks);
    }
    Ok(Save {
        program_counter,
        stacks: parts.frames,
    })
}

/// The parts of a file.
fn find_parts(bytes: &[u8]) -> Option<Parts<'_>>
    ensures { parts_in bytes.now ≡ parts_of result }
{
    let form = find_form(bytes)?;
    let header = find_part(form, Part::Header)?;
    let memory = find_part(form, Part::Memory)?;
    let frames = find_part(form, Part::Frames)?;
    Some(Parts {
        header: bytes_after(header, HEAD),
        memory,
        frames: bytes_after(frames, HEAD),
    })
}

/// The chunks of a file.
fn find_form(bytes: &[u8]) -> Option<&[u8]>
    ensures { form_in bytes.now ≡ now_of result }
{
    if bytes.len() > LONGEST_FILE {
        return None;
    }
    if !bytes.starts_with(b"FORM") {
        return None;
    }
    if !bytes_after(bytes, HEAD).starts_with(b"IFZS") {
        return None;
    }
    let size = stated_size(bytes);
    if size > bytes.len() - HEAD {
        return None;
    }
    Some(&bytes[12..HEAD + size.max(4)])
}

/// Where the story goes on, if this is the header of one of its files.
fn read_header(story: &[u8], header: &[u8]) -> Result<u32, SaveFault>
    requires { header_size ≤ length story.now }
    ensures same { result ≡ header_in story.now header.now }
    ensures counter { IfOk result (λ at. at < 2 ^ 24) }
{
    if header.len() < HEADER {
        return Err(SaveFault::Damaged);
    }
    if !header.starts_with(&identity_of(story)) {
        return Err(SaveFault::OtherStory);
    }
    Ok((header[10] as u32 * 256 + header[11] as u32) * 256 + header[12] as u32)
}

/// Makes of the story's memory the one that a chunk holds, if it fits.
fn put_memory(memory: &mut [u8], chunk: &[u8]) -> bool
    ensures { memory_in memory.old chunk.now ≡ (if result then Some memory.new else None) }
{
    let contents = bytes_after(chunk, HEAD);
    if chunk.starts_with(b"CMem") {
        return unpack(memory, contents);
    }
    if contents.len() != memory.len() {
        return false;
    }
    memory.copy_from_slice(contents);
    true
}

/// Whether bytes begin as the save files of this story that `write_save` writes: another file is
/// not overwritten.
pub fn is_save_of(story: &[u8], bytes: &[u8]) -> bool
    requires { header_size ≤ length story.now }
    ensures { result ≡ is_save_of story.now bytes.now }
{
    bytes.starts_with(b"FORM")
        && bytes_after(bytes, HEAD).starts_with(b"IFZSIFhd\0\0\0\x0D")
        && bytes_after(bytes, 20).starts_with(&identity_of(story))
}
