//! Where the story of a Blorb file is.

ghost use Rattle.std.specs.Prelude.{◌≡◌, ◌==◌, ◌+◌, ◌*◌, ◌<◌, ◌≤◌, ◌^◌, true, length, IfOk, IfErr, IfSome};
ghost use Rattle.iff_files.specs.Stories as definitions;
ghost use Rattle.iff_files.specs.Stories.{story_in, story_at, unpacked};

use crate::blorb_fault::BlorbFault;
use byteorder::{BigEndian, ByteOrder};

/// The most bytes of a form: 64 MB. What follows them in a file is not looked at.
pub const MOST_BYTES: usize = 67_108_864;

/// The name of every form: `FORM`.
const FORM: u32 = 0x464F_524D;

/// The type of a Blorb form: `IFRS`.
const IFRS: u32 = 0x4946_5253;

/// The name of the index, its first chunk: `RIdx`.
const RIDX: u32 = 0x5249_6478;

/// The usage of a program: `Exec`.
const EXEC: u32 = 0x4578_6563;

/// The name of a chunk that is a story of the Z-machine: `ZCOD`.
const ZCOD: u32 = 0x5A43_4F44;

/// Where a form's type is.
const FORM_TYPE: usize = 8;

/// The bytes of a chunk before its data: its name, and how many bytes of data follow.
const CHUNK_HEADING: usize = 8;

/// Where the second of these two is in a chunk.
const CHUNK_LENGTH: usize = 4;

/// Where the index is in the file: after a form's name, length and type.
const INDEX: usize = 12;

/// Where the number of its entries is.
const RESOURCES: usize = 20;

/// Where the first of its entries is.
const FIRST_ENTRY: usize = 24;

/// The bytes of an entry: its usage, its number, and where its chunk starts.
const ENTRY: usize = 12;

/// Where the last of these three is in an entry.
const ENTRY_START: usize = 8;

/// The number in the four bytes at an address, the highest first.
fn number_at(file: &[u8], at: usize) -> usize
    requires { at + 4 ≤ length file.now }
    ensures number { result ≡ definitions.number_at file.now at }
    ensures fits { result < 2 ^ 32 }
{
    BigEndian::read_u32(&file[at..]) as usize
}

/// Whether the four bytes at an address are those of a name.
fn has_name(file: &[u8], at: usize, name: u32) -> bool
    requires { at + 4 ≤ length file.now }
    ensures { result ≡ (definitions.number_at file.now at == name) }
{
    number_at(file, at) == name as usize
}

/// Whether a file is a Blorb file, by its first bytes and whatever its name.
pub fn is_blorb(file: &[u8]) -> bool
    ensures { result ≡ definitions.is_blorb file.now }
{
    INDEX <= file.len() && has_name(file, 0, FORM) && has_name(file, FORM_TYPE, IFRS)
}

/// Where the chunk at an address ends, by the length that it states.
fn chunk_end(file: &[u8], at: usize) -> usize
    requires { at + 8 ≤ length file.now }
    ensures { result ≡ definitions.chunk_end file.now at }
{
    at + CHUNK_HEADING + number_at(file, at + CHUNK_LENGTH)
}

/// How many entries the index has.
fn resources(file: &[u8]) -> usize
    requires { 24 ≤ length file.now }
    ensures number { result ≡ definitions.resources file.now }
    ensures fits { result < 2 ^ 32 }
{
    number_at(file, RESOURCES)
}

/// Whether the form is in the file, and its index in the form and as long as its entries are.
fn is_whole(file: &[u8]) -> bool
    requires { 12 ≤ length file.now }
    ensures { result ≡ definitions.is_whole file.now }
{
    let end = chunk_end(file, 0);
    if file.len() < end || MOST_BYTES < end || end < FIRST_ENTRY {
        return false;
    }
    let index_end = FIRST_ENTRY + ENTRY * resources(file);
    has_name(file, INDEX, RIDX) && chunk_end(file, INDEX) == index_end && index_end <= end
}

/// Where the chunk of the first program starts, among so many entries of an index.
fn program_in(file: &[u8], count: usize) -> Option<usize>
    requires { 24 + 12 * count ≤ length file.now }
    ensures start { result ≡ definitions.program_in file.now 24 count }
    ensures fits { IfSome result (λ at. at < 2 ^ 32) }
{
    for i in 0..count {
        let entry = FIRST_ENTRY + ENTRY * i;
        if has_name(file, entry, EXEC) {
            return Some(number_at(file, entry + ENTRY_START));
        }
    }
    None
}

/// The data of the chunk at an address, which is to be a story.
fn story_at(file: &[u8], at: usize) -> Result<&[u8], BlorbFault>
    requires whole { definitions.is_whole file.now ≡ true }
    requires small { at < 2 ^ 32 }
    ensures story { IfOk result (λ story. story_at file.now (Some at) ≡ Ok story.now) }
    ensures fault { IfErr result (λ fault. story_at file.now (Some at) ≡ Err fault) }
{
    let form_end = chunk_end(file, 0);
    if at < FIRST_ENTRY + ENTRY * resources(file) || form_end < at + CHUNK_HEADING {
        return Err(BlorbFault::Damaged);
    }
    let end = chunk_end(file, at);
    if form_end < end {
        return Err(BlorbFault::Damaged);
    }
    if !has_name(file, at, ZCOD) {
        return Err(BlorbFault::OtherProgram);
    }
    Ok(&file[at + CHUNK_HEADING..end])
}

/// The story in a file that begins as a Blorb file does.
fn story_in(file: &[u8]) -> Result<&[u8], BlorbFault>
    requires { 12 ≤ length file.now }
    ensures story { IfOk result (λ story. story_in file.now ≡ Ok story.now) }
    ensures fault { IfErr result (λ fault. story_in file.now ≡ Err fault) }
{
    if !is_whole(file) {
        return Err(BlorbFault::Damaged);
    }
    match program_in(file, resources(file)) {
        Some(at) => story_at(file, at),
        None => Err(BlorbFault::NoProgram),
    }
}

/// What is played of a file: the story of a Blorb file, or else all of it. The story is the data of
/// the chunk of the first resource of usage `Exec`, whatever its number. It is not looked at, and
/// the work is bounded by the file.
///
/// # Errors
///
/// Why a Blorb file has no such story, in the order of [`BlorbFault`]'s variants, but that a
/// program's chunk is looked for before it is found to be out of place.
pub fn unpack(file: &[u8]) -> Result<&[u8], BlorbFault>
    ensures story { IfOk result (λ story. unpacked file.now ≡ Ok story.now) }
    ensures fault { IfErr result (λ fault. unpacked file.now ≡ Err fault) }
{
    if is_blorb(file) {
        story_in(file)
    } else {
        Ok(file)
    }
}
