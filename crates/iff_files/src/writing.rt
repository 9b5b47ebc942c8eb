//! A save file that is written.

ghost use Rattle.std.specs.Prelude.{◌≡◌, ◌≤◌, ◌<◌, ◌+◌, ◌^◌, ◌++◌, ℕ, List, length, IfOk, OnOk};
ghost use Rattle.iff_files.specs.Frames.{Stacks, stacks_bytes};
ghost use Rattle.iff_files.specs.SaveFiles.{ReadsBack, form_start, header_size, identity, save_bytes, three};

use crate::chunks::{chunk_size, put_chunk, put_four};
use crate::differences::pack;
use std::alloc::{AllocError, Global};

/// How many bytes come before those that a file counts: its name and their number.
const FORM: usize = 8;

/// How many letters say that a form is a saved game.
const KIND: usize = 4;

/// How many bytes the contents of `IFhd` have.
const HEADER: usize = 13;

/// How many bytes of differences there is room for at first.
const FIRST_ROOM: usize = 1_024;

/// What is saved.
#[derive(Clone, Copy)]
pub struct SaveState<'s> {
    /// The address where the story goes on: the byte that names the variable for the result of
    /// `save`, or before version 4 the first byte of its branch.
    pub program_counter: u32,

    /// Dynamic memory.
    pub memory: &'s [u8],

    /// The frame of the main code (`put_main`), and those of the calls (`put_frame`).
    pub stacks: &'s [u8],
}

/// What is written is read back.
pub fn reads_back()
    ensures { (story : List ℕ) (size : ℕ) → ReadsBack story size }
{}

/// The save file of a state, where `story` is the dynamic memory that the story file has. It takes
/// time linear in the two, and room for the differences besides the file.
///
/// # Errors
///
/// Memory was refused.
pub fn write_save(alloc: Global, story: &[u8], state: SaveState<'_>) -> Result<Vec<u8>, AllocError>
    requires header { header_size ≤ length story.now }
    requires memory { length state.memory.now ≡ length story.now }
    requires short { (length story.now < 2 ^ 16) × (length state.stacks.now < 2 ^ 20) }
    requires counter { state.program_counter < 2 ^ 24 }
    ensures { (stacks : Stacks) → state.entry.stacks.now ≡ stacks_bytes stacks
        → IfOk result (λ file. file.items ≡ save_bytes story.now (record {
          program_counter = state.entry.program_counter;
          memory = state.entry.memory.now;
          stacks = stacks;
        })) }
{
    let mut differences = Vec::with_capacity(alloc, FIRST_ROOM)?;
    pack(story, state.memory, &mut differences)?;
    let size = KIND
        + chunk_size(HEADER)
        + chunk_size(differences.len())
        + chunk_size(state.stacks.len());
    let mut file = Vec::with_capacity(alloc, FORM + size)?;
    put_form(&mut file, size)?;
    put_chunk(&mut file, b"IFhd", &header(story, state.program_counter))?;
    put_chunk(&mut file, b"CMem", differences.as_slice())?;
    put_chunk(&mut file, b"Stks", state.stacks)?;
    Ok(file)
}

/// Appends the beginning of a file: how many bytes follow, and that they are a saved game.
fn put_form(out: &mut Vec<u8>, size: usize) -> Result<(), AllocError>
    requires { size < 2 ^ 32 }
    ensures { OnOk result (out.new.items ≡ out.old.items ++ form_start size) }
{
    out.extend_from_slice(b"FORM")?;
    put_four(out, size as u32)?;
    out.extend_from_slice(b"IFZS")?;
    Ok(())
}

/// The contents of the chunk `IFhd`.
fn header(story: &[u8], program_counter: u32) -> [u8; 13]
    requires header { header_size ≤ length story.now }
    requires counter { program_counter < 2 ^ 24 }
    ensures { result ≡ identity story.now ++ three program_counter }
{
    let [a, b, c, d, e, f, g, h, i, j] = identity_of(story);
    let high = (program_counter / 256 / 256) as u8;
    let middle = (program_counter / 256 % 256) as u8;
    let low = (program_counter % 256) as u8;
    [a, b, c, d, e, f, g, h, i, j, high, middle, low]
}

/// The bytes by which a file names its story: release number, serial number and checksum.
pub(crate) fn identity_of(story: &[u8]) -> [u8; 10]
    requires { header_size ≤ length story.now }
    ensures { result ≡ identity story.now }
{
    [
        story[2], story[3], story[18], story[19], story[20], story[21], story[22], story[23],
        story[28], story[29],
    ]
}
