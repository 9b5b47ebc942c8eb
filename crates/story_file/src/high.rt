//! The parts of a story that stand at packed addresses.

ghost use Rattle.std.specs.Prelude.{◌≡◌, ◌-◌, ◌++◌, [], ◌∷◌, true, IfOk, OnOk, length, map, replicate, ℕ, List};
ghost use Rattle.std.specs.List.{All, list_all};
ghost use Rattle.ztext.specs.Alphabets.{is_printable};
ghost use Rattle.zcore.specs.Header.{scale_of};
ghost use Rattle.ztext.specs.Text.{encoded};
ghost use Rattle.code_drafts.specs.Written.{addresses_of};
ghost use Rattle.story_file.specs.Layout as layout;
ghost use Rattle.story_file.specs.Written.{bytes_in, code_part, IsReadyCode};
ghost use Rattle.code_drafts.specs.Bytes.{Adds};

use crate::packed::aligned;
use crate::words::put_zeros;
use code::{Addresses, Code, CodeFault};
use std::alloc::{AllocError, Global};
use zcore::{TextFault, Version, encode_text};

/// The Z-text of characters.
fn z_text(alloc: Global, characters: &[u8]) -> Result<Vec<u8>, AllocError>
    requires { list_all is_printable characters.now ≡ true }
    ensures { IfOk result (λ v. v.items ≡ encoded characters.now) }
{
    match encode_text(alloc, characters) {
        Ok(text) => Ok(text),
        Err(TextFault::Memory) => Err(AllocError),
        Err(_) => unreachable!(),
    }
}

/// Adds the Z-text of characters.
pub fn add_text(
    alloc: Global,
    texts: &mut Vec<Vec<u8>>,
    characters: &[u8],
) -> Result<(), AllocError>
    requires { list_all is_printable characters.now ≡ true }
    ensures { OnOk result (map bytes_in texts.new.items ≡ map bytes_in texts.old.items
        ++ encoded characters.now ∷ []) }
{
    let text = z_text(alloc, characters)?;
    texts.push(text)?;
    Ok(())
}

/// Zero bytes up to an address to which a packed address leads.
pub fn put_filling(story: &mut Vec<u8>, version: Version) -> Result<(), AllocError>
    ensures { OnOk result (let at = length story.old.items in
        story.new.items ≡ story.old.items
        ++ replicate (layout.aligned (scale_of version) at - at) 0) }
{
    let at = story.len();
    put_zeros(story, aligned(version, at) - at)
}

/// The code of a routine.
fn put_code(
    story: &mut Vec<u8>,
    code: &Code<'_, '_>,
    addresses: &Addresses<'_>,
) -> Result<(), AllocError>
    requires { IsReadyCode code.now }
    ensures { OnOk result (Adds story.old story.new
        (code_part (addresses_of addresses.now) code.now)) }
{
    match code.put(addresses, story) {
        Ok(()) => Ok(()),
        Err(CodeFault::Memory) => Err(AllocError),
    }
}

/// Routines, each at a packed address. Whatever parts follow, they stand as after these.
pub fn put_routines(
    story: &mut Vec<u8>,
    version: Version,
    codes: &[Code<'_, '_>],
    addresses: &Addresses<'_>,
) -> Result<(), AllocError>
    requires { All IsReadyCode codes.now }
    ensures { OnOk result ((parts : List (List ℕ))
        → story.new.items
        ++ layout.parts_from (scale_of version) (length story.new.items) parts
        ≡ story.old.items ++ layout.parts_from (scale_of version)
        (length story.old.items)
        (map (code_part (addresses_of addresses.now)) codes.now ++ parts)) }
{
    for code in codes {
        put_filling(story, version)?;
        put_code(story, code, addresses)?;
    }
    Ok(())
}

/// A text at a packed address.
fn put_text(story: &mut Vec<u8>, version: Version, text: &[u8]) -> Result<(), AllocError>
    ensures { OnOk result ((parts : List (List ℕ))
        → story.new.items
        ++ layout.parts_from (scale_of version) (length story.new.items) parts
        ≡ story.old.items ++ layout.parts_from (scale_of version)
        (length story.old.items) (text.now ∷ parts)) }
{
    put_filling(story, version)?;
    story.extend_from_slice(text)
}

/// Texts, and what fills the end of the story.
pub fn put_texts(story: &mut Vec<u8>, version: Version, texts: &[Vec<u8>]) -> Result<(), AllocError>
    ensures { OnOk result (Adds story.old story.new
        (layout.parts_from (scale_of version) (length story.old.items)
        (map bytes_in texts.now))) }
{
    for text in texts {
        put_text(story, version, text)?;
    }
    put_filling(story, version)?;
    Ok(())
}
