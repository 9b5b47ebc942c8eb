//! Where the parts of a story stand to which code refers.

ghost use Rattle.std.specs.Prelude.{◌≡◌, ◌≤◌, ◌<◌, ◌+◌, ◌/◌, ◌^◌, [], ◌∷◌, IfOk, OnOk, map, nat_le, sum};
ghost use Rattle.zcore.specs.Header.{scale_of};
ghost use Rattle.zcore.specs.Layout.{greatest_word};
ghost use Rattle.story_file.specs.Layout as layout;
ghost use Rattle.story_file.specs.Written.{EndsAt, end_from, packed_from, part_size, encoded_length};
ghost use Rattle.code_drafts.specs.Bytes.{Adds};

use code::Code;
use std::alloc::{AllocError, Global};
use zcore::Version;

/// The greatest packed address.
const MOST_PACKED: usize = 65_535;

/// The first address at or after another to which a packed address leads.
pub fn aligned(version: Version, at: usize) -> usize
    requires { at + 8 < 2 ^ 64 }
    ensures { result ≡ layout.aligned (scale_of version) at }
{
    let scale = version.scale() as usize;
    (at + scale - 1) / scale * scale
}

/// Notes the packed address of a part that follows an address, and answers where the part ends.
fn add_address(
    addresses: &mut Vec<u16>,
    version: Version,
    at: usize,
    size: usize,
) -> Result<usize, AllocError>
    requires { layout.aligned (scale_of version) at + size ≤ layout.greatest_length version }
    ensures addresses { OnOk result (Adds addresses.old addresses.new
        ((layout.aligned (scale_of version) at / scale_of version) ∷ [])) }
    ensures end { IfOk result (λ end. end ≡ layout.aligned (scale_of version) at + size) }
{
    let address = aligned(version, at);
    addresses.push((address / version.scale() as usize) as u16)?;
    Ok(address + size)
}

/// How many bytes routines have.
pub fn code_sizes(alloc: Global, codes: &[Code<'_, '_>]) -> Result<Vec<usize>, AllocError>
    ensures { IfOk result (λ v. v.items ≡ map part_size codes.now) }
{
    let mut sizes = Vec::new(alloc);
    for code in codes {
        sizes.push(code.length())?;
    }
    Ok(sizes)
}

/// Adds how many bytes texts have.
pub fn add_text_sizes(sizes: &mut Vec<usize>, texts: &[Vec<u8>]) -> Result<(), AllocError>
    ensures { OnOk result (Adds sizes.old sizes.new (map encoded_length texts.now)) }
{
    for text in texts {
        sizes.push(text.len())?;
    }
    Ok(())
}

/// The packed addresses of parts of these sizes that stand from an address on.
pub fn packed_addresses(
    alloc: Global,
    version: Version,
    place: usize,
    sizes: &[usize],
) -> Result<Vec<u16>, AllocError>
    requires { end_from (scale_of version) place sizes.now ≤ layout.greatest_length version }
    ensures { IfOk result (λ v. v.items ≡ packed_from (scale_of version) place sizes.now) }
{
    let mut addresses = Vec::new(alloc);
    let mut at = place;
    for size in sizes {
        at = add_address(&mut addresses, version, at, *size)?;
    }
    Ok(addresses)
}

/// How many bytes a story of a version has at most, as far as packed addresses reach.
pub fn greatest_length(version: Version) -> usize
    ensures { result ≡ layout.greatest_length version }
{
    MOST_PACKED * version.scale() as usize
}

/// Where a part of a size ends that follows an address; `None` where packed addresses do not reach
/// that end.
pub fn end_after(version: Version, at: usize, size: usize) -> Option<usize>
    requires { at ≤ layout.greatest_length version }
    ensures { EndsAt version at size result }
{
    let most = greatest_length(version);
    let up = aligned(version, at);
    if up > most || size > most - up {
        return None;
    }
    Some(up + size)
}

/// Whether packed addresses reach the end of parts of these sizes that stand from an address on.
pub fn reach_end(version: Version, place: usize, sizes: &[usize]) -> bool
    requires { place ≤ greatest_word }
    ensures { result ≡ nat_le (end_from (scale_of version) place sizes.now)
        (layout.greatest_length version) }
{
    let mut at = place;
    for size in sizes {
        let Some(end) = end_after(version, at, *size) else {
            return false;
        };
        at = end;
    }
    aligned(version, at) <= greatest_length(version)
}

/// The addresses of arrays of these sizes that stand one after another from an address on.
pub fn array_addresses(alloc: Global, place: usize, sizes: &[usize]) -> Result<Vec<u16>, AllocError>
    requires { place + sum sizes.now ≤ greatest_word }
    ensures { IfOk result (λ v. v.items ≡ layout.addresses_from 1 place sizes.now) }
{
    let mut addresses = Vec::new(alloc);
    let mut at = place;
    for size in sizes {
        addresses.push(at as u16)?;
        at += *size;
    }
    Ok(addresses)
}
