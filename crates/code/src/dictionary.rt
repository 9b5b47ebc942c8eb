//! The dictionary of a story as it is written (Z-Machine Standards Document 1.1, section 13).

ghost use Rattle.std.specs.Prelude.{◌≡◌, ◌≤◌, ◌++◌, length, map, OnOk, IfOk, IfErr};
ghost use Rattle.std.specs.List.Sorted.{IsStrictlyIncreasing};
ghost use Rattle.zcore.specs.Dictionary.{number_of_key};
ghost use Rattle.tables.specs.Dictionary.{head_bytes, entry_bytes, dictionary_bytes, AreReadFrom, RefusesKeys};
ghost use Rattle.tables.specs.declared.fault.TableFault.TheVariants.{Memory};

use std::alloc::Global;
use tables::TableFault;
use tables::layout::{DICTIONARY_ENTRY_LENGTH, DICTIONARY_HEAD_LENGTH};
use zcore::layout::READABLE;

/// How many entries at most are written: all that 65,536 bytes hold.
const MOST_ENTRIES: usize = (READABLE - DICTIONARY_HEAD_LENGTH) / DICTIONARY_ENTRY_LENGTH;

/// The bytes of a dictionary of these keys, with the separators `.`, `,` and `"`: each entry is the
/// six bytes of its key and three of data that are 0. The keys ascend; there may be none.
///
/// Where a story has the bytes at an address, and they end with its static memory or before, there
/// is a dictionary at that address in which each key, and no other, is found.
///
/// # Errors
///
/// `B2` where the dictionary would be longer than 65,536 bytes; else `B3` where a growth of memory
/// was refused.
pub fn write_dictionary(alloc: Global, keys: &[[u8; 6]]) -> Result<Vec<u8>, TableFault>
    requires { IsStrictlyIncreasing (map number_of_key keys.now) }
    ensures bytes { IfOk result (λ v. v.items ≡ dictionary_bytes keys.now) }
    ensures read { IfOk result (λ v. AreReadFrom v.items (map number_of_key keys.now)) }
    ensures fits { IfOk result (λ v. length v.items ≤ 65536) }
    ensures refused { IfErr result (RefusesKeys (length keys.now)) }
{
    if keys.len() > MOST_ENTRIES {
        return Err(TableFault::TooLarge);
    }
    let mut bytes = Vec::new(alloc);
    put_head(&mut bytes, keys.len() as u16)?;
    for key in keys {
        put_entry(&mut bytes, key)?;
    }
    Ok(bytes)
}

/// Adds what stands before the entries: the separators, the length of an entry and the number of
/// entries.
fn put_head(bytes: &mut Vec<u8>, entries: u16) -> Result<(), TableFault>
    ensures put { OnOk result (bytes.new.items ≡ bytes.old.items ++ head_bytes entries) }
    ensures memory { IfErr result (λ e. e ≡ Memory) }
{
    bytes.extend_from_slice(&[3, b'.', b',', b'"', DICTIONARY_ENTRY_LENGTH as u8])?;
    bytes.push((entries / 256) as u8)?;
    bytes.push((entries % 256) as u8)?;
    Ok(())
}

/// Adds an entry: its key, and three bytes of data that are 0.
fn put_entry(bytes: &mut Vec<u8>, key: &[u8; 6]) -> Result<(), TableFault>
    ensures put { OnOk result (bytes.new.items ≡ bytes.old.items ++ entry_bytes key.now) }
    ensures memory { IfErr result (λ e. e ≡ Memory) }
{
    bytes.extend_from_slice(key)?;
    bytes.extend_from_slice(&[0; 3])?;
    Ok(())
}
