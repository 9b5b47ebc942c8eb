//! The search of a dictionary whose keys have four bytes (Z-Machine Standards Document 1.1, section 13).

ghost use Rattle.std.specs.Prelude.{◌≡◌, ◌==◌, ◌||◌, ◌+◌, ◌-◌, ◌*◌, ◌≤◌, nat_le, drop, length};
ghost use Rattle.byteorder.specs.Endian.{big_number};
ghost use Rattle.zcore.specs.Arithmetic.{magnitude};
ghost use Rattle.zcore.specs.Header.{HasDictionaryHead, static_end};
ghost use Rattle.zcore_versions.specs.Keys as definitions;
ghost use Rattle.machine_versions_words.specs.Parts.{AreEntriesOf, AreKeysWithin};

use byteorder::{BigEndian, ByteOrder};
use zcore::layout::READABLE;

/// The bytes of a key up to version 3.
pub(crate) const SMALL_KEY: usize = 4;

/// From this number on, the number of entries is negative: they are in no order.
const NO_ORDER: u16 = 32_768;

/// The entries of a dictionary.
#[derive(Clone, Copy)]
pub(crate) struct Entries {
    /// The address of the first.
    pub(crate) first: usize,
    /// The bytes of one.
    pub(crate) bytes: usize,
    pub(crate) count: usize,
}

/// How many entries a number states: a negative number is of entries in no order.
fn magnitude(count: u16) -> u16
    ensures same { result ≡ magnitude count }
    ensures few { result ≤ 32768 }
{
    if count < NO_ORDER {
        count
    } else {
        count.wrapping_neg()
    }
}

/// The entries of the dictionary at an address, whose head can be read.
fn entries_at(memory: &[u8], dictionary: u16) -> Entries
    requires { HasDictionaryHead memory.now dictionary }
    ensures { AreEntriesOf memory.now dictionary result }
{
    let start = dictionary as usize;
    let lengths = start + 1 + memory[start] as usize;
    let count = memory[lengths + 1] as u16 * 256 + memory[lengths + 2] as u16;
    Entries {
        first: lengths + 3,
        bytes: memory[lengths] as usize,
        count: magnitude(count) as usize,
    }
}

/// Where dynamic and static memory end at the latest.
fn end_of_static(memory: &[u8]) -> usize
    ensures { result ≡ static_end memory.now }
{
    memory.len().min(READABLE)
}

/// Whether the key of each entry, of so many bytes, ends before an address.
fn are_keys_within(entries: Entries, size: usize, end: usize) -> bool
    requires first { entries.first ≤ 65536 }
    requires short { entries.bytes ≤ 255 }
    requires few { entries.count ≤ 32768 }
    requires size { size ≤ 6 }
    ensures { result ≡ ((entries.count == 0)
        || nat_le (entries.first + (entries.count - 1) * entries.bytes + size) end) }
{
    entries.count == 0 || entries.first + (entries.count - 1) * entries.bytes + size <= end
}

/// The address of the first entry that has the key, or 0.
fn find_first(memory: &[u8], entries: Entries, key: u32) -> u16
    requires { AreKeysWithin memory.now entries }
    ensures { result ≡ definitions.entry_in 4 memory.now entries.first entries.bytes entries.count key }
{
    for k in 0..entries.count {
        let at = entries.first + k * entries.bytes;
        if read_key(memory, at) == key {
            return at as u16;
        }
    }
    0
}

/// The four bytes of the key at an address, as a number.
fn read_key(memory: &[u8], at: usize) -> u32
    requires { at + 4 ≤ length memory.now }
    ensures { result ≡ big_number 4 (drop at memory.now) }
{
    BigEndian::read_u32(&memory[at..])
}

/// The address of the first entry that has a key of four bytes, or 0. A dictionary that cannot be read
/// has none.
pub(crate) fn find_small(memory: &[u8], dictionary: u16, key: &[u8; 4]) -> u16
    requires { HasDictionaryHead memory.now dictionary }
    ensures { result ≡ definitions.entry_of 4 memory.now dictionary (big_number 4 key.now) }
{
    let entries = entries_at(memory, dictionary);
    if !are_keys_within(entries, SMALL_KEY, end_of_static(memory)) {
        return 0;
    }
    find_first(memory, entries, BigEndian::read_u32(key))
}
