//! The search of a dictionary in whatever order its entries are (Z-Machine Standards Document 1.1,
//! sections 13 and 15, `tokenise`).

ghost use Rattle.std.specs.Prelude.{◌≡◌, ◌==◌, ◌||◌, ◌+◌, ◌-◌, ◌*◌, ◌≤◌, nat_le, false, true, MatchOption};
ghost use Rattle.zcore.specs.Arithmetic.{magnitude};
ghost use Rattle.zcore.specs.Dictionary.{entry_in, entry_of, is_dictionary, number_of_key};
ghost use Rattle.zcore.specs.Header.{IsDictionary};
ghost use Rattle.tables.specs.Unordered.{AreEntriesOf, AreKeysWithin, IsHeadOf, IsHeadless};

use crate::dictionary::{Entries, end_of_static, lookup, read_key};
use byteorder::{BigEndian, ByteOrder};
use zcore::layout::KEY_LENGTH;

/// From this number on, the number of entries is negative: they are in no order.
const NO_ORDER: usize = 32_768;

/// What comes before the entries of the dictionary at an address, where it can be read. The count is
/// the number as it is stated.
fn head_at(story: &[u8], dictionary: u16) -> Option<Entries>
    ensures { MatchOption result (IsHeadless story.now dictionary)
        (IsHeadOf story.now dictionary) }
{
    let end = end_of_static(story);
    let start = usize::from(dictionary);
    if start >= end {
        return None;
    }
    let lengths = start + 1 + usize::from(story[start]);
    let first = lengths + 3;
    if first > end {
        return None;
    }
    let bytes = usize::from(story[lengths]);
    let count = usize::from(BigEndian::read_u16(&story[lengths + 1..]));
    Some(Entries {
        first,
        bytes,
        count,
    })
}

/// How many entries a number states: a negative number is of entries in no order.
fn entries_stated(count: usize) -> usize
    requires { count ≤ 65535 }
    ensures { result ≡ magnitude count }
{
    if count < NO_ORDER {
        count
    } else {
        65_536 - count
    }
}

/// Whether the key of each entry ends before an address.
fn are_keys_within(entries: Entries, end: usize) -> bool
    requires first { entries.first ≤ 65536 }
    requires short { entries.bytes ≤ 255 }
    requires few { entries.count ≤ 32768 }
    ensures { result ≡ ((entries.count == 0)
        || nat_le (entries.first + (entries.count - 1) * entries.bytes + 6) end) }
{
    entries.count == 0 || entries.first + (entries.count - 1) * entries.bytes + KEY_LENGTH <= end
}

/// The entries of the dictionary at an address, where what comes before them and the key of each
/// can be read.
fn readable_at(story: &[u8], dictionary: u16) -> Option<Entries>
    ensures { MatchOption result (is_dictionary story.now dictionary ≡ false)
        (AreEntriesOf story.now dictionary) }
{
    match head_at(story, dictionary) {
        Some(head) => readable_after(story, dictionary, head),
        None => None,
    }
}

/// The entries after a head.
fn readable_after(story: &[u8], dictionary: u16, head: Entries) -> Option<Entries>
    requires { IsHeadOf story.now dictionary head }
    ensures { MatchOption result (is_dictionary story.now dictionary ≡ false)
        (AreEntriesOf story.now dictionary) }
{
    let entries = Entries {
        first: head.first,
        bytes: head.bytes,
        count: entries_stated(head.count),
    };
    if are_keys_within(entries, end_of_static(story)) {
        Some(entries)
    } else {
        None
    }
}

/// Whether there is a dictionary at an address that can be read: what comes before its entries, and
/// the key of each.
pub fn is_dictionary(story: &[u8], dictionary: u16) -> bool
    ensures { result ≡ is_dictionary story.now dictionary }
{
    readable_at(story, dictionary).is_some()
}

/// The address of the first entry that has the key, or 0.
fn find_first(story: &[u8], entries: Entries, key: u64) -> u16
    requires { AreKeysWithin story.now entries }
    ensures { result ≡ entry_in story.now entries.first entries.bytes entries.count key }
{
    for k in 0..entries.count {
        let at = entries.first + k * entries.bytes;
        if read_key(story, at) == key {
            return at as u16;
        }
    }
    0
}

/// The address of the first entry of a dictionary that has the key, or 0. Where the dictionary is
/// known to be in order it is searched by halving, and otherwise from its first entry to its last.
/// One that cannot be read has no entry.
pub fn find_entry(story: &[u8], dictionary: u16, is_ordered: bool, key: &[u8; 6]) -> u16
    requires { is_ordered ≡ true → IsDictionary story.now dictionary }
    ensures { result ≡ entry_of story.now dictionary (number_of_key key.now) }
{
    if is_ordered {
        return lookup(story, dictionary, key);
    }
    match readable_at(story, dictionary) {
        Some(entries) => find_first(story, entries, BigEndian::read_u48(key)),
        None => 0,
    }
}
