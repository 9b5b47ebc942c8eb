//! The dictionary of a story, searched (Z-Machine Standards Document 1.1, section 13).

ghost use Rattle.std.specs.Prelude.{◌≡◌, ◌+◌, ◌≤◌, length, MatchOption};
ghost use Rattle.zcore.specs.Header.{key_at, static_end, AreAscending, IsDictionary};
ghost use Rattle.zcore.specs.Dictionary.{number_of_key};
ghost use Rattle.tables.specs.Dictionary.{Finds};
ghost use Rattle.tables.specs.Searched.{AreEntriesAt, AreWhole, IsFoundIn};

use byteorder::{BigEndian, ByteOrder};
use zcore::layout::{KEY_LENGTH, READABLE};

/// The entries of a dictionary.
#[derive(Clone, Copy)]
pub(crate) struct Entries {
    /// The address of the first.
    pub(crate) first: usize,
    /// The bytes of one.
    pub(crate) bytes: usize,
    pub(crate) count: usize,
}

/// The address of the entry that has the key, or 0 where none has it. It asks nothing of the story:
/// where there is no dictionary that can be searched at the address, it answers some number.
pub fn lookup(story: &[u8], dictionary: u16, key: &[u8; 6]) -> u16
    ensures { IsDictionary story.now dictionary
        → Finds story.now dictionary (number_of_key key.now) result }
{
    match entries_at(story, dictionary) {
        Some(entries) => find(story, entries, BigEndian::read_u48(key)),
        None => 0,
    }
}

/// Where dynamic and static memory end at the latest.
pub(crate) fn end_of_static(story: &[u8]) -> usize
    ensures { result ≡ static_end story.now }
{
    story.len().min(READABLE)
}

/// The entries of the dictionary at an address, where they are whole and long enough for a key.
fn entries_at(story: &[u8], dictionary: u16) -> Option<Entries>
    ensures { MatchOption result (¬ IsDictionary story.now dictionary)
        (AreEntriesAt story.now dictionary) }
{
    let end = end_of_static(story);
    let start = usize::from(dictionary);
    if start >= end {
        return None;
    }
    let lengths = start + 1 + usize::from(story[start]);
    let first = lengths + 3;
    if first > end {
        return None;
    }
    let bytes = usize::from(story[lengths]);
    let count = usize::from(BigEndian::read_u16(&story[lengths + 1..]));
    if bytes < KEY_LENGTH || first + count * bytes > end {
        return None;
    }
    Some(Entries {
        first,
        bytes,
        count,
    })
}

/// The address of the entry that has the key, or 0: a search by halving, which asks that keys
/// ascend.
fn find(story: &[u8], entries: Entries, key: u64) -> u16
    requires { AreWhole story.now entries }
    ensures { AreAscending story.now entries.first entries.bytes entries.count
        → IsFoundIn story.now entries key result }
{
    let mut low = 0;
    let mut high = entries.count;
    while low < high {
        let middle = low + (high - low) / 2;
        let at = entries.first + middle * entries.bytes;
        let here = read_key(story, at);
        if here == key {
            return at as u16;
        }
        if here < key {
            low = middle + 1;
        } else {
            high = middle;
        }
    }
    0
}

/// The six bytes of the key at an address, as a number.
#[tactic(auto, unfolding(zcore::specs::Header::key_at))]
pub(crate) fn read_key(story: &[u8], at: usize) -> u64
    requires { at + 6 ≤ length story.now }
    ensures { result ≡ key_at story.now at }
{
    BigEndian::read_u48(&story[at..])
}
