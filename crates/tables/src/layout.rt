//! How the dictionary is laid out that we write (Z-Machine Standards Document 1.1, section 13.2).

/// How many bytes stand before the entries: how many separators there are, the three of them, the
/// length of an entry, and a word with the number of entries.
pub const DICTIONARY_HEAD_LENGTH: usize = 7;

/// How many bytes an entry has: those of the key, and three of data.
pub const DICTIONARY_ENTRY_LENGTH: usize = 9;
