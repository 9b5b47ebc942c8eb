//! The sizes and counts of the Z-machine, each once (Z-Machine Standards Document 1.1).

/// How many bytes from the beginning of memory instructions can read, and how many an address of 16
/// bits can name (section 1.1.2).
pub const READABLE: usize = 0x1_0000;

/// How many bytes the header has (section 1.1.1.1).
pub const HEADER_LENGTH: usize = 64;

/// The places of the header's words (section 11.1): where high memory begins.
pub const HIGH_MEMORY_WORD: usize = 0x04;

/// The first instruction.
pub const FIRST_INSTRUCTION_WORD: usize = 0x06;

/// The dictionary.
pub const DICTIONARY_WORD: usize = 0x08;

/// The object table, which begins with the property defaults.
pub const DEFAULTS_WORD: usize = 0x0A;

/// The globals.
pub const GLOBALS_WORD: usize = 0x0C;

/// Where static memory begins.
pub const STATIC_BASE_WORD: usize = 0x0E;

/// The table of abbreviations.
pub const ABBREVIATIONS_WORD: usize = 0x18;

/// The length of the story, by its version's scale.
pub const LENGTH_WORD: usize = 0x1A;

/// The sum of the bytes behind the header.
pub const SUM_WORD: usize = 0x1C;

/// The greatest length that a story can state: 65,535 times the greatest scale (section 11.1.6).
pub const LONGEST_STORY: usize = 524_280;

/// How many words of globals there are (section 6.2).
pub const GLOBAL_COUNT: usize = 240;

/// How many words of property defaults there are (section 12.2).
pub const DEFAULT_COUNT: usize = 63;

/// The greatest number of a property.
pub const LAST_PROPERTY: u16 = DEFAULT_COUNT as u16;

/// How many bytes the property defaults have.
pub const DEFAULTS_LENGTH: usize = 2 * DEFAULT_COUNT;

/// How many attributes an object has (section 12.3.2).
pub const ATTRIBUTE_COUNT: u16 = 48;

/// How many bytes an object's entry has (section 12.3.2).
pub const OBJECT_ENTRY_LENGTH: usize = 14;

/// How many words of Z-text a short name has at most: a byte tells it (section 12.4).
pub const LONGEST_SHORT_NAME: usize = 255;

/// How many bytes a key of a dictionary has (section 13.4).
pub const KEY_LENGTH: usize = 6;

/// How many locals a routine has at most (section 5.2).
pub const MOST_LOCALS: usize = 15;

/// The character that ends a line (section 3.8.2.5).
pub const NEW_LINE: u8 = 13;
