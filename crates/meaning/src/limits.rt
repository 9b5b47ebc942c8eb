//! The limits of the language, each once. Those of the machine are in `zcore::layout`.

/// The globals of a source. Variables 16 to 255 are 240, and eight hold temporaries.
pub const MOST_GLOBALS: usize = 232;

/// The properties that a source defines, beside `name`.
pub const MOST_PROPERTIES: usize = 62;

/// The words of a property's value.
pub const MOST_PROPERTY_WORDS: usize = 32;

/// The objects of a source.
pub const MOST_OBJECTS: usize = 2000;

/// The bytes of an array.
pub const MOST_ARRAY_BYTES: usize = 32_000;

/// The arguments of a call.
pub const MOST_ARGUMENTS: usize = 7;

/// What a source of version 5 weighs.
pub const GREATEST_WEIGHT_5: u128 = 190_000;

/// What a source of version 8 weighs.
pub const GREATEST_WEIGHT_8: u128 = 450_000;

/// What a routine weighs.
pub const GREATEST_ROUTINE_WEIGHT: u128 = 32_000;

/// The temporaries of an expression of a statement.
pub const MOST_TEMPORARIES: u8 = 48;
