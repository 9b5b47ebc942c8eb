//! Why a source is refused.

ghost use Rattle.std.specs.Prelude.{◌≡◌};
ghost use Rattle.syntax_lexer.specs.FaultNumbers.{no_memory};
ghost use Rattle.syntax_lexer.specs.Placed.{nowhere};
ghost use Rattle.syntax_lexer.specs.Tokens.{number_of};

use std::alloc::{AllocError, AllocFailed};
use std::error::Error;
use std::fmt;

/// E01: a byte that may stand in no source, or one that begins no token.
pub const STRAY_BYTE: u8 = 1;

/// E02: a text, a character or a dictionary word that is unfinished, or has a byte that it may not
/// have.
pub const BAD_TEXT: u8 = 2;

/// E03: a number without digits, above 65,535, or with a byte of names directly after it.
pub const BAD_NUMBER: u8 = 3;

/// E04: a name of more than 32 bytes.
pub const NAME_TOO_LONG: u8 = 4;

/// E05: more than 100 nestings.
pub const NESTED_TOO_DEEP: u8 = 5;

/// E10: a token with which no program can go on.
pub const NOT_IN_GRAMMAR: u8 = 10;

/// E20: a name that is not defined, or not yet where it must be.
pub const UNKNOWN_NAME: u8 = 20;

/// E21: no routine `Main`, or one with locals.
pub const NO_PROPER_MAIN: u8 = 21;

/// E22: a name that is defined twice.
pub const DEFINED_TWICE: u8 = 22;

/// E23: a name of another kind than is wanted there.
pub const WRONG_KIND: u8 = 23;

/// E24: more of a kind than the language allows.
pub const TOO_MANY: u8 = 24;

/// E25: a call with more arguments than the routine has locals.
pub const TOO_MANY_ARGUMENTS: u8 = 25;

/// E26: `=`, `++` or `--` on what is no variable.
pub const NOT_ASSIGNABLE: u8 = 26;

/// E27: a `break` or `continue` outside a loop.
pub const BREAK_OUTSIDE: u8 = 27;

/// E28: an entry or a size that an array may not have.
pub const BAD_ARRAY: u8 = 28;

/// E29: an expression that needs more than 48 temporaries.
pub const EXPRESSION_TOO_LARGE: u8 = 29;

/// E30: parts of a story before its routines that have more than 65,535 bytes.
pub const TABLES_TOO_LARGE: u8 = 30;

/// E31: a source whose weight is above the limit of its version.
pub const STORY_TOO_LARGE: u8 = 31;

/// E32: a routine whose weight is above 32,000.
pub const ROUTINE_TOO_LARGE: u8 = 32;

/// E33: an abbreviation of fewer than two characters, or one that stands earlier.
pub const BAD_ABBREVIATION: u8 = 33;

/// E99: a growth of memory was refused. The line is 0.
pub const NO_MEMORY: u8 = 99;

/// Why a source is refused: the broken rule's number, and the line of the place where it is broken.
/// `Display` writes `line 3: E20 unknown name`, and without a line `E20 unknown name`.
#[derive(Clone, Copy, Debug, PartialEq, Eq)]
pub struct SourceFault {
    /// From 1 (E01) to 99 (E99: memory was refused).
    pub number: u8,

    /// Lines count from 1; 0 where no place is named.
    pub line: usize,
}

impl SourceFault {
    /// The broken rule in words, as `unknown name`.
    pub fn rule(self) -> &'static str {
        rule_of(self.number)
    }
}

// The rule of a number, in words.
fn rule_of(number: u8) -> &'static str {
    match number {
        STRAY_BYTE => "stray byte",
        BAD_TEXT => "bad text or word",
        BAD_NUMBER => "bad number",
        NAME_TOO_LONG => "name too long",
        NESTED_TOO_DEEP => "nested too deep",
        NOT_IN_GRAMMAR => "not in the grammar",
        UNKNOWN_NAME => "unknown name",
        NO_PROPER_MAIN => "no proper Main",
        DEFINED_TWICE => "name defined twice",
        WRONG_KIND => "wrong kind of name",
        TOO_MANY => "too many",
        TOO_MANY_ARGUMENTS => "too many arguments for the routine",
        NOT_ASSIGNABLE => "not assignable",
        BREAK_OUTSIDE => "break or continue outside",
        BAD_ARRAY => "array entry or size",
        EXPRESSION_TOO_LARGE => "expression too large",
        TABLES_TOO_LARGE => "tables too large",
        STORY_TOO_LARGE => "story too large",
        ROUTINE_TOO_LARGE => "routine too large",
        BAD_ABBREVIATION => "bad abbreviation",
        NO_MEMORY => "no memory",
        _ => "refused",
    }
}

impl fmt::Display for SourceFault {
    fn fmt<W: fmt::Write>(&self, f: &mut fmt::Formatter<W>) -> fmt::Result {
        if self.line != 0 {
            write!(f, "line {}: ", self.line)?;
        }
        write!(f, "E{:02} {}", self.number, self.rule())
    }
}

impl Error for SourceFault {}

impl From<AllocError> for SourceFault {
    ghost from_gives = { λ _ e. e ≡ no_memory };

    fn from(_e: AllocError) -> SourceFault {
        SourceFault {
            number: NO_MEMORY,
            line: 0,
        }
    }
}

impl<T: Drop> From<AllocFailed<T>> for SourceFault {
    ghost from_gives = { λ _ e. e ≡ no_memory };

    fn from(_e: AllocFailed<T>) -> SourceFault {
        SourceFault {
            number: NO_MEMORY,
            line: 0,
        }
    }
}

/// Why a source is refused, and where: the offset of the token or byte at fault; none where no place
/// is named.
#[derive(Clone, Copy, Debug, PartialEq, Eq)]
pub struct PlacedFault {
    pub fault: SourceFault,

    /// The offset in the source of the first byte of what is at fault.
    pub offset: Option<usize>,
}

impl From<AllocError> for PlacedFault {
    ghost from_gives = { λ _ p. p ≡ nowhere no_memory };

    fn from(e: AllocError) -> PlacedFault {
        PlacedFault {
            fault: SourceFault::from(e),
            offset: None,
        }
    }
}

impl<T: Drop> From<AllocFailed<T>> for PlacedFault {
    ghost from_gives = { λ _ p. p ≡ nowhere no_memory };

    fn from(e: AllocFailed<T>) -> PlacedFault {
        PlacedFault {
            fault: SourceFault::from(e),
            offset: None,
        }
    }
}

/// The rules of tokens.
#[derive(Clone, Copy)]
pub enum LexicalFault {
    /// E01
    StrayByte,

    /// E02
    BadText,

    /// E03
    BadNumber,

    /// E04
    NameTooLong,
}

impl LexicalFault {
    /// The number by which programs name the rule.
    pub fn number(self) -> u8
        ensures { result ≡ number_of self }
    {
        match self {
            LexicalFault::StrayByte => STRAY_BYTE,
            LexicalFault::BadText => BAD_TEXT,
            LexicalFault::BadNumber => BAD_NUMBER,
            LexicalFault::NameTooLong => NAME_TOO_LONG,
        }
    }
}
