//! Kinds of tokens in words.

use crate::groups::{Group, Grouped};
use crate::kinds::TokenKind;
use std::fmt::{self, Display, Formatter};
use syntax::{Sign, Word};

/// The kinds that are expected, as one says them: `';' or an operator`. `another token` if they are
/// not known.
#[derive(Clone, Copy)]
pub struct Expected<'a>(pub Option<&'a Grouped>);

/// Rows of a variant of a type and its bytes.
macro_rules! spellings {
    ($of:ident: $($variant:ident $bytes:literal)+) => { [$(($of::$variant, $bytes)),+] };
}

/// The signs, and their bytes.
const SIGNS: [(Sign, &str); 34] = spellings!(
    Sign:
    OpenParenthesis "(" CloseParenthesis ")" OpenBrace "{" CloseBrace "}" OpenBracket "["
    CloseBracket "]" Semicolon ";" Comma "," Colon ":" Dot "." DotAmpersand ".&" DotHash ".#"
    Assign "=" Equal "==" NotEqual "~=" Not "~~" Tilde "~" Greater ">" GreaterOrEqual ">=" Less "<"
    LessOrEqual "<=" AndAlso "&&" Ampersand "&" OrElse "||" Bar "|" Plus "+" Increment "++"
    Minus "-" Decrement "--" Arrow "->" LongArrow "-->" Star "*" Slash "/" Percent "%"
);

/// The reserved words, and their bytes in small letters.
pub const RESERVED_WORDS: [(Word, &str); 46] = spellings!(
    Word:
    Abbreviate "abbreviate" Array "array" Attribute "attribute" Break "break" Char "char"
    Child "child" Constant "constant" Continue "continue" Default "default" Do "do" Else "else"
    False "false" For "for" Give "give" Global "global" Has "has" Hasnt "hasnt" If "if" In "in"
    Move "move" NewLine "new_line" Nothing "nothing" Notin "notin" Object "object"
    Objectloop "objectloop" Or "or" Parent "parent" Print "print" PrintRet "print_ret"
    Property "property" Provides "provides" Quit "quit" Read "read" Remove "remove" Return "return"
    Rfalse "rfalse" Rtrue "rtrue" Sibling "sibling" String "string" Switch "switch" Table "table"
    To "to" True "true" Until "until" While "while" With "with"
);

/// The bytes of a sign.
fn sign(sign: Sign) -> &'static str {
    for row in &SIGNS {
        if row.0 as u8 == sign as u8 {
            return row.1;
        }
    }
    ""
}

/// The bytes of a reserved word, in small letters.
fn word(word: Word) -> &'static str {
    for row in &RESERVED_WORDS {
        if row.0 as u8 == word as u8 {
            return row.1;
        }
    }
    ""
}

/// The name of a kind of tokens, and what is before and after it.
fn kind_name(kind: TokenKind) -> (&'static str, &'static str) {
    match kind {
        TokenKind::Name => ("a name", ""),
        TokenKind::Number => ("a number", ""),
        TokenKind::Text => ("a text", ""),
        TokenKind::Character => ("a character", ""),
        TokenKind::DictionaryWord => ("a dictionary word", ""),
        TokenKind::Reserved(reserved) => (word(reserved), "'"),
        TokenKind::Sign(written) => (sign(written), "'"),
        TokenKind::End => ("the end of the source", ""),
    }
}

impl Display for TokenKind {
    fn fmt<W: fmt::Write>(&self, f: &mut Formatter<W>) -> fmt::Result {
        let (name, quote) = kind_name(*self);
        write!(f, "{quote}{name}{quote}")
    }
}

/// The name of a group.
fn group_name(group: Group) -> &'static str {
    match group {
        Group::Statement => "a statement",
        Group::Expression => "an expression",
        Group::Operand => "an operand",
        Group::Value => "a value",
        Group::Operator => "an operator",
        Group::BinaryOperator => "a binary operator",
        Group::Directive => "a directive",
    }
}

/// The name of the kind or the group of a number, and what is before and after it.
fn name_at(grouped: &Grouped, number: usize) -> (&'static str, &'static str) {
    let beyond = number.saturating_sub(grouped.kinds.len());
    match (grouped.kinds.get(number), grouped.groups.get(beyond)) {
        (Some(kind), _) => kind_name(*kind),
        (None, Some(group)) => (group_name(*group), ""),
        (None, None) => ("", ""),
    }
}

/// What stands before one of several items in a list: nothing before the first, `or` before the
/// last.
fn joint(number: usize, count: usize) -> &'static str {
    if number == 0 {
        ""
    } else if number.saturating_add(1) == count {
        " or "
    } else {
        ", "
    }
}

impl Display for Expected<'_> {
    fn fmt<W: fmt::Write>(&self, f: &mut Formatter<W>) -> fmt::Result {
        let Some(grouped) = self.0 else {
            return f.write_str("another token");
        };
        let count = grouped.kinds.len().saturating_add(grouped.groups.len());
        for number in 0..count {
            let (name, quote) = name_at(grouped, number);
            write!(f, "{}{quote}{name}{quote}", joint(number, count))?;
        }
        Ok(())
    }
}
