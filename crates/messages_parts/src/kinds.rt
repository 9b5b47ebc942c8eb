//! Kinds of tokens, and sets of them.

use crate::tokens::kind_at;
use syntax_lexer::{Kind, Token};

/// The kind of a token without what it holds.
#[derive(Clone, Copy)]
pub enum Class {
    Name,
    Number,
    Text,
    Character,
    DictionaryWord,
    Reserved,
    Sign,
    End,
}

/// A set of kinds of tokens, with a bit for each class, sign and reserved word.
#[derive(Clone, Copy)]
pub struct Kinds {
    pub classes: u64,
    pub signs: u64,
    pub words: u64,
}

/// A set of kinds: classes, signs and reserved words, or one that has a name. An `Operator` is one that
/// other languages join with `=`, and a `Joint` one with which they join texts. An item of a `print`
/// is after an `Item`. A condition begins after a `ConditionEnd`, and what is compared or tested after
/// a `TestEnd`.
#[macro_export]
macro_rules! kinds {
    (($($class:ident)*) ($($sign:ident)*) ($($word:ident)*)) => {
        $crate::Kinds {
            classes: 0 $(| 1 << $crate::Class::$class as u64)*,
            signs: 0 $(| 1 << $crate::Sign::$sign as u64)*,
            words: 0 $(| 1 << $crate::Word::$word as u64)*,
        }
    };
    (Is Value) => { $crate::kinds!(Is Number Character DictionaryWord) };
    (Is Quoted) => { $crate::kinds!(Is Character DictionaryWord) };
    (Is Divider) => { $crate::kinds!(Sign Semicolon OpenBrace CloseBrace) };
    (Is Opening) => { $crate::kinds!(Sign OpenParenthesis OpenBracket OpenBrace) };
    (Is Operator) => { $crate::kinds!(Sign Plus Minus Star Slash Percent Ampersand Bar) };
    (Is Comparison) => {
        $crate::kinds!(Sign Equal NotEqual Greater GreaterOrEqual Less LessOrEqual,
            Word In Notin Has Hasnt Provides)
    };
    (Is Item) => { $crate::kinds!(Sign Comma, Word Print PrintRet) };
    (Is Joint) => {
        $crate::kinds!(Sign Plus Minus Star Slash Percent Ampersand Bar Dot Less Tilde)
    };
    (Is StatementWord) => {
        $crate::kinds!(Word If Print PrintRet Switch Quit NewLine Move Give Remove Read For While
            Objectloop Break Continue)
    };
    (Is Definition) => {
        $crate::kinds!(Sign OpenBracket, Word Global Constant Array Attribute Property Object)
    };
    (Is ValueEnd) => {
        $crate::kinds!(Sign Semicolon Assign CloseParenthesis Comma Colon CloseBrace CloseBracket)
    };
    (Is ConditionEnd) => {
        $crate::kinds!(Sign AndAlso OrElse OpenParenthesis Comma Assign Semicolon OpenBrace CloseBrace)
    };
    (Is TestEnd) => {
        $crate::kinds!(Sign AndAlso OrElse Semicolon OpenBrace CloseBrace
            Equal NotEqual Greater GreaterOrEqual Less LessOrEqual, Word In Notin Has Hasnt Provides)
    };
    (Is $($class:ident)+) => { $crate::kinds!(($($class)+) () ()) };
    (Is $($class:ident)+, Sign $($sign:ident)+) => { $crate::kinds!(($($class)+) ($($sign)+) ()) };
    (Is $($class:ident)+, Word $($word:ident)+) => { $crate::kinds!(($($class)+) () ($($word)+)) };
    (Is $($class:ident)+, Sign $($sign:ident)+, Word $($word:ident)+) => {
        $crate::kinds!(($($class)+) ($($sign)+) ($($word)+))
    };
    (Sign $($sign:ident)+) => { $crate::kinds!(() ($($sign)+) ()) };
    (Sign $($sign:ident)+, Word $($word:ident)+) => { $crate::kinds!(() ($($sign)+) ($($word)+)) };
    (Word $($word:ident)+) => { $crate::kinds!(() () ($($word)+)) };
}

/// Whether a member is in a set.
pub fn has(set: u64, member: u8) -> bool {
    set.wrapping_shr(u32::from(member)) & 1 == 1
}

/// The kind of a token, without what it holds.
fn class_of(kind: Kind<'_>) -> Class {
    match kind {
        Kind::Name(_) => Class::Name,
        Kind::Number(_) => Class::Number,
        Kind::Text(_) => Class::Text,
        Kind::Character(_) => Class::Character,
        Kind::DictionaryWord(_) => Class::DictionaryWord,
        Kind::Reserved(_) => Class::Reserved,
        Kind::Sign(_) => Class::Sign,
        Kind::End => Class::End,
    }
}

/// Whether the token of a number is of a kind in a set.
pub fn is_of(tokens: &[Token<'_>], number: usize, kinds: Kinds) -> bool {
    let kind = kind_at(tokens, number);
    has(kinds.classes, class_of(kind) as u8)
        || match kind {
            Kind::Sign(sign) => has(kinds.signs, sign as u8),
            Kind::Reserved(word) => has(kinds.words, word as u8),
            _ => false,
        }
}
