//! What is told within a `switch` and an `if`.

use messages_parts::Say::{Absent, Do, Nothing};
use messages_parts::{LABELS, Step, rules};

const DEFAULT: &str = "write 'default:' after the other cases";

const COMMA: &str = "write ',' between the values of a case";

const CONDITION: &str =
    "a case lists values, or a range as '1 to 9': write other conditions with 'if'";

const WORDS: &str = "write the words of a case in single quotes";

const BLOCK: &str = "write '{' in its place, and '}' after the last statement";

const ONE_COLON: &str = "remove it: one ':' is enough";

/// Where two signs side by side are none of another language: in a case, and after what is printed.
pub static NO_PAIRS: &[Step] = rules! {
    Here[InSwitch] Here[Sign Colon] Next[not Sign Assign] | Here[InSwitch] Here[InCase]
        | Here[Sign Less] Last[Is Text, Word Print]
        => Nothing,
};

/// What is told of an `else` without an `if`.
pub static ELSES: &[Step] = rules! {
    Here[not Word Else] | Here[not First] => Nothing,
    Next[Sign Colon] Here[InSwitch] => Do(DEFAULT),
    Last[Sign Semicolon] SecondLast[Sign CloseBrace Semicolon] => Do("remove the ';' before it"),
    Here[AfterElse] => Do("an 'if' has one 'else': write 'else if' before another condition"),
    Here[InSwitch] Here[After (Word If) (Sign OpenBracket Colon)]
        | Here[not InSwitch] Here[After (Word If) (Sign OpenBracket)]
        => Do("put '{' and '}' around the statements between the 'if' and it"),
    Here[InSwitch] => Do(DEFAULT),
};

/// What is told where a case of a `switch` may begin, and of one in a block of the case before it.
pub static CASES: &[Step] = rules! {
    Here[Sign Colon Comma, Word To] Here[not InSwitch] Brace[InSwitch] Here[InCase]
        => Do("write '}' before this case: a block before it is open"),
    Here[Word Else] | Here[not InSwitch] => Nothing,
    Here[Word Default] Here[Outside (Word Default) (Sign OpenBrace)]
        => Do("a 'switch' has one 'default:' at most"),
    Last[Word Default] Here[not Is Sign] | Last[Word Default] Here[Sign OpenParenthesis]
        => Do("write ':' right after 'default'"),
    Here[Sign Star] Next[Sign Colon] => Do(DEFAULT),
    Here[Sign Colon Comma] Last[Is Text] Last[First] | Next[Sign Colon Comma] Here[Is Text] Here[First] => Do(WORDS),
    Here[Sign Colon Comma, Word To] Here[Outside (Word Default) (Sign OpenBrace)] Here[InCase]
        => Do("write 'default:' after all other cases"),
    Last[Sign OpenBrace] Here[Is StatementWord] => Do("begin with a value and ':', as in '1: print 2;'"),
    Last[Sign OpenBrace] Here[Sign OpenParenthesis] => Do("write the values of a case without parentheses"),
    Here[Sign Less LessOrEqual Greater GreaterOrEqual] Here[First] => Do(CONDITION),
};

/// What is told among the values of a case.
pub static VALUES_OF_CASES: &[Step] = rules! {
    Here[Word Else] | Here[not InSwitch] | Here[not InCase] => Nothing,
    Here[Is Number Character DictionaryWord, Sign OrElse Bar Slash Ampersand, Word Or] => Do(COMMA),
    Here[Sign Dot Decrement] | Here[Sign Minus] SecondNext[Sign Colon] => Do("write 'to' between two values"),
    Here[Sign Arrow LongArrow Assign Greater OpenBrace] => Do("write ':' after the values of a case"),
    Here[Sign Semicolon] Next[Sign Colon] => Do("remove it"),
    Here[Sign Semicolon] => Do("write ':' in its place, after the values of a case"),
    Here[Sign Less LessOrEqual GreaterOrEqual Equal NotEqual] => Do(CONDITION),
    Here[Is Text] => Do(WORDS),
};

/// What is told of a `:`.
pub static COLONS: &[Step] = rules! {
    Here[not Sign Colon] => Nothing,
    Last[Closes If While For Objectloop Switch] | Last[Word Do] => Do(BLOCK),
    Last[Word Else] Here[InSwitch] => Do(DEFAULT),
    Last[Word Else] => Do(BLOCK),
    Here[InSwitch] Next[Sign Colon] | Here[InSwitch] Last[Sign Colon] => Do(ONE_COLON),
    Here[InSwitch] Last[Sign Semicolon] => Do("remove the ';' before it"),
    Here[InSwitch] => Nothing,
    Last[First] Last[Unknown] => Absent("a label", LABELS),
    Last[First] Last[Is Name] => Do("write '=' to assign"),
    Here[Joined] Last[Is Name] Last[not Unknown]
        => Do("write 'lamp.size' for a property, 'a->0' for an entry of an array"),
    Here[InCase] => Do("a case is only in the block of a 'switch'"),
};
