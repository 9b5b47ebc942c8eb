//! What is told of a token if no small change helps.

use messages_parts::Say::{Absent, Do, Nothing};
use messages_parts::{SETTINGS, Step, rules};

const OUTSIDE: &str = "put the statement into a routine: '];' ends one, and '[' begins the next";

/// What is told of a token that begins no directive.
pub static NO_DIRECTIVES: &[Step] = rules! {
    Here[not Wants Directive] => Nothing,
    Here[Word With Has] => Do("remove the ';' before it, which ends the object"),
    Here[Word Default] => Absent("'Default'", SETTINGS),
    Here[Word Char String] => Do("write 'Global n;' for a variable, or 'Array a -> 10;' for 10 bytes"),
    Here[Is Reserved] => Do(OUTSIDE),
    Here[Sign CloseBrace CloseBracket CloseParenthesis Semicolon]
        => Do("remove it, or one before it: nothing is open here"),
    Here[Sign OpenBrace] => Do("a routine is '[ R a b; .. ];', and a comment begins with '!'"),
    Here[Is Sign] => Do("a comment begins with '!', and a statement is in a routine"),
    Here[Is Name] SecondNext[Word Object] => Do("begin with 'Object' and the name, as in 'Object bag \"bag\"'"),
    Here[Known Property] => Do("remove the ';' before it: ',' is between the properties of an object"),
    Here[Is Name] Next[Sign Assign]
        => Do("write 'Global' before a variable; other statements are in a routine"),
    Here[Is Name] Next[Sign OpenParenthesis] => Do("a routine is '[ R a b; .. ];', and calls are in routines"),
    Here[Unknown]
        => Do("begin with 'Object', 'Global', '[' or another word of a definition, a comment with '!'"),
    Here[Is Name Text Number] => Do(OUTSIDE),
};

/// What is told of two names side by side.
pub static NAMES_BESIDE: &[Step] = rules! {
    Here[Wants Directive] | Here[not Is Name] | Last[not Is Name] | Here[BeginsLine] => Nothing,
    Last[Named "the a an"] Last[Unknown] => Do("leave the article before it out"),
    Last[Known Attribute] | Here[Known Attribute]
        => Do("write 'lamp has lit' to test an attribute, 'give lamp lit' to set it"),
    Here[Known Property] | Here[Named "of"] Here[Unknown] => Do("write 'lamp.size' for a property of an object"),
    Last[BeginsStatement] Last[Unknown] Here[Unknown]
        => Do("begin a comment with '!', and a text with a double quote"),
    Last[Unknown] | Here[Unknown] => Do("a name is one word: join its parts by '_', or put a sign between"),
    => Do("put an operator between the two names, such as '==' or 'in'"),
};

/// What is told where parentheses are missing, and of a statement that is only a value.
pub static VALUES_ALONE: &[Step] = rules! {
    Here[Wants Directive] => Nothing,
    Last[Word If While Until Switch] => Do("write '(' before the condition and ')' after it"),
    Last[Word Parent Child Sibling] => Do("write '(' before the object and ')' after it"),
    Here[not Sign Semicolon] | Open[Sign OpenParenthesis] | Here[not Wants Operator] | Here[Wants End] => Nothing,
    Last[Sign Increment Decrement] => Do("write 'a->1 = a->1 + 1;' or 'lamp.size = lamp.size + 1;'"),
    Last[BeginsStatement] Last[Unknown]
        => Do("a name alone is not a statement: call a routine as 'F();', list a local in the head"),
    Second[Sign Arrow LongArrow] | Second[Sign Less] Third[Sign Minus]
        => Do("write '=' and a value, as in 'g = 5;' or 'a->0 = 5;'"),
    First[Among Sign Equal] => Do("write '=' to assign"),
    Here[After Has] => Do("write 'give lamp lit;' to set an attribute"),
    Here[After In] => Do("write 'move a to b;' to put an object into another"),
    => Do("a value alone is not a statement: assign it, print it or test it"),
};

/// What is told of a sign that closes something, of an operand after another one, of a `,` and where
/// something is missing.
pub static OTHERS: &[Step] = rules! {
    Here[Wants Directive] => Nothing,
    // A routine may end here: a definition or the end of the source is next.
    Here[Sign CloseBrace CloseParenthesis] Here[First] Next[Is Definition]
        | Here[Sign CloseBrace CloseParenthesis] Here[First] Next[Is End]
        | Here[Sign CloseBrace CloseParenthesis] Here[First] Next[Sign Semicolon] SecondNext[Is Definition]
        | Here[Sign CloseBrace CloseParenthesis] Here[First] Next[Sign Semicolon] SecondNext[Is End]
        => Do("write '];' in its place, which ends the routine"),
    Here[Sign CloseBrace] Here[First] => Do("remove it, or one before it, or write '{' where its block begins"),
    Here[Sign CloseParenthesis] Here[First] => Do("remove it"),
    Last[Closes Switch] => Do("write '{' before the first case and '}' after the last"),
    Here[Is Name Number Character DictionaryWord, Word True False Nothing] Last[EndsOperand] Here[not BeginsLine]
        First[Is Definition]
        => Do("write '=' before the value"),
    Here[Is Name Number Character DictionaryWord, Word True False Nothing] Last[EndsOperand] Here[not BeginsLine]
        => Do("put an operator between, or end the statement before it with ';'"),
    Here[After If While Until] Open[Sign OpenParenthesis] Here[Sign Comma]
        => Do("write 'or' between values, and '&&' or '||' between conditions"),
    Here[After If While Until] Open[Sign OpenParenthesis] Here[Sign Ampersand Bar]
        => Do("write '&&' or '||' between conditions"),
    Here[After If While Until] Open[Sign OpenParenthesis] Here[Word To]
        => Do("write two comparisons with '&&' between, as in 'a >= 1 && a <= 9'"),
    Here[Is ValueEnd] Here[Wants Name] => Do("a name is missing before it"),
    Here[Is ValueEnd] Here[Wants Value] Last[not Word Return] => Do("a value is missing before it"),
    Here[Sign Comma] Open[not Sign OpenParenthesis] First[not Is Definition]
        => Do("write a statement for each value, and ';' between them"),
};
