//! What is told within expressions.

use messages_parts::Say::{Absent, Do, Nothing};
use messages_parts::{
    ADDRESSES, ALTERNATIVES, MESSAGES, NESTED_NEGATIONS, NO_PARENTS, PARENTS, PARENTS_IN_LOOP,
    Step, rules,
};

const WHOLE: &str = "numbers are whole: write no point";

/// What is told of a `[` in a statement, or a `{` with no blank after a name: a `[` that begins a line
/// may begin the next routine.
pub static INDEXES: &[Step] = rules! {
    Here[not Sign OpenBracket OpenBrace] | Here[Sign OpenBracket] Here[BeginsLine] => Nothing,
    Here[Sign OpenBrace] Here[not Joined] | Here[Sign OpenBrace] Last[not Is Name] => Nothing,
    Last[Sign Arrow LongArrow] => Do("write the index right after the arrow, as in 'a->0'"),
    SecondLast[Sign Dot] => Do("write 'lamp.&p-->i' for a word of a property"),
    Last[Known Object] => Do("write 'lamp.size' for a property of an object"),
    Last[Closes If While For Objectloop Switch] => Do("write '{' and '}' around a block"),
    Last[Known Routine] => Do("write the arguments in parentheses, as in 'F(x)'"),
    Last[EndsOperand] => Do("write 'a->i' for a byte of an array, or 'a-->i' for a word"),
    Last[Sign Assign Comma OpenParenthesis, Word Return]
        => Do("there are no lists: define an array, as by 'Array a -> 1 2 3;'"),
};

/// What is told of a reserved word after a `.`, or after a name that begins a statement.
pub static WORDS_OF_OBJECTS: &[Step] = rules! {
    Last[Sign Dot] Here[Is Reserved] Here[BeginsLine] => Do("write ';' in the place of the '.' before it"),
    Last[not Is Name, Sign Dot] | Last[Is Name] Last[not BeginsStatement] | Here[BeginsLine] => Nothing,
    Here[Word Move] => Do("write 'move a to b;'"),
    Here[Word Remove] => Do("write 'remove a;'"),
    Here[Word Give] => Do("write 'give lamp lit;'"),
    Here[Word Print] => Do("write 'print (object) x;'"),
    Last[not Sign Dot] => Nothing,
    Here[Word Parent Child Sibling] => Do("write 'parent(x)', 'child(x)' or 'sibling(x)'"),
    Here[Word In Notin Has Hasnt Provides]
        => Do("write the word between both operands, as in 'lamp has lit'"),
};

/// What is told of a token in the place of a name, of a part of a number and of what is after a
/// property.
pub static PARTS: &[Step] = rules! {
    Last[Sign Dot, Word Has Hasnt Provides] Here[Is Text DictionaryWord Character]
        => Do("write the name without quotes"),
    Last[Sign Dot, Word Has Hasnt Provides] Here[Sign OpenParenthesis] => Do("write the name without parentheses"),
    Last[Word Has] Here[Sign Tilde Not] => Do("write 'hasnt' in the place of 'has'"),
    Last[not Sign Dot] Here[Sign Dot] Next[Is Number] | Last[Sign Dot] SecondLast[Is Number] => Do(WHOLE),
    Last[Sign Dot] Here[Is Number] => Do("write 'a->1' or 'a-->1' for an entry of an array"),
    Here[Sign Comma] Here[Joined] Next[Joined] Last[Is Number] Next[Is Number] => Do("write the number without ','"),
    // A routine is before or after the `.` before the name and the `(`.
    Here[Sign OpenParenthesis] Last[Is Name] SecondLast[Sign Dot] ThirdLast[Known Routine]
        | Here[Sign OpenParenthesis] Last[Known Routine] SecondLast[Sign Dot] ThirdLast[not Named "self"]
        => Do("write 'F(x)' to call a routine with an object"),
    Here[Sign OpenParenthesis] Last[Is Name] SecondLast[Sign Dot] => Absent("a call of a property", MESSAGES),
    Last[Is Name] SecondLast[Sign DotAmpersand] => Absent("the address of a property as a value", ADDRESSES),
    Here[Is Text] Last[Sign Equal NotEqual, Word Or] => Do("write a word in single quotes"),
};

/// What is told of an arrow, of an `or` and of a comparison after another one.
pub static OPERATORS: &[Step] = rules! {
    Here[Sign Arrow LongArrow] SecondLast[Sign Arrow LongArrow]
        => Do("put the index in parentheses, as in 'a->(b->c)'"),
    Here[Sign Arrow LongArrow] Last[Sign CloseParenthesis]
        => Do("an entry is one of an array by its name, as in 'a->i'"),
    Here[Sign Arrow LongArrow] => Nothing,
    Here[Word Or] Here[After (Word Notin) (Is TestEnd)] => Absent("'or' after 'notin'", NO_PARENTS),
    Here[Word Or] Here[not After (Word In) (Is TestEnd)] => Absent("'or' except after '==' and '~='", ALTERNATIVES),
    Here[Word Or] BeforeOpen[Word Objectloop] => Absent("'or' after the 'in' of a loop", PARENTS_IN_LOOP),
    Here[Word Or] => Absent("'or' after 'in'", PARENTS),
    Here[not Is Comparison] | Here[not Outside (Is Comparison) (Is ConditionEnd)] => Nothing,
    Next[Word True False] => Do("leave it out: what is before it is true or false itself, as 'lamp has lit'"),
    Here[Outside (Word Or) (Is Comparison)] => Do("write '||' between conditions: 'or' is between values"),
    => Do("write '&&' between two comparisons, as in 'a < b && b < c'"),
};

/// What is told of a sign before an operand.
pub static BEFORE_OPERANDS: &[Step] = rules! {
    Last[EndsOperand] => Nothing,
    Here[Is Comparison] Last[Sign OpenParenthesis AndAlso OrElse]
        | Here[Is Comparison] Last[Sign Colon] Open[Sign OpenParenthesis]
        => Do("a value is missing before it"),
    Here[Sign Plus] => Do("write the number without '+'"),
    Here[Sign Ampersand Star] => Do("there are no pointers: write 'a->0' or 'a-->0' for an entry of an array"),
    Here[Sign Not Tilde] Last[Is Operator] | Here[Sign Not Tilde] Last[Is Comparison]
        => Absent("a negation as an operand", NESTED_NEGATIONS),
};
