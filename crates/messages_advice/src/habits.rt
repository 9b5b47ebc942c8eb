//! Features of Inform 6 and words of other languages at a token that does not fit.

use messages_parts::Say::{Do, Nothing, Word};
use messages_parts::Spot::{Caller, First, Here, Last, Next, SecondLast};
use messages_parts::Words::{Beginning, Between, Inform, Operand};
use messages_parts::{Step, rules};

/// What is told of a word of Inform 6 that begins a statement or a directive. `endif` in a routine is
/// of other languages too.
pub static FEATURES: &[Step] = rules! {
    Here[InRoutine] Here[Named "endif"] | Here[InRoutine] First[Named "endif"] => Nothing,
    Here[BeginsStatement] => Word(Inform, Here),
    Last[BeginsStatement] => Word(Inform, Last),
};

/// What is told of the words of other languages in the statement, the definition or the block of a
/// token that does not fit.
pub static HABITS: &[Step] = rules! {
    // The head of a routine, as `int main()`.
    Third[Sign OpenParenthesis] Second[Is Name] Here[not InRoutine] First[Foreign] First[Unknown]
        => Do("write '[ R a b; .. ];' for a routine"),
    // `is` before a word that tests.
    Here[Named "is are"] Here[Unknown] Next[Named "not"] SecondNext[Word In] => Do("write 'notin' alone"),
    Here[Named "is are"] Here[Unknown] Next[Named "not"] SecondNext[Word Has] => Do("write 'hasnt' alone"),
    Here[Named "is are"] Here[Unknown] Next[Word In] => Do("write 'in' alone"),
    Here[Named "is are"] Here[Unknown] Next[Word Has] => Do("write 'has' alone"),
    Here[Named "is are"] Here[Unknown] Next[Named "not"] SecondNext[Word Notin Hasnt Provides]
        | Here[Named "is are"] Here[Unknown] Next[Word Notin Hasnt Provides]
        => Do("leave 'is' out: the word after it is enough"),
    Here[Named "is are"] Here[Unknown] Next[Is Name] Next[not Named "not"] => Word(Between, Next),
    // A word or a sign that negates, and a word that assigns.
    Last[Named "not"] Last[Unknown] Here[Word In] | Here[Sign Tilde Not] Next[Word In] => Do("write 'notin'"),
    Last[Named "not"] Last[Unknown] Here[Word Has] | Here[Sign Tilde Not] Next[Word Has] => Do("write 'hasnt'"),
    Last[First] Here[Named "is equals becomes"] Here[Unknown] => Do("write '=' to assign"),
    // One word that is written as two.
    Here[Named "line"] Last[Named "new"] => Do("write 'new_line;'"),
    Last[Named "ret"] SecondLast[Word Print] => Do("write 'print_ret' as one word"),
    Here[Word Object] Next[Named "loop"] => Do("write 'objectloop' as one word"),
    // `not in`, `not has` and `has not`.
    Here[Named "not"] Here[Unknown] Next[Word In] => Do("write 'notin'"),
    Here[Named "not"] Here[Unknown] Next[Word Has] | Here[Named "not"] Here[Unknown] Last[Word Has]
        | Last[Named "not"] Last[Unknown] SecondLast[Word Has] => Do("write 'hasnt'"),
    // Words between operands; conditions in parentheses of their own are read as a call.
    Here[Continues] => Word(Between, Here),
    Last[Continues] => Word(Between, Last),
    Caller[Continues] => Word(Between, Caller),
    // The first words after a condition, or after `else` or a `(`.
    Last[Sign CloseParenthesis OpenParenthesis Colon] | Last[Word Else Do For] => Word(Beginning, Here),
    SecondLast[Sign CloseParenthesis OpenParenthesis Colon] | SecondLast[Word Else Do For] => Word(Beginning, Last),
    ThirdLast[Sign CloseParenthesis OpenParenthesis Colon] | ThirdLast[Word Else Do For] => Word(Beginning, SecondLast),
    => Word(Beginning, First),
    => Word(Operand, Here),
    => Word(Operand, Last),
};
