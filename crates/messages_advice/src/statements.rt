//! What is told of statements, by the words that begin them.

use messages_parts::Say::{Absent, Do, Nothing};
use messages_parts::{LIBRARY, Step, rules};

const MOVE: &str = "write 'move a to b;'";

const GIVE: &str = "write 'give lamp lit;', or 'give lamp ~lit;' to take it away";

const GIVEN: &str = "write the attribute right after the object, as in 'give lamp lit;'";

/// What is written to take an attribute away.
pub const TAKEN_AWAY: &str =
    "write '~' before an attribute to take it away, as in 'give lamp ~lit;'";

/// What is told in a `read`, of a block in parentheses, and after words and names that are whole
/// statements.
pub static WHOLE_STATEMENTS: &[Step] = rules! {
    Here[After Read] Here[not BeginsLine]
        => Do("write 'read line words;' with the names of two arrays of bytes"),
    Here[Sign Comma] Here[After Move] Here[not After To] => Do(MOVE),
    Here[Is Reserved] Last[Sign OpenParenthesis] BeforeOpen[Word Do Else]
        | Here[Is Reserved] Last[Sign OpenParenthesis] BeforeOpen[Closes If While For Objectloop Switch]
        | Here[Sign Semicolon] BeforeOpen[Word Do Else]
        | Here[Sign Semicolon] BeforeOpen[Closes If While For Objectloop Switch]
        => Do("write '{' and '}' around a block"),
    Last[Word Quit Rtrue Rfalse Break Continue NewLine] Here[Is Name Number Text, Sign OpenParenthesis Comma]
        Here[not BeginsLine]
        => Do("write ';' right after the word: nothing else is in its statement"),
    Last[Known Routine] Here[Is Name Number Character DictionaryWord, Sign OpenBrace OpenBracket]
        Here[not BeginsLine]
        => Do("write the arguments in parentheses, as in 'F(x);'"),
    Last[Known Routine] Last[BeginsStatement] Here[Sign Semicolon] Here[not BeginsLine]
        => Do("write parentheses to call a routine, as in 'F();'"),
};

/// What is told of the type of a variable, of the beginning of a statement and of the end of a
/// condition.
pub static BEGINNINGS: &[Step] = rules! {
    Here[Word String Char] Next[Is Name]
        => Do("write 'Global n;' for a variable, or list it as a local in the head of its routine"),
    Here[Sign Assign] Here[First] => Do("write a variable before it"),
    Here[Sign Less] Here[BeginsStatement] Open[not Sign OpenParenthesis] => Absent("an action", LIBRARY),
    Here[Is Text Reserved, Sign OpenBrace] Last[Closes Else] => Do("write 'else if' before a condition"),
    Here[Is Text Reserved, Sign OpenBrace] Caller[Is Divider] => Do("write 'if' or 'while' before the condition"),
    Here[Word To] Last[BeginsStatement] => Do(MOVE),
    Here[BeginsLine] => Nothing,
    Here[Sign AndAlso OrElse Equal, Word Or] Last[Closes If While For Objectloop Switch]
        => Do("put parentheses around the whole condition, as in 'if ((a) && (b))'"),
    Here[Word If] Last[EndsOperand] First[Is Name] First[Among Sign Assign]
        => Do("write 'if' and its condition before the statement"),
};

/// What is told in a `move`, a `remove`, a `give` or a `return`.
pub static OBJECT_STATEMENTS: &[Step] = rules! {
    Open[Sign OpenParenthesis] => Nothing,
    Here[After Move] Here[After To] | Here[After Move] Here[Word Move]
        | Here[After Move] Here[Is Name] Last[Unknown] Next[Word To]
        | Here[After Move] Here[Is Name] Last[Unknown] SecondNext[Word To]
        => Nothing,
    Here[After Move] Here[not Is Sign] | Here[After Move] Here[Sign Comma Arrow Semicolon] => Do(MOVE),
    Here[After Remove] Here[Is Name, Sign Comma, Word To] Here[not BeginsLine]
        => Do("write 'remove a;' alone: it takes a out of where it is"),
    // After the first token of a line `;` may be missing before that.
    Here[After Move Remove] | Here[After Give] Last[BeginsLine] => Nothing,
    Here[After Give] Here[Word To] => Do("write 'move a to b;' for an object"),
    Here[After Give] Here[Sign Dot, Word Has With] => Do(GIVEN),
    Here[After Give] Here[Sign Not, Word Hasnt] => Do(TAKEN_AWAY),
    Here[After Give] Here[Sign Assign Semicolon, Word True] => Do(GIVE),
    Here[After Give] Here[Sign Comma] => Do("list the attributes with nothing between"),
    Here[After Give] | Here[not After Return] => Nothing,
    Here[Sign Comma] => Do("a routine returns one value: leave the others out"),
    Here[Word Rtrue Rfalse] => Do("write 'return true;' or 'return false;'"),
    Last[Word Return] Here[Is StatementWord] Here[not BeginsLine]
        => Do("write the statement first, and then 'return' with a value"),
};
