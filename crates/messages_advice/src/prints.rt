//! What is told within a `print`.

use messages_parts::Say::{Absent, Do, Nothing};
use messages_parts::{PRINT_FORMS, Step, rules};

const FORM: &str = "this form of print";

const COMMA: &str = "write ',' between the items of a 'print'";

/// What is told of a form of `print` of Inform 6 that there is not: in its parentheses, and after them.
pub static FORMS: &[Step] = rules! {
    Here[not After Print PrintRet] => Nothing,
    Last[Is Text] Here[Joined] Here[Unknown] => Do("write '~' for a double quote within a text"),
    Last[Is Text] Here[Named "and"] => Do(COMMA),
    SecondLast[Is Item] Last[Sign OpenParenthesis] Here[Named "the a an name number address property string"]
        Next[Sign CloseParenthesis]
        | FourthLast[Is Item] ThirdLast[Sign OpenParenthesis]
            SecondLast[Named "the a an name number address property string"] Last[Sign CloseParenthesis]
            Here[Is Name Reserved]
        | FourthLast[Is Item] ThirdLast[Sign OpenParenthesis]
            SecondLast[Named "the a an name number address property string"] Last[Sign CloseParenthesis]
            Here[Is Text] SecondLast[Unknown]
        => Absent(FORM, PRINT_FORMS),
};

/// What is told where no `print` is: of more than a text in a statement that is a text, and of a form.
pub static WITHOUT_PRINT: &[Step] = rules! {
    Here[After Print PrintRet] => Nothing,
    Last[Is Text] Here[Is Name Number Text, Sign Comma Plus OpenParenthesis] Here[not BeginsLine]
        => Do("write 'print' or 'print_ret' before the text, and ',' between items"),
    Here[Word Object Char] Last[Sign OpenParenthesis] Last[BeginsStatement] => Do("write 'print' before the form"),
};

/// What is told in the place of an item of a `print`, and of texts.
pub static ITEMS: &[Step] = rules! {
    Here[not After Print PrintRet] => Nothing,
    Here[Word If] Here[not BeginsLine] => Do("end the 'print' before it: 'if' begins a statement of its own"),
    Last[Is Item] Here[Word NewLine] => Do("write '^' in a text for a new line, or 'new_line;' on its own"),
    Last[Is Item] Here[Sign Less] => Do("write the items right after 'print', with ',' between them"),
    Here[Is Text] SecondLast[Is Item] Last[Sign OpenParenthesis] => Do("write the text without parentheses"),
    Here[Is Text] Last[Is Joint] | Here[Is Text] Last[Unknown] => Do(COMMA),
    Here[Is Text] SecondLast[Word Char] Last[Sign CloseParenthesis]
        => Do("write a character in single quotes, as in '(char) 'a''"),
    Here[Is Text] SecondLast[Word Object] Last[Sign CloseParenthesis]
        => Do("write the name of the object, or the text without '(object)'"),
    Last[Is Text] Here[Sign Star] => Do("print the text in a loop"),
    // But for a sign with which a statement, a block or a routine may end.
    Last[Is Text] Here[Is Joint] Next[not Sign Semicolon CloseBrace CloseBracket] Next[not BeginsLine]
        | Last[Is Text] Here[Is Joint] Next[Is Text]
        => Do(COMMA),
    Here[Sign Semicolon] Last[Sign Comma] => Do("remove the ',' before it"),
    Here[Sign Semicolon] Last[Word Print PrintRet] => Do("write what to print, or 'new_line;'"),
};

/// What is told of a form of `print` that is not as it should be, and of what is after one that there
/// is not.
pub static FORMS_OF_ITEMS: &[Step] = rules! {
    Here[not After Print PrintRet] => Nothing,
    Here[Word Object] Last[Is Item] => Do("write '(object)' and then the object"),
    Here[Word Object Char] Last[Sign OpenParenthesis] SecondLast[EndsOperand]
        => Do("write ',' before the parenthesis of the form"),
    Here[Sign OpenBrace OpenBracket] Next[Is Text]
        => Do("write the items of a 'print' without brackets around them"),
    Here[Sign OpenBrace OpenBracket] Last[Is Item] => Do("write the form in parentheses, as in '(object) x'"),
    Here[Sign Comma] BeforeOpen[Is Item] => Do("write the items of a 'print' without parentheses around them"),
    Here[Word Char] Last[Is Item] => Do("write '(char)' and then the character"),
    Here[not Is Text] Last[Word Object] SecondLast[Sign OpenParenthesis]
        => Do("write ')' right after 'object', as in '(object) x'"),
    Here[not Is Text] Last[Word Char] SecondLast[Sign OpenParenthesis]
        => Do("write ')' right after 'char', as in '(char) x'"),
    // A name in parentheses, as in `(Stars) 3`.
    FourthLast[not Is Item] | ThirdLast[not Sign OpenParenthesis] | Last[not Sign CloseParenthesis] => Nothing,
    SecondLast[Known Routine] Here[Is Name Number DictionaryWord Character, Word Parent Child Sibling]
        | SecondLast[Unknown] Here[Is Name Number DictionaryWord Character Text, Word Parent Child Sibling]
        => Absent(FORM, PRINT_FORMS),
};

/// What is told where two items of a `print` have nothing between, if no small change helps.
pub static ITEMS_BESIDE: &[Step] = rules! {
    Here[not After Print PrintRet] => Nothing,
    Last[Named "the a an"] Last[Unknown] Here[not Unknown]
        => Do("write 'print (object) x;' for the short name of an object"),
    Last[Is Name] Here[Unknown] Open[not Sign OpenParenthesis]
        | Last[Unknown] Here[Is Name] Open[not Sign OpenParenthesis]
        => Do("write a text in double quotes, and ',' between items"),
    Last[Is Text] Here[Is Name Number Text Character, Sign OpenParenthesis]
        | Last[EndsOperand] Here[Is Number Text Character] Open[not Sign OpenParenthesis]
        | Last[EndsOperand] Last[not Is Name] Here[Is Name] Open[not Sign OpenParenthesis]
        => Do(COMMA),
};
