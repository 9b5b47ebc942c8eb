//! What is told within loops.

use messages_parts::Say::{Absent, Do, Nothing};
use messages_parts::{COMMAS, OBJECT_LOOPS, Step, rules};

const FOR: &str = "write 'for (i = 0 : i < 9 : i++)'";

const PARTS: &str = "write ':' between the parts of a 'for'";

const EACH: &str = "write 'objectloop (x in y)'";

/// What is told where only `until` is expected.
pub static UNTIL: &[Step] = rules! {
    Here[not Wants Until] | Do[not Word Do] => Nothing,
    AfterDo[Word While] | BeforeDo[Closes While For Objectloop]
        => Do("leave out 'do', as in 'while (a) { .. }'"),
    Here[Word While] => Do("write 'until' and the opposite condition, as in 'do { .. } until (~~(a));'"),
    AfterDo[not Sign OpenBrace] Last[Sign Semicolon] => Do("write '{' after 'do' and '}' before 'until'"),
    Last[Sign Semicolon CloseBrace] => Do("end the 'do' with 'until (a);', or leave 'do' out"),
};

/// What is told in the parentheses of a `for`.
pub static FOR_LOOPS: &[Step] = rules! {
    Here[Wants Until] | BeforeOpen[not Word For] => Nothing,
    Here[Sign Semicolon] Last[Sign CloseParenthesis] Open[Among Sign Colon] => Nothing,
    Here[Sign Semicolon] | Here[Sign Comma] Here[TwoCommas] Open[not Among Sign Colon] => Do(PARTS),
    Here[Sign Comma] => Absent("',' between expressions", COMMAS),
    Open[Among Word In] Open[not Among Sign Colon] => Do(EACH),
    Here[Sign CloseParenthesis, Word To] => Do(FOR),
};

/// What is told in the parentheses of an `objectloop`, and after a word of a loop without them.
pub static OTHER_LOOPS: &[Step] = rules! {
    Here[Wants Until] | BeforeOpen[Word For] => Nothing,
    BeforeOpen[Word Objectloop] SecondLast[Sign OpenParenthesis] Here[Named "from near"]
        => Absent("this form of objectloop", OBJECT_LOOPS),
    BeforeOpen[Word Objectloop] Last[Sign OpenParenthesis]
        | BeforeOpen[Word Objectloop] SecondLast[Sign OpenParenthesis] Here[Is Name]
        | BeforeOpen[Word Objectloop] Here[Sign Comma Colon]
        => Do(EACH),
    BeforeOpen[Word Objectloop] | Here[not After For Objectloop] => Nothing,
    Here[Word In] Last[Closes Objectloop]
        | Last[Word For] Here[Word In] | Last[Word For] Next[Word In]
        | Last[Word For] SecondNext[Word In] | Last[Word For] ThirdNext[Word In]
        => Do(EACH),
    Last[Word For] => Do(FOR),
    Last[Word Objectloop] => Do(EACH),
};

/// What is told of an `until` without a `do`, and in the parentheses of a `for`, if no small change
/// helps. In the last part another `:` is told of alone: what else is there may be after the
/// parentheses.
pub static LATE_LOOPS: &[Step] = rules! {
    Here[Word Until] Here[First] Last[Sign CloseBrace] => Do("write 'do' before the block that ends here"),
    Here[Word Until] Here[First] => Do("write 'while (~~(a))': 'until' only ends a 'do'"),
    BeforeOpen[Word For] Here[Sign Colon] | BeforeOpen[Word For] Open[not Twice Sign Colon] => Do(FOR),
};
