//! Features of Inform 6 that are meant by a sign, a quote, a text or a comment.

use crate::statements::TAKEN_AWAY;
use messages_parts::Say::{Absent, Do, Nothing};
use messages_parts::{
    APOSTROPHES, CONSTANT_EXPRESSIONS, INEQUALITY, LABELS, NEGATION, OTHER_VALUES, Step, rules,
};

/// What is told of the `!` of a comment that may be meant as an operator: it is right after the token
/// before the place, in its line.
pub static NEGATIONS: &[Step] = rules! {
    Here[After Give] Last[BeforeNegation] => Do(TAKEN_AWAY),
    Last[EndsOperand] Last[BeforeInequality] => Absent("'!='", INEQUALITY),
    Last[BeforeNegation] Last[Sign OpenParenthesis Assign AndAlso OrElse Equal NotEqual, Word Return If While Until]
        => Absent("'!' as an operator", NEGATION),
};

/// What is told of a quote that may be meant as an apostrophe.
pub static QUOTES: &[Step] = rules! {
    Last[Is Quoted] Here[Is Name] Here[Joined] => Absent("an apostrophe in a word", APOSTROPHES),
};

/// What is told of a feature of Inform 6 that is known by what is expected, or by where it is.
pub static MEANT: &[Step] = rules! {
    Here[Is Text] Here[Wants Value] Here[not Wants Text] => Absent("a text as a value", OTHER_VALUES),
    Here[Sign Dot] Here[BeginsStatement] Next[Is Name] => Absent("a label", LABELS),
    Here[Is Operator] Here[InConstant] => Absent("an expression as the value of a Constant", CONSTANT_EXPRESSIONS),
};
