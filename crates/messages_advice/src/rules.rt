//! What is wanted in the place of a name, and what is told of one: tables of rules. The tokens are
//! those of a program.

use messages_parts::Say::{Absent, Do, Nothing, Word};
use messages_parts::Spot::Here;
use messages_parts::Words::{Beginning, Between, InExpression, Inform, Name};
use messages_parts::{APOSTROPHES, OTHER_VALUES, Say, Step, Want, rules};

const LIT: &str = "write 'lamp has lit' to test it, 'give lamp lit' to set it";

/// What is wanted in the place of a name, within an object and within a routine. A variable that
/// cannot be a value is in a case.
pub static WANTED: &[Step] = rules! {
    First[Word Object] Last[Defines] | First[Word Object] Last[Is Text] SecondLast[Defines] => Say::Want(Want::Object),
    First[Word Object] Here[Given] => Say::Want(Want::Property),
    First[Word Object] First[Among Word Has] => Say::Want(Want::Attribute),
    First[Is Definition] | Here[not InRoutine] => Say::Want(Want::Constant),
    Last[Word Read] | SecondLast[Word Read] => Say::Want(Want::Array),
    Last[Sign OpenParenthesis] SecondLast[Word Objectloop] Here[not Found Global] => Say::Want(Want::Variable),
    Last[Sign Dot DotHash DotAmpersand, Word Provides] => Say::Want(Want::Property),
    Last[Word Has Hasnt] => Say::Want(Want::Attribute),
    // One of the attributes of a `give` is after an operand, as no name in an expression is.
    Here[After Give] Last[EndsOperand] | Here[After Give] Last[Sign Tilde] SecondLast[EndsOperand]
        => Say::Want(Want::Attribute),
    Next[Sign OpenParenthesis] => Say::Want(Want::Routine),
    Next[Sign Arrow LongArrow] => Say::Want(Want::Array),
    Here[Changed] => Say::Want(Want::Variable),
    Here[Found Global] => Say::Want(Want::Constant),
    Here[BeforeColon] Here[not After (Sign OpenParenthesis) (Is Divider)] => Say::Want(Want::Constant),
    => Say::Want(Want::Value),
};

/// Where a name is among the values of a case: what else is before a `:` is in the parentheses of a
/// `for`.
pub static IN_CASE: &[Step] = rules! {
    Here[BeforeColon] Here[not After (Sign OpenParenthesis) (Is Divider)] => Nothing,
};

/// Where a name may be meant as a dictionary word: it is a value of `name` of an object.
pub static IN_NAMES: &[Step] =
    rules! { First[Word Object] Here[not Given] Here[InNames] => Nothing, };

/// Where two names that are defined nowhere are one with `-` between, as in `my-name`.
pub static HYPHENED: &[Step] = rules! {
    Here[Wants Value] Next[Sign Minus] Next[Joined] SecondNext[Joined] SecondNext[Unknown]
        | Here[Wants Variable] Here[InRoutine] Here[not InMain] Next[Sign Minus] Next[Joined]
        SecondNext[Joined] SecondNext[Unknown]
        => Nothing,
};

/// Where a word of Inform 6 is before the name of a property.
pub static AFTER_WORD: &[Step] =
    rules! { Here[Wants Constant] Last[Named "long additive"] => Nothing, };

/// What is told of a name that is defined nowhere. `*` stands for it.
macro_rules! unknown {
    ($instead:literal) => { Do(concat!("unknown name '*': ", $instead)) };
}

/// How a name that is defined nowhere may be defined, or what else may be meant. `*` stands for it.
pub static FORMS: &[Step] = rules! {
    Here[Wants Array] => unknown!("define it by 'Array * -> 10;'"),
    Here[Wants Attribute] => unknown!("define it by 'Attribute *;'"),
    Here[Wants Property] => unknown!("define it by 'Property *;'"),
    Here[Wants Object] => unknown!("define it by 'Object *;' before this"),
    Here[Wants Routine] => unknown!("define it by '[ *; .. ];'"),
    Here[Wants Constant] First[Word Object] Here[not Given] Here[InNames]
        | Here[Wants Constant] Here[BeforeColon] Here[not After (Sign OpenParenthesis) (Is Divider)]
        => unknown!("write a word in single quotes, as '*', or define a Constant"),
    Here[Wants Constant] => unknown!("define it by 'Constant * = 1;'"),
    Here[Wants Variable] Here[not InRoutine] | Here[Wants Variable] Here[InMain]
        => unknown!("define it by 'Global *;'"),
    Last[Sign Equal NotEqual, Word Or] => unknown!("define it, or write a word in single quotes, as '*'"),
    Last[Word Print PrintRet] Next[Sign Comma Semicolon]
        | Last[Sign Comma] Here[After Print] Next[Sign Comma Semicolon]
        => unknown!("define it, as by 'Global *;', or write a text in double quotes"),
    Here[InRoutine] Here[not InMain]
        => unknown!("list it as a local after the routine's name, or define it, as by 'Global *;'"),
    => unknown!("define it, as by 'Global *;' or 'Object *;'"),
};

/// What a name is that is defined nowhere: a part of a word with an apostrophe, a word of everyday
/// English between or before other names, or a feature or a word of another language.
pub static WORDS: &[Step] = rules! {
    Last[Is Quoted] Here[Joined] => Absent("an apostrophe in a word", APOSTROPHES),
    Here[Named "the a an"] Next[Is Name] => Do("leave the article out"),
    Here[After Give] Here[Named "not"]
        => Do("write '~' before an attribute to take it away, as in 'give lamp ~lit;'"),
    Here[After Give] Here[Named "and"] => Do("list the attributes with nothing between"),
    First[Word Object] Here[Joint] Here[not Named "class"]
        => Do("write ',' before a property, and nothing before other values"),
    Here[Named "class"] => Word(Between, Here),
    Here[Wants Attribute] | Here[Wants Property] => Nothing,
    => Word(InExpression, Here),
    => Word(Name, Here),
    Next[Sign OpenParenthesis] => Word(Between, Here),
    Here[BeginsStatement] => Word(Inform, Here),
    Here[BeginsStatement] Next[not Sign OpenParenthesis] => Word(Beginning, Here),
};

/// What may be missing before a name of another kind.
pub static MISSING: &[Step] = rules! {
    First[not Word Object] | First[Among Word Has] | Last[Word With] | Last[Given] => Nothing,
    Here[Found Attribute] Next[Is Name, Sign Semicolon] => Do("has"),
    Last[Sign Comma] | Last[Defines] | Last[Is Text] SecondLast[Defines] | Next[Sign Semicolon Comma] => Nothing,
    Here[Found Property] => Do(","),
};

/// What to write in the place of a name of another kind.
pub static HINTS: &[Step] = rules! {
    Here[Wants Attribute] Here[Found Property] First[Is Definition] => Do("write it after 'with', with a value"),
    Here[Wants Attribute] Here[Found Property] Last[Word Has Hasnt] => Do("write 'provides' to test it"),
    Here[Wants Attribute] Here[Found Property] => Do("assign to it, as in 'lamp.size = 5'"),
    Here[Wants Attribute] First[Is Definition] | Here[Wants Object] => Nothing,
    Here[Wants Attribute] Here[Found Object] Last[Word Has Hasnt] => Do("write 'in' to ask where it is"),
    Here[Wants Attribute] Here[Found Object] => Do("write 'move a to b' to put it into another"),
    Here[Wants Property] Here[Found Attribute] First[Is Definition]
        => Do("write it after 'has', without a value"),
    Here[Wants Property] Here[Found Attribute] => Do(LIT),
    Here[Wants Property] Here[Found Routine] => Do("call it with the object, as in 'F(lamp)'"),
    Here[Wants Property] Here[Found Array] => Do("write its name alone, as in 'a->0'"),
    Here[Wants Value] Here[Found Routine] Last[Sign Equal NotEqual, Word Or]
        => Do("call it, or write a word in single quotes"),
    Here[Wants Value] Here[Found Routine] => Absent("call it, or ", OTHER_VALUES),
    Here[Wants Value] Here[Found Array] => Do("write an entry of it, as in 'a->0' or 'a-->0'"),
    Here[Wants Value] Here[Found Attribute] Last[Word Give]
        => Do("write the object first, as in 'give lamp lit'"),
    Here[Wants Value] Here[Found Attribute] => Do("ask an object for it, as in 'lamp has lit'"),
    Here[Wants Value] Here[Found Property] => Do("ask an object for it, as in 'lamp.size'"),
    Here[Wants Constant] Here[Found Global] Here[BeforeColon] Here[not After (Sign OpenParenthesis) (Is Divider)]
        => Do("compare with it by 'if'"),
    Here[Wants Constant] Here[Found Global]
        => Do("write a number or a Constant, or assign its value in a routine"),
    Here[Wants Constant] Here[BeforeColon] Here[not After (Sign OpenParenthesis) (Is Divider)]
        => Do("write a Constant, or a word in single quotes"),
    Here[Wants Constant] Here[Found Attribute] First[Word Object] => Do("write it after 'has'"),
    Here[Wants Constant] Here[Found Routine] => Absent("", OTHER_VALUES),
    Here[Wants Routine] Here[Found Array] => Do("write 'a->0' or 'a-->0' for an entry"),
    Here[Wants Routine] Here[Found Property] => Do("write 'lamp.size' for that of an object"),
    Here[Wants Routine] => Do("write it without the parentheses after it"),
    Here[Wants Array] Here[Found Object] => Do("write 'lamp.size' for a property"),
    Here[Wants Array] => Do("write the name of an array before '->', or '.' before a property"),
    Here[Wants Variable] Here[Found Attribute] => Do("write 'give lamp lit' to set it"),
    Here[Wants Variable] Here[Found Property] => Do("write 'lamp.size = 5' to set that of an object"),
    Here[Wants Variable] Here[Found Array] => Do("write 'a->0 = 5' or 'a-->0 = 5' to set an entry"),
    Here[Wants Variable] Here[Found Routine] => Do("only a Global or a local can be set, and a call is 'F(x);'"),
    Here[Wants Variable] => Do("only a Global or a local can be set"),
};
