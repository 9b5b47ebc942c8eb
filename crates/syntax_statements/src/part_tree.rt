//! Trees of what statements are made of.

use syntax_lexer::Position;
use syntax_trees::{Expression, Name};

/// A value that is known before a story runs.
#[derive(Clone, Copy)]
pub enum Literal<'a> {
    /// A number, with its sign as a word; a character; `true` is 1, `false` and `nothing` are 0.
    Number(u16),

    /// A dictionary word: the bytes of its token, capitals as they stand.
    Word(&'a [u8]),

    /// The value of a name.
    Named(Name<'a>),
}

/// The values for which a case of a `switch` is meant: one alone, or those from one to another. Most
/// are one alone, so the other is in a box.
#[derive(Drop)]
pub struct Range<'a> {
    pub low: Literal<'a>,
    pub high: Option<Box<Literal<'a>>>,
}

/// What stands in the parentheses of a `for`: what is done before the first round, the test of each
/// round, and what is done after each round. A test that is absent is true.
#[derive(Drop)]
pub struct Heading<'a> {
    pub before: Option<Box<Expression<'a>>>,
    pub test: Option<Box<Expression<'a>>>,
    pub after: Option<Box<Expression<'a>>>,
}

/// What stands in the parentheses of an `objectloop`, which begins with its variable.
#[derive(Drop)]
pub enum Loop<'a> {
    /// The variable alone: over all objects.
    All(Name<'a>),

    /// The variable, and the object whose children the loop goes over.
    In(Name<'a>, Box<Expression<'a>>),

    /// The variable, and the condition that begins with it.
    Where(Name<'a>, Box<Expression<'a>>),
}

/// What `print` prints.
#[derive(Drop)]
pub enum PrintItem<'a> {
    /// The bytes between the quotes of a text.
    Text(&'a [u8]),

    /// `(char)` and a value, with the position of the value's first token.
    Character(Position, Box<Expression<'a>>),

    /// `(object)` and a value, with the position of the value's first token.
    Object(Position, Box<Expression<'a>>),

    /// A value, printed as a signed number, with the position of its first token.
    Number(Position, Box<Expression<'a>>),
}
