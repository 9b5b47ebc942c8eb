//! Trees of statements.

use crate::part_tree::{Heading, Loop, PrintItem, Range};
use syntax_lexer::Position;
use syntax_trees::{Expression, Name};

/// A statement in which no other stands, and which is not `;` alone. Where it has expressions, and
/// for `break` and `continue`, the position of its first token stands with it. What is large is in
/// boxes: it stands in a row of statements itself, and each of these takes as much as the largest.
#[derive(Drop)]
pub enum SimpleStatement<'a> {
    /// A text alone: it is printed with a new line, and the routine returns true.
    Text(&'a [u8]),

    Print(Vec<PrintItem<'a>>),
    PrintReturn(Vec<PrintItem<'a>>),
    NewLine,
    Break(Position),
    Continue(Position),

    /// `return` alone: true.
    Return,
    ReturnValue(Position, Box<Expression<'a>>),
    ReturnTrue,
    ReturnFalse,
    Quit,

    /// `read`: a line is read into the array of its text and the array of its words.
    Read(Box<(Name<'a>, Name<'a>)>),

    /// `give`: an object, and attributes that it is given (true) or that are taken from it.
    Give(Position, Box<Expression<'a>>, Box<Vec<(bool, Name<'a>)>>),

    /// `move`: an object, and its new parent.
    Move(Position, Box<Expression<'a>>, Box<Expression<'a>>),

    Remove(Position, Box<Expression<'a>>),

    /// An assignment, a step or a call.
    Effect(Position, Box<Expression<'a>>),
}

/// A statement. Where it has expressions, the position of its first token stands with it. Those in
/// which no other stands are a type of their own, since a function that has a statement in hand is
/// proved for each of its kinds.
#[derive(Drop)]
pub enum Statement<'a> {
    /// `;` alone. One byte of a source asks for no memory but its place in a row.
    Empty,

    /// Any other in which no other stands. It has no box, since a source may consist of these.
    Simple(SimpleStatement<'a>),
    Block(Vec<Statement<'a>>),
    If(Position, Box<Expression<'a>>, Box<Statement<'a>>),
    IfElse(Position, Box<Expression<'a>>, Box<Statement<'a>>, Box<Statement<'a>>),
    While(Position, Box<Expression<'a>>, Box<Statement<'a>>),
    Do(Position, Box<Statement<'a>>, Box<Expression<'a>>),
    For(Position, Box<Heading<'a>>, Box<Statement<'a>>),

    /// `objectloop`: over what it goes, and what is done in each round.
    Objectloop(Position, Box<Loop<'a>>, Box<Statement<'a>>),

    /// A `switch`: its value; its cases, with the statements of its `default`. They are in a box,
    /// since a statement is as large as the largest kind, also `;`.
    Switch(
        Position,
        Box<Expression<'a>>,
        Box<
            (
                Vec<(Vec<Range<'a>>, Vec<Statement<'a>>)>,
                Option<Vec<Statement<'a>>>,
            ),
        >,
    ),
}
