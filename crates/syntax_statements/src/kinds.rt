//! The kinds of statements that contain others, made of their parts. They are apart from what puts
//! them into boxes: a function that makes a statement and returns it is proved in a second, and one
//! that makes it and passes it on in seven. The parser comes first here too, so that lifetimes have
//! the places that they have in the callers.

ghost use Rattle.std.specs.Prelude.{◌≡◌, map};
ghost use Rattle.syntax_trees.specs.Views.{expression_tree};
ghost use Rattle.syntax_statements.specs.PartViews.{heading_tree, loop_tree};
ghost use Rattle.syntax_statements.specs.Tree as tree;
ghost use Rattle.syntax_statements.specs.Views.{statement_tree, case_tree, trees_of, cases_of, other_tree};

use crate::part_tree::{Heading, Loop, Range};
use crate::tree::Statement;
use syntax_lexer::Position;
use syntax_trees::{Expression, Parser};

/// A block.
pub fn block<'t, 'a>(_parser: &Parser<'t, 'a>, found: Vec<Statement<'a>>) -> Statement<'a>
    ensures { statement_tree result
        ≡ tree.block (trees_of (map statement_tree found.entry.items)) }
{
    Statement::Block(found)
}

/// `if` without an `else`.
pub fn if_then<'t, 'a>(
    _parser: &Parser<'t, 'a>,
    position: Position,
    condition: Box<Expression<'a>>,
    first: Box<Statement<'a>>,
) -> Statement<'a>
    ensures { statement_tree result
        ≡ tree.if_then position (expression_tree condition.entry.value)
        (statement_tree first.entry.value) }
{
    Statement::If(position, condition, first)
}

/// `if` with an `else`.
pub fn if_else<'t, 'a>(
    _parser: &Parser<'t, 'a>,
    position: Position,
    condition: Box<Expression<'a>>,
    first: Box<Statement<'a>>,
    second: Box<Statement<'a>>,
) -> Statement<'a>
    ensures { statement_tree result
        ≡ tree.if_else position (expression_tree condition.entry.value)
        (statement_tree first.entry.value) (statement_tree second.entry.value) }
{
    Statement::IfElse(position, condition, first, second)
}

/// `while`.
pub fn while_do<'t, 'a>(
    _parser: &Parser<'t, 'a>,
    position: Position,
    condition: Box<Expression<'a>>,
    body: Box<Statement<'a>>,
) -> Statement<'a>
    ensures { statement_tree result
        ≡ tree.while_do position (expression_tree condition.entry.value)
        (statement_tree body.entry.value) }
{
    Statement::While(position, condition, body)
}

/// `do`.
pub fn do_until<'t, 'a>(
    _parser: &Parser<'t, 'a>,
    position: Position,
    body: Box<Statement<'a>>,
    condition: Box<Expression<'a>>,
) -> Statement<'a>
    ensures { statement_tree result
        ≡ tree.do_until position (statement_tree body.entry.value)
        (expression_tree condition.entry.value) }
{
    Statement::Do(position, body, condition)
}

/// `for`.
pub fn for_loop<'t, 'a>(
    _parser: &Parser<'t, 'a>,
    position: Position,
    heading: Box<Heading<'a>>,
    body: Box<Statement<'a>>,
) -> Statement<'a>
    ensures { statement_tree result
        ≡ tree.for_loop position (heading_tree heading.entry.value).before
        (heading_tree heading.entry.value).test (heading_tree heading.entry.value).after
        (statement_tree body.entry.value) }
{
    Statement::For(position, heading, body)
}

/// `objectloop`.
pub fn loop_over<'t, 'a>(
    _parser: &Parser<'t, 'a>,
    position: Position,
    over: Box<Loop<'a>>,
    body: Box<Statement<'a>>,
) -> Statement<'a>
    ensures { statement_tree result
        ≡ tree.loop_over position (loop_tree over.entry.value)
        (statement_tree body.entry.value) }
{
    Statement::Objectloop(position, over, body)
}

/// `switch`, with its cases and its `default` in their box.
pub fn switch_on<'t, 'a>(
    _parser: &Parser<'t, 'a>,
    position: Position,
    value: Box<Expression<'a>>,
    cases: Box<
        (
            Vec<(Vec<Range<'a>>, Vec<Statement<'a>>)>,
            Option<Vec<Statement<'a>>>,
        ),
    >,
) -> Statement<'a>
    ensures { statement_tree result
        ≡ tree.switch_on position (expression_tree value.entry.value)
        (cases_of (map case_tree cases.entry.value.0.items)
        (other_tree cases.entry.value.1)) }
{
    Statement::Switch(position, value, cases)
}
