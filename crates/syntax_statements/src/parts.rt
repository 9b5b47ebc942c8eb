//! Statements made of their parts, where the last part is read already. Trees come and go in boxes,
//! and a kind of statement is spelled in `kinds` and `simple`, and here if it is `;` or one that
//! contains no others.

ghost use Rattle.std.specs.Prelude.{Ok, map};
ghost use Rattle.syntax_trees.specs.Views.{expression_tree};
ghost use Rattle.syntax_trees.specs.Parse as reading;
ghost use Rattle.syntax_trees.specs.Returned.{ahead};
ghost use Rattle.syntax_statements.specs.PartViews.{heading_tree, loop_tree};
ghost use Rattle.syntax_statements.specs.Tree as tree;
ghost use Rattle.syntax_statements.specs.Views.{statement_tree, simple_tree, case_tree, other_tree};
ghost use Rattle.syntax_statements.specs.Returned.{TakesStatement};
ghost use Rattle.syntax_statements.specs.Parse as spec;
ghost use Rattle.syntax_statements.specs.Rows as rows;
ghost use Rattle.syntax_statements.specs.Rows.{AddsStatement};

use crate::kinds;
use crate::part_tree::{Heading, Loop, Range};
use crate::simple::simple;
use crate::tree::{SimpleStatement, Statement};
use syntax_lexer::{Position, Sign};
use syntax_trees::memory::{self, make_room, push, push_boxed};
use syntax_trees::{Expression, Parsed, Parser, expect, is_sign, pass, peek};

/// A statement in a box. Where memory is refused the statement is dropped here. The parser comes
/// first here and in what follows, also where nothing is read: so the lifetimes of the arguments
/// have the places that they have in the callers, else the prover compares their types part by
/// part.
pub fn in_box<'t, 'a>(
    parser: &Parser<'t, 'a>,
    statement: Statement<'a>,
) -> Parsed<Box<Statement<'a>>>
    ensures { TakesStatement result parser.now
        (Ok (statement_tree statement.entry, ahead parser.now)) }
{
    memory::in_box(parser.alloc, statement)
}

/// `;` alone, which is read already.
pub fn empty<'t, 'a>(parser: &Parser<'t, 'a>) -> Parsed<Box<Statement<'a>>>
    ensures { TakesStatement result parser.now (Ok (tree.empty, ahead parser.now)) }
{
    in_box(parser, Statement::Empty)
}

/// A statement in which no other stands, and which is not `;` alone.
///
/// # Errors
///
/// Those of `simple`.
pub fn plain<'t, 'a>(parser: &mut Parser<'t, 'a>, depth: usize) -> Parsed<Box<Statement<'a>>>
    ensures { TakesStatement result parser.new
        (spec.plain_on depth (reading.head (ahead parser.old)) (ahead parser.old)) }
{
    match simple(parser, depth) {
        Ok(found) => in_box(parser, Statement::Simple(Box::into_inner(found))),
        Err(e) => Err(e),
    }
}

/// The statement in the box at the end of a row.
pub fn add_boxed<'t, 'a>(
    parser: &Parser<'t, 'a>,
    row: &mut Vec<Statement<'a>>,
    next: Box<Statement<'a>>,
) -> Parsed<()>
    ensures { AddsStatement result row.old.items row.new.items parser.now
        (Ok (statement_tree next.entry.value, ahead parser.now)) }
{
    push_boxed(row, next)
}

// `;` alone, which is read already, at the end of a row.
fn add_empty<'t, 'a>(parser: &Parser<'t, 'a>, row: &mut Vec<Statement<'a>>) -> Parsed<()>
    ensures { AddsStatement result row.old.items row.new.items parser.now
        (Ok (tree.empty, ahead parser.now)) }
{
    push(row, Statement::Empty)
}

// A statement that contains no others, and which is not `;` alone, at the end of a row.
fn add_simple<'t, 'a>(
    parser: &Parser<'t, 'a>,
    row: &mut Vec<Statement<'a>>,
    next: Box<SimpleStatement<'a>>,
) -> Parsed<()>
    ensures { AddsStatement result row.old.items row.new.items parser.now
        (Ok (simple_tree next.entry.value, ahead parser.now)) }
{
    match make_room(row) {
        Ok(()) => {
            row.push_reserved(Statement::Simple(Box::into_inner(next)));
            Ok(())
        }
        Err(e) => {
            drop(next);
            Err(e)
        }
    }
}

/// Reads a statement that contains no others, and puts it at the end of a row.
///
/// # Errors
///
/// Those of `simple`.
pub fn add_flat<'t, 'a>(
    parser: &mut Parser<'t, 'a>,
    depth: usize,
    row: &mut Vec<Statement<'a>>,
) -> Parsed<()>
    ensures { AddsStatement result row.old.items row.new.items parser.new
        (rows.flat depth (ahead parser.old)) }
{
    if is_sign(peek(parser.tokens), Sign::Semicolon) {
        pass(parser);
        return add_empty(parser, row);
    }
    match simple(parser, depth) {
        Ok(found) => add_simple(parser, row, found),
        Err(e) => Err(e),
    }
}

// The statement, after the sign that ends it.
fn closed<'t, 'a>(
    parser: &mut Parser<'t, 'a>,
    statement: Box<Statement<'a>>,
    sign: Sign,
) -> Parsed<Box<Statement<'a>>>
    ensures { TakesStatement result parser.new
        (spec.closed_by sign (statement_tree statement.entry.value) (ahead parser.old)) }
{
    match expect(parser, sign) {
        Ok(()) => Ok(statement),
        Err(e) => {
            drop(statement);
            Err(e)
        }
    }
}

/// A block, with its second brace.
pub fn block<'t, 'a>(
    parser: &mut Parser<'t, 'a>,
    found: Vec<Statement<'a>>,
) -> Parsed<Box<Statement<'a>>>
    ensures { TakesStatement result parser.new
        (spec.block_of (map statement_tree found.entry.items) (ahead parser.old)) }
{
    match in_box(parser, kinds::block(parser, found)) {
        Ok(made) => closed(parser, made, Sign::CloseBrace),
        Err(e) => Err(e),
    }
}

/// `if` without an `else`, made of its parts.
pub fn if_then<'t, 'a>(
    parser: &Parser<'t, 'a>,
    position: Position,
    condition: Box<Expression<'a>>,
    first: Box<Statement<'a>>,
) -> Parsed<Box<Statement<'a>>>
    ensures { TakesStatement result parser.now (Ok (
      tree.if_then position (expression_tree condition.entry.value)
          (statement_tree first.entry.value),
      ahead parser.now,
    )) }
{
    in_box(parser, kinds::if_then(parser, position, condition, first))
}

/// `if` with an `else`.
pub fn if_else<'t, 'a>(
    parser: &Parser<'t, 'a>,
    position: Position,
    condition: Box<Expression<'a>>,
    first: Box<Statement<'a>>,
    second: Box<Statement<'a>>,
) -> Parsed<Box<Statement<'a>>>
    ensures { TakesStatement result parser.now (Ok (
      tree.if_else position (expression_tree condition.entry.value)
          (statement_tree first.entry.value) (statement_tree second.entry.value),
      ahead parser.now,
    )) }
{
    in_box(
        parser,
        kinds::if_else(parser, position, condition, first, second),
    )
}

/// `while`.
pub fn while_do<'t, 'a>(
    parser: &Parser<'t, 'a>,
    position: Position,
    condition: Box<Expression<'a>>,
    body: Box<Statement<'a>>,
) -> Parsed<Box<Statement<'a>>>
    ensures { TakesStatement result parser.now (Ok (
      tree.while_do position (expression_tree condition.entry.value)
          (statement_tree body.entry.value),
      ahead parser.now,
    )) }
{
    in_box(parser, kinds::while_do(parser, position, condition, body))
}

/// `do`, with its `;`.
#[tactic(auto, unfolding(crate::specs::Parse::ended))]
pub fn do_until<'t, 'a>(
    parser: &mut Parser<'t, 'a>,
    position: Position,
    body: Box<Statement<'a>>,
    condition: Box<Expression<'a>>,
) -> Parsed<Box<Statement<'a>>>
    ensures { TakesStatement result parser.new (spec.ended
        (tree.do_until position (statement_tree body.entry.value)
        (expression_tree condition.entry.value)) (ahead parser.old)) }
{
    match in_box(parser, kinds::do_until(parser, position, body, condition)) {
        Ok(made) => closed(parser, made, Sign::Semicolon),
        Err(e) => Err(e),
    }
}

/// `for`.
pub fn for_loop<'t, 'a>(
    parser: &Parser<'t, 'a>,
    position: Position,
    heading: Box<Heading<'a>>,
    body: Box<Statement<'a>>,
) -> Parsed<Box<Statement<'a>>>
    ensures { TakesStatement result parser.now (Ok (
      tree.for_loop position (heading_tree heading.entry.value).before
          (heading_tree heading.entry.value).test (heading_tree heading.entry.value).after
          (statement_tree body.entry.value),
      ahead parser.now,
    )) }
{
    in_box(parser, kinds::for_loop(parser, position, heading, body))
}

/// `objectloop`.
pub fn loop_over<'t, 'a>(
    parser: &Parser<'t, 'a>,
    position: Position,
    over: Box<Loop<'a>>,
    body: Box<Statement<'a>>,
) -> Parsed<Box<Statement<'a>>>
    ensures { TakesStatement result parser.now (Ok (
      tree.loop_over position (loop_tree over.entry.value)
          (statement_tree body.entry.value),
      ahead parser.now,
    )) }
{
    in_box(parser, kinds::loop_over(parser, position, over, body))
}

// `switch`, with its cases and its `default` in their box, and its second brace. It is apart from
// what makes the box, so that nothing but boxes lives here.
fn switch_over<'t, 'a>(
    parser: &mut Parser<'t, 'a>,
    position: Position,
    value: Box<Expression<'a>>,
    cases: Box<
        (
            Vec<(Vec<Range<'a>>, Vec<Statement<'a>>)>,
            Option<Vec<Statement<'a>>>,
        ),
    >,
) -> Parsed<Box<Statement<'a>>>
    ensures { TakesStatement result parser.new
        (spec.switch_of position (expression_tree value.entry.value)
        (map case_tree cases.entry.value.0.items) (other_tree cases.entry.value.1)
        (ahead parser.old)) }
{
    match in_box(parser, kinds::switch_on(parser, position, value, cases)) {
        Ok(made) => closed(parser, made, Sign::CloseBrace),
        Err(e) => Err(e),
    }
}

/// `switch`, with its second brace.
pub fn switch_on<'t, 'a>(
    parser: &mut Parser<'t, 'a>,
    position: Position,
    value: Box<Expression<'a>>,
    cases: Vec<(Vec<Range<'a>>, Vec<Statement<'a>>)>,
    other: Option<Vec<Statement<'a>>>,
) -> Parsed<Box<Statement<'a>>>
    ensures { TakesStatement result parser.new
        (spec.switch_of position (expression_tree value.entry.value)
        (map case_tree cases.entry.items) (other_tree other.entry) (ahead parser.old)) }
{
    match memory::in_box(parser.alloc, (cases, other)) {
        Ok(cases) => switch_over(parser, position, value, cases),
        Err(e) => {
            drop(value);
            Err(e)
        }
    }
}
