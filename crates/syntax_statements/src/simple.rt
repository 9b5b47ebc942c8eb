//! Statements without statements inside them, read from tokens.

ghost use Rattle.std.specs.Prelude.{Ok};
ghost use Rattle.syntax_trees.specs.Parse as reading;
ghost use Rattle.syntax_trees.specs.Returned.{ahead};
ghost use Rattle.syntax_statements.specs.Tree as tree;
ghost use Rattle.syntax_statements.specs.Views.{simple_tree};
ghost use Rattle.syntax_statements.specs.Returned.{TakesSimple};
ghost use Rattle.syntax_statements.specs.Parse as spec;

use crate::effects::has_effect;
use crate::giving::flags;
use crate::printing::items;
use crate::tree::SimpleStatement;
use syntax_expressions::{expect_name, expression};
use syntax_lexer::{Kind, Position, Sign, Word};
use syntax_trees::{
    Fault, Parsed, Parser, expect, expect_word, fault_at, is_sign, memory, pass, peek, position,
};

// The statement in a box. The parser comes first here, in `ended` and in all that makes statements,
// also where nothing is read: so the lifetimes of the arguments have the places that they have in
// the callers, else the prover compares their types part by part.
fn in_box<'t, 'a>(
    parser: &Parser<'t, 'a>,
    statement: SimpleStatement<'a>,
) -> Parsed<Box<SimpleStatement<'a>>>
    ensures { TakesSimple result parser.now (Ok (simple_tree statement.entry, ahead parser.now)) }
{
    memory::in_box(parser.alloc, statement)
}

// The statement, after its `;`.
#[tactic(auto, unfolding(crate::specs::Parse::ended))]
fn end<'t, 'a>(
    parser: &mut Parser<'t, 'a>,
    statement: SimpleStatement<'a>,
) -> Parsed<Box<SimpleStatement<'a>>>
    ensures { TakesSimple result parser.new
        (spec.ended (simple_tree statement.entry) (ahead parser.old)) }
{
    match expect(parser, Sign::Semicolon) {
        Ok(()) => in_box(parser, statement),
        Err(e) => {
            // By a call, so that the proof here does not go through each kind of statement.
            drop(statement);
            Err(e)
        }
    }
}

/// What follows `print`.
///
/// # Errors
///
/// Those of `items`, and `Fault::Grammar` where the `;` is missing.
#[tactic(auto, unfolding(crate::specs::Parse::printed))]
fn print<'t, 'a>(parser: &mut Parser<'t, 'a>, depth: usize) -> Parsed<Box<SimpleStatement<'a>>>
    ensures { TakesSimple result parser.new (spec.printed depth tree.print (ahead parser.old)) }
{
    match items(parser, depth) {
        Ok(found) => end(parser, SimpleStatement::Print(found)),
        Err(e) => Err(e),
    }
}

/// What follows `print_ret`.
///
/// # Errors
///
/// Those of `items`, and `Fault::Grammar` where the `;` is missing.
#[tactic(auto, unfolding(crate::specs::Parse::printed))]
fn print_return<'t, 'a>(
    parser: &mut Parser<'t, 'a>,
    depth: usize,
) -> Parsed<Box<SimpleStatement<'a>>>
    ensures { TakesSimple result parser.new
        (spec.printed depth tree.print_return (ahead parser.old)) }
{
    match items(parser, depth) {
        Ok(found) => end(parser, SimpleStatement::PrintReturn(found)),
        Err(e) => Err(e),
    }
}

/// What follows `return`, which stands at `position`.
///
/// # Errors
///
/// Those of `expression`, and `Fault::Grammar` where the `;` is missing.
#[tactic(auto, unfolding(crate::specs::Parse::returned))]
fn return_value<'t, 'a>(
    parser: &mut Parser<'t, 'a>,
    depth: usize,
    position: Position,
) -> Parsed<Box<SimpleStatement<'a>>>
    ensures { TakesSimple result parser.new (spec.returned depth position (ahead parser.old)) }
{
    if is_sign(peek(parser.tokens), Sign::Semicolon) {
        pass(parser);
        return in_box(parser, SimpleStatement::Return);
    }
    match expression(parser, depth) {
        Ok(value) => end(parser, SimpleStatement::ReturnValue(position, value)),
        Err(e) => Err(e),
    }
}

/// What follows `read`.
///
/// # Errors
///
/// `Fault::Grammar` at the first token that is not what is wanted: a name, another, and `;`;
/// `Memory`: a growth is refused.
#[tactic(auto, unfolding(crate::specs::Parse::line_read))]
fn read<'t, 'a>(parser: &mut Parser<'t, 'a>) -> Parsed<Box<SimpleStatement<'a>>>
    ensures { TakesSimple result parser.new (spec.line_read (ahead parser.old)) }
{
    let text = match expect_name(parser) {
        Ok(text) => text,
        Err(e) => return Err(e),
    };
    let words = match expect_name(parser) {
        Ok(words) => words,
        Err(e) => return Err(e),
    };
    match memory::in_box(parser.alloc, (text, words)) {
        Ok(names) => end(parser, SimpleStatement::Read(names)),
        Err(e) => Err(e),
    }
}

/// What follows `give`, which stands at `position`.
///
/// # Errors
///
/// Those of `expression` and of `flags`, and `Fault::Grammar` where the `;` is missing.
#[tactic(auto, unfolding(crate::specs::Parse::given))]
fn give<'t, 'a>(
    parser: &mut Parser<'t, 'a>,
    depth: usize,
    position: Position,
) -> Parsed<Box<SimpleStatement<'a>>>
    ensures { TakesSimple result parser.new (spec.given depth position (ahead parser.old)) }
{
    let object = expression(parser, depth)?;
    match flags(parser) {
        Ok(found) => match memory::in_box(parser.alloc, found) {
            Ok(found) => end(parser, SimpleStatement::Give(position, object, found)),
            Err(e) => Err(e),
        },
        Err(e) => Err(e),
    }
}

/// What follows `move`, which stands at `position`.
///
/// # Errors
///
/// Those of `expression`, and `Fault::Grammar` where `to` or the `;` is missing.
#[tactic(auto, unfolding(crate::specs::Parse::moved))]
fn move_to<'t, 'a>(
    parser: &mut Parser<'t, 'a>,
    depth: usize,
    position: Position,
) -> Parsed<Box<SimpleStatement<'a>>>
    ensures { TakesSimple result parser.new (spec.moved depth position (ahead parser.old)) }
{
    let object = expression(parser, depth)?;
    expect_word(parser, Word::To)?;
    match expression(parser, depth) {
        Ok(parent) => end(parser, SimpleStatement::Move(position, object, parent)),
        Err(e) => Err(e),
    }
}

/// What follows `remove`, which stands at `position`.
///
/// # Errors
///
/// Those of `expression`, and `Fault::Grammar` where the `;` is missing.
#[tactic(auto, unfolding(crate::specs::Parse::removed))]
fn remove<'t, 'a>(
    parser: &mut Parser<'t, 'a>,
    depth: usize,
    position: Position,
) -> Parsed<Box<SimpleStatement<'a>>>
    ensures { TakesSimple result parser.new (spec.removed depth position (ahead parser.old)) }
{
    match expression(parser, depth) {
        Ok(object) => end(parser, SimpleStatement::Remove(position, object)),
        Err(e) => Err(e),
    }
}

/// An expression that stands alone. One without an effect is no statement.
///
/// # Errors
///
/// Those of `expression`; `Fault::Grammar` at the token after the expression where it has no
/// effect, or no `;` follows.
#[tactic(auto, unfolding(crate::specs::Parse::alone))]
fn effect<'t, 'a>(parser: &mut Parser<'t, 'a>, depth: usize) -> Parsed<Box<SimpleStatement<'a>>>
    ensures { TakesSimple result parser.new (spec.alone depth (ahead parser.old)) }
{
    let begin = position(parser.tokens);
    match expression(parser, depth) {
        Ok(value) => {
            if !has_effect(&value) {
                return Err(fault_at(Fault::Grammar, parser.tokens));
            }
            end(parser, SimpleStatement::Effect(begin, value))
        }
        Err(e) => Err(e),
    }
}

/// A statement in which no other stands, and which is not `;` alone.
///
/// # Errors
///
/// Those of `expression` and of `items`, and `Fault::Grammar` at the first token with which no such
/// statement goes on.
pub fn simple<'t, 'a>(parser: &mut Parser<'t, 'a>, depth: usize) -> Parsed<Box<SimpleStatement<'a>>>
    ensures { TakesSimple result parser.new
        (spec.plain_on depth (reading.head (ahead parser.old)) (ahead parser.old)) }
{
    let opening = parser.tokens;
    let first = peek(opening);
    pass(parser);
    match first.kind {
        Kind::Text(bytes) => end(parser, SimpleStatement::Text(bytes)),
        Kind::Reserved(Word::Print) => print(parser, depth),
        Kind::Reserved(Word::PrintRet) => print_return(parser, depth),
        Kind::Reserved(Word::NewLine) => end(parser, SimpleStatement::NewLine),
        Kind::Reserved(Word::Break) => end(parser, SimpleStatement::Break(first.position)),
        Kind::Reserved(Word::Continue) => end(parser, SimpleStatement::Continue(first.position)),
        Kind::Reserved(Word::Return) => return_value(parser, depth, first.position),
        Kind::Reserved(Word::Rtrue) => end(parser, SimpleStatement::ReturnTrue),
        Kind::Reserved(Word::Rfalse) => end(parser, SimpleStatement::ReturnFalse),
        Kind::Reserved(Word::Quit) => end(parser, SimpleStatement::Quit),
        Kind::Reserved(Word::Read) => read(parser),
        Kind::Reserved(Word::Give) => give(parser, depth, first.position),
        Kind::Reserved(Word::Move) => move_to(parser, depth, first.position),
        Kind::Reserved(Word::Remove) => remove(parser, depth, first.position),
        _ => {
            // The token is the first of the expression.
            parser.tokens = opening;
            effect(parser, depth)
        }
    }
}
