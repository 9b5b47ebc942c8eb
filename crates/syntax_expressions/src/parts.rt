//! Trees made of parts, where the last part is read already: each function gives what reading the
//! whole gives.
//!
//! Trees come and go in boxes, and a kind of tree is spelled here alone: where a function holds a
//! tree by value, its proof has all kinds of trees before it, with all that each holds, at every
//! step. The parser comes first among the arguments also where nothing is read: so the lifetimes of
//! the arguments have the places that they have in the callers, else the prover compares their
//! types part by part.
//!
//! # Errors
//!
//! `Memory` where a growth is refused; `Fault::Grammar` where a parenthesis is not closed, and
//! where a name is to stand and does not.

ghost use Rattle.std.specs.Prelude.{◌≡◌, ◌∷◌, IfErr, IfOk, Ok, Some, length, map, [], ◌++◌};
ghost use Rattle.syntax_lexer.specs.Token.{position_of};
ghost use Rattle.syntax_trees.specs.Tree as tree;
ghost use Rattle.syntax_trees.specs.Views.{chained, link, name_tree, expression_tree, trees_of};
ghost use Rattle.syntax_trees.specs.Parse as reading;
ghost use Rattle.syntax_trees.specs.Returned.{ahead};
ghost use Rattle.syntax_expressions.specs.PartParse as spec;
ghost use Rattle.syntax_expressions.specs.PartReturned.{TakesExpression};

use crate::operators::{level, stepping, testing, word_value};
use crate::reading::expect_name;
use syntax_lexer::{Position, Sign, Word};
use syntax_trees::{
    Binary, Comparison, Containment, Equality, Expression, Fault, Name, ObjectTest, ParseError,
    Parsed, Parser, Prefix, Relative, Step, Width, expect, fault_at, is_sign, memory, pass, peek,
    position,
};

// A tree in a box. Where memory is refused the tree is dropped here.
fn in_box<'t, 'a>(parser: &Parser<'t, 'a>, tree: Expression<'a>) -> Parsed<Box<Expression<'a>>>
    ensures { TakesExpression result parser.now
        (Ok (expression_tree tree.entry, ahead parser.now)) }
{
    memory::in_box(parser.alloc, tree)
}

/// Drops what was read, where an error follows. It is dropped here, since a function that drops a
/// tree itself has room for one on its stack, at each nesting.
#[inline(never)]
pub fn discard<T: Drop>(read: T) {
    drop(read);
}

/// A constant, which the next token is.
#[inline(never)]
pub fn constant<'t, 'a>(parser: &mut Parser<'t, 'a>, value: u16) -> Parsed<Box<Expression<'a>>>
    ensures { TakesExpression result parser.new
        (Ok (tree.constant value, reading.tail (ahead parser.old))) }
{
    pass(parser);
    in_box(parser, Expression::Constant(value))
}

/// The value of the reserved word that comes next.
#[inline(never)]
pub fn word_constant<'t, 'a>(parser: &mut Parser<'t, 'a>, word: Word) -> Parsed<Box<Expression<'a>>>
    ensures { TakesExpression result parser.new
        (spec.constant_on (spec.word_value word) (ahead parser.old)) }
{
    match word_value(word) {
        Some(value) => constant(parser, value),
        None => Err(fault_at(Fault::Grammar, parser.tokens)),
    }
}

/// A dictionary word, which the next token is.
#[inline(never)]
pub fn word<'t, 'a>(parser: &mut Parser<'t, 'a>, word: &'a [u8]) -> Parsed<Box<Expression<'a>>>
    ensures { TakesExpression result parser.new
        (Ok (tree.word word.entry.now, reading.tail (ahead parser.old))) }
{
    pass(parser);
    in_box(parser, Expression::Word(word))
}

/// The value of a name.
#[inline(never)]
pub fn named<'t, 'a>(parser: &Parser<'t, 'a>, name: &Name<'a>) -> Parsed<Box<Expression<'a>>>
    ensures { TakesExpression result parser.now
        (Ok (tree.named (name_tree name.now), ahead parser.now)) }
{
    in_box(parser, Expression::Named(*name))
}

// One more operator and operand in a chain.
fn add_link<'a>(
    links: &mut Vec<(Binary, Expression<'a>)>,
    operator: Binary,
    operand: Box<Expression<'a>>,
) -> Parsed<()>
    ensures ok { IfOk result (λ _. links.new.items
        ≡ links.old.items ++ (operator, operand.entry.value) ∷ []) }
    ensures err { IfErr result (λ e. e ≡ ParseError.Memory) }
{
    // Most chains are short. A first `push` would ask for several places.
    if links.is_empty() {
        links.reserve_exact(1)?;
    }
    links.push((operator, Box::into_inner(operand)))?;
    Ok(())
}

// Whether the tree is a chain of the operator's level.
fn is_chain_of(tree: &Expression<'_>, operator: Binary) -> bool {
    match tree {
        Expression::Chain(_, first, _, _) => level(*first) == level(operator),
        _ => false,
    }
}

// A chain with one more operator and operand, where the tree is one.
#[inline(never)]
fn lengthen_chain<'t, 'a>(
    parser: &Parser<'t, 'a>,
    chain: Box<Expression<'a>>,
    operator: Binary,
    right: Box<Expression<'a>>,
) -> Parsed<Box<Expression<'a>>>
    ensures { TakesExpression result parser.now (Ok (
      tree.binary operator (expression_tree chain.entry.value) (expression_tree right.entry.value),
      ahead parser.now,
    )) }
{
    match Box::into_inner(chain) {
        Expression::Chain(first, joining, second, links) => {
            let mut links = links;
            match add_link(&mut links, operator, right) {
                Ok(()) => in_box(parser, Expression::Chain(first, joining, second, links)),
                Err(e) => Err(e),
            }
        }
        other => match in_box(parser, other) {
            Ok(left) => pair(parser, left, operator, right),
            Err(e) => Err(e),
        },
    }
}

// A chain of two operands.
fn pair<'t, 'a>(
    parser: &Parser<'t, 'a>,
    left: Box<Expression<'a>>,
    operator: Binary,
    right: Box<Expression<'a>>,
) -> Parsed<Box<Expression<'a>>>
    ensures { TakesExpression result parser.now (Ok (
      tree.binary operator (expression_tree left.entry.value) (expression_tree right.entry.value),
      ahead parser.now,
    )) }
{
    let links = Vec::new(parser.alloc);
    in_box(parser, Expression::Chain(left, operator, right, links))
}

/// Two operands and the operator between them. Where the left one is a chain of that level, it gets
/// the operator and the right one: it is the chain that is being read, since another of the level
/// would have parentheses.
#[inline(never)]
pub fn link<'t, 'a>(
    parser: &Parser<'t, 'a>,
    left: Box<Expression<'a>>,
    operator: Binary,
    right: Box<Expression<'a>>,
) -> Parsed<Box<Expression<'a>>>
    ensures { TakesExpression result parser.now (Ok (
      tree.binary operator (expression_tree left.entry.value) (expression_tree right.entry.value),
      ahead parser.now,
    )) }
{
    if is_chain_of(&left, operator) {
        return lengthen_chain(parser, left, operator, right);
    }
    pair(parser, left, operator, right)
}

/// A list of one expression. Most calls have one argument, and a first `push` would ask for several
/// places.
#[inline(never)]
pub fn alone<'t, 'a>(
    parser: &Parser<'t, 'a>,
    first: Box<Expression<'a>>,
) -> Parsed<Vec<Expression<'a>>>
    ensures ok { IfOk result (λ xs. xs.items ≡ first.entry.value ∷ []) }
    ensures err { IfErr result (λ e. e ≡ ParseError.Memory) }
{
    let mut expressions = Vec::with_capacity(parser.alloc, 1)?;
    expressions.push(Box::into_inner(first))?;
    Ok(expressions)
}

/// One more expression in a list.
#[inline(never)]
pub fn add<'a>(expressions: &mut Vec<Expression<'a>>, next: Box<Expression<'a>>) -> Parsed<()>
    ensures ok { IfOk result (λ _. expressions.new.items
        ≡ expressions.old.items ++ next.entry.value ∷ []) }
    ensures err { IfErr result (λ e. e ≡ ParseError.Memory) }
{
    expressions.push(Box::into_inner(next))?;
    Ok(())
}

/// An operator before its operand.
#[inline(never)]
pub fn prefixed<'t, 'a>(
    parser: &Parser<'t, 'a>,
    operator: Prefix,
    operand: Box<Expression<'a>>,
) -> Parsed<Box<Expression<'a>>>
    ensures { TakesExpression result parser.now
        (Ok (tree.prefixed operator (expression_tree operand.entry.value), ahead parser.now)) }
{
    in_box(parser, Expression::Prefixed(operator, operand))
}

/// An entry of an array.
#[inline(never)]
pub fn index<'t, 'a>(
    parser: &Parser<'t, 'a>,
    array: &Name<'a>,
    width: Width,
    index: Box<Expression<'a>>,
) -> Parsed<Box<Expression<'a>>>
    ensures { TakesExpression result parser.now (Ok (
      tree.index (name_tree array.now) width (expression_tree index.entry.value),
      ahead parser.now,
    )) }
{
    in_box(parser, Expression::Index(*array, width, index))
}

/// An entry of a property.
#[inline(never)]
pub fn property_entry<'t, 'a>(
    parser: &Parser<'t, 'a>,
    owner: Box<Expression<'a>>,
    name: &Name<'a>,
    index: Box<Expression<'a>>,
) -> Parsed<Box<Expression<'a>>>
    ensures { TakesExpression result parser.now (Ok (
      tree.property_entry (expression_tree owner.entry.value) (name_tree name.now)
          (expression_tree index.entry.value),
      ahead parser.now,
    )) }
{
    in_box(parser, Expression::PropertyEntry(owner, *name, index))
}

/// An owner, with the properties that follow it, each a property of what stands before it.
#[inline(never)]
pub fn properties<'t, 'a>(
    parser: &mut Parser<'t, 'a>,
    owner: Box<Expression<'a>>,
) -> Parsed<Box<Expression<'a>>>
    ensures { TakesExpression result parser.new (spec.properties (length (ahead parser.old))
        (expression_tree owner.entry.value) (ahead parser.old)) }
{
    if !is_sign(peek(parser.tokens), Sign::Dot) {
        return Ok(owner);
    }
    let turns = parser.tokens.len();
    pass(parser);
    let first = expect_name(parser)?;
    let mut others = Vec::new(parser.alloc);
    for _turn in 1..turns {
        if !is_sign(peek(parser.tokens), Sign::Dot) {
            break;
        }
        pass(parser);
        let next = expect_name(parser)?;
        others.push(next)?;
    }
    let name = memory::in_box(parser.alloc, first)?;
    in_box(parser, Expression::Property(owner, name, others))
}

/// `++` or `--` before its operand.
#[inline(never)]
pub fn step_before<'t, 'a>(
    parser: &Parser<'t, 'a>,
    step: Step,
    position: Position,
    operand: Box<Expression<'a>>,
) -> Parsed<Box<Expression<'a>>>
    ensures { TakesExpression result parser.now (Ok (
      tree.step_before step position (expression_tree operand.entry.value),
      ahead parser.now,
    )) }
{
    in_box(parser, Expression::StepBefore(step, position, operand))
}

// `++` or `--` after its operand, from the operator on.
#[inline(never)]
fn step_after<'t, 'a>(
    parser: &mut Parser<'t, 'a>,
    operand: Box<Expression<'a>>,
    step: Step,
) -> Parsed<Box<Expression<'a>>>
    ensures { TakesExpression result parser.new (Ok (
      tree.step_after (expression_tree operand.entry.value) step (position_of
          (reading.head (ahead parser.old))),
      reading.tail (ahead parser.old),
    )) }
{
    let sign = position(parser.tokens);
    pass(parser);
    in_box(parser, Expression::StepAfter(operand, step, sign))
}

// An operand, with the length of its property where that is asked for after it.
#[tactic(auto, unfolding(crate::specs::PartParse::with_length))]
fn with_length<'t, 'a>(
    parser: &mut Parser<'t, 'a>,
    operand: Box<Expression<'a>>,
) -> Parsed<Box<Expression<'a>>>
    ensures { TakesExpression result parser.new
        (spec.with_length (expression_tree operand.entry.value) (ahead parser.old)) }
{
    if !is_sign(peek(parser.tokens), Sign::DotHash) {
        return Ok(operand);
    }
    property_length(parser, operand)
}

// The length of a property of an operand, from `.#` on.
#[inline(never)]
fn property_length<'t, 'a>(
    parser: &mut Parser<'t, 'a>,
    operand: Box<Expression<'a>>,
) -> Parsed<Box<Expression<'a>>>
    ensures { TakesExpression result parser.new (spec.length_next
        (expression_tree operand.entry.value) (reading.tail (ahead parser.old))) }
{
    pass(parser);
    let name = expect_name(parser)?;
    in_box(parser, Expression::PropertyLength(operand, name))
}

/// An operand, with `++`, `--` or `.#` where it stands after it.
#[tactic(auto, unfolding(crate::specs::PartParse::after_operand))]
pub fn after_operand<'t, 'a>(
    parser: &mut Parser<'t, 'a>,
    operand: Box<Expression<'a>>,
) -> Parsed<Box<Expression<'a>>>
    ensures { TakesExpression result parser.new
        (spec.after_operand (expression_tree operand.entry.value) (ahead parser.old)) }
{
    match stepping(peek(parser.tokens)) {
        Some(step) => step_after(parser, operand, step),
        None => with_length(parser, operand),
    }
}

/// An expression in parentheses, with the second of them.
#[inline(never)]
pub fn parenthesised<'t, 'a>(
    parser: &mut Parser<'t, 'a>,
    enclosed: Box<Expression<'a>>,
) -> Parsed<Box<Expression<'a>>>
    ensures { TakesExpression result parser.new (spec.closed tree.parenthesised
        (expression_tree enclosed.entry.value, ahead parser.old)) }
{
    expect(parser, Sign::CloseParenthesis)?;
    in_box(parser, Expression::Parenthesised(enclosed))
}

/// The parent, the child or the sibling of what stands in parentheses, with the second of them.
#[inline(never)]
pub fn relative_of<'t, 'a>(
    parser: &mut Parser<'t, 'a>,
    relative: Relative,
    enclosed: Box<Expression<'a>>,
) -> Parsed<Box<Expression<'a>>>
    ensures { TakesExpression result parser.new (spec.closed (tree.relative_of relative)
        (expression_tree enclosed.entry.value, ahead parser.old)) }
{
    expect(parser, Sign::CloseParenthesis)?;
    in_box(parser, Expression::RelativeOf(relative, enclosed))
}

/// `in` or `notin`.
#[inline(never)]
pub fn contained<'t, 'a>(
    parser: &Parser<'t, 'a>,
    left: Box<Expression<'a>>,
    operator: Containment,
    right: Box<Expression<'a>>,
) -> Parsed<Box<Expression<'a>>>
    ensures { TakesExpression result parser.now
        (Ok (
          tree.contained operator (expression_tree left.entry.value)
              (expression_tree right.entry.value),
          ahead parser.now,
        )) }
{
    in_box(parser, Expression::Contained(left, operator, right))
}

/// An operand, with `has`, `hasnt` or `provides` and a name where they stand after it.
#[tactic(auto, unfolding(crate::specs::PartParse::tested_next))]
pub fn tested<'t, 'a>(
    parser: &mut Parser<'t, 'a>,
    left: Box<Expression<'a>>,
) -> Parsed<Box<Expression<'a>>>
    ensures { TakesExpression result parser.new
        (spec.tested_next (expression_tree left.entry.value) (ahead parser.old)) }
{
    match testing(peek(parser.tokens)) {
        Some(test) => object_test(parser, left, test),
        None => Ok(left),
    }
}

// `has`, `hasnt` or `provides` and a name after an operand, from the word on.
#[inline(never)]
fn object_test<'t, 'a>(
    parser: &mut Parser<'t, 'a>,
    left: Box<Expression<'a>>,
    test: ObjectTest,
) -> Parsed<Box<Expression<'a>>>
    ensures { TakesExpression result parser.new (spec.tested_on
        (expression_tree left.entry.value) (ahead parser.old) (Some test)) }
{
    pass(parser);
    let name = expect_name(parser)?;
    in_box(parser, Expression::Tested(left, test, name))
}

/// A comparison of two.
#[inline(never)]
pub fn compare<'t, 'a>(
    parser: &Parser<'t, 'a>,
    left: Box<Expression<'a>>,
    operator: Comparison,
    right: Box<Expression<'a>>,
) -> Parsed<Box<Expression<'a>>>
    ensures { TakesExpression result parser.now
        (Ok (
          tree.compare operator (expression_tree left.entry.value)
              (expression_tree right.entry.value),
          ahead parser.now,
        )) }
{
    in_box(parser, Expression::Compare(left, operator, right))
}

/// An assignment.
#[inline(never)]
pub fn assign<'t, 'a>(
    parser: &Parser<'t, 'a>,
    left: Box<Expression<'a>>,
    position: Position,
    right: Box<Expression<'a>>,
) -> Parsed<Box<Expression<'a>>>
    ensures { TakesExpression result parser.now
        (Ok (
          tree.assign (expression_tree left.entry.value) position
              (expression_tree right.entry.value),
          ahead parser.now,
        )) }
{
    in_box(parser, Expression::Assign(left, position, right))
}

/// A comparison with one value or several.
#[inline(never)]
pub fn equal<'t, 'a>(
    parser: &Parser<'t, 'a>,
    left: Box<Expression<'a>>,
    operator: Equality,
    first: Box<Expression<'a>>,
    others: Vec<Expression<'a>>,
) -> Parsed<Box<Expression<'a>>>
    ensures { TakesExpression result parser.now (Ok (
      tree.equal operator (expression_tree left.entry.value) (trees_of
          (expression_tree first.entry.value ∷ map expression_tree others.entry.items)),
      ahead parser.now,
    )) }
{
    in_box(parser, Expression::Equal(left, operator, first, others))
}

/// A call, with the second of its parentheses.
#[inline(never)]
pub fn call<'t, 'a>(
    parser: &mut Parser<'t, 'a>,
    name: &Name<'a>,
    arguments: Vec<Expression<'a>>,
) -> Parsed<Box<Expression<'a>>>
    ensures { TakesExpression result parser.new
        (spec.closed (λ xs. tree.call (name_tree name.now) (trees_of xs))
        (map expression_tree arguments.entry.items, ahead parser.old)) }
{
    expect(parser, Sign::CloseParenthesis)?;
    let name = memory::in_box(parser.alloc, *name)?;
    in_box(parser, Expression::Call(name, arguments))
}

/// A call without arguments, from the second of its parentheses on.
#[inline(never)]
pub fn call_alone<'t, 'a>(
    parser: &mut Parser<'t, 'a>,
    name: &Name<'a>,
) -> Parsed<Box<Expression<'a>>>
    ensures { TakesExpression result parser.new
        (Ok (tree.call (name_tree name.now) tree.none, reading.tail (ahead parser.old))) }
{
    pass(parser);
    let name = memory::in_box(parser.alloc, *name)?;
    in_box(parser, Expression::Call(name, Vec::new(parser.alloc)))
}
