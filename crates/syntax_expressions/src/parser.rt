//! The parser of expressions, one function for each level of the grammar.
//!
//! Each takes how many nestings more may be opened, reads from the front of the tokens, and gives
//! the tree. A token that opens a nesting is tested where it stands. A function that has read a
//! tree hands it on at once to one that goes on with it: what holds a tree is proved for the tree's
//! end too, at each of its ways out. A name or a number is read at once where it is all that the
//! levels would read.
//!
//! Ten of these functions are on the way from a nesting to the next one. So what makes a tree or
//! drops one is in `parts`, and no part of them in machine code: each
//! would have room for a tree on its stack.

ghost use Rattle.std.specs.Prelude.{map, length, Some};
ghost use Rattle.syntax_trees.specs.Views.{name_tree, expression_tree};
ghost use Rattle.syntax_trees.specs.Parse as reading;
ghost use Rattle.syntax_trees.specs.Parse.{tail};
ghost use Rattle.syntax_trees.specs.Returned.{ahead, Takes};
ghost use Rattle.syntax_expressions.specs.Parse as spec;
ghost use Rattle.syntax_expressions.specs.Operators as operators;
ghost use Rattle.syntax_expressions.specs.PartReturned.{TakesExpression};
ghost use Rattle.syntax_expressions.specs.Returned.{values_tree};
ghost use Rattle.syntax_expressions.specs.LevelOperators.{operator_of};
ghost use Rattle.syntax_expressions.specs.Levels.{operand_of, chain_of};

use crate::operators::{
    Operators, begins_expression, comparing, containing, equating, operator, prefixes,
    relating_word, stepping,
};
use crate::parts;
use crate::reading::{array, property_name};
use crate::single::{OPERAND, is_single, width};
use syntax_lexer::{Kind, Sign, Word};
use syntax_trees::{
    Comparison, Containment, Equality, Expression, Fault, Name, Parsed, Parser, Prefix, Relative,
    Step, fault_at, is_sign, is_word, open, pass, peek, position,
};

/// The expression at the front of the tokens. `depth` is how many nestings more may be opened: a
/// parenthesis, also that of a call or after `parent`, `child` and `sibling`, and an operator
/// before its operand open one at their own token, the right side of an assignment at its first
/// token.
///
/// # Errors
///
/// - `Fault::Grammar` at the first token with which no derivation can go on.
/// - `Fault::Deep` at the token that opens a nesting where none is left.
/// - `Memory`: a growth is refused.
#[cycle(expression)]
#[tactic(auto, unfolding(crate::specs::Parse::expression))]
pub fn expression<'t, 'a>(parser: &mut Parser<'t, 'a>, depth: usize) -> Parsed<Box<Expression<'a>>>
    ensures { TakesExpression result parser.new
        (spec.expression (spec.nested depth) (ahead parser.old)) }
{
    match chain(parser, depth, Operators::Logical) {
        Ok(left) => assignment(parser, depth, left),
        Err(e) => Err(e),
    }
}

/// The expression at the front of the tokens as far as an assignment sign at its root. Depth and
/// errors are those of `expression`.
pub fn condition<'t, 'a>(parser: &mut Parser<'t, 'a>, depth: usize) -> Parsed<Box<Expression<'a>>>
    ensures { TakesExpression result parser.new
        (spec.condition (spec.nested depth) (ahead parser.old)) }
{
    chain(parser, depth, Operators::Logical)
}

// An expression whose left side is read: an assignment, where its sign comes next.
#[cycle(expression)]
#[tactic(auto, unfolding(crate::specs::Parse::assignment))]
fn assignment<'t, 'a>(
    parser: &mut Parser<'t, 'a>,
    depth: usize,
    left: Box<Expression<'a>>,
) -> Parsed<Box<Expression<'a>>>
    ensures { TakesExpression result parser.new (spec.assignment (spec.nested depth)
        (expression_tree left.entry.value) (ahead parser.old)) }
{
    if !is_sign(peek(parser.tokens), Sign::Assign) {
        return Ok(left);
    }
    let sign = position(parser.tokens);
    pass(parser);
    match right_side(parser, depth) {
        Ok(right) => parts::assign(parser, left, sign, right),
        Err(e) => {
            parts::discard(left);
            Err(e)
        }
    }
}

// The right side of an assignment, a nesting at its first token.
#[cycle(expression)]
#[inline(never)]
#[tactic(auto, unfolding(crate::specs::Parse::right_side), using(crate::proofs::Nested::nested_zero, crate::proofs::Nested::nested_whole))]
fn right_side<'t, 'a>(parser: &mut Parser<'t, 'a>, depth: usize) -> Parsed<Box<Expression<'a>>>
    ensures { TakesExpression result parser.new
        (spec.right_side (spec.nested depth) (ahead parser.old)) }
{
    if !begins_expression(peek(parser.tokens)) {
        return Err(fault_at(Fault::Grammar, parser.tokens));
    }
    let inside = open(depth, parser.tokens)?;
    expression(parser, inside)
}

// Operands of a level with its operators between them.
#[cycle(expression)]
#[tactic(auto, using(crate::proofs::Chain::level_chain, crate::proofs::Chain::level_fails))]
fn chain<'t, 'a>(
    parser: &mut Parser<'t, 'a>,
    depth: usize,
    operators: Operators,
) -> Parsed<Box<Expression<'a>>>
    ensures { TakesExpression result parser.new
        (chain_of (spec.nested depth) operators (ahead parser.old)) }
{
    if is_single(width(operators), parser.tokens) {
        return atom(parser, depth);
    }
    match operand(parser, depth, operators) {
        Ok(first) => links(parser, depth, operators, first),
        Err(e) => Err(e),
    }
}

// What follows the first operand of a chain.
#[cycle(expression)]
#[tactic(auto, using(crate::proofs::Chain::chain_stop))]
fn links<'t, 'a>(
    parser: &mut Parser<'t, 'a>,
    depth: usize,
    operators: Operators,
    first: Box<Expression<'a>>,
) -> Parsed<Box<Expression<'a>>>
    ensures { TakesExpression result parser.new
        (spec.chain (operator_of operators) (operand_of (spec.nested depth) operators)
        (length (ahead parser.old)) (expression_tree first.entry.value) (ahead parser.old)) }
{
    match operator(operators, peek(parser.tokens)) {
        Some(_) => read_links(parser, depth, operators, first),
        None => Ok(first),
    }
}

// The same where an operator stands there.
#[cycle(expression)]
#[inline(never)]
#[tactic(auto, using(crate::proofs::Chain::chain_stop, crate::proofs::Chain::chain_done))]
fn read_links<'t, 'a>(
    parser: &mut Parser<'t, 'a>,
    depth: usize,
    operators: Operators,
    first: Box<Expression<'a>>,
) -> Parsed<Box<Expression<'a>>>
    ensures { TakesExpression result parser.new
        (spec.chain (operator_of operators) (operand_of (spec.nested depth) operators)
        (length (ahead parser.old)) (expression_tree first.entry.value) (ahead parser.old)) }
{
    let mut chain = first;
    for _turn in 0..parser.tokens.len() {
        let Some(joining) = operator(operators, peek(parser.tokens)) else {
            break;
        };
        pass(parser);
        match operand(parser, depth, operators) {
            Ok(right) => match parts::link(parser, chain, joining, right) {
                Ok(longer) => chain = longer,
                Err(e) => return Err(e),
            },
            Err(e) => {
                parts::discard(chain);
                return Err(e);
            }
        }
    }
    Ok(chain)
}

// An operand of a level.
#[cycle(expression)]
fn operand<'t, 'a>(
    parser: &mut Parser<'t, 'a>,
    depth: usize,
    operators: Operators,
) -> Parsed<Box<Expression<'a>>>
    ensures { TakesExpression result parser.new
        (operand_of (spec.nested depth) operators (ahead parser.old)) }
{
    match operators {
        Operators::Logical => logical_operand(parser, depth),
        Operators::Adding => chain(parser, depth, Operators::Scaling),
        Operators::Scaling => factor(parser, depth),
    }
}

// `~~` before what it negates, or a comparison.
#[cycle(expression)]
#[tactic(auto, unfolding(crate::specs::Parse::logical_operand), using(crate::proofs::Nested::nested_zero, crate::proofs::Nested::nested_negation))]
fn logical_operand<'t, 'a>(parser: &mut Parser<'t, 'a>, depth: usize) -> Parsed<Box<Expression<'a>>>
    ensures { TakesExpression result parser.new
        (spec.logical_operand (spec.nested depth) (ahead parser.old)) }
{
    if !is_sign(peek(parser.tokens), Sign::Not) {
        return comparison(parser, depth);
    }
    let inside = open(depth, parser.tokens)?;
    pass(parser);
    match logical_operand(parser, inside) {
        Ok(operand) => parts::prefixed(parser, Prefix::Not, operand),
        Err(e) => Err(e),
    }
}

// A sum, or two that are compared, or one that is tested. A comparison or a test is no operand of
// another.
#[cycle(expression)]
#[tactic(auto, unfolding(crate::specs::Parse::comparison))]
fn comparison<'t, 'a>(parser: &mut Parser<'t, 'a>, depth: usize) -> Parsed<Box<Expression<'a>>>
    ensures { TakesExpression result parser.new
        (spec.comparison (spec.nested depth) (ahead parser.old)) }
{
    match chain(parser, depth, Operators::Adding) {
        Ok(left) => after_left(parser, depth, left),
        Err(e) => Err(e),
    }
}

// What follows the left side of a comparison.
#[cycle(expression)]
#[tactic(auto, unfolding(crate::specs::Parse::after_left))]
fn after_left<'t, 'a>(
    parser: &mut Parser<'t, 'a>,
    depth: usize,
    left: Box<Expression<'a>>,
) -> Parsed<Box<Expression<'a>>>
    ensures { TakesExpression result parser.new
        (spec.after_left (spec.nested depth) (expression_tree left.entry.value) (ahead parser.old)) }
{
    let next = peek(parser.tokens);
    if let Some(comparison) = comparing(next) {
        return compare(parser, depth, left, comparison);
    }
    if let Some(equality) = equating(next) {
        return equate(parser, depth, left, equality);
    }
    if let Some(containment) = containing(next) {
        return contain(parser, depth, left, containment);
    }
    parts::tested(parser, left)
}

// A comparison of two, from its operator on.
#[cycle(expression)]
#[inline(never)]
fn compare<'t, 'a>(
    parser: &mut Parser<'t, 'a>,
    depth: usize,
    left: Box<Expression<'a>>,
    operator: Comparison,
) -> Parsed<Box<Expression<'a>>>
    ensures { TakesExpression result parser.new (spec.compare_on (spec.nested depth)
        (expression_tree left.entry.value) operator (tail (ahead parser.old))) }
{
    pass(parser);
    match chain(parser, depth, Operators::Adding) {
        Ok(right) => parts::compare(parser, left, operator, right),
        Err(e) => {
            parts::discard(left);
            Err(e)
        }
    }
}

// A comparison with one value or several, from its operator on.
#[cycle(expression)]
#[inline(never)]
#[tactic(auto, unfolding(crate::specs::Parse::equate_on))]
fn equate<'t, 'a>(
    parser: &mut Parser<'t, 'a>,
    depth: usize,
    left: Box<Expression<'a>>,
    operator: Equality,
) -> Parsed<Box<Expression<'a>>>
    ensures { TakesExpression result parser.new (spec.equate_on (spec.nested depth)
        (expression_tree left.entry.value) operator (tail (ahead parser.old))) }
{
    pass(parser);
    match values(parser, depth) {
        Ok((first, others)) => parts::equal(parser, left, operator, first, others),
        Err(e) => {
            parts::discard(left);
            Err(e)
        }
    }
}

// `in` or `notin`, from the word on.
#[cycle(expression)]
#[inline(never)]
fn contain<'t, 'a>(
    parser: &mut Parser<'t, 'a>,
    depth: usize,
    left: Box<Expression<'a>>,
    operator: Containment,
) -> Parsed<Box<Expression<'a>>>
    ensures { TakesExpression result parser.new (spec.contain_on (spec.nested depth)
        (expression_tree left.entry.value) operator (tail (ahead parser.old))) }
{
    pass(parser);
    match chain(parser, depth, Operators::Adding) {
        Ok(container) => parts::contained(parser, left, operator, container),
        Err(e) => {
            parts::discard(left);
            Err(e)
        }
    }
}

// What follows `==` or `~=`: a value, and further values after `or`.
#[cycle(expression)]
fn values<'t, 'a>(
    parser: &mut Parser<'t, 'a>,
    depth: usize,
) -> Parsed<(Box<Expression<'a>>, Vec<Expression<'a>>)>
    ensures { Takes values_tree result parser.new
        (reading.list (reading.is_word Word.Or) (spec.sum (spec.nested depth)) (ahead parser.old)) }
{
    match chain(parser, depth, Operators::Adding) {
        Ok(first) => {
            let mut others = Vec::new(parser.alloc);
            for _turn in 0..parser.tokens.len() {
                if !is_word(peek(parser.tokens), Word::Or) {
                    break;
                }
                pass(parser);
                match chain(parser, depth, Operators::Adding) {
                    Ok(next) => match parts::add(&mut others, next) {
                        Ok(()) => {}
                        Err(e) => {
                            parts::discard(first);
                            parts::discard(others);
                            return Err(e);
                        }
                    },
                    Err(e) => {
                        parts::discard(first);
                        parts::discard(others);
                        return Err(e);
                    }
                }
            }
            Ok((first, others))
        }
        Err(e) => Err(e),
    }
}

// `~` before what it complements, or an operand with at most an index, `-`, `++` and `--`.
#[cycle(expression)]
#[tactic(auto, unfolding(crate::specs::Parse::factor), using(crate::proofs::Nested::nested_zero, crate::proofs::Nested::nested_complement))]
fn factor<'t, 'a>(parser: &mut Parser<'t, 'a>, depth: usize) -> Parsed<Box<Expression<'a>>>
    ensures { TakesExpression result parser.new
        (spec.factor (spec.nested depth) (ahead parser.old)) }
{
    if is_single(OPERAND, parser.tokens) {
        return atom(parser, depth);
    }
    if !is_sign(peek(parser.tokens), Sign::Tilde) {
        return array_entry(parser, depth);
    }
    let inside = open(depth, parser.tokens)?;
    pass(parser);
    match factor(parser, inside) {
        Ok(operand) => parts::prefixed(parser, Prefix::Complement, operand),
        Err(e) => Err(e),
    }
}

// An entry of an array or of a property, or an operand with at most `-`, `++`, `--` and `.#`. An
// index is no nesting.
#[cycle(expression)]
#[tactic(auto, unfolding(crate::specs::Parse::array_entry))]
fn array_entry<'t, 'a>(parser: &mut Parser<'t, 'a>, depth: usize) -> Parsed<Box<Expression<'a>>>
    ensures { TakesExpression result parser.new
        (spec.array_entry (spec.nested depth) (ahead parser.old)) }
{
    let Some((array, width)) = array(parser.tokens) else {
        return object_entry(parser, depth);
    };
    pass(parser);
    pass(parser);
    match unary(parser, depth) {
        Ok(index) => parts::index(parser, &array, width, index),
        Err(e) => Err(e),
    }
}

// An entry of a property, or an operand with at most `-`, `++`, `--` and `.#`.
#[cycle(expression)]
#[tactic(auto, unfolding(crate::specs::Parse::object_entry))]
fn object_entry<'t, 'a>(parser: &mut Parser<'t, 'a>, depth: usize) -> Parsed<Box<Expression<'a>>>
    ensures { TakesExpression result parser.new
        (spec.object_entry (spec.nested depth) (ahead parser.old)) }
{
    if prefixes(peek(parser.tokens)) {
        return unary(parser, depth);
    }
    match primary(parser, depth) {
        Ok(owner) => after_owner(parser, depth, owner),
        Err(e) => Err(e),
    }
}

// An owner, with the entry of its property, `++`, `--` or `.#` where it is followed by one.
#[cycle(expression)]
#[tactic(auto, unfolding(crate::specs::Parse::after_owner))]
fn after_owner<'t, 'a>(
    parser: &mut Parser<'t, 'a>,
    depth: usize,
    owner: Box<Expression<'a>>,
) -> Parsed<Box<Expression<'a>>>
    ensures { TakesExpression result parser.new
        (spec.after_owner (spec.nested depth) (expression_tree owner.entry.value) (ahead parser.old)) }
{
    if !is_sign(peek(parser.tokens), Sign::DotAmpersand) {
        return parts::after_operand(parser, owner);
    }
    entry(parser, depth, owner)
}

// An entry of a property of the owner, from `.&` on.
#[cycle(expression)]
#[inline(never)]
#[tactic(auto, unfolding(crate::specs::Parse::entry))]
fn entry<'t, 'a>(
    parser: &mut Parser<'t, 'a>,
    depth: usize,
    owner: Box<Expression<'a>>,
) -> Parsed<Box<Expression<'a>>>
    ensures { TakesExpression result parser.new (spec.entry (spec.nested depth)
        (expression_tree owner.entry.value) (tail (ahead parser.old))) }
{
    pass(parser);
    let name = match property_name(parser) {
        Ok(name) => name,
        Err(e) => {
            parts::discard(owner);
            return Err(e);
        }
    };
    match unary(parser, depth) {
        Ok(index) => parts::property_entry(parser, owner, &name, index),
        Err(e) => {
            parts::discard(owner);
            Err(e)
        }
    }
}

// `-` before its operand, or a primary with `++` or `--` before or after it, or with `.#` after it.
#[cycle(expression)]
#[tactic(auto, unfolding(crate::specs::Parse::unary))]
fn unary<'t, 'a>(parser: &mut Parser<'t, 'a>, depth: usize) -> Parsed<Box<Expression<'a>>>
    ensures { TakesExpression result parser.new
        (spec.unary (spec.nested depth) (ahead parser.old)) }
{
    let next = peek(parser.tokens);
    if is_sign(next, Sign::Minus) {
        return minus(parser, depth);
    }
    match stepping(next) {
        Some(step) => step_before(parser, depth, step),
        None => postfix(parser, depth),
    }
}

// `-` and its operand.
#[cycle(expression)]
#[inline(never)]
#[tactic(auto, using(crate::proofs::Nested::nested_zero, crate::proofs::Nested::nested_prefix))]
fn minus<'t, 'a>(parser: &mut Parser<'t, 'a>, depth: usize) -> Parsed<Box<Expression<'a>>>
    ensures { TakesExpression result parser.new
        (spec.minus (spec.nested depth) (length (ahead parser.old)) (tail (ahead parser.old))) }
{
    let inside = open(depth, parser.tokens)?;
    pass(parser);
    match unary(parser, inside) {
        Ok(operand) => parts::prefixed(parser, Prefix::Minus, operand),
        Err(e) => Err(e),
    }
}

// `++` or `--`, and its operand.
#[cycle(expression)]
#[inline(never)]
#[tactic(auto, using(crate::proofs::Nested::nested_zero, crate::proofs::Nested::nested_operand))]
fn step_before<'t, 'a>(
    parser: &mut Parser<'t, 'a>,
    depth: usize,
    step: Step,
) -> Parsed<Box<Expression<'a>>>
    ensures { TakesExpression result parser.new
        (spec.unary_on (spec.nested depth) (ahead parser.old) (Some step)) }
{
    let inside = open(depth, parser.tokens)?;
    let sign = position(parser.tokens);
    pass(parser);
    match primary(parser, inside) {
        Ok(operand) => parts::step_before(parser, step, sign, operand),
        Err(e) => Err(e),
    }
}

// A primary, with `++`, `--` or `.#` where it is followed by one.
#[cycle(expression)]
#[tactic(auto, unfolding(crate::specs::Parse::postfix))]
fn postfix<'t, 'a>(parser: &mut Parser<'t, 'a>, depth: usize) -> Parsed<Box<Expression<'a>>>
    ensures { TakesExpression result parser.new
        (spec.postfix (spec.nested depth) (ahead parser.old)) }
{
    match primary(parser, depth) {
        Ok(operand) => parts::after_operand(parser, operand),
        Err(e) => Err(e),
    }
}

// An operand without operators: what `atom` reads, and properties after it.
#[cycle(expression)]
#[tactic(auto, unfolding(crate::specs::Parse::primary))]
fn primary<'t, 'a>(parser: &mut Parser<'t, 'a>, depth: usize) -> Parsed<Box<Expression<'a>>>
    ensures { TakesExpression result parser.new
        (spec.primary (spec.nested depth) (ahead parser.old)) }
{
    match atom(parser, depth) {
        Ok(owner) => parts::properties(parser, owner),
        Err(e) => Err(e),
    }
}

// A constant, a dictionary word, a name, a call, a relative of an object, or an expression in
// parentheses.
#[cycle(expression)]
#[tactic(auto, unfolding(crate::specs::Parse::atom))]
fn atom<'t, 'a>(parser: &mut Parser<'t, 'a>, depth: usize) -> Parsed<Box<Expression<'a>>>
    ensures { TakesExpression result parser.new
        (spec.atom (spec.nested depth) (ahead parser.old)) }
{
    let token = peek(parser.tokens);
    match token.kind {
        Kind::Number(number) => parts::constant(parser, number),
        Kind::Character(code) => parts::constant(parser, code as u16),
        Kind::DictionaryWord(word) => parts::word(parser, word),
        Kind::Reserved(word) => reserved_word(parser, depth, word),
        Kind::Name(text) => {
            let name = Name {
                text,
                position: token.position,
            };
            after_name(parser, depth, &name)
        }
        Kind::Sign(Sign::OpenParenthesis) => in_parentheses(parser, depth),
        _ => Err(fault_at(Fault::Grammar, parser.tokens)),
    }
}

// A name, or its call where a parenthesis follows it, from the name on.
#[cycle(expression)]
#[tactic(auto, unfolding(crate::specs::Parse::after_name), using(crate::proofs::Nested::nested_zero, crate::proofs::Nested::nested_arguments))]
fn after_name<'t, 'a>(
    parser: &mut Parser<'t, 'a>,
    depth: usize,
    name: &Name<'a>,
) -> Parsed<Box<Expression<'a>>>
    ensures { TakesExpression result parser.new
        (spec.after_name (spec.nested depth) (name_tree name.now) (tail (ahead parser.old))) }
{
    pass(parser);
    if !is_sign(peek(parser.tokens), Sign::OpenParenthesis) {
        return parts::named(parser, name);
    }
    let inside = open(depth, parser.tokens)?;
    pass(parser);
    rest_of_call(parser, inside, name)
}

// What stands in parentheses, from the first of them on.
#[cycle(expression)]
#[inline(never)]
#[tactic(auto, using(crate::proofs::Nested::nested_zero, crate::proofs::Nested::nested_whole))]
fn within<'t, 'a>(parser: &mut Parser<'t, 'a>, depth: usize) -> Parsed<Box<Expression<'a>>>
    ensures { TakesExpression result parser.new
        (spec.nested depth spec.whole (length (ahead parser.old)) (tail (ahead parser.old))) }
{
    let inside = open(depth, parser.tokens)?;
    pass(parser);
    expression(parser, inside)
}

// An expression in parentheses.
#[cycle(expression)]
#[tactic(auto, unfolding(crate::specs::Parse::in_parentheses))]
fn in_parentheses<'t, 'a>(parser: &mut Parser<'t, 'a>, depth: usize) -> Parsed<Box<Expression<'a>>>
    ensures { TakesExpression result parser.new
        (spec.in_parentheses (spec.nested depth) (length (ahead parser.old)) (tail (ahead parser.old))) }
{
    match within(parser, depth) {
        Ok(inside) => parts::parenthesised(parser, inside),
        Err(e) => Err(e),
    }
}

// The value of the reserved word that comes next, or a relative of an object.
#[cycle(expression)]
fn reserved_word<'t, 'a>(
    parser: &mut Parser<'t, 'a>,
    depth: usize,
    word: Word,
) -> Parsed<Box<Expression<'a>>>
    ensures { TakesExpression result parser.new (spec.word_on (spec.nested depth) word
        (operators.relating_word word) (ahead parser.old)) }
{
    match relating_word(word) {
        Some(relative) => object_relative(parser, depth, relative),
        None => parts::word_constant(parser, word),
    }
}

// The parent, the child or the sibling of what stands in parentheses, from the word on.
#[cycle(expression)]
#[inline(never)]
#[tactic(auto, unfolding(crate::specs::Parse::object_relative))]
fn object_relative<'t, 'a>(
    parser: &mut Parser<'t, 'a>,
    depth: usize,
    relative: Relative,
) -> Parsed<Box<Expression<'a>>>
    ensures { TakesExpression result parser.new
        (spec.object_relative (spec.nested depth) relative (tail (ahead parser.old))) }
{
    pass(parser);
    if !is_sign(peek(parser.tokens), Sign::OpenParenthesis) {
        return Err(fault_at(Fault::Grammar, parser.tokens));
    }
    match within(parser, depth) {
        Ok(inside) => parts::relative_of(parser, relative, inside),
        Err(e) => Err(e),
    }
}

// The call of a name, from after its parenthesis.
#[cycle(expression)]
#[tactic(auto, unfolding(crate::specs::Parse::rest_of_call))]
fn rest_of_call<'t, 'a>(
    parser: &mut Parser<'t, 'a>,
    depth: usize,
    name: &Name<'a>,
) -> Parsed<Box<Expression<'a>>>
    ensures { TakesExpression result parser.new
        (spec.rest_of_call (spec.nested depth) (name_tree name.now) (ahead parser.old)) }
{
    if is_sign(peek(parser.tokens), Sign::CloseParenthesis) {
        return parts::call_alone(parser, name);
    }
    match arguments(parser, depth) {
        Ok(arguments) => parts::call(parser, name, arguments),
        Err(e) => Err(e),
    }
}

// Arguments, at least one.
#[cycle(expression)]
#[inline(never)]
#[tactic(auto, using(syntax_trees::proofs::Loops::further_out, syntax_trees::proofs::Loops::further_done))]
fn arguments<'t, 'a>(parser: &mut Parser<'t, 'a>, depth: usize) -> Parsed<Vec<Expression<'a>>>
    ensures { Takes (λ xs. map expression_tree xs.items) result parser.new (reading.list
        (reading.is_sign Sign.Comma) (spec.expression (spec.nested depth)) (ahead parser.old)) }
{
    let first = expression(parser, depth)?;
    let mut arguments = parts::alone(parser, first)?;
    for _turn in 0..parser.tokens.len() {
        if !is_sign(peek(parser.tokens), Sign::Comma) {
            break;
        }
        pass(parser);
        match expression(parser, depth) {
            Ok(next) => match parts::add(&mut arguments, next) {
                Ok(()) => {}
                Err(e) => {
                    parts::discard(arguments);
                    return Err(e);
                }
            },
            Err(e) => {
                parts::discard(arguments);
                return Err(e);
            }
        }
    }
    Ok(arguments)
}
