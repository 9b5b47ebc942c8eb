//! What stands in the parentheses of an `objectloop`, read from tokens.

ghost use Rattle.std.specs.Prelude.{◌≡◌, ◌<◌, IfOk};
ghost use Rattle.std.specs.Option.{option_map};
ghost use Rattle.syntax_trees.specs.Views.{name_tree, expression_tree};
ghost use Rattle.syntax_trees.specs.Returned.{ahead, Takes};
ghost use Rattle.syntax_statements.specs.PartViews.{part_tree, loop_tree};
ghost use Rattle.syntax_statements.specs.PartParse as spec;

use crate::part_tree::Loop;
use syntax_expressions::{condition, name_of};
use syntax_lexer::Sign;
use syntax_trees::{
    Containment, Expression, Fault, Name, Parsed, Parser, expect, fault_at, open, peek,
};

// The name that the expression is alone.
fn name_alone<'a>(e: &Expression<'a>) -> Option<Name<'a>>
    ensures { option_map name_tree result ≡ spec.name_alone (expression_tree e.now) }
{
    match e {
        Expression::Named(name) => Some(*name),
        Expression::Constant(_) => None,
        Expression::Word(_) => None,
        Expression::Call(_, _) => None,
        Expression::Index(_, _, _) => None,
        Expression::Parenthesised(_) => None,
        Expression::RelativeOf(_, _) => None,
        Expression::Property(_, _, _) => None,
        Expression::PropertyLength(_, _) => None,
        Expression::PropertyEntry(_, _, _) => None,
        Expression::Prefixed(_, _) => None,
        Expression::StepBefore(_, _, _) => None,
        Expression::StepAfter(_, _, _) => None,
        Expression::Chain(_, _, _, _) => None,
        Expression::Compare(_, _, _) => None,
        Expression::Equal(_, _, _, _) => None,
        Expression::Contained(_, _, _) => None,
        Expression::Tested(_, _, _) => None,
        Expression::Assign(_, _, _) => None,
    }
}

// The name before `in`, where the expression is no more than a name in something.
fn member<'a>(e: &Expression<'a>) -> Option<Name<'a>>
    ensures { option_map name_tree result ≡ spec.member (expression_tree e.now) }
{
    match e {
        Expression::Contained(object, Containment::In, _) => name_alone(object),
        Expression::Contained(_, Containment::NotIn, _) => None,
        Expression::Constant(_) => None,
        Expression::Word(_) => None,
        Expression::Named(_) => None,
        Expression::Call(_, _) => None,
        Expression::Index(_, _, _) => None,
        Expression::Parenthesised(_) => None,
        Expression::RelativeOf(_, _) => None,
        Expression::Property(_, _, _) => None,
        Expression::PropertyLength(_, _) => None,
        Expression::PropertyEntry(_, _, _) => None,
        Expression::Prefixed(_, _) => None,
        Expression::StepBefore(_, _, _) => None,
        Expression::StepAfter(_, _, _) => None,
        Expression::Chain(_, _, _, _) => None,
        Expression::Compare(_, _, _) => None,
        Expression::Equal(_, _, _, _) => None,
        Expression::Tested(_, _, _) => None,
        Expression::Assign(_, _, _) => None,
    }
}

// What follows `in` or `notin`.
fn holder<'a>(e: Expression<'a>) -> Option<Box<Expression<'a>>>
    ensures { part_tree result ≡ spec.holder (expression_tree e.entry) }
{
    match e {
        Expression::Contained(_, _, holder) => Some(holder),
        Expression::Constant(_) => None,
        Expression::Word(_) => None,
        Expression::Named(_) => None,
        Expression::Call(_, _) => None,
        Expression::Index(_, _, _) => None,
        Expression::Parenthesised(_) => None,
        Expression::RelativeOf(_, _) => None,
        Expression::Property(_, _, _) => None,
        Expression::PropertyLength(_, _) => None,
        Expression::PropertyEntry(_, _, _) => None,
        Expression::Prefixed(_, _) => None,
        Expression::StepBefore(_, _, _) => None,
        Expression::StepAfter(_, _, _) => None,
        Expression::Chain(_, _, _, _) => None,
        Expression::Compare(_, _, _) => None,
        Expression::Equal(_, _, _, _) => None,
        Expression::Tested(_, _, _) => None,
        Expression::Assign(_, _, _) => None,
    }
}

// Over what the loop goes, by the expression in its parentheses; the variable of a condition is the
// name that it begins with.
fn loop_of<'a>(variable: Name<'a>, found: Box<Expression<'a>>) -> Loop<'a>
    ensures { loop_tree result
        ≡ spec.loop_of (name_tree variable.entry) (expression_tree found.entry.value) }
{
    if let Some(name) = name_alone(&found) {
        return Loop::All(name);
    }
    let Some(name) = member(&found) else {
        return Loop::Where(variable, found);
    };
    match holder(Box::into_inner(found)) {
        Some(holder) => Loop::In(name, holder),
        // A member stands in something.
        None => Loop::All(name),
    }
}

// What the loop goes over, with the parenthesis after it.
#[tactic(auto, unfolding(crate::specs::PartParse::looped), using(syntax_expressions::proofs::NamesRead::name_found, syntax_expressions::proofs::NamesRead::no_name))]
fn looped<'t, 'a>(parser: &mut Parser<'t, 'a>, depth: usize) -> Parsed<Box<Loop<'a>>>
    ensures { Takes (λ x. loop_tree x.value) result parser.new
        (spec.looped depth (ahead parser.old)) }
{
    let Some(variable) = name_of(peek(parser.tokens)) else {
        return Err(fault_at(Fault::Grammar, parser.tokens));
    };
    let found = condition(parser, depth)?;
    expect(parser, Sign::CloseParenthesis)?;
    Ok(Box::new(parser.alloc, loop_of(variable, found))?)
}

/// What an `objectloop` goes over, in parentheses, which are a nesting.
///
/// # Errors
///
/// Those of `condition`; `Fault::Grammar` where a parenthesis is missing, and at a first token
/// that is no name; `Fault::Deep` where no nesting is left.
#[tactic(auto, unfolding(crate::specs::PartParse::enclosed_loop), using(crate::proofs::PartInside::looped_zero, crate::proofs::PartInside::looped_more))]
pub fn enclosed_loop<'t, 'a>(parser: &mut Parser<'t, 'a>, depth: usize) -> Parsed<Box<Loop<'a>>>
    ensures gives { Takes (λ x. loop_tree x.value) result parser.new
        (spec.enclosed_loop depth (ahead parser.old)) }
    ensures open { IfOk result (λ x. 0 < depth) }
{
    let opening = parser.tokens;
    expect(parser, Sign::OpenParenthesis)?;
    let inside = open(depth, opening)?;
    looped(parser, inside)
}
