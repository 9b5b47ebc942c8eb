//! What stands in the parentheses of a `for`, read from tokens.

ghost use Rattle.std.specs.Prelude.{◌≡◌, ◌<◌, IfOk};
ghost use Rattle.syntax_trees.specs.Returned.{ahead, Takes};
ghost use Rattle.syntax_statements.specs.PartGrammar as grammar;
ghost use Rattle.syntax_statements.specs.PartViews.{part_tree, heading_tree};
ghost use Rattle.syntax_statements.specs.PartParse as spec;

use crate::effects::has_effect;
use crate::part_tree::Heading;
use syntax_expressions::expression;
use syntax_lexer::Sign;
use syntax_trees::{Expression, Fault, Parsed, Parser, expect, fault_at, is_sign, open, peek};

// An expression, where the sign that follows it is not the next token.
#[tactic(auto, unfolding(crate::specs::PartParse::optional))]
fn optional<'t, 'a>(
    parser: &mut Parser<'t, 'a>,
    depth: usize,
    after: Sign,
) -> Parsed<Option<Box<Expression<'a>>>>
    ensures { Takes part_tree result parser.new (spec.optional depth after (ahead parser.old)) }
{
    if is_sign(peek(parser.tokens), after) {
        return Ok(None);
    }
    match expression(parser, depth) {
        Ok(found) => Ok(Some(found)),
        Err(e) => Err(e),
    }
}

// Whether the expression is absent or can stand alone.
fn effect_or_none(e: &Option<Box<Expression<'_>>>) -> bool
    ensures { result ≡ grammar.effect_or_none (part_tree e.now) }
{
    match e {
        None => true,
        Some(e) => has_effect(e),
    }
}

// The same for an expression that must have an effect.
#[tactic(auto, unfolding(crate::specs::PartParse::optional_effect))]
fn optional_effect<'t, 'a>(
    parser: &mut Parser<'t, 'a>,
    depth: usize,
    after: Sign,
) -> Parsed<Option<Box<Expression<'a>>>>
    ensures { Takes part_tree result parser.new
        (spec.optional_effect depth after (ahead parser.old)) }
{
    match optional(parser, depth, after) {
        Ok(found) => {
            if !effect_or_none(&found) {
                return Err(fault_at(Fault::Grammar, parser.tokens));
            }
            Ok(found)
        }
        Err(e) => Err(e),
    }
}

// The parts, with the parenthesis after them.
#[tactic(auto, unfolding(crate::specs::PartParse::heading))]
fn heading<'t, 'a>(parser: &mut Parser<'t, 'a>, depth: usize) -> Parsed<Box<Heading<'a>>>
    ensures { Takes (λ x. heading_tree x.value) result parser.new
        (spec.heading depth (ahead parser.old)) }
{
    let before = optional_effect(parser, depth, Sign::Colon)?;
    expect(parser, Sign::Colon)?;
    let test = optional(parser, depth, Sign::Colon)?;
    expect(parser, Sign::Colon)?;
    let after = optional_effect(parser, depth, Sign::CloseParenthesis)?;
    expect(parser, Sign::CloseParenthesis)?;
    let found = Heading {
        before,
        test,
        after,
    };
    Ok(Box::new(parser.alloc, found)?)
}

/// The parts of a `for` in parentheses, which are a nesting.
///
/// # Errors
///
/// Those of `expression`; `Fault::Grammar` where a sign is missing, and after a part without an
/// effect that needs one; `Fault::Deep` where no nesting is left.
#[tactic(auto, unfolding(crate::specs::PartParse::enclosed_heading), using(crate::proofs::PartInside::heading_zero, crate::proofs::PartInside::heading_more))]
pub fn enclosed_heading<'t, 'a>(
    parser: &mut Parser<'t, 'a>,
    depth: usize,
) -> Parsed<Box<Heading<'a>>>
    ensures gives { Takes (λ x. heading_tree x.value) result parser.new
        (spec.enclosed_heading depth (ahead parser.old)) }
    ensures open { IfOk result (λ x. 0 < depth) }
{
    let opening = parser.tokens;
    expect(parser, Sign::OpenParenthesis)?;
    let inside = open(depth, opening)?;
    heading(parser, inside)
}
