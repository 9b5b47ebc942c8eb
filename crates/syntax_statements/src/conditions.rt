//! Conditions in parentheses, read from tokens.

ghost use Rattle.std.specs.Prelude.{◌<◌, IfOk};
ghost use Rattle.syntax_trees.specs.Returned.{ahead};
ghost use Rattle.syntax_expressions.specs.PartReturned.{TakesExpression};
ghost use Rattle.syntax_statements.specs.PartParse as spec;

use syntax_expressions::expression;
use syntax_lexer::Sign;
use syntax_trees::{Expression, Parsed, Parser, expect, open};

/// A condition in parentheses, which are a nesting.
///
/// # Errors
///
/// Those of `expression`; `Fault::Grammar` where a parenthesis is missing, `Fault::Deep` where no
/// nesting is left for it.
#[tactic(auto, unfolding(crate::specs::PartParse::enclosed_condition), using(syntax_expressions::proofs::Nested::nested_zero, syntax_expressions::proofs::Nested::nested_whole))]
pub fn enclosed_condition<'t, 'a>(
    parser: &mut Parser<'t, 'a>,
    depth: usize,
) -> Parsed<Box<Expression<'a>>>
    ensures gives { TakesExpression result parser.new
        (spec.enclosed_condition depth (ahead parser.old)) }
    ensures open { IfOk result (λ x. 0 < depth) }
{
    let opening = parser.tokens;
    expect(parser, Sign::OpenParenthesis)?;
    let inside = open(depth, opening)?;
    let found = expression(parser, inside)?;
    expect(parser, Sign::CloseParenthesis)?;
    Ok(found)
}
