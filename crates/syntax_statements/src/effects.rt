//! Which expressions have an effect.

ghost use Rattle.std.specs.Prelude.{◌≡◌};
ghost use Rattle.syntax_trees.specs.Views.{expression_tree};
ghost use Rattle.syntax_statements.specs.PartGrammar as grammar;

use syntax_trees::Expression;

/// Whether the expression can stand alone: parentheses apart, it is an assignment, a step or a
/// call.
pub fn has_effect(e: &Expression<'_>) -> bool
    ensures { result ≡ grammar.has_effect (expression_tree e.now) }
{
    match e {
        Expression::Call(_, _) => true,
        Expression::StepBefore(_, _, _) => true,
        Expression::StepAfter(_, _, _) => true,
        Expression::Assign(_, _, _) => true,
        Expression::Parenthesised(inner) => has_effect(inner),
        Expression::Constant(_) => false,
        Expression::Word(_) => false,
        Expression::Named(_) => false,
        Expression::Index(_, _, _) => false,
        Expression::RelativeOf(_, _) => false,
        Expression::Property(_, _, _) => false,
        Expression::PropertyLength(_, _) => false,
        Expression::PropertyEntry(_, _, _) => false,
        Expression::Prefixed(_, _) => false,
        Expression::Chain(_, _, _, _) => false,
        Expression::Compare(_, _, _) => false,
        Expression::Equal(_, _, _, _) => false,
        Expression::Contained(_, _, _) => false,
        Expression::Tested(_, _, _) => false,
    }
}
