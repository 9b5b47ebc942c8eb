//! Definitions of routines, read from tokens.

ghost use Rattle.std.specs.Prelude.{map};
ghost use Rattle.syntax_trees.specs.Views.{name_tree};
ghost use Rattle.syntax_trees.specs.Parse.{Gives};
ghost use Rattle.syntax_trees.specs.Returned.{ahead, Takes};
ghost use Rattle.syntax_statements.specs.Views.{statement_tree};
ghost use Rattle.syntax_directives.specs.Returned.{TakesDirective};
ghost use Rattle.syntax_directives.specs.Parse as spec;

use crate::names::names;
use crate::nested::statements;
use crate::parts::in_box;
use crate::tree::{Directive, Routine};
use crate::weight::weight_before;
use syntax_expressions::expect_name;
use syntax_lexer::Sign;
use syntax_statements::Statement;
use syntax_trees::{Name, Parsed, Parser, expect, pass};

// What a routine begins with, after its bracket: its name, its locals, and their `;`.
#[tactic(auto, unfolding(crate::specs::Parse::routine_heading))]
fn routine_heading<'t, 'a>(parser: &mut Parser<'t, 'a>) -> Parsed<(Name<'a>, Vec<Name<'a>>)>
    ensures { Takes (λ x. (name_tree x.0, map name_tree x.1.items)) result parser.new
        (spec.routine_heading (ahead parser.old)) }
{
    let name = expect_name(parser)?;
    let locals = names(parser)?;
    expect(parser, Sign::Semicolon)?;
    Ok((name, locals))
}

// What closes a routine.
#[tactic(auto, unfolding(crate::specs::Parse::routine_end))]
fn routine_end<'t, 'a>(parser: &mut Parser<'t, 'a>) -> Parsed<()>
    ensures { Gives (λ _. ahead parser.new) result (spec.routine_end (ahead parser.old)) }
{
    expect(parser, Sign::CloseBracket)?;
    expect(parser, Sign::Semicolon)
}

// The statements of a routine, with what closes it.
#[tactic(auto, unfolding(crate::specs::Parse::routine_body))]
fn body<'t, 'a>(parser: &mut Parser<'t, 'a>, depth: usize) -> Parsed<Vec<Statement<'a>>>
    ensures { Takes (λ xs. map statement_tree xs.items) result parser.new
        (spec.routine_body depth (ahead parser.old)) }
{
    match statements(parser, depth) {
        Ok(found) => match routine_end(parser) {
            Ok(()) => Ok(found),
            Err(e) => Err(e),
        },
        Err(e) => Err(e),
    }
}

/// A routine, from its bracket on, with so many nestings to open in its statements.
///
/// # Errors
///
/// `Fault::Grammar` at the first token with which no derivation goes on, `Fault::Deep` at the token
/// for which no nesting is left, and `Memory` where a growth is refused.
#[tactic(auto, using(crate::proofs::Ends::routine_ends, crate::proofs::RoutineParts::routine_made))]
pub fn routine<'t, 'a>(parser: &mut Parser<'t, 'a>, depth: usize) -> Parsed<Box<Directive<'a>>>
    ensures { TakesDirective result parser.new (spec.one_routine depth (ahead parser.old)) }
{
    let opening = parser.tokens;
    pass(parser);
    match routine_heading(parser) {
        Ok((name, locals)) => match body(parser, depth) {
            Ok(body) => {
                let weight = weight_before(opening, parser.tokens);
                in_box(
                    parser,
                    Directive::Routine(Routine {
                        name,
                        locals,
                        body,
                        weight,
                    }),
                )
            }
            Err(e) => Err(e),
        },
        Err(e) => Err(e),
    }
}
