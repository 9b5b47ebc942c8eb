//! Names, read from tokens.

ghost use Rattle.std.specs.Prelude.{map};
ghost use Rattle.syntax_trees.specs.Views.{name_tree};
ghost use Rattle.syntax_trees.specs.Returned.{ahead, Takes};
ghost use Rattle.syntax_directives.specs.Parse as spec;

use syntax_expressions::name_of;
use syntax_trees::{Fault, Name, Parsed, Parser, fault_at, pass, peek};

/// Names, up to a token that is none.
///
/// # Errors
///
/// `Memory`: a growth is refused.
#[tactic(auto, unfolding(crate::specs::Parse::names), using(crate::proofs::NamesRead::names_more, syntax_trees::proofs::Loops::repeated_out, syntax_trees::proofs::Loops::repeated_done, syntax_trees::proofs::Loops::joined_none))]
pub fn names<'t, 'a>(parser: &mut Parser<'t, 'a>) -> Parsed<Vec<Name<'a>>>
    ensures { Takes (λ ns. map name_tree ns.items) result parser.new
        (spec.names (ahead parser.old)) }
{
    let mut found = Vec::new(parser.alloc);
    for _turn in 0..parser.tokens.len() {
        let Some(name) = name_of(peek(parser.tokens)) else {
            break;
        };
        found.push(name)?;
        pass(parser);
    }
    Ok(found)
}

/// Names, at least one.
///
/// # Errors
///
/// `Fault::Grammar` at the next token: it is no name; `Memory`: a growth is refused.
#[tactic(auto, unfolding(crate::specs::Parse::some_names), using(crate::proofs::NamesRead::no_names, crate::proofs::NamesRead::names_found))]
pub fn some_names<'t, 'a>(parser: &mut Parser<'t, 'a>) -> Parsed<Vec<Name<'a>>>
    ensures { Takes (λ ns. map name_tree ns.items) result parser.new
        (spec.some_names (ahead parser.old)) }
{
    let found = names(parser)?;
    if found.is_empty() {
        return Err(fault_at(Fault::Grammar, parser.tokens));
    }
    Ok(found)
}
