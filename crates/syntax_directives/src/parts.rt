//! Directives made of their parts, where all that stands before their `;` is read already. Trees
//! come and go in boxes, and are made last, after all that can be at fault: where a function holds
//! a tree by value, its proof has all kinds of trees before it, with all that each holds, at every
//! way out. The parser comes first among the arguments, as in the callers: else the prover compares
//! the types of the arguments part by part.
//!
//! # Errors
//!
//! `Memory` where a growth is refused; `Fault::Grammar` at the next token: it is not `;`.

ghost use Rattle.std.specs.Prelude.{Ok};
ghost use Rattle.syntax_trees.specs.Views.{name_tree};
ghost use Rattle.syntax_trees.specs.Returned.{ahead};
ghost use Rattle.syntax_statements.specs.PartViews.{literal_tree};
ghost use Rattle.syntax_directives.specs.Tree as tree;
ghost use Rattle.syntax_directives.specs.Views.{directive_tree, optional_tree};
ghost use Rattle.syntax_directives.specs.Returned.{TakesDirective};
ghost use Rattle.syntax_directives.specs.Parse as spec;

use crate::tree::Directive;
use syntax_lexer::Sign;
use syntax_statements::Literal;
use syntax_trees::{Name, Parsed, Parser, expect, memory};

/// A directive in a box. Where memory is refused the directive is dropped here.
pub fn in_box<'t, 'a>(
    parser: &Parser<'t, 'a>,
    directive: Directive<'a>,
) -> Parsed<Box<Directive<'a>>>
    ensures { TakesDirective result parser.now
        (Ok (directive_tree directive.entry, ahead parser.now)) }
{
    memory::in_box(parser.alloc, directive)
}

/// A global variable, with its `;`.
#[tactic(auto, unfolding(crate::specs::Parse::ended))]
pub fn global<'t, 'a>(
    parser: &mut Parser<'t, 'a>,
    name: Name<'a>,
    first: Option<Literal<'a>>,
) -> Parsed<Box<Directive<'a>>>
    ensures { TakesDirective result parser.new
        (spec.ended (tree.global (name_tree name.entry) (optional_tree first.entry))
        (ahead parser.old)) }
{
    expect(parser, Sign::Semicolon)?;
    in_box(parser, Directive::Global(name, first))
}

/// A constant, with its `;`.
#[tactic(auto, unfolding(crate::specs::Parse::ended))]
pub fn constant<'t, 'a>(
    parser: &mut Parser<'t, 'a>,
    name: Name<'a>,
    value: Literal<'a>,
) -> Parsed<Box<Directive<'a>>>
    ensures { TakesDirective result parser.new
        (spec.ended (tree.constant (name_tree name.entry) (literal_tree value.entry))
        (ahead parser.old)) }
{
    expect(parser, Sign::Semicolon)?;
    in_box(parser, Directive::Constant(name, value))
}

/// An attribute, with its `;`.
#[tactic(auto, unfolding(crate::specs::Parse::ended))]
pub fn attribute<'t, 'a>(parser: &mut Parser<'t, 'a>, name: Name<'a>) -> Parsed<Box<Directive<'a>>>
    ensures { TakesDirective result parser.new
        (spec.ended (tree.attribute (name_tree name.entry)) (ahead parser.old)) }
{
    expect(parser, Sign::Semicolon)?;
    in_box(parser, Directive::Attribute(name))
}

/// A property, with its `;`.
#[tactic(auto, unfolding(crate::specs::Parse::ended))]
pub fn property<'t, 'a>(
    parser: &mut Parser<'t, 'a>,
    name: Name<'a>,
    default: Option<Literal<'a>>,
) -> Parsed<Box<Directive<'a>>>
    ensures { TakesDirective result parser.new
        (spec.ended (tree.property (name_tree name.entry) (optional_tree default.entry))
        (ahead parser.old)) }
{
    expect(parser, Sign::Semicolon)?;
    in_box(parser, Directive::Property(name, default))
}
