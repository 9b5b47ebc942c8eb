//! Directives, read from tokens.

ghost use Rattle.syntax_trees.specs.Returned.{ahead};
ghost use Rattle.syntax_directives.specs.Returned.{TakesDirective};
ghost use Rattle.syntax_directives.specs.Parse as spec;

use crate::arrays::array;
use crate::objects::object;
use crate::parts;
use crate::routines::routine;
use crate::tree::Directive;
use syntax_expressions::expect_name;
use syntax_lexer::{Kind, Sign, Word};
use syntax_statements::{begins_value, known_value};
use syntax_trees::{Fault, Parsed, Parser, expect, fault_at, is_sign, pass, peek};

// A global variable, from its word on.
#[tactic(auto, unfolding(crate::specs::Parse::directive_of, crate::specs::Parse::global_after))]
fn global<'t, 'a>(parser: &mut Parser<'t, 'a>) -> Parsed<Box<Directive<'a>>>
    ensures { TakesDirective result parser.new (spec.directive_of Word.Global (ahead parser.old)) }
{
    pass(parser);
    let name = expect_name(parser)?;
    if !is_sign(peek(parser.tokens), Sign::Assign) {
        return parts::global(parser, name, None);
    }
    pass(parser);
    let first = known_value(parser)?;
    parts::global(parser, name, Some(first))
}

// A constant, from its word on.
#[tactic(auto, unfolding(crate::specs::Parse::directive_of, crate::specs::Parse::constant_after))]
fn constant<'t, 'a>(parser: &mut Parser<'t, 'a>) -> Parsed<Box<Directive<'a>>>
    ensures { TakesDirective result parser.new (spec.directive_of Word.Constant (ahead parser.old)) }
{
    pass(parser);
    let name = expect_name(parser)?;
    expect(parser, Sign::Assign)?;
    let value = known_value(parser)?;
    parts::constant(parser, name, value)
}

// An attribute, from its word on.
#[tactic(auto, unfolding(crate::specs::Parse::directive_of, crate::specs::Parse::attribute_after))]
fn attribute<'t, 'a>(parser: &mut Parser<'t, 'a>) -> Parsed<Box<Directive<'a>>>
    ensures { TakesDirective result parser.new (spec.directive_of Word.Attribute (ahead parser.old)) }
{
    pass(parser);
    let name = expect_name(parser)?;
    parts::attribute(parser, name)
}

// A property, from its word on.
#[tactic(auto, unfolding(crate::specs::Parse::directive_of, crate::specs::Parse::property_after))]
fn property<'t, 'a>(parser: &mut Parser<'t, 'a>) -> Parsed<Box<Directive<'a>>>
    ensures { TakesDirective result parser.new (spec.directive_of Word.Property (ahead parser.old)) }
{
    pass(parser);
    let name = expect_name(parser)?;
    if !begins_value(peek(parser.tokens)) {
        return parts::property(parser, name, None);
    }
    let default = known_value(parser)?;
    parts::property(parser, name, Some(default))
}

// The directive that begins with that word.
#[tactic(auto, unfolding(crate::specs::Parse::directive_of))]
fn directive_of<'t, 'a>(parser: &mut Parser<'t, 'a>, word: Word) -> Parsed<Box<Directive<'a>>>
    ensures { TakesDirective result parser.new (spec.directive_of word (ahead parser.old)) }
{
    match word {
        Word::Global => global(parser),
        Word::Constant => constant(parser),
        Word::Array => array(parser),
        Word::Attribute => attribute(parser),
        Word::Property => property(parser),
        Word::Object => object(parser),
        _ => Err(fault_at(Fault::Grammar, parser.tokens)),
    }
}

/// The directive that comes next, with `depth` nestings to open in a statement of a routine.
///
/// # Errors
///
/// `Fault::Grammar` at the first token with which no derivation goes on, `Fault::Deep` at the token
/// for which no nesting is left, and `Memory` where a growth is refused.
#[tactic(auto, unfolding(crate::specs::Parse::directive))]
pub fn directive<'t, 'a>(parser: &mut Parser<'t, 'a>, depth: usize) -> Parsed<Box<Directive<'a>>>
    ensures { TakesDirective result parser.new (spec.directive depth (ahead parser.old)) }
{
    match peek(parser.tokens).kind {
        Kind::Reserved(word) => directive_of(parser, word),
        Kind::Sign(Sign::OpenBracket) => routine(parser, depth),
        _ => Err(fault_at(Fault::Grammar, parser.tokens)),
    }
}
