//! Definitions of objects, read from tokens.

ghost use Rattle.std.specs.Prelude.{◌≡◌, map, Ok};
ghost use Rattle.std.specs.Option.{option_map};
ghost use Rattle.syntax_lexer.specs.Token.{lexemes};
ghost use Rattle.syntax_trees.specs.Views.{name_tree};
ghost use Rattle.syntax_trees.specs.Returned.{ahead, Takes};
ghost use Rattle.syntax_directives.specs.Views.{text_tree, head_tree, property_tree};
ghost use Rattle.syntax_directives.specs.Returned.{TakesDirective};
ghost use Rattle.syntax_directives.specs.Parse as spec;

use crate::arrays::values;
use crate::names::some_names;
use crate::parts::in_box;
use crate::tree::{Directive, Object, Property, Text};
use syntax_expressions::{expect_name, name_of};
use syntax_lexer::{Kind, Position, Sign, Token, Word};
use syntax_trees::{
    Fault, Name, Parsed, Parser, expect, fault_at, is_sign, is_word, pass, peek, position, skip,
};

// What an object begins with: where each arrow stands, its name, its short name and its parent.
#[derive(Drop)]
struct Head<'a> {
    arrows: Vec<Position>,
    name: Name<'a>,
    short: Option<Text<'a>>,
    parent: Option<Name<'a>>,
}

// Where each arrow stands, up to a token that is none.
#[tactic(auto, unfolding(crate::specs::Parse::arrows), using(crate::proofs::Arrows::arrows_out, crate::proofs::Arrows::arrows_done, crate::proofs::Arrows::arrows_more, syntax_trees::proofs::Loops::joined_none))]
fn arrows<'t, 'a>(parser: &mut Parser<'t, 'a>) -> Parsed<Vec<Position>>
    ensures { Takes (λ ps. ps.items) result parser.new (spec.arrows (ahead parser.old)) }
{
    let mut found = Vec::new(parser.alloc);
    for _turn in 0..parser.tokens.len() {
        if !is_sign(peek(parser.tokens), Sign::Arrow) {
            break;
        }
        found.push(position(parser.tokens))?;
        pass(parser);
    }
    Ok(found)
}

// The text that comes next, if one does.
#[tactic(auto, unfolding(crate::specs::Parse::short))]
fn short<'t, 'a>(parser: &mut Parser<'t, 'a>) -> Option<Text<'a>>
    ensures { spec.short (ahead parser.old) ≡ Ok (option_map text_tree result, ahead parser.new) }
{
    let next = peek(parser.tokens);
    match next.kind {
        Kind::Text(bytes) => {
            pass(parser);
            Some(Text {
                bytes,
                position: next.position,
            })
        }
        _ => None,
    }
}

// The name of a parent, if one comes next where no arrow stands.
#[tactic(auto, using(crate::proofs::Arrows::parent_after_arrows, crate::proofs::Arrows::parent_found, crate::proofs::Arrows::parent_absent))]
fn parent<'t, 'a>(parser: &mut Parser<'t, 'a>, arrows: &Vec<Position>) -> Option<Name<'a>>
    ensures { spec.parent arrows.now.items (ahead parser.old)
        ≡ Ok (option_map name_tree result, ahead parser.new) }
{
    if !arrows.is_empty() {
        return None;
    }
    let Some(name) = name_of(peek(parser.tokens)) else {
        return None;
    };
    pass(parser);
    Some(name)
}

// What an object begins with.
#[tactic(auto, unfolding(crate::specs::Parse::object_heading))]
fn object_heading<'t, 'a>(parser: &mut Parser<'t, 'a>) -> Parsed<Head<'a>>
    ensures { Takes head_tree result parser.new (spec.object_heading (ahead parser.old)) }
{
    let arrows = arrows(parser)?;
    let name = expect_name(parser)?;
    let short = short(parser);
    let parent = parent(parser, &arrows);
    Ok(Head {
        arrows,
        name,
        short,
        parent,
    })
}

// The tokens after a comma, if one comes next.
#[tactic(auto, unfolding(crate::specs::Parse::past_comma))]
fn past_comma<'t, 'a>(tokens: &'t [Token<'a>]) -> &'t [Token<'a>]
    ensures { lexemes result.now ≡ spec.past_comma (lexemes tokens.now) }
{
    if is_sign(peek(tokens), Sign::Comma) {
        skip(tokens)
    } else {
        tokens
    }
}

// A property and its values.
#[tactic(auto, unfolding(crate::specs::Parse::prop))]
fn property<'t, 'a>(parser: &mut Parser<'t, 'a>) -> Parsed<Property<'a>>
    ensures { Takes property_tree result parser.new (spec.prop (ahead parser.old)) }
{
    let name = expect_name(parser)?;
    let values = values(parser)?;
    Ok(Property { name, values })
}

// Whether another property comes next, after a comma.
#[tactic(auto, unfolding(crate::specs::Parse::lists_further))]
fn lists_further(tokens: &[Token<'_>]) -> bool
    ensures { result ≡ spec.lists_further (lexemes tokens.now) }
{
    is_sign(peek(tokens), Sign::Comma) && name_of(peek(skip(tokens))).is_some()
}

// A property after a comma.
#[tactic(auto, unfolding(crate::specs::Parse::next_prop))]
fn next_property<'t, 'a>(parser: &mut Parser<'t, 'a>) -> Parsed<Property<'a>>
    ensures { Takes property_tree result parser.new (spec.next_prop (ahead parser.old)) }
{
    expect(parser, Sign::Comma)?;
    property(parser)
}

// Properties, at least one, with commas between them.
#[tactic(auto, unfolding(crate::specs::Parse::props), using(syntax_trees::proofs::Loops::as_long_out, syntax_trees::proofs::Loops::as_long_done, syntax_trees::proofs::Loops::as_long_more, syntax_trees::proofs::Loops::as_long_fails))]
fn listed<'t, 'a>(parser: &mut Parser<'t, 'a>) -> Parsed<Vec<Property<'a>>>
    ensures { Takes (λ xs. map property_tree xs.items) result parser.new
        (spec.props (ahead parser.old)) }
{
    let mut found = Vec::new(parser.alloc);
    let first = property(parser)?;
    found.push(first)?;
    for _turn in 0..parser.tokens.len() {
        if !lists_further(parser.tokens) {
            break;
        }
        let next = next_property(parser)?;
        found.push(next)?;
    }
    Ok(found)
}

// The properties that an object provides, after `with`.
#[tactic(auto, unfolding(crate::specs::Parse::properties))]
fn properties<'t, 'a>(parser: &mut Parser<'t, 'a>) -> Parsed<Vec<Property<'a>>>
    ensures { Takes (λ xs. map property_tree xs.items) result parser.new
        (spec.properties (ahead parser.old)) }
{
    let after = past_comma(parser.tokens);
    if is_word(peek(after), Word::With) {
        parser.tokens = skip(after);
        return listed(parser);
    }
    Ok(Vec::new(parser.alloc))
}

// The names of an object's attributes, after `has`. A comma that neither `with` nor `has` follows
// is not in the grammar.
#[tactic(auto, unfolding(crate::specs::Parse::attributes))]
fn attributes<'t, 'a>(parser: &mut Parser<'t, 'a>) -> Parsed<Vec<Name<'a>>>
    ensures { Takes (λ ns. map name_tree ns.items) result parser.new
        (spec.attributes (ahead parser.old)) }
{
    let after = past_comma(parser.tokens);
    if is_word(peek(after), Word::Has) {
        parser.tokens = skip(after);
        return some_names(parser);
    }
    if is_sign(peek(parser.tokens), Sign::Comma) {
        return Err(fault_at(Fault::Grammar, after));
    }
    Ok(Vec::new(parser.alloc))
}

/// An object, from its word on.
///
/// # Errors
///
/// `Fault::Grammar` at the first token with which no derivation goes on; `Memory` where a growth is
/// refused.
#[tactic(auto, unfolding(crate::specs::Parse::directive_of, crate::specs::Parse::object_after))]
pub fn object<'t, 'a>(parser: &mut Parser<'t, 'a>) -> Parsed<Box<Directive<'a>>>
    ensures { TakesDirective result parser.new (spec.directive_of Word.Object (ahead parser.old)) }
{
    pass(parser);
    let head = object_heading(parser)?;
    let properties = properties(parser)?;
    let attributes = attributes(parser)?;
    expect(parser, Sign::Semicolon)?;
    in_box(
        parser,
        Directive::Object(Object {
            arrows: head.arrows,
            name: head.name,
            short: head.short,
            parent: head.parent,
            properties,
            attributes,
        }),
    )
}
