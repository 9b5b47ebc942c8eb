//! Definitions of arrays, read from tokens.

ghost use Rattle.std.specs.Prelude.{◌≡◌, map};
ghost use Rattle.syntax_lexer.specs.Token.{lexeme};
ghost use Rattle.syntax_trees.specs.Returned.{ahead, Takes};
ghost use Rattle.syntax_directives.specs.Views.{value_tree};
ghost use Rattle.syntax_directives.specs.Returned.{TakesDirective};
ghost use Rattle.syntax_directives.specs.Grammar as grammar;
ghost use Rattle.syntax_directives.specs.Parse as spec;

use crate::parts::in_box;
use crate::tree::{Array, ArrayKind, ArrayValue, Directive};
use syntax_expressions::expect_name;
use syntax_lexer::{Kind, Sign, Token, Word};
use syntax_statements::{begins_value, known_value};
use syntax_trees::{Fault, Parsed, Parser, expect, fault_at, pass, peek, position};

// The kind of array that the token names.
fn kind_of(token: Token<'_>) -> Option<ArrayKind>
    ensures { result ≡ grammar.kind_of (lexeme token.entry) }
{
    match token.kind {
        Kind::Sign(Sign::Arrow) => Some(ArrayKind::Bytes),
        Kind::Sign(Sign::LongArrow) => Some(ArrayKind::Words),
        Kind::Reserved(Word::String) => Some(ArrayKind::String),
        Kind::Reserved(Word::Table) => Some(ArrayKind::Table),
        _ => None,
    }
}

// The kind of array that comes next.
#[tactic(auto, unfolding(crate::specs::Parse::kind))]
fn kind<'t, 'a>(parser: &mut Parser<'t, 'a>) -> Parsed<ArrayKind>
    ensures { Takes (λ k. k) result parser.new (spec.kind (ahead parser.old)) }
{
    let Some(kind) = kind_of(peek(parser.tokens)) else {
        return Err(fault_at(Fault::Grammar, parser.tokens));
    };
    pass(parser);
    Ok(kind)
}

// A value, with the position of its first token.
#[tactic(auto, unfolding(crate::specs::Parse::array_value))]
fn array_value<'t, 'a>(parser: &mut Parser<'t, 'a>) -> Parsed<ArrayValue<'a>>
    ensures { Takes value_tree result parser.new (spec.array_value (ahead parser.old)) }
{
    let position = position(parser.tokens);
    let value = known_value(parser)?;
    Ok(ArrayValue { position, value })
}

/// Values, at least one.
///
/// # Errors
///
/// `Fault::Grammar` at the first token: it begins no value; or after `-`. `Memory` where a growth
/// is refused.
#[tactic(auto, unfolding(crate::specs::Parse::values), using(syntax_trees::proofs::Loops::repeated_out, syntax_trees::proofs::Loops::repeated_done, syntax_trees::proofs::Loops::repeated_more, syntax_trees::proofs::Loops::repeated_fails))]
pub fn values<'t, 'a>(parser: &mut Parser<'t, 'a>) -> Parsed<Vec<ArrayValue<'a>>>
    ensures { Takes (λ vs. map value_tree vs.items) result parser.new
        (spec.values (ahead parser.old)) }
{
    let mut found = Vec::new(parser.alloc);
    let first = array_value(parser)?;
    found.push(first)?;
    for _turn in 0..parser.tokens.len() {
        if !begins_value(peek(parser.tokens)) {
            break;
        }
        let next = array_value(parser)?;
        found.push(next)?;
    }
    Ok(found)
}

/// An array, from its word on.
///
/// # Errors
///
/// `Fault::Grammar` at the first token with which no derivation goes on; `Memory` where a growth is
/// refused.
#[tactic(auto, unfolding(crate::specs::Parse::directive_of, crate::specs::Parse::array_after))]
pub fn array<'t, 'a>(parser: &mut Parser<'t, 'a>) -> Parsed<Box<Directive<'a>>>
    ensures { TakesDirective result parser.new (spec.directive_of Word.Array (ahead parser.old)) }
{
    pass(parser);
    let name = expect_name(parser)?;
    let kind = kind(parser)?;
    let values = values(parser)?;
    expect(parser, Sign::Semicolon)?;
    in_box(parser, Directive::Array(Array { name, kind, values }))
}
