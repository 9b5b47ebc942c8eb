//! Names and arrays, read from tokens.

ghost use Rattle.std.specs.Prelude.{◌≡◌, false, MatchOption, None, Some};
ghost use Rattle.syntax_lexer.specs.Token.{lexeme, lexemes, name};
ghost use Rattle.syntax_trees.specs.Views.{name_tree};
ghost use Rattle.syntax_trees.specs.Returned.{ahead, Takes};
ghost use Rattle.syntax_expressions.specs.PartParse as spec;

use crate::operators::indexing;
use syntax_lexer::{Kind, Sign, Token};
use syntax_trees::{Fault, Name, Parsed, Parser, Width, expect, fault_at, pass, peek, skip};

/// The name that the token is, with its position.
pub fn name_of<'a>(token: Token<'a>) -> Option<Name<'a>>
    ensures { MatchOption result (spec.is_name (lexeme token.entry) ≡ false)
        (λ n. lexeme token.entry ≡ name n.text.now n.position) }
{
    match token.kind {
        Kind::Name(text) => Some(Name {
            text,
            position: token.position,
        }),
        _ => None,
    }
}

/// The array whose entry comes next, and the width of its entries: a name, and an arrow after it.
#[tactic(auto, using(crate::proofs::ArrayParts::array_found, crate::proofs::ArrayParts::array_no_name, crate::proofs::ArrayParts::array_no_arrow))]
pub fn array<'a>(tokens: &[Token<'a>]) -> Option<(Name<'a>, Width)>
    ensures { MatchOption result (spec.array_at (lexemes tokens.now) ≡ None)
        (λ x. spec.array_at (lexemes tokens.now) ≡ Some (name_tree x.0, x.1)) }
{
    let Some(width) = indexing(peek(skip(tokens))) else {
        return None;
    };
    let Some(name) = name_of(peek(tokens)) else {
        return None;
    };
    Some((name, width))
}

/// The name that comes next.
///
/// # Errors
///
/// `Fault::Grammar` at the next token: it is no name.
#[tactic(auto, using(crate::proofs::NamesRead::name_found, crate::proofs::NamesRead::no_name))]
pub fn expect_name<'t, 'a>(parser: &mut Parser<'t, 'a>) -> Parsed<Name<'a>>
    ensures { Takes name_tree result parser.new (spec.expect_name (ahead parser.old)) }
{
    let Some(found) = name_of(peek(parser.tokens)) else {
        return Err(fault_at(Fault::Grammar, parser.tokens));
    };
    pass(parser);
    Ok(found)
}

/// The name of a property whose entry is read, and the arrow after it, after `.&`.
///
/// # Errors
///
/// `Fault::Grammar` at the token that is not the name, or not the arrow.
#[tactic(auto, unfolding(crate::specs::PartParse::entry_of))]
pub fn property_name<'t, 'a>(parser: &mut Parser<'t, 'a>) -> Parsed<Name<'a>>
    ensures { Takes name_tree result parser.new (spec.entry_of (ahead parser.old)) }
{
    let found = expect_name(parser)?;
    expect(parser, Sign::LongArrow)?;
    Ok(found)
}
