//! Texts, read from tokens.

ghost use Rattle.std.specs.Prelude.{◌≡◌, map};
ghost use Rattle.syntax_lexer.specs.Token.{lexeme};
ghost use Rattle.syntax_trees.specs.Returned.{ahead, Takes};
ghost use Rattle.syntax_directives.specs.Views.{text_tree};
ghost use Rattle.syntax_directives.specs.Parse as spec;

use crate::tree::Text;
use syntax_lexer::{Kind, Sign, Token};
use syntax_trees::{Fault, Parsed, Parser, expect, fault_at, pass, peek};

fn is_text(token: Token<'_>) -> bool
    ensures { result ≡ spec.is_text (lexeme token.entry) }
{
    matches!(token.kind, Kind::Text(_))
}

// The text that comes next.
#[tactic(auto, unfolding(crate::specs::Parse::one_text))]
fn one_text<'t, 'a>(parser: &mut Parser<'t, 'a>) -> Parsed<Text<'a>>
    ensures { Takes text_tree result parser.new (spec.one_text (ahead parser.old)) }
{
    let next = peek(parser.tokens);
    match next.kind {
        Kind::Text(bytes) => {
            pass(parser);
            Ok(Text {
                bytes,
                position: next.position,
            })
        }
        _ => Err(fault_at(Fault::Grammar, parser.tokens)),
    }
}

// Texts, at least one.
#[tactic(auto, unfolding(crate::specs::Parse::texts), using(syntax_trees::proofs::Loops::repeated_out, syntax_trees::proofs::Loops::repeated_done, syntax_trees::proofs::Loops::repeated_more, syntax_trees::proofs::Loops::repeated_fails))]
fn texts<'t, 'a>(parser: &mut Parser<'t, 'a>) -> Parsed<Vec<Text<'a>>>
    ensures { Takes (λ xs. map text_tree xs.items) result parser.new
        (spec.texts (ahead parser.old)) }
{
    let mut found = Vec::new(parser.alloc);
    let first = one_text(parser)?;
    found.push(first)?;
    for _turn in 0..parser.tokens.len() {
        if !is_text(peek(parser.tokens)) {
            break;
        }
        let next = one_text(parser)?;
        found.push(next)?;
    }
    Ok(found)
}

/// The texts after `abbreviate`, with their `;`.
///
/// # Errors
///
/// `Fault::Grammar` at the first token with which no derivation goes on; `Memory` where a growth is
/// refused.
#[tactic(auto, unfolding(crate::specs::Parse::abbreviate_after))]
pub fn abbreviate<'t, 'a>(parser: &mut Parser<'t, 'a>) -> Parsed<Vec<Text<'a>>>
    ensures { Takes (λ xs. map text_tree xs.items) result parser.new
        (spec.abbreviate_after (ahead parser.old)) }
{
    let found = texts(parser)?;
    expect(parser, Sign::Semicolon)?;
    Ok(found)
}
